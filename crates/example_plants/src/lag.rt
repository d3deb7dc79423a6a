//! First-order lags, in numbers with 16 bits after the binary point.

ghost use Rattle.std.specs.Prelude.{◌≡◌, ◌<◌};
ghost use Rattle.example_plants.specs.Lag.{lag_step};

/// A value that approaches a target, after one step: by the difference over 2 to the power of
/// `bits`, which is the time constant in steps.
pub(crate) fn lagging(value: i32, target: i32, bits: u32) -> i32
    requires { bits < 32 }
    ensures { result ≡ lag_step value target bits }
{
    value.saturating_add(target.saturating_sub(value) >> bits)
}
