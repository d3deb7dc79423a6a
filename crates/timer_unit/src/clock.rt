//! Cycles and words as moments.

ghost use Rattle.std.specs.Prelude.{◌≡◌, ◌≤◌};
ghost use Rattle.timer_unit.specs.Time.{last_timed_cycle, moment, time};

use std::marker::Model;

/// The most cycles that a run may have, and the last cycle that an input may name: their times fit
/// in 64 bits with every period.
pub const MOST_CYCLES: u64 = 4_000_000_000;

/// The last cycle whose time a [`Clock`] computes: ten past the most cycles of a run.
pub const LAST_TIMED_CYCLE: u64 = MOST_CYCLES + 10;

/// The clock of the core, whose cycles have a period of 1 to 1,000 nanoseconds.
#[derive(Clone, Copy, Debug)]
pub struct Clock {
    period: u32,
}

impl Model for Clock {
    ghost use Rattle.std.specs.Prelude.{ℕ, ◌≤◌};

    ghost Value = { ℕ };

    ghost view = { λ c. c.period };

    ghost invariant = { λ c. (1 ≤ c.period) × (c.period ≤ 1000) };

    ghost inverse = { λ n. record { period = n } };
}

impl Clock {
    /// The clock whose cycles have this many nanoseconds.
    pub fn new(period: u32) -> Clock
        requires some { 1 ≤ period }
        requires few { period ≤ 1000 }
        ensures { result ≡ period }
    {
        Clock { period }
    }

    /// The time of a cycle, in nanoseconds since cycle 0. The cycle is at most
    /// [`LAST_TIMED_CYCLE`].
    pub fn now(&self, cycle: u64) -> u64
        requires { cycle ≤ last_timed_cycle }
        ensures { result ≡ time self.now cycle }
    {
        u64::from(self.period) * cycle
    }
}

/// The moment, in nanoseconds, of a high and a low word.
pub fn moment(hi: u32, lo: u32) -> u64
    ensures { result ≡ moment hi lo }
{
    (u64::from(hi) << 32) + u64::from(lo)
}
