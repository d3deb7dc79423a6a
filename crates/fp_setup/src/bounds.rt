//! The ranges of a setup's integers.

ghost use Rattle.std.specs.Prelude.{◌≡◌, ◌<◌, ◌≤◌};
ghost use Rattle.fp_setup.specs.FaultOrder.{addresses, integers};
ghost use Rattle.region_guard.specs.Regions.{IsSize};
ghost use Rattle.fp_setup.specs.Settings.{size_of};
ghost use Rattle.fp_setup.specs.Checks.{is_in};

use region_guard::{LARGE_SIZE, SMALL_SIZE};

/// The multiples of `step` from `low` to `high`. The step isn't 0.
#[derive(Clone, Copy)]
pub(crate) struct Range {
    pub low: u32,
    pub high: u32,
    pub step: u32,
}

impl Range {
    /// The integers from one to another.
    pub(crate) fn integers(low: u32, high: u32) -> Range
        ensures { result ≡ integers low high }
    {
        Range { low, high, step: 1 }
    }

    /// The addresses of words, from `low` to the last word of a scratchpad of `size` bytes. `size`
    /// is at least 4.
    pub(crate) fn addresses(low: u32, size: u32) -> Range
        requires { 4 ≤ size }
        ensures { result ≡ addresses low size }
    {
        Range {
            low,
            high: size - 4,
            step: 4,
        }
    }

    /// Whether a number is in the range.
    pub(crate) fn contains(&self, n: u32) -> bool
        requires { 0 < self.now.step }
        ensures { result ≡ is_in self.now n }
    {
        self.low <= n && n <= self.high && n % self.step == 0
    }
}

/// The size of each scratchpad in bytes, by a version.
pub(crate) fn size_of_version(version: u32) -> u32
    ensures size { result ≡ size_of version }
    ensures one_of { IsSize result }
{
    if version == 2 { LARGE_SIZE } else { SMALL_SIZE }
}
