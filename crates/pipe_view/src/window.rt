//! The cycles that are shown.

ghost use Rattle.std.specs.Prelude.{◌≡◌, ◌+◌, ◌<◌, ◌≤◌, MatchOption};
ghost use Rattle.timer_unit.specs.Time.{most_cycles};

use timer_unit::MOST_CYCLES;

/// The number of cycles from a turn's issue until it comes out of M.
const UNTIL_WHOLE: u64 = 3;

/// The cycles that are shown: from `from` on, up to the one before `to`.
#[derive(Clone, Copy)]
pub struct Window {
    from: u64,
    to: u64,
    ghost order: { from ≤ to },
    ghost limit: { to + 3 ≤ most_cycles },
}

impl Window {
    /// The greatest end of a window: the machine does three more cycles.
    pub const MOST: u64 = MOST_CYCLES - UNTIL_WHOLE;

    /// The window of these cycles, if it is one: not empty, and before the last cycle.
    pub fn new(from: u64, to: u64) -> Option<Window>
        ensures { MatchOption result (from < to → to + 3 ≤ most_cycles → ⊥)
            (λ window. (from < to) × (window.from ≡ from) × (window.to ≡ to)) }
    {
        if from < to && to <= Window::MOST {
            Some(Window { from, to })
        } else {
            None
        }
    }

    /// The first cycle that is shown.
    pub fn from(&self) -> u64
        ensures at { result ≡ self.now.from }
        ensures limit { result + 3 ≤ most_cycles }
    {
        self.from
    }

    /// The number of cycles that a machine does, from cycle 0 on, until the window's cycles are
    /// complete.
    pub fn run_len(&self) -> u64
        ensures at { result ≡ self.now.to + 3 }
        ensures limit { result ≤ most_cycles }
    {
        self.to + UNTIL_WHOLE
    }
}
