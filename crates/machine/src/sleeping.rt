//! The cycles in which every thread sleeps.

ghost use Rattle.std.specs.Prelude.{◌≡◌, ℕ, ◌<◌, ◌≤◌, true, false, is_some, slice_index_or};
ghost use Rattle.std.specs.List.{list_any};
ghost use Rattle.slot_scheduler.specs.ModeWord.{is_active, mode_of};
ghost use Rattle.timer_unit.specs.Time.{time};
ghost use Rattle.machine.specs.OneCycle.{Skips};
ghost use Rattle.machine.specs.Sleeping.{NobodyAwake, SleepsOn};

use crate::state::Machine;
use pipeline_core::Stages;

/// In a cycle with an empty pipeline and no thread awake nothing changes, and no event retires. The
/// contract states the theorem; the call does nothing.
pub fn sleeps_on()
    ensures { SleepsOn }
{}

/// The sleep moment used for a thread that isn't active: the greatest u64.
const NEVER: u64 = u64::MAX;

/// The mode of an active hard thread.
const HARD_ACTIVE: u8 = 0;

/// The mode of an active soft thread.
const SOFT_ACTIVE: u8 = 2;

/// Whether a thread of this mode is active, hard or soft.
fn is_active(mode: u8) -> bool
    ensures { result ≡ is_active mode }
{
    mode == HARD_ACTIVE || mode == SOFT_ACTIVE
}

impl Machine {
    /// Skips cycles before `end` in which every thread sleeps, in one step, if the pipeline of
    /// these stage registers is empty. It may skip fewer such cycles than there are, or none. It
    /// skips none if any port is ever removed, since a port must be removed in its cycle. The turn
    /// in `w` may be any before, and is a bubble after a skipped cycle.
    ///
    /// It isn't inlined, so that cycles in which a thread is picked have only the test of `f`.
    #[cold]
    #[inline(never)]
    pub(crate) fn skip_empty(&mut self, stages: &Stages, end: u64)
        requires { self.old.at ≤ end }
        ensures { Skips stages.now self.old end stages.now self.new }
    {
        if stages.is_empty() {
            self.at = self.end_of_sleep(end);
        }
    }

    /// The first cycle, at most `end`, in which a thread may be awake. It is the current cycle if
    /// any port is ever removed.
    fn end_of_sleep(&self, end: u64) -> u64
        requires { self.now.at ≤ end }
        ensures from { self.now.at ≤ result }
        ensures end { result ≤ end }
        ensures asleep { (c : ℕ) → self.now.at ≤ c → c < result
            → NobodyAwake self.now.units.sched (time self.now.units.clock c) }
        ensures ports { self.now.at < result → list_any is_some self.now.unplugs ≡ false }
    {
        if self.loses_ports() {
            return self.at;
        }
        self.at.max(self.first_awake_cycle().min(end))
    }

    /// The first cycle in which a thread is awake, by the current modes and sleep moments.
    fn first_awake_cycle(&self) -> u64
        ensures { (c : ℕ) → c < result
            → NobodyAwake self.now.units.sched (time self.now.units.clock c) }
    {
        // The time of cycle 1 is the period, which is at least 1.
        let period = self.units.clock.now(1).max(1);
        self.least_sleep_moment().div_ceil(period)
    }

    /// The least sleep moment of the active threads, in nanoseconds.
    fn least_sleep_moment(&self) -> u64
        ensures { (thread : ℕ) → thread < 8
            → is_active (mode_of self.now.units.sched.modes thread) ≡ true
            → result ≤ slice_index_or self.now.units.sched.sleep thread 0 }
    {
        let mut first = NEVER;
        for thread in 0..8 {
            first = first.min(self.sleep_moment(thread));
        }
        first
    }

    /// The sleep moment of a thread if it is active, else [`NEVER`].
    fn sleep_moment(&self, thread: u8) -> u64
        requires { thread < 8 }
        ensures { is_active (mode_of self.now.units.sched.modes thread) ≡ true
            → result ≤ slice_index_or self.now.units.sched.sleep thread 0 }
    {
        if is_active(self.units.sched.modes.mode(thread)) {
            self.units.sched.sleep[usize::from(thread)]
        } else {
            NEVER
        }
    }
}
