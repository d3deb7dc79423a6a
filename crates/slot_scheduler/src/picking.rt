//! The pick of a cycle.

ghost use Rattle.std.specs.Prelude.{◌≡◌, ◌<◌, ◌&&◌, IfSome, IsTrue, find, nat_lt};
ghost use Rattle.slot_table.specs.Frame.{is_slot, turn_named};
ghost use Rattle.slot_table.specs.Table.{early};
ghost use Rattle.slot_scheduler.specs.Picking.{IsPick, after_last, donation};
ghost use Rattle.slot_scheduler.specs.Picking.{is_awake, pick, pick_in, takes_donated};

use crate::mode_word::Modes;
use slot_table::{DISABLED, SlotTable};
use std::marker::Model;

/// The inputs of picking.
#[derive(Clone, Copy, Debug)]
pub struct Sched {
    /// Who shares the cycles: the register slots (0x7C0).
    pub slots: SlotTable,
    /// Which threads are active, and which are soft: the register modes (0x7C1).
    pub modes: Modes,
    /// For each thread, the time in nanoseconds from which it is awake, 0 if it never slept.
    pub sleep: [u64; 8],
}

/// Who has a cycle.
#[derive(Clone, Copy, Debug)]
pub enum Pick {
    /// A thread, which issues an instruction if it is ready.
    Issue { thread: u8 },
    /// No thread.
    Bubble,
}

/// The round-robin pointer: the thread that was picked last in a soft slot or in a donated one, at
/// first 7.
#[derive(Clone, Copy, Debug)]
pub struct Scheduler {
    last: u8,
}

impl Model for Scheduler {
    ghost use Rattle.std.specs.Prelude.{ℕ, ◌<◌};

    ghost Value = { ℕ };

    ghost view = { λ s. s.last };

    ghost invariant = { λ s. s.last < 8 };

    ghost inverse = { λ n. record { last = n } };
}

impl Sched {
    // Whether a slot's nibble, below 16, is an active thread whose sleep moment has been reached by
    // the time, in nanoseconds.
    #[tactic(auto, unfolding(crate::specs::Picking::is_awake))]
    fn is_awake(&self, slot: u8, now: u64) -> bool
        requires { slot < 16 }
        ensures { result ≡ (nat_lt slot 8 && is_awake self.now now slot) }
    {
        self.modes.is_active(slot) && self.sleep[slot as usize] <= now
    }

    // Whether a thread takes a soft slot, or a slot whose thread isn't awake, at a time in
    // nanoseconds.
    #[tactic(auto, unfolding(crate::specs::Picking::is_awake))]
    fn takes_donated(&self, thread: u8, now: u64) -> bool
        requires { thread < 8 }
        ensures { result ≡ takes_donated self.now now thread }
    {
        self.modes.is_soft(thread) && self.sleep[thread as usize] <= now
    }

    // The first soft thread that is awake, in the order that begins after `last` and ends with it.
    // Most often it is the first of that order.
    #[tactic(auto, unfolding(crate::specs::Picking::after_last))]
    fn next_soft(&self, now: u64, last: u8) -> Option<u8>
        requires { last < 8 }
        ensures first { result ≡ find (takes_donated self.now now) (after_last last) }
        ensures thread { IfSome result (λ thread. thread < 8) }
    {
        let next = (last + 1) % 8;
        if self.takes_donated(next, now) {
            Some(next)
        } else {
            self.search(now, last)
        }
    }

    // The first soft thread that is awake, in the order that begins after `last` and ends with it.
    //
    // Bit j of `left` is the thread j after `first`, and each iteration clears the lowest bit. So
    // the loop visits no hard thread, and ends at once if no thread is soft.
    fn search(&self, now: u64, last: u8) -> Option<u8>
        requires { last < 8 }
        ensures first { result ≡ find (takes_donated self.now now) (after_last last) }
        ensures thread { IfSome result (λ thread. thread < 8) }
    {
        let soft = u32::from(self.modes.soft());
        if soft == 0 {
            return None;
        }
        let first = u32::from(last) + 1;
        let mut left = ((soft * 0x101) >> first) % 0x100;
        while left != 0 {
            let thread = (first + left.trailing_zeros()) % 8;
            if self.sleep[thread as usize] <= now {
                return Some(thread as u8);
            }
            left &= left - 1;
        }
        None
    }
}

impl Scheduler {
    /// The pointer from which the first search starts with thread 0.
    pub fn new() -> Scheduler
        ensures { result ≡ 7 }
    {
        Scheduler { last: 7 }
    }

    /// The pick of a cycle, at a time in nanoseconds: the thread of the cycle's slot if it is
    /// awake; else, if the frame isn't empty, the next soft thread that is awake. The next search
    /// continues after that thread.
    #[tactic(auto, unfolding(crate::specs::Picking::pick))]
    pub fn pick(&mut self, s: &Sched, cycle: u64, now: u64) -> Pick
        ensures pick { result ≡ (pick s.now cycle now self.old).pick }
        ensures pointer { self.new ≡ (pick s.now cycle now self.old).last }
        ensures thread { IsPick result }
    {
        self.pick_slot(s, s.slots.slot(cycle), now)
    }

    /// The pick of a cycle before 2^61, at a time in nanoseconds: as [`pick`](Scheduler::pick),
    /// without a test of the cycle.
    #[tactic(auto, unfolding(crate::specs::Picking::pick))]
    #[inline(always)]
    pub fn early_pick(&mut self, s: &Sched, cycle: u64, now: u64) -> Pick
        requires { cycle < early }
        ensures pick { result ≡ (pick s.now cycle now self.old).pick }
        ensures pointer { self.new ≡ (pick s.now cycle now self.old).last }
        ensures thread { IsPick result }
    {
        self.pick_slot(s, s.slots.early_slot(cycle), now)
    }

    // The pick of a cycle by the nibble of its slot.
    #[inline(always)]
    fn pick_slot(&mut self, s: &Sched, slot: u8, now: u64) -> Pick
        requires { IsTrue (is_slot slot) }
        ensures pick { result ≡ (pick_in s.now now self.old (turn_named slot)).pick }
        ensures pointer { self.new ≡ (pick_in s.now now self.old (turn_named slot)).last }
        ensures thread { IsPick result }
    {
        if s.is_awake(slot, now) {
            Pick::Issue { thread: slot }
        } else if slot == DISABLED {
            Pick::Bubble
        } else {
            self.donate(s, now)
        }
    }

    // The pick of a slot that a soft thread may take.
    #[tactic(auto, unfolding(crate::specs::Picking::donation))]
    fn donate(&mut self, s: &Sched, now: u64) -> Pick
        ensures pick { result ≡ (donation s.now now self.old).pick }
        ensures pointer { self.new ≡ (donation s.now now self.old).last }
        ensures thread { IsPick result }
    {
        match s.next_soft(now, self.last) {
            Some(thread) => {
                self.last = thread;
                Pick::Issue { thread }
            }
            None => Pick::Bubble,
        }
    }
}
