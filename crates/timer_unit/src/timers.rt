//! The timers of the eight threads.

ghost use Rattle.std.specs.Prelude.{◌≡◌, ◌<◌, length, replicate, slice_set};
ghost use Rattle.timer_unit.specs.Time.{armed_at, disarm, is_due, latch_high};
ghost use Rattle.timer_unit.specs.Time.{low_word, no_timer, timer_of};

use crate::row::Timer;
use std::marker::Model;

/// The timers of the eight hardware threads. Times and moments are in nanoseconds, and a thread is
/// 0 to 7.
#[derive(Clone, Copy, Debug)]
pub struct Timers {
    rows: [Timer; 8],
}

impl Model for Timers {
    ghost use Rattle.std.specs.Prelude.{List};
    ghost use Rattle.timer_unit.specs.declared.row.Timer.{Timer};

    ghost Value = { List Timer };

    ghost view = { λ t. t.rows };

    ghost inverse = { λ rows. record { rows = rows } };
}

impl Timers {
    /// Timers with no moment armed and all latches 0.
    pub fn new() -> Timers
        ensures { result ≡ replicate 8 no_timer }
    {
        Timers {
            rows: [Timer {
                armed: None,
                high: 0,
            }; 8],
        }
    }

    /// The timer of a thread, 0 to 7.
    pub fn row(&self, thread: u8) -> Timer
        requires { thread < 8 }
        ensures { result ≡ timer_of self.now thread }
    {
        self.rows[thread as usize]
    }

    /// The low word of a time in nanoseconds, which GT reads. The bits 32 to 63 of the time are
    /// latched for the thread; its armed moment stays.
    pub fn get_low(&mut self, thread: u8, now: u64) -> u32
        requires { thread < 8 }
        ensures low { result ≡ low_word now }
        ensures latch { self.new
            ≡ slice_set self.old thread (latch_high (timer_of self.old thread) now) }
        ensures eight { length self.new ≡ 8 }
    {
        self.rows[thread as usize].high = (now >> 32) as u32;
        (now % 0x1_0000_0000) as u32
    }

    /// The high word that is latched for the thread: 0 if no low word was read.
    pub fn get_high(&self, thread: u8) -> u32
        requires { thread < 8 }
        ensures { result ≡ (timer_of self.now thread).high }
    {
        self.rows[thread as usize].high
    }

    /// Arms a moment for the thread, in place of one that was armed before.
    pub fn arm(&mut self, thread: u8, moment: u64)
        requires { thread < 8 }
        ensures armed { self.new
            ≡ slice_set self.old thread (armed_at (timer_of self.old thread) moment) }
        ensures eight { length self.new ≡ 8 }
    {
        self.rows[thread as usize].armed = Some(moment);
    }

    /// Disarms the thread's timer.
    pub fn disarm(&mut self, thread: u8)
        requires { thread < 8 }
        ensures disarmed { self.new
            ≡ slice_set self.old thread (disarm (timer_of self.old thread)) }
        ensures eight { length self.new ≡ 8 }
    {
        self.rows[thread as usize].armed = None;
    }

    /// The moment, in nanoseconds, that is armed for the thread; `None` if no moment is armed.
    pub fn armed(&self, thread: u8) -> Option<u64>
        requires { thread < 8 }
        ensures { result ≡ (timer_of self.now thread).armed }
    {
        self.rows[thread as usize].armed
    }

    /// Whether the time has reached the moment that is armed for the thread; false if none is
    /// armed.
    pub fn due(&self, thread: u8, now: u64) -> bool
        requires { thread < 8 }
        ensures { result ≡ is_due (timer_of self.now thread).armed now }
    {
        match self.rows[thread as usize].armed {
            Some(moment) => moment <= now,
            None => false,
        }
    }
}
