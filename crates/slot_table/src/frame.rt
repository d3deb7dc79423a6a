//! The frame of slots that share the cycles.

ghost use Rattle.std.specs.Prelude.{◌≡◌, ◌<◌, ◌≤◌, ◌%◌, ◌==◌, if◌then◌else◌};
ghost use Rattle.std.specs.Prelude.{filter, length, position, not, IfSome};
ghost use Rattle.slot_table.specs.Frame.{is_slot, is_used, turn_named};
ghost use Rattle.slot_table.specs.Table.{early, laid_out, magic_of};

use thiserror::Error;

/// The turn of a cycle, from the frame of slots.
#[derive(Clone, Copy, Debug)]
pub enum Turn {
    /// A hardware thread's own slot.
    Thread(u8),
    /// A slot for the soft threads.
    Soft,
    /// The frame is empty.
    Nobody,
}

/// A slot that is neither a thread nor soft nor disabled (a nibble from 8 to 13).
#[derive(Clone, Copy, Debug, PartialEq, Eq, Error)]
#[error("slot {index} names no thread, nor the soft threads, nor nobody")]
pub struct BadSlot {
    /// The lowest such slot, 0 to 7.
    pub index: u8,
}

/// The slots of a frame: the first `len` positions have their nibbles, the others are disabled.
#[derive(Clone, Copy, Debug)]
pub struct Frame {
    pub slots: [u8; 8],
    pub len: u8,
    /// The factor that gives a cycle's position: 2^64 / `len`, rounded up, and 0 for one slot.
    ///
    /// It is stored, so that no pick divides.
    pub magic: u64,
}

/// The nibble of a slot for the soft threads.
pub const SOFT: u8 = 14;

/// The nibble of a disabled slot.
pub const DISABLED: u8 = 15;

/// From this cycle on, 2^61, the multiplication may give a wrong position. No run gets that far.
const EARLY: u64 = 0x2000_0000_0000_0000;

// Whether a nibble is allowed in a slot.
fn is_slot(nibble: u8) -> bool
    ensures { result ≡ is_slot nibble }
{
    nibble < 8 || nibble == SOFT || nibble == DISABLED
}

/// The first slot that is refused.
pub fn bad_slot(slots: &[u8; 8]) -> Option<usize>
    ensures first { result ≡ position (λ nibble. not (is_slot nibble)) slots.now }
    ensures within { IfSome result (λ index. index < 8) }
{
    slots.iter().position(|nibble| !is_slot(*nibble))
}

/// The turn of a nibble that is allowed in a slot.
pub fn turn_named(nibble: u8) -> Turn
    ensures { result ≡ turn_named nibble }
{
    match nibble {
        DISABLED => Turn::Nobody,
        0..8 => Turn::Thread(nibble),
        _ => Turn::Soft,
    }
}

// The factor that gives a cycle's position in a frame of this length.
fn magic_of(len: u8) -> u64
    requires { len ≤ 8 }
    ensures { result ≡ magic_of len }
{
    (u64::MAX / u64::from(len.max(1))).wrapping_add(1)
}

impl Frame {
    /// The frame of eight slots: those that aren't disabled, in order.
    pub fn of_slots(slots: &[u8; 8]) -> Frame
        ensures { result ≡ laid_out (filter is_used slots.now) }
    {
        let mut used = [DISABLED; 8];
        let mut len = 0;
        for slot in slots {
            if *slot != DISABLED {
                used[len] = *slot;
                len += 1;
            }
        }
        Frame {
            slots: used,
            len: len as u8,
            magic: magic_of(len as u8),
        }
    }

    /// The position of a cycle in the frame: its number modulo the frame's length, and 0 if the
    /// length is 0.
    pub fn position_of(&self, cycle: u64) -> u64
        requires len { self.now.len ≤ 8 }
        requires magic { self.now.magic ≡ magic_of self.now.len }
        ensures position { result ≡ (if self.now.len == 0 then 0 else cycle % self.now.len) }
        ensures inside { result < 8 }
    {
        if cycle < EARLY {
            self.early_position_of(cycle)
        } else {
            self.late_position_of(cycle)
        }
    }

    /// The position of a cycle before 2^61 in the frame: its number modulo the frame's length, and
    /// 0 if the length is 0.
    #[inline(always)]
    pub fn early_position_of(&self, cycle: u64) -> u64
        requires len { self.now.len ≤ 8 }
        requires magic { self.now.magic ≡ magic_of self.now.len }
        requires early { cycle < early }
        ensures position { result ≡ (if self.now.len == 0 then 0 else cycle % self.now.len) }
        ensures inside { result < 8 }
    {
        let part = self.magic.wrapping_mul(cycle);
        ((u128::from(part) * u128::from(self.len)) >> 64) as u64
    }

    // The position of a cycle that is too late for the multiplication.
    #[cold]
    fn late_position_of(&self, cycle: u64) -> u64
        requires { self.now.len ≤ 8 }
        ensures position { result ≡ (if self.now.len == 0 then 0 else cycle % self.now.len) }
        ensures inside { result < 8 }
    {
        match self.len {
            0 => 0,
            len => cycle % u64::from(len),
        }
    }
}
