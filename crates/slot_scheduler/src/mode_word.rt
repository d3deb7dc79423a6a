//! The modes register as a type that holds only accepted words.

ghost use Rattle.std.specs.Prelude.{◌≡◌, ◌<◌, ◌==◌, ◌&&◌, ◌||◌, map, nat_lt};
ghost use Rattle.slot_table.specs.Masks.{bit_of, mask_of};
ghost use Rattle.slot_scheduler.specs.ModeWord.{is_active, is_soft, mode_list};
ghost use Rattle.slot_scheduler.specs.ModeWord.{mode_of, modes_of, threads_that};

use std::marker::Model;
use thiserror::Error;

/// A word of the register modes (0x7C1): two bits for each thread, bits 2i and 2i + 1 for thread i.
/// 0 is hard active, 1 hard asleep, 2 soft active, 3 soft asleep. The bits above 15 are 0.
#[derive(Clone, Copy, Debug)]
pub struct Modes {
    word: u32,
    // The active threads, and the soft ones among them; thread i is bit i. They are stored because
    // each pick tests them. A bit test with the slot's nibble covers a thread, a soft slot and a
    // disabled one alike, and the search visits only soft threads.
    active: u16,
    soft: u16,
}

/// A word with a bit above 15 set, which the modes register refuses.
#[derive(Clone, Copy, Debug, PartialEq, Eq, Error)]
#[error("a bit above 15 is set")]
pub struct BadMode;

impl Model for Modes {
    ghost use Rattle.std.specs.Prelude.{◌≡◌, ℕ, ◌<◌};
    ghost use Rattle.slot_scheduler.specs.ModeWord.{is_active, is_soft, threads_that};

    ghost Value = { ℕ };

    ghost view = { λ m. m.word };

    ghost invariant = { λ m. (m.word < 65536)
        × (m.active ≡ threads_that is_active m.word)
        × (m.soft ≡ threads_that is_soft m.word) };

    ghost inverse = { λ w. record {
      word = w;
      active = threads_that is_active w;
      soft = threads_that is_soft w;
    } };
}

/// The mode of a hard and active thread.
const HARD: u8 = 0;

/// The mode of a soft and active thread.
const SOFT: u8 = 2;

/// The modes of the eight threads. Fields of two bits, where `nibbles_of` has fields of four: one
/// function for both would divide by variables.
fn modes_of(word: u32) -> [u8; 8]
    ensures { result ≡ mode_list word }
{
    [
        (word % 4) as u8,
        (word / 0x4 % 4) as u8,
        (word / 0x10 % 4) as u8,
        (word / 0x40 % 4) as u8,
        (word / 0x100 % 4) as u8,
        (word / 0x400 % 4) as u8,
        (word / 0x1000 % 4) as u8,
        (word / 0x4000 % 4) as u8,
    ]
}

/// 1 for a thread that is soft and active or has the other mode, and 0 for any other thread.
fn bit(mode: u8, other: u8) -> u16
    ensures bit { result ≡ bit_of (mode == other || mode == 2) }
    ensures small { result < 2 }
{
    u16::from(mode == other || mode == SOFT)
}

/// The threads that are soft and active or have the other mode; thread i is bit i.
fn threads_of(modes: &[u8; 8], other: u8) -> u16
    ensures { result ≡ mask_of (map (λ mode. mode == other || mode == 2) modes.now) }
{
    bit(modes[0], other)
        + bit(modes[1], other) * 0x2
        + bit(modes[2], other) * 0x4
        + bit(modes[3], other) * 0x8
        + bit(modes[4], other) * 0x10
        + bit(modes[5], other) * 0x20
        + bit(modes[6], other) * 0x40
        + bit(modes[7], other) * 0x80
}

impl Modes {
    /// The modes of a word of the register; the word is stored unchanged.
    ///
    /// # Errors
    ///
    /// [`BadMode`] exactly if a bit above 15 is set.
    #[tactic(auto, unfolding(crate::specs::ModeWord::threads_that))]
    pub fn from_word(word: u32) -> Result<Modes, BadMode>
        ensures { result ≡ modes_of word }
    {
        if word < 0x1_0000 {
            let modes = modes_of(word);
            Ok(Modes {
                word,
                active: threads_of(&modes, HARD),
                soft: threads_of(&modes, SOFT),
            })
        } else {
            Err(BadMode)
        }
    }

    /// The word of the register; its bits above 15 are 0.
    pub fn word(&self) -> u32
        ensures word { result ≡ self.now }
        ensures accepted { result < 65536 }
    {
        self.word
    }

    /// Whether a slot's nibble, which is below 16, is an active thread.
    #[tactic(auto, using(crate::proofs::Masks::active_bit))]
    pub(crate) fn is_active(&self, slot: u8) -> bool
        requires { slot < 16 }
        ensures { result ≡ (nat_lt slot 8 && is_active (mode_of self.now slot)) }
    {
        (self.active >> slot) % 2 == 1
    }

    /// Whether a thread is soft and active.
    #[tactic(auto, using(crate::proofs::Masks::soft_bit))]
    pub(crate) fn is_soft(&self, thread: u8) -> bool
        requires { thread < 8 }
        ensures { result ≡ is_soft (mode_of self.now thread) }
    {
        (self.soft >> thread) % 2 == 1
    }

    /// The threads that are soft and active; thread i is bit i.
    pub(crate) fn soft(&self) -> u16
        ensures { result ≡ threads_that is_soft self.now }
    {
        self.soft
    }

    /// The mode of a thread, which is 0 to 7: 0 is hard active, 1 hard asleep, 2 soft active and 3
    /// soft asleep.
    #[tactic(auto, using(crate::proofs::Shift::shifted))]
    pub fn mode(&self, thread: u8) -> u8
        requires { thread < 8 }
        ensures mode { result ≡ mode_of self.now thread }
        ensures small { result < 4 }
    {
        ((self.word >> (2 * u32::from(thread))) % 4) as u8
    }
}
