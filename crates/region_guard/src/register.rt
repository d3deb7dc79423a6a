//! A region register as a type that holds only accepted words.

ghost use Rattle.std.specs.Prelude.{◌≡◌, ◌<◌, ◌==◌, ◌||◌, IfSome};
ghost use Rattle.std.specs.Prelude.{IsTrue, is_ok, map, not, position};
ghost use Rattle.slot_table.specs.Masks.{bit_of, mask_of};
ghost use Rattle.slot_table.specs.Nibbles.{nibble_at};
ghost use Rattle.region_guard.specs.Regions.{is_owner_nibble, is_readable, is_writable};
ghost use Rattle.region_guard.specs.Regions.{region_kind};
ghost use Rattle.region_guard.specs.RegionsWord.{is_regions, masks_by, regions_of};

use slot_table::{nibble, nibbles_of};
use std::marker::Model;
use thiserror::Error;

/// A word of a region register, dregions (0x7C2) or iregions (0x7C3): a nibble for each of a
/// scratchpad's eight regions, region i in bits 4i to 4i + 3. A nibble is the thread that owns the
/// region (0 to 7), or 8 for a shared and 12 for a read only region.
#[derive(Clone, Copy, Debug)]
pub struct Regions {
    word: u32,
    // For each thread the regions that it may read if it is confined, and those that it may write;
    // region i is bit i. They are stored, so that each fetch and each access tests only one bit.
    readable: [u8; 8],
    writable: [u8; 8],
}

/// A region whose nibble is none of 0 to 8 and 12.
#[derive(Clone, Copy, Debug, PartialEq, Eq, Error)]
#[error("region {index} belongs to no thread, and is neither shared nor read only")]
pub struct BadRegion {
    /// The lowest such region, 0 to 7.
    pub index: u8,
}

impl Model for Regions {
    ghost use Rattle.std.specs.Prelude.{◌≡◌, ℕ, true};
    ghost use Rattle.region_guard.specs.Regions.{is_readable, is_writable};
    ghost use Rattle.region_guard.specs.RegionsWord.{by_thread, is_regions};

    ghost Value = { ℕ };

    ghost view = { λ r. r.word };

    ghost invariant = { λ r. (is_regions r.word ≡ true)
        × (r.readable ≡ by_thread is_readable r.word)
        × (r.writable ≡ by_thread is_writable r.word) };

    ghost inverse = { λ w. record {
      word = w;
      readable = by_thread is_readable w;
      writable = by_thread is_writable w;
    } };
}

/// The nibble of a shared region.
pub const SHARED: u8 = 8;

/// The nibble of a read only region.
pub const READ_ONLY: u8 = 12;

/// Whether a nibble names an owner: a thread, all threads, or none that may write.
fn is_owner_nibble(nibble: u8) -> bool
    ensures { result ≡ is_owner_nibble nibble }
{
    nibble <= SHARED || nibble == READ_ONLY
}

// The first region whose nibble is refused.
fn bad_region(nibbles: &[u8; 8]) -> Option<usize>
    ensures first { result ≡ position (λ nibble. not (is_owner_nibble nibble)) nibbles.now }
    ensures within { IfSome result (λ index. index < 8) }
{
    nibbles.iter().position(|nibble| !is_owner_nibble(*nibble))
}

/// Whether a confined thread may load and fetch in a region with a nibble.
#[tactic(auto, unfolding(crate::specs::Regions::region_kind))]
fn is_readable(nibble: u8, thread: u8) -> bool
    ensures { result ≡ is_readable (region_kind thread nibble) }
{
    nibble == thread || nibble == READ_ONLY
}

/// Whether a thread may store in a region with a nibble.
#[tactic(auto, unfolding(crate::specs::Regions::region_kind))]
fn is_writable(nibble: u8, thread: u8) -> bool
    ensures { result ≡ is_writable (region_kind thread nibble) }
{
    nibble == thread || nibble == SHARED
}

/// 1 if a region is the thread's or has the other nibble, else 0.
fn bit(nibble: u8, thread: u8, other: u8) -> u8
    ensures bit { result ≡ bit_of (nibble == thread || nibble == other) }
    ensures small { result < 2 }
{
    u8::from(nibble == thread || nibble == other)
}

/// The regions that are a thread's or have the other nibble; region i is bit i.
fn mask_for(nibbles: &[u8; 8], thread: u8, other: u8) -> u8
    ensures { result
        ≡ mask_of (map (λ nibble. nibble == thread || nibble == other) nibbles.now) }
{
    bit(nibbles[0], thread, other)
        + bit(nibbles[1], thread, other) * 0x2
        + bit(nibbles[2], thread, other) * 0x4
        + bit(nibbles[3], thread, other) * 0x8
        + bit(nibbles[4], thread, other) * 0x10
        + bit(nibbles[5], thread, other) * 0x20
        + bit(nibbles[6], thread, other) * 0x40
        + bit(nibbles[7], thread, other) * 0x80
}

/// For each thread the regions that are its own or have the other nibble.
fn masks_for(nibbles: &[u8; 8], other: u8) -> [u8; 8]
    ensures { result ≡ masks_by other nibbles.now }
{
    [
        mask_for(nibbles, 0, other),
        mask_for(nibbles, 1, other),
        mask_for(nibbles, 2, other),
        mask_for(nibbles, 3, other),
        mask_for(nibbles, 4, other),
        mask_for(nibbles, 5, other),
        mask_for(nibbles, 6, other),
        mask_for(nibbles, 7, other),
    ]
}

impl Regions {
    /// The regions of a word of the register; the word is stored unchanged.
    ///
    /// # Errors
    ///
    /// [`BadRegion`] exactly if a nibble is none of 0 to 8 and 12.
    #[tactic(auto, unfolding(crate::specs::RegionsWord::regions_of))]
    pub fn from_word(word: u32) -> Result<Regions, BadRegion>
        ensures regions { result ≡ regions_of word }
        ensures accepts { is_ok result ≡ is_regions word }
    {
        let nibbles = nibbles_of(word);
        match bad_region(&nibbles) {
            Some(index) => Err(BadRegion { index: index as u8 }),
            None => Ok(Regions {
                word,
                readable: masks_for(&nibbles, READ_ONLY),
                writable: masks_for(&nibbles, SHARED),
            }),
        }
    }

    /// The word of the register; no nibble is 9 to 11 or above 12.
    pub fn word(&self) -> u32
        ensures word { result ≡ self.now }
        ensures accepted { IsTrue (is_regions result) }
    {
        self.word
    }

    // Whether a confined thread may load and fetch in a region; both are 0 to 7.
    pub(crate) fn is_readable_by(&self, region: u32, thread: u8) -> bool
        requires region { region < 8 }
        requires thread { thread < 8 }
        ensures { result ≡ is_readable (region_kind thread (nibble_at self.now region)) }
    {
        (self.readable[thread as usize] >> region) % 2 == 1
    }

    // Whether a confined thread may load and fetch in a region, which is 0 to 7.
    pub(crate) fn is_readable(&self, region: u32, thread: u8) -> bool
        requires { region < 8 }
        ensures { result ≡ is_readable (region_kind thread (nibble_at self.now region)) }
    {
        if thread < 8 {
            self.is_readable_by(region, thread)
        } else {
            is_readable(nibble(self.word, region as u8), thread)
        }
    }

    // Whether a thread may store in a region; both are 0 to 7.
    pub(crate) fn is_writable_by(&self, region: u32, thread: u8) -> bool
        requires region { region < 8 }
        requires thread { thread < 8 }
        ensures { result ≡ is_writable (region_kind thread (nibble_at self.now region)) }
    {
        (self.writable[thread as usize] >> region) % 2 == 1
    }

    // Whether a thread may store in a region, which is 0 to 7.
    pub(crate) fn is_writable(&self, region: u32, thread: u8) -> bool
        requires { region < 8 }
        ensures { result ≡ is_writable (region_kind thread (nibble_at self.now region)) }
    {
        if thread < 8 {
            self.is_writable_by(region, thread)
        } else {
            is_writable(nibble(self.word, region as u8), thread)
        }
    }
}
