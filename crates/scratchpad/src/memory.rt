//! The words of a scratchpad.

ghost use Rattle.std.specs.Prelude.{◌≡◌, ◌+◌, ◌*◌, ◌/◌, ◌<◌, ◌≤◌, ◌%◌, length};
ghost use Rattle.std.specs.Prelude.{replicate, slice_index_or, slice_set, IfOk};
ghost use Rattle.region_guard.specs.Regions.{IsSize};
ghost use Rattle.rv_exec.specs.Access.{merged_word, merged_byte};
ghost use Rattle.scratchpad.specs.Words.{word_in as word_of_bytes, words_of, written_at};

use rv_exec::{ALL_LANES, Lanes};
use std::alloc::{AllocError, Global};
use std::marker::Model;

/// A scratchpad, seen as the list of its words. The memory is little endian.
#[derive(Drop)]
pub struct Spm {
    words: Vec<u32>,
}

impl Model for Spm {
    ghost use Rattle.std.specs.Prelude.{ℕ, List};

    ghost Value = { List ℕ };

    ghost view = { λ s. s.words.items };
}

// The bytes in the lanes 0 to 3 of a word once lanes are written.
fn byte_0(old: u32, lanes: Lanes) -> u32
    ensures { result ≡ merged_byte old lanes 0 }
{
    if lanes.mask % 2 == 1 {
        lanes.value % 256
    } else {
        old % 256
    }
}

/// Byte 1 of the merged word: the store's where its mask has bit 1.
fn byte_1(old: u32, lanes: Lanes) -> u32
    ensures { result ≡ merged_byte old lanes 1 }
{
    if lanes.mask / 2 % 2 == 1 {
        lanes.value / 256 % 256
    } else {
        old / 256 % 256
    }
}

/// Byte 2 of the merged word: the store's where its mask has bit 2.
fn byte_2(old: u32, lanes: Lanes) -> u32
    ensures { result ≡ merged_byte old lanes 2 }
{
    if lanes.mask / 4 % 2 == 1 {
        lanes.value / 65536 % 256
    } else {
        old / 65536 % 256
    }
}

/// Byte 3 of the merged word: the store's where its mask has bit 3.
fn byte_3(old: u32, lanes: Lanes) -> u32
    ensures { result ≡ merged_byte old lanes 3 }
{
    if lanes.mask / 8 % 2 == 1 {
        lanes.value / 16777216 % 256
    } else {
        old / 16777216 % 256
    }
}

// A word once lanes are written.
#[tactic(auto, unfolding(rv_exec::specs::Access::merged_word))]
fn merge(old: u32, lanes: Lanes) -> u32
    ensures { result ≡ merged_word old lanes }
{
    if lanes.mask == ALL_LANES {
        return lanes.value;
    }
    byte_0(old, lanes)
        + byte_1(old, lanes) * 256
        + byte_2(old, lanes) * 65536
        + byte_3(old, lanes) * 16777216
}

// The word at an offset of some bytes, counted in words. The lowest byte comes first.
fn word_in(bytes: &[u8], offset: usize) -> u32
    requires { 4 * offset + 4 ≤ length bytes.now }
    ensures { result ≡ word_of_bytes bytes.now offset }
{
    u32::from_le_bytes([
        bytes[4 * offset],
        bytes[4 * offset + 1],
        bytes[4 * offset + 2],
        bytes[4 * offset + 3],
    ])
}

// Writes bytes over words from an index on.
#[tactic(auto, unfolding(crate::specs::Words::words_of))]
fn fill_words(words: &mut [u32], index: usize, bytes: &[u8])
    requires whole { length bytes.now % 4 ≡ 0 }
    requires fits { index * 4 + length bytes.now ≤ length words.old * 4 }
    ensures { words.new ≡ written_at words.old index (words_of bytes.now) }
{
    for offset in 0..bytes.len() / 4 {
        words[index + offset] = word_in(bytes, offset);
    }
}

impl Spm {
    /// A scratchpad of `size` bytes, 16,384 or 65,536, with every word 0.
    ///
    /// # Errors
    ///
    /// [`AllocError`] if memory runs out.
    pub fn new(alloc: Global, size: u32) -> Result<Spm, AllocError>
        requires { IsSize size }
        ensures words { IfOk result (λ s. s ≡ replicate (size / 4) 0) }
        ensures len { IfOk result (λ s. length s ≡ size / 4) }
    {
        Ok(Spm {
            words: vec![in alloc; 0; size as usize / 4]?,
        })
    }

    /// A scratchpad of these words.
    pub fn from_words(words: Vec<u32>) -> Spm
        ensures { result ≡ words.items }
    {
        Spm { words }
    }

    /// The word of an index, which is below the number of words.
    pub fn word_at(&self, index: u32) -> u32
        requires { index < length self.now }
        ensures { result ≡ slice_index_or self.now index 0 }
    {
        self.words[index as usize]
    }

    /// Writes lanes into the word of an index, which is below the number of words. Its other bytes
    /// stay, and so do the other words.
    pub fn store(&mut self, index: u32, lanes: Lanes)
        requires { index < length self.old }
        ensures words { self.new
            ≡ slice_set self.old index (merged_word (slice_index_or self.old index 0) lanes) }
        ensures len { length self.new ≡ length self.old }
    {
        let word = &mut self.words[index as usize];
        *word = merge(*word, lanes);
    }

    /// Writes bytes from the word of an index on. Their number is a multiple of four, and they fit.
    pub fn fill(&mut self, index: u32, bytes: &[u8])
        requires whole { length bytes.now % 4 ≡ 0 }
        requires fits { index * 4 + length bytes.now ≤ length self.old * 4 }
        ensures words { self.new ≡ written_at self.old index (words_of bytes.now) }
        ensures len { length self.new ≡ length self.old }
    {
        fill_words(self.words.as_mut_slice(), index as usize, bytes);
    }
}
