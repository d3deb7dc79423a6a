//! Images.

ghost use Rattle.std.specs.Prelude.{◌≡◌, ◌<◌, ◌%◌, List, [], ◌∷◌, ◌++◌, is_ok, if◌then◌else◌};
ghost use Rattle.region_guard.specs.MemoryMap.{large_size};
ghost use Rattle.fp_image.specs.Rules.{IsImage, word, word_in};

use crate::parts::{Bytes, Segment};
use byteorder::{ByteOrder, LittleEndian};
use std::alloc::{AllocError, Global};
use std::marker::Model;

/// At most [`MOST_SEGMENTS`](crate::MOST_SEGMENTS) segments, which rise without overlap, each of
/// whole words and inside one scratchpad of 65,536 bytes.
#[derive(Drop)]
pub struct Image {
    segments: Vec<Segment>,
}

impl Model for Image {
    ghost use Rattle.std.specs.Prelude.{List};
    ghost use Rattle.region_guard.specs.MemoryMap.{large_size};
    ghost use Rattle.fp_image.specs.declared.parts.Segment.{Segment};
    ghost use Rattle.fp_image.specs.Rules.{IsImage};

    ghost Value = { List Segment };

    ghost view = { λ i. i.segments.items };

    ghost invariant = { λ i. IsImage large_size i.segments.items };
}

impl Image {
    /// The image without segments. Later segments are allocated in `alloc`.
    pub fn new(alloc: Global) -> Image
        ensures { result ≡ [] }
    {
        Image {
            segments: Vec::new(alloc),
        }
    }

    /// Puts a segment at the end. The image with this segment keeps the rules.
    ///
    /// # Errors
    ///
    /// `AllocError` if memory ran out; the image is then as it was.
    pub fn add(&mut self, address: u32, bytes: Bytes) -> Result<(), AllocError>
        requires { IsImage large_size
            (self.old ++ record { address = address; bytes = bytes } ∷ []) }
        ensures { self.new ≡ (if is_ok result then self.old
            ++ record { address = address; bytes = bytes } ∷ [] else self.old) }
    {
        self.segments.push(Segment { address, bytes })?;
        Ok(())
    }

    /// The segments, by rising addresses.
    pub fn segments(&self) -> &[Segment]
        ensures segments { result.now ≡ self.now }
        ensures rules { IsImage large_size self.now }
    {
        self.segments.as_slice()
    }

    /// The word at an address: 0 if no segment has all of its bytes.
    pub fn word(&self, address: u32) -> u32
        ensures { result ≡ word self.now address }
    {
        for segment in &self.segments {
            if let Some(word) = word_in(segment, address) {
                return word;
            }
        }
        0
    }

    /// The word of the instruction scratchpad at an address, a multiple of four below 65,536: 0 if
    /// no segment has it.
    pub fn code_word(&self, address: u32) -> u32
        requires aligned { address % 4 ≡ 0 }
        requires inside { address < large_size }
        ensures { result ≡ word self.now address }
    {
        self.word(address)
    }
}

/// The word of a segment at an address, if the segment has all its bytes.
fn word_in(segment: &Segment, address: u32) -> Option<u32>
    ensures { result ≡ word_in segment.now address }
{
    let offset = address.checked_sub(segment.address)? as usize;
    let bytes = segment.bytes.as_slice();
    if offset + 4 <= bytes.len() {
        Some(LittleEndian::read_u32(&bytes[offset..]))
    } else {
        None
    }
}
