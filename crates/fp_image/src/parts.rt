//! The parts of an image.

ghost use Rattle.std.specs.Prelude.{◌≡◌, List, ℕ, Option};
ghost use Rattle.std.specs.Prelude.{length};

use std::marker::Model;

/// The bytes of a segment.
#[derive(Drop)]
pub struct Bytes {
    bytes: Vec<u8>,
}

impl Model for Bytes {
    ghost Value = { List ℕ };

    ghost view = { λ b. b.bytes.items };
}

impl Bytes {
    /// The bytes of a vector, which keeps its memory.
    pub fn from_vec(v: Vec<u8>) -> Bytes
        ensures { result ≡ v.items }
    {
        Bytes { bytes: v }
    }

    /// The vector of the bytes.
    pub fn into_vec(self) -> Vec<u8>
        ensures { result.items ≡ self }
    {
        self.bytes
    }

    /// The bytes in order.
    pub fn as_slice(&self) -> &[u8]
        ensures { result.now ≡ self.now }
    {
        self.bytes.as_slice()
    }
}

/// Bytes and the address of the first of them.
#[derive(Drop)]
pub struct Segment {
    /// The address of the first byte.
    pub address: u32,
    /// The bytes, which follow one another.
    pub bytes: Bytes,
}
