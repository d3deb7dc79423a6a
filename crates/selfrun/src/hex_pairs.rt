//! Words in hexadecimal digits, two digits at a time.

ghost use Rattle.std.specs.Prelude.{◌≡◌, ℕ, ◌<◌, slice_index_or};
ghost use Rattle.trace_print.specs.Digits.{hex_digit};
ghost use Rattle.selfrun.specs.Folds.{ArePairs, pair_sum};

use crate::piece::{BASE, Piece};
use std::marker::Model;

/// A hexadecimal digit.
fn hex_byte(digit: u32) -> u32
    requires { digit < 16 }
    ensures digit { result ≡ hex_digit digit }
    ensures small { result < 128 }
{
    if digit < 10 { 48 + digit } else { 87 + digit }
}

/// The hash of the two hexadecimal digits of a byte.
fn pair_sum(byte: usize) -> u32
    requires { byte < 256 }
    ensures { result ≡ pair_sum byte }
{
    hex_byte(byte as u32 / 16) * BASE + hex_byte(byte as u32 % 16)
}

/// The hash of the two hexadecimal digits of each byte.
fn pair_sums() -> [u32; 256]
    ensures { ArePairs result }
{
    let mut sums = [0; 256];
    for byte in 0..256 {
        sums[byte] = pair_sum(byte);
    }
    sums
}

/// The hashes of two hexadecimal digits, by the byte that they show. Contracts don't depend on
/// them.
#[derive(Drop)]
pub struct HexPairs {
    sums: [u32; 256],
}

impl Model for HexPairs {
    ghost use Rattle.selfrun.specs.Folds.{ArePairs};

    ghost Value = { Unit {0} };

    ghost view = { λ p. tt };

    ghost invariant = { λ p. ArePairs p.sums };
}

impl HexPairs {
    ghost use Rattle.std.specs.Prelude.{◌<◌};
    ghost use Rattle.trace_print.specs.Digits.{hex};
    ghost use Rattle.selfrun.specs.Folds.{IsPiece, pair_text};

    /// The hashes for all bytes.
    pub fn new() -> HexPairs {
        HexPairs { sums: pair_sums() }
    }

    /// The two hexadecimal digits of a byte.
    fn pair(&self, byte: u32) -> Piece
        requires { byte < 256 }
        ensures { IsPiece result (pair_text byte) }
    {
        Piece {
            weight: BASE * BASE,
            sum: self.sums[byte as usize],
        }
    }

    /// The eight hexadecimal digits of a word.
    #[inline(always)]
    pub fn word(&self, word: u32) -> Piece
        ensures { IsPiece result (hex 8 word) }
    {
        let upper = self
            .pair(word / 0x100_0000)
            .and(self.pair(word / 0x1_0000 % 0x100));
        let lower = self.pair(word / 0x100 % 0x100).and(self.pair(word % 0x100));
        upper.and(lower)
    }
}
