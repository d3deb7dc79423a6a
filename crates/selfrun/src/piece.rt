//! The effect of the bytes of a text on a hash.

ghost use Rattle.std.specs.Prelude.{◌≡◌, ◌+◌, ◌*◌, ◌%◌, ◌^◌};
ghost use Rattle.selfrun.specs.Text.{fold_of, with_byte};

/// The factor by which each byte multiplies a hash.
pub const BASE: u32 = 31;

/// A hash continued: times a power of 31, plus the sum of the bytes.
fn longer(h: u32, weight: u32, sum: u32) -> u32
    ensures { result ≡ (h * weight + sum) % 2 ^ 32 }
{
    ((u64::from(h) * u64::from(weight) + u64::from(sum)) % 0x1_0000_0000) as u32
}

/// A hash with one byte appended.
pub fn with_byte(h: u32, byte: u8) -> u32
    ensures { result ≡ with_byte h byte }
{
    longer(h, BASE, u32::from(byte))
}

/// A hash with bytes appended.
#[tactic(auto, unfolding(crate::specs::Text::fold_of))]
pub fn folded(h: u32, bytes: &[u8]) -> u32
    ensures { result ≡ fold_of h bytes.now }
{
    bytes.iter().fold(h, |h, byte| with_byte(h, *byte))
}

/// The effect of a text on the hash before it: a factor and a summand, modulo 2^32. They depend
/// only on the text, not on the text before it, so they can be cached.
#[derive(Clone, Copy, Debug)]
pub struct Piece {
    /// 31 to the power of the text's length.
    pub weight: u32,
    /// The hash of the text alone.
    pub sum: u32,
}

impl Piece {
    ghost use Rattle.std.specs.Prelude.{◌≡◌, ℕ, List, [], ◌∷◌, ◌++◌};
    ghost use Rattle.selfrun.specs.Folds.{IsPiece};
    ghost use Rattle.selfrun.specs.Text.{fold_of};

    /// No text.
    pub const EMPTY: Piece = Piece { weight: 1, sum: 0 };

    /// One text followed by another one.
    pub fn and(self, more: Piece) -> Piece
        ensures { (first second : List ℕ) → IsPiece self first → IsPiece more second
            → IsPiece result (first ++ second) }
    {
        Piece {
            weight: longer(self.weight, more.weight, 0),
            sum: longer(self.sum, more.weight, more.sum),
        }
    }

    /// The text with one byte appended.
    pub fn then(self, byte: u8) -> Piece
        ensures { (bytes : List ℕ) → IsPiece self bytes
            → IsPiece result (bytes ++ byte ∷ []) }
    {
        self.and(Piece {
            weight: BASE,
            sum: u32::from(byte),
        })
    }

    /// A hash with the text appended.
    pub fn after(&self, h: u32) -> u32
        ensures { (bytes : List ℕ) → IsPiece self.now bytes → result ≡ fold_of h bytes }
    {
        longer(h, self.weight, self.sum)
    }
}
