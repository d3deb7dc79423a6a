//! A word as eight fields of four bits: the form of the registers that have one field for each slot
//! or for each region.

ghost use Rattle.std.specs.Prelude.{◌≡◌, ◌<◌};
ghost use Rattle.slot_table.specs.Nibbles.{nibbles, nibble_at};

/// Nibble `index` of a word: bits `4 * index` to `4 * index + 3`. The index is 0 to 7.
#[tactic(auto, using(crate::proofs::Shift::shifted))]
pub fn nibble(word: u32, index: u8) -> u8
    requires { index < 8 }
    ensures value { result ≡ nibble_at word index }
    ensures small { result < 16 }
{
    ((word >> (4 * u32::from(index))) % 16) as u8
}

/// The eight nibbles of a word, the lowest first.
#[tactic(auto, unfolding(crate::specs::Nibbles::nibbles))]
pub fn nibbles_of(word: u32) -> [u8; 8]
    ensures { result ≡ nibbles word }
{
    [
        (word % 16) as u8,
        (word / 0x10 % 16) as u8,
        (word / 0x100 % 16) as u8,
        (word / 0x1000 % 16) as u8,
        (word / 0x1_0000 % 16) as u8,
        (word / 0x10_0000 % 16) as u8,
        (word / 0x100_0000 % 16) as u8,
        (word / 0x1000_0000 % 16) as u8,
    ]
}
