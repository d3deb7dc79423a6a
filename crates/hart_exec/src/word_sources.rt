//! The registers that a word's instruction reads, without a full decoding of the word.

ghost use Rattle.std.specs.Prelude.{◌≡◌, ◌*◌, ◌+◌, ◌<◌};
ghost use Rattle.rv_decode.specs.Fields.{field};
ghost use Rattle.rv_decode.specs.Table.{ins};
ghost use Rattle.core_model.specs.Issue.{source_1, source_2};

use crate::sources::sources_of;
use rv_decode::decode;

/// The bits that are set in each instruction of 32 bits. Each entry that isn't 0 has them.
const WHOLE: u32 = 0x0000_0003;
/// The bits of the first register.
const FIRST: u32 = 0x000f_8000;
/// The bits of the second register.
const SECOND: u32 = 0x01f0_0000;
/// The bits of funct7.
const FUNCT7: u32 = 0xfe00_0000;
/// The bits of the register that is written.
const WRITTEN: u32 = 0x0000_0f80;
/// The bits that must be 0 in a word after its entry is applied.
const CLEAR: u32 = FUNCT7 | WRITTEN | WHOLE;

/// No register, for any other bits; also for words that are no instruction.
const NONE: u32 = 0;
/// One register.
const ONE: u32 = WHOLE | FIRST;
/// Two registers.
const TWO: u32 = WHOLE | FIRST | SECOND;
/// One register, where funct7 is 0.
const LEFT: u32 = ONE | FUNCT7;
/// One register, where funct7 is 0 but for its bit for arithmetic shifts.
const RIGHT: u32 = ONE | (FUNCT7 - 0x4000_0000);
/// Two registers, where funct7 is 0 but for its bit for multiplications and divisions.
const PAIR: u32 = TWO | (FUNCT7 - 0x0200_0000);
/// Two registers, where funct7 and the register that is written are 0.
const TIME: u32 = TWO | FUNCT7 | WRITTEN;

/// By bits 2 to 6 of a word and its funct3: the fields of the registers that it reads. An entry
/// also has the bits that must be 0. If one of these bits is set, the word is decoded in full: it
/// is a subtraction, an arithmetic shift by a register, or no instruction.
static FIELDS: [u32; 256] = [
    ONE, ONE, ONE, NONE, ONE, ONE, NONE, NONE, // 0x03, loads
    NONE, NONE, NONE, NONE, NONE, NONE, NONE, NONE, // 0x07
    NONE, NONE, TIME, TIME, TIME, NONE, NONE, NONE, // 0x0b, timing
    NONE, NONE, NONE, NONE, NONE, NONE, NONE, NONE, // 0x0f, fences
    ONE, LEFT, ONE, ONE, ONE, RIGHT, ONE, ONE, // 0x13, immediates and shifts
    NONE, NONE, NONE, NONE, NONE, NONE, NONE, NONE, // 0x17, AUIPC
    NONE, NONE, NONE, NONE, NONE, NONE, NONE, NONE, // 0x1b
    NONE, NONE, NONE, NONE, NONE, NONE, NONE, NONE, // 0x1f
    TWO, TWO, TWO, NONE, NONE, NONE, NONE, NONE, // 0x23, stores
    NONE, NONE, NONE, NONE, NONE, NONE, NONE, NONE, // 0x27
    NONE, NONE, NONE, NONE, NONE, NONE, NONE, NONE, // 0x2b
    NONE, NONE, NONE, NONE, NONE, NONE, NONE, NONE, // 0x2f
    PAIR, PAIR, PAIR, PAIR, PAIR, PAIR, PAIR, PAIR, // 0x33, two registers
    NONE, NONE, NONE, NONE, NONE, NONE, NONE, NONE, // 0x37, LUI
    NONE, NONE, NONE, NONE, NONE, NONE, NONE, NONE, // 0x3b
    NONE, NONE, NONE, NONE, NONE, NONE, NONE, NONE, // 0x3f
    NONE, NONE, NONE, NONE, NONE, NONE, NONE, NONE, // 0x43
    NONE, NONE, NONE, NONE, NONE, NONE, NONE, NONE, // 0x47
    NONE, NONE, NONE, NONE, NONE, NONE, NONE, NONE, // 0x4b
    NONE, NONE, NONE, NONE, NONE, NONE, NONE, NONE, // 0x4f
    NONE, NONE, NONE, NONE, NONE, NONE, NONE, NONE, // 0x53
    NONE, NONE, NONE, NONE, NONE, NONE, NONE, NONE, // 0x57
    NONE, NONE, NONE, NONE, NONE, NONE, NONE, NONE, // 0x5b
    NONE, NONE, NONE, NONE, NONE, NONE, NONE, NONE, // 0x5f
    TWO, TWO, NONE, NONE, TWO, TWO, TWO, TWO, // 0x63, branches
    ONE, NONE, NONE, NONE, NONE, NONE, NONE, NONE, // 0x67, JALR
    NONE, NONE, NONE, NONE, NONE, NONE, NONE, NONE, // 0x6b
    NONE, NONE, NONE, NONE, NONE, NONE, NONE, NONE, // 0x6f, JAL
    NONE, ONE, ONE, ONE, NONE, NONE, NONE, NONE, // 0x73, control and status registers
    NONE, NONE, NONE, NONE, NONE, NONE, NONE, NONE, // 0x77
    NONE, NONE, NONE, NONE, NONE, NONE, NONE, NONE, // 0x7b
    NONE, NONE, NONE, NONE, NONE, NONE, NONE, NONE, // 0x7f
];

/// The index of a word's entry: one multiplication moves both fields next to each other.
#[inline(always)]
fn entry_of(word: u32) -> usize
    ensures { result ≡ field word 2 5 * 8 + field word 12 3 }
{
    ((word & 0x0000_707c).wrapping_mul(0x0200_1000) >> 24) as usize
}

/// The registers that the instruction of a word reads, for a word that needs a full decoding.
#[cold]
#[inline(never)]
fn decoded_sources(word: u32) -> (u8, u8)
    ensures first { result.0 ≡ source_1 (ins word) }
    ensures second { result.1 ≡ source_2 (ins word) }
    ensures small { (result.0 < 32) × (result.1 < 32) }
{
    sources_of(&decode(word))
}

/// The numbers of the registers that the instruction of a word reads, and x0 where it reads none.
/// They are those of [`sources_of`] for the decoded word. A table gives them, since D needs nothing
/// else of the instruction.
#[inline(always)]
pub fn sources_in(word: u32) -> (u8, u8)
    ensures first { result.0 ≡ source_1 (ins word) }
    ensures second { result.1 ≡ source_2 (ins word) }
    ensures small { (result.0 < 32) × (result.1 < 32) }
{
    let fields = (word ^ WHOLE) & FIELDS[entry_of(word)];
    if fields & CLEAR != 0 {
        return decoded_sources(word);
    }
    (((fields >> 15) & 31) as u8, (fields >> 20) as u8)
}
