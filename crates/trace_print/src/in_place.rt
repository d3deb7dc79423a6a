//! Digits and texts, written in place into the room of a line.

ghost use Rattle.std.specs.Prelude.{◌≡◌, ◌+◌, ◌<◌, ◌≤◌, [], ◌∷◌, ◌++◌, length, take};
ghost use Rattle.trace_print.specs.Digits.{hex, two_digits};

/// The size of a line's buffer, in bytes.
pub(crate) const ROOM: usize = 64;

/// The two hexadecimal digits of each byte, one pair after the other.
static HEX_PAIRS: [u8; 512] = *b"\
    000102030405060708090a0b0c0d0e0f101112131415161718191a1b1c1d1e1f\
    202122232425262728292a2b2c2d2e2f303132333435363738393a3b3c3d3e3f\
    404142434445464748494a4b4c4d4e4f505152535455565758595a5b5c5d5e5f\
    606162636465666768696a6b6c6d6e6f707172737475767778797a7b7c7d7e7f\
    808182838485868788898a8b8c8d8e8f909192939495969798999a9b9c9d9e9f\
    a0a1a2a3a4a5a6a7a8a9aaabacadaeafb0b1b2b3b4b5b6b7b8b9babbbcbdbebf\
    c0c1c2c3c4c5c6c7c8c9cacbcccdcecfd0d1d2d3d4d5d6d7d8d9dadbdcdddedf\
    e0e1e2e3e4e5e6e7e8e9eaebecedeeeff0f1f2f3f4f5f6f7f8f9fafbfcfdfeff";

/// The two decimal digits of each number below 100, one pair after the other.
static DECIMAL_PAIRS: [u8; 200] = *b"\
    0001020304050607080910111213141516171819\
    2021222324252627282930313233343536373839\
    4041424344454647484950515253545556575859\
    6061626364656667686970717273747576777879\
    8081828384858687888990919293949596979899";

/// Writes a byte.
#[inline(always)]
pub(crate) fn set_byte(text: &mut [u8; ROOM], at: usize, byte: u8)
    requires { at < 64 }
    ensures { take (at + 1) text.new ≡ take at text.old ++ byte ∷ [] }
{
    text[at] = byte;
}

/// Writes two bytes, which become one store.
#[inline(always)]
fn set_pair(text: &mut [u8; ROOM], at: usize, first: u8, second: u8)
    requires { at + 2 ≤ 64 }
    ensures { take (at + 2) text.new ≡ take at text.old ++ first ∷ second ∷ [] }
{
    text[at] = first;
    text[at + 1] = second;
}

/// Writes a byte as two hexadecimal digits.
#[inline(always)]
fn set_hex_pair(text: &mut [u8; ROOM], at: usize, byte: u8)
    requires { at + 2 ≤ 64 }
    ensures { take (at + 2) text.new ≡ take at text.old ++ hex 2 byte }
{
    let from = byte as usize * 2;
    set_pair(text, at, HEX_PAIRS[from], HEX_PAIRS[from + 1]);
}

/// Writes a number below 100 as two decimal digits.
#[inline(always)]
pub(crate) fn set_two_digits(text: &mut [u8; ROOM], at: usize, number: u8)
    requires room { at + 2 ≤ 64 }
    requires small { number < 100 }
    ensures { take (at + 2) text.new ≡ take at text.old ++ two_digits number }
{
    let from = number as usize * 2;
    set_pair(text, at, DECIMAL_PAIRS[from], DECIMAL_PAIRS[from + 1]);
}

/// Writes a word as eight hexadecimal digits.
#[inline(always)]
pub(crate) fn set_word(text: &mut [u8; ROOM], at: usize, word: u32)
    requires { at + 8 ≤ 64 }
    ensures { take (at + 8) text.new ≡ take at text.old ++ hex 8 word }
{
    set_hex_pair(text, at, (word / 0x100_0000) as u8);
    set_hex_pair(text, at + 2, (word / 0x1_0000 % 0x100) as u8);
    set_hex_pair(text, at + 4, (word / 0x100 % 0x100) as u8);
    set_hex_pair(text, at + 6, (word % 0x100) as u8);
}

/// Writes bytes.
pub(crate) fn set_text(text: &mut [u8; ROOM], at: usize, bytes: &[u8])
    requires { at + length bytes.now ≤ 64 }
    ensures { take (at + length bytes.now) text.new ≡ take at text.old ++ bytes.now }
{
    text[at..at + bytes.len()].copy_from_slice(bytes);
}
