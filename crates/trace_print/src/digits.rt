//! Numbers as texts, at the end of a buffer.

ghost use Rattle.std.specs.Prelude.{◌≡◌, ◌+◌, ◌<◌, ◌≤◌, ◌^◌, ◌∷◌, [], ◌++◌, max, length, decimal};
ghost use Rattle.std.specs.Str.{IsUtf8};
ghost use Rattle.arrayvec.specs.ArrayString.{array_string_len};
ghost use Rattle.trace_print.specs.Digits.{hex_digit, hex, two_digits, right};

use arrayvec::ArrayString;
use itoa::{Buffer, Integer};

/// Appends a number in decimal.
pub fn push_decimal<I: Integer>(text: &mut ArrayString<96>, number: I)
    requires room { array_string_len text.old + I.MAX_STR_LEN ≤ 96 }
    ensures text { text.new.bytes ≡ text.old.bytes ++ I.text number }
    ensures len { array_string_len text.new ≤ array_string_len text.old + I.MAX_STR_LEN }
{
    text.push_str(Buffer::new().format(number));
}

/// Appends a number in decimal, right-aligned in `width` columns and filled with spaces. A longer
/// number uses more columns.
#[tactic(auto, unfolding(crate::specs::Digits::right))]
pub fn push_right(text: &mut ArrayString<96>, number: u64, width: usize)
    requires few { width ≤ 20 }
    requires room { array_string_len text.old + 20 ≤ 96 }
    ensures text { text.new.bytes ≡ text.old.bytes ++ right width number }
    ensures len { array_string_len text.new ≤ array_string_len text.old + 20 }
{
    let mut buffer = Buffer::new();
    let digits = buffer.format(number);
    for _column in digits.len()..width {
        text.push(' ');
    }
    text.push_str(digits);
}

/// Appends the lowest `width` hexadecimal digits of a number.
#[tactic(auto, unfolding(crate::specs::Digits::hex))]
pub fn push_hex(text: &mut ArrayString<96>, number: u64, width: usize)
    requires room { array_string_len text.old + width ≤ 96 }
    ensures text { text.new.bytes ≡ text.old.bytes ++ hex width number }
    ensures len { array_string_len text.new ≡ array_string_len text.old + width }
{
    if width > 0 {
        push_hex(text, number / 16, width - 1);
        text.push(hex_char((number % 16) as u8));
    }
}

/// Appends a word as eight hexadecimal digits.
pub fn push_word(text: &mut ArrayString<96>, word: u32)
    requires room { array_string_len text.old + 8 ≤ 96 }
    ensures text { text.new.bytes ≡ text.old.bytes ++ hex 8 word }
    ensures len { array_string_len text.new ≡ array_string_len text.old + 8 }
{
    let digits = word_digits(word);
    // Digits are ASCII and so valid UTF-8: no byte is tested.
    text.push_str(unsafe { str::from_utf8_unchecked(&digits) });
}

/// The eight hexadecimal digits of a word.
#[inline(always)]
#[tactic(auto, unfolding(crate::specs::Digits::hex))]
fn word_digits(word: u32) -> [u8; 8]
    ensures digits { result ≡ hex 8 word }
    ensures text { IsUtf8 result }
{
    [
        hex_byte(word / 0x1000_0000 % 16),
        hex_byte(word / 0x100_0000 % 16),
        hex_byte(word / 0x10_0000 % 16),
        hex_byte(word / 0x1_0000 % 16),
        hex_byte(word / 0x1000 % 16),
        hex_byte(word / 0x100 % 16),
        hex_byte(word / 0x10 % 16),
        hex_byte(word % 16),
    ]
}

/// A hexadecimal digit as a byte of text.
#[inline(always)]
fn hex_byte(digit: u32) -> u8
    requires { digit < 16 }
    ensures digit { result ≡ hex_digit digit }
    ensures ascii { result < 128 }
{
    let digit = digit as u8;
    if digit < 10 {
        b'0' + digit
    } else {
        b'a' + (digit - 10)
    }
}

/// A hexadecimal digit.
fn hex_char(digit: u8) -> char
    requires { digit < 16 }
    ensures { result ≡ hex_digit digit }
{
    if digit < 10 {
        char::from(b'0' + digit)
    } else {
        char::from(b'a' + (digit - 10))
    }
}

/// Appends a number below 100 in two decimal digits.
#[tactic(auto, unfolding(crate::specs::Digits::two_digits))]
pub(crate) fn push_two_digits(text: &mut ArrayString<96>, number: u8)
    requires small { number < 100 }
    requires room { array_string_len text.old + 2 ≤ 96 }
    ensures text { text.new.bytes ≡ text.old.bytes ++ two_digits number }
    ensures len { array_string_len text.new ≡ array_string_len text.old + 2 }
{
    text.push(char::from(b'0' + number / 10));
    text.push(char::from(b'0' + number % 10));
}
