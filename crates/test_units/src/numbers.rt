//! The arguments and numbers of a call.

ghost use Rattle.std.specs.Prelude.{◌<◌};

/// A text up to its first space, and the rest after it.
pub fn head(text: &str) -> (&str, &str) {
    match text.split_once(' ') {
        Some(parts) => parts,
        None => (text, ""),
    }
}

/// The number of a word, hexadecimal after `0x`; 0 where it is none.
pub fn number(word: &str) -> u64 {
    match word.strip_prefix("0x") {
        Some(digits) => u64::from_str_radix(digits, 16).unwrap_or(0),
        None => word.parse().unwrap_or(0u64),
    }
}

/// The numbers of a text, with 0 after the last.
pub fn numbers(text: &str) -> [u64; 8] {
    let mut words = text.split_whitespace();
    let mut numbers = [0; 8];
    for each in &mut numbers {
        *each = number(words.next().unwrap_or(""));
    }
    numbers
}

/// The number of hexadecimal digits.
pub fn hexadecimal(digits: &str) -> Option<u32> {
    u32::from_str_radix(digits, 16).ok()
}

/// Reads as many hexadecimal numbers as there are elements. None where there are fewer.
pub fn read_hexadecimals(text: &str, numbers: &mut [u32]) -> Option<()> {
    let mut words = text.split_whitespace();
    for number in numbers {
        *number = hexadecimal(words.next()?)?;
    }
    Some(())
}

/// The low 32 bits of a number.
pub fn low_word(number: u64) -> u32 {
    (number & 0xffff_ffff) as u32
}

/// The low 8 bits of a number.
pub fn low_byte(number: u64) -> u8 {
    (number & 0xff) as u8
}

/// The thread of a number.
pub fn thread_of(number: u64) -> u8
    ensures { result < 8 }
{
    (number % 8) as u8
}
