//! Numbers in arguments.

ghost use Rattle.std.specs.Prelude.{◌≡◌, ◌≤◌, ◌<◌, IfSome, length};
ghost use Rattle.command_line.specs.Numbers.{decimal_after, decimal_in, hexadecimal_after};
ghost use Rattle.command_line.specs.Numbers.{hexadecimal_in, hexadecimal_digit};
ghost use Rattle.command_line.specs.Numbers.{number_in, thread_in, address_in};
ghost use Rattle.command_line.specs.Numbers.{address_value, after_prefix};

/// A thread: one digit 0 to 7.
pub fn thread_of_bytes(digits: &[u8]) -> Option<u8>
    ensures value { result ≡ thread_in digits.now }
    ensures limit { IfSome result (λ i. i < 8) }
{
    if digits.len() != 1 {
        return None;
    }
    match digits[0] {
        digit @ b'0'..=b'7' => Some(digit - b'0'),
        _ => None,
    }
}

/// The thread of an argument.
pub fn thread_of(word: &str) -> Option<u8>
    ensures value { result ≡ thread_in word.now }
    ensures limit { IfSome result (λ i. i < 8) }
{
    thread_of_bytes(word.as_bytes())
}

/// The decimal value of at most ten digits; None if a byte is no digit.
fn decimal_value(digits: &[u8]) -> Option<u64>
    requires { length digits.now ≤ 10 }
    ensures { result ≡ decimal_after 0 digits.now }
{
    let mut value: u64 = 0;
    for digit in digits {
        if !digit.is_ascii_digit() {
            return None;
        }
        value = value * 10 + u64::from(*digit - b'0');
    }
    Some(value)
}

/// The value of one to ten decimal digits.
fn decimal_of(digits: &[u8]) -> Option<u64>
    ensures { result ≡ decimal_in digits.now }
{
    if digits.is_empty() || digits.len() > 10 {
        return None;
    }
    decimal_value(digits)
}

/// The value of a hexadecimal digit of either case.
fn digit_value(digit: u8) -> Option<u8>
    ensures value { result ≡ hexadecimal_digit digit }
    ensures limit { IfSome result (λ n. n < 16) }
{
    match digit {
        b'0'..=b'9' => Some(digit - b'0'),
        b'a'..=b'f' => Some(digit - b'a' + 10),
        b'A'..=b'F' => Some(digit - b'A' + 10),
        _ => None,
    }
}

/// The hexadecimal value of at most eight digits; None if a byte is no digit.
fn hexadecimal_value(digits: &[u8]) -> Option<u64>
    requires { length digits.now ≤ 8 }
    ensures { result ≡ hexadecimal_after 0 digits.now }
{
    let mut value: u64 = 0;
    for digit in digits {
        let Some(digit) = digit_value(*digit) else {
            return None;
        };
        value = value * 16 + u64::from(digit);
    }
    Some(value)
}

/// The value of one to eight hexadecimal digits.
fn hexadecimal_of(digits: &str) -> Option<u64>
    ensures { result ≡ hexadecimal_in digits.now }
{
    let digits = digits.as_bytes();
    if digits.is_empty() || digits.len() > 8 {
        return None;
    }
    hexadecimal_value(digits)
}

/// A number of one to ten decimal digits, at most `most`.
#[tactic(auto, unfolding(crate::specs::Numbers::number_in))]
pub fn number_of_bytes(most: u64, digits: &[u8]) -> Option<u64>
    ensures value { result ≡ number_in most digits.now }
    ensures limit { IfSome result (λ n. n ≤ most) }
{
    match decimal_of(digits) {
        Some(value) if value <= most => Some(value),
        _ => None,
    }
}

/// The number of an argument.
pub fn number_of(most: u64, word: &str) -> Option<u64>
    ensures value { result ≡ number_in most word.now }
    ensures limit { IfSome result (λ n. n ≤ most) }
{
    number_of_bytes(most, word.as_bytes())
}

/// The number of an address, decimal or after `0x` hexadecimal.
fn address_number(word: &str) -> Option<u64>
    ensures { result ≡ address_value (after_prefix word.now) word.now }
{
    match word.strip_prefix("0x") {
        Some(digits) => hexadecimal_of(digits),
        None => decimal_of(word.as_bytes()),
    }
}

/// An address: one to ten decimal digits or `0x` and one to eight hexadecimal digits, below 2^32.
#[tactic(auto, unfolding(crate::specs::Numbers::address_in))]
pub fn address_of(word: &str) -> Option<u32>
    ensures { result ≡ address_in word.now }
{
    match address_number(word) {
        Some(value) if value <= 0xffff_ffff => Some(value as u32),
        _ => None,
    }
}
