//! The token at an index of a line.

ghost use Rattle.std.specs.Prelude.{◌≡◌, ◌+◌, ◌≤◌, ◌<◌, ◌^◌, IfOk, length, drop, get_or};
ghost use Rattle.fp_lex.specs.Bytes.{is_digit as is_digit_of, is_hex as is_hex_of};
ghost use Rattle.fp_lex.specs.Bytes.{is_head as is_head_of, is_rest as is_rest_of, run, starts};
ghost use Rattle.fp_lex.specs.Tokens.{is_prefixed as is_prefixed_of, digits_at as digits_of};
ghost use Rattle.fp_lex.specs.Tokens.{number_at as number_token, token_at as token_of};
ghost use Rattle.fp_lex.specs.Tokens.{counted as counted_of, token_in as token_of_index};

use super::bytes::{is_digit, is_head, is_hex, is_mark, is_rest};
use super::number::number;
use super::token::{Kind, LexNo, Token};

/// The number of bytes at the start that a name may have.
#[tactic(auto, unfolding(crate::specs::Bytes::run))]
fn name_run(bytes: &[u8]) -> usize
    ensures length { result ≡ run is_rest_of bytes.now }
    ensures inside { result ≤ length bytes.now }
{
    bytes.iter().take_while(|b| is_rest(**b)).count()
}

/// The number of decimal digits at the start.
#[tactic(auto, unfolding(crate::specs::Bytes::run))]
fn digit_run(bytes: &[u8]) -> usize
    ensures length { result ≡ run is_digit_of bytes.now }
    ensures inside { result ≤ length bytes.now }
{
    bytes.iter().take_while(|b| is_digit(**b)).count()
}

/// The number of hexadecimal digits at the start.
#[tactic(auto, unfolding(crate::specs::Bytes::run))]
fn hex_run(bytes: &[u8]) -> usize
    ensures length { result ≡ run is_hex_of bytes.now }
    ensures inside { result ≤ length bytes.now }
{
    bytes.iter().take_while(|b| is_hex(**b)).count()
}

/// Whether a name begins here.
fn starts_name(bytes: &[u8]) -> bool
    ensures { result ≡ starts is_head_of bytes.now }
{
    match bytes {
        [b, ..] => is_head(*b),
        [] => false,
    }
}

/// Whether a hexadecimal number's `0x` stands here.
fn is_prefixed(bytes: &[u8]) -> bool
    ensures { result ≡ is_prefixed_of bytes.now }
{
    matches!(bytes, [b'0', b'x', ..])
}

// A number at column i with a number of digits after a number of bytes.
#[tactic(auto, unfolding(crate::specs::Tokens::digits_at, crate::specs::Bytes::fit))]
fn digits_at(i: u32, skip: usize, base: u32, count: usize, bytes: &[u8]) -> Result<Token, LexNo>
    requires inside { skip + count ≤ length bytes.now }
    requires end { i + length bytes.now < 2 ^ 32 }
    requires base { 0 < base }
    ensures token { result ≡ digits_of i skip base count bytes.now }
    ensures end { IfOk result (λ t. (i < t.end) × (t.end ≤ i + length bytes.now)) }
{
    let value = number(base, &bytes[skip..skip + count]);
    match value {
        Some(value) if count != 0 && !starts_name(&bytes[skip + count..]) => Ok(Token {
            kind: Kind::Number,
            start: i,
            end: i + (skip + count) as u32,
            value,
        }),
        _ => Err(LexNo::BadNumber { column: i }),
    }
}

/// The number that begins at column `i`, decimal or hexadecimal.
#[tactic(auto, unfolding(crate::specs::Tokens::number_at))]
fn number_at(i: u32, bytes: &[u8]) -> Result<Token, LexNo>
    requires { i + length bytes.now < 2 ^ 32 }
    ensures token { result ≡ number_token i bytes.now }
    ensures end { IfOk result (λ t. (i < t.end) × (t.end ≤ i + length bytes.now)) }
{
    if is_prefixed(bytes) {
        digits_at(i, 2, 16, hex_run(&bytes[2..]), bytes)
    } else {
        digits_at(i, 0, 10, digit_run(bytes), bytes)
    }
}

// The token at column i; these bytes begin there.
#[tactic(auto, unfolding(crate::specs::Tokens::token_at))]
fn token_at(i: u32, bytes: &[u8]) -> Result<Token, LexNo>
    requires end { i + length bytes.now < 2 ^ 32 }
    requires some { 0 < length bytes.now }
    ensures token { result ≡ token_of i (get_or bytes.now 0 0) (drop 1 bytes.now) }
    ensures end { IfOk result (λ t. (i < t.end) × (t.end ≤ i + length bytes.now)) }
{
    let b = bytes[0];
    if is_head(b) {
        Ok(Token {
            kind: Kind::Name,
            start: i,
            end: i + name_run(bytes) as u32,
            value: 0,
        })
    } else if is_digit(b) {
        number_at(i, bytes)
    } else if is_mark(b) {
        Ok(Token {
            kind: Kind::Mark,
            start: i,
            end: i + 1,
            value: u32::from(b),
        })
    } else {
        Err(LexNo::BadChar { column: i })
    }
}

/// The token behind `n` others. A line has at most 64.
fn counted(n: usize, token: Token) -> Result<Token, LexNo>
    ensures { result ≡ counted_of n token }
{
    if n < 64 {
        Ok(token)
    } else {
        Err(LexNo::TooMany)
    }
}

/// The token at an index of the line that is no blank and begins no comment, after n others.
///
/// # Errors
///
/// The token's own fault if it has one; else [`LexNo::TooMany`] if there are 64 others.
#[tactic(auto, unfolding(crate::specs::Tokens::token_in))]
pub(crate) fn token_in(line: &[u8], i: usize, n: usize) -> Result<Token, LexNo>
    requires short { length line.now < 2 ^ 32 }
    requires inside { i < length line.now }
    ensures token { result ≡ token_of_index line.now i n }
    ensures end { IfOk result (λ t. (i < t.end) × (t.end ≤ length line.now)) }
{
    let token = token_at(i as u32, &line[i..])?;
    counted(n, token)
}
