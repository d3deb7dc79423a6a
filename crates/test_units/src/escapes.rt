//! Bytes that are written with escapes.

use std::alloc::Global;
use test_text::RowText;

/// The next element of a text with escapes.
#[derive(Clone, Copy)]
enum Next {
    Plain,
    /// After `\`.
    Escape,
    /// After `\x`.
    High,
    /// After `\x` and a digit of this value.
    Low(u8),
}

/// The bytes of a text in which `\n`, `\r`, `\t`, `\\` and `\x` with two hexadecimal digits are one
/// byte each. The answer to the call notes if memory ran out.
pub fn unescaped(answer: &mut RowText, alloc: Global, text: &str) -> Vec<u8> {
    let mut bytes = Vec::new(alloc);
    let mut next = Next::Plain;
    for b in text.as_bytes() {
        let (after, byte) = step(next, *b);
        next = after;
        if let Some(byte) = byte
            && bytes.push(byte).is_err()
        {
            answer.refuse();
        }
    }
    bytes
}

/// The state after a byte of the text, and the byte that it completes.
fn step(next: Next, b: u8) -> (Next, Option<u8>) {
    match (next, b) {
        (Next::Plain, b'\\') => (Next::Escape, None),
        (Next::Plain, _) => (Next::Plain, Some(b)),
        (Next::Escape, b'x') => (Next::High, None),
        (Next::Escape, b'n') => (Next::Plain, Some(b'\n')),
        (Next::Escape, b'r') => (Next::Plain, Some(b'\r')),
        (Next::Escape, b't') => (Next::Plain, Some(b'\t')),
        (Next::Escape, _) => (Next::Plain, Some(b)),
        (Next::High, _) => (Next::Low(digit(b)), None),
        (Next::Low(high), _) => (
            Next::Plain,
            Some(high.wrapping_mul(16).wrapping_add(digit(b))),
        ),
    }
}

/// The value of a hexadecimal digit in lower case.
fn digit(b: u8) -> u8 {
    if b < b'a' {
        b.wrapping_sub(b'0')
    } else {
        b.wrapping_sub(b'a').wrapping_add(10)
    }
}
