//! Bytes that a table has as hexadecimal digits.

use std::alloc::{AllocError, Global};

/// Appends the bytes of words of hexadecimal digits, two for a byte. A full stop is four bytes of
/// 0, and `*N` after a word repeats its bytes N times.
pub fn push_bytes(to: &mut Vec<u8>, alloc: Global, line: &str) -> Result<(), AllocError> {
    for word in line.split(' ') {
        push_word(to, alloc, word)?;
    }
    Ok(())
}

/// Appends the bytes of one such word.
fn push_word(to: &mut Vec<u8>, alloc: Global, word: &str) -> Result<(), AllocError> {
    let (digits, count) = word.split_once('*').unwrap_or((word, "1"));
    let bytes = bytes_of(alloc, digits)?;
    push_times(to, &bytes, count.parse().unwrap_or(0))
}

/// The bytes of digits; none if the text isn't digits.
fn bytes_of(alloc: Global, digits: &str) -> Result<Vec<u8>, AllocError> {
    let mut bytes = Vec::new(alloc);
    let mut zeros: &[u8] = &[];
    for part in digits.split('.') {
        bytes.extend_from_slice(zeros)?;
        zeros = &[0; 4];
        if let Ok(part) = hex::decode(alloc, part) {
            bytes.extend_from_slice(&part)?;
        }
    }
    Ok(bytes)
}

/// Appends bytes a number of times.
fn push_times(to: &mut Vec<u8>, bytes: &[u8], count: u32) -> Result<(), AllocError> {
    for _time in 0..count {
        to.extend_from_slice(bytes)?;
    }
    Ok(())
}
