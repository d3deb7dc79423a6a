//! The abbreviations of the tables: a full stop is eight zeros, a star is eight words of zeros,
//! each with a space before it.

use std::alloc::AllocError;

/// The expansion of a star.
const WORDS: &[u8] = b" 00000000 00000000 00000000 00000000 00000000 00000000 00000000 00000000";

/// Appends a text with these abbreviations.
pub fn push_expanded(to: &mut Vec<u8>, text: &str) -> Result<(), AllocError> {
    for byte in text.as_bytes() {
        match *byte {
            b'.' => to.extend_from_slice(b"00000000")?,
            b'*' => to.extend_from_slice(WORDS)?,
            byte => to.push(byte)?,
        }
    }
    Ok(())
}

/// Appends a line of a trace, whose cycle is put right in ten columns.
pub fn push_event(to: &mut Vec<u8>, line: &str) -> Result<(), AllocError> {
    let digits = line.find(' ').unwrap_or(0);
    for _column in digits..10 {
        to.push(b' ')?;
    }
    push_expanded(to, line)
}
