//! The lines of a text, and the words of a line.

ghost use Rattle.std.specs.Prelude.{◌≡◌, IfOk, map};
ghost use Rattle.loop_command_line.specs.Lines.{is_blank, lines_of, words_of};

use std::alloc::{AllocError, Global};

/// Whether a byte is between words.
fn is_blank(byte: u8) -> bool
    ensures { result ≡ is_blank byte }
{
    matches!(byte, b'\t'..=b'\r' | b' ')
}

/// The lines of a text.
///
/// # Errors
///
/// Out of memory.
pub(crate) fn lines<'a>(alloc: Global, text: &'a [u8]) -> Result<Vec<&'a [u8]>, AllocError>
    ensures { IfOk result (λ lines. map (λ line. line.now) lines.items ≡ lines_of text.now) }
{
    let mut list = Vec::new(alloc);
    let mut start = 0;
    for i in 0..text.len() {
        if text[i] != b'\n' {
            continue;
        }
        list.push(&text[start..i])?;
        start = i + 1;
    }
    list.push(&text[start..])?;
    Ok(list)
}

/// The words of a line.
///
/// # Errors
///
/// Out of memory.
pub(crate) fn words<'a>(alloc: Global, line: &'a [u8]) -> Result<Vec<&'a [u8]>, AllocError>
    ensures { IfOk result (λ words. map (λ word. word.now) words.items ≡ words_of line.now) }
{
    let mut list = Vec::new(alloc);
    let mut start = 0;
    for i in 0..line.len() {
        if !is_blank(line[i]) {
            continue;
        }
        if start == i {
            start = i + 1;
            continue;
        }
        list.push(&line[start..i])?;
        start = i + 1;
    }
    if start >= line.len() {
        return Ok(list);
    }
    list.push(&line[start..])?;
    Ok(list)
}
