//! The lines of a source.

ghost use Rattle.std.specs.Prelude.{◌≡◌, ◌≤◌, ◌+◌, IfOk, All, length, map};
ghost use Rattle.fp_asm.specs.Lines.{without_return as without_return_of, lines_of};

use std::alloc::{AllocError, Global};

// The line without the carriage return before its line feed.
#[tactic(auto, unfolding(crate::specs::Lines::without_return))]
fn without_return(line: &[u8]) -> &[u8]
    ensures line { result.now ≡ without_return_of line.now }
    ensures shorter { length result.now ≤ length line.now }
{
    if !line.is_empty() && line[line.len() - 1] == b'\r' {
        &line[..line.len() - 1]
    } else {
        line
    }
}

/// The lines of a source.
///
/// # Errors
///
/// Out of memory.
pub(crate) fn lines<'a>(alloc: Global, source: &'a [u8]) -> Result<Vec<&'a [u8]>, AllocError>
    ensures lines { IfOk result (λ lines. map (λ line. line.now) lines.items
        ≡ lines_of source.now) }
    ensures short { IfOk result (λ lines. All (λ line. length line.now ≤ length source.now)
        lines.items) }
    ensures few { IfOk result (λ lines. length lines.items ≤ length source.now + 1) }
{
    let mut list = Vec::new(alloc);
    let mut start = 0;
    for i in 0..source.len() {
        if source[i] != b'\n' {
            continue;
        }
        list.push(without_return(&source[start..i]))?;
        start = i + 1;
    }
    list.push(&source[start..])?;
    Ok(list)
}
