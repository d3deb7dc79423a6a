//! The assembler's images of sources.
//!
//! The answers of `sources.txt` were worked out from the rules of the language by hand and by a
//! model in another language. GNU as 2.40 with GNU ld made the words of `gnu.txt`, for the
//! architecture `rv32im_zicsr_zifencei` without relaxation: every mnemonic that both assemblers
//! know, each at a location that `.org` gives. The rows of `longest.txt` are sources of the most
//! bytes, and of one byte more.

use crate::escapes::unescaped;
use crate::images::push_segments;
use fp_asm::{AsmRefused, assemble};
use std::alloc::{AllocError, Global};
use test_text::RowText;

/// `SOURCE`, or `COUNT` and a tab before it if its first byte is repeated so many times; with
/// escapes.
pub fn push_answer(text: &mut RowText, alloc: Global, call: &str) {
    let (count, source) = call.split_once('\t').unwrap_or(("1", call));
    let source = unescaped(text, alloc, source);
    match with_first(alloc, count.parse().unwrap_or(1), &source) {
        Ok(source) => push_image(text, alloc, &source),
        Err(AllocError) => text.refuse(),
    }
}

/// The image of a source, or its first fault.
fn push_image(text: &mut RowText, alloc: Global, source: &[u8]) {
    match assemble(alloc, source) {
        Ok(image) => {
            text.push_str("image ");
            push_segments(text, &image)
        }
        Err(AsmRefused::Fault { line, code }) => {
            write!(text, "fault {line} {} {code:?}", code as u8)
        }
        Err(AsmRefused::NoMemory) => text.refuse(),
    }
}

/// The bytes, with the first one repeated so many times.
fn with_first(alloc: Global, count: u32, bytes: &[u8]) -> Result<Vec<u8>, AllocError> {
    let [first, others @ ..] = bytes else {
        return Ok(Vec::new(alloc));
    };
    let mut all = vec![in alloc; *first; count as usize]?;
    all.extend_from_slice(others)?;
    Ok(all)
}
