//! The images of executables, or their faults.
//!
//! GNU ld 2.40 and lld 14 linked some of the files, from random sources with linker scripts and
//! options of all kinds; the others were made from single fields. An executable model of the rules,
//! which was written independently of the reader, gave the answers.

ghost use Rattle.region_guard.specs.Regions.{IsSize};

use fp_elf::{ElfRefused, read_elf};
use fp_image::{Image, read_image, write_image};
use std::alloc::Global;
use test_text::{RowText, push_bytes};

/// `image` with its segments, each as its address and its words, or the fault of a file. A file is
/// words of hexadecimal digits, two for a byte, and a full stop is four bytes of 0. `*N` after a
/// word, also in an answer, repeats it N times.
pub fn push_answer(text: &mut RowText, alloc: Global, call: &str) {
    let mut file = Vec::new(alloc);
    if push_bytes(&mut file, alloc, call).is_err() {
        text.refuse();
    }
    match read_elf(alloc, &file) {
        Ok(image) => push_written(text, alloc, &image),
        Err(ElfRefused::Fault { code, offset }) => {
            write!(text, "{} {code:?} {offset}", code as u8)
        }
        Err(ElfRefused::NoMemory) => text.refuse(),
    }
}

/// The segments of an image, as they are read back from its written bytes.
fn push_written(text: &mut RowText, alloc: Global, image: &Image) {
    let Ok(written) = write_image(alloc, image) else {
        return text.refuse();
    };
    match read_image(alloc, &written, 65_536) {
        Ok(image) => push_segments(text, &image),
        Err(_) => text.push_str("no image was written"),
    }
}

/// The segments of an image.
fn push_segments(text: &mut RowText, image: &Image) {
    text.push_str("image");
    for segment in image.segments() {
        write!(text, " {:08x}:", segment.address);
        push_words(text, segment.bytes.as_slice());
    }
}

/// Appends words; a run of equal words is one word with its count.
fn push_words(text: &mut RowText, bytes: &[u8]) {
    let mut same: &[u8] = &[];
    let mut count = 0u32;
    for word in bytes.chunks(4) {
        if word != same {
            push_word(text, same, count);
            same = word;
            count = 0;
        }
        count = count.saturating_add(1);
    }
    push_word(text, same, count)
}

/// Appends a word with its count, which may be 0.
fn push_word(text: &mut RowText, word: &[u8], count: u32) {
    if count == 0 {
        return;
    }
    text.push_str(" ");
    for byte in word {
        write!(text, "{byte:02x}");
    }
    if count > 1 {
        write!(text, "*{count}");
    }
}
