//! Images that are read from bytes.

ghost use Rattle.region_guard.specs.Regions.{IsSize};

use crate::escapes::unescaped;
use crate::numbers::{head, low_word, number};
use fp_image::{Bytes, Image, ImageRefused, read_image, write_image};
use std::alloc::Global;
use test_text::RowText;

/// `small BYTES` or `large BYTES`, with escapes, for the two sizes of scratchpads; `zeros small
/// COUNT`; `word ADDRESS BYTES`; `made`.
pub fn push_answer(text: &mut RowText, alloc: Global, call: &str) {
    let (name, with) = head(call);
    match name {
        "small" | "large" => {
            let bytes = unescaped(text, alloc, with);
            push_read(text, alloc, &bytes, size_of(name))
        }
        "zeros" => push_zeros(text, alloc, with),
        "word" => push_word(text, alloc, with),
        _ => push_made(text, alloc),
    }
}

/// The size of scratchpads by its name.
fn size_of(name: &str) -> u32
    ensures { IsSize result }
{
    if name == "small" { 16_384 } else { 65_536 }
}

/// The image of some bytes, or its refusal.
fn push_read(text: &mut RowText, alloc: Global, bytes: &[u8], size: u32)
    requires { IsSize size }
{
    match read_image(alloc, bytes, size) {
        Ok(image) => push_image(text, alloc, &image, bytes),
        Err(ImageRefused::Fault { code, offset }) => write!(text, "{code:?} {offset}"),
        Err(ImageRefused::NoMemory) => text.refuse(),
    }
}

/// The segments of an image, and whether it is written to these bytes.
fn push_image(text: &mut RowText, alloc: Global, image: &Image, bytes: &[u8]) {
    push_segments(text, image);
    match write_image(alloc, image) {
        Ok(written) if written.as_slice() == bytes => {}
        Ok(_) => text.push_str("written otherwise"),
        Err(_) => text.refuse(),
    }
}

/// Writes each segment's address and bytes.
pub fn push_segments(text: &mut RowText, image: &Image) {
    for segment in image.segments() {
        write!(text, "{:x}:", segment.address);
        push_bytes(text, segment.bytes.as_slice());
    }
}

/// Writes bytes in hexadecimal.
fn push_bytes(text: &mut RowText, bytes: &[u8]) {
    for byte in bytes {
        write!(text, "{byte:02x}");
    }
    text.push_str(";")
}

/// The image of so many bytes of 0.
fn push_zeros(text: &mut RowText, alloc: Global, with: &str) {
    let (size, count) = head(with);
    match vec![in alloc; 0; number(count) as usize] {
        Ok(bytes) => push_read(text, alloc, &bytes, size_of(size)),
        Err(_) => text.refuse(),
    }
}

/// The word at an address of an image.
fn push_word(text: &mut RowText, alloc: Global, with: &str) {
    let (address, bytes) = head(with);
    let address = low_word(number(address));
    if address % 4 != 0 || address >= 65_536 {
        return text.push_str("no place of a word");
    }
    match read_image(alloc, &unescaped(text, alloc, bytes), 65_536) {
        Ok(image) => write!(
            text,
            "{:x} {:x}",
            image.word(address),
            image.code_word(address)
        ),
        Err(_) => text.push_str("no image"),
    }
}

/// An image that is put together from its segments, with two of its words.
fn push_made(text: &mut RowText, alloc: Global) {
    let Ok(bytes) = vec![in alloc; 1, 2, 3, 4] else {
        return text.refuse();
    };
    let mut image = Image::new(alloc);
    let before = image.segments().len();
    if image.add(0x100, Bytes::from_vec(bytes)).is_err() {
        text.refuse();
    }
    write!(
        text,
        "{before} {:x} {:x} ",
        image.code_word(0x100),
        image.code_word(0xfc)
    );
    push_segments(text, &image)
}
