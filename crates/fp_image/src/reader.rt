//! From files to images.

ghost use Rattle.std.specs.Prelude.{◌≡◌, ◌⊎◌, ◌≤◌, ◌+◌, length, IsTrue, IfOk};
ghost use Rattle.fp_image.specs.Format.{count_of, longest, segment_of};
ghost use Rattle.fp_image.specs.Format.{segments_of, image_of, IsUnlessMemory};
ghost use Rattle.fp_image.specs.Rules.{IsImage, is_placed, most_segments};
ghost use Rattle.region_guard.specs.Regions.{IsSize};

use crate::images::Image;
use crate::parts::{Bytes, Segment};
use crate::refusals::{ImageNo, ImageRefused, fault};
use byteorder::{ByteOrder, LittleEndian};
use region_guard::{DATA_START, SMALL_SIZE};
use std::alloc::Global;

/// The image in a file, for scratchpads of `size` bytes, 16,384 or 65,536.
///
/// # Errors
///
/// `Fault` if the file isn't an image, with its first fault; `NoMemory` if memory ran out.
#[tactic(auto, unfolding(crate::specs::Format::image_of))]
pub fn read_image(alloc: Global, bytes: &[u8], size: u32) -> Result<Image, ImageRefused>
    requires { IsSize size }
    ensures value { IsUnlessMemory result (image_of size bytes.now) }
    ensures rules { IfOk result (IsImage size) }
{
    let count = count_of(bytes, size)?;
    read_segments(alloc, &bytes[8..], count, size, bytes.len() as u32)
}

/// The most segments of an image.
pub const MOST_SEGMENTS: u32 = 16;

/// The number of segments of a file.
#[tactic(auto, unfolding(crate::specs::Format::count_of))]
fn count_of(bytes: &[u8], size: u32) -> Result<u32, ImageRefused>
    requires { IsSize size }
    ensures value { result ≡ count_of size bytes.now }
    ensures few { IfOk result (λ count. count ≤ most_segments) }
    ensures whole { IfOk result (λ count. 8 ≤ length bytes.now) }
    ensures short { IfOk result (λ count. length bytes.now ≤ 139264) }
{
    if bytes.len() > longest(size) {
        return Err(fault(ImageNo::TooLong, 0));
    }
    if !bytes.starts_with(b"FPX1") {
        return Err(fault(ImageNo::Magic, 0));
    }
    if bytes.len() < 8 {
        return Err(fault(ImageNo::Truncated, bytes.len() as u32));
    }
    let count = LittleEndian::read_u32(&bytes[4..]);
    if count > MOST_SEGMENTS {
        return Err(fault(ImageNo::BadSegment, 4));
    }
    Ok(count)
}

/// The most bytes of an image's file, for scratchpads of a size in bytes.
pub fn longest(size: u32) -> usize
    requires { IsSize size }
    ensures { result ≡ longest size }
{
    if size == SMALL_SIZE { 34_816 } else { 139_264 }
}

/// The image of the `count` segments in `bytes`, the end of a file of `total` bytes.
fn read_segments(
    alloc: Global,
    bytes: &[u8],
    count: u32,
    size: u32,
    total: u32,
) -> Result<Image, ImageRefused>
    requires size { IsSize size }
    requires few { count ≤ most_segments }
    requires total { length bytes.now ≤ total }
    ensures value { IsUnlessMemory result (segments_of size total count 0 bytes.now) }
    ensures rules { IfOk result (IsImage size) }
{
    let mut image = Image::new(alloc);
    let mut rest = bytes;
    let mut from = 0;
    for _done in 0..count {
        let segment = read_segment(alloc, rest, from, size, total)?;
        let len = segment.bytes.as_slice().len();
        (_, rest) = rest.split_at(8 + len);
        from = segment.address + len as u32;
        if image.add(segment.address, segment.bytes).is_err() {
            return Err(ImageRefused::NoMemory);
        }
    }
    if !rest.is_empty() {
        return Err(fault(ImageNo::Trailing, total - rest.len() as u32));
    }
    Ok(image)
}

/// The first segment of `rest`, the end of a file of `total` bytes. The segment before it ends at
/// the address `from`.
#[tactic(auto, unfolding(crate::specs::Format::segment_of))]
fn read_segment(
    alloc: Global,
    rest: &[u8],
    from: u32,
    size: u32,
    total: u32,
) -> Result<Segment, ImageRefused>
    requires size { IsSize size }
    requires total { length rest.now ≤ total }
    ensures value { IsUnlessMemory result (segment_of size total from rest.now) }
    ensures placed { IfOk result (λ s. IsTrue (is_placed size s.address (length s.bytes))) }
    ensures rises { IfOk result (λ s. from ≤ s.address) }
    ensures whole { IfOk result (λ s. 8 + length s.bytes ≤ length rest.now) }
{
    if rest.len() < 8 {
        return Err(fault(ImageNo::Truncated, total));
    }
    let address = LittleEndian::read_u32(rest);
    let len = LittleEndian::read_u32(&rest[4..]);
    let offset = total - rest.len() as u32;
    if !is_placed(address, len, size) {
        return Err(fault(ImageNo::BadSegment, offset));
    }
    if address < from {
        return Err(fault(ImageNo::Overlap, offset));
    }
    let end = 8 + len as usize;
    if rest.len() < end {
        return Err(fault(ImageNo::Truncated, total));
    }
    match Vec::from_slice(alloc, &rest[8..end]) {
        Ok(bytes) => Ok(Segment {
            address,
            bytes: Bytes::from_vec(bytes),
        }),
        Err(_) => Err(ImageRefused::NoMemory),
    }
}

/// Whether a segment is placed correctly: whole words inside one scratchpad.
fn is_placed(address: u32, len: u32, size: u32) -> bool
    requires { IsSize size }
    ensures { result ≡ is_placed size address len }
{
    let start = u64::from(address);
    let end = start + u64::from(len);
    let in_code = end <= u64::from(size);
    let in_data = u64::from(DATA_START) <= start && end <= u64::from(DATA_START + size);
    address % 4 == 0 && len % 4 == 0 && 0 < len && (in_code || in_data)
}
