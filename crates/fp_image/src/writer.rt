//! From images to files.

ghost use Rattle.std.specs.Prelude.{◌≡◌, ◌<◌, ◌^◌, ◌++◌, ℕ, length, Ok};
ghost use Rattle.std.specs.Prelude.{OnOk, IfOk, is_ok, if◌then◌else◌};
ghost use Rattle.byteorder.specs.Endian.{little_bytes};
ghost use Rattle.fp_image.specs.Format.{IsReadBack, segment_written, file_of};
ghost use Rattle.fp_image.specs.Rules.{IsImage};
ghost use Rattle.region_guard.specs.Regions.{IsSize};

use crate::images::Image;
use crate::parts::Segment;
use byteorder::{ByteOrder, LittleEndian};
use std::alloc::{AllocError, Global};

/// The file of an image. [`crate::read_image`] reads it back as the same image, for each size whose
/// scratchpads contain its segments.
///
/// # Errors
///
/// `AllocError` if memory ran out.
pub fn write_image(alloc: Global, image: &Image) -> Result<Vec<u8>, AllocError>
    ensures bytes { IfOk result (λ v. v.items ≡ file_of image.now) }
    ensures read_back { IfOk result (λ v. IsReadBack v.items image.now) }
{
    let segments = image.segments();
    let mut bytes = Vec::new(alloc);
    bytes.extend_from_slice(b"FPX1")?;
    push_number(&mut bytes, segments.len() as u32)?;
    for segment in segments {
        push_segment(&mut bytes, segment)?;
    }
    Ok(bytes)
}

/// Writes a segment: its address, its length in bytes, its bytes.
fn push_segment(bytes: &mut Vec<u8>, segment: &Segment) -> Result<(), AllocError>
    requires { length segment.now.bytes < 2 ^ 32 }
    ensures { OnOk result (bytes.new.items ≡ bytes.old.items ++ segment_written segment.now) }
{
    let body = segment.bytes.as_slice();
    push_number(bytes, segment.address)?;
    push_number(bytes, body.len() as u32)?;
    bytes.extend_from_slice(body)
}

/// Writes a number as four bytes, the lowest first.
fn push_number(bytes: &mut Vec<u8>, number: u32) -> Result<(), AllocError>
    ensures { OnOk result (bytes.new.items ≡ bytes.old.items ++ little_bytes 4 number) }
{
    let mut buffer = [0; 4];
    LittleEndian::write_u32(&mut buffer, number);
    bytes.extend_from_slice(&buffer)
}
