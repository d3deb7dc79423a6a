//! The reason why an image file is refused.

ghost use Rattle.std.specs.Prelude.{◌≡◌};

use thiserror::Error;

/// The faults of an image file, with their numbers in a refusal line.
#[derive(Clone, Copy, Debug, PartialEq, Eq, Error)]
pub enum ImageNo {
    /// The file has more bytes than an image for scratchpads of the given size can need.
    #[error("the file is too long")]
    TooLong = 1,
    /// The file doesn't begin with `FPX1`.
    #[error("this is no image file")]
    Magic = 2,
    /// The file ends within the number of segments or within a segment.
    #[error("the file ends too early")]
    Truncated = 3,
    /// There are more than 16 segments, or a segment isn't a number of whole words inside one
    /// scratchpad.
    #[error("a segment breaks a rule")]
    BadSegment = 4,
    /// A segment begins before the end of the one before it.
    #[error("two segments overlap or fall")]
    Overlap = 5,
    /// There are bytes after the last segment.
    #[error("bytes follow the last segment")]
    Trailing = 6,
}

/// Why an image was not read.
#[derive(Clone, Copy, Debug, PartialEq, Eq, Error)]
pub enum ImageRefused {
    /// The first fault of the file, and its offset in the file: 0 for the whole file; the file's
    /// length if it ends too early; the offset of the number of segments or of a segment's address
    /// field at fault; the offset of the first excess byte.
    #[error("{code} (byte {offset})")]
    Fault { code: ImageNo, offset: u32 },
    /// Out of memory.
    #[error("out of memory")]
    NoMemory,
}

/// A refusal with its offset.
pub(crate) fn fault(code: ImageNo, offset: u32) -> ImageRefused
    ensures { result ≡ ImageRefused.Fault code offset }
{
    ImageRefused::Fault { code, offset }
}
