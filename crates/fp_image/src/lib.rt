//! The image of a program: the segments of its two scratchpads, and its file format.

#![tactic(auto)]

mod images;
mod parts;
mod reader;
mod refusals;
mod writer;

pub use images::Image;
pub use parts::{Bytes, Segment};
pub use reader::{MOST_SEGMENTS, longest, read_image};
pub use refusals::{ImageNo, ImageRefused};
pub use writer::write_image;
