//! The files of a command: its setup and image, why it ends before its text, and its status. Also
//! the results of the commands that run no machine: the bound of a section, also through calls, and
//! the image of a source or an executable.
#![tactic(auto)]

mod assembling;
mod bound;
mod calls;
mod codes;
mod difference;
mod elf;
mod program;
mod status;
mod stop;

pub use assembling::image_bytes;
pub use bound::section_bound;
pub use calls::calls_bound;
pub use codes::{SectionNo, section_refusal};
pub use difference::difference_line;
pub use elf::imported_bytes;
pub use program::{Program, fetch, load};
pub use status::Status;
pub use stop::CommandStop;
