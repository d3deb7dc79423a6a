//! The machine of a setup and an image: its registers and the words of its scratchpads at the
//! start, with the definition of that start.

#![tactic(auto)]

mod registers;
mod words;

pub use registers::{d_regions, i_regions, modes, slot_table};
pub use words::word_list;
