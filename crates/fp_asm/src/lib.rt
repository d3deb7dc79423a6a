//! The assembler: from a source text to an image, or to the first fault with its line.
//!
//! [`assemble`] makes two passes over the lines. The first computes the locations of labels and of
//! each line's words, and the second makes the words. The mnemonics are one table of rows, and the
//! words are those of `rv_decode`.

#![tactic(auto)]

mod addresses;
mod assembler;
mod build;
mod first_pass;
mod instruction;
mod labels;
mod lines;
mod memory;
mod mnemonics;
mod names;
mod operand_forms;
mod operands;
mod pieces;
mod refusal;
mod runs;
mod second_pass;
mod size;
mod statement;
mod statement_words;
mod targets;

pub use assembler::{MOST_SOURCE_BYTES, assemble};
pub use refusal::{AsmNo, AsmRefused};
