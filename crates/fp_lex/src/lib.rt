//! The tokens of a line of assembler source: names, numbers and marks, with their spans.
//!
//! A line is the bytes without its line end. Spaces and tabs separate tokens, and `#` begins a
//! comment that goes to the end of the line and may contain any bytes. [`tokens`] returns the
//! tokens of a line, or its leftmost fault. The rules are this project's own.

#![tactic(auto)]

mod bytes;
mod lexer;
mod number;
mod scan;
mod token;

pub use lexer::tokens;
pub use token::{Kind, LexNo, Token, Tokens};
