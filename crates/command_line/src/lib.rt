//! The command that the arguments of the command line give; and the readers of options and numbers,
//! for programs with options of their own.
#![tactic(auto)]

mod asked;
mod command;
mod commands;
mod form;
mod given;
mod numbers;
mod parse;

pub use asked::{Ask, WordsNo};
pub use commands::read_words;
pub use numbers::{number_of, number_of_bytes, thread_of, thread_of_bytes};
pub use parse::texts_of;
