//! Texts that note by themselves whether memory ran out.

use std::alloc::{AllocError, Global};
use std::fmt::{Display, Write};

/// A text that is compared with a row, or printed. If memory ran out for a part of it, it can't be
/// read.
#[derive(Drop)]
pub struct RowText {
    text: String,
    is_refused: bool,
}

impl RowText {
    pub fn new(alloc: Global) -> RowText {
        RowText {
            text: String::new(alloc),
            is_refused: false,
        }
    }

    /// Appends a format. `write!` and `writeln!` call it.
    pub fn write_fmt<D: Display + Drop>(&mut self, format: D) {
        if self.text.write_fmt(format).is_err() {
            self.is_refused = true;
        }
    }

    pub fn push_str(&mut self, more: &str) {
        if self.text.push_str(more).is_err() {
            self.is_refused = true;
        }
    }

    /// Notes that memory ran out for a part of the text.
    pub fn refuse(&mut self) {
        self.is_refused = true;
    }

    /// The number of bytes of the text.
    pub fn len(&self) -> usize {
        self.text.len()
    }

    /// The text. An error if memory ran out for a part of it.
    pub fn as_str(&self) -> Result<&str, AllocError> {
        if self.is_refused {
            Err(AllocError)
        } else {
            Ok(self.text.as_str())
        }
    }
}
