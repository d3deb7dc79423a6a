//! Appends one value, with a space after it.

use std::fmt::Debug;
use test_text::RowText;

/// Appends a number, in hexadecimal digits.
pub fn push_hexadecimal(text: &mut RowText, number: u64) {
    write!(text, "{number:x} ")
}

/// Appends a value as `Debug` shows it.
pub fn push_value<T: Debug + Drop>(text: &mut RowText, value: T) {
    write!(text, "{value:?} ")
}
