//! Sections of code.

/// The words of code from `from` to below `to`.
#[derive(Clone, Copy, Debug)]
pub struct Section {
    /// The address of the first word.
    pub from: u32,
    /// The address after the last word.
    pub to: u32,
}
