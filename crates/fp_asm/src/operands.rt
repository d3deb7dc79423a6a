//! The operands of a line.

/// An address or a word: a number, or a label plus a number.
#[derive(Clone, Copy)]
pub(crate) enum Target<'a> {
    /// A number.
    Plain { number: i64 },
    /// A label's address plus a number.
    Label { name: &'a [u8], plus: i64 },
}

/// The operands of a line. A missing one is register 0 or the number 0.
#[derive(Clone, Copy)]
pub(crate) struct Operands<'a> {
    /// The register that is written, 0 to 31.
    pub(crate) rd: u8,
    /// The first register that is read, 0 to 31.
    pub(crate) rs1: u8,
    /// The second register that is read, 0 to 31.
    pub(crate) rs2: u8,
    /// The number of a control and status register, as given.
    pub(crate) csr_number: u32,
    /// A number, as given.
    pub(crate) given: i64,
    /// An address or a word.
    pub(crate) target: Target<'a>,
}
