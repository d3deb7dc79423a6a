//! The reason why a source was refused.

ghost use Rattle.std.specs.Prelude.{◌≡◌};
ghost use Rattle.fp_asm.specs.Faults.{refused_in as refused_in_line};

use std::alloc::{AllocError, AllocFailed};
use thiserror::Error;

/// The faults of a source. The numbers are shown to the user.
#[derive(Clone, Copy, Debug, PartialEq, Eq, Error)]
pub enum AsmNo {
    /// More than 1,048,576 bytes.
    #[error("the source is too long")]
    TooLong = 1,
    /// The line isn't a sequence of tokens: a bad byte, a bad number, or more than 64 tokens.
    #[error("a bad byte, a bad number or too many tokens")]
    Lex = 2,
    /// The name before the operands is no mnemonic.
    #[error("an unknown name")]
    UnknownName = 3,
    /// The operands' number or form is wrong, an operand is no name of a register or of a CSR, or
    /// the text after the labels doesn't begin with a name.
    #[error("wrong operands")]
    Operands = 4,
    /// A number, or the offset of a branch or jump, is outside its range.
    #[error("a number out of range")]
    OutOfRange = 5,
    /// A label that was there before.
    #[error("a label that is there already")]
    DoubleLabel = 6,
    /// A label that is nowhere.
    #[error("an unknown label")]
    NoLabel = 7,
    /// A location, a size or the address of a branch or jump that is no multiple of four.
    #[error("no multiple of four")]
    Misaligned = 8,
    /// A word outside the scratchpads.
    #[error("a word outside the scratchpads")]
    OutsideMemory = 9,
    /// A word at the address of another one.
    #[error("a word where there is one already")]
    Overlap = 10,
    /// More than 16 runs of placed words.
    #[error("more than 16 segments")]
    TooManySegments = 11,
}

/// Why a source has no image.
#[derive(Clone, Copy, Debug, PartialEq, Eq, Error)]
pub enum AsmRefused {
    /// The first fault. Lines count from 1; a fault of the whole source has line 0.
    #[error("line {line}: {code}")]
    Fault { line: u32, code: AsmNo },
    /// Out of memory.
    #[error("out of memory")]
    NoMemory,
}

/// The cause that stops the work on a line.
#[derive(Clone, Copy)]
pub(crate) enum LineStop {
    /// The line's first fault.
    Fault { code: AsmNo },
    /// Out of memory.
    NoMemory,
}

impl LineStop {
    /// The refusal of a source by what stops the work on a line; lines count from 1.
    pub(crate) fn refused_in(self, line: u32) -> AsmRefused
        ensures { result ≡ refused_in_line line self }
    {
        match self {
            LineStop::Fault { code } => AsmRefused::Fault { line, code },
            LineStop::NoMemory => AsmRefused::NoMemory,
        }
    }
}

impl From<AsmNo> for LineStop {
    ghost use Rattle.fp_asm.specs.declared.refusal.LineStop.{LineStop};

    ghost from_gives = { λ code stop. stop ≡ LineStop.Fault code };

    fn from(code: AsmNo) -> LineStop {
        LineStop::Fault { code }
    }
}

impl<T: Drop> From<AllocFailed<T>> for LineStop {
    ghost use Rattle.fp_asm.specs.declared.refusal.LineStop.{LineStop};

    ghost from_gives = { λ _ stop. stop ≡ LineStop.NoMemory };

    fn from(_failed: AllocFailed<T>) -> LineStop {
        LineStop::NoMemory
    }
}

impl From<AllocError> for LineStop {
    ghost use Rattle.fp_asm.specs.declared.refusal.LineStop.{LineStop};

    ghost from_gives = { λ _ stop. stop ≡ LineStop.NoMemory };

    fn from(_failed: AllocError) -> LineStop {
        LineStop::NoMemory
    }
}

impl From<AllocError> for AsmRefused {
    ghost use Rattle.fp_asm.specs.declared.refusal.AsmRefused.{AsmRefused};

    ghost from_gives = { λ _ refused. refused ≡ AsmRefused.NoMemory };

    fn from(_failed: AllocError) -> AsmRefused {
        AsmRefused::NoMemory
    }
}
