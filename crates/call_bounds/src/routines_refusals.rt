//! Why a file of routines is refused.

ghost use Rattle.std.specs.Prelude.{◌≡◌};

use thiserror::Error;

/// What is wrong with a line of a file of routines, by its number in a refusal line.
#[derive(Clone, Copy, Debug, PartialEq, Eq, Error)]
pub enum RoutinesNo {
    /// It is a 65th line.
    #[error("there are more than 64 routines")]
    TooMany = 1,
    /// It isn't two addresses of eight digits with a space between them.
    #[error("the line isn't of the form of a routine")]
    BadLine = 2,
    /// An address isn't a multiple of 4, the head is above the last word, or that isn't in the
    /// scratchpad.
    #[error("the routine's addresses break a rule")]
    BadPlace = 3,
    /// The head isn't above the last word of the routine before.
    #[error("the routine doesn't begin above the one before it")]
    Order = 4,
}

/// Why no routines were read.
#[derive(Clone, Copy, Debug, PartialEq, Eq, Error)]
pub enum RoutinesRefused {
    /// The first fault of the file, and the number of its line, from 1.
    #[error("{code} (line {line})")]
    Fault { line: u32, code: RoutinesNo },
    /// Memory ran out.
    #[error("out of memory")]
    NoMemory,
}

/// The refusal for a fault in a line.
pub(crate) fn fault(line: u32, code: RoutinesNo) -> RoutinesRefused
    ensures { result ≡ RoutinesRefused.Fault line code }
{
    RoutinesRefused::Fault { line, code }
}
