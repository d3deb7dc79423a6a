//! Why nothing, or not all, was shown.

use commands::{CommandStop, Status};
use std::alloc::{AllocError, AllocFailed};
use std::io;
use trace_print::Refusal;

/// Why nothing, or not all, was shown.
#[derive(Clone, Copy)]
pub enum ViewFault {
    /// Usage error.
    Usage,
    /// Usage error, already reported.
    Reported,
    /// The window has no cycle.
    EmptyWindow,
    /// The setup or its image has a fault.
    Refused(Refusal),
    /// A file isn't there, or could not be read.
    Read,
    /// The requested view could not be written whole.
    Write,
    /// Memory ran out.
    NoMemory,
}

impl ViewFault {
    /// The status of the program, the same as `flexpret`'s for the same fault.
    pub fn status(&self) -> Status {
        match self {
            ViewFault::Usage | ViewFault::Reported | ViewFault::EmptyWindow => Status::Usage,
            ViewFault::Refused(refusal) => Status::of_refusal(refusal),
            ViewFault::Read => Status::Read,
            ViewFault::Write => Status::Write,
            ViewFault::NoMemory => Status::NoMemory,
        }
    }

    /// The line for standard error, if there is one.
    pub fn complaint(&self) -> Option<&'static str> {
        match self {
            ViewFault::Usage => Some("flexpret_view: usage"),
            ViewFault::Reported | ViewFault::Refused(_) => None,
            ViewFault::EmptyWindow => Some("flexpret_view: --from isn't below --to"),
            ViewFault::Read => Some("flexpret_view: read failed"),
            ViewFault::Write => Some("flexpret_view: write failed"),
            ViewFault::NoMemory => Some("flexpret_view: out of memory"),
        }
    }
}

impl From<CommandStop> for ViewFault {
    fn from(stop: CommandStop) -> ViewFault {
        match stop {
            CommandStop::Refused(refusal) => ViewFault::Refused(refusal),
            CommandStop::Read | CommandStop::Differs { .. } => ViewFault::Read,
            CommandStop::NoMemory => ViewFault::NoMemory,
        }
    }
}

impl From<AllocError> for ViewFault {
    fn from(_error: AllocError) -> ViewFault {
        ViewFault::NoMemory
    }
}

impl<T: Drop> From<AllocFailed<T>> for ViewFault {
    fn from(_refused: AllocFailed<T>) -> ViewFault {
        ViewFault::NoMemory
    }
}

impl From<io::Error> for ViewFault {
    fn from(error: io::Error) -> ViewFault {
        match error.kind() {
            io::ErrorKind::OutOfMemory => ViewFault::NoMemory,
            _ => ViewFault::Write,
        }
    }
}
