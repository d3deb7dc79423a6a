//! Why a run ends before its text.

ghost use Rattle.std.specs.Prelude.{◌≡◌};

use command_line::WordsNo;
use commands::{CommandStop, Status};
use loop_command_line::ListNo;
use std::alloc::{AllocError, AllocFailed};

/// Why a run ends before its text.
#[derive(Clone, Copy)]
pub enum LoopFault {
    /// Usage error: the arguments give no run.
    Usage,
    /// The list of plants has a fault.
    Listed(ListNo),
    /// The setup or its image has a fault, a file is missing or could not be read, or memory ran
    /// out.
    Stopped(CommandStop),
    /// The text could not be written whole.
    Write,
}

impl LoopFault {
    ghost use Rattle.std.specs.Prelude.{◌≡◌};
    ghost use Rattle.commands.specs.Status.{number_of};
    ghost use Rattle.loop_commands.specs.Faults.{status_of_fault};

    /// The status: that of `flexpret` for the same fault, and that of usage for a list of plants.
    pub fn status(&self) -> Status
        ensures { number_of result ≡ status_of_fault self.now }
    {
        match self {
            LoopFault::Usage | LoopFault::Listed(_) => Status::Usage,
            LoopFault::Stopped(CommandStop::Refused(refusal)) => Status::of_refusal(refusal),
            LoopFault::Stopped(CommandStop::Differs { .. }) => Status::Differs,
            LoopFault::Stopped(CommandStop::Read) => Status::Read,
            LoopFault::Stopped(CommandStop::NoMemory) => Status::NoMemory,
            LoopFault::Write => Status::Write,
        }
    }
}

impl From<WordsNo> for LoopFault {
    ghost use Rattle.std.specs.Prelude.{◌≡◌};
    ghost use Rattle.loop_commands.specs.Faults.{of_words};

    ghost from_gives = { λ no fault. fault ≡ of_words no };

    fn from(no: WordsNo) -> LoopFault {
        match no {
            WordsNo::Usage => LoopFault::Usage,
            WordsNo::NoMemory => LoopFault::Stopped(CommandStop::NoMemory),
        }
    }
}

impl From<ListNo> for LoopFault {
    ghost use Rattle.std.specs.Prelude.{◌≡◌};
    ghost use Rattle.loop_commands.specs.Faults.{of_list};

    ghost from_gives = { λ no fault. fault ≡ of_list no };

    fn from(no: ListNo) -> LoopFault {
        match no {
            ListNo::NoMemory => LoopFault::Stopped(CommandStop::NoMemory),
            ListNo::Line { number } => LoopFault::Listed(ListNo::Line { number }),
            ListNo::TooLong => LoopFault::Listed(ListNo::TooLong),
        }
    }
}

impl From<CommandStop> for LoopFault {
    ghost use Rattle.std.specs.Prelude.{◌≡◌};
    ghost use Rattle.loop_commands.specs.declared.fault.LoopFault.TheVariants.{Stopped};

    ghost from_gives = { λ stop fault. fault ≡ Stopped stop };

    fn from(stop: CommandStop) -> LoopFault {
        LoopFault::Stopped(stop)
    }
}

impl From<AllocError> for LoopFault {
    ghost use Rattle.std.specs.Prelude.{◌≡◌};
    ghost use Rattle.loop_commands.specs.Faults.{no_memory};

    ghost from_gives = { λ _ fault. fault ≡ no_memory };

    fn from(_error: AllocError) -> LoopFault {
        LoopFault::Stopped(CommandStop::NoMemory)
    }
}

impl<T: Drop> From<AllocFailed<T>> for LoopFault {
    ghost use Rattle.std.specs.Prelude.{◌≡◌};
    ghost use Rattle.loop_commands.specs.Faults.{no_memory};

    ghost from_gives = { λ _ fault. fault ≡ no_memory };

    fn from(_failed: AllocFailed<T>) -> LoopFault {
        LoopFault::Stopped(CommandStop::NoMemory)
    }
}
