//! Why a run ended before its trace.

use commands::CommandStop;
use fp_io::PutFailed;
use loop_command_line::ListNo;
use loop_commands::LoopFault;
use loop_runs::LoopStop;
use std::alloc::{AllocError, AllocFailed};
use trace_print::Refusal;

/// The exit status if the plant at the pipe ended the run.
const PLANT_STATUS: u8 = 10;

/// Why a run ended before its trace.
#[derive(Clone, Copy)]
pub enum RunFault {
    /// A fault of the arguments, the files, the trace or memory.
    Run(LoopFault),
    /// The plant at the pipe reads no line, or writes none.
    PlantEnded,
    /// The plant at the pipe responded with no word.
    NoWord,
}

impl RunFault {
    /// The exit status: that of `flexpret` for the same fault, of usage for a list of plants, and
    /// [`PLANT_STATUS`] for a plant at the pipe.
    pub fn status(&self) -> u8 {
        match self {
            RunFault::Run(fault) => fault.status().number(),
            RunFault::PlantEnded | RunFault::NoWord => PLANT_STATUS,
        }
    }

    /// The number of the line of the list that has a fault.
    pub fn line(&self) -> Option<u64> {
        match self {
            RunFault::Run(LoopFault::Listed(ListNo::Line { number })) => Some(*number),
            _ => None,
        }
    }

    /// The line for standard error, without the place of a line.
    pub fn message(&self) -> &'static str {
        match self {
            RunFault::Run(fault) => message_of(fault),
            RunFault::PlantEnded => "loop_cli: the plant at the pipe ended before the run",
            RunFault::NoWord => "loop_cli: the plant at the pipe answered no word of 32 bits",
        }
    }
}

/// The line for standard error, for a fault of the arguments, the files, the trace or memory.
fn message_of(fault: &LoopFault) -> &'static str {
    match fault {
        LoopFault::Usage => {
            "loop_cli: usage: loop_cli SETUP --plants FILE --thread i --every n --cycles n"
        }
        LoopFault::Listed(_) => "loop_cli: the list of plants has more than 64 megabytes",
        LoopFault::Stopped(CommandStop::Refused(Refusal::Image { .. })) => {
            "loop_cli: the image has a fault; `flexpret run` names it"
        }
        LoopFault::Stopped(CommandStop::Refused(_)) => {
            "loop_cli: the setup has a fault; `flexpret run` names it"
        }
        LoopFault::Stopped(CommandStop::Read | CommandStop::Differs { .. }) => {
            "loop_cli: a file could not be read"
        }
        LoopFault::Stopped(CommandStop::NoMemory) => "loop_cli: out of memory",
        LoopFault::Write => "loop_cli: the trace could not be written",
    }
}

impl From<LoopFault> for RunFault {
    fn from(fault: LoopFault) -> RunFault {
        RunFault::Run(fault)
    }
}

impl From<LoopStop> for RunFault {
    ghost use Rattle.std.specs.Prelude.{◌≡◌};
    ghost use Rattle.loop_cli.specs.Endings.{of_run};

    ghost from_gives = { λ stop fault. fault ≡ of_run stop };

    fn from(stop: LoopStop) -> RunFault {
        match stop {
            LoopStop::NoMemory => RunFault::Run(LoopFault::Stopped(CommandStop::NoMemory)),
            LoopStop::PutFailed => RunFault::Run(LoopFault::Write),
        }
    }
}

impl From<PutFailed> for RunFault {
    fn from(_error: PutFailed) -> RunFault {
        RunFault::Run(LoopFault::Write)
    }
}

impl From<AllocError> for RunFault {
    ghost use Rattle.std.specs.Prelude.{◌≡◌};
    ghost use Rattle.loop_commands.specs.Faults.{no_memory};
    ghost use Rattle.loop_cli.specs.declared.fault.RunFault.TheVariants.{Run};

    ghost from_gives = { λ _ fault. fault ≡ Run no_memory };

    fn from(_error: AllocError) -> RunFault {
        RunFault::Run(LoopFault::Stopped(CommandStop::NoMemory))
    }
}

impl<T: Drop> From<AllocFailed<T>> for RunFault {
    ghost use Rattle.std.specs.Prelude.{◌≡◌};
    ghost use Rattle.loop_commands.specs.Faults.{no_memory};
    ghost use Rattle.loop_cli.specs.declared.fault.RunFault.TheVariants.{Run};

    ghost from_gives = { λ _ fault. fault ≡ Run no_memory };

    fn from(_failed: AllocFailed<T>) -> RunFault {
        RunFault::Run(LoopFault::Stopped(CommandStop::NoMemory))
    }
}
