//! Why a command ends before its text.

use std::alloc::AllocError;
use trace_print::Refusal;

/// Why a command ends before its text.
#[derive(Clone, Copy)]
pub enum CommandStop {
    /// Something has a fault; this is its refusal.
    Refused(Refusal),
    /// A recorded trace isn't the defined one, and first differs in this line.
    Differs { line: u64 },
    /// A file isn't there, or could not be read.
    Read,
    /// Memory ran out.
    NoMemory,
}

impl From<AllocError> for CommandStop {
    ghost use Rattle.std.specs.Prelude.{◌≡◌};
    ghost use Rattle.commands.specs.declared.stop.CommandStop.TheVariants.{NoMemory};

    ghost from_gives = { λ _ stop. stop ≡ NoMemory };

    fn from(_error: AllocError) -> CommandStop {
        CommandStop::NoMemory
    }
}
