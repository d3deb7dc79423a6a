//! The commands that the arguments may give.

ghost use Rattle.std.specs.Prelude.{◌≡◌};

use fp_setup::Name;
use region_tree::Section;
use std::alloc::AllocError;
use thiserror::Error;

/// The reason why arguments give no command.
#[derive(Clone, Copy, Debug, PartialEq, Eq, Drop, Error)]
pub enum WordsNo {
    /// Usage error: no command has this name, or it doesn't take these arguments.
    #[error("the words ask nothing")]
    Usage = 1,
    /// Out of memory.
    #[error("out of memory")]
    NoMemory = 2,
}

/// A command with its values. [`read_words`](crate::read_words) returns commands with `thread` 0 to
/// 7 and `cycles` at most 4,000,000,000 (at most 1,000,000 for `check`). `section` has the two
/// addresses as they were given; it depends on the setup whether the section is allowed.
#[derive(Drop)]
pub enum Ask {
    /// `run SETUP --thread i --cycles n`: the trace of a thread.
    Run {
        setup: Name,
        thread: u8,
        cycles: u64,
    },
    /// `dump SETUP --cycles n`: the visible state of the machine after n cycles.
    Dump {
        setup: Name,
        cycles: u64,
    },
    /// `asm SOURCE`: the image of a source.
    Asm {
        source: Name,
    },
    /// `bound SETUP --thread i --from a --to b`: the bound of a section.
    Bound {
        setup: Name,
        thread: u8,
        section: Section,
    },
    /// `selfrun NUMBER`: the machine's own run, of programs that the number draws.
    Selfrun {
        number: u32,
    },
    /// `phases SETUP --cycles n`: the settings of the scheduling in a run.
    Phases {
        setup: Name,
        cycles: u64,
    },
    /// `solo SETUP --thread i --cycles n`: the trace of a thread, computed only from its view.
    Solo {
        setup: Name,
        thread: u8,
        cycles: u64,
    },
    /// `check SETUP --thread i --cycles n --trace FILE`: whether a file is that trace.
    Check {
        setup: Name,
        thread: u8,
        cycles: u64,
        trace: Name,
    },
    /// `elf FILE`: the image of a static executable.
    Elf {
        file: Name,
    },
    /// `calls SETUP --thread i --from a --to b --routines FILE`: the bound of a section through the
    /// routines of a file.
    Calls {
        setup: Name,
        thread: u8,
        section: Section,
        routines: Name,
    },
}

impl From<AllocError> for WordsNo {
    ghost use Rattle.command_line.specs.declared.asked.WordsNo.TheVariants.{NoMemory};

    ghost from_gives = { λ e no. no ≡ NoMemory };

    fn from(_error: AllocError) -> WordsNo {
        WordsNo::NoMemory
    }
}
