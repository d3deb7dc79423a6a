//! The commands, arguments and options of the command line.

use clap::builder::ValueParser;
use clap::{Arg, ArgAction, Command};
use pipe_view::Window;
use std::alloc::{AllocError, Global};

/// The value of `--progress` until the window begins.
pub const BEFORE: &str = "before";

/// The value of `--progress` to the end of the run.
const ALL: &str = "all";

/// The values of `--progress`.
const UNTILS: [&str; 2] = [BEFORE, ALL];

/// The text of `--help` after the options.
const AFTER: &str = "The cycles from `from` on are shown, up to the one before `to`. \
With --state, a line ends with a tab and the state at the cycle's start, unless the line before \
has the same: the modes, and for each thread whether it is asleep, its armed moment in \
nanoseconds, and the latch and the input of its port. The first line ends with the time of a \
cycle. `--progress before` reports the progress until the first line is written, \
`--progress all` to the end of the run.\n\n\
The program is proved to be safe and to end. Nothing is proved of what it shows; it reads the \
machine that `flexpret` runs.";

/// The kind of an argument's value.
#[derive(Clone, Copy)]
enum Takes {
    /// The name of the setup, which is required, without the argument's name before it.
    Setup,
    /// A cycle, which is required.
    Cycle,
    /// Until when progress is shown.
    Until,
}

impl Takes {
    /// The value's name in the help.
    fn value_name(self) -> &'static str {
        match self {
            Takes::Setup => "SETUP",
            Takes::Cycle => "CYCLE",
            Takes::Until => "UNTIL",
        }
    }

    /// Whether an argument of this kind is required.
    fn is_required(self) -> bool {
        matches!(self, Takes::Setup | Takes::Cycle)
    }

    /// The parser of the value.
    fn parser(self) -> ValueParser<'static> {
        match self {
            Takes::Cycle => ValueParser::Unsigned(0, Window::MOST),
            Takes::Setup => ValueParser::String,
            Takes::Until => ValueParser::Names(&UNTILS),
        }
    }
}

/// An argument.
#[derive(Clone, Copy)]
struct ArgumentRow {
    /// Its name, without the hyphens of an option.
    name: &'static str,
    /// The kind of its value.
    takes: Takes,
    /// Its help text.
    help: &'static str,
}

/// The arguments of `turns` with a value, in the order of the help.
const TURNS_ARGUMENTS: [ArgumentRow; 4] = [
    ArgumentRow {
        name: "setup",
        takes: Takes::Setup,
        help: "the setup of the machine, a TOML file",
    },
    ArgumentRow {
        name: "from",
        takes: Takes::Cycle,
        help: "the first cycle",
    },
    ArgumentRow {
        name: "to",
        takes: Takes::Cycle,
        help: "the cycle after the last one",
    },
    ArgumentRow {
        name: "progress",
        takes: Takes::Until,
        help: "reports on standard error how far a long run is",
    },
];

/// The argument of a row.
fn argument<'a>(alloc: Global, row: &ArgumentRow) -> Arg<'a> {
    let argument = Arg::new(alloc, row.name)
        .required(row.takes.is_required())
        .value_name(row.takes.value_name())
        .value_parser(row.takes.parser())
        .help(row.help);
    match row.takes {
        Takes::Setup => argument,
        Takes::Cycle | Takes::Until => argument.long(row.name),
    }
}

/// The option `--state`, which has no value.
fn state_option<'a>(alloc: Global) -> Arg<'a> {
    Arg::new(alloc, "state")
        .long("state")
        .action(ArgAction::SetTrue)
        .help("writes also the state at the start of the cycles")
}

/// The command `turns` without its arguments.
fn bare_turns<'a>(alloc: Global) -> Command<'a> {
    Command::new(alloc, "turns")
        .about("shows what the pipeline does in each cycle of a window")
        .after_help(AFTER)
}

/// The command `turns`.
fn turns_command<'a>(alloc: Global) -> Result<Command<'a>, AllocError> {
    let mut turns = bare_turns(alloc);
    for row in &TURNS_ARGUMENTS {
        turns = turns.arg(argument(alloc, row))?;
    }
    turns.arg(state_option(alloc))
}

/// The program without its commands.
fn bare_program<'a>(alloc: Global) -> Command<'a> {
    Command::new(alloc, "flexpret_view")
        .about("Shows runs of the FlexPRET core, cycle by cycle")
        .after_help("The program is proved to be safe and to end, and nothing more.")
        .subcommand_required(true)
}

/// The program's commands.
///
/// # Errors
///
/// If memory ran out.
pub fn commands<'a>(alloc: Global) -> Result<Command<'a>, AllocError> {
    let turns = turns_command(alloc)?;
    bare_program(alloc).subcommand(turns)
}
