//! The command of the command line.

use crate::options::{BEFORE, commands};
use crate::progress::ShownUntil;
use clap::error::ErrorKind;
use clap::{ArgMatches, Error};
use pipe_view::{OutputForm, Window};
use std::alloc::Global;

/// A command.
#[derive(Clone, Copy)]
pub struct Ask<'a> {
    /// The file name of the setup.
    pub setup: &'a str,
    /// The cycles that are shown.
    pub window: Window,
    /// The content of a line.
    pub form: OutputForm,
    /// Until when progress is shown.
    pub until: ShownUntil,
}

/// Why the arguments are no command.
#[derive(Drop)]
pub enum ArgumentsNo {
    /// The parser reports an error, or shows its help.
    Parser(Error),
    /// The arguments name no command, or lack one that it requires.
    Usage,
    /// The window has no cycle.
    EmptyWindow,
    /// Memory ran out.
    NoMemory,
}

impl From<Error> for ArgumentsNo {
    fn from(error: Error) -> ArgumentsNo {
        match error.kind() {
            ErrorKind::OutOfMemory => ArgumentsNo::NoMemory,
            _ => ArgumentsNo::Parser(error),
        }
    }
}

/// The requested form.
fn form_of(matches: &ArgMatches<'_>) -> OutputForm {
    if matches.get_flag("state") {
        OutputForm::TurnsAndStates
    } else {
        OutputForm::Turns
    }
}

/// Until when progress is shown.
fn shown_until(matches: &ArgMatches<'_>) -> ShownUntil {
    match matches.get_str("progress") {
        None => ShownUntil::Never,
        Some(until) if until == BEFORE => ShownUntil::Before,
        Some(_) => ShownUntil::All,
    }
}

/// The cycle that an option of `turns` gives.
fn cycle_of(matches: &ArgMatches<'_>, option: &str) -> Result<u64, ArgumentsNo> {
    matches.get_one::<u64>(option).ok_or(ArgumentsNo::Usage)
}

/// The window of the arguments of `turns`. The parser refuses cycles past the last one of a window.
fn window_of(matches: &ArgMatches<'_>) -> Result<Window, ArgumentsNo> {
    let (from, to) = (cycle_of(matches, "from")?, cycle_of(matches, "to")?);
    Window::new(from, to).ok_or(ArgumentsNo::EmptyWindow)
}

/// The command of the arguments of `turns`.
fn asked<'a>(matches: &ArgMatches<'a>) -> Result<Ask<'a>, ArgumentsNo> {
    Ok(Ask {
        setup: matches.get_str("setup").ok_or(ArgumentsNo::Usage)?,
        window: window_of(matches)?,
        form: form_of(matches),
        until: shown_until(matches),
    })
}

/// The parser's matches for the arguments.
fn parsed<'a>(alloc: Global, words: &'a [String]) -> Result<ArgMatches<'a>, Error> {
    commands(alloc)?.try_get_matches_from(words)
}

/// The command of the command line, which begins with the program's name.
///
/// # Errors
///
/// `Parser` with the parser's text if the arguments don't fit the options, or request help; `Usage`
/// if they name no command or lack an argument that it requires; `EmptyWindow` if `from` isn't
/// below `to`; `NoMemory` if memory ran out.
pub fn read_words<'a>(alloc: Global, words: &'a [String]) -> Result<Ask<'a>, ArgumentsNo> {
    let matches = parsed(alloc, words)?;
    match matches.subcommand_matches("turns") {
        Some(turns) => asked(turns),
        None => Err(ArgumentsNo::Usage),
    }
}
