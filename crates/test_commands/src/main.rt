//! Compares the program's results for command lines with independently computed tables. A result
//! has the status, the output, the final state of the devices at the ports, and the calls made. The
//! head of `commands.txt` describes the notation of the tables.
//!
//! The tables are in the folder in which the program runs, with copies of the files of the
//! repository's examples and the expected output of commands over them. Standard output has each
//! command whose result differs, and for each table the number of commands and of differences.
#![tactic(auto)]

mod answer;
mod cases;
mod devices;
mod examples;
mod expanded;
mod failing;
mod noted;
mod plain;
mod ports;
mod stopped;

use crate::answer::{Answer, answer_to, is_wanted, push_answer};
use crate::cases::{Case, Command, Wanted, cases};
use crate::stopped::is_shown;
use std::{fs, io};
use test_text::{RowText, Tally};

/// The tables.
const TABLES: [&str; 8] = [
    "commands.txt",
    "worlds.txt",
    "settings.txt",
    "worked.txt",
    "calls.txt",
    "noted.txt",
    "limits.txt",
    "stopped.txt",
];

/// The tables whose commands are run again with each fetch and each put failing, and the title
/// printed for these runs.
const FAILING: [(&str, &str); 2] = [
    ("worked.txt", "worked.txt, each fetch and put failing"),
    ("noted.txt", "noted.txt, each fetch and put failing"),
];

/// The table whose commands are run again over objects that have only what their traits demand.
const PLAIN: &str = "worked.txt";

/// Whether a command has the expected result. Prints a result that differs.
pub fn agrees(
    rt: HostRuntime,
    case: &Case<'_>,
    command: &Command<'_>,
    wanted: Wanted<'_>,
) -> io::Result<bool> {
    let answer = answer_to(rt.alloc(), case, command, wanted.fails)?;
    let agrees = is_wanted(&answer, command, wanted);
    if !agrees {
        print_answer(rt, case, command, &answer)?;
    }
    Ok(agrees)
}

/// Prints the result of a command.
fn print_answer(
    rt: HostRuntime,
    case: &Case<'_>,
    command: &Command<'_>,
    answer: &Answer,
) -> io::Result<()> {
    let mut text = RowText::new(rt.alloc());
    push_answer(&mut text, answer);
    println!(rt; "{}, {}: {}", case.name, command.line, text.as_str()?)
}

/// Whether the machine of a command ends in the expected state, if the table has one. Prints a
/// command if not.
fn is_left(rt: HostRuntime, case: &Case<'_>, command: &Command<'_>) -> io::Result<bool> {
    let is_left = is_shown(rt.alloc(), case, command);
    if !is_left {
        println!(rt; "{}, {}: another machine is left", case.name, command.line)?;
    }
    Ok(is_left)
}

/// Counts the commands of a case.
pub fn count(rt: HostRuntime, tally: &mut Tally, case: &Case<'_>) -> io::Result<()> {
    for command in &case.commands {
        let agrees = agrees(rt, case, command, command.wanted())?;
        tally.count(agrees && is_left(rt, case, command)?);
    }
    Ok(())
}

/// Compares the commands of a table.
fn compare(rt: HostRuntime, name: &str) -> io::Result<()> {
    let table = fs::read_to_string(&rt, name)?;
    let mut tally = Tally::new();
    for case in &cases(rt.alloc(), table.as_str())? {
        count(rt, &mut tally, case)?;
    }
    tally.print(rt, name, "commands")
}

fn main(rt: HostRuntime) -> io::Result<()> {
    examples::compare(rt)?;
    for name in TABLES {
        compare(rt, name)?;
    }
    for (name, title) in FAILING {
        failing::compare(rt, name, title)?;
    }
    plain::compare(rt, PLAIN, "worked.txt, plain files, sink and ports")
}
