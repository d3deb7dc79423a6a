//! Compares the answers of the libraries below the top call with tables that were worked out
//! independently of them. It is a crate of its own so that none of those crates is proved a second
//! time for its tests.
//!
//! The tables are in the folder where it runs. A line of a table is an answer, a tab, and the call
//! with its arguments; in `setups.txt` a call is several lines after `=== `, and each line of its
//! answer begins with `--- `. Standard output has each call at which the two differ, and for each
//! table how many there are and how many differ.
#![tactic(auto)]

mod bounds;
mod elf;
mod escapes;
mod files;
mod images;
mod instructions;
mod lines;
mod machines;
mod numbers;
mod pipelines;
mod programs;
mod routines;
mod runs;
mod sections;
mod setups;
mod short_io;
mod solo;
mod sources;
mod steps;
mod tokens;
mod units;
mod values;
mod words;

use std::{fs, io};
use test_text::{RowText, Tally};

/// A table of calls, by the code that answers them.
#[derive(Clone, Copy)]
enum Table {
    Instructions,
    Lines,
    Tokens,
    Images,
    Executables,
    Sections,
    Words,
    Units,
    Files,
    Setups,
    Bounds,
    Sources,
    Programs,
    Solo,
    Routines,
}

const TABLES: [(&str, Table); 19] = [
    ("instructions.txt", Table::Instructions),
    ("lines.txt", Table::Lines),
    ("tokens.txt", Table::Tokens),
    ("images.txt", Table::Images),
    ("elf.txt", Table::Executables),
    ("sections.txt", Table::Sections),
    ("words.txt", Table::Words),
    ("units.txt", Table::Units),
    ("files.txt", Table::Files),
    ("setups.txt", Table::Setups),
    ("bounds.txt", Table::Bounds),
    ("sources.txt", Table::Sources),
    ("gnu.txt", Table::Sources),
    ("longest.txt", Table::Sources),
    ("decode.txt", Table::Instructions),
    ("results.txt", Table::Instructions),
    ("programs.txt", Table::Programs),
    ("solo.txt", Table::Solo),
    ("routines.txt", Table::Routines),
];

impl Table {
    /// The separator between two rows.
    fn separator(self) -> &'static str {
        match self {
            Table::Setups => "=== ",
            _ => "\n",
        }
    }

    /// The answer of a row, and its call.
    fn parts(self, row: &str) -> (&str, &str) {
        match self {
            Table::Setups => {
                let (call, wanted) = row.split_once("--- ").unwrap_or(("", row));
                (wanted, call)
            }
            _ => row.split_once('\t').unwrap_or((row, "")),
        }
    }

    /// Appends the answer to a call.
    fn push_answer(self, text: &mut RowText, rt: HostRuntime, call: &str) {
        let alloc = rt.alloc();
        match self {
            Table::Instructions => instructions::push_answer(text, call),
            Table::Lines => lines::push_answer(text, call),
            Table::Tokens => tokens::push_answer(text, alloc, call),
            Table::Images => images::push_answer(text, alloc, call),
            Table::Executables => elf::push_answer(text, alloc, call),
            Table::Sections => sections::push_answer(text, alloc),
            Table::Words => words::push_answer(text, alloc, call),
            Table::Units => units::push_answer(text, alloc, call),
            Table::Files => files::push_answer(text, rt, call),
            Table::Setups => setups::push_answer(text, rt, call),
            Table::Bounds => bounds::push_answer(text, alloc, call),
            Table::Sources => sources::push_answer(text, alloc, call),
            Table::Programs => programs::push_answer(text, alloc, call),
            Table::Solo => solo::push_answer(text, rt, call),
            Table::Routines => routines::push_answer(text, alloc, call),
        }
    }
}

/// Whether a call has the answer that its row gives. One that differs is printed.
fn agrees(rt: HostRuntime, table: Table, row: &str) -> io::Result<bool> {
    let (wanted, call) = table.parts(row);
    let mut text = RowText::new(rt.alloc());
    table.push_answer(&mut text, rt, call);
    let answer = text.as_str()?;
    if answer != wanted {
        println!(rt; "{call}: answers {answer} for {wanted}")?;
    }
    Ok(answer == wanted)
}

/// The tally of a table's rows.
fn tally_of(rt: HostRuntime, table: Table, text: &str) -> io::Result<Tally> {
    let mut tally = Tally::new();
    for row in text.split(table.separator()) {
        if !row.is_empty() {
            tally.count(agrees(rt, table, row)?);
        }
    }
    Ok(tally)
}

/// Compares the calls of a table.
fn compare(rt: HostRuntime, name: &str, table: Table) -> io::Result<()> {
    let text = fs::read_to_string(&rt, name)?;
    tally_of(rt, table, text.as_str())?.print(rt, name, "calls")
}

fn main(rt: HostRuntime) -> io::Result<()> {
    for (name, table) in &TABLES {
        compare(rt, name, *table)?;
    }
    Ok(())
}
