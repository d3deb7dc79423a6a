//! Files, a sink and devices that have only the calls and the meaning that their traits demand:
//! they tell no requests, may take memory before they look a name up, and don't forget. Commands
//! over them have the same results.

ghost use Rattle.fp_ports.specs.Kinds.{held_word};

use crate::answer::{files_of, sink_of, words_of};
use crate::cases::{Case, Command, cases};
use flexpret_top::flexpret;
use fp_io::{FetchFault, Files, PutFailed, Sink};
use fp_ports::{HeldPort, Port, Ports, THREADS};
use std::alloc::{AllocError, Global};
use std::{fs, io};
use test_text::Tally;

/// The devices of the cases that are run again.
const HELD: &str = "h h h h h h h h";

/// The bytes of the buffer that a fetch takes first.
const BUFFER: usize = 64;

/// Files that take memory before they look a name up.
#[derive(Drop)]
struct PlainFiles<F> {
    files: F,
}

impl<F: Files + Drop> Files for PlainFiles<F> {
    ghost contents = { λ plain. F.contents plain.files };

    ghost faults = { λ plain. F.faults plain.files };

    fn fetch(&mut self, alloc: Global, name: &str, most: usize) -> Result<Vec<u8>, FetchFault> {
        if buffer(alloc).is_err() {
            return Err(FetchFault::NoMemory);
        }
        self.files.fetch(alloc, name, most)
    }
}

/// The buffer of a fetch.
fn buffer(alloc: Global) -> Result<Vec<u8>, AllocError> {
    Vec::with_capacity(alloc, BUFFER)
}

/// A sink.
#[derive(Drop)]
struct PlainSink<K> {
    out: K,
}

impl<K: Sink + Drop> Sink for PlainSink<K> {
    ghost taken = { λ plain. K.taken plain.out };

    ghost faults = { λ plain. K.faults plain.out };

    fn put(&mut self, bytes: &[u8]) -> Result<(), PutFailed> {
        self.out.put(bytes)
    }
}

/// A device that holds the words it is fed.
#[derive(Drop)]
struct PlainPort {
    held: HeldPort,
}

impl Port for PlainPort {
    ghost word_at = { λ port c. held_word port.held c };

    ghost latched = { λ port. port.held.latch };

    fn feed(&mut self, at: u64, word: u32) -> Result<(), AllocError> {
        self.held.feed(at, word)
    }

    fn read(&mut self, at: u64) -> u32 {
        self.held.read(at)
    }

    fn write(&mut self, word: u32) {
        self.held.write(word);
    }

    fn latch(&self) -> u32 {
        self.held.latch()
    }
}

/// Whether a command over such files, sink and devices has the status and the text of the table.
fn has_result(alloc: Global, case: &Case<'_>, command: &Command<'_>) -> Result<bool, AllocError> {
    let words = words_of(alloc, command.line)?;
    let mut files = PlainFiles {
        files: files_of(alloc, case, command, command.fails.fetch)?,
    };
    let mut out = PlainSink {
        out: sink_of(alloc, command.fails.put)?,
    };
    let mut ports: Ports = Vec::new(alloc);
    for _thread in 0..THREADS {
        let held = HeldPort::new(alloc);
        ports.push(Some(Box::new(alloc, PlainPort { held })?))?;
    }
    if ports.len() != 8 {
        return Ok(false);
    }
    let status = flexpret(alloc, &words, &mut files, &mut out, &mut ports);
    Ok(status == command.status && out.out.bytes() == command.text.as_slice())
}

/// Compares the commands of a table whose devices hold the words that they are fed.
pub fn compare(rt: HostRuntime, name: &str, title: &str) -> io::Result<()> {
    let table = fs::read_to_string(&rt, name)?;
    let mut tally = Tally::new();
    for case in &cases(rt.alloc(), table.as_str())? {
        if case.ports == HELD {
            count(rt, &mut tally, case)?;
        }
    }
    tally.print(rt, title, "commands")
}

/// Counts the commands of a case.
fn count(rt: HostRuntime, tally: &mut Tally, case: &Case<'_>) -> io::Result<()> {
    for command in &case.commands {
        let has_result = has_result(rt.alloc(), case, command)?;
        if !has_result {
            println!(rt;
                "{}, {}: another result over plain objects",
                case.name, command.line
            )?;
        }
        tally.count(has_result);
    }
    Ok(())
}
