//! The program's result for a command.

use crate::cases::{Case, Command, Cut, Fails, Wanted};
use crate::devices::{CountPort, DropPort, StepPort};
use crate::noted::{NotedFiles, NotedPort, NotedSink, Notes, Put};
use crate::ports::{half_of, push_left, room_of};
use flexpret_top::flexpret;
use fp_io::{MemFiles, MemSink};
use fp_ports::{HeldPort, Port, Ports, RampPort, WavePort};
use std::alloc::{AllocError, Global};
use std::rc::Rc;
use test_text::RowText;

/// More than the bytes of any text of the tables.
pub const ROOM: usize = 65_536;

/// The number of cycles for which the ramp shows each word, as in the example program with a ramp.
const EVERY: u64 = 16;

/// No status of the program.
const NO_PORTS: u8 = 255;

/// A command's status, its output, the final state of the ports, and the calls that it made.
#[derive(Drop)]
pub struct Answer {
    status: u8,
    pub text: Vec<u8>,
    ports: String,
    pub calls: String,
    /// The length of the calls' text after each fetch, in bytes.
    pub fetches: Vec<usize>,
    pub puts: Vec<Put>,
}

/// The arguments in a line.
pub fn words_of(alloc: Global, line: &str) -> Result<Vec<String>, AllocError> {
    let mut words = Vec::new(alloc);
    for word in line.split_whitespace() {
        words.push(String::from_str(alloc, word)?)?;
    }
    Ok(words)
}

/// The files that a case has before a command. A call of `fetch` may fail.
pub fn files_of(
    alloc: Global,
    case: &Case<'_>,
    command: &Command<'_>,
    fetch: Option<u32>,
) -> Result<MemFiles, AllocError> {
    let mut files = MemFiles::new(alloc);
    for file in case.files.iter().take(command.files) {
        files.add(file.name, &file.bytes)?;
    }
    if let Some(call) = fetch {
        files.fail_at(u64::from(call))?;
    }
    Ok(files)
}

/// A sink; a call of `put` fails if `cut` is given.
pub fn sink_of(alloc: Global, cut: Option<Cut>) -> Result<MemSink, AllocError> {
    let mut out = MemSink::new(alloc, ROOM)?;
    if let Some(Cut { call, taken }) = cut {
        out.fail_at(u64::from(call), taken)?;
    }
    Ok(out)
}

/// The inputs of a command's run, and its sink.
#[derive(Drop)]
struct Bench<'a> {
    words: Vec<String>,
    files: NotedFiles<'a, MemFiles>,
    out: NotedSink<'a, MemSink>,
}

impl<'a> Bench<'a> {
    fn of(
        alloc: Global,
        case: &Case<'_>,
        command: &Command<'_>,
        fails: Fails,
        notes: &'a Notes,
    ) -> Result<Bench<'a>, AllocError> {
        let files = files_of(alloc, case, command, fails.fetch)?;
        let out = sink_of(alloc, fails.put)?;
        Ok(Bench {
            words: words_of(alloc, command.line)?,
            files: NotedFiles::of(alloc, files, notes),
            out: NotedSink::of(alloc, out, notes),
        })
    }
}

/// Runs a command with these devices, and drops them. Appends the final state of the ports.
fn run_over(
    alloc: Global,
    bench: &mut Bench<'_>,
    mut ports: Ports,
    notes: &Notes,
    left: &mut RowText,
) -> u8 {
    let mut status = NO_PORTS;
    if ports.len() == 8 {
        status = flexpret(
            alloc,
            &bench.words,
            &mut bench.files,
            &mut bench.out,
            &mut ports,
        );
    }
    notes.end();
    push_left(left, ports, notes);
    status
}

/// A device for a port, or none if memory ran out; the text notes that.
macro_rules! plugged {
    ($left:expr, $made:expr) => {
        match $made {
            Ok(port) => Some(port),
            Err(_) => {
                $left.refuse();
                None
            }
        }
    };
}

/// Runs a command with devices of some kinds, and appends the final state of the ports. The kinds
/// are separated by spaces: `h` is a device that holds the words it is fed, `wN` a square wave,
/// `step` one that shows the cycle, `ramp` a rising one, `drop` one that counts its drops, `count`
/// one that counts its calls, `+` one that holds the words it is fed and notes its calls, `+N` the
/// same with room for N feedings, `-` none.
fn run_beside(
    alloc: Global,
    kinds: &str,
    bench: &mut Bench<'_>,
    notes: &Rc<Notes>,
    left: &mut RowText,
) -> u8 {
    let mut ports: Ports = Vec::new(alloc);
    for kind in kinds.split(' ') {
        let at = ports.len();
        let port: Option<Box<dyn Port>> = match (kind, room_of(kind), half_of(kind)) {
            ("h", _, _) => plugged!(left, Box::new(alloc, HeldPort::new(alloc))),
            ("step", _, _) => plugged!(left, Box::new(alloc, StepPort::new())),
            ("ramp", _, _) => plugged!(left, Box::new(alloc, RampPort::new(alloc, EVERY))),
            ("count", _, _) => plugged!(left, CountPort::boxed(alloc, notes)),
            ("drop", _, _) => plugged!(left, DropPort::boxed(alloc, notes)),
            (_, Some(room), _) => plugged!(left, NotedPort::boxed(alloc, at, room, notes)),
            (_, _, half) if half > 0 => plugged!(left, Box::new(alloc, WavePort::new(alloc, half))),
            _ => None,
        };
        if ports.push(port).is_err() {
            left.refuse();
        }
    }
    run_over(alloc, bench, ports, notes, left)
}

/// The result of a command of a case, while some calls fail.
pub fn answer_to(
    alloc: Global,
    case: &Case<'_>,
    command: &Command<'_>,
    fails: Fails,
) -> Result<Answer, AllocError> {
    let notes = Rc::new(alloc, Notes::new(alloc))?;
    let mut left = RowText::new(alloc);
    let mut bench = Bench::of(alloc, case, command, fails, &notes)?;
    let status = run_beside(alloc, case.ports, &mut bench, &notes, &mut left);
    if case.ports.contains("count") {
        write!(left, " called {}", notes.calls.get());
    }
    let Bench {
        words: _,
        files,
        out,
    } = bench;
    Ok(Answer {
        status,
        text: Vec::from_slice(alloc, out.out.bytes())?,
        ports: String::from_str(alloc, left.as_str()?)?,
        calls: notes.text(alloc)?,
        fetches: files.ends,
        puts: out.puts,
    })
}

/// Whether each put is one line, or the only put is a whole image, and no put follows a failing
/// one.
fn are_lines(puts: &[Put], command: &Command<'_>, wanted: Wanted<'_>) -> bool {
    let is_image = command.has_image() && puts.len() == 1;
    let ends = match wanted.fails.put {
        Some(cut) if wanted.status == 8 => puts.len() == cut.call as usize + 1,
        _ => true,
    };
    ends && puts
        .iter()
        .all(|put| put.is_line || is_image && put.bytes > 0)
}

/// Whether a result is the expected one.
pub fn is_wanted(answer: &Answer, command: &Command<'_>, wanted: Wanted<'_>) -> bool {
    let calls = answer.calls.as_str().strip_suffix('\n').unwrap_or("");
    answer.status == wanted.status
        && answer.text.as_slice() == wanted.text
        && wanted.ports.unwrap_or(answer.ports.as_str()) == answer.ports.as_str()
        && wanted.calls.unwrap_or(calls) == calls
        && are_lines(&answer.puts, command, wanted)
}

/// Appends a result. The bytes of an image are written in hexadecimal digits.
pub fn push_answer(to: &mut RowText, answer: &Answer) {
    let Answer {
        status,
        ports,
        calls,
        ..
    } = answer;
    write!(to, "status {status}, ports {ports}, calls\n{calls}writes\n");
    if let (Ok(text), false) = (str::from_utf8(&answer.text), answer.text.contains(&0)) {
        return to.push_str(text);
    }
    for byte in &answer.text {
        write!(to, "{byte:02x}");
    }
    to.push_str("\n")
}
