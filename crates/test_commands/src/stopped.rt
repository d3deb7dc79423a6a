//! The dump of a machine whose run a failing put stopped.
ghost use Rattle.std.specs.Prelude.{◌<◌, ◌≡◌, ◌≤◌, vec_len};
ghost use Rattle.timer_unit.specs.Time.{most_cycles};

use crate::answer::{ROOM, sink_of, words_of};
use crate::cases::{Case, Command, Cut};
use command_line::{Ask, read_words};
use fp_image::{Image, read_image};
use fp_io::MemSink;
use fp_ports::{HeldPort, Ports, THREADS};
use fp_setup::{Setup, read_setup};
use machine::{Machine, feed_inputs};
use std::alloc::Global;

/// Whether the machine of a command has the expected dump after its run, if the table has one.
pub fn is_shown(alloc: Global, case: &Case<'_>, command: &Command<'_>) -> bool {
    match &command.dump {
        Some(wanted) => match shown_after(alloc, case, command) {
            Some(shown) => shown.bytes() == wanted.as_slice(),
            None => false,
        },
        None => true,
    }
}

/// The bytes of a file that exists before a command; none if it doesn't exist.
fn file<'a>(case: &'a Case<'_>, command: &Command<'_>, name: &str) -> &'a [u8] {
    let mut bytes: &[u8] = &[];
    for file in case.files.iter().take(command.files) {
        if file.name == name {
            bytes = &file.bytes;
        }
    }
    bytes
}

/// A setup and its image.
#[derive(Drop)]
struct Program {
    setup: Setup,
    image: Image,
}

/// The program of a setup's file; None if setup or image is refused.
fn program_of(
    alloc: Global,
    case: &Case<'_>,
    command: &Command<'_>,
    name: &str,
) -> Option<Program> {
    let setup = read_setup(alloc, file(case, command, name)).ok()?;
    let bytes = file(case, command, setup.image.as_str());
    let image = read_image(alloc, bytes, setup.size()).ok()?;
    Some(Program { setup, image })
}

/// The dump after a run; None if the arguments aren't those of a run, setup or image is refused, no
/// put fails, or memory runs out.
fn shown_after(alloc: Global, case: &Case<'_>, command: &Command<'_>) -> Option<MemSink> {
    let words = words_of(alloc, command.line).ok()?;
    match read_words(alloc, &words) {
        Ok(
            Ask::Run {
                setup,
                thread,
                cycles,
            },
        ) => {
            let program = program_of(alloc, case, command, setup.as_str())?;
            shown_by(alloc, &program, thread, cycles, command.fails.put)
        }
        _ => None,
    }
}

/// The dump after a program's run with devices that hold the words they are fed; None if no put
/// fails or memory runs out.
fn shown_by(
    alloc: Global,
    program: &Program,
    thread: u8,
    cycles: u64,
    cut: Option<Cut>,
) -> Option<MemSink>
    requires thread { thread < 8 }
    requires limit { cycles ≤ most_cycles }
{
    let mut ports: Ports = Vec::new(alloc);
    for _thread in 0..THREADS {
        let port = Box::new(alloc, HeldPort::new(alloc)).ok()?;
        ports.push(Some(port)).ok()?;
    }
    if ports.len() != 8 {
        return None;
    }
    feed_inputs(&program.setup, &mut ports).ok()?;
    shown_beside(alloc, program, thread, cycles, &mut ports, cut)
}

/// The dump after a program's run with these devices; None if no put fails or memory runs out.
fn shown_beside(
    alloc: Global,
    program: &Program,
    thread: u8,
    cycles: u64,
    ports: &mut Ports,
    cut: Option<Cut>,
) -> Option<MemSink>
    requires thread { thread < 8 }
    requires limit { cycles ≤ most_cycles }
    requires eight { vec_len ports.old ≡ 8 }
{
    let mut out = sink_of(alloc, cut).ok()?;
    let mut shown = MemSink::new(alloc, ROOM).ok()?;
    let mut machine = Machine::load(alloc, &program.setup, &program.image).ok()?;
    let is_stopped = machine.run(cycles, thread, ports, &mut out).is_err();
    if is_stopped && machine.dump(ports, &mut shown).is_ok() {
        Some(shown)
    } else {
        None
    }
}
