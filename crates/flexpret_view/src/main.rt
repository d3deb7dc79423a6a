//! The program: `flexpret_view turns SETUP --from a --to b` shows the pipeline in each cycle of a
//! window, a line for each.
#![tactic(auto)]

ghost use Rattle.std.specs.Prelude.{◌≡◌, vec_len};

mod fault;
mod options;
mod progress;
mod words;

use crate::fault::ViewFault;
use crate::progress::ProgressLine;
use crate::words::{ArgumentsNo, Ask, read_words};
use commands::{CommandStop, Program, Status, load};
use fp_io::RealFiles;
use fp_ports::{HeldPort, Ports, THREADS};
use fp_setup::Name;
use machine::{Machine, feed_inputs};
use pipe_view::put_view;
use std::io::{BufWriter, Write};
use std::process::ExitCode;
use std::{env, io};
use trace_print::refusal_line;

/// The arguments of the command line. An argument that isn't UTF-8 is a usage error. Unlike those
/// of `flexpret_cli` they include the program's name, which the parser's texts show.
fn read_args(rt: HostRuntime) -> Result<Vec<String>, ViewFault> {
    match env::args(&rt) {
        Ok(args) => Ok(args.collect(rt.alloc())?),
        Err(error) if error.kind() == io::ErrorKind::InvalidData => Err(ViewFault::Usage),
        Err(_) => Err(ViewFault::NoMemory),
    }
}

/// Runs a machine, writes the requested view to a writer, and shows the progress of the run.
fn write_view<W: Write>(
    rt: HostRuntime,
    ask: &Ask<'_>,
    machine: &mut Machine,
    ports: &mut Ports,
    out: &mut W,
) -> io::Result<()>
    requires start { machine.old.at ≡ 0 }
    requires eight { vec_len ports.old ≡ 8 }
{
    let mut progress = ProgressLine::new(rt, ask.until, &ask.window);
    let put = put_view(out, ask.form, &ask.window, machine, ports, &mut progress);
    progress.clear();
    put?;
    out.flush()
}

/// Runs a machine, and writes the requested view to standard output through a buffer.
fn write_output(
    rt: HostRuntime,
    ask: &Ask<'_>,
    machine: &mut Machine,
    ports: &mut Ports,
) -> io::Result<()>
    requires start { machine.old.at ≡ 0 }
    requires eight { vec_len ports.old ≡ 8 }
{
    let mut out = BufWriter::new(rt.alloc(), io::writer(&rt))?;
    write_view(rt, ask, machine, ports, &mut out)
}

/// Runs the machine of a program from its start, with its inputs fed to the ports, and writes the
/// requested view.
fn run_program(
    rt: HostRuntime,
    ask: &Ask<'_>,
    program: &Program,
    ports: &mut Ports,
) -> Result<(), ViewFault>
    requires { vec_len ports.old ≡ 8 }
{
    feed_inputs(&program.setup, ports)?;
    let mut machine = Machine::load(rt.alloc(), &program.setup, &program.image)?;
    write_output(rt, ask, &mut machine, ports).map_err(ViewFault::from)
}

/// The program of a setup's file.
fn load_file(rt: HostRuntime, setup: &str) -> Result<Program, CommandStop> {
    let name = Name::from_str(rt.alloc(), setup)?;
    load(rt.alloc(), &name, &mut RealFiles::new(rt))
}

/// Writes the requested view, with these devices.
fn answer_with_ports(rt: HostRuntime, ask: &Ask<'_>, ports: &mut Ports) -> Result<(), ViewFault>
    requires { vec_len ports.old ≡ 8 }
{
    let program = load_file(rt, ask.setup)?;
    run_program(rt, ask, &program, ports)
}

/// Writes the requested view, with a device at each of the eight ports that shows 0 until it is
/// fed.
fn answer(rt: HostRuntime, ask: &Ask<'_>) -> Result<(), ViewFault> {
    let alloc = rt.alloc();
    let mut ports: Ports = Vec::new(alloc);
    for _thread in 0..THREADS {
        ports.push(Some(Box::new(alloc, HeldPort::new(alloc))?))?;
    }
    answer_with_ports(rt, ask, &mut ports)
}

/// Reports why the arguments are no command, with the parser's text if it has one. If that text is
/// its help, there is no fault.
fn report_no(rt: HostRuntime, no: &ArgumentsNo) -> Result<(), ViewFault> {
    match no {
        ArgumentsNo::Parser(error) => {
            let printed = error.print(&rt);
            if error.use_stderr() {
                return Err(ViewFault::Reported);
            }
            Ok(printed?)
        }
        ArgumentsNo::Usage => Err(ViewFault::Usage),
        ArgumentsNo::EmptyWindow => Err(ViewFault::EmptyWindow),
        ArgumentsNo::NoMemory => Err(ViewFault::NoMemory),
    }
}

/// Runs the command of the command line.
fn run(rt: HostRuntime) -> Result<(), ViewFault> {
    let words = read_args(rt)?;
    match read_words(rt.alloc(), &words) {
        Ok(ask) => answer(rt, &ask),
        Err(no) => report_no(rt, &no),
    }
}

/// Reports a fault: a refusal on standard output, as `flexpret` does, and others on standard error.
fn report_fault(rt: HostRuntime, fault: &ViewFault) -> Status {
    if let ViewFault::Refused(refusal) = fault {
        if rt.print(refusal_line(refusal).as_str()).is_err() {
            return ViewFault::Write.status();
        }
    }
    if let Some(line) = fault.complaint() {
        let _ = rt.eprintln(line);
    }
    fault.status()
}

fn main(rt: HostRuntime) -> ExitCode {
    match run(rt) {
        Ok(()) => ExitCode::from(Status::Ok.number()),
        Err(fault) => ExitCode::from(report_fault(rt, &fault).number()),
    }
}
