//! Runs a machine in closed loops with plants: `loop_cli SETUP --plants FILE --thread i --every n
//! --cycles n`. It prints the trace of a thread. The list of plants names the plants, which do a
//! step every n cycles. With a plant at the pipe, standard output and standard input are the pipe,
//! and the trace goes to standard error.
//!
//! Of the program safety and termination are proved. Without a plant at the pipe it reads a run by
//! [`loop_commands::read_loop`] and does it by [`listed::run_listed`], over real files.
#![tactic(auto)]

ghost use Rattle.std.specs.Prelude.{◌≡◌, ◌<◌, vec_len};
ghost use Rattle.loop_command_line.specs.Arguments.{IsWithinLimits};

mod fault;
mod listed;
mod pipe;
mod piped;

use crate::fault::RunFault;
use crate::listed::run_listed;
use crate::pipe::{Pipe, WriterSink};
use crate::piped::{pipe_thread, run_piped};
use fp_io::{Gathered, OutSink, RealFiles};
use fp_ports::{HeldPort, Ports, THREADS};
use loop_commands::{LoopFault, LoopRun, read_loop};
use std::alloc::AllocError;
use std::io::Input;
use std::process::ExitCode;
use std::{env, io};

/// Runs a program with the plants of its list, and prints the trace of the thread.
fn print_run(rt: HostRuntime, run: LoopRun, ports: &mut Ports) -> Result<(), RunFault>
    requires limits { IsWithinLimits run.ask }
    requires plants { vec_len run.plants ≡ 8 }
    requires eight { vec_len ports.old ≡ 8 }
{
    let mut out = Gathered::new(OutSink::new(rt));
    let _ran = run_listed(rt.alloc(), run, ports, &mut out)?;
    out.flush()?;
    Ok(())
}

/// Runs a program with the plants of its list, and with the plant at the pipe at a thread's port.
/// Prints the trace and the exchanges to standard error, after a fault those before it.
fn run_at_pipe(rt: HostRuntime, run: LoopRun, ports: &mut Ports, thread: u8) -> Result<(), RunFault>
    requires limits { IsWithinLimits run.ask }
    requires plants { vec_len run.plants ≡ 8 }
    requires eight { vec_len ports.old ≡ 8 }
    requires thread { thread < 8 }
{
    let mut pipe = Pipe::new(rt.alloc(), rt.reader(), OutSink::new(rt));
    let mut out = Gathered::new(WriterSink::new(rt.stderr()));
    let ran = run_piped(rt.alloc(), run, ports, thread, &mut pipe, &mut out);
    out.flush()?;
    ran
}

/// Does the run that the arguments give, with these devices.
fn answer(rt: HostRuntime, words: &[String], ports: &mut Ports) -> Result<(), RunFault>
    requires { vec_len ports.old ≡ 8 }
{
    let run = read_loop(rt.alloc(), words, &mut RealFiles::new(rt))?;
    match pipe_thread(&run.plants) {
        None => print_run(rt, run, ports),
        Some(thread) => run_at_pipe(rt, run, ports, thread),
    }
}

/// The arguments after the program's name. A reader of its own, with the faults of this program.
fn read_args(rt: HostRuntime) -> Result<Vec<String>, RunFault> {
    match env::args(&rt) {
        Ok(args) => Ok(args.skip(1).collect(rt.alloc())?),
        Err(error) if error.kind() == io::ErrorKind::InvalidData => {
            Err(RunFault::Run(LoopFault::Usage))
        }
        Err(_) => Err(RunFault::from(AllocError)),
    }
}

/// Does the run of the command line. Each thread has a port, which shows 0 until it is fed.
fn run(rt: HostRuntime) -> Result<(), RunFault> {
    let alloc = rt.alloc();
    let words = read_args(rt)?;
    let mut ports: Ports = Vec::new(alloc);
    for _thread in 0..THREADS {
        ports.push(Some(Box::new(alloc, HeldPort::new(alloc))?))?;
    }
    answer(rt, &words, &mut ports)
}

/// Reports a fault on standard error, in one line.
fn report(rt: HostRuntime, fault: &RunFault) {
    let _ = match fault.line() {
        Some(line) => eprintln!(rt;
            "loop_cli: line {line} of the list isn't `THREAD body|motor STEPS`, \
            `THREAD table|recorded WORD ..` or `THREAD pipe`, or it is a second one of a thread, \
            or a second pipe"
        ),
        None => rt.eprintln(fault.message()),
    };
}

fn main(rt: HostRuntime) -> ExitCode {
    match run(rt) {
        Ok(()) => ExitCode::from(0),
        Err(fault) => {
            report(rt, &fault);
            ExitCode::from(fault.status())
        }
    }
}
