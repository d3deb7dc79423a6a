//! The program of `flexpret_cli` with a custom device: thread 0's port shows a ramp. With the
//! argument `loop` it runs a closed loop instead. It is an example to copy, so it has its own
//! `answer` and `read_args`.
#![tactic(auto)]

ghost use Rattle.std.specs.Prelude.{◌≡◌, vec_len};

mod closed_loop;
mod control_loop;
mod fixed;

use flexpret_top::{Status, flexpret};
use fp_io::{Gathered, OutSink, PutFailed, RealFiles};
use fp_ports::{HeldPort, Ports, RampPort, THREADS};
use std::alloc::AllocError;
use std::process::ExitCode;
use std::{env, io};

/// The number of cycles for which the ramp shows each word.
const EVERY: u64 = 16;

/// The argument that selects the closed loop.
const LOOP: &str = "loop";

/// Runs the command that the arguments give, with the devices at the ports, and writes its output.
fn answer(rt: HostRuntime, words: &[String], ports: &mut Ports) -> u8
    requires { vec_len ports.old ≡ 8 }
{
    let mut files = RealFiles::new(rt);
    let mut out = Gathered::new(OutSink::new(rt));
    let status = flexpret(rt.alloc(), words, &mut files, &mut out, ports);
    match out.flush() {
        Ok(()) => status,
        Err(PutFailed) => Status::Write.number(),
    }
}

/// The status of the command, run with a ramp at thread 0's port. At each other port a device shows
/// 0 until it is fed.
fn run(rt: HostRuntime, words: &[String]) -> Result<u8, AllocError> {
    let alloc = rt.alloc();
    let mut ports: Ports = Vec::new(alloc);
    ports.push(Some(Box::new(alloc, RampPort::new(alloc, EVERY))?))?;
    for _thread in 1..THREADS {
        ports.push(Some(Box::new(alloc, HeldPort::new(alloc))?))?;
    }
    Ok(answer(rt, words, &mut ports))
}

/// The arguments after the program's name, or the status if reading them fails.
fn read_args(rt: HostRuntime) -> Result<Vec<String>, Status> {
    match env::args(&rt) {
        Ok(args) => args
            .skip(1)
            .collect(rt.alloc())
            .map_err(|_| Status::NoMemory),
        Err(error) if error.kind() == io::ErrorKind::InvalidData => Err(Status::Usage),
        Err(_) => Err(Status::NoMemory),
    }
}

/// The status of the closed loop or of a command with the ramp, as the arguments select.
fn status_of(rt: HostRuntime, words: &[String]) -> u8 {
    match words.first() {
        Some(word) if words.len() == 1 && word.as_str() == LOOP => closed_loop::status(rt).number(),
        _ => run(rt, words).unwrap_or(Status::NoMemory.number()),
    }
}

fn main(rt: HostRuntime) -> ExitCode {
    let status = match read_args(rt) {
        Ok(words) => status_of(rt, &words),
        Err(status) => status.number(),
    };
    ExitCode::from(status)
}
