//! The program: `flexpret run SETUP --thread i --cycles n`, and the other commands.
#![tactic(auto)]

ghost use Rattle.std.specs.Prelude.{◌≡◌, vec_len};

use flexpret_top::{Status, flexpret};
use fp_io::{Gathered, OutSink, PutFailed, RealFiles};
use fp_ports::{HeldPort, Ports, THREADS};
use std::alloc::AllocError;
use std::process::ExitCode;
use std::{env, io};

/// The lines for standard error, by the status.
const COMPLAINTS: [(Status, &str); 4] = [
    (Status::Usage, "flexpret: usage"),
    (Status::Read, "flexpret: read failed"),
    (Status::Write, "flexpret: write failed"),
    (Status::NoMemory, "flexpret: out of memory"),
];

/// The line for standard error for a status, if there is one.
fn complaint(status: u8) -> Option<&'static str> {
    for (contents, line) in COMPLAINTS {
        if status == contents.number() {
            return Some(line);
        }
    }
    None
}

/// The arguments after the program's name, or the status if reading them fails. No command takes an
/// argument that isn't UTF-8.
fn read_args(rt: HostRuntime) -> Result<Vec<String>, Status> {
    match env::args(&rt) {
        Ok(args) => args
            .skip(1)
            .collect(rt.alloc())
            .map_err(|_| Status::NoMemory),
        Err(error) if error.kind() == io::ErrorKind::InvalidData => Err(Status::Usage),
        Err(_) => Err(Status::NoMemory),
    }
}

/// Runs the command that the arguments give, with the devices at the ports. A command is done only
/// after its whole output is flushed.
fn answer(rt: HostRuntime, words: &[String], ports: &mut Ports) -> u8
    requires { vec_len ports.old ≡ 8 }
{
    let mut files = RealFiles::new(rt);
    let mut out = Gathered::new(OutSink::new(rt));
    let status = flexpret(rt.alloc(), words, &mut files, &mut out, ports);
    match out.flush() {
        Ok(()) => status,
        Err(PutFailed) => Status::Write.number(),
    }
}

/// The status of the command, run with a device at each of the eight ports that shows 0 until it is
/// fed.
fn run(rt: HostRuntime, words: &[String]) -> Result<u8, AllocError> {
    let alloc = rt.alloc();
    let mut ports: Ports = Vec::new(alloc);
    for _thread in 0..THREADS {
        ports.push(Some(Box::new(alloc, HeldPort::new(alloc))?))?;
    }
    Ok(answer(rt, words, &mut ports))
}

/// The status of the program: that of the command, or of a failure to read the arguments or make
/// the devices.
fn status(rt: HostRuntime) -> u8 {
    match read_args(rt) {
        Ok(words) => run(rt, &words).unwrap_or(Status::NoMemory.number()),
        Err(status) => status.number(),
    }
}

fn main(rt: HostRuntime) -> ExitCode {
    let status = status(rt);
    if let Some(line) = complaint(status) {
        let _ = rt.eprintln(line);
    }
    ExitCode::from(status)
}
