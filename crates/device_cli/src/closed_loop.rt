//! A closed loop: the controller of `examples/c/t0_pid.c`, and a plant at its port that responds to
//! the words it writes.
//!
//! The words that a device at a port shows don't depend on the words written to it, so the plant is
//! not a device. It is simulated next to the machine, which runs cycle by cycle. Between two cycles
//! the program reads the latch of the port, and feeds the plant's response to the port. Safety and
//! termination are proved. No clause defines a run. Each cycle is the machine's, but after a
//! feeding the machine refines no world that is known from the start. So the theorems on runs,
//! traces and isolation don't cover it.

ghost use Rattle.std.specs.Prelude.{◌≡◌, vec_len};

use crate::control_loop::ControlLoop;
use crate::fixed::Fixed;
use commands::{CommandStop, Program, Status, load};
use fp_io::RealFiles;
use fp_ports::{HeldPort, Ports, THREADS};
use fp_setup::Name;
use std::io;

/// The setup, whose thread 0 is the controller.
const SETUP: &str = "examples/device/loop.toml";

/// The number of periods of the controller in the run.
const PERIODS: u64 = 160;

/// The controller's set point, as in its source.
const SET_POINT: Fixed = Fixed(16 * 0x1_0000);

/// The setup and its image.
fn read_program(rt: HostRuntime) -> Result<Program, CommandStop> {
    let name = Name::from_str(rt.alloc(), SETUP)?;
    load(rt.alloc(), &name, &mut RealFiles::new(rt))
}

/// Prints a line: the time in nanoseconds, the set point, the plant's input, and its sensor's
/// value.
fn print_line(rt: HostRuntime, ns: u64, closed: &ControlLoop) -> io::Result<()>
    requires { vec_len closed.now.ports ≡ 8 }
{
    let drive = Fixed(closed.drive());
    let measured = Fixed(closed.measured());
    println!(rt; "{ns} {SET_POINT} {drive} {measured}")
}

/// Does the periods of a run from cycle 0 on, with a cycle of the given nanoseconds, and prints a
/// line after each.
fn print_periods(rt: HostRuntime, closed: &mut ControlLoop, ns: u64) -> io::Result<()>
    requires eight { vec_len closed.old.ports ≡ 8 }
    requires start { closed.old.machine.at ≡ 0 }
{
    println!(rt; "# ns set-point drive value")?;
    for _period in 0..PERIODS {
        closed.period()?;
        print_line(rt, closed.cycle().saturating_mul(ns), closed)?;
    }
    Ok(())
}

/// Closes the loop over devices at the ports.
fn close_over(rt: HostRuntime, program: &Program, ports: Ports) -> io::Result<()>
    requires { vec_len ports ≡ 8 }
{
    let mut closed = ControlLoop::new(rt.alloc(), program, ports)?;
    print_periods(rt, &mut closed, u64::from(program.setup.period))
}

/// Closes the loop over a device at each of the eight ports that shows 0 until it is fed.
fn run(rt: HostRuntime, program: &Program) -> io::Result<()> {
    let alloc = rt.alloc();
    let mut ports: Ports = Vec::new(alloc);
    for _thread in 0..THREADS {
        ports.push(Some(Box::new(alloc, HeldPort::new(alloc))?))?;
    }
    close_over(rt, program, ports)
}

/// Runs the closed loop, and returns the status: Read also if the setup or its image has a fault.
pub fn status(rt: HostRuntime) -> Status {
    let program = match read_program(rt) {
        Ok(program) => program,
        Err(CommandStop::NoMemory) => return Status::NoMemory,
        Err(_) => return Status::Read,
    };
    match run(rt, &program) {
        Ok(()) => Status::Ok,
        Err(error) if error.kind() == io::ErrorKind::OutOfMemory => Status::NoMemory,
        Err(_) => Status::Write,
    }
}
