//! A run with a plant at the pipe. The responses of such a plant are unknown, so only safety and
//! termination of the run are proved. A recorded plant that replays the same words is a
//! [`loop_runs::Plant`], so the theorems of `closed_runs` cover that run.

ghost use Rattle.std.specs.Prelude.{◌≡◌, ◌<◌, ◌≤◌, IfSome, length, vec_len};
ghost use Rattle.loop_command_line.specs.Arguments.{IsWithinLimits};

use crate::fault::RunFault;
use crate::pipe::Pipe;
use example_plants::{ListedPlant, plants_of_list};
use fp_io::Sink;
use fp_ports::{Ports, THREADS, latch_of};
use loop_command_line::{Listed, LoopAsk};
use loop_commands::LoopRun;
use loop_runs::{Plants, begin_loops, continue_loops, feed_now};
use machine::{Machine, feed_inputs};
use std::alloc::Global;
use std::io::Read;

/// The thread whose plant is at the pipe, if one is.
pub fn pipe_thread(plants: &[Option<Listed>]) -> Option<u8>
    requires { length plants.now ≡ 8 }
    ensures { IfSome result (λ thread. thread < 8) }
{
    for thread in 0..THREADS {
        if let Some(plant) = &plants[thread as usize] {
            if plant.kind().is_pipe() {
                return Some(thread);
            }
        }
    }
    None
}

/// Runs a program with the plants of its list, and with the plant at the pipe at a thread's port.
/// There is an exchange every `every` cycles, the first at cycle 0. A line `> CYCLE WORD ANSWER`
/// for each exchange goes before the events of its cycles.
///
/// # Errors
///
/// `PlantEnded`, `NoWord`, `Write`, `NoMemory`; the events up to the cycle of the fault were put.
pub fn run_piped<R: Read + Drop, A: Sink + Drop, K: Sink>(
    alloc: Global,
    run: LoopRun,
    ports: &mut Ports,
    thread: u8,
    pipe: &mut Pipe<R, A>,
    out: &mut K,
) -> Result<(), RunFault>
    requires limits { IsWithinLimits run.ask }
    requires plants { vec_len run.plants ≡ 8 }
    requires eight { vec_len ports.old ≡ 8 }
    requires thread { thread < 8 }
{
    let mut plants = plants_of_list(alloc, run.plants)?;
    let mut machine = Machine::load(alloc, &run.program.setup, &run.program.image)?;
    feed_inputs(&run.program.setup, ports)?;
    run_with(
        &run.ask,
        &mut machine,
        ports,
        &mut plants,
        thread,
        pipe,
        out,
    )
}

/// Runs a machine with its plants, and with the plant at the pipe.
fn run_with<R: Read + Drop, A: Sink + Drop, K: Sink>(
    ask: &LoopAsk,
    machine: &mut Machine,
    ports: &mut Ports,
    plants: &mut Plants<ListedPlant>,
    thread: u8,
    pipe: &mut Pipe<R, A>,
    out: &mut K,
) -> Result<(), RunFault>
    requires limits { IsWithinLimits ask.now }
    requires start { machine.old.at ≡ 0 }
    requires ports { vec_len ports.old ≡ 8 }
    requires plants { vec_len plants.old ≡ 8 }
    requires thread { thread < 8 }
{
    begin_loops(machine, ports, plants)?;
    while ask.every <= ask.cycles - machine.cycle() {
        exchange(machine, ports, thread, pipe, out)?;
        continue_loops(machine, ports, plants, ask.thread, ask.every, 1, out)?;
    }
    if machine.cycle() < ask.cycles {
        exchange(machine, ports, thread, pipe, out)?;
    }
    machine.run_on(ask.cycles, ask.thread, ports, out)?;
    Ok(())
}

/// Sends the latch of the thread's port to the plant, and feeds the response to the port. Does
/// nothing if the thread has no port.
fn exchange<R: Read + Drop, A: Sink + Drop, K: Sink>(
    machine: &Machine,
    ports: &mut Ports,
    thread: u8,
    pipe: &mut Pipe<R, A>,
    out: &mut K,
) -> Result<(), RunFault>
    requires ports { vec_len ports.old ≡ 8 }
    requires thread { thread < 8 }
    ensures { vec_len ports.new ≡ 8 }
{
    let Some(drive) = latch_of(ports, thread) else {
        return Ok(());
    };
    let word = pipe.send(machine.cycle(), drive)?;
    out.put(pipe.exchanged(machine.cycle(), drive, word)?.as_bytes())?;
    feed_now(machine, ports, thread, word)?;
    Ok(())
}
