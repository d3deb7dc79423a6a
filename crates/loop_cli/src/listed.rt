//! A run in closed loops with the plants of a list.

ghost use Rattle.std.specs.Prelude.{◌≡◌, ◌⊎◌, ◌≤◌, ℕ, ◌^◌, ◌/◌, IfErr, IfOk, OnErr, OnOk};
ghost use Rattle.std.specs.Prelude.{vec_len};
ghost use Rattle.fp_io.specs.Causes.{HasRisen};
ghost use Rattle.fp_io.specs.Content.{AppendsPrefix};
ghost use Rattle.fp_ports.specs.PluggedPorts.{rows_of};
ghost use Rattle.setup_model.specs.Start.{start};
ghost use Rattle.loop_runs.specs.Looping.{HasLooped};
ghost use Rattle.loop_runs.specs.Plants.{response_at, responses_of};
ghost use Rattle.closed_laws.specs.ClosedTraces.{loop_trace};
ghost use Rattle.closed_runs.specs.ClosedRuns.{WritesLoops, machine_with};
ghost use Rattle.loop_command_line.specs.Arguments.{IsWithinLimits};
ghost use Rattle.example_plants.specs.Known.{known_response};
ghost use Rattle.example_plants.specs.ListedPlants.{listed_responses};
ghost use Rattle.loop_commands.specs.Faults.{no_memory};
ghost use Rattle.loop_cli.specs.Endings.{of_stop};
ghost use Rattle.loop_commands.specs.declared.fault.LoopFault.TheVariants.{Write};

use closed_runs::run_setup_loops;
use commands::CommandStop;
use example_plants::{ListedPlant, plants_of_list};
use fp_io::Sink;
use fp_ports::Ports;
use loop_commands::{LoopFault, LoopRun};
use loop_runs::{LoopStop, Plants};
use machine::Machine;
use std::alloc::Global;

/// A machine and its plants after a run.
#[derive(Drop)]
pub struct Ran {
    /// The machine.
    pub machine: Machine,
    /// The plants of the eight threads.
    pub plants: Plants<ListedPlant>,
}

/// The fault of a run that stopped.
fn fault_of(stop: LoopStop) -> LoopFault
    ensures { result ≡ of_stop stop }
{
    match stop {
        LoopStop::NoMemory => LoopFault::Stopped(CommandStop::NoMemory),
        LoopStop::PutFailed => LoopFault::Write,
    }
}

/// Runs a program with the plants of its list, each at its thread, and puts the lines of the thread
/// that the arguments ask for. A thread without a plant, or with one at the pipe, has the inputs of
/// the setup.
///
/// Returns machine and plants. They and the ports are then those of the run after its cycles.
///
/// # Errors
///
/// Out of memory, or a fault of the sink was counted in this call. A prefix of the text was put.
pub fn run_listed<K: Sink>(
    alloc: Global,
    run: LoopRun,
    ports: &mut Ports,
    out: &mut K,
) -> Result<Ran, LoopFault>
    requires limits { IsWithinLimits run.ask }
    requires plants { vec_len run.plants ≡ 8 }
    requires eight { vec_len ports.old ≡ 8 }
    ensures put { OnOk result (WritesLoops (machine_with run.program.setup run.program.image
        (rows_of latched word_at ports.old.items)) (response_at (listed_responses run.plants.items))
        run.ask.every run.ask.thread run.ask.cycles (K.taken out.old) (K.taken out.new)) }
    ensures looped { IfOk result (λ ran. (n : ℕ) → run.ask.cycles ≤ n → n ≤ 2 ^ 64
        → HasLooped (listed_responses run.plants.items)
        (responses_of known_response ran.plants.items) run.ask.every
        (start run.program.setup run.program.image (rows_of latched word_at ports.old.items) n) n
        (run.ask.cycles / run.ask.every) 8 run.ask.cycles run.ask.thread ran.machine
        (rows_of latched word_at ports.new.items) (K.taken out.old) (K.taken out.new)) }
    ensures at { IfOk result (λ ran. ran.machine.at ≡ run.ask.cycles) }
    ensures stopped { OnErr result (AppendsPrefix (K.taken out.old) (K.taken out.new) (loop_trace
        (machine_with run.program.setup run.program.image (rows_of latched word_at ports.old.items))
        (response_at (listed_responses run.plants.items)) run.ask.every run.ask.thread
        run.ask.cycles)) }
    ensures fault { IfErr result (λ fault. (fault ≡ no_memory)
        ⊎ ((fault ≡ Write) × HasRisen (K.faults out.old) (K.faults out.new))) }
    ensures counted { K.faults out.old ≤ K.faults out.new }
    ensures eight { vec_len ports.new ≡ 8 }
{
    let mut plants = plants_of_list(alloc, run.plants)?;
    let ran = run_setup_loops(
        alloc,
        &run.program.setup,
        &run.program.image,
        ports,
        &mut plants,
        run.ask.thread,
        run.ask.every,
        run.ask.cycles,
        out,
    );
    match ran {
        Ok(machine) => Ok(Ran { machine, plants }),
        Err(stop) => Err(fault_of(stop)),
    }
}
