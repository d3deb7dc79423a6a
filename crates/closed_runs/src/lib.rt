//! The machine of a setup and an image in closed loops with plants: it is loaded, its ports are fed
//! the setup's inputs, and it runs with the plants.

#![tactic(auto)]

ghost use Rattle.std.specs.Prelude.{◌≡◌, ℕ, ◌^◌, ◌/◌, ◌<◌, ◌≤◌, Err, IfOk, OnErr, OnOk, vec_len};
ghost use Rattle.fp_io.specs.Causes.{HasRisen};
ghost use Rattle.fp_io.specs.Content.{AppendsPrefix};
ghost use Rattle.fp_ports.specs.PluggedPorts.{rows_of};
ghost use Rattle.setup_model.specs.Start.{start};
ghost use Rattle.timer_unit.specs.Time.{most_cycles};
ghost use Rattle.loop_runs.specs.Looping.{HasLooped};
ghost use Rattle.loop_runs.specs.Plants.{response_at, responses_of};
ghost use Rattle.closed_laws.specs.ClosedTraces.{loop_trace};
ghost use Rattle.closed_runs.specs.ClosedRuns.{WritesLoops, machine_with};

use closed_laws::traces::{keeps_loops_quiet, traces_alone_in_loop, traces_by_phases_in_loop};
use fp_image::Image;
use fp_io::Sink;
use fp_ports::Ports;
use fp_setup::Setup;
use loop_runs::{LoopStop, Plant, Plants, run_loops};
use machine::{Machine, feed_inputs, feeds_the_start};
use std::alloc::Global;

/// Runs the machine of a setup and an image in closed loops with the plants of its threads, which
/// do a step every `every` cycles. Puts the lines of a thread. A thread without a plant has the
/// inputs of the setup.
///
/// Returns the machine. Machine, ports and plants are then those of the run after these cycles, so
/// that the run can be continued, and the machine dumped.
///
/// # Errors
///
/// Out of memory, or a fault of the sink was counted in this call. A prefix of the text was put.
pub fn run_setup_loops<P: Plant, K: Sink>(
    alloc: Global,
    setup: &Setup,
    image: &Image,
    ports: &mut Ports,
    plants: &mut Plants<P>,
    thread: u8,
    every: u64,
    cycles: u64,
    out: &mut K,
) -> Result<Machine, LoopStop>
    requires some { 0 < every }
    requires limit { cycles ≤ most_cycles }
    requires eight { vec_len ports.old ≡ 8 }
    requires plants { vec_len plants.old ≡ 8 }
    ensures put { OnOk result (WritesLoops
        (machine_with setup.now image.now (rows_of latched word_at ports.old.items))
        (response_at (responses_of P.response plants.old.items)) every thread cycles
        (K.taken out.old) (K.taken out.new)) }
    ensures looped { IfOk result (λ machine. (n : ℕ) → cycles ≤ n → n ≤ 2 ^ 64
        → HasLooped (responses_of P.response plants.old.items)
        (responses_of P.response plants.new.items) every
        (start setup.now image.now (rows_of latched word_at ports.old.items) n) n
        (cycles / every) 8 cycles thread machine (rows_of latched word_at ports.new.items)
        (K.taken out.old) (K.taken out.new)) }
    ensures at { IfOk result (λ machine. machine.at ≡ cycles) }
    ensures stopped { OnErr result (AppendsPrefix (K.taken out.old) (K.taken out.new) (loop_trace
        (machine_with setup.now image.now (rows_of latched word_at ports.old.items))
        (response_at (responses_of P.response plants.old.items)) every thread cycles)) }
    ensures failed { result ≡ Err LoopStop.PutFailed
        → HasRisen (K.faults out.old) (K.faults out.new) }
    ensures counted { K.faults out.old ≤ K.faults out.new }
    ensures eight { vec_len ports.new ≡ 8 }
    ensures plants { vec_len plants.new ≡ 8 }
{
    traces_alone_in_loop();
    keeps_loops_quiet();
    traces_by_phases_in_loop();
    feeds_the_start();
    let mut machine = Machine::load(alloc, setup, image)?;
    feed_inputs(setup, ports)?;
    run_loops(&mut machine, ports, plants, thread, every, cycles, out)?;
    Ok(machine)
}
