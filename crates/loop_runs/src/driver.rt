//! The machine in loops with its plants. Every `every` cycles the driver samples the latches of the
//! ports, steps the plants, and feeds their words to the ports.

ghost use Rattle.std.specs.Prelude.{◌≡◌, ℕ, suc, ◌+◌, ◌*◌, ◌/◌, ◌^◌, ◌<◌, ◌≤◌, true, false, Err};
ghost use Rattle.std.specs.Prelude.{List, Option, OnOk, OnErr, slice_index_or, vec_len};
ghost use Rattle.std.specs.List.{list_all};
ghost use Rattle.std.specs.Io.KnownBytes.{Appends};
ghost use Rattle.fp_io.specs.Causes.{HasRisen};
ghost use Rattle.fp_io.specs.Content.{AppendsPrefix};
ghost use Rattle.timer_unit.specs.Time.{most_cycles};
ghost use Rattle.fp_ports.specs.PluggedPorts.{rows_of};
ghost use Rattle.trace_print.specs.Text.{text};
ghost use Rattle.core_model.specs.World.{Start, events, is_quiet};
ghost use Rattle.core_model.specs.Phases.{phases, keeps_regions, is_never_soft};
ghost use Rattle.isolation.specs.Isolation.{StartsConfined, StartsConfinedHard};
ghost use Rattle.machine.specs.WorldRelation.{Refines};
ghost use Rattle.closed_loops.specs.Loop.{phased_in_loop, solo_in_loop};
ghost use Rattle.closed_loops.specs.Answered.{loop_view};
ghost use Rattle.loop_runs.specs.Plants.{Response, loop_start, responses_of};
ghost use Rattle.loop_runs.specs.Looping.{HasLooped, Looping};
ghost use Rattle.loop_runs.specs.SampledLaws.{plant_at};

use crate::feeding::{feed_now, forget_past};
use crate::plants::{Plant, Plants, step_plant, word_of};
use fp_io::{PutFailed, Sink};
use fp_ports::{Ports, latch_of};
use machine::Machine;
use pipe_model::events_grow;
use std::alloc::AllocError;
use thiserror::Error;

/// Why a run in closed loops stopped.
#[derive(Clone, Copy, Debug, PartialEq, Eq, Error)]
pub enum LoopStop {
    /// Out of memory: a port could not be fed.
    #[error("out of memory")]
    NoMemory,
    /// The sink did not take a line.
    #[error("not all bytes were taken")]
    PutFailed,
}

impl From<AllocError> for LoopStop {
    ghost use Rattle.std.specs.Prelude.{◌≡◌};
    ghost use Rattle.loop_runs.specs.declared.driver.LoopStop.TheVariants.{NoMemory};

    ghost from_gives = { λ _ stop. stop ≡ NoMemory };

    fn from(_error: AllocError) -> LoopStop {
        LoopStop::NoMemory
    }
}

impl From<PutFailed> for LoopStop {
    ghost use Rattle.std.specs.Prelude.{◌≡◌};
    ghost use Rattle.loop_runs.specs.declared.driver.LoopStop.TheVariants.{PutFailed};

    ghost from_gives = { λ _ stop. stop ≡ PutFailed };

    fn from(_error: PutFailed) -> LoopStop {
        LoopStop::PutFailed
    }
}

/// Feeds the first word of a thread's plant to its port, if the thread has a plant.
fn begin_thread<P: Plant>(
    machine: &Machine,
    ports: &mut Ports,
    plants: &Plants<P>,
    thread: u8,
) -> Result<(), AllocError>
    requires eight { vec_len ports.old ≡ 8 }
    requires plants { vec_len plants.now ≡ 8 }
    requires thread { thread < 8 }
    requires start { machine.now.at ≡ 0 }
    ensures looping { (every : ℕ) (s : Start) (n : ℕ) → 0 < every → n ≤ 2 ^ 64
        → Looping (responses_of P.response plants.now.items)
        (responses_of P.response plants.now.items) every s n 0 thread machine.now.at
        machine.now (rows_of latched word_at ports.old.items)
        → OnOk result (Looping (responses_of P.response plants.now.items)
        (responses_of P.response plants.now.items) every s n 0 (suc thread)
        machine.now.at machine.now (rows_of latched word_at ports.new.items)) }
    ensures eight { vec_len ports.new ≡ 8 }
{
    match word_of(plants, thread) {
        Some(word) => feed_now(machine, ports, thread, word),
        None => Ok(()),
    }
}

/// Samples the latch of a thread's port, steps the thread's plant and feeds its word to the port.
/// Nothing changes if the thread has no plant or no port.
fn sample_thread<P: Plant>(
    machine: &Machine,
    ports: &mut Ports,
    plants: &mut Plants<P>,
    thread: u8,
) -> Result<(), AllocError>
    requires eight { vec_len ports.old ≡ 8 }
    requires plants { vec_len plants.old ≡ 8 }
    requires thread { thread < 8 }
    ensures looping { (first : List (Option Response)) (every : ℕ) (s : Start) (n k : ℕ)
        → 0 < every → n ≤ 2 ^ 64 → machine.now.at ≤ n → machine.now.at ≡ suc k * every
        → Looping first (responses_of P.response plants.old.items) every s n (suc k) thread
        machine.now.at machine.now (rows_of latched word_at ports.old.items)
        → OnOk result (Looping first (responses_of P.response plants.new.items) every s n (suc k)
        (suc thread) machine.now.at machine.now (rows_of latched word_at ports.new.items)) }
    ensures eight { vec_len ports.new ≡ 8 }
    ensures plants { vec_len plants.new ≡ 8 }
{
    let Some(drive) = latch_of(ports, thread) else {
        return Ok(());
    };
    match step_plant(plants, thread, drive) {
        Some(word) => feed_now(machine, ports, thread, word),
        None => Ok(()),
    }
}

/// Feeds the first words of all plants to their ports.
fn begin_all<P: Plant>(
    machine: &Machine,
    ports: &mut Ports,
    plants: &Plants<P>,
) -> Result<(), AllocError>
    requires eight { vec_len ports.old ≡ 8 }
    requires plants { vec_len plants.now ≡ 8 }
    requires start { machine.now.at ≡ 0 }
    ensures looping { (every : ℕ) (s : Start) (n : ℕ) → 0 < every → n ≤ 2 ^ 64
        → Refines s 0 n machine.now (rows_of latched word_at ports.old.items)
        → OnOk result (Looping (responses_of P.response plants.now.items)
        (responses_of P.response plants.now.items) every s n 0 8 machine.now.at machine.now
        (rows_of latched word_at ports.new.items)) }
    ensures eight { vec_len ports.new ≡ 8 }
{
    for thread in 0..8u8 {
        begin_thread(machine, ports, plants, thread)?;
    }
    Ok(())
}

/// Does a step of all plants.
fn sample_all<P: Plant>(
    machine: &Machine,
    ports: &mut Ports,
    plants: &mut Plants<P>,
) -> Result<(), AllocError>
    requires eight { vec_len ports.old ≡ 8 }
    requires plants { vec_len plants.old ≡ 8 }
    ensures looping { (first : List (Option Response)) (every : ℕ) (s : Start) (n k : ℕ)
        → 0 < every → n ≤ 2 ^ 64 → machine.now.at ≤ n → machine.now.at ≡ suc k * every
        → Looping first (responses_of P.response plants.old.items) every s n k 8
        machine.now.at machine.now (rows_of latched word_at ports.old.items)
        → OnOk result (Looping first (responses_of P.response plants.new.items) every s n (suc k)
        8 machine.now.at machine.now (rows_of latched word_at ports.new.items)) }
    ensures eight { vec_len ports.new ≡ 8 }
    ensures plants { vec_len plants.new ≡ 8 }
{
    for thread in 0..8u8 {
        sample_thread(machine, ports, plants, thread)?;
    }
    Ok(())
}

/// Runs the machine for `every` cycles, and puts the lines of a thread. Then the ports forget their
/// past words, and all plants do a step.
fn loop_step<P: Plant, K: Sink>(
    machine: &mut Machine,
    ports: &mut Ports,
    plants: &mut Plants<P>,
    thread: u8,
    every: u64,
    out: &mut K,
) -> Result<(), LoopStop>
    requires some { 0 < every }
    requires limit { machine.old.at + every ≤ most_cycles }
    requires eight { vec_len ports.old ≡ 8 }
    requires plants { vec_len plants.old ≡ 8 }
    ensures looped { (first : List (Option Response)) (s : Start) (n k : ℕ)
        (contents : Option (List ℕ)) → n ≤ 2 ^ 64 → machine.old.at + every ≤ n
        → machine.old.at ≡ k * every
        → HasLooped first (responses_of P.response plants.old.items) every s n k 8 machine.old.at
        thread machine.old (rows_of latched word_at ports.old.items) contents (K.taken out.old)
        → OnOk result (HasLooped first (responses_of P.response plants.new.items) every s n (suc k)
        8 machine.new.at thread machine.new (rows_of latched word_at ports.new.items) contents
        (K.taken out.new)) }
    ensures stopped { (first : List (Option Response)) (s : Start) (n k : ℕ)
        (contents : Option (List ℕ)) → n ≤ 2 ^ 64 → machine.old.at + every ≤ n
        → machine.old.at ≡ k * every
        → HasLooped first (responses_of P.response plants.old.items) every s n k 8 machine.old.at
        thread machine.old (rows_of latched word_at ports.old.items) contents (K.taken out.old)
        → OnErr result (AppendsPrefix contents (K.taken out.new)
        (text (events (loop_start first every s n) thread n))) }
    ensures failed { result ≡ Err LoopStop.PutFailed
        → HasRisen (K.faults out.old) (K.faults out.new) }
    ensures counted { K.faults out.old ≤ K.faults out.new }
    ensures at { OnOk result (machine.new.at ≡ machine.old.at + every) }
    ensures eight { vec_len ports.new ≡ 8 }
    ensures plants { vec_len plants.new ≡ 8 }
{
    events_grow();
    let end = machine.cycle() + every;
    machine.run_on(end, thread, ports, out)?;
    forget_past(machine, ports);
    sample_all(machine, ports, plants)?;
    Ok(())
}

/// Feeds the first words of all plants to their ports: a machine at cycle 0 begins its loops.
///
/// # Errors
///
/// Out of memory.
pub fn begin_loops<P: Plant>(
    machine: &Machine,
    ports: &mut Ports,
    plants: &Plants<P>,
) -> Result<(), AllocError>
    requires eight { vec_len ports.old ≡ 8 }
    requires plants { vec_len plants.now ≡ 8 }
    requires start { machine.now.at ≡ 0 }
    ensures looped { (every : ℕ) (s : Start) (n thread : ℕ) (contents : Option (List ℕ))
        → 0 < every → n ≤ 2 ^ 64
        → Refines s 0 n machine.now (rows_of latched word_at ports.old.items)
        → OnOk result (HasLooped (responses_of P.response plants.now.items)
        (responses_of P.response plants.now.items) every s n 0 8 machine.now.at thread machine.now
        (rows_of latched word_at ports.new.items) contents contents) }
    ensures eight { vec_len ports.new ≡ 8 }
{
    begin_all(machine, ports, plants)
}

/// Continues closed loops for some steps of the plants, one every `every` cycles, and puts the
/// lines of a thread. Machine, ports and text are then those of the run in which each plant
/// responds to its thread.
///
/// # Errors
///
/// Out of memory, or a fault of the sink was counted in this call. A prefix of the text was put.
pub fn continue_loops<P: Plant, K: Sink>(
    machine: &mut Machine,
    ports: &mut Ports,
    plants: &mut Plants<P>,
    thread: u8,
    every: u64,
    steps: u64,
    out: &mut K,
) -> Result<(), LoopStop>
    requires some { 0 < every }
    requires limit { machine.old.at + steps * every ≤ most_cycles }
    requires eight { vec_len ports.old ≡ 8 }
    requires plants { vec_len plants.old ≡ 8 }
    ensures looped { (first : List (Option Response)) (s : Start) (n k : ℕ)
        (contents : Option (List ℕ)) → n ≤ 2 ^ 64 → machine.old.at + steps * every ≤ n
        → machine.old.at ≡ k * every
        → HasLooped first (responses_of P.response plants.old.items) every s n k 8 machine.old.at
        thread machine.old (rows_of latched word_at ports.old.items) contents (K.taken out.old)
        → OnOk result (HasLooped first (responses_of P.response plants.new.items) every s n
        (k + steps) 8 machine.new.at thread machine.new (rows_of latched word_at ports.new.items)
        contents (K.taken out.new)) }
    ensures stopped { (first : List (Option Response)) (s : Start) (n k : ℕ)
        (contents : Option (List ℕ)) → n ≤ 2 ^ 64 → machine.old.at + steps * every ≤ n
        → machine.old.at ≡ k * every
        → HasLooped first (responses_of P.response plants.old.items) every s n k 8 machine.old.at
        thread machine.old (rows_of latched word_at ports.old.items) contents (K.taken out.old)
        → OnErr result (AppendsPrefix contents (K.taken out.new)
        (text (events (loop_start first every s n) thread n))) }
    ensures failed { result ≡ Err LoopStop.PutFailed
        → HasRisen (K.faults out.old) (K.faults out.new) }
    ensures counted { K.faults out.old ≤ K.faults out.new }
    ensures at { OnOk result (machine.new.at ≡ machine.old.at + steps * every) }
    ensures eight { vec_len ports.new ≡ 8 }
    ensures plants { vec_len plants.new ≡ 8 }
{
    for _step in 0..steps {
        loop_step(machine, ports, plants, thread, every, out)?;
    }
    Ok(())
}

/// Runs a machine from cycle 0 on in closed loops with its plants, which do a step every `every`
/// cycles, and puts the lines of a thread. They are the text of the run in which each plant
/// responds to its thread. So they are the text of the thread by itself in the loop with its plant,
/// for any code of the other threads. Machine, ports and plants are then those of that run, so that
/// the run can be continued, and the machine dumped.
///
/// # Errors
///
/// Out of memory, or a fault of the sink was counted in this call. A prefix of the text was put.
pub fn run_loops<P: Plant, K: Sink>(
    machine: &mut Machine,
    ports: &mut Ports,
    plants: &mut Plants<P>,
    thread: u8,
    every: u64,
    cycles: u64,
    out: &mut K,
) -> Result<(), LoopStop>
    requires start { machine.old.at ≡ 0 }
    requires some { 0 < every }
    requires limit { cycles ≤ most_cycles }
    requires eight { vec_len ports.old ≡ 8 }
    requires plants { vec_len plants.old ≡ 8 }
    ensures looped { (s : Start) (n : ℕ) → cycles ≤ n → n ≤ 2 ^ 64
        → Refines s 0 n machine.old (rows_of latched word_at ports.old.items)
        → OnOk result (HasLooped (responses_of P.response plants.old.items)
        (responses_of P.response plants.new.items) every s n (cycles / every) 8 cycles thread
        machine.new (rows_of latched word_at ports.new.items)
        (K.taken out.old) (K.taken out.new)) }
    ensures text { (s : Start) → Refines s 0 cycles machine.old
        (rows_of latched word_at ports.old.items)
        → OnOk result (Appends (K.taken out.old) (K.taken out.new) (text (events
        (loop_start (responses_of P.response plants.old.items) every s cycles) thread cycles))) }
    ensures alone { (s : Start) → Refines s 0 cycles machine.old
        (rows_of latched word_at ports.old.items)
        → StartsConfinedHard s thread
        → is_quiet (loop_start (responses_of P.response plants.old.items) every s cycles) cycles
        ≡ true → OnOk result (Appends (K.taken out.old) (K.taken out.new)
        (text (solo_in_loop (loop_view s thread)
        (plant_at (responses_of P.response plants.old.items) every s thread) cycles))) }
    ensures unpermitted { (s : Start) → Refines s 0 cycles machine.old
        (rows_of latched word_at ports.old.items)
        → StartsConfinedHard s thread → ((k : ℕ) → slice_index_or s.permit k false ≡ false)
        → OnOk result (Appends (K.taken out.old) (K.taken out.new)
        (text (solo_in_loop (loop_view s thread)
        (plant_at (responses_of P.response plants.old.items) every s thread) cycles))) }
    ensures phased { (s : Start) → Refines s 0 cycles machine.old
        (rows_of latched word_at ports.old.items)
        → StartsConfined s thread
        → (let t = loop_start (responses_of P.response plants.old.items) every s cycles in
        list_all (is_never_soft thread) (phases t cycles) ≡ true → keeps_regions t cycles ≡ true
        → OnOk result (Appends (K.taken out.old) (K.taken out.new)
        (text (phased_in_loop (loop_view s thread)
        (plant_at (responses_of P.response plants.old.items) every s thread) (phases t cycles)
        cycles)))) }
    ensures stopped { (s : Start) → Refines s 0 cycles machine.old
        (rows_of latched word_at ports.old.items)
        → OnErr result (AppendsPrefix (K.taken out.old) (K.taken out.new) (text (events
        (loop_start (responses_of P.response plants.old.items) every s cycles) thread cycles))) }
    ensures failed { result ≡ Err LoopStop.PutFailed
        → HasRisen (K.faults out.old) (K.faults out.new) }
    ensures counted { K.faults out.old ≤ K.faults out.new }
    ensures at { OnOk result (machine.new.at ≡ cycles) }
    ensures eight { vec_len ports.new ≡ 8 }
    ensures plants { vec_len plants.new ≡ 8 }
{
    events_grow();
    crate::laws::runs_alone_in_loops();
    crate::laws::runs_alone_without_permits();
    crate::laws::runs_by_phases_in_loops();
    begin_loops(machine, ports, plants)?;
    continue_loops(machine, ports, plants, thread, every, cycles / every, out)?;
    machine.run_on(cycles, thread, ports, out)?;
    Ok(())
}
