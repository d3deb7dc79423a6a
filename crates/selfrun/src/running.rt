//! The run.

ghost use Rattle.std.specs.Prelude.{◌≡◌, ℕ, ◌<◌, ◌≤◌, List, Option};
ghost use Rattle.std.specs.Prelude.{length, vec_len, OnOk, OnErr, IfOk};
ghost use Rattle.std.specs.Io.KnownBytes.{Appends};
ghost use Rattle.fp_io.specs.Causes.{HasRisen};
ghost use Rattle.fp_io.specs.Content.{AppendsPrefix};
ghost use Rattle.fp_ports.specs.PluggedPorts.{Row, rows_of};
ghost use Rattle.setup_model.specs.Start.{no_ports};
ghost use Rattle.core_model.specs.World.{Start};
ghost use Rattle.machine.specs.WorldRelation.{Refines, start_with_ports};
ghost use Rattle.selfrun.specs.Drawn.{own_setup, programs};
ghost use Rattle.selfrun.specs.Counting.{tallies_of};
ghost use Rattle.selfrun.specs.Text.{own_tallies, selfrun_text, tallies_text, tally_at};
ghost use Rattle.selfrun.specs.Text.{tally_line, own_cycles};

use crate::drawing::{drawn_image, own_setup};
use crate::line_fold::LineFolder;
use crate::tally::Tally;
use fp_io::{PutFailed, Sink};
use fp_ports::Ports;
use machine::{Machine, Nowhere, Observer};
use pipeline_core::{StageRegister, Stored};
use std::alloc::{AllocError, Global};

/// The number of cycles that the machine runs.
const CYCLES: u64 = 100_000;

/// Eight ports that aren't there.
fn no_ports(alloc: Global) -> Result<Ports, AllocError>
    ensures rows { IfOk result (λ ports. rows_of latched word_at ports.items ≡ no_ports) }
    ensures eight { IfOk result (λ ports. vec_len ports ≡ 8) }
{
    let mut ports = Vec::new(alloc);
    for _thread in 0..8u8 {
        ports.push(None)?;
    }
    Ok(ports)
}

/// Counts the events of each thread. It reads them where they are, so that none is made.
#[derive(Drop)]
struct Count {
    tallies: [Tally; 8],
    folder: LineFolder,
}

impl Observer for Count {
    ghost use Rattle.selfrun.specs.Counted.{count_acts};

    ghost acts = { count_acts };

    #[inline(always)]
    fn retire(&mut self, turn: &StageRegister<Stored>, cycle: u64) -> bool {
        if let Some(it) = turn.retired(cycle) {
            let tally = &mut self.tallies[usize::from(it.thread)];
            tally.add(
                &mut self.folder,
                it.cycle,
                it.thread,
                it.pc,
                it.word,
                it.effect,
            );
        }
        false
    }

    #[inline(always)]
    fn write<K: Sink>(&self, _out: &mut K) -> Result<(), PutFailed> {
        Ok(())
    }
}

/// The machine with the drawn programs, at its start.
fn own_machine(alloc: Global, number: u32) -> Result<Machine, AllocError>
    ensures refines { IfOk result (λ m. (ports : List (Option Row)) (n : ℕ) → length ports ≡ 8
        → Refines (start_with_ports own_setup (programs number) ports n) 0 n m ports) }
    ensures start { IfOk result (λ m. m.at ≡ 0) }
{
    let setup = own_setup(alloc)?;
    let image = drawn_image(alloc, number)?;
    Machine::load(alloc, &setup, &image)
}

/// Runs a machine for a number of cycles from its start, and counts the events of each thread as
/// they retire.
fn tallies(machine: &mut Machine, cycles: u64, ports: &mut Ports) -> [Tally; 8]
    requires start { machine.old.at ≡ 0 }
    requires limit { cycles ≤ own_cycles }
    requires eight { vec_len ports.old ≡ 8 }
    ensures { (s : Start) → Refines s 0 cycles machine.old
        (rows_of latched word_at ports.old.items) → result ≡ tallies_of s cycles }
{
    let mut count = Count {
        tallies: [Tally { events: 0, fold: 0 }; 8],
        folder: LineFolder::new(),
    };
    let _done = machine.run_with(cycles, ports, &mut count, &mut Nowhere);
    count.tallies
}

/// The tallies of the threads in the machine's own run.
#[derive(Clone, Copy, Debug)]
pub struct Selfrun {
    /// By thread, 0 to 7.
    pub tallies: [Tally; 8],
}

impl Selfrun {
    /// Draws the programs from a number, and runs the machine for 100,000 cycles with no port. It
    /// keeps no trace.
    ///
    /// # Errors
    ///
    /// Out of memory.
    pub fn new(alloc: Global, number: u32) -> Result<Selfrun, AllocError>
        ensures tallies { IfOk result (λ r. r.tallies ≡ own_tallies number) }
        ensures text { IfOk result (λ r. tallies_text r.tallies ≡ selfrun_text number) }
    {
        let mut ports = no_ports(alloc)?;
        match own_machine(alloc, number) {
            Ok(mut machine) => Ok(Selfrun {
                tallies: tallies(&mut machine, CYCLES, &mut ports),
            }),
            Err(error) => Err(error),
        }
    }

    /// Puts a line for each thread, in order, by one call each: `T0 events 12345 fold 0123abcd`.
    ///
    /// # Errors
    ///
    /// The sink counted a fault in this call. A prefix of the text was put.
    pub fn put<K: Sink>(&self, out: &mut K) -> Result<(), PutFailed>
        ensures ok { OnOk result (Appends (K.taken out.old) (K.taken out.new)
            (tallies_text self.now.tallies)) }
        ensures err { OnErr result (AppendsPrefix (K.taken out.old) (K.taken out.new)
            (tallies_text self.now.tallies)) }
        ensures failed { OnErr result (HasRisen (K.faults out.old) (K.faults out.new)) }
        ensures counted { K.faults out.old ≤ K.faults out.new }
    {
        for k in 0..8u8 {
            self.put_line(k, out)?;
        }
        Ok(())
    }

    /// Puts the line of thread k.
    fn put_line<K: Sink>(&self, k: u8, out: &mut K) -> Result<(), PutFailed>
        requires { k < 8 }
        ensures ok { OnOk result (Appends (K.taken out.old) (K.taken out.new)
            (tally_line k (tally_at self.now.tallies k))) }
        ensures err { OnErr result (AppendsPrefix (K.taken out.old) (K.taken out.new)
            (tally_line k (tally_at self.now.tallies k))) }
        ensures failed { OnErr result (HasRisen (K.faults out.old) (K.faults out.new)) }
        ensures counted { K.faults out.old ≤ K.faults out.new }
    {
        let tally = self.tallies[usize::from(k)];
        out.put(tally.line(k).as_bytes())
    }
}
