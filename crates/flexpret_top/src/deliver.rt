//! Writes the prepared text to the sink.

ghost use Rattle.std.specs.Prelude.{◌≡◌, ◌⊎◌, ◌≤◌, ◌<◌, OnOk, OnErr, vec_len};
ghost use Rattle.fp_io.specs.Causes.{HasRisen};
ghost use Rattle.timer_unit.specs.Time.{most_cycles};
ghost use Rattle.fp_ports.specs.PluggedPorts.{rows_of};
ghost use Rattle.core_model.specs.World.{Start};
ghost use Rattle.machine.specs.WorldRelation.{Refines};
ghost use Rattle.flexpret_top.specs.Prepared.{
  Gone,
  IsWithoutPort,
  IsThread,
  HasLeftPorts,
  HasLeftPortsInPart,
  OnlyReadsFor,
  WritesAll,
  WritesPart,
};
ghost use Rattle.flexpret_top.specs.declared.ready.Prepared.{Prepared};

use crate::alone::put_alone;
use crate::ready::{Prepared, Ready};
use fp_io::{PutFailed, Sink};
use fp_ports::Ports;
use machine::Machine;
use phase_log::run_phases;
use trace_print::bound_line;

/// Runs a machine for a number of cycles, and writes nothing.
fn go(machine: &mut Machine, cycles: u64, ports: &mut Ports)
    requires start { machine.old.at ≡ 0 }
    requires limit { cycles ≤ most_cycles }
    requires eight { vec_len ports.old ≡ 8 }
    ensures gone { (s : Start) →
        Refines s 0 cycles machine.old (rows_of latched word_at ports.old.items) →
        Gone s cycles (rows_of latched word_at ports.old.items) machine.new
        (rows_of latched word_at ports.new.items) }
    ensures eight { vec_len ports.new ≡ 8 }
{
    machine.run_unseen(cycles, ports);
}

/// Runs a machine, and writes the lines of a thread's events.
fn put_trace<K: Sink>(
    ready: Ready,
    thread: u8,
    ports: &mut Ports,
    out: &mut K,
) -> Result<(), PutFailed>
    requires thread { thread < 8 }
    requires eight { vec_len ports.old ≡ 8 }
    ensures ok { OnOk result (WritesAll (Prepared.Trace ready thread)
        (rows_of latched word_at ports.old.items) (K.taken out.old) (K.taken out.new)) }
    ensures err { OnErr result (WritesPart (Prepared.Trace ready thread)
        (rows_of latched word_at ports.old.items) (K.taken out.old) (K.taken out.new)) }
    ensures failed { OnErr result (HasRisen (K.faults out.old) (K.faults out.new)) }
    ensures counted { K.faults out.old ≤ K.faults out.new }
    ensures left { OnOk result (HasLeftPorts (Prepared.Trace ready thread)
        (rows_of latched word_at ports.old.items) (rows_of latched word_at ports.new.items)) }
    ensures part { OnErr result (HasLeftPortsInPart (Prepared.Trace ready thread)
        (rows_of latched word_at ports.old.items) (rows_of latched word_at ports.new.items)) }
    ensures eight { vec_len ports.new ≡ 8 }
{
    let mut machine = ready.machine;
    machine.run(ready.cycles, thread, ports, out)
}

/// Runs a machine, and writes its dump.
fn put_dump<K: Sink>(ready: Ready, ports: &mut Ports, out: &mut K) -> Result<(), PutFailed>
    requires eight { vec_len ports.old ≡ 8 }
    ensures ok { OnOk result (WritesAll (Prepared.Dump ready)
        (rows_of latched word_at ports.old.items) (K.taken out.old) (K.taken out.new)) }
    ensures err { OnErr result (WritesPart (Prepared.Dump ready)
        (rows_of latched word_at ports.old.items) (K.taken out.old) (K.taken out.new)) }
    ensures failed { OnErr result (HasRisen (K.faults out.old) (K.faults out.new)) }
    ensures counted { K.faults out.old ≤ K.faults out.new }
    ensures left { HasLeftPorts (Prepared.Dump ready)
        (rows_of latched word_at ports.old.items) (rows_of latched word_at ports.new.items) }
    ensures eight { vec_len ports.new ≡ 8 }
{
    let mut machine = ready.machine;
    go(&mut machine, ready.cycles, ports);
    machine.dump(ports, out)
}

/// Runs a machine, and writes the lines of its settings.
fn put_phases<K: Sink>(ready: Ready, ports: &mut Ports, out: &mut K) -> Result<(), PutFailed>
    requires eight { vec_len ports.old ≡ 8 }
    ensures ok { OnOk result (WritesAll (Prepared.Phases ready)
        (rows_of latched word_at ports.old.items) (K.taken out.old) (K.taken out.new)) }
    ensures err { OnErr result (WritesPart (Prepared.Phases ready)
        (rows_of latched word_at ports.old.items) (K.taken out.old) (K.taken out.new)) }
    ensures failed { OnErr result (HasRisen (K.faults out.old) (K.faults out.new)) }
    ensures counted { K.faults out.old ≤ K.faults out.new }
    ensures left { OnOk result (HasLeftPorts (Prepared.Phases ready)
        (rows_of latched word_at ports.old.items) (rows_of latched word_at ports.new.items)) }
    ensures part { OnErr result (HasLeftPortsInPart (Prepared.Phases ready)
        (rows_of latched word_at ports.old.items) (rows_of latched word_at ports.new.items)) }
    ensures eight { vec_len ports.new ≡ 8 }
{
    let mut machine = ready.machine;
    run_phases(&ready.setup, &mut machine, ready.cycles, ports, out)
}

/// Writes the prepared text.
pub fn deliver<K: Sink>(prepared: Prepared, ports: &mut Ports, out: &mut K) -> Result<(), PutFailed>
    requires thread { IsThread prepared }
    requires eight { vec_len ports.old ≡ 8 }
    ensures ok { OnOk result (WritesAll prepared
        (rows_of latched word_at ports.old.items) (K.taken out.old) (K.taken out.new)) }
    ensures err { OnErr result (WritesPart prepared
        (rows_of latched word_at ports.old.items) (K.taken out.old) (K.taken out.new)) }
    ensures failed { OnErr result (HasRisen (K.faults out.old) (K.faults out.new)) }
    ensures counted { K.faults out.old ≤ K.faults out.new }
    ensures left { OnOk result (HasLeftPorts prepared
        (rows_of latched word_at ports.old.items) (rows_of latched word_at ports.new.items)) }
    ensures part { OnErr result (HasLeftPortsInPart prepared
        (rows_of latched word_at ports.old.items) (rows_of latched word_at ports.new.items)) }
    ensures apart { IsWithoutPort prepared → ports.new ≡ ports.old }
    ensures reads { OnlyReadsFor prepared →
        rows_of latched word_at ports.new.items ≡ rows_of latched word_at ports.old.items }
    ensures eight { vec_len ports.new ≡ 8 }
{
    match prepared {
        Prepared::Trace { ready, thread } => put_trace(ready, thread, ports, out),
        Prepared::Dump(ready) => put_dump(ready, ports, out),
        Prepared::Phases(ready) => put_phases(ready, ports, out),
        Prepared::Solo(alone) => put_alone(alone, ports, out),
        Prepared::Same => out.put(b"same\n"),
        Prepared::Image(bytes) => out.put(&bytes),
        Prepared::Bound(cycles) => out.put(bound_line(cycles).as_bytes()),
        Prepared::Selfrun(run) => run.put(out),
    }
}
