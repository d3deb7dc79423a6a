//! A machine whose ports are fed while it runs.

ghost use Rattle.std.specs.Prelude.{◌≡◌, ℕ, ◌^◌, ◌-◌, ◌<◌, ◌≤◌, length, vec_len, OnOk, OnErr};
ghost use Rattle.fp_ports.specs.PluggedPorts.{rows_of};
ghost use Rattle.core_model.specs.Delays.{cycles_to_m};
ghost use Rattle.core_model.specs.World.{Start};
ghost use Rattle.machine.specs.WorldRelation.{Refines};
ghost use Rattle.loop_runs.specs.FedRuns.{AllForgot, FeedsRunning};
ghost use Rattle.loop_runs.specs.FedRuns.{ForgetsRunning, KeepsThree, fed_start};

use core_model::CYCLES_TO_M;
use fp_ports::{Ports, feed_port, forget_port};
use machine::Machine;
use std::alloc::AllocError;

/// A machine that is fed while it runs refines a cycle of the world whose port shows the fed word
/// from then on. The contract states the theorem; the call does nothing.
pub fn feeds_running()
    ensures { FeedsRunning }
{}

/// Feeds a thread's port: it shows the word from the machine's next cycle on.
///
/// # Errors
///
/// Out of memory; the ports are unchanged.
pub fn feed_now(
    machine: &Machine,
    ports: &mut Ports,
    thread: u8,
    word: u32,
) -> Result<(), AllocError>
    requires eight { vec_len ports.old ≡ 8 }
    requires thread { thread < 8 }
    ensures fed { (s : Start) (n : ℕ) → thread < length s.shown → n ≤ 2 ^ 64
        → machine.now.at ≤ n
        → Refines s machine.now.at n machine.now (rows_of latched word_at ports.old.items)
        → OnOk result (Refines (fed_start s thread machine.now.at word n) machine.now.at n
        machine.now (rows_of latched word_at ports.new.items)) }
    ensures unfed { OnErr result (rows_of latched word_at ports.new.items
        ≡ rows_of latched word_at ports.old.items) }
    ensures eight { vec_len ports.new ≡ 8 }
{
    feeds_running();
    feed_port(ports, thread, machine.cycle(), word)
}

/// A machine whose ports forget the words that no load in flight reads refines the same cycle of
/// the same world. The contract states the theorem; the call does nothing.
pub fn forgets_running()
    ensures { ForgetsRunning }
{}

/// A device of fp_ports that is fed for rising cycles keeps at most three feeds of the cycles
/// before the machine's, once it forgets. The contract states the theorem; the call does nothing.
pub fn keeps_three()
    ensures { KeepsThree }
{}

/// Makes all ports forget their words of the cycles before those of the loads in flight. It
/// allocates no memory.
pub fn forget_past(machine: &Machine, ports: &mut Ports)
    requires eight { vec_len ports.old ≡ 8 }
    ensures forgot { AllForgot (machine.now.at - cycles_to_m)
        (rows_of latched word_at ports.old.items) (rows_of latched word_at ports.new.items) }
    ensures refines { (s : Start) (n : ℕ)
        → Refines s machine.now.at n machine.now (rows_of latched word_at ports.old.items)
        → Refines s machine.now.at n machine.now (rows_of latched word_at ports.new.items) }
    ensures eight { vec_len ports.new ≡ 8 }
{
    forgets_running();
    let first = machine.cycle().saturating_sub(CYCLES_TO_M);
    for thread in 0..8u8 {
        forget_port(ports, thread, first);
    }
}
