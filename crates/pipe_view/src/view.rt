//! A run with a window of cycles that are shown.

ghost use Rattle.std.specs.Prelude.{◌≡◌, ◌+◌, ◌<◌, ◌≤◌, vec_len};
ghost use Rattle.timer_unit.specs.Time.{most_cycles};

use crate::cycle::Cycle;
use crate::progress::{Progress, next_report, tell_at};
use crate::text::{OutputForm, Rows};
use crate::watch::Watch;
use crate::window::Window;
use core_model::CYCLES_TO_W;
use fp_ports::Ports;
use machine::Machine;
use std::io;
use std::io::Write;

/// The number of cycles that are watched before the first one shown: the turn that is then in W was
/// issued in the earliest of them.
const BEFORE: u64 = CYCLES_TO_W;

/// Does a number of cycles from cycle 0 on.
fn go<P: Progress>(machine: &mut Machine, ports: &mut Ports, cycles: u64, progress: &mut P)
    requires start { machine.old.at ≡ 0 }
    requires limit { cycles ≤ most_cycles }
    requires eight { vec_len ports.old ≡ 8 }
    ensures at { machine.new.at ≡ cycles }
    ensures eight { vec_len ports.new ≡ 8 }
{
    while machine.at < cycles {
        let next = next_report(machine.at).min(cycles);
        machine.run_unseen(next, ports);
        tell_at(progress, machine.at);
    }
}

/// Does a cycle, and puts the one that is whole then, if the window has it.
fn put_cycle<W: Write>(
    out: &mut W,
    rows: &mut Rows,
    watch: &mut Watch,
    window: &Window,
    machine: &mut Machine,
    ports: &mut Ports,
) -> io::Result<()>
    requires cycle { machine.old.at < most_cycles }
    requires eight { vec_len ports.old ≡ 8 }
    ensures at { machine.new.at ≡ machine.old.at + 1 }
    ensures eight { vec_len ports.new ≡ 8 }
{
    match watch.tick(machine, ports) {
        Some(cycle) if cycle.start.cycle >= window.from() => rows.put(out, &cycle),
        _ => Ok(()),
    }
}

/// Runs a machine from a cycle on until all cycles of a window are complete, and puts each as soon
/// as it is complete.
fn put_window<W: Write, P: Progress>(
    out: &mut W,
    rows: &mut Rows,
    window: &Window,
    machine: &mut Machine,
    ports: &mut Ports,
    progress: &mut P,
) -> io::Result<()>
    requires eight { vec_len ports.old ≡ 8 }
{
    let mut watch = Watch::new();
    for _cycle in machine.at..window.run_len() {
        put_cycle(out, rows, &mut watch, window, machine, ports)?;
        tell_at(progress, machine.at);
    }
    Ok(())
}

/// Runs a machine from cycle 0 on until all cycles of a window are complete, and puts each as soon
/// as it is complete. It reports progress at intervals. It allocates no memory.
///
/// # Errors
///
/// The writer's.
pub fn put_view<W: Write, P: Progress>(
    out: &mut W,
    form: OutputForm,
    window: &Window,
    machine: &mut Machine,
    ports: &mut Ports,
    progress: &mut P,
) -> io::Result<()>
    requires start { machine.old.at ≡ 0 }
    requires eight { vec_len ports.old ≡ 8 }
{
    let first = window.from().saturating_sub(BEFORE);
    go(machine, ports, first, progress);
    progress.begin_window();
    let mut rows = Rows::begin(out, form, machine.units.clock.now(1))?;
    put_window(out, &mut rows, window, machine, ports, progress)
}
