//! Programs through the pipeline.

ghost use Rattle.std.specs.Prelude.{◌≡◌, ◌≤◌, All, IfOk, IfSome, length, vec_len};
ghost use Rattle.rv_exec.specs.Line.{IsPrintable};
ghost use Rattle.pipeline_core.specs.StageFacts.{IsPc};

use crate::numbers::{low_word, numbers};
use fp_ports::{HeldPort, Ports, feed_port, latch_of};
use pipeline_core::{Pipe, Units};
use regfile_bank::Bank;
use region_guard::{Guard, Regions};
use rv_exec::{Event, Lanes};
use scratchpad::Spm;
use slot_scheduler::{Modes, Sched, Scheduler};
use slot_table::SlotTable;
use std::alloc::{AllocError, Global};
use test_text::RowText;
use timer_unit::{Clock, Timers};
use trace_print::line;
use trap_unit::Traps;

/// The registers of slots and modes.
pub fn sched(slots: u32, modes: u32) -> Option<Sched> {
    Some(Sched {
        slots: SlotTable::from_word(slots).ok()?,
        modes: Modes::from_word(modes).ok()?,
        sleep: [0; 8],
    })
}

/// The regions, where each of code is read only, and those of data have the register.
pub fn guard(data: u32) -> Option<Guard>
    ensures { IfSome result (λ guard. guard.size ≡ 16384) }
{
    Some(Guard {
        i: Regions::from_word(0xcccc_cccc).ok()?,
        d: Regions::from_word(data).ok()?,
        size: 16_384,
    })
}

/// A scratchpad of code, of pairs of a word's index and the word.
fn code_of(alloc: Global, pairs: &str) -> Result<Spm, AllocError>
    ensures { IfOk result (λ imem. length imem ≡ 4096) }
{
    let mut imem = Spm::new(alloc, 16_384)?;
    for pair in pairs.split(' ') {
        let (index, word) = pair.split_once(':').unwrap_or((pair, ""));
        let index = low_word(numbers(index)[0]);
        if index < 4_096 {
            imem.store(
                index,
                Lanes {
                    mask: 0b1111,
                    value: low_word(numbers(word)[0]),
                },
            );
        }
    }
    Ok(imem)
}

/// Units with code, where thread 0 has a permit, and cycles have 10 nanoseconds.
fn units(alloc: Global, sched: Sched, guard: Guard, code: &str) -> Result<Units, AllocError>
    requires { guard.size ≡ 16384 }
{
    Ok(Units {
        bank: Bank::new(),
        imem: code_of(alloc, code)?,
        dmem: Spm::new(alloc, 16_384)?,
        guard,
        scheduler: Scheduler::new(),
        sched,
        clock: Clock::new(10),
        timers: Timers::new(),
        traps: Traps::new(),
        confined: [false; 8],
        permit: [true, false, false, false, false, false, false, false],
    })
}

/// Feeds pairs of a cycle and a word to thread 0's device.
fn feed(ports: &mut Ports, pairs: &str) -> Result<(), AllocError>
    requires { vec_len ports.old ≡ 8 }
    ensures { vec_len ports.new ≡ 8 }
{
    for pair in pairs.split_whitespace() {
        let (at, word) = pair.split_once(':').unwrap_or((pair, ""));
        feed_port(ports, 0, numbers(at)[0], low_word(numbers(word)[0]))?;
    }
    Ok(())
}

/// Appends an event's thread and line.
fn push_event(text: &mut RowText, event: &Event)
    requires { IsPrintable event.now.effect }
{
    let shown = line(event);
    write!(text, "{} {};", event.thread, shown.as_str().trim())
}

/// Appends the events of the first cycles.
fn push_events(
    text: &mut RowText,
    units: &mut Units,
    ports: &mut Ports,
    entries: [u32; 8],
    cycles: u64,
)
    requires eight { vec_len ports.old ≡ 8 }
    requires entries { All IsPc entries }
    requires cycles { cycles ≤ 1000 }
    ensures { vec_len ports.new ≡ 8 }
{
    let mut pipe = Pipe::new(entries);
    for cycle in 0..cycles {
        if let Some(event) = pipe.tick(units, ports, cycle) {
            push_event(text, &event);
        }
    }
}

/// Appends the events of some cycles, and the latch of thread 0's device then. That is the one
/// device that there is; it is fed before the first cycle.
fn push_shown(
    alloc: Global,
    text: &mut RowText,
    units: &mut Units,
    fed: &str,
    second: u32,
    cycles: u64,
) {
    let mut ports: Ports = Vec::new(alloc);
    let Ok(port) = Box::new(alloc, HeldPort::new(alloc)) else {
        return text.refuse();
    };
    if ports.push(Some(port)).is_err() {
        return text.refuse();
    }
    for _count in 1..8usize {
        if ports.push(None).is_err() {
            return text.refuse();
        }
    }
    push_beside(text, units, &mut ports, fed, second, cycles)
}

/// Appends the events of some cycles with these ports, and the latch of thread 0's device then.
fn push_beside(
    text: &mut RowText,
    units: &mut Units,
    ports: &mut Ports,
    fed: &str,
    second: u32,
    cycles: u64,
)
    requires { vec_len ports.old ≡ 8 }
{
    if feed(ports, fed).is_err() {
        text.refuse();
    }
    let entries = [0, second / 4 * 4, 0, 0, 0, 0, 0, 0];
    push_events(text, units, ports, entries, cycles.min(1000));
    if let Some(latch) = latch_of(ports, 0) {
        write!(text, "latch {latch:x}");
    }
}

/// Appends the events of a program: the registers of slots and modes, the entry of thread 1 and how
/// many cycles; the words of its code after their indices; and the words that thread 0's port is
/// fed.
pub fn push_program(alloc: Global, text: &mut RowText, program: &str) {
    let (head, rest) = program.split_once(", ").unwrap_or((program, ""));
    let (code, fed) = rest.split_once(", ").unwrap_or((rest, ""));
    let n = numbers(head);
    let (Some(sched), Some(guard)) = (sched(low_word(n[0]), low_word(n[1])), guard(0)) else {
        return text.push_str("no registers");
    };
    match units(alloc, sched, guard, code) {
        Ok(mut units) => push_shown(alloc, text, &mut units, fed, low_word(n[2]), n[3]),
        Err(AllocError) => text.refuse(),
    }
}
