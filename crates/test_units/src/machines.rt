//! Checks that the machine's whole state is in its fields.

ghost use Rattle.std.specs.Prelude.{◌≡◌, All, length, vec_len};
ghost use Rattle.pipeline_core.specs.StageFacts.{IsPc};

use crate::pipelines::{guard, sched};
use fp_io::MemSink;
use fp_ports::Ports;
use machine::Machine;
use pipeline_core::{Held, Pipe, Units};
use regfile_bank::Bank;
use region_guard::Guard;
use scratchpad::Spm;
use slot_scheduler::{Sched, Scheduler};
use std::alloc::Global;
use test_text::RowText;
use timer_unit::{Clock, Timers};
use trap_unit::Traps;

/// addi x5,x0,1; lw x6,0(x0); beq x0,x0,+8; nop; addi x7,x0,2; j .
const CODE: [u8; 24] = [
    0x93, 0x02, 0x10, 0x00, 0x03, 0x23, 0x00, 0x00, 0x63, 0x04, 0x00, 0x00, 0x13, 0x00, 0x00, 0x00,
    0x93, 0x03, 0x20, 0x00, 0x6f, 0x00, 0x00, 0x00,
];

/// Stages with no turn in them, where each thread has the pc that it fetches next.
fn bubbles(next: [u32; 8]) -> Pipe
    requires { All IsPc next }
{
    Pipe {
        next,
        f: Held::Bubble,
        d: Held::Bubble,
        e: Held::Bubble,
        m: Held::Bubble,
        w: Held::Bubble,
    }
}

/// Units at their start.
fn units(sched: Sched, guard: Guard, imem: Spm, dmem: Spm) -> Units
    requires size { guard.size ≡ 16384 }
    requires code { length imem ≡ 4096 }
    requires data { length dmem ≡ 4096 }
{
    Units {
        bank: Bank::new(),
        imem,
        dmem,
        guard,
        scheduler: Scheduler::new(),
        sched,
        clock: Clock::new(10),
        timers: Timers::new(),
        traps: Traps::new(),
        confined: [true, false, false, false, false, false, false, false],
        permit: [false; 8],
    }
}

/// Appends the lines of a trace, after the number of thread 0 and with a semicolon at the end.
fn push_lines(text: &mut RowText, trace: &str) {
    for line in trace.lines() {
        write!(text, "0 {};", line.trim());
    }
}

/// Appends the trace of thread 0 in eleven cycles with these ports, and the cycle then.
fn push_run_beside(alloc: Global, text: &mut RowText, machine: &mut Machine, ports: &mut Ports)
    requires start { machine.old.at ≡ 0 }
    requires eight { vec_len ports.old ≡ 8 }
{
    let Ok(mut out) = MemSink::new(alloc, 4096) else {
        return text.refuse();
    };
    let ran = machine.run(11, 0, ports, &mut out);
    push_lines(text, str::from_utf8(out.bytes()).unwrap_or(""));
    write!(text, "{ran:?} {}", machine.cycle())
}

/// Appends the trace of thread 0 in eleven cycles without a device, and the cycle then.
fn push_run(alloc: Global, text: &mut RowText, machine: &mut Machine)
    requires { machine.old.at ≡ 0 }
{
    let mut ports: Ports = Vec::new(alloc);
    for _count in 0..8usize {
        if ports.push(None).is_err() {
            return text.refuse();
        }
    }
    push_run_beside(alloc, text, machine, &mut ports)
}

/// Appends the run of a machine that is built from the listed fields of `Machine`, `Pipe` and
/// `Units`: with a further field this does not compile.
pub fn state_of_fields(alloc: Global, text: &mut RowText) {
    let (Some(sched), Some(guard)) = (sched(0xffff_fff0, 0xfffc), guard(0xcccc_c810)) else {
        return text.push_str("no registers");
    };
    let (Ok(mut imem), Ok(dmem)) = (Spm::new(alloc, 16_384), Spm::new(alloc, 16_384)) else {
        return text.refuse();
    };
    imem.fill(0, &CODE);
    let mut machine = Machine {
        pipe: bubbles([0; 8]),
        units: units(sched, guard, imem, dmem),
        at: 0,
        unplugs: [None; 8],
    };
    push_run(alloc, text, &mut machine)
}
