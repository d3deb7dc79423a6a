//! Units whose calls change them: several calls one after another, with `;` between two.

ghost use Rattle.std.specs.Prelude.{◌<◌, ◌≡◌, length};

use crate::numbers::{head, low_byte, low_word, numbers, thread_of};
use crate::values::{push_hexadecimal, push_value};
use core_model::CsrOp;
use regfile_bank::Bank;
use region_guard::{Guard, Regions};
use rv_exec::Lanes;
use scratchpad::Spm;
use slot_scheduler::{Modes, Sched};
use slot_table::SlotTable;
use std::alloc::Global;
use test_text::RowText;
use timer_unit::Timers;
use trap_unit::{CsrDone, CsrNo, Traps};

/// Units at their start.
#[derive(Drop)]
struct Units {
    timers: Timers,
    bank: Bank,
    traps: Traps,
    sched: Sched,
    guard: Guard,
}

impl Units {
    fn new() -> Option<Units> {
        Some(Units {
            timers: Timers::new(),
            bank: Bank::new(),
            traps: Traps::new(),
            sched: Sched {
                slots: SlotTable::from_word(0xffff_fff0).ok()?,
                modes: Modes::from_word(0xfffc).ok()?,
                sleep: [0; 8],
            },
            guard: Guard {
                i: Regions::from_word(0xcccc_cccc).ok()?,
                d: Regions::from_word(0xcccc_c810).ok()?,
                size: 16_384,
            },
        })
    }
}

/// `timers STEPS`, `bank STEPS`, `traps STEPS`.
pub fn push_steps(text: &mut RowText, unit: &str, steps: &str) {
    let Some(mut units) = Units::new() else {
        return text.push_str("no words");
    };
    for step in steps.split(';') {
        push_step(text, &mut units, unit, step);
    }
}

/// Does a step of a row on its unit, and writes what it answers.
fn push_step(text: &mut RowText, units: &mut Units, unit: &str, step: &str) {
    let (call, with) = head(step);
    let n = numbers(with);
    match unit {
        "timers" => push_timers(text, &mut units.timers, call, &n),
        "bank" => push_bank(text, &mut units.bank, call, &n),
        _ => push_traps(text, units, call, &n),
    }
}

/// `arm THREAD MOMENT`, `disarm THREAD`, and the results of `low THREAD NOW`, `high THREAD`, `due
/// THREAD NOW` and `armed THREAD`.
fn push_timers(text: &mut RowText, timers: &mut Timers, call: &str, n: &[u64; 8]) {
    let thread = thread_of(n[0]);
    match call {
        "arm" => timers.arm(thread, n[1]),
        "disarm" => timers.disarm(thread),
        "low" => push_hexadecimal(text, u64::from(timers.get_low(thread, n[1]))),
        "high" => push_hexadecimal(text, u64::from(timers.get_high(thread))),
        "due" => push_value(text, timers.due(thread, n[1])),
        _ => push_value(text, timers.armed(thread)),
    }
}

/// `write THREAD REGISTER WORD`, and the result of `read THREAD REGISTER`.
fn push_bank(text: &mut RowText, bank: &mut Bank, call: &str, n: &[u64; 8]) {
    let (thread, x) = (thread_of(n[0]), low_byte(n[1]) % 32);
    if call == "write" {
        bank.write(thread, x, low_word(n[2]));
        return;
    }
    push_hexadecimal(text, u64::from(bank.read(thread, x)))
}

/// The results of `access PERMIT OPERATION CSR OPERAND WRITES` of thread 3, `value THREAD CSR`,
/// `enter THREAD CAUSE PC`, `leave THREAD` and `words`.
fn push_traps(text: &mut RowText, units: &mut Units, call: &str, n: &[u64; 8]) {
    let thread = thread_of(n[0]);
    let contents = match call {
        "access" => return push_done(text, access(units, n)),
        "words" => return push_words(text, units),
        "value" => value(&units.traps, thread, n[1]),
        "enter" => units.traps.enter(thread, low_byte(n[1]), low_word(n[2])),
        _ => units.traps.leave(thread),
    };
    push_hexadecimal(text, u64::from(contents))
}

/// An access of thread 3, with a permit or none, by its operation: 0 to swap, 1 to set, 2 to clear.
fn access(units: &mut Units, n: &[u64; 8]) -> Result<CsrDone, CsrNo> {
    let op = match n[1] {
        0 => CsrOp::Swap,
        1 => CsrOp::Set,
        _ => CsrOp::Clear,
    };
    let csr = (n[2] & 0xffff) as u16;
    units.traps.access(
        &mut units.sched,
        &mut units.guard,
        3,
        n[0] != 0,
        op,
        csr,
        low_word(n[3]),
        n[4] != 0,
    )
}

/// The old value and the one that is kept, or why the access was refused.
fn push_done(text: &mut RowText, done: Result<CsrDone, CsrNo>) {
    match done {
        Ok(
            CsrDone {
                old,
                written: Some(word),
            },
        ) => write!(text, "{old:x}>{word:x} "),
        Ok(CsrDone { old, written: None }) => push_hexadecimal(text, u64::from(old)),
        Err(no) => push_value(text, no),
    }
}

/// A thread's trap register.
fn value(traps: &Traps, thread: u8, csr: u64) -> u32
    requires { thread < 8 }
{
    match csr {
        0x305 => traps.value(thread, 0x305),
        0x340 => traps.value(thread, 0x340),
        0x341 => traps.value(thread, 0x341),
        _ => traps.value(thread, 0x342),
    }
}

/// Appends words of the configuration registers: slots, modes and data regions.
fn push_words(text: &mut RowText, units: &Units) {
    let (slots, modes) = (units.sched.slots.word(), units.sched.modes.word());
    write!(text, "{slots:x} {modes:x} {:x} ", units.guard.d.word())
}

/// Words of a small scratchpad that was filled and stored to, and the last word of a large one.
pub fn push_memory(text: &mut RowText, alloc: Global) {
    let (Ok(mut small), Ok(mut large)) = (Spm::new(alloc, 16_384), Spm::new(alloc, 65_536)) else {
        return text.refuse();
    };
    push_small(text, &mut small);
    large.fill(16_383, &[1, 2, 3, 4]);
    write!(text, "{:x}", large.word_at(16_383))
}

/// Words of a small scratchpad that was filled and stored to.
fn push_small(text: &mut RowText, small: &mut Spm)
    requires { length small.old ≡ 4096 }
{
    small.fill(1, &[0x93, 0x02, 0x10, 0x00, 0xff, 0xff, 0xff, 0x7f]);
    small.store(2, lanes(0b0100, 0x0055_0000));
    small.store(4_095, lanes(0b1111, 42));
    for index in [0, 1, 2, 3, 4_095] {
        write!(text, "{:x} ", small.word_at(index));
    }
}

/// The bytes that a store writes.
fn lanes(mask: u8, value: u32) -> Lanes {
    Lanes { mask, value }
}
