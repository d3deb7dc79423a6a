//! The answers of the machine's units.

ghost use Rattle.std.specs.Prelude.{◌<◌};

use crate::numbers::{head, low_byte, low_word, numbers, thread_of};
use crate::steps;
use region_guard::{Guard, Regions};
use slot_scheduler::{Modes, Pick, Sched, Scheduler};
use slot_table::SlotTable;
use std::alloc::Global;
use test_text::RowText;
use timer_unit::{Clock, LAST_TIMED_CYCLE, moment};

/// `turn SLOTS CYCLE`, `mode MODES THREAD`, `picks SLOTS MODES SLEEP`, `regions REGIONS`, `access
/// SIZE THREAD CONFINED ADDRESS BYTES`, `time PERIOD CYCLE`, `moment HIGH LOW`, and the calls of
/// `steps`.
pub fn push_answer(text: &mut RowText, alloc: Global, call: &str) {
    let (name, with) = head(call);
    let n = numbers(with);
    let word = low_word(n[0]);
    match name {
        "turn" => push_turn(text, word, n[1]),
        "mode" => push_mode(text, word, thread_of(n[1])),
        "picks" => push_picks(text, word, low_word(n[1]), n[2]),
        "regions" => push_regions(text, word),
        "access" => push_access(text, &n),
        "time" => push_time(text, word, n[1]),
        "moment" => write!(text, "{:x}", moment(word, low_word(n[1]))),
        "memory" => steps::push_memory(text, alloc),
        _ => steps::push_steps(text, name, with),
    }
}

/// The word of a table of slots, the length of its frame, and whose turn a cycle is.
fn push_turn(text: &mut RowText, word: u32, cycle: u64) {
    match SlotTable::from_word(word) {
        Ok(table) => {
            let (word, len) = (table.word(), table.frame_len());
            write!(text, "{word:x} {len} {:?}", table.turn(cycle))
        }
        Err(bad) => write!(text, "{bad:?}"),
    }
}

/// The word of modes, and the mode of a thread.
fn push_mode(text: &mut RowText, word: u32, thread: u8)
    requires { thread < 8 }
{
    match Modes::from_word(word) {
        Ok(modes) => write!(text, "{:x} {}", modes.word(), modes.mode(thread)),
        Err(bad) => write!(text, "{bad:?}"),
    }
}

/// Appends the thread of a pick, or `b` for a bubble. Both calls must have the same pick; else it
/// appends `?`.
fn push_pick(text: &mut RowText, early: Pick, any: Pick) {
    match (early, any) {
        (Pick::Issue { thread }, Pick::Issue { thread: same }) if thread == same => {
            write!(text, "{thread}")
        }
        (Pick::Bubble, Pick::Bubble) => text.push_str("b"),
        _ => text.push_str("?"),
    }
}

/// The picks of eight cycles of 10 nanoseconds, from the first one on, where thread 0 sleeps until
/// a moment. It calls the pick of early cycles, which the pipeline uses, and that of any cycle.
fn push_picks(text: &mut RowText, slots: u32, modes: u32, sleep: u64) {
    let (Ok(slots), Ok(modes)) = (SlotTable::from_word(slots), Modes::from_word(modes)) else {
        return text.push_str("no words");
    };
    let sched = Sched {
        slots,
        modes,
        sleep: [sleep, 0, 0, 0, 0, 0, 0, 0],
    };
    let (mut early, mut any) = (Scheduler::new(), Scheduler::new());
    for cycle in 0..8u64 {
        let now = cycle * 10;
        let pick = early.early_pick(&sched, cycle, now);
        push_pick(text, pick, any.pick(&sched, cycle, now));
    }
}

/// The word of registers of regions.
fn push_regions(text: &mut RowText, word: u32) {
    match Regions::from_word(word) {
        Ok(regions) => write!(text, "{:x}", regions.word()),
        Err(bad) => write!(text, "{bad:?}"),
    }
}

/// Whether a thread may load, store and fetch at an address, where the data regions are thread 0's,
/// thread 1's, a shared one, and then read only ones, as those of code. It calls the forms for a
/// thread 0 to 7, which the pipeline uses, and those for any number. Both must agree.
fn push_access(text: &mut RowText, n: &[u64; 8]) {
    let code = Regions::from_word(0xcccc_cccc);
    let (Ok(i), Ok(d)) = (code, Regions::from_word(0xcccc_c810)) else {
        return text.push_str("no regions");
    };
    let size = if n[0] == 65_536 { 65_536 } else { 16_384 };
    let guard = Guard { i, d, size };
    let (thread, confined) = (thread_of(n[1]), n[2] != 0);
    let (address, bytes) = (low_word(n[3]), low_byte(n[4]));
    let load = guard.may_load_by(thread, confined, address, bytes);
    let store = guard.may_store_by(thread, address, bytes);
    let fetch = guard.may_fetch_by(thread, confined, address);
    let agree = load == guard.may_load(thread, confined, address, bytes)
        && store == guard.may_store(thread, address, bytes)
        && fetch == guard.may_fetch(thread, confined, address);
    if !agree {
        return text.push_str("the forms differ");
    }
    write!(text, "{load} {store} {fetch}")
}

/// The time of a cycle.
fn push_time(text: &mut RowText, period: u32, cycle: u64) {
    if !(1..=1000).contains(&period) || cycle > LAST_TIMED_CYCLE {
        return text.push_str("no time");
    }
    write!(text, "{}", Clock::new(period).now(cycle))
}
