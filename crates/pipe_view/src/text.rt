//! A line of text for each cycle.

use crate::cycle::{Cycle, CycleStart, ThreadState, is_flushed, thread_of};
use pipeline_core::{Held, Stored};
use rv_disasm::text_at;
use slot_table::Turn;
use std::io;
use std::io::Write;

/// The name of a slot: `T0` to `T7`, `S` for the soft threads, `-` for none.
fn slot_name(slot: Turn) -> &'static str {
    match slot {
        Turn::Thread(0) => "T0",
        Turn::Thread(1) => "T1",
        Turn::Thread(2) => "T2",
        Turn::Thread(3) => "T3",
        Turn::Thread(4) => "T4",
        Turn::Thread(5) => "T5",
        Turn::Thread(6) => "T6",
        Turn::Thread(_) => "T7",
        Turn::Soft => "S",
        Turn::Nobody => "-",
    }
}

/// The content of a line.
#[derive(Clone, Copy, PartialEq, Eq)]
pub enum OutputForm {
    /// The turns of a cycle.
    Turns,
    /// The turns of a cycle, and the state at its start.
    TurnsAndStates,
}

/// Lines of text: one that names the columns, and one for each cycle.
#[derive(Drop)]
pub(crate) struct Rows {
    form: OutputForm,
    /// The last start whose state was put, if there is one.
    last: Option<CycleStart>,
}

impl Rows {
    /// Puts the line that names the columns. If states are put, the time of a cycle in nanoseconds
    /// follows a tab.
    ///
    /// # Errors
    ///
    /// The writer's.
    pub(crate) fn begin<W: Write>(out: &mut W, form: OutputForm, period: u64) -> io::Result<Rows> {
        out.write_all(b"     cycle            ns slot  F  D  E  M  W  turn")?;
        if form == OutputForm::TurnsAndStates {
            write!(out, "\t{period}")?;
        }
        out.write_all(b"\n")?;
        Ok(Rows { form, last: None })
    }

    /// Puts the line of a cycle. If states are put, the state follows a tab, unless it is that of
    /// the line before.
    ///
    /// # Errors
    ///
    /// The writer's.
    pub(crate) fn put<W: Write>(&mut self, out: &mut W, cycle: &Cycle) -> io::Result<()> {
        put_turns(out, cycle)?;
        if self.form == OutputForm::TurnsAndStates && !self.has_put(&cycle.start) {
            put_state(out, &cycle.start)?;
            self.last = Some(cycle.start);
        }
        out.write_all(b"\n")
    }

    /// Whether the state of a start is the one that was put last.
    fn has_put(&self, start: &CycleStart) -> bool {
        match &self.last {
            Some(last) => last.modes == start.modes && last.threads == start.threads,
            None => false,
        }
    }
}

/// Puts the turns of a cycle: its number, its time in nanoseconds, its slot, the thread in each of
/// the five stages, and the picked turn.
fn put_turns<W: Write>(out: &mut W, cycle: &Cycle) -> io::Result<()> {
    let number = cycle.start.cycle;
    let time = cycle.start.time;
    let slot = slot_name(cycle.start.slot);
    write!(out, "{number:>10} {time:>13} {slot:<4} ")?;
    put_stages(out, &cycle.turns)?;
    put_turn(out, cycle)
}

/// Puts a tab, the modes, and the state of each thread.
fn put_state<W: Write>(out: &mut W, start: &CycleStart) -> io::Result<()> {
    let modes = start.modes;
    write!(out, "\t{modes:04x}")?;
    for state in &start.threads {
        put_thread(out, state)?;
    }
    Ok(())
}

/// Puts the state of a thread: 1 if it is asleep, its armed moment, its latch, and its input.
fn put_thread<W: Write>(out: &mut W, state: &ThreadState) -> io::Result<()> {
    let asleep = u8::from(state.asleep);
    write!(out, " {asleep},")?;
    match state.armed {
        Some(moment) => write!(out, "{moment},")?,
        None => out.write_all(b"-,")?,
    }
    match state.latch {
        Some(word) => write!(out, "{word:08x},")?,
        None => out.write_all(b"-,")?,
    }
    let input = state.input;
    write!(out, "{input:08x}")
}

/// Puts the content of the five stages.
fn put_stages<W: Write>(out: &mut W, turns: &[Held<Stored>; 5]) -> io::Result<()> {
    for turn in turns {
        put_stage(out, turn)?;
    }
    Ok(())
}

/// Puts the content of a stage: the thread, with an `x` if its turn is flushed, or a full stop.
fn put_stage<W: Write>(out: &mut W, turn: &Held<Stored>) -> io::Result<()> {
    let Some(thread) = thread_of(turn) else {
        return out.write_all(b" . ");
    };
    let mark = if is_flushed(turn) { "x" } else { " " };
    write!(out, " {thread}{mark}")
}

/// Puts the picked turn of a cycle: its thread, and its address, word, instruction and effect, or
/// that it is flushed.
fn put_turn<W: Write>(out: &mut W, cycle: &Cycle) -> io::Result<()> {
    let outcome = cycle.outcome();
    match *cycle.turn() {
        Held::Bubble => out.write_all(b" -"),
        Held::Flushed { thread } => write!(out, " T{thread} {outcome}"),
        Held::Issue { thread, what } => {
            let pc = what.pc;
            let word = what.word;
            let instruction = text_at(pc, word);
            let text = instruction.as_str();
            write!(out, " T{thread} {pc:08x} {word:08x} {text:<26} {outcome}")
        }
    }
}
