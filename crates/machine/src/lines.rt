//! The lines of a dump, each by its number.

ghost use Rattle.std.specs.Prelude.{◌≡◌, ℕ, ◌+◌, ◌/◌, ◌<◌, ◌≤◌, ◌*◌, ◌==◌, []};
ghost use Rattle.std.specs.Prelude.{true, vec_len, slice_index_or, length};
ghost use Rattle.std.specs.List.{list_all};
ghost use Rattle.fp_ports.specs.PluggedPorts.{rows_of, row_at, latch_seen};
ghost use Rattle.core_model.specs.Thread.{reg_in};
ghost use Rattle.trace_print.specs.DumpLines.{latch_text, thread_words_text};
ghost use Rattle.machine.specs.DumpedState.{eight_from, traps_seen, timer_seen, words_seen};
ghost use Rattle.machine.specs.Fields.{fetched_held, decoded_held, shown_word};
ghost use Rattle.machine.specs.Fields.{executed_held, stored_held, written_held, IsTurnShown};
ghost use Rattle.pipe_model.specs.declared.stage_registers.Held.TheVariants as stage;
ghost use Rattle.machine.specs.Fields.{first_of_memory, head_line, head_lines, thread_line};
ghost use Rattle.machine.specs.MachineDump.{line_of};
ghost use Rattle.timer_unit.specs.Time.{timer_of};
ghost use Rattle.trap_unit.specs.Rows.{trap_of};
ghost use Rattle.pipeline_core.specs.Abstraction.{abstract_stages};
ghost use Rattle.pipeline_core.specs.Abstraction.{abstract_registers, abstract_state};

use crate::state::Machine;
use arrayvec::ArrayString;
use fp_ports::{Ports, latch_of};
use pipeline_core::{Decoded, Executed, Fetched, Held, Stored, Written};
use region_guard::DATA_START;
use trace_print::{
    StageContent as Shown, cycles_line, latch_line, memory_line, stage_line, thread_words_line,
    timer_line, word_line,
};

/// The lines of the machine, which come first.
const HEAD_LINES: u32 = 10;

/// The lines of a thread.
const THREAD_LINES: u32 = 7;

/// The number of the first line of the data scratchpad.
pub const FIRST_OF_MEMORY: u32 = HEAD_LINES + 8 * THREAD_LINES;

/// Shows F. In F it isn't known yet whether the turn will be flushed.
fn fetched_shown(held: &Held<Fetched>) -> Shown
    ensures { result ≡ fetched_held held.now }
{
    match *held {
        Held::Bubble => Shown::Nothing,
        Held::Flushed { thread } | Held::Issue { thread, .. } => Shown::Picked { thread },
    }
}

/// Shows a turn in E, M or W, with the address and the word of its instruction.
fn turn_shown<T: Copy, F: FnOnce(T) -> (u32, u32)>(held: Held<T>, named: F) -> Shown
    requires { (k : ℕ) (x : T) → held ≡ stage.Issue k x → F.pre named x }
    ensures { IsTurnShown (F.post named) held result }
{
    match held {
        Held::Bubble => Shown::Nothing,
        Held::Flushed { thread } => Shown::Flushed { thread },
        Held::Issue { thread, what } => {
            let (pc, word) = named(what);
            Shown::Issue { thread, pc, word }
        }
    }
}

/// Shows E.
fn executed_shown(held: Held<Executed>) -> Shown
    ensures { result ≡ executed_held held }
{
    turn_shown(held, |what| (what.pc, what.word))
}

/// Shows M.
fn stored_shown(held: Held<Stored>) -> Shown
    ensures { result ≡ stored_held held }
{
    turn_shown(held, |what| (what.pc, what.word))
}

/// Shows W.
fn written_shown(held: Held<Written>) -> Shown
    ensures { result ≡ written_held held }
{
    turn_shown(held, |what| (what.pc, what.word))
}

/// Whether all words are 0.
fn is_zero(words: &[u32; 8]) -> bool
    ensures { result ≡ list_all (λ word. word == 0) words.now }
{
    words.iter().all(|word| *word == 0)
}

/// The line of a thread's latch.
fn latch_line_of(ports: &Ports, thread: u8) -> ArrayString<96>
    requires eight { vec_len ports.now ≡ 8 }
    requires thread { thread < 8 }
    ensures { result.bytes ≡ latch_text thread (latch_seen (row_at
        (rows_of latched word_at ports.now.items) thread)) }
{
    latch_line(thread, latch_of(ports, thread))
}

impl Machine {
    /// Whether a thread is confined.
    fn is_confined(&self, thread: u8) -> bool
        requires { thread < 8 }
        ensures { result ≡ slice_index_or self.now.units.confined thread true }
    {
        self.units
            .confined
            .get(usize::from(thread))
            .copied()
            .unwrap_or(true)
    }

    /// The word that D shows: 0 if an expiry or a refused fetch will take the turn.
    fn word_shown(&self, thread: u8, what: &Decoded) -> u32
        requires { thread < 8 }
        ensures { result ≡ shown_word self.now.units.guard.size self.now.units.confined
            self.now.units.guard.i thread what.now }
    {
        let confined = self.is_confined(thread);
        if what.expired || !self.units.guard.may_fetch(thread, confined, what.pc) {
            0
        } else {
            what.word
        }
    }

    /// Shows D.
    fn decoded_shown(&self) -> Shown
        ensures { result ≡ decoded_held self.now.units.guard.size self.now.units.confined
            self.now.units.guard.i self.now.pipe.d }
    {
        match self.pipe.d {
            Held::Bubble => Shown::Nothing,
            Held::Flushed { thread } => Shown::Flushed { thread },
            Held::Issue { thread, what } => Shown::Issue {
                thread,
                pc: what.pc,
                word: self.word_shown(thread, &what),
            },
        }
    }

    /// One of the ten lines of the machine.
    #[tactic(auto, unfolding(crate::specs::Fields::head_line))]
    fn head_line(&self, k: u32) -> ArrayString<96>
        requires { k < head_lines }
        ensures { result.bytes ≡ head_line (abstract_stages self.now.pipe)
            self.now.units.guard.size
            self.now.units.confined (abstract_registers self.now.units.sched self.now.units.guard)
            self.now.at k }
    {
        match k {
            0 => cycles_line(self.at),
            1 => stage_line("F", &fetched_shown(&self.pipe.f)),
            2 => stage_line("D", &self.decoded_shown()),
            3 => stage_line("E", &executed_shown(self.pipe.e)),
            4 => stage_line("M", &stored_shown(self.pipe.m)),
            5 => stage_line("W", &written_shown(self.pipe.w)),
            6 => word_line("slots", self.units.sched.slots.word()),
            7 => word_line("modes", self.units.sched.modes.word()),
            8 => word_line("dregions", self.units.guard.d.word()),
            _ => word_line("iregions", self.units.guard.i.word()),
        }
    }

    /// Eight registers of a thread, from `first` on.
    fn registers_row(&self, thread: u8, first: u8) -> [u32; 8]
        requires thread { thread < 8 }
        requires first { first ≤ 24 }
        ensures { result ≡
            eight_from (reg_in (slice_index_or self.now.units.bank thread [])) first }
    {
        let bank = &self.units.bank;
        [
            bank.read(thread, first),
            bank.read(thread, first + 1),
            bank.read(thread, first + 2),
            bank.read(thread, first + 3),
            bank.read(thread, first + 4),
            bank.read(thread, first + 5),
            bank.read(thread, first + 6),
            bank.read(thread, first + 7),
        ]
    }

    /// The line of eight registers of a thread, from `first` on.
    fn registers_line(&self, thread: u8, name: &str, first: u8) -> ArrayString<96>
        requires thread { thread < 8 }
        requires name { length name.now ≤ 3 }
        requires first { first ≤ 24 }
        ensures { result.bytes ≡ thread_words_text thread name.now
            (eight_from (reg_in (slice_index_or self.now.units.bank thread [])) first) }
    {
        thread_words_line(thread, name, &self.registers_row(thread, first))
    }

    /// The line of a thread's trap registers.
    fn traps_line(&self, thread: u8) -> ArrayString<96>
        requires { thread < 8 }
        ensures { result.bytes ≡ traps_seen thread (trap_of self.now.units.traps thread) }
    {
        let row = self.units.traps.row(thread);
        let words = [row.mtvec, row.mscratch, row.mepc, row.mcause];
        thread_words_line(thread, "csr", &words)
    }

    /// The line of a thread's timer and its sleep moment.
    fn timer_line(&self, thread: u8) -> ArrayString<96>
        requires { thread < 8 }
        ensures { result.bytes ≡ timer_seen thread (timer_of self.now.units.timers thread)
            (slice_index_or self.now.units.sched.sleep thread 0) }
    {
        let row = self.units.timers.row(thread);
        let sleep = self.units.sched.sleep[thread as usize];
        timer_line(thread, row.armed, sleep, row.high)
    }

    /// One of the seven lines of a thread.
    #[tactic(auto, unfolding(crate::specs::Fields::thread_line))]
    fn thread_line(&self, ports: &Ports, thread: u8, k: u32) -> ArrayString<96>
        requires eight { vec_len ports.now ≡ 8 }
        requires thread { thread < 8 }
        ensures { result.bytes ≡ thread_line
            (abstract_state self.now.units (rows_of latched word_at ports.now.items)) thread k }
    {
        match k {
            0 => self.registers_line(thread, "x00", 0),
            1 => self.registers_line(thread, "x08", 8),
            2 => self.registers_line(thread, "x16", 16),
            3 => self.registers_line(thread, "x24", 24),
            4 => self.traps_line(thread),
            5 => self.timer_line(thread),
            _ => latch_line_of(ports, thread),
        }
    }

    /// Eight words of the data scratchpad, by the number of their line.
    fn words_row(&self, k: u32) -> [u32; 8]
        requires { k < self.now.units.guard.size / 32 }
        ensures { result ≡ eight_from (λ j. slice_index_or self.now.units.dmem j 0) (8 * k) }
    {
        let dmem = &self.units.dmem;
        let first = 8 * k;
        [
            dmem.word_at(first),
            dmem.word_at(first + 1),
            dmem.word_at(first + 2),
            dmem.word_at(first + 3),
            dmem.word_at(first + 4),
            dmem.word_at(first + 5),
            dmem.word_at(first + 6),
            dmem.word_at(first + 7),
        ]
    }

    /// The line of eight words of the data scratchpad, by its number; empty if all of them are 0.
    #[tactic(auto, unfolding(crate::specs::DumpedState::words_seen))]
    fn words_line(&self, k: u32) -> ArrayString<96>
        requires { k < self.now.units.guard.size / 32 }
        ensures { result.bytes ≡ words_seen self.now.units.dmem k }
    {
        let row = self.words_row(k);
        if is_zero(&row) {
            ArrayString::new()
        } else {
            memory_line(DATA_START + 32 * k, &row)
        }
    }

    /// The line with number `k`; empty if it isn't shown.
    #[tactic(auto, unfolding(crate::specs::Fields::dump_line))]
    pub(crate) fn line(&self, ports: &Ports, k: u32) -> ArrayString<96>
        requires eight { vec_len ports.now ≡ 8 }
        requires number { k < first_of_memory + self.now.units.guard.size / 32 }
        ensures { result.bytes ≡ line_of self.now (rows_of latched word_at ports.now.items) k }
    {
        if k < HEAD_LINES {
            self.head_line(k)
        } else if k < FIRST_OF_MEMORY {
            let of_threads = k - HEAD_LINES;
            let thread = (of_threads / THREAD_LINES) as u8;
            self.thread_line(ports, thread, of_threads % THREAD_LINES)
        } else {
            self.words_line(k - FIRST_OF_MEMORY)
        }
    }
}
