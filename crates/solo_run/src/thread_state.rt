//! The thread, and one whole instruction of it.

ghost use Rattle.std.specs.Prelude.{◌≡◌, ◌/◌, ◌<◌, ◌^◌, ◌≤◌, ◌%◌, false, length, replicate};
ghost use Rattle.core_model.specs.Thread.{fresh};
ghost use Rattle.core_model.specs.Issue.{issue, is_load, execute_word, effect_of};
ghost use Rattle.core_model.specs.Memory.{code_at};
ghost use Rattle.core_model.specs.Solo.{contents_by};
ghost use Rattle.hart_exec.specs.Effects.{IsPrintableEffect, IsAlignedStore};
ghost use Rattle.rv_decode.specs.Table.{ins};
ghost use Rattle.rv_exec.specs.Access.{IsAligned};
ghost use Rattle.rv_decode.specs.Lag.{redirect_lag};

use crate::memory::{code_word, data_word};
use crate::registers::Registers;
use crate::shown::Shown;
use hart_exec::{ExecResult, Hart, PcWord, execute_in, finish};
use region_guard::Guard;
use rv_decode::{Ins, decode};
use rv_exec::Effect;
use scratchpad::Spm;
use slot_scheduler::{Modes, Sched};
use slot_table::SlotTable;
use timer_unit::Timers;
use trap_unit::Traps;

/// The loop of a run of one thread.
struct Solo;

/// A thread between two of its instructions, with the units that these work on. It uses its own
/// rows of the units. It is confined, and has no permit to read or write slots, modes and regions.
#[derive(Clone, Copy)]
pub struct ThreadState {
    /// The thread's number, 0 to 7.
    pub thread: u8,
    /// The address of its next word, in bytes.
    pub pc: u32,
    /// The first cycle in which its next instruction may issue.
    pub ready: u64,
    /// x1 to x31.
    pub registers: Registers,
    /// The kind of each region for it.
    pub guard: Guard,
    /// The moment until which it sleeps.
    pub sched: Sched,
    /// Its armed moment, and the latched high word of the time.
    pub timers: Timers,
    /// Its trap registers.
    pub traps: Traps,
    ghost eight: { thread < 8 },
    ghost aligned: { pc % 4 ≡ 0 },
    ghost rows: { (length timers ≡ 8) × (length traps ≡ 8) × (length sched.sleep ≡ 8) },
}

/// The word of an issue, and its effect if it has an event.
#[derive(Clone, Copy)]
pub struct Issued {
    /// The word that the event shows: 0 if an expiry or a refused fetch took the turn.
    pub word: u32,
    /// The effect of the event; None for a DU that waits.
    pub effect: Option<Effect>,
}

impl ThreadState {
    ghost use Rattle.hart_exec.specs.Units.{abstract_result};
    ghost use Rattle.solo_run.specs.ThreadState.{abstract_thread, abstract_issue};
    ghost use Rattle.solo_run.specs.ThreadState.{abstract_environment, own_of};

    /// A thread at its entry, with the region registers of its view.
    pub fn new(thread: u8, entry: u32, guard: Guard) -> ThreadState
        requires thread { thread < 8 }
        requires entry { entry % 4 ≡ 0 }
        ensures state { abstract_thread result ≡ fresh entry }
        ensures thread { result.thread ≡ thread }
        ensures guard { result.guard ≡ guard }
    {
        ThreadState {
            thread,
            pc: entry,
            ready: 0,
            registers: Registers::new(),
            guard,
            sched: idle(),
            timers: Timers::new(),
            traps: Traps::new(),
        }
    }

    /// Executes the word at the pc at a time, without its late value.
    #[tactic(auto, unfolding(core_model::specs::Issue::execute_word))]
    fn execute_word(&mut self, now: u64, i: &Spm) -> ExecResult
        requires { length i.now ≡ self.old.guard.size / 4 }
        ensures did { abstract_result (own_of self.new) result ≡
            execute_word (abstract_environment now self.old) (code_at self.old.guard.size i.now
            self.old.pc)
            (abstract_thread self.old) }
        ensures thread { self.new.thread ≡ self.old.thread }
        ensures registers { self.new.registers ≡ self.old.registers }
        ensures guard { self.new.guard ≡ self.old.guard }
        ensures pc { result.pc % 4 ≡ 0 }
        ensures lag { result.lag ≤ redirect_lag }
        ensures address { IsAligned (ins result.word) result.address }
        ensures printable { IsPrintableEffect result.effect }
        ensures store { IsAlignedStore result.effect }
    {
        let at = PcWord {
            pc: self.pc,
            word: code_word(&self.guard, i, self.pc),
        };
        let sources = self.registers.sources(&decode(at.word));
        let expired = self.timers.due(self.thread, now);
        let mut hart = Hart {
            thread: self.thread,
            time: now,
            confined: true,
            permit: false,
            guard: &mut self.guard,
            sched: &mut self.sched,
            timers: &mut self.timers,
            traps: &mut self.traps,
        };
        execute_in::<Solo>(&mut hart, at, expired, sources)
    }

    /// The effect of an executed instruction, with its late value. Only a load reads a device.
    #[tactic(auto, unfolding(core_model::specs::Issue::effect_of))]
    fn late<W: Shown>(
        &self,
        i: &Spm,
        d: &Spm,
        shown: &mut W,
        cycle: u64,
        x: &ExecResult,
    ) -> Option<Effect>
        requires i { length i.now ≡ self.now.guard.size / 4 }
        requires d { length d.now ≡ self.now.guard.size / 4 }
        requires address { IsAligned (ins x.now.word) x.now.address }
        requires printable { IsPrintableEffect x.now.effect }
        requires store { IsAlignedStore x.now.effect }
        ensures effect { result ≡ effect_of (contents_by self.now.guard.size i.now d.now
            (W.word_at shown.old cycle)) self.now.registers
            (abstract_result (own_of self.now) x.now) }
        ensures printable { IsPrintableEffect result }
        ensures store { IsAlignedStore result }
        ensures shown { W.word_at shown.new ≡ W.word_at shown.old }
        ensures kept { W.kept shown.new ≡ W.kept shown.old }
        ensures untouched { is_load (ins x.now.word) ≡ false → shown.new ≡ shown.old }
    {
        let instruction = decode(x.word);
        let loaded = match instruction {
            Ins::Load { .. } => data_word(&self.guard, i, d, shown, cycle, x.address),
            _ => 0,
        };
        finish(
            x.effect,
            &instruction,
            loaded,
            x.address,
            self.registers.sources(&instruction),
        )
    }

    /// One whole instruction, in a cycle at a time.
    #[tactic(auto, unfolding(core_model::specs::Issue::issue))]
    pub fn issue<W: Shown>(
        &mut self,
        now: u64,
        i: &Spm,
        d: &Spm,
        shown: &mut W,
        cycle: u64,
    ) -> Issued
        requires cycle { cycle < 2 ^ 63 }
        requires i { length i.now ≡ self.old.guard.size / 4 }
        requires d { length d.now ≡ self.old.guard.size / 4 }
        ensures done { abstract_issue self.new result ≡
            issue (abstract_environment now self.old) (contents_by self.old.guard.size i.now d.now
            (W.word_at shown.old cycle)) cycle (abstract_thread self.old) }
        ensures thread { self.new.thread ≡ self.old.thread }
        ensures guard { self.new.guard ≡ self.old.guard }
        ensures printable { IsPrintableEffect result.effect }
        ensures store { IsAlignedStore result.effect }
        ensures shown { W.word_at shown.new ≡ W.word_at shown.old }
        ensures kept { W.kept shown.new ≡ W.kept shown.old }
    {
        let x = self.execute_word(now, i);
        let effect = self.late(i, d, shown, cycle, &x);
        self.pc = x.pc;
        self.ready = cycle + x.lag;
        self.registers.apply(effect);
        Issued {
            word: x.word,
            effect,
        }
    }
}

/// A scheduling state in which no thread has ever slept. Slots and modes are irrelevant.
fn idle() -> Sched
    ensures { result.sleep ≡ replicate 8 0 }
{
    Sched {
        slots: SlotTable::from_word(0xffff_ffff).unwrap(),
        modes: Modes::from_word(0).unwrap(),
        sleep: [0; 8],
    }
}
