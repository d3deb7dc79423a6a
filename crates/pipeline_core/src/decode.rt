//! D: registers are read, with forwarding.

ghost use Rattle.std.specs.Prelude.{◌≡◌, ◌-◌, ◌<◌, ℕ, List, length};
ghost use Rattle.timer_unit.specs.Time.{is_due, time, timer_of, most_cycles};
ghost use Rattle.rv_decode.specs.Table.{ins};
ghost use Rattle.core_model.specs.Thread.{reg_in};
ghost use Rattle.core_model.specs.Issue.{source_1, source_2};
ghost use Rattle.core_model.specs.Delays.{cycles_to_d};
ghost use Rattle.regfile_bank.specs.Registers.{registers_of};
ghost use Rattle.pipe_model.specs.declared.stage_registers.Held.TheVariants.{Issue};
ghost use Rattle.pipeline_core.specs.Turns.{held};
ghost use Rattle.pipe_model.specs.Forwarding.{forward, from_m, operand};
ghost use Rattle.pipe_model.specs.Stages.{flushes_d, decode_stage};
ghost use Rattle.pipeline_core.specs.StageFacts.{EffectFits, FetchedFits, DecodedFits};
ghost use Rattle.pipeline_core.specs.StageFacts.{ExecutedFits, StoredFits};

use crate::stage_register::StageRegister;
use crate::units::Units;
use core_model::CYCLES_TO_D;
use hart_exec::sources_in;
use pipe_model::{Decoded, Executed, Fetched, Redirect, Stored};
use regfile_bank::Bank;
use rv_exec::Effect;

/// Whether a redirect flushes a thread's turn in D: every redirect of that thread does.
fn flushes_d(thread: u8, redirect: Option<Redirect>) -> bool
    ensures { result ≡ flushes_d thread redirect }
{
    match redirect {
        Some(redirect) => redirect.thread == thread,
        None => false,
    }
}

/// The forwarded value of a register if the effect writes it, else the older value.
fn newer(effect: Option<Effect>, x: u8, older: u32) -> u32
    requires x { x < 32 }
    requires fits { EffectFits effect }
    ensures { (regs : List ℕ) → length regs ≡ 31 → older ≡ reg_in regs x → result ≡
        reg_in (forward effect regs) x }
{
    match effect {
        Some(Effect::Reg { rd, value }) if rd == x && rd != 0 => value,
        _ => older,
    }
}

/// Two registers of a thread, from the bank and the turn in `m`.
fn settled(bank: &Bank, m: &StageRegister<Stored>, thread: u8, x: u8, y: u8) -> (u32, u32)
    requires thread { thread < 8 }
    requires x { x < 32 }
    requires y { y < 32 }
    requires m { StoredFits (held m.now) }
    ensures first { result.0
        ≡ reg_in (from_m thread (held m.now) (registers_of bank.now thread)) x }
    ensures second { result.1
        ≡ reg_in (from_m thread (held m.now) (registers_of bank.now thread)) y }
    ensures words { length (registers_of bank.now thread) ≡ 31 }
{
    let (a, b) = (bank.read(thread, x), bank.read(thread, y));
    if m.turn == thread {
        (newer(m.what.effect, x, a), newer(m.what.effect, y, b))
    } else {
        (a, b)
    }
}

/// Two registers of a thread, from the bank and the turns in `m` and `e`; the younger turn counts.
#[tactic(auto, using(crate::proofs::Forwarding::from_m_length))]
fn sources(
    bank: &Bank,
    m: &StageRegister<Stored>,
    e: &StageRegister<Executed>,
    thread: u8,
    x: u8,
    y: u8,
) -> (u32, u32)
    requires thread { thread < 8 }
    requires x { x < 32 }
    requires y { y < 32 }
    requires m { StoredFits (held m.now) }
    requires e { ExecutedFits (held e.now) }
    ensures first { result.0 ≡ operand bank.now (held m.now) (held e.now) thread x }
    ensures second { result.1 ≡ operand bank.now (held m.now) (held e.now) thread y }
{
    let (a, b) = settled(bank, m, thread, x, y);
    if e.turn == thread {
        (newer(e.what.effect, x, a), newer(e.what.effect, y, b))
    } else {
        (a, b)
    }
}

/// Whether a thread's armed moment was reached in the cycle before this one.
fn is_moment_reached(units: &Units, cycle: u64, thread: u8) -> bool
    requires thread { thread < 8 }
    requires cycle { cycle < most_cycles }
    ensures { result ≡ is_due (timer_of units.now.timers thread).armed
        (time units.now.clock (cycle - cycles_to_d)) }
{
    units
        .timers
        .due(thread, units.clock.now(cycle.saturating_sub(CYCLES_TO_D)))
}

/// An issue with its sources, and whether its thread's armed moment was reached when it was issued,
/// in the cycle before this one.
#[inline(always)]
fn decoded(
    units: &Units,
    m: &StageRegister<Stored>,
    e: &StageRegister<Executed>,
    cycle: u64,
    thread: u8,
    x: &Fetched,
) -> Decoded
    requires m { StoredFits (held m.now) }
    requires e { ExecutedFits (held e.now) }
    requires cycle { cycle < most_cycles }
    requires thread { thread < 8 }
    ensures { result ≡ record {
      pc = x.now.pc;
      word = x.now.word;
      expired = is_due (timer_of units.now.timers thread).armed
          (time units.now.clock (cycle - cycles_to_d));
      a = operand units.now.bank (held m.now) (held e.now) thread (source_1 (ins x.now.word));
      b = operand units.now.bank (held m.now) (held e.now) thread (source_2 (ins x.now.word));
    } }
{
    let (rs1, rs2) = sources_in(x.word);
    let (a, b) = sources(&units.bank, m, e, thread, rs1, rs2);
    Decoded {
        pc: x.pc,
        word: x.word,
        expired: is_moment_reached(units, cycle, thread),
        a,
        b,
    }
}

/// Writes an issue to `d`, field by field, so that no padding is written.
#[inline(always)]
fn put_decoded(thread: u8, what: Decoded, d: &mut StageRegister<Decoded>)
    requires { thread < 8 }
    ensures { held d.new ≡ Issue thread what }
{
    d.turn = thread;
    d.what.pc = what.pc;
    d.what.word = what.word;
    d.what.expired = what.expired;
    d.what.a = what.a;
    d.what.b = what.b;
}

/// Writes the turn to `d`, flushed or with its sources. It also writes whether the thread's armed
/// moment was reached when the turn was issued, in the cycle before this one. Inlined, as
/// `fetch_stage` is.
#[tactic(auto, unfolding(pipe_model::specs::Stages::decode_stage))]
#[inline(always)]
pub fn decode_stage(
    units: &Units,
    m: &StageRegister<Stored>,
    e: &StageRegister<Executed>,
    redirect: Option<Redirect>,
    cycle: u64,
    f: &StageRegister<Fetched>,
    d: &mut StageRegister<Decoded>,
)
    requires m { StoredFits (held m.now) }
    requires e { ExecutedFits (held e.now) }
    requires f { FetchedFits (held f.now) }
    requires cycle { cycle < most_cycles }
    ensures stage { held d.new ≡ decode_stage units.now.bank (held m.now) (held e.now)
        units.now.timers redirect (time units.now.clock (cycle - cycles_to_d)) (held f.now) }
    ensures fits { DecodedFits (held d.new) }
{
    if !f.is_issue() {
        d.take_turn(f);
    } else if flushes_d(f.turn, redirect) {
        d.flush(f.turn);
    } else {
        let what = decoded(units, m, e, cycle, f.turn, &f.what);
        put_decoded(f.turn, what, d);
    }
}
