//! E: instructions are executed, but for late values.

ghost use Rattle.std.specs.Prelude.{◌≡◌, ◌-◌, ◌<◌, ◌%◌, ◌==◌, if◌then◌else◌};
ghost use Rattle.std.specs.Prelude.{Some, None, IfSome, is_some, true};
ghost use Rattle.core_model.specs.Issue.{execute_in};
ghost use Rattle.core_model.specs.Thread.{no_own};
ghost use Rattle.rv_decode.specs.Table.{ins};
ghost use Rattle.rv_decode.specs.Lag.{plain_lag, late_lag};
ghost use Rattle.rv_exec.specs.Access.{IsAligned};
ghost use Rattle.timer_unit.specs.Time.{most_cycles};
ghost use Rattle.hart_exec.specs.Effects.{HasWord, IsAlignedStore, IsPrintableEffect};
ghost use Rattle.hart_exec.specs.Units.{Holds, RefinesExecution, abstract_result, environment_of};
ghost use Rattle.hart_exec.specs.Units.{own_of, units_of};
ghost use Rattle.pipe_model.specs.Stages.{executed_of, redirect_of};
ghost use Rattle.pipe_model.specs.declared.stage_registers.Held.TheVariants.{Issue};
ghost use Rattle.pipe_model.specs.declared.stage_registers.Flush.TheVariants.{Decode};
ghost use Rattle.pipe_model.specs.declared.stage_registers.Flush.TheVariants.{DecodeAndFetch};
ghost use Rattle.pipeline_core.specs.Turns.{held};
ghost use Rattle.pipeline_core.specs.StageFacts.{IsPc, DecodedFits, RedirectFits};
ghost use Rattle.pipeline_core.specs.Executing.{Executes, redirect_if};

use crate::stage_register::StageRegister;
use crate::units::Units;
use core_model::CYCLES_TO_E;
use hart_exec::{ExecResult, Hart, PcWord, Sources, execute_frequent, execute_in};
use pipe_model::{Decoded, Executed, Flush, Redirect};
use rv_decode::{LATE_LAG, PLAIN_LAG};
use rv_exec::Effect;

/// The loop of [`execute_rare`], which no loop contains.
struct OutOfLine;

/// Which younger turns of the thread are flushed, by the lag of the execution; None if none are.
#[inline(always)]
fn flush_of(lag: u64) -> Option<Flush>
    ensures flush { result ≡ (if lag == plain_lag then None
        else Some (if lag == late_lag then Decode else DecodeAndFetch)) }
{
    match lag {
        PLAIN_LAG => None,
        LATE_LAG => Some(Flush::Decode),
        _ => Some(Flush::DecodeAndFetch),
    }
}

/// The content of the stage register for an executed instruction with its effect.
fn executed_of(x: &Decoded, done: &ExecResult, effect: Option<Effect>) -> Executed
    ensures { result ≡ record {
      pc = x.now.pc;
      word = done.now.word;
      a = x.now.a;
      b = x.now.b;
      address = done.now.address;
      effect = effect;
    } }
{
    Executed {
        pc: x.pc,
        word: done.word,
        a: x.a,
        b: x.b,
        address: done.address,
        effect,
    }
}

/// The issue as its event shows it: without a shown word it has no sources.
fn shown(x: &Decoded, done: &ExecResult) -> Decoded
    ensures a { result.a ≡ (if done.now.word == 0 then 0 else x.now.a) }
    ensures b { result.b ≡ (if done.now.word == 0 then 0 else x.now.b) }
    ensures pc { result.pc ≡ x.now.pc }
{
    if done.word == 0 {
        Decoded { a: 0, b: 0, ..*x }
    } else {
        *x
    }
}

/// Writes an executed instruction to `e`. The two most frequent effects have arms of their own, so
/// that only the variant's own fields are copied; their words are shown.
#[inline(always)]
fn put_executed(thread: u8, x: &Decoded, done: &ExecResult, e: &mut StageRegister<Executed>)
    requires thread { thread < 8 }
    requires shown { HasWord done.now.effect done.now.word }
    ensures { held e.new ≡ Issue thread (executed_of x.now (abstract_result no_own done.now)) }
{
    match done.effect {
        Some(Effect::Reg { rd, value }) => {
            let what = executed_of(x, done, Some(Effect::Reg { rd, value }));
            e.put(thread, what);
        }
        Some(Effect::Nothing) => {
            let what = executed_of(x, done, Some(Effect::Nothing));
            e.put(thread, what);
        }
        effect => {
            let what = executed_of(&shown(x, done), done, effect);
            e.put(thread, what);
        }
    }
}

/// Writes an executed instruction to `e`. Returns whether its thread's next turns are flushed; only
/// then `redirect` has a meaning, and the thread continues there. The stage register is written in
/// both branches, because the compiler knows the lag there.
#[inline(always)]
fn put_result(
    thread: u8,
    x: &Decoded,
    done: &ExecResult,
    e: &mut StageRegister<Executed>,
    redirect: &mut Redirect,
) -> bool
    requires thread { thread < 8 }
    requires pc { IsPc done.now.pc }
    requires shown { HasWord done.now.effect done.now.word }
    ensures e { held e.new ≡ Issue thread (executed_of x.now (abstract_result no_own done.now)) }
    ensures redirect { redirect_of thread (abstract_result no_own done.now)
        ≡ redirect_if result redirect.new }
    ensures fits { RedirectFits (redirect_if result redirect.new) }
{
    let Some(flush) = flush_of(done.lag) else {
        put_executed(thread, x, done, e);
        return false;
    };
    put_executed(thread, x, done, e);
    *redirect = Redirect {
        thread,
        pc: done.pc,
        flush,
    };
    true
}

/// Executes an instruction: any one with `RARE`, else only a frequent one. Without `RARE` it
/// returns None and changes nothing for a rare instruction, an expiry and a trap.
#[inline(always)]
fn execute_one<const RARE: bool, LOOP>(
    hart: &mut Hart<'_>,
    at: PcWord,
    expired: bool,
    s: Sources,
) -> Option<ExecResult>
    requires { at.pc % 4 ≡ 0 }
    ensures all { RARE ≡ true → is_some result ≡ true }
    ensures left { result ≡ None → units_of hart.new ≡ units_of hart.old }
    ensures holds { Holds hart.old hart.new }
    ensures refines { IfSome result (λ x. RefinesExecution hart.old hart.new x (execute_in
        (environment_of hart.old) at.pc
        (own_of hart.old) expired at.word s.a s.b)) }
    ensures pc { IfSome result (λ x. x.pc % 4 ≡ 0) }
    ensures printable { IfSome result (λ x. IsPrintableEffect x.effect) }
    ensures store { IfSome result (λ x. IsAlignedStore x.effect) }
    ensures shown { IfSome result (λ x. HasWord x.effect x.word) }
    ensures address { IfSome result (λ x. IsAligned (ins x.word) x.address) }
{
    if RARE {
        Some(execute_in::<LOOP>(hart, at, expired, s))
    } else {
        execute_frequent::<LOOP>(hart, at, expired, s)
    }
}

/// Executes an issue on its thread's units. Without `RARE` it returns None and changes no unit for
/// an expiry, a trap, and an instruction on control registers, traps or time.
#[tactic(auto, unfolding(pipe_model::specs::Stages::execute_stage))]
#[inline(always)]
fn execute_issue<const RARE: bool, LOOP>(
    units: &mut Units,
    cycle: u64,
    thread: u8,
    x: &Decoded,
    e: &mut StageRegister<Executed>,
    redirect: &mut Redirect,
) -> Option<bool>
    requires thread { thread < 8 }
    requires cycle { cycle < most_cycles }
    requires pc { IsPc x.now.pc }
    ensures all { RARE ≡ true → is_some result ≡ true }
    ensures left { result ≡ None → units.new ≡ units.old }
    ensures executed { IfSome result (λ flushes. Executes units.old units.new cycle
        (Issue thread x.now) (held e.new) (redirect_if flushes redirect.new)) }
{
    let at = PcWord {
        pc: x.pc,
        word: x.word,
    };
    let mut hart = Hart {
        thread,
        time: units.clock.now(cycle.saturating_sub(CYCLES_TO_E)),
        confined: units.is_confined(thread),
        permit: units.permit[thread as usize],
        guard: &mut units.guard,
        sched: &mut units.sched,
        timers: &mut units.timers,
        traps: &mut units.traps,
    };
    let s = Sources { a: x.a, b: x.b };
    let done = execute_one::<RARE, LOOP>(&mut hart, at, x.expired, s)?;
    Some(put_result(thread, x, &done, e, redirect))
}

/// Executes a rare issue. It is a function by itself, so that the results of the frequent issues
/// stay in registers.
#[cold]
#[inline(never)]
fn execute_rare(
    units: &mut Units,
    cycle: u64,
    thread: u8,
    x: &Decoded,
    e: &mut StageRegister<Executed>,
) -> Option<Redirect>
    requires thread { thread < 8 }
    requires cycle { cycle < most_cycles }
    requires pc { IsPc x.now.pc }
    ensures { Executes units.old units.new cycle (Issue thread x.now) (held e.new) result }
{
    let mut redirect = Redirect {
        thread,
        pc: 0,
        flush: Flush::Decode,
    };
    if execute_issue::<true, OutOfLine>(units, cycle, thread, x, e, &mut redirect).unwrap() {
        Some(redirect)
    } else {
        None
    }
}

/// Executes a rare issue by a call, and writes its redirect to `redirect`. It is a separate
/// function, so that frequent issues don't touch the memory of the call's result.
#[inline(always)]
fn execute_out_of_line(
    units: &mut Units,
    cycle: u64,
    thread: u8,
    x: &Decoded,
    e: &mut StageRegister<Executed>,
    redirect: &mut Redirect,
) -> bool
    requires thread { thread < 8 }
    requires cycle { cycle < most_cycles }
    requires pc { IsPc x.now.pc }
    ensures { Executes units.old units.new cycle (Issue thread x.now) (held e.new)
        (redirect_if result redirect.new) }
{
    let Some(to) = execute_rare(units, cycle, thread, x, e) else {
        return false;
    };
    *redirect = to;
    true
}

/// Executes an issue, out of line if it is rare.
#[inline(always)]
fn execute_turn<LOOP>(
    units: &mut Units,
    cycle: u64,
    thread: u8,
    x: &Decoded,
    e: &mut StageRegister<Executed>,
    redirect: &mut Redirect,
) -> bool
    requires thread { thread < 8 }
    requires cycle { cycle < most_cycles }
    requires pc { IsPc x.now.pc }
    ensures { Executes units.old units.new cycle (Issue thread x.now) (held e.new)
        (redirect_if result redirect.new) }
{
    match execute_issue::<false, LOOP>(units, cycle, thread, x, e, redirect) {
        Some(flushes) => flushes,
        None => execute_out_of_line(units, cycle, thread, x, e, redirect),
    }
}

/// Executes the turn that was issued two cycles ago. Returns whether its thread's next turns are
/// flushed. If so, `redirect` has the pc at which the thread continues. Changes the units of its
/// thread, and slots, modes and regions.
#[tactic(auto, unfolding(pipe_model::specs::Stages::execute_stage))]
#[inline(always)]
pub fn execute_stage<LOOP>(
    units: &mut Units,
    cycle: u64,
    d: &StageRegister<Decoded>,
    e: &mut StageRegister<Executed>,
    redirect: &mut Redirect,
) -> bool
    requires fits { DecodedFits (held d.now) }
    requires cycle { cycle < most_cycles }
    ensures { Executes units.old units.new cycle (held d.now) (held e.new)
        (redirect_if result redirect.new) }
{
    if !d.is_issue() {
        e.take_turn(d);
        return false;
    }
    execute_turn::<LOOP>(units, cycle, d.turn, &d.what, e, redirect)
}
