//! The outcomes of an instruction.

ghost use Rattle.std.specs.Prelude.{◌≡◌, ◌<◌, ◌%◌, IfSome, Some, None};
ghost use Rattle.std.specs.Prelude.{is_some, true, false, if◌then◌else◌};
ghost use Rattle.rv_decode.specs.Lag.{lag, plain_lag, redirect_lag};
ghost use Rattle.core_model.specs.Thread.{reg_effect};
ghost use Rattle.core_model.specs.Traps.{trapped};
ghost use Rattle.core_model.specs.Outcomes.{plus, advance, write, go_to, branch};
ghost use Rattle.rv_exec.specs.Line.{IsPrintable};
ghost use Rattle.rv_exec.specs.declared.outcome.Effect.TheVariants.{Nothing};
ghost use Rattle.hart_exec.specs.Effects.{HasWord};
ghost use Rattle.hart_exec.specs.Results.{IsPlain};
ghost use Rattle.hart_exec.specs.Units.{Holds, RefinesExecution, RefinesInPlace, own_of, units_of};

use crate::hart::Hart;
use crate::result::{ExecResult, PcWord};
use rv_decode::{Ins, REDIRECT_LAG, lag_of};
use rv_exec::Effect;

/// The effect of a register's write: none on x0.
#[inline(always)]
pub fn write_to(rd: u8, value: u32) -> Effect
    requires { rd < 32 }
    ensures effect { result ≡ reg_effect rd value }
    ensures printable { IsPrintable result }
{
    if rd == 0 {
        Effect::Nothing
    } else {
        Effect::Reg { rd, value }
    }
}

/// The thread goes on to the next word.
#[inline(always)]
pub fn advance(at: PcWord, lag: u64, effect: Effect) -> ExecResult
    ensures { result ≡ record {
      pc = plus at.pc 4;
      lag = lag;
      word = at.word;
      address = 0;
      effect = Some effect;
    } }
{
    ExecResult {
        pc: at.pc.wrapping_add(4),
        lag,
        word: at.word,
        address: 0,
        effect: Some(effect),
    }
}

/// A trap: it saves pc and cause, and goes to mtvec.
#[inline(always)]
pub fn trap(hart: &mut Hart<'_>, at: PcWord, cause: u8) -> ExecResult
    requires { at.pc % 4 ≡ 0 }
    ensures holds { Holds hart.old hart.new }
    ensures refines { RefinesExecution hart.old hart.new result
        (trapped at.pc (own_of hart.old) at.word cause) }
    ensures plain { IsPlain at.word result }
    ensures shown { HasWord result.effect result.word }
{
    let target = hart.traps.enter(hart.thread, cause, at.pc);
    ExecResult {
        pc: target,
        lag: REDIRECT_LAG,
        word: at.word,
        address: 0,
        effect: Some(Effect::Trap { cause, target }),
    }
}

/// Traps with `RARE`. Without it, returns None and changes nothing.
#[inline(always)]
pub fn trap_if_rare<const RARE: bool>(
    hart: &mut Hart<'_>,
    at: PcWord,
    cause: u8,
) -> Option<ExecResult>
    requires { at.pc % 4 ≡ 0 }
    ensures all { RARE ≡ true → is_some result ≡ true }
    ensures left { result ≡ None → units_of hart.new ≡ units_of hart.old }
    ensures holds { Holds hart.old hart.new }
    ensures refines { IfSome result (λ x. RefinesExecution hart.old hart.new x
        (trapped at.pc (own_of hart.old) at.word cause)) }
    ensures frequent { RARE ≡ false → result ≡ None }
    ensures plain { IfSome result (λ x. IsPlain at.word x) }
    ensures shown { IfSome result (λ x. HasWord x.effect x.word) }
{
    if RARE {
        Some(trap(hart, at, cause))
    } else {
        None
    }
}

/// An instruction that does nothing but go on to the next word.
#[inline(always)]
pub fn do_nothing(at: PcWord, i: &Ins) -> ExecResult
    requires { at.pc % 4 ≡ 0 }
    ensures refines { RefinesInPlace result (λ own. advance at.pc own at.word
        (lag i.now false false) Nothing) }
    ensures plain { IsPlain at.word result }
{
    advance(at, lag_of(i, false, false), Effect::Nothing)
}

/// A value for a register.
#[inline(always)]
pub fn write(at: PcWord, i: &Ins, rd: u8, value: u32) -> ExecResult
    requires rd { rd < 32 }
    requires pc { at.pc % 4 ≡ 0 }
    ensures refines { RefinesInPlace result (λ own. write at.pc own at.word
        (lag i.now false false) rd value) }
    ensures plain { IsPlain at.word result }
{
    advance(at, lag_of(i, false, false), write_to(rd, value))
}

/// A jump, with its value for a register.
#[inline(always)]
pub fn jump(at: PcWord, i: &Ins, target: u32, rd: u8, value: u32) -> ExecResult
    requires rd { rd < 32 }
    requires target { target % 4 ≡ 0 }
    requires lag { lag i.now false false ≡ redirect_lag }
    ensures refines { RefinesInPlace result (λ own. go_to own at.word target
        (reg_effect rd value)) }
    ensures plain { IsPlain at.word result }
{
    ExecResult {
        pc: target,
        lag: lag_of(i, false, false),
        word: at.word,
        address: 0,
        effect: Some(write_to(rd, value)),
    }
}

/// A branch, taken or not.
#[tactic(auto, unfolding(core_model::specs::Outcomes::branch))]
#[inline(always)]
pub fn branch_on(at: PcWord, i: &Ins, taken: bool, target: u32) -> ExecResult
    requires pc { at.pc % 4 ≡ 0 }
    requires target { taken ≡ true → target % 4 ≡ 0 }
    requires lag { lag i.now taken false ≡ (if taken then redirect_lag else plain_lag) }
    ensures refines { RefinesInPlace result (λ own. branch at.pc own at.word taken target) }
    ensures plain { IsPlain at.word result }
{
    ExecResult {
        pc: if taken { target } else { at.pc.wrapping_add(4) },
        lag: lag_of(i, taken, false),
        word: at.word,
        address: 0,
        effect: Some(Effect::Nothing),
    }
}

/// MRET: the thread continues at mepc.
#[inline(always)]
pub fn return_from_trap(hart: &Hart<'_>, at: PcWord, i: &Ins) -> ExecResult
    requires { lag i.now false false ≡ redirect_lag }
    ensures refines { RefinesExecution hart.now hart.now result (go_to (own_of hart.now) at.word
        (own_of hart.now).trap.mepc Nothing) }
    ensures plain { IsPlain at.word result }
{
    ExecResult {
        pc: hart.traps.leave(hart.thread),
        lag: lag_of(i, false, false),
        word: at.word,
        address: 0,
        effect: Some(Effect::Nothing),
    }
}
