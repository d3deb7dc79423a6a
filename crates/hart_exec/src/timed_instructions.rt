//! Instructions that read the time, wait, and arm a moment.

ghost use Rattle.std.specs.Prelude.{◌≡◌, ◌<◌, ◌%◌, ◌/◌, ◌^◌, Some, None, false};
ghost use Rattle.rv_decode.specs.Lag.{lag, redirect_lag};
ghost use Rattle.core_model.specs.Outcomes.{advance, write};
ghost use Rattle.core_model.specs.Waiting.{delay, wait, with_armed, with_high};
ghost use Rattle.rv_exec.specs.declared.outcome.Effect.TheVariants.{Nothing};
ghost use Rattle.hart_exec.specs.Results.{IsPlain};
ghost use Rattle.hart_exec.specs.Units.{Holds, RefinesExecution, RefinesInPlace, own_of};

use crate::hart::Hart;
use crate::outcomes::{advance, do_nothing, write};
use crate::result::{ExecResult, PcWord};
use rv_decode::{Ins, lag_of};
use rv_exec::Effect;

/// GT: the low word of the time goes to a register, and the high word is latched.
#[inline(always)]
pub fn read_low(hart: &mut Hart<'_>, at: PcWord, i: &Ins, rd: u8) -> ExecResult
    requires rd { rd < 32 }
    requires pc { at.pc % 4 ≡ 0 }
    ensures holds { Holds hart.old hart.new }
    ensures refines { RefinesExecution hart.old hart.new result (write at.pc
        (with_high (own_of hart.old) (hart.old.time / 2 ^ 32)) at.word (lag i.now false false) rd
        (hart.old.time % 2 ^ 32)) }
    ensures plain { IsPlain at.word result }
{
    let low = hart.timers.get_low(hart.thread, hart.time);
    write(at, i, rd, low)
}

/// GTH: the latched high word goes to a register.
#[inline(always)]
pub fn read_high(hart: &Hart<'_>, at: PcWord, i: &Ins, rd: u8) -> ExecResult
    requires rd { rd < 32 }
    requires pc { at.pc % 4 ≡ 0 }
    ensures refines { RefinesExecution hart.now hart.now result (write at.pc (own_of hart.now)
        at.word (lag i.now false false) rd (own_of hart.now).timer.high) }
    ensures plain { IsPlain at.word result }
{
    write(at, i, rd, hart.timers.get_high(hart.thread))
}

/// DU: the thread stays at its word until the moment.
#[tactic(auto, unfolding(core_model::specs::Waiting::delay))]
#[inline(always)]
pub fn delay_until(at: PcWord, i: &Ins, now: u64, until: u64) -> ExecResult
    requires pc { at.pc % 4 ≡ 0 }
    requires lag { lag i.now false false ≡ redirect_lag }
    ensures refines { RefinesInPlace result (λ own. delay now at.pc own at.word until) }
    ensures plain { IsPlain at.word result }
{
    if until <= now {
        return do_nothing(at, i);
    }
    ExecResult {
        pc: at.pc,
        lag: lag_of(i, false, false),
        word: at.word,
        address: 0,
        effect: None,
    }
}

/// WU: the thread sleeps until the moment, or until its armed one where that is earlier.
#[tactic(auto, unfolding(core_model::specs::Waiting::wait))]
#[inline(always)]
pub fn wait_until(hart: &mut Hart<'_>, at: PcWord, i: &Ins, until: u64) -> ExecResult
    requires pc { at.pc % 4 ≡ 0 }
    requires lag { lag i.now false false ≡ redirect_lag }
    ensures holds { Holds hart.old hart.new }
    ensures refines { RefinesExecution hart.old hart.new result (wait hart.old.time at.pc
        (own_of hart.old) at.word until) }
    ensures plain { IsPlain at.word result }
{
    if until <= hart.time {
        return do_nothing(at, i);
    }
    let moment = match hart.timers.armed(hart.thread) {
        Some(armed) => until.min(armed),
        None => until,
    };
    hart.sched.sleep[hart.thread as usize] = moment;
    advance(at, lag_of(i, false, false), Effect::Wait)
}

/// EE: the moment is armed, in place of one that was armed before.
#[inline(always)]
pub fn arm(hart: &mut Hart<'_>, at: PcWord, i: &Ins, moment: u64) -> ExecResult
    requires pc { at.pc % 4 ≡ 0 }
    requires lag { lag i.now false false ≡ redirect_lag }
    ensures holds { Holds hart.old hart.new }
    ensures refines { RefinesExecution hart.old hart.new result (advance at.pc
        (with_armed (own_of hart.old) (Some moment)) at.word redirect_lag Nothing) }
    ensures plain { IsPlain at.word result }
{
    hart.timers.arm(hart.thread, moment);
    do_nothing(at, i)
}

/// DE: nothing is armed any more.
#[inline(always)]
pub fn disarm(hart: &mut Hart<'_>, at: PcWord, i: &Ins) -> ExecResult
    requires pc { at.pc % 4 ≡ 0 }
    requires lag { lag i.now false false ≡ redirect_lag }
    ensures holds { Holds hart.old hart.new }
    ensures refines { RefinesExecution hart.old hart.new result (advance at.pc
        (with_armed (own_of hart.old) None) at.word redirect_lag Nothing) }
    ensures plain { IsPlain at.word result }
{
    hart.timers.disarm(hart.thread);
    do_nothing(at, i)
}
