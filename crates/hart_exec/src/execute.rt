//! The execution of an instruction, but for a late value.

ghost use Rattle.std.specs.Prelude.{◌≡◌, ◌%◌, IfSome, None, is_some, true, false};
ghost use Rattle.rv_decode.specs.Table.{ins};
ghost use Rattle.rv_decode.specs.Range.{InRange};
ghost use Rattle.rv_exec.specs.Access.{IsAligned};
ghost use Rattle.core_model.specs.Issue.{execute_untrapped, run_at, execute_in};
ghost use Rattle.core_model.specs.Waiting.{with_armed};
ghost use Rattle.core_model.specs.Traps.{trapped};
ghost use Rattle.rv_exec.specs.TrapCauses.{cause_expiry};
ghost use Rattle.hart_exec.specs.Effects.{HasWord, HasTarget, is_rare, is_frequent};
ghost use Rattle.hart_exec.specs.Results.{IsPlain, IsWellFormed};
ghost use Rattle.hart_exec.specs.Units.{Holds, RefinesExecution, environment_of, own_of, units_of};

use crate::access_checks::{load, store};
use crate::csr::{Access, access_csr};
use crate::hart::Hart;
use crate::outcomes::{branch_on, do_nothing, jump, return_from_trap, trap, trap_if_rare, write};
use crate::result::{ExecResult, PcWord, Sources};
use crate::timed_instructions::{arm, delay_until, disarm, read_high, read_low, wait_until};
use rv_decode::{Ins, decode};
use rv_exec::{Outcome, cause, execute};
use timer_unit::moment;

/// Whether an instruction is on control registers, traps or time. Few are.
#[inline(always)]
fn is_rare(i: &Ins) -> bool
    ensures { result ≡ is_rare i.now }
{
    matches!(
        *i,
        Ins::Mret
            | Ins::Csr { .. }
            | Ins::Gt { .. }
            | Ins::Gth { .. }
            | Ins::Du { .. }
            | Ins::Wu { .. }
            | Ins::Ee { .. }
            | Ins::De
    )
}

/// Executes an instruction whose result has no trap. Without `RARE` it returns None, and changes
/// nothing, for an instruction on control registers, traps or time and for a refused access.
#[tactic(auto, unfolding(crate::proofs::Opened::plain), using(crate::proofs::Zero::aligned_zero))]
#[inline(always)]
fn execute_untrapped<const RARE: bool>(
    hart: &mut Hart<'_>,
    at: PcWord,
    s: Sources,
    o: &Outcome,
    i: &Ins,
) -> Option<ExecResult>
    requires range { InRange i.now }
    requires pc { at.pc % 4 ≡ 0 }
    requires target { HasTarget i.now o.now }
    requires aligned { IsAligned i.now o.now.address }
    ensures all { RARE ≡ true → is_some result ≡ true }
    ensures left { result ≡ None → units_of hart.new ≡ units_of hart.old }
    ensures holds { Holds hart.old hart.new }
    ensures refines { IfSome result (λ x. RefinesExecution hart.old hart.new x (execute_untrapped
        (environment_of hart.old) at.pc (own_of hart.old) at.word s.a s.b o.now i.now)) }
    ensures frequent { RARE ≡ false → is_some result ≡ is_frequent i.now (execute_untrapped
        (environment_of hart.old) at.pc (own_of hart.old) at.word s.a s.b o.now i.now) }
    ensures fits { IfSome result (λ x. IsWellFormed x) }
    ensures word { IfSome result (λ x. x.word ≡ at.word) }
    ensures address { IfSome result (λ x. IsAligned i.now x.address) }
{
    if !RARE && is_rare(i) {
        return None;
    }
    match *i {
        Ins::Lui { rd, .. }
        | Ins::Auipc { rd, .. }
        | Ins::OpImm { rd, .. }
        | Ins::Shift { rd, .. }
        | Ins::Op { rd, .. } => Some(write(at, i, rd, o.value)),
        Ins::Jal { rd, .. } | Ins::Jalr { rd, .. } => Some(jump(at, i, o.target, rd, o.value)),
        Ins::Branch { .. } => Some(branch_on(at, i, o.taken, o.target)),
        Ins::Load { op, .. } => load::<RARE>(hart, at, i, op, o.address),
        Ins::Store { op, .. } => store::<RARE>(hart, at, i, op, o.address, s.b),
        Ins::Muldiv { .. } | Ins::Fence { .. } => Some(do_nothing(at, i)),
        Ins::Mret => Some(return_from_trap(hart, at, i)),
        Ins::Csr { op, rd, csr, src } => {
            let wanted = Access::of(op, src, s.a);
            Some(access_csr(hart, at, i, rd, csr, wanted))
        }
        Ins::Gt { rd } => Some(read_low(hart, at, i, rd)),
        Ins::Gth { rd } => Some(read_high(hart, at, i, rd)),
        Ins::Du { .. } => Some(delay_until(at, i, hart.time, moment(s.a, s.b))),
        Ins::Wu { .. } => Some(wait_until(hart, at, i, moment(s.a, s.b))),
        Ins::Ee { .. } => Some(arm(hart, at, i, moment(s.a, s.b))),
        Ins::De => Some(disarm(hart, at, i)),
        Ins::Ecall | Ins::Ebreak | Ins::Illegal { .. } => {
            trap_if_rare::<RARE>(hart, at, cause::ILLEGAL)
        }
    }
}

/// What an instruction does; a trap of its result comes first.
#[tactic(auto, unfolding(core_model::specs::Issue::run_at), using(crate::proofs::Targets::steps))]
#[inline(always)]
fn run_at<const RARE: bool>(
    hart: &mut Hart<'_>,
    at: PcWord,
    s: Sources,
    i: &Ins,
) -> Option<ExecResult>
    requires range { InRange i.now }
    requires pc { at.pc % 4 ≡ 0 }
    ensures all { RARE ≡ true → is_some result ≡ true }
    ensures left { result ≡ None → units_of hart.new ≡ units_of hart.old }
    ensures holds { Holds hart.old hart.new }
    ensures refines { IfSome result (λ x. RefinesExecution hart.old hart.new x (run_at
        (environment_of hart.old) at.pc
        (own_of hart.old) at.word s.a s.b i.now)) }
    ensures frequent { RARE ≡ false → is_some result ≡ is_frequent i.now (run_at
        (environment_of hart.old) at.pc (own_of hart.old) at.word s.a s.b i.now) }
    ensures fits { IfSome result (λ x. IsWellFormed x) }
    ensures word { IfSome result (λ x. x.word ≡ at.word) }
    ensures address { IfSome result (λ x. IsAligned i.now x.address) }
{
    let o = execute(i, at.pc, s.a, s.b);
    match o.trap {
        Some(cause) => trap_if_rare::<RARE>(hart, at, cause),
        None => execute_untrapped::<RARE>(hart, at, s, &o, i),
    }
}

/// An expiry: it disarms, and is a trap of cause 24 that shows no word.
#[inline(always)]
fn expire(hart: &mut Hart<'_>, at: PcWord) -> ExecResult
    requires { at.pc % 4 ≡ 0 }
    ensures holds { Holds hart.old hart.new }
    ensures refines { RefinesExecution hart.old hart.new result (trapped at.pc
        (with_armed (own_of hart.old) None) 0 cause_expiry) }
    ensures plain { IsPlain 0 result }
    ensures shown { HasWord result.effect result.word }
{
    hart.timers.disarm(hart.thread);
    trap(hart, PcWord { word: 0, ..at }, cause::EXPIRY)
}

/// Executes the instruction at a pc, but for a late value. An expiry comes before all else; then a
/// fetch that is refused. Neither shows a word. Without `RARE` it returns None and changes nothing
/// for both, for traps, and for instructions on control registers, traps or time.
///
/// Its code is the same for each `LOOP`. Each type makes a copy, as [`execute_frequent`] says.
#[tactic(auto, unfolding(crate::proofs::Opened::whole), using(crate::proofs::Zero::aligned_zero))]
#[inline(always)]
fn execute_some<const RARE: bool, LOOP>(
    hart: &mut Hart<'_>,
    at: PcWord,
    expired: bool,
    s: Sources,
) -> Option<ExecResult>
    requires { at.pc % 4 ≡ 0 }
    ensures all { RARE ≡ true → is_some result ≡ true }
    ensures left { result ≡ None → units_of hart.new ≡ units_of hart.old }
    ensures holds { Holds hart.old hart.new }
    ensures refines { IfSome result (λ x. RefinesExecution hart.old hart.new x (execute_in
        (environment_of hart.old) at.pc
        (own_of hart.old) expired at.word s.a s.b)) }
    ensures frequent { RARE ≡ false → is_some result ≡
        is_frequent (ins at.word) (execute_in
        (environment_of hart.old) at.pc (own_of hart.old) expired at.word s.a s.b) }
    ensures fits { IfSome result (λ x. IsWellFormed x) }
    ensures shown { IfSome result (λ x. HasWord x.effect x.word) }
    ensures address { IfSome result (λ x. IsAligned (ins x.word) x.address) }
{
    if expired {
        return if RARE { Some(expire(hart, at)) } else { None };
    }
    if !hart.guard.may_fetch_by(hart.thread, hart.confined, at.pc) {
        return trap_if_rare::<RARE>(hart, PcWord { word: 0, ..at }, cause::FETCH_FAULT);
    }
    run_at::<RARE>(hart, at, s, &decode(at.word))
}

/// Executes the instruction at a pc, but for a late value, if it is frequent. It returns None and
/// changes nothing for an expiry, a refused fetch, a trap, and an instruction on control registers,
/// traps or time. So a caller can execute these out of line.
///
/// `LOOP` has no effect on a result. Each type makes a separate copy of the code. The compiler
/// inlines a copy that has one caller, so each loop over cycles gives a type of its own.
pub fn execute_frequent<LOOP>(
    hart: &mut Hart<'_>,
    at: PcWord,
    expired: bool,
    s: Sources,
) -> Option<ExecResult>
    requires { at.pc % 4 ≡ 0 }
    ensures left { result ≡ None → units_of hart.new ≡ units_of hart.old }
    ensures holds { Holds hart.old hart.new }
    ensures refines { IfSome result (λ x. RefinesExecution hart.old hart.new x (execute_in
        (environment_of hart.old) at.pc
        (own_of hart.old) expired at.word s.a s.b)) }
    ensures frequent { is_some result ≡
        is_frequent (ins at.word) (execute_in
        (environment_of hart.old) at.pc (own_of hart.old) expired at.word s.a s.b) }
    ensures fits { IfSome result (λ x. IsWellFormed x) }
    ensures shown { IfSome result (λ x. HasWord x.effect x.word) }
    ensures address { IfSome result (λ x. IsAligned (ins x.word) x.address) }
{
    execute_some::<false, LOOP>(hart, at, expired, s)
}

/// Executes the instruction at a pc, but for a late value. An expiry comes before all else; then a
/// fetch that is refused. Neither shows a word. `LOOP` is the type of the caller's loop, as in
/// [`execute_frequent`].
#[tactic(auto, unfolding(crate::proofs::Opened::whole), using(crate::proofs::Zero::aligned_zero))]
#[inline(always)]
pub fn execute_in<LOOP>(hart: &mut Hart<'_>, at: PcWord, expired: bool, s: Sources) -> ExecResult
    requires { at.pc % 4 ≡ 0 }
    ensures holds { Holds hart.old hart.new }
    ensures refines { RefinesExecution hart.old hart.new result (execute_in
        (environment_of hart.old) at.pc (own_of hart.old) expired at.word s.a s.b) }
    ensures fits { IsWellFormed result }
    ensures shown { HasWord result.effect result.word }
    ensures address { IsAligned (ins result.word) result.address }
{
    execute_some::<true, LOOP>(hart, at, expired, s).unwrap()
}
