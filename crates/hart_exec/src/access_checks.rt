//! Loads and stores, as far as they are known before memory is read or written.

ghost use Rattle.std.specs.Prelude.{◌≡◌, ◌<◌, ◌%◌, ◌^◌, IfSome, None, is_some, true, false};
ghost use Rattle.rv_decode.specs.Lag.{lag, late_lag, plain_lag};
ghost use Rattle.rv_exec.specs.Access.{load_size, store_size};
ghost use Rattle.core_model.specs.Outcomes.{load, store};
ghost use Rattle.hart_exec.specs.Results.{IsWellFormed};
ghost use Rattle.hart_exec.specs.Units.{Holds, RefinesExecution, environment_of, own_of, units_of};

use crate::hart::Hart;
use crate::outcomes::{advance, trap_if_rare};
use crate::result::{ExecResult, PcWord};
use rv_decode::{Ins, LoadOp, StoreOp, lag_of};
use rv_exec::{Effect, cause, load_size, store_size};

/// The value that a store writes: as many low bytes as it takes.
fn cut(op: StoreOp, value: u32) -> u32
    ensures cut { result ≡ value % 256 ^ store_size op }
    ensures small { result < 256 ^ store_size op }
{
    match op {
        StoreOp::Sb => value & 0xff,
        StoreOp::Sh => value & 0xffff,
        StoreOp::Sw => value,
    }
}

/// A load; one that isn't allowed is a load access fault, cause 5.
#[tactic(auto, unfolding(core_model::specs::Outcomes::load, crate::specs::Units::environment_of))]
#[inline(always)]
pub fn load<const RARE: bool>(
    hart: &mut Hart<'_>,
    at: PcWord,
    i: &Ins,
    op: LoadOp,
    address: u32,
) -> Option<ExecResult>
    requires pc { at.pc % 4 ≡ 0 }
    requires lag { lag i.now false false ≡ late_lag }
    requires aligned { address % load_size op ≡ 0 }
    ensures all { RARE ≡ true → is_some result ≡ true }
    ensures left { result ≡ None → units_of hart.new ≡ units_of hart.old }
    ensures holds { Holds hart.old hart.new }
    ensures refines { IfSome result (λ x. RefinesExecution hart.old hart.new x (load at.pc
        (own_of hart.old) at.word address
        ((environment_of hart.old).load address (load_size op)))) }
    ensures frequent { RARE ≡ false → is_some result
        ≡ (environment_of hart.old).load address (load_size op) }
    ensures fits { IfSome result (λ x. IsWellFormed x) }
    ensures word { IfSome result (λ x. x.word ≡ at.word) }
    ensures address { IfSome result (λ x. x.address % load_size op ≡ 0) }
{
    if !hart
        .guard
        .may_load_by(hart.thread, hart.confined, address, load_size(op))
    {
        return trap_if_rare::<RARE>(hart, at, cause::LOAD_FAULT);
    }
    Some(ExecResult {
        address,
        ..advance(at, lag_of(i, false, false), Effect::Nothing)
    })
}

/// A store; one that isn't allowed is a store access fault, cause 7.
#[tactic(auto, unfolding(core_model::specs::Outcomes::store, crate::specs::Units::environment_of))]
#[inline(always)]
pub fn store<const RARE: bool>(
    hart: &mut Hart<'_>,
    at: PcWord,
    i: &Ins,
    op: StoreOp,
    address: u32,
    value: u32,
) -> Option<ExecResult>
    requires pc { at.pc % 4 ≡ 0 }
    requires lag { lag i.now false false ≡ plain_lag }
    requires aligned { address % store_size op ≡ 0 }
    ensures all { RARE ≡ true → is_some result ≡ true }
    ensures left { result ≡ None → units_of hart.new ≡ units_of hart.old }
    ensures holds { Holds hart.old hart.new }
    ensures refines { IfSome result (λ x. RefinesExecution hart.old hart.new x (store at.pc
        (own_of hart.old) at.word address (store_size op) (value % 256 ^ store_size op)
        ((environment_of hart.old).store address (store_size op)))) }
    ensures frequent { RARE ≡ false → is_some result
        ≡ (environment_of hart.old).store address (store_size op) }
    ensures fits { IfSome result (λ x. IsWellFormed x) }
    ensures word { IfSome result (λ x. x.word ≡ at.word) }
    ensures address { IfSome result (λ x. x.address % store_size op ≡ 0) }
{
    let size = store_size(op);
    if !hart.guard.may_store_by(hart.thread, address, size) {
        return trap_if_rare::<RARE>(hart, at, cause::STORE_FAULT);
    }
    let effect = Effect::Store {
        address,
        size,
        value: cut(op, value),
    };
    Some(ExecResult {
        address,
        ..advance(at, lag_of(i, false, false), effect)
    })
}
