//! W: registers are written.

ghost use Rattle.std.specs.Prelude.{◌≡◌, ◌<◌, [], slice_index_or, slice_set};
ghost use Rattle.core_model.specs.Thread.{reg_set, regs_after};
ghost use Rattle.pipe_model.specs.Stages.{bank_after, writeback_stage};
ghost use Rattle.pipeline_core.specs.Turns.{held};
ghost use Rattle.pipeline_core.specs.StageFacts.{EffectFits, StoredFits};
ghost use Rattle.pipeline_core.specs.StageFacts.{WrittenFits};

use crate::stage_register::StageRegister;
use pipe_model::{Held, Stored, Written};
use regfile_bank::Bank;
use rv_exec::Effect;

/// Writes the destination register of a CSR access. It is rare, and a separate function so that the
/// common path doesn't pay for it.
#[cold]
#[inline(never)]
fn write_old(bank: &mut Bank, thread: u8, rd: u8, old: u32)
    requires thread { thread < 8 }
    requires rd { rd < 32 }
    ensures { bank.new ≡ slice_set bank.old thread
        (reg_set (slice_index_or bank.old thread []) rd old) }
{
    bank.write(thread, rd, old);
}

/// Writes the register of an effect, if it has one.
#[inline(always)]
#[tactic(auto, using(crate::proofs::Registers::unwritten))]
fn write_register(bank: &mut Bank, thread: u8, effect: &Option<Effect>)
    requires thread { thread < 8 }
    requires fits { EffectFits effect.now }
    ensures { bank.new ≡ slice_set bank.old thread
        (regs_after effect.now (slice_index_or bank.old thread [])) }
{
    // The most frequent effect is tested first, and then the other one: a match on both would first
    // test whether it is either of them.
    if let Some(Effect::Reg { rd, value }) = effect {
        bank.write(thread, *rd, *value);
    } else if let Some(Effect::Csr { rd, old, .. }) = effect {
        write_old(bank, thread, *rd, *old);
    }
}

/// Writes the register of the turn's effect, if it has one.
#[inline(always)]
#[tactic(auto, unfolding(crate::proofs::Opened::writing_back))]
pub fn write_back(bank: &mut Bank, m: &StageRegister<Stored>)
    requires { StoredFits (held m.now) }
    ensures { bank.new ≡ bank_after (held m.now) bank.old }
{
    if m.is_issue() {
        write_register(bank, m.turn, &m.what.effect);
    }
}

/// The turn that W leaves in `w`.
#[tactic(auto, unfolding(pipe_model::specs::Stages::writeback_stage))]
pub fn written(m: &StageRegister<Stored>) -> Held<Written>
    requires { StoredFits (held m.now) }
    ensures stage { result ≡ writeback_stage (held m.now) }
    ensures fits { WrittenFits result }
{
    match m.held() {
        Held::Bubble => Held::Bubble,
        Held::Flushed { thread } => Held::Flushed { thread },
        Held::Issue { thread, what } => Held::Issue {
            thread,
            what: Written {
                pc: what.pc,
                word: what.word,
            },
        },
    }
}
