//! The word that an access writes: its computation, whether it is allowed, and its legal value.

ghost use Rattle.std.specs.Prelude.{◌≡◌};
ghost use Rattle.core_model.specs.Csr.{csr_update, may_hold, legal_value};

use core_model::CsrOp;
use region_guard::Regions;
use rv_decode::{AluOp, csr};
use rv_exec::compute;
use slot_scheduler::Modes;
use slot_table::SlotTable;

/// The word that an access writes, from the old one and the operand.
#[tactic(auto, unfolding(core_model::specs::Csr::csr_update))]
pub(crate) fn change(op: CsrOp, old: u32, operand: u32) -> u32
    ensures { result ≡ csr_update op old operand }
{
    match op {
        CsrOp::Swap => operand,
        CsrOp::Set => compute(AluOp::Or, old, operand),
        CsrOp::Clear => compute(AluOp::And, old, !operand),
    }
}

/// Whether a word may be written to a register. mhartid allows none; slots, modes and regions allow
/// words whose fields are all valid; the others allow every word.
#[tactic(auto, unfolding(core_model::specs::Csr::may_hold))]
pub(crate) fn may_hold(csr: u16, word: u32) -> bool
    ensures { result ≡ may_hold csr word }
{
    match csr {
        csr::MHARTID => false,
        csr::SLOTS => SlotTable::from_word(word).is_ok(),
        csr::MODES => Modes::from_word(word).is_ok(),
        csr::DREGIONS | csr::IREGIONS => Regions::from_word(word).is_ok(),
        _ => true,
    }
}

/// The word as stored in a register: mtvec and mepc without the two low bits.
pub(crate) fn keep(csr: u16, word: u32) -> u32
    ensures { result ≡ legal_value csr word }
{
    if csr == csr::MTVEC || csr == csr::MEPC {
        word / 4 * 4
    } else {
        word
    }
}
