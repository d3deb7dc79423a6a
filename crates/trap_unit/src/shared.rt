//! The machine's registers 0x7C0 to 0x7C3: slots, modes, dregions and iregions.

ghost use Rattle.std.specs.Prelude.{◌≡◌, Some, IsTrue};
ghost use Rattle.core_model.specs.Csr.{may_hold};
ghost use Rattle.trap_unit.specs.Access.{shared_value, sched_after, guard_after};

use region_guard::{Guard, Regions};
use rv_decode::csr;
use slot_scheduler::{Modes, Sched};
use slot_table::SlotTable;

/// The word of one of the machine's registers: slots (0x7C0), modes (0x7C1) and dregions (0x7C2) by
/// their numbers, and iregions (0x7C3) for every other one.
pub(crate) fn read_shared(sched: &Sched, guard: &Guard, csr: u16) -> u32
    ensures { result ≡ shared_value sched.now guard.now csr }
{
    match csr {
        csr::SLOTS => sched.slots.word(),
        csr::MODES => sched.modes.word(),
        csr::DREGIONS => guard.d.word(),
        _ => guard.i.word(),
    }
}

/// Writes a configuration register, 0x7C0 to 0x7C3, with an allowed word. Other numbers change
/// nothing.
#[tactic(auto, unfolding(core_model::specs::Csr::may_hold), using(crate::proofs::Held::slots_kept))]
pub(crate) fn write_shared(sched: &mut Sched, guard: &mut Guard, csr: u16, word: u32)
    requires { IsTrue (may_hold csr word) }
    ensures sched { sched.new ≡ sched_after sched.old csr (Some word) }
    ensures guard { guard.new ≡ guard_after guard.old csr (Some word) }
{
    match csr {
        csr::SLOTS => {
            if let Ok(slots) = SlotTable::from_word(word) {
                sched.slots = slots;
            }
        }
        csr::MODES => {
            if let Ok(modes) = Modes::from_word(word) {
                sched.modes = modes;
            }
        }
        csr::DREGIONS => {
            if let Ok(regions) = Regions::from_word(word) {
                guard.d = regions;
            }
        }
        csr::IREGIONS => {
            if let Ok(regions) = Regions::from_word(word) {
                guard.i = regions;
            }
        }
        _ => {}
    }
}
