//! The trap registers of the eight threads.

ghost use Rattle.std.specs.Prelude.{◌≡◌, ◌<◌, ◌%◌, Some, IsTrue, length, replicate, slice_set};
ghost use Rattle.core_model.specs.Csr.{csr_value, may_hold, legal_value};
ghost use Rattle.trap_unit.specs.Rows.{no_trap, trap_of, is_trap_csr};
ghost use Rattle.trap_unit.specs.Rows.{with_trap, trap_entry, IsAlignedTrap};
ghost use Rattle.trap_unit.specs.Access.{value_by, answer_by, written_in};
ghost use Rattle.trap_unit.specs.Access.{traps_after, sched_after, guard_after};

use crate::shared::{read_shared, write_shared};
use crate::word::{change, keep, may_hold};
use core_model::{CsrOp, Trapping};
use region_guard::Guard;
use rv_decode::csr;
use slot_scheduler::Sched;
use std::marker::Model;
use thiserror::Error;

/// The result of an access: the old value, and the written value, as stored in the register.
#[derive(Clone, Copy, Debug)]
pub struct CsrDone {
    /// The value before the access.
    pub old: u32,
    /// The written value, as stored in the register; `None` if the access only reads.
    pub written: Option<u32>,
}

/// The reason why an access was refused.
#[derive(Clone, Copy, Debug, PartialEq, Eq, Error)]
pub enum CsrNo {
    /// The number is none of a register.
    #[error("no register has the number")]
    Unknown = 1,
    /// The register is one of the machine's, and the thread has no permit.
    #[error("the thread has no permit for the register")]
    NoPermit = 2,
    /// The register, mhartid, is read only.
    #[error("the register takes no write")]
    ReadOnly = 3,
    /// The new word isn't allowed in the register.
    #[error("the register doesn't take the word")]
    BadValue = 4,
}

/// The trap registers mtvec, mscratch, mepc and mcause of the eight hardware threads (RISC-V
/// privileged manual, "Machine-Level CSRs"). The two low bits of mtvec and mepc are always 0. A
/// thread is 0 to 7.
#[derive(Clone, Copy, Debug)]
pub struct Traps {
    rows: [Trapping; 8],
}

impl Model for Traps {
    ghost use Rattle.std.specs.Prelude.{List, All};
    ghost use Rattle.core_model.specs.declared.own.Trapping.{Trapping};
    ghost use Rattle.trap_unit.specs.Rows.{IsAlignedTrap};

    ghost Value = { List Trapping };

    ghost view = { λ t. t.rows };

    ghost invariant = { λ t. All IsAlignedTrap t.rows };

    ghost inverse = { λ rows. record { rows = rows } };
}

impl Traps {
    /// Trap registers that are all 0.
    pub fn new() -> Traps
        ensures { result ≡ replicate 8 no_trap }
    {
        Traps {
            rows: [Trapping {
                mtvec: 0,
                mscratch: 0,
                mepc: 0,
                mcause: 0,
            }; 8],
        }
    }

    /// A thread's trap registers.
    pub fn row(&self, thread: u8) -> Trapping
        requires { thread < 8 }
        ensures row { result ≡ trap_of self.now thread }
        ensures aligned { IsAlignedTrap result }
    {
        self.rows[thread as usize]
    }

    /// Sets a thread's trap registers.
    fn set_row(&mut self, thread: u8, row: Trapping)
        requires thread { thread < 8 }
        requires aligned { IsAlignedTrap row }
        ensures row { self.new ≡ slice_set self.old thread row }
        ensures eight { length self.new ≡ 8 }
    {
        self.rows[thread as usize] = row;
    }

    /// A thread's word of mtvec, mscratch, mepc or mcause, by its number.
    pub fn value(&self, thread: u8, csr: u16) -> u32
        requires thread { thread < 8 }
        requires csr { IsTrue (is_trap_csr csr) }
        ensures { Some result ≡ csr_value thread (with_trap (trap_of self.now thread)) csr
            (Some 0) }
    {
        let row = self.row(thread);
        match csr {
            csr::MTVEC => row.mtvec,
            csr::MSCRATCH => row.mscratch,
            csr::MEPC => row.mepc,
            _ => row.mcause,
        }
    }

    /// A trap: it saves the pc and the cause; mepc drops the two low bits of the pc. Returns mtvec,
    /// at which the thread continues.
    pub fn enter(&mut self, thread: u8, cause: u8, epc: u32) -> u32
        requires { thread < 8 }
        ensures target { result ≡ (trap_of self.old thread).mtvec }
        ensures aligned { result % 4 ≡ 0 }
        ensures row { self.new ≡ slice_set self.old thread
            (trap_entry (trap_of self.old thread) cause epc) }
        ensures eight { length self.new ≡ 8 }
    {
        let row = self.row(thread);
        let mepc = keep(csr::MEPC, epc);
        self.set_row(
            thread,
            Trapping {
                mepc,
                mcause: u32::from(cause),
                ..row
            },
        );
        row.mtvec
    }

    /// A return from a trap. Returns mepc, at which the thread continues.
    pub fn leave(&self, thread: u8) -> u32
        requires { thread < 8 }
        ensures target { result ≡ (trap_of self.now thread).mepc }
        ensures aligned { result % 4 ≡ 0 }
    {
        self.row(thread).mepc
    }

    /// The value of a register by its number; None if no register has the number.
    #[tactic(auto, unfolding(crate::specs::Access::value_by))]
    fn value_of(&self, sched: &Sched, guard: &Guard, thread: u8, csr: u16) -> Option<u32>
        requires { thread < 8 }
        ensures { result ≡ value_by self.now sched.now guard.now thread csr }
    {
        match csr {
            csr::MTVEC | csr::MSCRATCH | csr::MEPC | csr::MCAUSE => Some(self.value(thread, csr)),
            csr::MHARTID => Some(u32::from(thread)),
            csr::SLOTS | csr::MODES | csr::DREGIONS | csr::IREGIONS => {
                Some(read_shared(sched, guard, csr))
            }
            _ => None,
        }
    }

    /// Sets one of the thread's own registers to a legal value. Other numbers change nothing.
    fn put(&mut self, thread: u8, csr: u16, value: u32)
        requires thread { thread < 8 }
        requires kept { legal_value csr value ≡ value }
        ensures { self.new ≡ traps_after self.old thread csr (Some value) }
    {
        let row = self.row(thread);
        let row = match csr {
            csr::MTVEC => Trapping {
                mtvec: value,
                ..row
            },
            csr::MSCRATCH => Trapping {
                mscratch: value,
                ..row
            },
            csr::MEPC => Trapping { mepc: value, ..row },
            csr::MCAUSE => Trapping {
                mcause: value,
                ..row
            },
            _ => row,
        };
        self.set_row(thread, row);
    }

    /// A thread's access to a register by its number. If the access `writes`, the operand replaces
    /// the old value, or its bits are set or cleared in it.
    ///
    /// # Errors
    ///
    /// [`CsrNo`] for the first of its causes that holds; nothing changes then.
    #[tactic(auto, using(crate::proofs::Aligned::held_as_kept))]
    pub fn access(
        &mut self,
        sched: &mut Sched,
        guard: &mut Guard,
        thread: u8,
        permit: bool,
        op: CsrOp,
        csr: u16,
        operand: u32,
        writes: bool,
    ) -> Result<CsrDone, CsrNo>
        requires { thread < 8 }
        ensures answer { result ≡ answer_by permit op csr operand writes
            (value_by self.old sched.old guard.old thread csr) }
        ensures traps { self.new ≡ traps_after self.old thread csr (written_in result) }
        ensures sched { sched.new ≡ sched_after sched.old csr (written_in result) }
        ensures guard { guard.new ≡ guard_after guard.old csr (written_in result) }
    {
        let Some(old) = self.value_of(sched, guard, thread, csr) else {
            return Err(CsrNo::Unknown);
        };
        if (csr::SLOTS..=csr::IREGIONS).contains(&csr) && !permit {
            return Err(CsrNo::NoPermit);
        }
        if csr == csr::MHARTID && writes {
            return Err(CsrNo::ReadOnly);
        }
        if !writes {
            return Ok(CsrDone { old, written: None });
        }
        let word = change(op, old, operand);
        if !may_hold(csr, word) {
            return Err(CsrNo::BadValue);
        }
        let value = keep(csr, word);
        self.put(thread, csr, value);
        write_shared(sched, guard, csr, value);
        Ok(CsrDone {
            old,
            written: Some(value),
        })
    }
}
