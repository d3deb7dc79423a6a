//! CSR instructions (RISC-V unprivileged manual, "Zicsr" extension).

ghost use Rattle.std.specs.Prelude.{◌≡◌, ◌<◌, ◌%◌, false};
ghost use Rattle.rv_decode.specs.Lag.{lag, redirect_lag};
ghost use Rattle.core_model.specs.Csr.{csr_access};
ghost use Rattle.hart_exec.specs.Results.{IsPlain};
ghost use Rattle.hart_exec.specs.Units.{Holds, RefinesExecution, environment_of, own_of};

use crate::hart::Hart;
use crate::outcomes::{advance, trap, write};
use crate::result::{ExecResult, PcWord};
use rv_decode::{CsrKind, Ins, lag_of};
use rv_exec::{Effect, cause};
use trap_unit::CsrOp;

/// The access of a CSR instruction to its register.
#[derive(Clone, Copy)]
pub struct Access {
    /// Whether it replaces the old value, or sets or clears bits in it.
    pub op: CsrOp,
    /// The value of its register, or its immediate, 0 to 31.
    pub operand: u32,
    /// Whether it writes at all: a swap always, the others unless their source field is 0.
    pub writes: bool,
}

impl Access {
    ghost use Rattle.hart_exec.specs.Effects.{access_of};

    /// The access of an instruction, from its kind, its field `src` and the value of its register.
    pub fn of(kind: CsrKind, src: u8, a: u32) -> Access
        ensures { result ≡ access_of kind src a }
    {
        let op = match kind {
            CsrKind::Rw | CsrKind::Rwi => CsrOp::Swap,
            CsrKind::Rs | CsrKind::Rsi => CsrOp::Set,
            CsrKind::Rc | CsrKind::Rci => CsrOp::Clear,
        };
        let operand = match kind {
            CsrKind::Rw | CsrKind::Rs | CsrKind::Rc => a,
            CsrKind::Rwi | CsrKind::Rsi | CsrKind::Rci => u32::from(src),
        };
        let writes = matches!(kind, CsrKind::Rw | CsrKind::Rwi) || src != 0;
        Access {
            op,
            operand,
            writes,
        }
    }
}

/// A CSR instruction. A refused access is an illegal instruction, cause 2, and changes nothing.
#[inline(always)]
pub fn access_csr(
    hart: &mut Hart<'_>,
    at: PcWord,
    i: &Ins,
    rd: u8,
    csr: u16,
    wanted: Access,
) -> ExecResult
    requires rd { rd < 32 }
    requires csr { csr < 4096 }
    requires pc { at.pc % 4 ≡ 0 }
    requires lag { lag i.now false false ≡ redirect_lag }
    ensures holds { Holds hart.old hart.new }
    ensures refines { RefinesExecution hart.old hart.new result (csr_access hart.old.thread at.pc
        (own_of hart.old) at.word rd csr wanted.op wanted.operand wanted.writes
        ((environment_of hart.old).shared csr)) }
    ensures plain { IsPlain at.word result }
{
    let answer = hart.traps.access(
        hart.sched,
        hart.guard,
        hart.thread,
        hart.permit,
        wanted.op,
        csr,
        wanted.operand,
        wanted.writes,
    );
    let Ok(done) = answer else {
        return trap(hart, at, cause::ILLEGAL);
    };
    match done.written {
        Some(value) => advance(
            at,
            lag_of(i, false, false),
            Effect::Csr {
                csr,
                value,
                rd,
                old: done.old,
            },
        ),
        None => write(at, i, rd, done.old),
    }
}
