//! The outcome of each instruction.

ghost use Rattle.std.specs.Prelude.{◌≡◌, None};
ghost use Rattle.rv_exec.specs.Access.{IsAligned};
ghost use Rattle.rv_exec.specs.Result.{is_taken, offset, result_of};

use crate::access::{load_size, store_size};
use crate::alu::{compute, compute_with, shift};
use crate::cause;
use crate::muldiv::multiply;
use crate::outcome::Outcome;
use rv_decode::{BranchOp, Ins};

/// The outcome of an instruction at the address `pc`, with `a` and `b` as the values of `rs1` and
/// `rs2`. Addresses wrap modulo 2^32. It includes a trap that follows only from these. It doesn't
/// check whether an access or a register is allowed.
#[tactic(auto, unfolding(crate::specs::Result::result_of))]
#[inline(always)]
pub fn execute(i: &Ins, pc: u32, a: u32, b: u32) -> Outcome
    ensures outcome { result ≡ result_of i.now pc a b }
    ensures aligned { result.trap ≡ None → IsAligned i.now result.address }
{
    match *i {
        Ins::Lui { imm, .. } => Outcome::of_value(imm.wrapping_shl(12)),
        Ins::Auipc { imm, .. } => Outcome::of_value(pc.wrapping_add(imm.wrapping_shl(12))),
        Ins::Jal { off, .. } => Outcome::of_jump(pc.wrapping_add(4), add_offset(pc, off)),
        Ins::Jalr { imm, .. } => {
            let sum = add_offset(a, imm);
            Outcome::of_jump(pc.wrapping_add(4), sum - sum % 2)
        }
        Ins::Branch { op, off, .. } => Outcome::of_branch(takes(op, a, b), add_offset(pc, off)),
        Ins::Load { op, imm, .. } => Outcome::of_load(add_offset(a, imm), load_size(op)),
        Ins::Store { op, imm, .. } => Outcome::of_store(add_offset(a, imm), store_size(op)),
        Ins::OpImm { op, imm, .. } => Outcome::of_value(compute_with(op, a, imm)),
        Ins::Shift { op, amount, .. } => Outcome::of_value(shift(op, a, amount)),
        Ins::Op { op, .. } => Outcome::of_value(compute(op, a, b)),
        Ins::Muldiv { op, .. } => Outcome::of_value(multiply(op, a, b)),
        Ins::Ecall => Outcome::of_trap(cause::ENVIRONMENT_CALL),
        Ins::Ebreak => Outcome::of_trap(cause::BREAKPOINT),
        Ins::Illegal { .. } => Outcome::of_trap(cause::ILLEGAL),
        Ins::Fence { .. }
        | Ins::Mret
        | Ins::Csr { .. }
        | Ins::Gt { .. }
        | Ins::Gth { .. }
        | Ins::Du { .. }
        | Ins::Wu { .. }
        | Ins::Ee { .. }
        | Ins::De => Outcome::NOTHING,
    }
}

/// Whether a branch is taken (RISC-V unprivileged manual, "Conditional Branches").
#[tactic(auto, unfolding(crate::specs::Result::is_taken))]
#[inline(always)]
fn takes(op: BranchOp, a: u32, b: u32) -> bool
    ensures { result ≡ is_taken op a b }
{
    match op {
        BranchOp::Beq => a == b,
        BranchOp::Bne => a != b,
        BranchOp::Blt => a.cast_signed() < b.cast_signed(),
        BranchOp::Bge => a.cast_signed() >= b.cast_signed(),
        BranchOp::Bltu => a < b,
        BranchOp::Bgeu => a >= b,
    }
}

/// A word plus a signed offset.
#[inline(always)]
fn add_offset(a: u32, off: i32) -> u32
    ensures { result ≡ offset a off }
{
    a.wrapping_add_signed(off)
}
