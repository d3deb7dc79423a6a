//! The operations on two registers, and on a register and an immediate.

ghost use Rattle.std.specs.Prelude.{◌≡◌};
ghost use Rattle.rv_exec.specs.Alu.{alu_result, alu_result_with, shift_result};

use rv_decode::{AluOp, ImmOp, ShiftOp};

/// The value of an operation on two registers (RISC-V unprivileged manual, "Integer
/// Register-Register Operations").
#[tactic(auto, unfolding(crate::specs::Alu::alu_result))]
#[inline(always)]
pub fn compute(op: AluOp, a: u32, b: u32) -> u32
    ensures { result ≡ alu_result op a b }
{
    match op {
        AluOp::Add => a.wrapping_add(b),
        AluOp::Sub => a.wrapping_sub(b),
        AluOp::Sll => a.wrapping_shl(b),
        AluOp::Slt => u32::from(a.cast_signed() < b.cast_signed()),
        AluOp::Sltu => u32::from(a < b),
        AluOp::Xor => a ^ b,
        AluOp::Srl => a.wrapping_shr(b),
        AluOp::Sra => a.cast_signed().wrapping_shr(b).cast_unsigned(),
        AluOp::Or => a | b,
        AluOp::And => a & b,
    }
}

/// The value of an operation on a register and an immediate ("Integer Register-Immediate
/// Instructions").
#[tactic(auto, unfolding(crate::specs::Alu::alu_result_with))]
#[inline(always)]
pub(crate) fn compute_with(op: ImmOp, a: u32, imm: i32) -> u32
    ensures { result ≡ alu_result_with op a imm }
{
    let b = imm.cast_unsigned();
    match op {
        ImmOp::Addi => compute(AluOp::Add, a, b),
        ImmOp::Slti => compute(AluOp::Slt, a, b),
        ImmOp::Sltiu => compute(AluOp::Sltu, a, b),
        ImmOp::Xori => compute(AluOp::Xor, a, b),
        ImmOp::Ori => compute(AluOp::Or, a, b),
        ImmOp::Andi => compute(AluOp::And, a, b),
    }
}

/// The value of a shift by a constant amount.
#[tactic(auto, unfolding(crate::specs::Alu::shift_result))]
#[inline(always)]
pub(crate) fn shift(op: ShiftOp, a: u32, amount: u8) -> u32
    ensures { result ≡ shift_result op a amount }
{
    let b = u32::from(amount);
    match op {
        ShiftOp::Slli => compute(AluOp::Sll, a, b),
        ShiftOp::Srli => compute(AluOp::Srl, a, b),
        ShiftOp::Srai => compute(AluOp::Sra, a, b),
    }
}
