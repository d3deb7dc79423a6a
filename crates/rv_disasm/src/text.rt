//! The text of a word.

ghost use Rattle.std.specs.Prelude.{◌≡◌};
ghost use Rattle.rv_disasm.specs.Names.{store_name};
ghost use Rattle.rv_disasm.specs.TextTokens.{line, line_text, with_memory};
ghost use Rattle.rv_disasm.specs.Text.{branch_line, fence_line, jump_line, line_of, target};
ghost use Rattle.rv_disasm.specs.Text.{text_at as text_of};

use crate::names::{alu_name, branch_name, imm_name, load_name, mul_name, shift_name, store_name};
use crate::operands::{
    alone, one_register, three_registers, two_registers, with_branch, with_csr, with_digits,
    with_memory, with_number, word_line,
};
use arrayvec::ArrayString;
use rv_decode::{BranchOp, Ins, StoreOp, decode};

/// The text of a word at its address: its mnemonic with its operands, and a branch's or a jump's
/// target as an address. A word that the assembler has no other text for is `.word` with the word:
/// no instruction, a FENCE with other bits than those of its text, or a branch or a jump to no
/// multiple of four (RISC-V unprivileged manual, "RISC-V Assembly Programmer's Handbook").
#[tactic(auto, unfolding(crate::specs::Text::text_at))]
pub fn text_at(pc: u32, word: u32) -> ArrayString<96>
    ensures { result.bytes ≡ text_of pc word }
{
    line_of(pc, word, &decode(word))
}

/// The target of a branch or a jump.
fn target(pc: u32, off: i32) -> u32
    ensures { result ≡ target pc off }
{
    pc.wrapping_add(off.cast_unsigned())
}

/// The text of a jump.
fn jump_line(pc: u32, word: u32, rd: u8, off: i32) -> ArrayString<96>
    ensures { result.bytes ≡ line_text (jump_line pc word rd off) }
{
    let to = target(pc, off);
    if to % 4 == 0 {
        with_digits("jal", rd, 8, to)
    } else {
        word_line(word)
    }
}

/// The text of a branch.
fn branch_line(pc: u32, word: u32, op: BranchOp, rs1: u8, rs2: u8, off: i32) -> ArrayString<96>
    ensures { result.bytes ≡ line_text (branch_line pc word op rs1 rs2 off) }
{
    let to = target(pc, off);
    if to % 4 == 0 {
        with_branch(branch_name(op), rs1, rs2, to)
    } else {
        word_line(word)
    }
}

/// The text of a store: the register with the value, then the address.
fn store_line(op: StoreOp, rs1: u8, rs2: u8, imm: i32) -> ArrayString<96>
    ensures { result.bytes ≡ line_text (line (store_name op) (with_memory rs2 imm rs1)) }
{
    with_memory(store_name(op), rs2, imm, rs1)
}

/// The text of a FENCE or a FENCE.I.
fn fence_line(word: u32) -> ArrayString<96>
    ensures { result.bytes ≡ line_text (fence_line word) }
{
    match word {
        0x0ff0_000f => alone("fence"),
        0x0000_100f => alone("fence.i"),
        _ => word_line(word),
    }
}

/// The text of a word that means an instruction.
#[tactic(auto, unfolding(crate::specs::Text::line_of))]
fn line_of(pc: u32, word: u32, i: &Ins) -> ArrayString<96>
    ensures { result.bytes ≡ line_text (line_of pc word i.now) }
{
    match *i {
        Ins::Lui { rd, imm } => with_digits("lui", rd, 5, imm),
        Ins::Auipc { rd, imm } => with_digits("auipc", rd, 5, imm),
        Ins::Jal { rd, off } => jump_line(pc, word, rd, off),
        Ins::Jalr { rd, rs1, imm } => with_memory("jalr", rd, imm, rs1),
        Ins::Branch { op, rs1, rs2, off } => branch_line(pc, word, op, rs1, rs2, off),
        Ins::Load { op, rd, rs1, imm } => with_memory(load_name(op), rd, imm, rs1),
        Ins::Store { op, rs1, rs2, imm } => store_line(op, rs1, rs2, imm),
        Ins::OpImm { op, rd, rs1, imm } => with_number(imm_name(op), rd, rs1, imm),
        Ins::Shift {
            op,
            rd,
            rs1,
            amount,
        } => with_number(shift_name(op), rd, rs1, i32::from(amount)),
        Ins::Op { op, rd, rs1, rs2 } => three_registers(alu_name(op), rd, rs1, rs2),
        Ins::Muldiv { op, rd, rs1, rs2 } => three_registers(mul_name(op), rd, rs1, rs2),
        Ins::Fence { .. } => fence_line(word),
        Ins::Ecall => alone("ecall"),
        Ins::Ebreak => alone("ebreak"),
        Ins::Mret => alone("mret"),
        Ins::Csr { op, rd, csr, src } => with_csr(op, rd, csr, src),
        Ins::Gt { rd } => one_register("gt", rd),
        Ins::Gth { rd } => one_register("gth", rd),
        Ins::Du { rs1, rs2 } => two_registers("du", rs1, rs2),
        Ins::Wu { rs1, rs2 } => two_registers("wu", rs1, rs2),
        Ins::Ee { rs1, rs2 } => two_registers("ee", rs1, rs2),
        Ins::De => alone("de"),
        Ins::Illegal { .. } => word_line(word),
    }
}
