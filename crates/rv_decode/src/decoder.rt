//! From words to instructions.

ghost use Rattle.std.specs.Prelude.{◌≡◌, ◌≤◌, ◌^◌, ◌⊎◌};
ghost use Rattle.rv_decode.specs.Fields.{field};
ghost use Rattle.rv_decode.specs.Range.{HasRegisters, InRange};
ghost use Rattle.rv_decode.specs.Table.{ins, read_by, lui_rows, auipc_rows, jal_rows};
ghost use Rattle.rv_decode.specs.Table.{jalr_rows, branch_rows, load_rows, store_rows};
ghost use Rattle.rv_decode.specs.Table.{imm_rows, op_rows, fence_rows, system_rows, time_rows};

use crate::fields::{csr, funct3, funct7, imm_b, imm_i, imm_j, imm_s, imm_u, opcode, rd, rs1, rs2};
use crate::instruction::{AluOp, BranchOp, CsrKind, ImmOp, Ins, LoadOp, MulOp, ShiftOp, StoreOp};

/// The lowest word whose funct7 isn't 0.
const WITH_FUNCT7: u32 = 0x0200_0000;

/// The instruction of the word `w`; [`Ins::Illegal`] if it is none (RISC-V unprivileged manual,
/// "RV32/64G Instruction Set Listings", for RV32I, M, Zicsr and Zifencei; privileged manual,
/// "Trap-Return Instructions", for MRET). The rows of opcode 0x0b, the timing instructions, are
/// this project's own.
#[inline(always)]
pub fn decode(w: u32) -> Ins
    ensures table { result ≡ ins w }
    ensures range { InRange result }
    ensures registers { HasRegisters result }
{
    by_opcode(w)
}

/// The instruction of a word, by its opcode: the table of major opcodes.
#[inline(always)]
fn by_opcode(word: u32) -> Ins
    ensures { result ≡ ins word }
{
    match opcode(word) {
        0x37 => lui(word),
        0x17 => auipc(word),
        0x6f => jal(word),
        0x67 => jalr(word),
        0x63 => conditional_branch(word),
        0x03 => load(word),
        0x23 => store(word),
        0x13 => op_imm(word),
        0x33 => op(word),
        0x0f => fence(word),
        0x73 => system(word),
        0x0b => timing(word),
        _ => Ins::Illegal { word },
    }
}

/// Opcode 0x37.
#[tactic(auto, unfolding(crate::specs::Table::lui_rows))]
#[inline(always)]
fn lui(word: u32) -> Ins
    requires { field word 0 7 ≡ 0x37 }
    ensures { result ≡ read_by lui_rows word }
{
    Ins::Lui {
        rd: rd(word),
        imm: imm_u(word),
    }
}

/// Opcode 0x17.
#[tactic(auto, unfolding(crate::specs::Table::auipc_rows))]
#[inline(always)]
fn auipc(word: u32) -> Ins
    requires { field word 0 7 ≡ 0x17 }
    ensures { result ≡ read_by auipc_rows word }
{
    Ins::Auipc {
        rd: rd(word),
        imm: imm_u(word),
    }
}

/// Opcode 0x6f.
#[tactic(auto, unfolding(crate::specs::Table::jal_rows))]
#[inline(always)]
fn jal(word: u32) -> Ins
    requires { field word 0 7 ≡ 0x6f }
    ensures { result ≡ read_by jal_rows word }
{
    Ins::Jal {
        rd: rd(word),
        off: imm_j(word),
    }
}

/// Opcode 0x67.
#[tactic(auto, unfolding(crate::specs::Table::jalr_rows))]
#[inline(always)]
fn jalr(word: u32) -> Ins
    requires { field word 0 7 ≡ 0x67 }
    ensures { result ≡ read_by jalr_rows word }
{
    match funct3(word) {
        0 => Ins::Jalr {
            rd: rd(word),
            rs1: rs1(word),
            imm: imm_i(word),
        },
        _ => Ins::Illegal { word },
    }
}

/// Opcode 0x63.
#[tactic(auto, unfolding(crate::specs::Table::branch_rows))]
#[inline(always)]
fn conditional_branch(word: u32) -> Ins
    requires { field word 0 7 ≡ 0x63 }
    ensures { result ≡ read_by branch_rows word }
{
    let op = match funct3(word) {
        0 => BranchOp::Beq,
        1 => BranchOp::Bne,
        4 => BranchOp::Blt,
        5 => BranchOp::Bge,
        6 => BranchOp::Bltu,
        7 => BranchOp::Bgeu,
        _ => return Ins::Illegal { word },
    };
    Ins::Branch {
        op,
        rs1: rs1(word),
        rs2: rs2(word),
        off: imm_b(word),
    }
}

/// Opcode 0x03.
#[tactic(auto, unfolding(crate::specs::Table::load_rows))]
#[inline(always)]
fn load(word: u32) -> Ins
    requires { field word 0 7 ≡ 0x03 }
    ensures { result ≡ read_by load_rows word }
{
    let op = match funct3(word) {
        0 => LoadOp::Lb,
        1 => LoadOp::Lh,
        2 => LoadOp::Lw,
        4 => LoadOp::Lbu,
        5 => LoadOp::Lhu,
        _ => return Ins::Illegal { word },
    };
    Ins::Load {
        op,
        rd: rd(word),
        rs1: rs1(word),
        imm: imm_i(word),
    }
}

/// Opcode 0x23.
#[tactic(auto, unfolding(crate::specs::Table::store_rows))]
#[inline(always)]
fn store(word: u32) -> Ins
    requires { field word 0 7 ≡ 0x23 }
    ensures { result ≡ read_by store_rows word }
{
    let op = match funct3(word) {
        0 => StoreOp::Sb,
        1 => StoreOp::Sh,
        2 => StoreOp::Sw,
        _ => return Ins::Illegal { word },
    };
    Ins::Store {
        op,
        rs1: rs1(word),
        rs2: rs2(word),
        imm: imm_s(word),
    }
}

/// Opcode 0x13: with an immediate.
#[tactic(auto, unfolding(crate::specs::Table::imm_rows))]
#[inline(always)]
fn op_imm(word: u32) -> Ins
    requires { field word 0 7 ≡ 0x13 }
    ensures { result ≡ read_by imm_rows word }
{
    let op = match funct3(word) {
        0 => ImmOp::Addi,
        2 => ImmOp::Slti,
        3 => ImmOp::Sltiu,
        4 => ImmOp::Xori,
        6 => ImmOp::Ori,
        7 => ImmOp::Andi,
        1 | 5 => return shift(word),
        // funct3 is below 8.
        _ => return Ins::Illegal { word },
    };
    Ins::OpImm {
        op,
        rd: rd(word),
        rs1: rs1(word),
        imm: imm_i(word),
    }
}

/// Opcode 0x13: a shift by an immediate.
#[tactic(auto, unfolding(crate::specs::Table::imm_rows))]
#[inline(always)]
fn shift(word: u32) -> Ins
    requires code { field word 0 7 ≡ 0x13 }
    requires kind { (field word 12 3 ≡ 1) ⊎ (field word 12 3 ≡ 5) }
    ensures { result ≡ read_by imm_rows word }
{
    let op = match (funct7(word), funct3(word)) {
        (0, 1) => ShiftOp::Slli,
        (0, 5) => ShiftOp::Srli,
        (0x20, 5) => ShiftOp::Srai,
        _ => return Ins::Illegal { word },
    };
    Ins::Shift {
        op,
        rd: rd(word),
        rs1: rs1(word),
        amount: rs2(word),
    }
}

/// Opcode 0x33: with two registers.
#[tactic(auto, unfolding(crate::specs::Table::op_rows))]
#[inline(always)]
fn op(word: u32) -> Ins
    requires { field word 0 7 ≡ 0x33 }
    ensures { result ≡ read_by op_rows word }
{
    // The most frequent ones have funct7 0.
    if word >= WITH_FUNCT7 {
        return other_op(word);
    }
    let op = match funct3(word) {
        0 => AluOp::Add,
        1 => AluOp::Sll,
        2 => AluOp::Slt,
        3 => AluOp::Sltu,
        4 => AluOp::Xor,
        5 => AluOp::Srl,
        6 => AluOp::Or,
        7 => AluOp::And,
        // funct3 is below 8.
        _ => return Ins::Illegal { word },
    };
    Ins::Op {
        op,
        rd: rd(word),
        rs1: rs1(word),
        rs2: rs2(word),
    }
}

/// Opcode 0x33 with a nonzero funct7: SUB, SRA, and the M extension.
#[tactic(auto, unfolding(crate::specs::Table::op_rows))]
#[inline(always)]
fn other_op(word: u32) -> Ins
    requires code { field word 0 7 ≡ 0x33 }
    requires kind { 2 ^ 25 ≤ word }
    ensures { result ≡ read_by op_rows word }
{
    let op = match (funct7(word), funct3(word)) {
        (0x20, 0) => AluOp::Sub,
        (0x20, 5) => AluOp::Sra,
        (1, _) => return muldiv(word),
        _ => return Ins::Illegal { word },
    };
    Ins::Op {
        op,
        rd: rd(word),
        rs1: rs1(word),
        rs2: rs2(word),
    }
}

/// Opcode 0x33 with funct7 1: the M extension.
#[tactic(auto, unfolding(crate::specs::Table::op_rows))]
#[inline(always)]
fn muldiv(word: u32) -> Ins
    requires code { field word 0 7 ≡ 0x33 }
    requires kind { field word 25 7 ≡ 1 }
    ensures { result ≡ read_by op_rows word }
{
    let op = match funct3(word) {
        0 => MulOp::Mul,
        1 => MulOp::Mulh,
        2 => MulOp::Mulhsu,
        3 => MulOp::Mulhu,
        4 => MulOp::Div,
        5 => MulOp::Divu,
        6 => MulOp::Rem,
        7 => MulOp::Remu,
        // funct3 is below 8.
        _ => return Ins::Illegal { word },
    };
    Ins::Muldiv {
        op,
        rd: rd(word),
        rs1: rs1(word),
        rs2: rs2(word),
    }
}

/// Opcode 0x0f.
#[tactic(auto, unfolding(crate::specs::Table::fence_rows))]
#[inline(always)]
fn fence(word: u32) -> Ins
    requires { field word 0 7 ≡ 0x0f }
    ensures { result ≡ read_by fence_rows word }
{
    match funct3(word) {
        0 | 1 => Ins::Fence { word },
        _ => Ins::Illegal { word },
    }
}

/// Opcode 0x73: ECALL, EBREAK, MRET and the CSR instructions.
#[tactic(auto, unfolding(crate::specs::Table::system_rows))]
#[inline(always)]
fn system(word: u32) -> Ins
    requires { field word 0 7 ≡ 0x73 }
    ensures { result ≡ read_by system_rows word }
{
    let op = match funct3(word) {
        0 => {
            return match word {
                0x0000_0073 => Ins::Ecall,
                0x0010_0073 => Ins::Ebreak,
                0x3020_0073 => Ins::Mret,
                _ => Ins::Illegal { word },
            };
        }
        1 => CsrKind::Rw,
        2 => CsrKind::Rs,
        3 => CsrKind::Rc,
        5 => CsrKind::Rwi,
        6 => CsrKind::Rsi,
        7 => CsrKind::Rci,
        _ => return Ins::Illegal { word },
    };
    Ins::Csr {
        op,
        rd: rd(word),
        csr: csr(word),
        src: rs1(word),
    }
}

/// Opcode 0x0b: FlexPRET's timing instructions.
#[tactic(auto, unfolding(crate::specs::Table::time_rows))]
#[inline(always)]
fn timing(word: u32) -> Ins
    requires { field word 0 7 ≡ 0x0b }
    ensures { result ≡ read_by time_rows word }
{
    let (rd, rs1, rs2) = (rd(word), rs1(word), rs2(word));
    if funct7(word) != 0 {
        return Ins::Illegal { word };
    }
    match funct3(word) {
        0 if rs1 == 0 && rs2 == 0 => Ins::Gt { rd },
        1 if rs1 == 0 && rs2 == 0 => Ins::Gth { rd },
        2 if rd == 0 => Ins::Du { rs1, rs2 },
        3 if rd == 0 => Ins::Wu { rs1, rs2 },
        4 if rd == 0 => Ins::Ee { rs1, rs2 },
        5 if rd == 0 && rs1 == 0 && rs2 == 0 => Ins::De,
        _ => Ins::Illegal { word },
    }
}
