//! From instructions to words, by the formats of the manual (RISC-V unprivileged manual, "Base
//! Instruction Formats" and "Immediate Encoding Variants").

ghost use Rattle.std.specs.Prelude.{◌≡◌, ◌<◌, ◌^◌};
ghost use Rattle.rv_decode.specs.Encoding.{encoding_of, r_word, i_word, s_word, b_word, u_word};
ghost use Rattle.rv_decode.specs.Encoding.{j_word, low_bits, branch_funct3, load_funct3};
ghost use Rattle.rv_decode.specs.Encoding.{store_funct3, imm_funct3, shift_funct3, shift_funct7};
ghost use Rattle.rv_decode.specs.Encoding.{alu_funct3, alu_funct7, mul_funct3, csr_funct3};
ghost use Rattle.rv_decode.specs.Range.{InRange, IsSigned};
ghost use Rattle.rv_decode.specs.Table.{ins};

use crate::instruction::{AluOp, BranchOp, CsrKind, ImmOp, Ins, LoadOp, MulOp, ShiftOp, StoreOp};

/// The word of the instruction `i`, whose fields are in range; [`crate::decode`] returns `i` for it
/// (RISC-V unprivileged manual, "Base Instruction Formats").
pub fn encode(i: &Ins) -> u32
    requires { InRange i.now }
    ensures decoded { ins result ≡ i.now }
    ensures word { result ≡ encoding_of i.now }
{
    word_of(i)
}

/// The word of an instruction, by its format.
#[tactic(auto, unfolding(crate::specs::Encoding::encoding_of))]
fn word_of(i: &Ins) -> u32
    requires { InRange i.now }
    ensures { result ≡ encoding_of i.now }
{
    match *i {
        Ins::Lui { rd, imm } => u_word(0x37, rd, imm),
        Ins::Auipc { rd, imm } => u_word(0x17, rd, imm),
        Ins::Jal { rd, off } => j_word(0x6f, rd, off),
        Ins::Jalr { rd, rs1, imm } => i_word(0x67, rd, 0, rs1, low_12(imm)),
        Ins::Branch { op, rs1, rs2, off } => b_word(0x63, branch_funct3(op), rs1, rs2, off),
        Ins::Load { op, rd, rs1, imm } => i_word(0x03, rd, load_funct3(op), rs1, low_12(imm)),
        Ins::Store { op, rs1, rs2, imm } => s_word(0x23, store_funct3(op), rs1, rs2, low_12(imm)),
        Ins::OpImm { op, rd, rs1, imm } => i_word(0x13, rd, imm_funct3(op), rs1, low_12(imm)),
        Ins::Shift {
            op,
            rd,
            rs1,
            amount,
        } => { r_word(0x13, rd, shift_funct3(op), rs1, amount, shift_funct7(op)) }
        Ins::Op { op, rd, rs1, rs2 } => {
            r_word(0x33, rd, alu_funct3(op), rs1, rs2, alu_funct7(op))
        }
        Ins::Muldiv { op, rd, rs1, rs2 } => r_word(0x33, rd, mul_funct3(op), rs1, rs2, 1),
        Ins::Ecall => 0x0000_0073,
        Ins::Ebreak => 0x0010_0073,
        Ins::Mret => 0x3020_0073,
        Ins::Csr { op, rd, csr, src } => i_word(0x73, rd, csr_funct3(op), src, u32::from(csr)),
        Ins::Gt { rd } => r_word(0x0b, rd, 0, 0, 0, 0),
        Ins::Gth { rd } => r_word(0x0b, rd, 1, 0, 0, 0),
        Ins::Du { rs1, rs2 } => r_word(0x0b, 0, 2, rs1, rs2, 0),
        Ins::Wu { rs1, rs2 } => r_word(0x0b, 0, 3, rs1, rs2, 0),
        Ins::Ee { rs1, rs2 } => r_word(0x0b, 0, 4, rs1, rs2, 0),
        Ins::De => r_word(0x0b, 0, 5, 0, 0, 0),
        Ins::Fence { word } | Ins::Illegal { word } => word,
    }
}

/// A word of format R.
fn r_word(code: u32, rd: u8, funct3: u32, rs1: u8, rs2: u8, funct7: u32) -> u32
    requires code { code < 128 }
    requires rd { rd < 32 }
    requires funct3 { funct3 < 8 }
    requires rs1 { rs1 < 32 }
    requires rs2 { rs2 < 32 }
    requires funct7 { funct7 < 128 }
    ensures { result ≡ r_word code rd funct3 rs1 rs2 funct7 }
{
    code + (u32::from(rd) << 7)
        + (funct3 << 12)
        + (u32::from(rs1) << 15)
        + (u32::from(rs2) << 20)
        + (funct7 << 25)
}

/// A word of format I.
fn i_word(code: u32, rd: u8, funct3: u32, rs1: u8, imm: u32) -> u32
    requires code { code < 128 }
    requires rd { rd < 32 }
    requires funct3 { funct3 < 8 }
    requires rs1 { rs1 < 32 }
    requires imm { imm < 2 ^ 12 }
    ensures { result ≡ i_word code rd funct3 rs1 imm }
{
    code + (u32::from(rd) << 7) + (funct3 << 12) + (u32::from(rs1) << 15) + (imm << 20)
}

/// A word of format S.
fn s_word(code: u32, funct3: u32, rs1: u8, rs2: u8, imm: u32) -> u32
    requires code { code < 128 }
    requires funct3 { funct3 < 8 }
    requires rs1 { rs1 < 32 }
    requires rs2 { rs2 < 32 }
    requires imm { imm < 2 ^ 12 }
    ensures { result ≡ s_word code funct3 rs1 rs2 imm }
{
    r_word(code, (imm & 0x1f) as u8, funct3, rs1, rs2, imm >> 5)
}

/// A word of format B.
fn b_word(code: u32, funct3: u32, rs1: u8, rs2: u8, off: i32) -> u32
    requires code { code < 128 }
    requires funct3 { funct3 < 8 }
    requires rs1 { rs1 < 32 }
    requires rs2 { rs2 < 32 }
    requires off { IsSigned 13 off }
    ensures { result ≡ b_word code funct3 rs1 rs2 (low_bits 13 off) }
{
    let bits = off.cast_unsigned() & 0x1fff;
    let low = (((bits >> 1) & 0xf) << 1) + ((bits >> 11) & 0x1);
    let high = ((bits >> 12) << 6) + ((bits >> 5) & 0x3f);
    r_word(code, low as u8, funct3, rs1, rs2, high)
}

/// A word of format U.
fn u_word(code: u32, rd: u8, imm: u32) -> u32
    requires code { code < 128 }
    requires rd { rd < 32 }
    requires imm { imm < 2 ^ 20 }
    ensures { result ≡ u_word code rd imm }
{
    code + (u32::from(rd) << 7) + (imm << 12)
}

/// A word of format J.
fn j_word(code: u32, rd: u8, off: i32) -> u32
    requires code { code < 128 }
    requires rd { rd < 32 }
    requires off { IsSigned 21 off }
    ensures { result ≡ j_word code rd (low_bits 21 off) }
{
    let bits = off.cast_unsigned() & 0x1f_ffff;
    let imm = ((bits >> 20) << 19)
        + (((bits >> 1) & 0x3ff) << 9)
        + (((bits >> 11) & 0x1) << 8)
        + ((bits >> 12) & 0xff);
    u_word(code, rd, imm)
}

/// The low 12 bits of an immediate.
fn low_12(imm: i32) -> u32
    requires { IsSigned 12 imm }
    ensures bits { result ≡ low_bits 12 imm }
    ensures small { result < 2 ^ 12 }
{
    imm.cast_unsigned() & 0xfff
}

/// The funct3 of a branch.
fn branch_funct3(op: BranchOp) -> u32
    ensures number { result ≡ branch_funct3 op }
    ensures small { result < 8 }
{
    match op {
        BranchOp::Beq => 0,
        BranchOp::Bne => 1,
        BranchOp::Blt => 4,
        BranchOp::Bge => 5,
        BranchOp::Bltu => 6,
        BranchOp::Bgeu => 7,
    }
}

/// The funct3 of a load.
fn load_funct3(op: LoadOp) -> u32
    ensures number { result ≡ load_funct3 op }
    ensures small { result < 8 }
{
    match op {
        LoadOp::Lb => 0,
        LoadOp::Lh => 1,
        LoadOp::Lw => 2,
        LoadOp::Lbu => 4,
        LoadOp::Lhu => 5,
    }
}

/// The funct3 of a store.
fn store_funct3(op: StoreOp) -> u32
    ensures number { result ≡ store_funct3 op }
    ensures small { result < 8 }
{
    match op {
        StoreOp::Sb => 0,
        StoreOp::Sh => 1,
        StoreOp::Sw => 2,
    }
}

/// The funct3 of an instruction with an immediate.
fn imm_funct3(op: ImmOp) -> u32
    ensures number { result ≡ imm_funct3 op }
    ensures small { result < 8 }
{
    match op {
        ImmOp::Addi => 0,
        ImmOp::Slti => 2,
        ImmOp::Sltiu => 3,
        ImmOp::Xori => 4,
        ImmOp::Ori => 6,
        ImmOp::Andi => 7,
    }
}

/// The funct3 of a shift by an immediate.
fn shift_funct3(op: ShiftOp) -> u32
    ensures number { result ≡ shift_funct3 op }
    ensures small { result < 8 }
{
    match op {
        ShiftOp::Slli => 1,
        ShiftOp::Srli | ShiftOp::Srai => 5,
    }
}

/// The funct7 of a shift by an immediate.
fn shift_funct7(op: ShiftOp) -> u32
    ensures number { result ≡ shift_funct7 op }
    ensures small { result < 128 }
{
    match op {
        ShiftOp::Slli | ShiftOp::Srli => 0,
        ShiftOp::Srai => 0x20,
    }
}

/// The funct3 of an instruction with two registers.
fn alu_funct3(op: AluOp) -> u32
    ensures number { result ≡ alu_funct3 op }
    ensures small { result < 8 }
{
    match op {
        AluOp::Add | AluOp::Sub => 0,
        AluOp::Sll => 1,
        AluOp::Slt => 2,
        AluOp::Sltu => 3,
        AluOp::Xor => 4,
        AluOp::Srl | AluOp::Sra => 5,
        AluOp::Or => 6,
        AluOp::And => 7,
    }
}

/// The funct7 of an instruction with two registers.
fn alu_funct7(op: AluOp) -> u32
    ensures number { result ≡ alu_funct7 op }
    ensures small { result < 128 }
{
    match op {
        AluOp::Sub | AluOp::Sra => 0x20,
        AluOp::Add
        | AluOp::Sll
        | AluOp::Slt
        | AluOp::Sltu
        | AluOp::Xor
        | AluOp::Srl
        | AluOp::Or
        | AluOp::And => 0,
    }
}

/// The funct3 of an instruction of the M extension.
fn mul_funct3(op: MulOp) -> u32
    ensures number { result ≡ mul_funct3 op }
    ensures small { result < 8 }
{
    match op {
        MulOp::Mul => 0,
        MulOp::Mulh => 1,
        MulOp::Mulhsu => 2,
        MulOp::Mulhu => 3,
        MulOp::Div => 4,
        MulOp::Divu => 5,
        MulOp::Rem => 6,
        MulOp::Remu => 7,
    }
}

/// The funct3 of a CSR instruction.
fn csr_funct3(op: CsrKind) -> u32
    ensures number { result ≡ csr_funct3 op }
    ensures small { result < 8 }
{
    match op {
        CsrKind::Rw => 1,
        CsrKind::Rs => 2,
        CsrKind::Rc => 3,
        CsrKind::Rwi => 5,
        CsrKind::Rsi => 6,
        CsrKind::Rci => 7,
    }
}
