//! The instructions of mnemonics.

ghost use Rattle.std.specs.Prelude.{◌≡◌, ◌≤◌, ◌<◌, ◌^◌, IfOk, IfSome, map, length, pos, neg_ℤ};
ghost use Rattle.rv_decode.specs.Encoding.{low_bits, encoding_of};
ghost use Rattle.rv_decode.specs.Range.{InRange, IsSigned};
ghost use Rattle.fp_asm.specs.Operands.{HasRegisters};
ghost use Rattle.fp_asm.specs.Words.{signed_12 as signed_12_of, up_to as up_to_of};
ghost use Rattle.fp_asm.specs.Words.{instruction as instruction_of, upper as upper_of};
ghost use Rattle.fp_asm.specs.Words.{rest as rest_of, halves as halves_of, load_instructions};
ghost use Rattle.fp_asm.specs.AbstractOperands.{abstract_operands};

use super::mnemonics::Plain;
use super::operands::Operands;
use rv_decode::{CsrKind, ImmOp, Ins, LoadOp, ShiftOp, StoreOp, encode};
use std::alloc::{AllocError, Global};

// A number of twelve bits with a sign.
#[tactic(auto, unfolding(crate::specs::Words::signed_12))]
fn signed_12(number: i64) -> Option<i32>
    ensures number { result ≡ signed_12_of number }
    ensures in_range { IfSome result (IsSigned 12) }
{
    if number < -2048 || number > 2047 {
        None
    } else {
        Some(number as i32)
    }
}

// A number from 0 to a limit.
#[tactic(auto, unfolding(crate::specs::Words::up_to))]
fn up_to(most: u32, number: i64) -> Option<u32>
    ensures number { result ≡ up_to_of most number }
    ensures in_range { IfSome result (λ n. n ≤ most) }
{
    if number < 0 || number > i64::from(most) {
        None
    } else {
        Some(number as u32)
    }
}

/// An instruction with an immediate of 12 bits, such as ADDI.
#[tactic(auto, unfolding(crate::specs::Words::instruction))]
fn op_imm(op: ImmOp, operands: &Operands) -> Option<Ins>
    requires { HasRegisters (abstract_operands operands.now) }
    ensures instruction { result ≡ instruction_of (Plain.OpImm op)
        (abstract_operands operands.now) }
    ensures in_range { IfSome result InRange }
{
    let imm = signed_12(operands.given)?;
    Some(Ins::OpImm {
        op,
        rd: operands.rd,
        rs1: operands.rs1,
        imm,
    })
}

/// A shift by an amount of up to 31 bits.
#[tactic(auto, unfolding(crate::specs::Words::instruction))]
fn shift(op: ShiftOp, operands: &Operands) -> Option<Ins>
    requires { HasRegisters (abstract_operands operands.now) }
    ensures instruction { result ≡ instruction_of (Plain.Shift op)
        (abstract_operands operands.now) }
    ensures in_range { IfSome result InRange }
{
    let amount = up_to(31, operands.given)?;
    Some(Ins::Shift {
        op,
        rd: operands.rd,
        rs1: operands.rs1,
        amount: amount as u8,
    })
}

/// A load, with an offset of 12 bits.
#[tactic(auto, unfolding(crate::specs::Words::instruction))]
fn load(op: LoadOp, operands: &Operands) -> Option<Ins>
    requires { HasRegisters (abstract_operands operands.now) }
    ensures instruction { result ≡ instruction_of (Plain.Load op)
        (abstract_operands operands.now) }
    ensures in_range { IfSome result InRange }
{
    let imm = signed_12(operands.given)?;
    Some(Ins::Load {
        op,
        rd: operands.rd,
        rs1: operands.rs1,
        imm,
    })
}

/// A store, with an offset of 12 bits.
#[tactic(auto, unfolding(crate::specs::Words::instruction))]
fn store(op: StoreOp, operands: &Operands) -> Option<Ins>
    requires { HasRegisters (abstract_operands operands.now) }
    ensures instruction { result ≡ instruction_of (Plain.Store op)
        (abstract_operands operands.now) }
    ensures in_range { IfSome result InRange }
{
    let imm = signed_12(operands.given)?;
    Some(Ins::Store {
        op,
        rs1: operands.rs1,
        rs2: operands.rs2,
        imm,
    })
}

/// JALR, with an offset of 12 bits.
#[tactic(auto, unfolding(crate::specs::Words::instruction))]
fn jalr(operands: &Operands) -> Option<Ins>
    requires { HasRegisters (abstract_operands operands.now) }
    ensures instruction { result ≡ instruction_of Plain.Jalr (abstract_operands operands.now) }
    ensures in_range { IfSome result InRange }
{
    let imm = signed_12(operands.given)?;
    Some(Ins::Jalr {
        rd: operands.rd,
        rs1: operands.rs1,
        imm,
    })
}

/// LUI, with an immediate of 20 bits.
#[tactic(auto, unfolding(crate::specs::Words::instruction))]
fn lui(operands: &Operands) -> Option<Ins>
    requires { HasRegisters (abstract_operands operands.now) }
    ensures instruction { result ≡ instruction_of Plain.Lui (abstract_operands operands.now) }
    ensures in_range { IfSome result InRange }
{
    let imm = up_to(1_048_575, operands.given)?;
    Some(Ins::Lui {
        rd: operands.rd,
        imm,
    })
}

/// AUIPC, with an immediate of 20 bits.
#[tactic(auto, unfolding(crate::specs::Words::instruction))]
fn auipc(operands: &Operands) -> Option<Ins>
    requires { HasRegisters (abstract_operands operands.now) }
    ensures instruction { result ≡ instruction_of Plain.Auipc (abstract_operands operands.now) }
    ensures in_range { IfSome result InRange }
{
    let imm = up_to(1_048_575, operands.given)?;
    Some(Ins::Auipc {
        rd: operands.rd,
        imm,
    })
}

/// A CSR instruction with a source register.
#[tactic(auto, unfolding(crate::specs::Words::instruction))]
fn csr(op: CsrKind, operands: &Operands) -> Option<Ins>
    requires { HasRegisters (abstract_operands operands.now) }
    ensures instruction { result ≡ instruction_of (Plain.Csr op)
        (abstract_operands operands.now) }
    ensures in_range { IfSome result InRange }
{
    let csr = up_to(4095, i64::from(operands.csr_number))?;
    Some(Ins::Csr {
        op,
        rd: operands.rd,
        csr: csr as u16,
        src: operands.rs1,
    })
}

/// A CSR instruction with an immediate of five bits.
#[tactic(auto, unfolding(crate::specs::Words::instruction))]
fn csr_imm(op: CsrKind, operands: &Operands) -> Option<Ins>
    requires { HasRegisters (abstract_operands operands.now) }
    ensures instruction { result ≡ instruction_of (Plain.CsrImm op)
        (abstract_operands operands.now) }
    ensures in_range { IfSome result InRange }
{
    let csr = up_to(4095, i64::from(operands.csr_number))?;
    let src = up_to(31, operands.given)?;
    Some(Ins::Csr {
        op,
        rd: operands.rd,
        csr: csr as u16,
        src: src as u8,
    })
}

/// The instruction of a row without an address, if each number is in its range.
#[tactic(auto, unfolding(crate::specs::Words::instruction))]
pub(crate) fn instruction(plain: Plain, operands: &Operands) -> Option<Ins>
    requires { HasRegisters (abstract_operands operands.now) }
    ensures instruction { result ≡ instruction_of plain (abstract_operands operands.now) }
    ensures in_range { IfSome result InRange }
{
    let rd = operands.rd;
    let rs1 = operands.rs1;
    let rs2 = operands.rs2;
    match plain {
        Plain::Op(op) => Some(Ins::Op { op, rd, rs1, rs2 }),
        Plain::Muldiv(op) => Some(Ins::Muldiv { op, rd, rs1, rs2 }),
        Plain::OpImm(op) => op_imm(op, operands),
        Plain::Shift(op) => shift(op, operands),
        Plain::Load(op) => load(op, operands),
        Plain::Store(op) => store(op, operands),
        Plain::Jalr => jalr(operands),
        Plain::Lui => lui(operands),
        Plain::Auipc => auipc(operands),
        Plain::Csr(op) => csr(op, operands),
        Plain::CsrImm(op) => csr_imm(op, operands),
        Plain::Gt => Some(Ins::Gt { rd }),
        Plain::Gth => Some(Ins::Gth { rd }),
        Plain::Du => Some(Ins::Du { rs1, rs2 }),
        Plain::Wu => Some(Ins::Wu { rs1, rs2 }),
        Plain::Ee => Some(Ins::Ee { rs1, rs2 }),
        Plain::De => Some(Ins::De),
        Plain::Ecall => Some(Ins::Ecall),
        Plain::Ebreak => Some(Ins::Ebreak),
        Plain::Mret => Some(Ins::Mret),
        Plain::Fence => Some(Ins::Fence { word: 0x0ff0_000f }),
        Plain::FenceI => Some(Ins::Fence { word: 0x0000_100f }),
        Plain::Not => Some(Ins::OpImm {
            op: ImmOp::Xori,
            rd,
            rs1,
            imm: -1,
        }),
        Plain::Ret => Some(Ins::Jalr {
            rd: 0,
            rs1: 1,
            imm: 0,
        }),
    }
}

/// A number modulo 2^32.
pub(crate) fn low_word(number: i64) -> u32
    ensures { result ≡ low_bits 32 number }
{
    (number.cast_unsigned() & 0xffff_ffff) as u32
}

// The upper twenty bits of a word, rounded so that the rest is added to them with its sign.
fn upper(v: u32) -> u32
    ensures part { result ≡ upper_of v }
    ensures small { result < 2 ^ 20 }
{
    v.wrapping_add(2048) >> 12
}

// The low twelve bits of a word, with their sign.
fn rest(v: u32) -> i32
    ensures part { result ≡ rest_of v }
    ensures small { IsSigned 12 result }
{
    let low = (v & 0xfff) as i32;
    if low < 2048 { low } else { low - 4096 }
}

/// The words of the two instructions that load the word `v` into a register.
///
/// # Errors
///
/// Out of memory.
#[tactic(auto, unfolding(crate::specs::Words::halves))]
pub(crate) fn halves(alloc: Global, rd: u8, v: u32) -> Result<Vec<u32>, AllocError>
    requires { rd < 32 }
    ensures { IfOk result (λ words. words.items ≡ map encoding_of (halves_of rd v)) }
{
    let lui = encode(&Ins::Lui { rd, imm: upper(v) });
    let addi = encode(&Ins::OpImm {
        op: ImmOp::Addi,
        rd,
        rs1: rd,
        imm: rest(v),
    });
    Ok(vec![in alloc; lui, addi]?)
}

/// The words of the instructions that load the word `v` into a register, as few as possible.
///
/// # Errors
///
/// Out of memory.
#[tactic(auto, unfolding(crate::specs::Words::load_instructions))]
pub(crate) fn load_words(alloc: Global, rd: u8, v: u32) -> Result<Vec<u32>, AllocError>
    requires { rd < 32 }
    ensures { IfOk result (λ words. words.items ≡ map encoding_of (load_instructions rd v)) }
{
    let signed = v.cast_signed();
    if signed >= -2048 && signed <= 2047 {
        let addi = encode(&Ins::OpImm {
            op: ImmOp::Addi,
            rd,
            rs1: 0,
            imm: signed,
        });
        return Ok(vec![in alloc; addi]?);
    }
    if v % 4096 == 0 {
        let lui = encode(&Ins::Lui { rd, imm: upper(v) });
        return Ok(vec![in alloc; lui]?);
    }
    halves(alloc, rd, v)
}

/// The number of instructions that load the word `v` into a register.
#[tactic(auto, unfolding(crate::specs::Words::load_instructions, crate::specs::Words::halves))]
pub(crate) fn load_size(v: u32) -> u32
    ensures size { result ≡ length (load_instructions 0 v) }
    ensures small { result ≤ 2 }
{
    let signed = v.cast_signed();
    if (signed >= -2048 && signed <= 2047) || v % 4096 == 0 {
        1
    } else {
        2
    }
}
