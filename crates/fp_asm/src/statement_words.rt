//! The words of a statement.

ghost use Rattle.std.specs.Prelude.{◌≡◌, ◌≤◌, ◌<◌, ◌%◌, ◌^◌, IfOk, IfErr, Ok, Err, map};
ghost use Rattle.std.specs.Prelude.{length, pos, neg_ℤ, ◌∷◌, [], replicate, ◌/◌, nat_abs, ◌≤ℤ◌};
ghost use Rattle.rv_decode.specs.Encoding.{encoding_of};
ghost use Rattle.rv_decode.specs.Range.{IsEven};
ghost use Rattle.rv_decode.specs.declared.instruction.Ins.TheVariants as made;
ghost use Rattle.fp_asm.specs.Operands.{HasRegisters};
ghost use Rattle.fp_asm.specs.Statements.{statement_check};
ghost use Rattle.fp_asm.specs.Second.{offset_to as offset_of, jump as jump_of};
ghost use Rattle.fp_asm.specs.Second.{statement_words as words_of_statement};
ghost use Rattle.fp_asm.specs.Second.{one_word as one_word_of, plain_word, branch_word};
ghost use Rattle.fp_asm.specs.Second.{jal_word, address_words, value_words};
ghost use Rattle.fp_asm.specs.Faults.{IsLineStopOf};
ghost use Rattle.fp_asm.specs.AbstractPieces.{abstract_labels};
ghost use Rattle.fp_asm.specs.AbstractOperands.{abstract_target, abstract_operands};
ghost use Rattle.fp_asm.specs.AbstractOperands.{abstract_statement};

use super::instruction::{halves, instruction, load_words, low_word};
use super::labels::Labels;
use super::mnemonics::{Makes, Plain};
use super::operands::{Operands, Target};
use super::refusal::{AsmNo, LineStop};
use super::size::size;
use super::statement::Statement;
use super::targets::{all_fit, fits_word, resolve, resolve_all};
use rv_decode::{BranchOp, Ins, encode};
use std::alloc::Global;

/// The distance in bytes from a word to a target, modulo 2^32.
fn offset_to(location: u32, to: u32) -> i32
    ensures { result ≡ offset_of location to }
{
    to.wrapping_sub(location).cast_signed()
}

// The offset from a location to an address. It must be in a range, and the address a multiple of
// four.
#[tactic(auto, using(crate::proofs::Offsets::offset_even), unfolding(crate::specs::Second::jump))]
fn jump(low: i32, high: i32, location: u32, to: u32) -> Result<i32, AsmNo>
    requires { location % 4 ≡ 0 }
    ensures offset_to { result ≡ jump_of low high location to }
    ensures within { IfOk result (λ off. (low ≤ℤ off) × (off ≤ℤ high)) }
    ensures even { IfOk result IsEven }
{
    let off = offset_to(location, to);
    if off < low || off > high {
        return Err(AsmNo::OutOfRange);
    }
    if to % 4 != 0 {
        return Err(AsmNo::Misaligned);
    }
    Ok(off)
}

/// The word of an instruction without a label.
#[tactic(auto, unfolding(crate::specs::Second::plain_word))]
fn plain(plain: Plain, operands: &Operands) -> Result<u32, AsmNo>
    requires { HasRegisters (abstract_operands operands.now) }
    ensures { result ≡ plain_word plain (abstract_operands operands.now) }
{
    match instruction(plain, operands) {
        Some(ins) => Ok(encode(&ins)),
        None => Err(AsmNo::OutOfRange),
    }
}

/// The word of a branch. Its offset is within 4 KiB, in steps of two bytes.
#[tactic(auto, unfolding(crate::specs::Second::branch_word))]
fn branch(op: BranchOp, labels: &Labels, location: u32, operands: &Operands) -> Result<u32, AsmNo>
    requires registers { HasRegisters (abstract_operands operands.now) }
    requires aligned { location % 4 ≡ 0 }
    ensures { result ≡ branch_word op (abstract_labels labels.now) location
        (abstract_operands operands.now) }
{
    let to = resolve(labels, &operands.target)?;
    let off = jump(-4096, 4094, location, to)?;
    Ok(encode(&Ins::Branch {
        op,
        rs1: operands.rs1,
        rs2: operands.rs2,
        off,
    }))
}

/// The word of JAL. Its offset is within 1 MiB, in steps of two bytes.
#[tactic(auto, unfolding(crate::specs::Second::jal_word))]
fn jal(labels: &Labels, location: u32, operands: &Operands) -> Result<u32, AsmNo>
    requires registers { HasRegisters (abstract_operands operands.now) }
    requires aligned { location % 4 ≡ 0 }
    ensures { result ≡ jal_word (abstract_labels labels.now) location
        (abstract_operands operands.now) }
{
    let to = resolve(labels, &operands.target)?;
    let off = jump(-1_048_576, 1_048_574, location, to)?;
    Ok(encode(&Ins::Jal {
        rd: operands.rd,
        off,
    }))
}

/// The words of `la`: LUI and ADDI, which together make the address.
#[tactic(auto, unfolding(crate::specs::Second::address_words))]
fn address(alloc: Global, labels: &Labels, operands: &Operands) -> Result<Vec<u32>, LineStop>
    requires { HasRegisters (abstract_operands operands.now) }
    ensures words { IfOk result (λ words. address_words (abstract_labels labels.now)
        (abstract_operands operands.now) ≡ Ok words.items) }
    ensures refused { IfErr result
        (IsLineStopOf
        (address_words (abstract_labels labels.now) (abstract_operands operands.now))) }
{
    let v = resolve(labels, &operands.target)?;
    if !fits_word(&operands.target) {
        return Err(LineStop::Fault {
            code: AsmNo::OutOfRange,
        });
    }
    Ok(halves(alloc, operands.rd, v)?)
}

/// The words of `.word`: the value of each target.
#[tactic(auto, unfolding(crate::specs::Second::value_words))]
fn values(alloc: Global, labels: &Labels, targets: &[Target]) -> Result<Vec<u32>, LineStop>
    ensures words { IfOk result (λ words. value_words (abstract_labels labels.now)
        (map abstract_target targets.now) ≡ Ok words.items) }
    ensures refused { IfErr result
        (IsLineStopOf
        (value_words (abstract_labels labels.now) (map abstract_target targets.now))) }
{
    let words = resolve_all(alloc, labels, targets)?;
    if !all_fit(targets) {
        return Err(LineStop::Fault {
            code: AsmNo::OutOfRange,
        });
    }
    Ok(words)
}

// A word as a list, if there is one.
fn one_word(alloc: Global, word: Result<u32, AsmNo>) -> Result<Vec<u32>, LineStop>
    ensures words { IfOk result (λ words. one_word_of word ≡ Ok words.items) }
    ensures refused { IfErr result (IsLineStopOf (one_word_of word)) }
{
    let word = word?;
    Ok(vec![in alloc; word]?)
}

/// The words of a statement at a location.
///
/// # Errors
///
/// An undefined label, a branch or jump to an address that is no multiple of four, or a number or
/// an offset outside its range; or out of memory.
#[tactic(auto, unfolding(crate::specs::Second::statement_words))]
pub(crate) fn words_of(
    alloc: Global,
    labels: &Labels,
    location: u32,
    statement: &Statement,
) -> Result<Vec<u32>, LineStop>
    requires registers { HasRegisters (abstract_operands statement.now.operands) }
    requires checked { statement_check (abstract_statement statement.now) ≡ Ok tt }
    requires few { length statement.now.values.items ≤ 64 }
    requires aligned { location % 4 ≡ 0 }
    ensures words { IfOk result
        (λ words. words_of_statement (abstract_labels labels.now) location
        (abstract_statement statement.now) ≡ Ok words.items) }
    ensures refused { IfErr result
        (IsLineStopOf (words_of_statement (abstract_labels labels.now) location
        (abstract_statement statement.now))) }
{
    let operands = &statement.operands;
    match statement.makes {
        Makes::Plain(makes) => one_word(alloc, plain(makes, operands)),
        Makes::Branch(op) => one_word(alloc, branch(op, labels, location, operands)),
        Makes::Jal => one_word(alloc, jal(labels, location, operands)),
        Makes::Li => Ok(load_words(alloc, operands.rd, low_word(operands.given))?),
        Makes::La => address(alloc, labels, operands),
        Makes::Words => values(alloc, labels, statement.values.as_slice()),
        Makes::Org => Ok(Vec::new(alloc)),
        Makes::Space => Ok(vec![in alloc; 0; size(statement) as usize]?),
    }
}
