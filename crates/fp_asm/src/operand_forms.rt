//! The forms of operands.

ghost use Rattle.std.specs.Prelude.{◌≡◌, ◌<◌, ◌^◌, IfOk, IfSome, Some};
ghost use Rattle.std.specs.Prelude.{None, option_map, map, length};
ghost use Rattle.fp_asm.specs.Operands.{register_in as register_in_of};
ghost use Rattle.fp_asm.specs.Operands.{number_in as number_in_of, target_in as target_in_of};
ghost use Rattle.fp_asm.specs.Operands.{csr_in as csr_in_of, memory_in as memory_in_of};
ghost use Rattle.fp_asm.specs.Operands.{plain, with_operand, all_filled, all_targets};
ghost use Rattle.fp_asm.specs.Operands.{nothing_given as nothing_given_of, HasRegisters};
ghost use Rattle.fp_asm.specs.AbstractPieces.{abstract_piece, abstract_operand};
ghost use Rattle.fp_asm.specs.AbstractOperands.{abstract_target, abstract_operands};

use super::mnemonics::Slot;
use super::names::{csr, register};
use super::operands::{Operands, Target};
use super::pieces::Piece;
use std::alloc::{AllocError, Global};

/// The operands before any is read.
pub(crate) fn nothing_given<'a>() -> Operands<'a>
    ensures { abstract_operands result ≡ nothing_given_of }
{
    Operands {
        rd: 0,
        rs1: 0,
        rs2: 0,
        csr_number: 0,
        given: 0,
        target: Target::Plain { number: 0 },
    }
}

/// The register of an operand that is a register's name.
#[tactic(auto, unfolding(crate::specs::Operands::register_in))]
fn register_in(pieces: &[Piece]) -> Option<u8>
    ensures number { result ≡ register_in_of (map abstract_piece pieces.now) }
    ensures small { IfSome result (λ n. n < 32) }
{
    match pieces {
        [Piece::Name { text }] => register(*text),
        _ => None,
    }
}

/// The number of an operand, with its sign.
#[tactic(auto, unfolding(crate::specs::Operands::number_in))]
fn number_in(pieces: &[Piece]) -> Option<i64>
    ensures { result ≡ number_in_of (map abstract_piece pieces.now) }
{
    match pieces {
        [Piece::Number { value }] => Some(i64::from(*value)),
        [Piece::Minus, Piece::Number { value }] => Some(-i64::from(*value)),
        _ => None,
    }
}

// A number as a target.
fn plain_in<'a>(pieces: &[Piece<'a>]) -> Option<Target<'a>>
    ensures { option_map abstract_target result
        ≡ option_map plain (number_in_of (map abstract_piece pieces.now)) }
{
    match number_in(pieces) {
        Some(number) => Some(Target::Plain { number }),
        None => None,
    }
}

/// The target of an operand: a number, or a label with an offset in bytes.
#[tactic(auto, unfolding(crate::specs::Operands::target_in))]
fn target_in<'a>(pieces: &[Piece<'a>]) -> Option<Target<'a>>
    ensures { option_map abstract_target result
        ≡ target_in_of (map abstract_piece pieces.now) }
{
    match pieces {
        [Piece::Name { text }] => Some(Target::Label {
            name: *text,
            plus: 0,
        }),
        [Piece::Name { text }, Piece::Plus, Piece::Number { value }] => Some(Target::Label {
            name: *text,
            plus: i64::from(*value),
        }),
        [Piece::Name { text }, Piece::Minus, Piece::Number { value }] => Some(Target::Label {
            name: *text,
            plus: -i64::from(*value),
        }),
        _ => plain_in(pieces),
    }
}

/// The CSR's number of an operand: a number, or a CSR's name.
#[tactic(auto, unfolding(crate::specs::Operands::csr_in))]
fn csr_in(pieces: &[Piece]) -> Option<u32>
    ensures { result ≡ csr_in_of (map abstract_piece pieces.now) }
{
    match pieces {
        [Piece::Number { value }] => Some(*value),
        [Piece::Name { text }] => csr(*text),
        _ => None,
    }
}

/// The offset in bytes and the base register of an operand such as `8(x2)`.
#[tactic(auto, unfolding(crate::specs::Operands::memory_in))]
fn memory_in(pieces: &[Piece]) -> Option<(i64, u8)>
    ensures memory { result ≡ memory_in_of (map abstract_piece pieces.now) }
    ensures small { IfSome result (λ m. m.1 < 32) }
{
    match pieces {
        [
            Piece::Number { value },
            Piece::Opening,
            Piece::Name { text },
            Piece::Closing,
        ] => match register(*text) {
            Some(base) => Some((i64::from(*value), base)),
            None => None,
        },
        [
            Piece::Minus,
            Piece::Number { value },
            Piece::Opening,
            Piece::Name { text },
            Piece::Closing,
        ] => match register(*text) {
            Some(base) => Some((-i64::from(*value), base)),
            None => None,
        },
        _ => None,
    }
}

/// The operands with the next one added.
#[tactic(auto, unfolding(crate::specs::Operands::with_operand))]
fn fill<'a>(slot: Slot, pieces: &[Piece<'a>], operands: &Operands<'a>) -> Option<Operands<'a>>
    requires { HasRegisters (abstract_operands operands.now) }
    ensures filled { option_map abstract_operands result
        ≡ with_operand slot (map abstract_piece pieces.now) (abstract_operands operands.now) }
    ensures registers { IfSome result (λ o. HasRegisters (abstract_operands o)) }
{
    match slot {
        Slot::Rd => match register_in(pieces) {
            Some(rd) => Some(Operands { rd, ..*operands }),
            None => None,
        },
        Slot::Rs1 => match register_in(pieces) {
            Some(rs1) => Some(Operands { rs1, ..*operands }),
            None => None,
        },
        Slot::Rs2 => match register_in(pieces) {
            Some(rs2) => Some(Operands { rs2, ..*operands }),
            None => None,
        },
        Slot::Csr => match csr_in(pieces) {
            Some(csr_number) => Some(Operands {
                csr_number,
                ..*operands
            }),
            None => None,
        },
        Slot::Number => match number_in(pieces) {
            Some(given) => Some(Operands { given, ..*operands }),
            None => None,
        },
        Slot::Memory => match memory_in(pieces) {
            Some((given, rs1)) => Some(Operands {
                given,
                rs1,
                ..*operands
            }),
            None => None,
        },
        Slot::Value => match target_in(pieces) {
            Some(target) => Some(Operands {
                target,
                ..*operands
            }),
            None => None,
        },
    }
}

/// The operands with one added for each slot of a form.
#[tactic(auto, using(crate::proofs::Filling::fill_short), unfolding(crate::proofs::Opened::filled))]
pub(crate) fn fill_all<'a>(
    form: &[Slot],
    operands: &[&[Piece<'a>]],
    given: &Operands<'a>,
) -> Option<Operands<'a>>
    requires { HasRegisters (abstract_operands given.now) }
    ensures filled { option_map abstract_operands result
        ≡ all_filled form.now (map abstract_operand operands.now)
        (abstract_operands given.now) }
    ensures registers { IfSome result (λ o. HasRegisters (abstract_operands o)) }
{
    match (form, operands) {
        ([], []) => Some(*given),
        ([slot, slots @ ..], [pieces, others @ ..]) => {
            match fill(*slot, *pieces, given) {
                Some(filled) => fill_all(slots, others, &filled),
                None => None,
            }
        }
        ([], [_, ..]) => None,
        ([_, ..], []) => None,
    }
}

/// Each operand as a target.
///
/// # Errors
///
/// Out of memory.
pub(crate) fn targets<'a>(
    alloc: Global,
    operands: &[&[Piece<'a>]],
) -> Result<Option<Vec<Target<'a>>>, AllocError>
    ensures targets { IfOk result
        (λ found. option_map (λ v. map abstract_target v.items) found
        ≡ all_targets (map abstract_operand operands.now)) }
    ensures few { IfOk result
        (λ found. IfSome found (λ v. length v.items ≡ length operands.now)) }
{
    let mut list = Vec::with_capacity(alloc, operands.len())?;
    for operand in operands {
        let Some(target) = target_in(*operand) else {
            return Ok(None);
        };
        list.push(target)?;
    }
    Ok(Some(list))
}
