//! The statement of a line.

ghost use Rattle.std.specs.Prelude.{◌≡◌, ◌+◌, ◌≤◌, IfOk, IfErr, IfSome};
ghost use Rattle.std.specs.Prelude.{Ok, option_map, map, length};
ghost use Rattle.fp_asm.specs.Operands.{HasRegisters};
ghost use Rattle.fp_asm.specs.Statements.{is_words as is_words_of, some_targets as some_targets_of};
ghost use Rattle.fp_asm.specs.Statements.{statement_in as statement_in_of};
ghost use Rattle.fp_asm.specs.Statements.{aligned_to as aligned_to_of, statement_check};
ghost use Rattle.fp_asm.specs.Statements.{statement_named, statement_of};
ghost use Rattle.fp_asm.specs.Faults.{IsLineStopOf};
ghost use Rattle.fp_asm.specs.AbstractPieces.{abstract_piece, abstract_operand, abstract_mnemonic};
ghost use Rattle.fp_asm.specs.AbstractOperands.{abstract_target, abstract_operands};
ghost use Rattle.fp_asm.specs.AbstractOperands.{abstract_statement};

use super::mnemonics::{Makes, Row, mnemonic};
use super::operand_forms::{fill_all, nothing_given, targets};
use super::operands::{Operands, Target};
use super::pieces::{Piece, operands};
use super::refusal::{AsmNo, LineStop};
use region_guard::SMALL_SIZE;
use std::alloc::{AllocError, Global};

/// The output of a mnemonic, with its operands. The values are those of `.word`.
#[derive(Drop)]
pub(crate) struct Statement<'a> {
    /// The mnemonic's kind of output.
    pub(crate) makes: Makes,
    /// The operands, except the values of `.word`.
    pub(crate) operands: Operands<'a>,
    /// The values of `.word`; none for another mnemonic.
    pub(crate) values: Vec<Target<'a>>,
}

/// Whether a statement makes words: an instruction or `.word`.
fn is_words(makes: Makes) -> bool
    ensures { result ≡ is_words_of makes }
{
    matches!(makes, Makes::Words)
}

// One or more operands, each as a target.
#[tactic(auto, unfolding(crate::specs::Statements::some_targets))]
fn some_targets<'a>(
    alloc: Global,
    operands: &[&[Piece<'a>]],
) -> Result<Option<Vec<Target<'a>>>, AllocError>
    ensures targets { IfOk result
        (λ found. option_map (λ v. map abstract_target v.items) found
        ≡ some_targets_of (map abstract_operand operands.now)) }
    ensures few { IfOk result
        (λ found. IfSome found (λ v. length v.items ≡ length operands.now)) }
{
    match operands {
        [] => Ok(None),
        [_, ..] => targets(alloc, operands),
    }
}

// The statement of a row with its operands, if their number and form are right.
#[tactic(auto, unfolding(crate::specs::Statements::statement_in))]
fn statement_in<'a>(
    alloc: Global,
    row: &Row,
    operands: &[&[Piece<'a>]],
) -> Result<Option<Statement<'a>>, AllocError>
    ensures statement { IfOk result
        (λ s. option_map abstract_statement s
        ≡ statement_in_of (abstract_mnemonic row.now) (map abstract_operand operands.now)) }
    ensures registers { IfOk result
        (λ s. IfSome s (λ s. HasRegisters (abstract_operands s.operands))) }
    ensures few { IfOk result
        (λ s. IfSome s (λ s. length s.values.items ≤ length operands.now)) }
{
    let makes = row.makes;
    if is_words(makes) {
        let Some(values) = some_targets(alloc, operands)? else {
            return Ok(None);
        };
        return Ok(Some(Statement {
            makes,
            operands: nothing_given(),
            values,
        }));
    }
    let Some(operands) = fill_all(row.form, operands, &nothing_given()) else {
        return Ok(None);
    };
    Ok(Some(Statement {
        makes,
        operands,
        values: Vec::new(alloc),
    }))
}

// A number from 0 to a limit that must be a multiple of four.
#[tactic(auto, unfolding(crate::specs::Statements::aligned_to))]
fn aligned_to(most: u32, number: i64) -> Result<(), AsmNo>
    ensures { result ≡ aligned_to_of most number }
{
    if number < 0 || number > i64::from(most) {
        return Err(AsmNo::OutOfRange);
    }
    if number.unsigned_abs() % 4 != 0 {
        return Err(AsmNo::Misaligned);
    }
    Ok(())
}

// The checks of a number that precede the resolution of labels.
#[tactic(auto, unfolding(crate::specs::Statements::statement_check))]
fn check(statement: &Statement) -> Result<(), AsmNo>
    ensures { result ≡ statement_check (abstract_statement statement.now) }
{
    let number = statement.operands.given;
    match statement.makes {
        Makes::Org => aligned_to(4_294_967_292, number),
        Makes::Space => aligned_to(SMALL_SIZE, number),
        Makes::Li => {
            if number < -2_147_483_648 || number > 4_294_967_295 {
                Err(AsmNo::OutOfRange)
            } else {
                Ok(())
            }
        }
        _ => Ok(()),
    }
}

// The statement from a name and the pieces after it.
#[tactic(auto, unfolding(crate::specs::Statements::statement_named))]
fn named<'a>(alloc: Global, text: &[u8], pieces: &[Piece<'a>]) -> Result<Statement<'a>, LineStop>
    ensures statement { IfOk result
        (λ s. statement_named text.now (map abstract_piece pieces.now)
        ≡ Ok (abstract_statement s)) }
    ensures registers { IfOk result (λ s. HasRegisters (abstract_operands s.operands)) }
    ensures checked { IfOk result (λ s. statement_check (abstract_statement s) ≡ Ok tt) }
    ensures few { IfOk result (λ s. length s.values.items ≤ length pieces.now + 1) }
    ensures refused { IfErr result
        (IsLineStopOf (statement_named text.now (map abstract_piece pieces.now))) }
{
    let Some(row) = mnemonic(text) else {
        return Err(LineStop::Fault {
            code: AsmNo::UnknownName,
        });
    };
    let operands = operands(alloc, pieces)?;
    let Some(statement) = statement_in(alloc, row, operands.as_slice())? else {
        return Err(LineStop::Fault {
            code: AsmNo::Operands,
        });
    };
    check(&statement)?;
    Ok(statement)
}

/// The statement after the labels, if there is one.
///
/// # Errors
///
/// The fault of the name, of the operands, or of a number that a directive or LI takes; or out of
/// memory.
#[tactic(auto, unfolding(crate::specs::Statements::statement_of))]
pub(crate) fn statement_after<'a>(
    alloc: Global,
    pieces: &[Piece<'a>],
) -> Result<Option<Statement<'a>>, LineStop>
    ensures statement { IfOk result
        (λ s. statement_of (map abstract_piece pieces.now)
        ≡ Ok (option_map abstract_statement s)) }
    ensures registers { IfOk result
        (λ s. IfSome s (λ s. HasRegisters (abstract_operands s.operands))) }
    ensures checked { IfOk result
        (λ s. IfSome s (λ s. statement_check (abstract_statement s) ≡ Ok tt)) }
    ensures few { IfOk result (λ s. IfSome s (λ s. length s.values.items ≤ length pieces.now)) }
    ensures refused { IfErr result (IsLineStopOf (statement_of (map abstract_piece pieces.now))) }
{
    match pieces {
        [] => Ok(None),
        [Piece::Name { text }, others @ ..] => {
            let statement = named(alloc, *text, others)?;
            Ok(Some(statement))
        }
        _ => Err(LineStop::Fault {
            code: AsmNo::Operands,
        }),
    }
}
