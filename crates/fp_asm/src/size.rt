//! The number of words that a statement places, and the location after it.

ghost use Rattle.std.specs.Prelude.{◌≡◌, ◌≤◌, ◌<◌, ◌%◌, ◌^◌, Ok, length, nat_abs};
ghost use Rattle.fp_asm.specs.Statements.{statement_check, size_of};
ghost use Rattle.fp_asm.specs.Statements.{location_after as location_after_of};
ghost use Rattle.fp_asm.specs.AbstractOperands.{abstract_statement};

use super::instruction::{load_size, low_word};
use super::mnemonics::Makes;
use super::operands::Operands;
use super::statement::Statement;

/// The absolute value of the number in the operands.
fn magnitude(operands: &Operands) -> u64
    ensures { result ≡ nat_abs operands.now.given }
{
    operands.given.unsigned_abs()
}

/// The number of words that the statement places.
#[tactic(auto, using(crate::proofs::Checks::values_count), unfolding(crate::proofs::Opened::sizes))]
pub(crate) fn size(statement: &Statement) -> u32
    requires checked { statement_check (abstract_statement statement.now) ≡ Ok tt }
    requires few { length statement.now.values.items ≤ 64 }
    ensures size { result ≡ size_of (abstract_statement statement.now) }
    ensures small { result ≤ 4096 }
{
    match statement.makes {
        Makes::Li => load_size(low_word(statement.operands.given)),
        Makes::La => 2,
        Makes::Words => statement.values.len() as u32,
        Makes::Org => 0,
        Makes::Space => (magnitude(&statement.operands) / 4) as u32,
        _ => 1,
    }
}

/// The location after the statement.
#[tactic(auto, unfolding(crate::specs::Statements::location_after))]
pub(crate) fn location_after(location: u32, statement: &Statement) -> u32
    requires checked { statement_check (abstract_statement statement.now) ≡ Ok tt }
    requires few { length statement.now.values.items ≤ 64 }
    ensures location { result ≡ location_after_of location (abstract_statement statement.now) }
{
    match statement.makes {
        Makes::Org => magnitude(&statement.operands) as u32,
        _ => location.wrapping_add(4 * size(statement)),
    }
}
