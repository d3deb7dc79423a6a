//! The second pass: words.

ghost use Rattle.std.specs.Prelude.{◌≡◌, ◌≤◌, ◌<◌, ◌^◌, ◌%◌, IfOk, IfErr, IfSome};
ghost use Rattle.std.specs.Prelude.{OnOk, Ok, option_map, map, length, All};
ghost use Rattle.fp_asm.specs.Second.{second_line, second_pass as second_pass_of};
ghost use Rattle.fp_asm.specs.Second.{written_by, after_labels};
ghost use Rattle.fp_asm.specs.Statements.{statement_of, statement_check};
ghost use Rattle.fp_asm.specs.Operands.{HasRegisters};
ghost use Rattle.fp_asm.specs.Faults.{IsLineStopOf, IsFaultOf};
ghost use Rattle.fp_asm.specs.AbstractPieces.{abstract_piece, abstract_labels};
ghost use Rattle.fp_asm.specs.AbstractOperands.{abstract_statement, abstract_operands};

use super::labels::{Labels, skip_labels};
use super::memory::write_words;
use super::pieces::pieces;
use super::refusal::{AsmRefused, LineStop};
use super::size::location_after;
use super::statement::{Statement, statement_after};
use super::statement_words::words_of;
use std::alloc::Global;
use std::collections::BTreeMap;

/// The state of the second pass after some lines: the location, and the words by address.
#[derive(Drop)]
pub(crate) struct Second {
    /// The address at which the next word is placed.
    location: u32,
    /// The words that were placed, by address.
    pub(crate) memory: BTreeMap<u32, u32>,
}

impl Second {
    ghost use Rattle.fp_asm.specs.Second.{nothing_written};
    ghost use Rattle.fp_asm.specs.AbstractPasses.{abstract_second};

    /// Before the first line: the location is 0, and there is no word.
    pub(crate) fn new(alloc: Global) -> Second
        ensures { abstract_second result ≡ nothing_written }
    {
        Second {
            location: 0,
            memory: BTreeMap::new(alloc),
        }
    }

    // Writes the words of a statement.
    #[tactic(auto, using(crate::proofs::Checks::after_four), unfolding(crate::proofs::Opened::put))]
    fn write(
        &mut self,
        alloc: Global,
        labels: &Labels,
        statement: &Option<Statement>,
    ) -> Result<(), LineStop>
        requires registers { IfSome statement.now
            (λ s. HasRegisters (abstract_operands s.operands)) }
        requires checked { IfSome statement.now (λ s. statement_check
            (abstract_statement s) ≡ Ok tt) }
        requires few { IfSome statement.now (λ s. length s.values.items ≤ 64) }
        requires aligned { self.old.location % 4 ≡ 0 }
        ensures ok { OnOk result
            (written_by (abstract_labels labels.now) (abstract_second self.old)
            (option_map abstract_statement statement.now) ≡ Ok (abstract_second self.new)) }
        ensures aligned { OnOk result (self.new.location % 4 ≡ 0) }
        ensures refused { IfErr result
            (IsLineStopOf (written_by (abstract_labels labels.now) (abstract_second self.old)
            (option_map abstract_statement statement.now))) }
    {
        if let Some(statement) = statement {
            let words = words_of(alloc, labels, self.location, statement)?;
            write_words(&mut self.memory, self.location, words.as_slice())?;
            self.location = location_after(self.location, statement);
        }
        Ok(())
    }

    /// Takes a line: puts the words of its statement where they belong.
    #[tactic(auto, unfolding(crate::specs::Second::second_line))]
    fn line(&mut self, alloc: Global, labels: &Labels, line: &[u8]) -> Result<(), LineStop>
        requires short { length line.now < 2 ^ 32 }
        requires aligned { self.old.location % 4 ≡ 0 }
        ensures ok { OnOk result
            (second_line (abstract_labels labels.now) (abstract_second self.old)
            line.now ≡ Ok (abstract_second self.new)) }
        ensures aligned { OnOk result (self.new.location % 4 ≡ 0) }
        ensures refused { IfErr result
            (IsLineStopOf
            (second_line (abstract_labels labels.now) (abstract_second self.old) line.now)) }
    {
        // An empty line has no pieces.
        if line.is_empty() {
            return Ok(());
        }
        let pieces = pieces(alloc, line)?;
        let n = skip_labels(&pieces);
        // A line of labels only places no word.
        if n == pieces.len() {
            return Ok(());
        }
        let statement = statement_after(alloc, &pieces[n..])?;
        self.write(alloc, labels, &statement)
    }

    /// The second pass over the lines.
    ///
    /// # Errors
    ///
    /// The first fault and the number of its line: a fault of the line itself, an undefined label,
    /// a jump to an address that is no multiple of four, or a number or an offset outside its
    /// range. Or out of memory.
    pub(crate) fn pass(
        &mut self,
        alloc: Global,
        labels: &Labels,
        lines: &[&[u8]],
    ) -> Result<(), AsmRefused>
        requires short { All (λ l. length l.now < 2 ^ 32) lines.now }
        requires few { length lines.now < 2 ^ 31 }
        requires aligned { self.old.location % 4 ≡ 0 }
        ensures ok { OnOk result
            (second_pass_of 1 (abstract_labels labels.now) (abstract_second self.old)
            (map (λ l. l.now) lines.now) ≡ Ok (abstract_second self.new)) }
        ensures refused { IfErr result
            (IsFaultOf
            (second_pass_of 1 (abstract_labels labels.now) (abstract_second self.old)
            (map (λ l. l.now) lines.now))) }
    {
        for (i, line) in lines.iter().enumerate() {
            if let Err(stop) = self.line(alloc, labels, *line) {
                return Err(stop.refused_in(i as u32 + 1));
            }
        }
        Ok(())
    }
}
