//! The first pass: labels and locations.

ghost use Rattle.std.specs.Prelude.{◌≡◌, ◌≤◌, ◌<◌, ◌^◌, IfOk, IfErr, OnOk};
ghost use Rattle.std.specs.Prelude.{Ok, option_map, map, length, All};
ghost use Rattle.fp_asm.specs.First.{placed_size as sized_of, first_line};
ghost use Rattle.fp_asm.specs.First.{first_pass as first_pass_of};
ghost use Rattle.fp_asm.specs.Faults.{IsLineStopOf, IsFaultOf};
ghost use Rattle.fp_asm.specs.AbstractPieces.{abstract_piece};

use super::addresses::take_addresses;
use super::labels::{Labels, add_labels};
use super::pieces::{Piece, pieces};
use super::refusal::{AsmRefused, LineStop};
use super::size::{location_after, size};
use super::statement::statement_after;
use std::alloc::Global;
use std::collections::{BTreeMap, BTreeSet};

/// The state of the first pass after some lines.
#[derive(Drop)]
pub(crate) struct First<'a> {
    /// The address at which the next word is placed.
    location: u32,
    /// The address of each label.
    pub(crate) labels: Labels<'a>,
    /// The addresses of the words that were placed.
    pub(crate) taken: BTreeSet<u32>,
}

// The number of words that the statement after the labels places, and the location after it.
#[tactic(auto, unfolding(crate::specs::First::placed_size))]
fn sized(alloc: Global, location: u32, pieces: &[Piece]) -> Result<Option<(u32, u32)>, LineStop>
    requires { length pieces.now ≤ 64 }
    ensures ok { IfOk result (λ s. sized_of location (map abstract_piece pieces.now) ≡ Ok s) }
    ensures refused { IfErr result
        (IsLineStopOf (sized_of location (map abstract_piece pieces.now))) }
{
    // A line of labels only places no word.
    if pieces.is_empty() {
        return Ok(None);
    }
    match statement_after(alloc, pieces)? {
        Some(statement) => Ok(Some((size(&statement), location_after(location, &statement)))),
        None => Ok(None),
    }
}

impl<'a> First<'a> {
    ghost use Rattle.fp_asm.specs.First.{start};
    ghost use Rattle.fp_asm.specs.AbstractPasses.{abstract_first};

    /// Before the first line: the location is 0, and there is no label and no word.
    pub(crate) fn new(alloc: Global) -> First<'a>
        ensures { abstract_first result ≡ start }
    {
        First {
            location: 0,
            labels: BTreeMap::new(alloc),
            taken: BTreeSet::new(alloc),
        }
    }

    /// Takes a line: its label, and the addresses that its statement takes.
    #[tactic(auto, unfolding(crate::specs::First::first_line, crate::specs::First::placed_by))]
    fn line(&mut self, alloc: Global, line: &'a [u8]) -> Result<(), LineStop>
        requires { length line.now < 2 ^ 32 }
        ensures ok { OnOk result (first_line (abstract_first self.old) line.now
            ≡ Ok (abstract_first self.new)) }
        ensures refused { IfErr result
            (IsLineStopOf (first_line (abstract_first self.old) line.now)) }
    {
        // An empty line has no pieces.
        if line.is_empty() {
            return Ok(());
        }
        let pieces = pieces(alloc, line)?;
        let n = add_labels(&mut self.labels, self.location, &pieces)?;
        if let Some((size, after)) = sized(alloc, self.location, &pieces[n..])? {
            take_addresses(&mut self.taken, self.location, size)?;
            self.location = after;
        }
        Ok(())
    }

    /// The first pass over the lines.
    ///
    /// # Errors
    ///
    /// The first fault and the number of its line: a fault of the line itself, a label that exists
    /// already, or a word that is outside the scratchpads or overlaps another. Or out of memory.
    pub(crate) fn pass(&mut self, alloc: Global, lines: &[&'a [u8]]) -> Result<(), AsmRefused>
        requires short { All (λ l. length l.now < 2 ^ 32) lines.now }
        requires few { length lines.now < 2 ^ 31 }
        ensures ok { OnOk result (first_pass_of 1 (abstract_first self.old)
            (map (λ l. l.now) lines.now) ≡ Ok (abstract_first self.new)) }
        ensures refused { IfErr result
            (IsFaultOf
            (first_pass_of 1 (abstract_first self.old) (map (λ l. l.now) lines.now))) }
    {
        for (i, line) in lines.iter().enumerate() {
            if let Err(stop) = self.line(alloc, *line) {
                return Err(stop.refused_in(i as u32 + 1));
            }
        }
        Ok(())
    }
}
