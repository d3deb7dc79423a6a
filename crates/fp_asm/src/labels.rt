//! Labels and their locations.

ghost use Rattle.std.specs.Prelude.{◌≡◌, ◌≤◌, ◌+◌, ◌∷◌, IfOk, IfErr, IfSome};
ghost use Rattle.std.specs.Prelude.{IfNone, OnOk, Ok, map, length, drop, false};
ghost use Rattle.fp_asm.specs.Pieces.{name, colon};
ghost use Rattle.fp_asm.specs.First.{with_label, with_labels, has_label};
ghost use Rattle.fp_asm.specs.Second.{after_labels};
ghost use Rattle.fp_asm.specs.Faults.{IsLineStopOf};
ghost use Rattle.fp_asm.specs.AbstractPieces.{abstract_piece, abstract_labels};

use super::pieces::Piece;
use super::refusal::{AsmNo, LineStop};
use std::collections::BTreeMap;

/// The locations of labels; their names are slices of the source.
pub(crate) type Labels<'a> = BTreeMap<&'a [u8], u32>;

/// Gives a label its address. A label that has one already is refused.
#[tactic(auto, using(crate::proofs::LabelByLabel::added))]
fn add_label<'a>(labels: &mut Labels<'a>, name: &'a [u8], location: u32) -> Result<(), LineStop>
    ensures ok { OnOk result (with_label location (abstract_labels labels.old) name.now
        ≡ Ok (abstract_labels labels.new)) }
    ensures refused { IfErr result
        (IsLineStopOf (with_label location (abstract_labels labels.old) name.now)) }
{
    match labels.insert(name, location)? {
        None => Ok(()),
        Some(_) => Err(LineStop::Fault {
            code: AsmNo::DoubleLabel,
        }),
    }
}

/// The label that a line begins with: a name and a colon.
#[tactic(auto, unfolding(crate::specs::First::has_label))]
fn label_at<'a>(pieces: &[Piece<'a>]) -> Option<&'a [u8]>
    ensures some { IfSome result (λ x. map abstract_piece pieces.now ≡ name x.now
        ∷ (colon ∷ map abstract_piece (drop 2 pieces.now))) }
    ensures two { IfSome result (λ x. 2 ≤ length pieces.now) }
    ensures none { IfNone result (has_label (map abstract_piece pieces.now) ≡ false) }
{
    match pieces {
        [Piece::Name { text }, Piece::Colon, ..] => Some(*text),
        _ => None,
    }
}

// The label at an index of the pieces, if there is one.
#[tactic(auto, using(crate::proofs::LabelByLabel::rest_all, crate::proofs::LabelByLabel::two_more))]
fn label_from<'a>(pieces: &[Piece<'a>], n: usize) -> Option<&'a [u8]>
    requires { n ≤ length pieces.now }
    ensures some { IfSome result (λ x. map abstract_piece (drop n pieces.now) ≡ name x.now
        ∷ (colon ∷ map abstract_piece (drop (n + 2) pieces.now))) }
    ensures two { IfSome result (λ x. n + 2 ≤ length pieces.now) }
    ensures none { IfNone result (has_label (map abstract_piece (drop n pieces.now)) ≡ false) }
{
    label_at(&pieces[n..])
}

/// Adds the labels at the head of the pieces, and returns the number of their pieces.
///
/// # Errors
///
/// [`AsmNo::DoubleLabel`] if one of them exists already; or out of memory.
#[tactic(auto, using(crate::proofs::LabelByLabel::labelling))]
pub(crate) fn add_labels<'a>(
    labels: &mut Labels<'a>,
    location: u32,
    pieces: &[Piece<'a>],
) -> Result<usize, LineStop>
    ensures ok { IfOk result (λ n. with_labels location (abstract_labels labels.old)
        (map abstract_piece pieces.now) ≡ Ok
        (abstract_labels labels.new, map abstract_piece (drop n pieces.now))) }
    ensures within { IfOk result (λ n. n ≤ length pieces.now) }
    ensures refused { IfErr result
        (IsLineStopOf
        (with_labels location (abstract_labels labels.old) (map abstract_piece pieces.now))) }
{
    let mut n = 0;
    while let Some(text) = label_from(pieces, n) {
        if let Err(stop) = add_label(labels, text, location) {
            return Err(stop);
        }
        n += 2;
    }
    Ok(n)
}

/// The number of pieces of the labels at the head.
#[tactic(auto, using(crate::proofs::LabelByLabel::skipping))]
pub(crate) fn skip_labels(pieces: &[Piece]) -> usize
    ensures rest { after_labels (map abstract_piece pieces.now)
        ≡ map abstract_piece (drop result pieces.now) }
    ensures within { result ≤ length pieces.now }
{
    let mut n = 0;
    while let Some(_text) = label_from(pieces, n) {
        n += 2;
    }
    n
}
