//! Targets as words.

ghost use Rattle.std.specs.Prelude.{◌≡◌, IfOk, IfErr, Ok, map, pos, neg_ℤ};
ghost use Rattle.fp_asm.specs.First.{location_of as location_of_label};
ghost use Rattle.fp_asm.specs.Second.{target_word, all_resolved, fits_word as fits_word_of};
ghost use Rattle.std.specs.List.{list_all};
ghost use Rattle.fp_asm.specs.Faults.{IsLineStopOf};
ghost use Rattle.fp_asm.specs.AbstractPieces.{abstract_labels};
ghost use Rattle.fp_asm.specs.AbstractOperands.{abstract_target};

use super::instruction::low_word;
use super::labels::Labels;
use super::operands::Target;
use super::refusal::{AsmNo, LineStop};
use std::alloc::Global;

// The location of a label.
#[tactic(auto, using(crate::proofs::LabelByLabel::location_seen))]
fn location_of(labels: &Labels, name: &[u8]) -> Option<u32>
    ensures { result ≡ location_of_label (abstract_labels labels.now) name.now }
{
    labels.get(name).copied()
}

/// A target as a word, modulo 2^32.
///
/// # Errors
///
/// [`AsmNo::NoLabel`] if the label is undefined.
#[tactic(auto, unfolding(crate::specs::Second::target_word))]
pub(crate) fn resolve(labels: &Labels, target: &Target) -> Result<u32, AsmNo>
    ensures { result ≡ target_word (abstract_labels labels.now) (abstract_target target.now) }
{
    match target {
        Target::Plain { number } => Ok(low_word(*number)),
        Target::Label { name, plus } => match location_of(labels, *name) {
            Some(location) => Ok(location.wrapping_add(low_word(*plus))),
            None => Err(AsmNo::NoLabel),
        },
    }
}

/// Each target as a word.
///
/// # Errors
///
/// [`AsmNo::NoLabel`] if a label is undefined; or out of memory.
pub(crate) fn resolve_all(
    alloc: Global,
    labels: &Labels,
    targets: &[Target],
) -> Result<Vec<u32>, LineStop>
    ensures words { IfOk result (λ words. all_resolved (abstract_labels labels.now)
        (map abstract_target targets.now) ≡ Ok words.items) }
    ensures refused { IfErr result
        (IsLineStopOf
        (all_resolved (abstract_labels labels.now) (map abstract_target targets.now))) }
{
    let mut list = Vec::with_capacity(alloc, targets.len())?;
    for target in targets {
        let word = resolve(labels, target)?;
        list.push(word)?;
    }
    Ok(list)
}

/// Whether a word can hold the target.
pub(crate) fn fits_word(target: &Target) -> bool
    ensures { result ≡ fits_word_of (abstract_target target.now) }
{
    match target {
        Target::Plain { number } => -2_147_483_648 <= *number && *number <= 4_294_967_295,
        Target::Label { .. } => true,
    }
}

/// Whether each target's number fits into a word.
fn each_fits(targets: &[Target]) -> bool
    ensures { result ≡ list_all (λ target. fits_word_of (abstract_target target)) targets.now }
{
    targets.iter().all(|target| fits_word(target))
}

/// Whether a word can hold each target.
#[tactic(auto, using(crate::proofs::TargetByTarget::all_fit))]
pub(crate) fn all_fit(targets: &[Target]) -> bool
    ensures { result ≡ list_all fits_word_of (map abstract_target targets.now) }
{
    each_fits(targets)
}
