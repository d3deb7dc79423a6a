//! The maximal runs of placed addresses.

ghost use Rattle.std.specs.Prelude.{◌≡◌, ◌<◌, ◌^◌, IfOk, length};
ghost use Rattle.std.specs.BTreeSet.{keys};
ghost use Rattle.fp_asm.specs.Runs.{runs_from, runs_of as runs_of_addresses};

use std::alloc::{AllocError, Global};

/// A maximal run of placed words: the address of the first, and their number.
#[derive(Clone, Copy)]
pub(crate) struct Run {
    /// The address of the first word.
    pub(crate) first: u32,
    /// The number of words.
    pub(crate) count: u32,
}

// The runs; the first one begins at an address.
fn runs_after(alloc: Global, start: u32, others: &[u32]) -> Result<Vec<Run>, AllocError>
    requires { length others.now < 2 ^ 30 }
    ensures { IfOk result (λ runs. runs_from start 1 others.now ≡ runs.items) }
{
    let mut list = Vec::new(alloc);
    let mut first = start;
    let mut count = 1;
    for a in others {
        if u64::from(*a) == u64::from(first) + 4 * u64::from(count) {
            count += 1;
            continue;
        }
        list.push(Run { first, count })?;
        first = *a;
        count = 1;
    }
    list.push(Run { first, count })?;
    Ok(list)
}

/// The maximal runs of rising addresses.
///
/// # Errors
///
/// Out of memory.
#[tactic(auto, unfolding(crate::specs::Runs::runs_of))]
pub(crate) fn runs_of(alloc: Global, addresses: &[u32]) -> Result<Vec<Run>, AllocError>
    requires { length addresses.now < 2 ^ 30 }
    ensures { IfOk result (λ runs. runs.items ≡ runs_of_addresses addresses.now) }
{
    match addresses {
        [] => Ok(Vec::new(alloc)),
        [first, others @ ..] => runs_after(alloc, *first, others),
    }
}
