//! The addresses that are placed.

ghost use Rattle.std.specs.Prelude.{◌≡◌, ◌≤◌, IfErr, OnOk, Ok, not};
ghost use Rattle.std.specs.List.{list_all};
ghost use Rattle.fp_asm.specs.First.{is_inside as is_inside_of, addresses, is_taken};
ghost use Rattle.fp_asm.specs.First.{with_taken, take_addresses as take_addresses_of};
ghost use Rattle.fp_asm.specs.Faults.{IsLineStopOf};

use super::refusal::{AsmNo, LineStop};
use region_guard::{DATA_START, SMALL_SIZE};
use std::alloc::AllocError;
use std::collections::BTreeSet;

/// Whether an address lies in one of the scratchpads of version 1.
fn is_inside(a: u32) -> bool
    ensures { result ≡ is_inside_of a }
{
    a < SMALL_SIZE || (DATA_START <= a && a < DATA_START + SMALL_SIZE)
}

// Whether the scratchpads have n words from a location on.
#[tactic(auto, using(crate::proofs::WordByWord::counting))]
fn are_inside(location: u32, n: u32) -> bool
    ensures { result ≡ list_all is_inside_of (addresses location n) }
{
    let mut a = location;
    let mut left = n;
    while left != 0 {
        if !is_inside(a) {
            return false;
        }
        a = a.wrapping_add(4);
        left -= 1;
    }
    true
}

// Whether none of n words from a location on was placed.
#[tactic(auto, using(crate::proofs::WordByWord::counting))]
fn are_free(taken: &BTreeSet<u32>, location: u32, n: u32) -> bool
    ensures { result ≡ list_all (λ a. not (is_taken taken.now.keys a)) (addresses location n) }
{
    let mut a = location;
    let mut left = n;
    while left != 0 {
        if taken.contains(&a) {
            return false;
        }
        a = a.wrapping_add(4);
        left -= 1;
    }
    true
}

/// Marks the addresses of `n` words from `location` on as taken.
#[tactic(auto, using(crate::proofs::WordByWord::counting))]
fn take(taken: &mut BTreeSet<u32>, location: u32, n: u32) -> Result<(), AllocError>
    ensures { OnOk result (taken.new.keys ≡ with_taken taken.old.keys (addresses location n)) }
{
    let mut a = location;
    let mut left = n;
    while left != 0 {
        taken.insert(a)?;
        a = a.wrapping_add(4);
        left -= 1;
    }
    Ok(())
}

/// Places n words from a location on.
///
/// # Errors
///
/// [`AsmNo::OutsideMemory`] if a word is outside the scratchpads, and then [`AsmNo::Overlap`] if
/// there is a word at one of the locations; or out of memory.
#[tactic(auto, unfolding(crate::specs::First::take_addresses))]
pub(crate) fn take_addresses(
    taken: &mut BTreeSet<u32>,
    location: u32,
    n: u32,
) -> Result<(), LineStop>
    ensures ok { OnOk result (take_addresses_of taken.old.keys (addresses location n)
        ≡ Ok taken.new.keys) }
    ensures refused { IfErr result
        (IsLineStopOf (take_addresses_of taken.old.keys (addresses location n))) }
{
    if !are_inside(location, n) {
        return Err(LineStop::Fault {
            code: AsmNo::OutsideMemory,
        });
    }
    if !are_free(taken, location, n) {
        return Err(LineStop::Fault {
            code: AsmNo::Overlap,
        });
    }
    take(taken, location, n)?;
    Ok(())
}
