//! The order in which functions call each other.

ghost use Rattle.std.specs.Prelude.{◌≡◌, ℕ, ◌<◌, ◌↔◌, ◌≤◌, ◌*◌, length};
ghost use Rattle.std.specs.Prelude.{true, IfOk, IfErr, IsTrue, OnOk};
ghost use Rattle.call_bounds.specs.Reachability.{IsCalled, is_met};
ghost use Rattle.region_tree.specs.Refusals.{Nowhere};
ghost use Rattle.region_tree.specs.Search.{LowestOf};
ghost use Rattle.call_bounds.specs.Build.{AreReached, IsRankOf, IsTable};
ghost use Rattle.call_bounds.specs.CallRefused.{IsCallRefused};
ghost use Rattle.call_bounds.specs.CallRefusals.{OverlapAt, RecursionAt};
ghost use Rattle.call_bounds.specs.Listing.{AreRanks, calls, function_count};

use crate::code::Code;
use crate::reachability::led_to;
use crate::tree::CallNo;
use std::alloc::{AllocError, Global};

/// Which functions are reached.
fn reached_functions(alloc: Global, code: &Code, table: &[bool]) -> Result<Vec<bool>, AllocError>
    requires { IsTable code.now table.now }
    ensures { IfOk result (λ reached. AreReached code.now reached.items) }
{
    let mut reached = led_to(alloc, table, code.function_count(), 0)?;
    reached[0] = true;
    Ok(reached)
}

/// Whether calls lead from a function back to itself.
fn leads_back(
    alloc: Global,
    table: &[bool],
    count: usize,
    function: usize,
) -> Result<bool, AllocError>
    requires few { count ≤ 65 }
    requires function { function < count }
    requires table { length table.now ≡ count * count }
    ensures { IfOk result (λ back. IsTrue back ↔ IsCalled count table.now function function) }
{
    let led = led_to(alloc, table, count, function)?;
    Ok(led[function])
}

/// Whether a function is reached and calls lead from it back to itself.
fn recurs(
    alloc: Global,
    table: &[bool],
    reached: &[bool],
    count: usize,
    function: usize,
) -> Result<bool, AllocError>
    requires few { count ≤ 65 }
    requires function { function < count }
    requires table { length table.now ≡ count * count }
    requires reached { length reached.now ≡ count }
    ensures { IfOk result
        (λ back. IsTrue back
        ↔ ((is_met reached.now function ≡ true) × IsCalled count table.now function function)) }
{
    if !reached[function] {
        return Ok(false);
    }
    leads_back(alloc, table, count, function)
}

/// The lowest head of a reached routine from which calls lead back to it.
fn recursion(
    alloc: Global,
    code: &Code,
    table: &[bool],
    reached: &[bool],
) -> Result<Option<u32>, AllocError>
    requires table { IsTable code.now table.now }
    requires reached { AreReached code.now reached.now }
    ensures { IfOk result (LowestOf (RecursionAt (calls code.now))) }
{
    let count = code.function_count();
    for function in 1..count {
        let back = recurs(alloc, table, reached, count, function)?;
        if back {
            return Ok(Some(code.range(function).from));
        }
    }
    Ok(None)
}

/// Which functions are reached, if calls lead from none of them back to it.
///
/// # Errors
///
/// `Recursion` with the lowest head of a reached routine from which calls lead back to it; or
/// memory ran out.
pub fn ordered_functions(alloc: Global, code: &Code, table: &[bool]) -> Result<Vec<bool>, CallNo>
    requires table { IsTable code.now table.now }
    requires overlap { Nowhere (OverlapAt (calls code.now)) }
    ensures reached { IfOk result (λ reached. AreReached code.now reached.items) }
    ensures allowed { OnOk result (Nowhere (RecursionAt (calls code.now))) }
    ensures refused { IfErr result (IsCallRefused (calls code.now)) }
{
    let reached = reached_functions(alloc, code, table)?;
    match recursion(alloc, code, table, reached.as_slice())? {
        None => Ok(reached),
        Some(address) => Err(CallNo::Recursion { address }),
    }
}

/// The number of functions that are reachable by calls from one.
fn rank_of(
    alloc: Global,
    table: &[bool],
    count: usize,
    function: usize,
) -> Result<usize, AllocError>
    requires few { count ≤ 65 }
    requires function { function < count }
    requires table { length table.now ≡ count * count }
    ensures { IfOk result (IsRankOf count table.now function) }
{
    let led = led_to(alloc, table, count, function)?;
    Ok(led.iter().filter(|is_led| **is_led).count())
}

/// For each function the number of functions that are reachable by calls from it.
///
/// # Errors
///
/// Memory ran out.
pub fn function_ranks(alloc: Global, code: &Code, table: &[bool]) -> Result<Vec<usize>, AllocError>
    requires table { IsTable code.now table.now }
    requires recursion { Nowhere (RecursionAt (calls code.now)) }
    ensures { IfOk result (λ ranks. AreRanks code.now ranks.items) }
{
    let count = code.function_count();
    let mut ranks = Vec::new(alloc);
    for function in 0..count {
        let rank = rank_of(alloc, table, count, function)?;
        ranks.push(rank)?;
    }
    Ok(ranks)
}
