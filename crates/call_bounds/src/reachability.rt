//! Reachability in the call graph: which functions calls lead to.

ghost use Rattle.std.specs.Prelude.{◌≡◌, ℕ, ◌+◌, ◌*◌, ◌<◌, ◌≤◌, ◌⊎◌, true};
ghost use Rattle.std.specs.Prelude.{false, length, IfOk, slice_index_or};
ghost use Rattle.call_bounds.specs.Reachability.{HasCall, IsCalled, IsClosed, IsSound, IsExact};
ghost use Rattle.call_bounds.specs.Reachability.{Spread, SpreadMet, Swept, is_met, unmet_count};

use std::alloc::{AllocError, Global};

/// Marks the callees of one function, and returns whether any of them was new.
fn spread(table: &[bool], count: usize, function: usize, met: &mut Vec<bool>) -> bool
    requires few { count ≤ 65 }
    requires function { function < count }
    requires table { length table.now ≡ count * count }
    requires met { length met.old.items ≡ count }
    ensures { Spread count table.now function count met.old.items met.new.items result }
{
    let mut changed = false;
    for callee in 0..count {
        if table[function * count + callee] && !met[callee] {
            met[callee] = true;
            changed = true;
        }
    }
    changed
}

/// Marks the callees of one function, if it is marked itself, and returns whether any was new.
fn spread_met(table: &[bool], count: usize, function: usize, met: &mut Vec<bool>) -> bool
    requires few { count ≤ 65 }
    requires function { function < count }
    requires table { length table.now ≡ count * count }
    requires met { length met.old.items ≡ count }
    ensures { SpreadMet count table.now function met.old.items met.new.items result }
{
    if !met[function] {
        return false;
    }
    spread(table, count, function, met)
}

/// Marks the callees of all marked functions, and returns whether any of them was new.
fn sweep(table: &[bool], count: usize, met: &mut Vec<bool>) -> bool
    requires few { count ≤ 65 }
    requires table { length table.now ≡ count * count }
    requires met { length met.old.items ≡ count }
    ensures { Swept count table.now count met.old.items met.new.items result }
{
    let mut changed = false;
    for function in 0..count {
        let more = spread_met(table, count, function, met);
        changed = if more { true } else { changed };
    }
    changed
}

/// A list of `count` functions, none of them marked.
fn none(alloc: Global, count: usize) -> Result<Vec<bool>, AllocError>
    ensures { IfOk result (λ met. (length met.items ≡ count)
        × ((k : ℕ) → is_met met.items k ≡ false)) }
{
    vec![in alloc; false; count]
}

/// Which of `count` functions, at most 65, are reachable by calls from one: a mark for each. The
/// table has at index p times `count` plus q whether function p calls function q.
///
/// # Errors
///
/// Memory ran out.
pub fn led_to(
    alloc: Global,
    table: &[bool],
    count: usize,
    function: usize,
) -> Result<Vec<bool>, AllocError>
    requires few { count ≤ 65 }
    requires function { function < count }
    requires table { length table.now ≡ count * count }
    ensures { IfOk result (λ met. IsExact count table.now function met.items) }
{
    let mut met = none(alloc, count)?;
    spread(table, count, function, &mut met);
    let mut changed = true;
    while changed {
        changed = sweep(table, count, &mut met);
    }
    Ok(met)
}
