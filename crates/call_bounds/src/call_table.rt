//! Which functions call which: the edges of the call graph.

ghost use Rattle.std.specs.Prelude.{◌≡◌, ℕ, ◌<◌, ◌↔◌, length, false, IfOk, IfSome, Some};
ghost use Rattle.call_bounds.specs.Reachability.{is_met};
ghost use Rattle.region_tree.specs.Search.{IsMet};
ghost use Rattle.region_tree.specs.Tree.{IsDraft};
ghost use Rattle.call_bounds.specs.Build.{CallsAt, IsRow, IsRowTo, IsTable, Marked};
ghost use Rattle.call_bounds.specs.CallRefusals.{IsListing};
ghost use Rattle.call_bounds.specs.Listing.{calls, function_count};

use crate::code::Code;
use region_tree::{Draft, reachable};
use std::alloc::{AllocError, Global};

/// The number of the function that the word at an index calls, if the word is reachable and a call.
fn callee_at(code: &Code, draft: &Draft, met: &[bool], index: usize) -> Option<usize>
    requires listing { IsListing (calls code.now) }
    requires rules { IsDraft draft.now }
    requires met { IsMet draft.now met.now }
    requires within { index < length draft.now.words }
    ensures { (k : ℕ) → (result ≡ Some k) ↔ CallsAt code.now draft.now index k }
{
    if !met[index] {
        return None;
    }
    code.called(draft.address(index))
}

/// Marks a function, if there is one.
fn mark(row: &mut Vec<bool>, function: Option<usize>)
    requires { IfSome function (λ k. k < length row.old.items) }
    ensures { Marked function row.old.items row.new.items }
{
    if let Some(function) = function {
        row[function] = true;
    }
}

/// A row in which no function is marked.
fn unmarked(alloc: Global, count: usize) -> Result<Vec<bool>, AllocError>
    ensures { IfOk result
        (λ row. (length row.items ≡ count) × ((k : ℕ) → is_met row.items k ≡ false)) }
{
    vec![in alloc; false; count]
}

/// Which functions the reachable words of a function call.
fn called_functions(
    alloc: Global,
    code: &Code,
    draft: &Draft,
    met: &[bool],
) -> Result<Vec<bool>, AllocError>
    requires { IsMet draft.now met.now }
    ensures { IfOk result (λ row. IsRowTo code.now draft.now (length draft.now.words) row.items) }
{
    let mut row = unmarked(alloc, code.function_count())?;
    for index in 0..draft.len() {
        let callee = callee_at(code, draft, met, index);
        mark(&mut row, callee);
    }
    Ok(row)
}

/// Which functions one function calls.
fn callees(alloc: Global, code: &Code, function: usize) -> Result<Vec<bool>, AllocError>
    requires listing { IsListing (calls code.now) }
    requires function { function < function_count code.now }
    ensures { IfOk result (λ row. IsRow code.now function row.items) }
{
    let draft = code.draft(alloc, function)?;
    let met = reachable(alloc, &draft)?;
    called_functions(alloc, code, &draft, met.as_slice())
}

/// Which functions call which: a row for each function, with a mark for each function that it
/// calls.
///
/// # Errors
///
/// Memory ran out.
pub fn call_table(alloc: Global, code: &Code) -> Result<Vec<bool>, AllocError>
    ensures { IfOk result (λ table. IsTable code.now table.items) }
{
    let mut table = Vec::new(alloc);
    for function in 0..code.function_count() {
        let row = callees(alloc, code, function)?;
        table.extend_from_slice(row.as_slice())?;
    }
    Ok(table)
}
