//! The costs of paths of routines, between the frame positions at which they begin and end.

ghost use Rattle.std.specs.Prelude.{◌≡◌, ℕ, ◌+◌, ◌-◌, ◌*◌, ◌/◌, ◌<◌, ◌≤◌};
ghost use Rattle.std.specs.Prelude.{None, length, replicate, IfOk, OnOk};
ghost use Rattle.std.specs.Option.{option_map};
ghost use Rattle.region_tree.specs.Tree.{IsSection};
ghost use Rattle.bound_calc.specs.Best.{Either, In, IsBest, Then};
ghost use Rattle.bound_calc.specs.Matrices.{entry};
ghost use Rattle.bound_calc.specs.Propagation.{Ended, costs_on};
ghost use Rattle.call_bounds.specs.Calls.{IsReached};
ghost use Rattle.call_bounds.specs.Listing.{AreRanks, calls, function_at, function_count, rank_at};
ghost use Rattle.call_bounds.specs.Patched.{function_tree};
ghost use Rattle.call_bounds.specs.Summaries.{AreCallees, AreKnown, AreReturns, AreSummaries};
ghost use Rattle.call_bounds.specs.Summaries.{EndsAt, Ending, IsAdded, IsSummaryOf, KnowsCallees};

use crate::tree::CallTree;
use bound_calc::{Matrix, Steps, WordCosts, jump, reach, through};
use region_tree::{LoopTree, Section};
use std::alloc::{AllocError, Global};

/// The costs of calls of a function.
#[derive(Clone, Copy)]
pub struct Summary {
    /// From a call to the word after it: the jump, a path of the routine to a return, the jump
    /// back.
    pub through: Matrix,
    /// From a call to where a path may end: the jump, and a path that ends in the routine or in one
    /// that is called from it.
    pub deep: Matrix,
}

/// The costs of calls, by the number of the called function, as far as they are computed.
#[derive(Drop)]
pub struct Summaries {
    /// From a call to the word after it, by the function's number.
    pub through: Vec<Matrix>,
    /// From a call to where a path may end, by the function's number.
    pub deep: Vec<Matrix>,
}

/// For each word of a section the number of the function that it calls, if it is a call.
///
/// # Errors
///
/// Memory ran out.
pub fn callees(
    alloc: Global,
    tree: &CallTree,
    section: Section,
) -> Result<Vec<Option<usize>>, AllocError>
    requires { IsSection section }
    ensures { IfOk result
        (λ callees. AreCallees tree.now section ((section.to - section.from) / 4) callees.items) }
{
    let mut callees = Vec::new(alloc);
    for index in 0..(section.to - section.from) / 4 {
        callees.push(tree.called(section.from + 4 * index))?;
    }
    Ok(callees)
}

/// For each word of a function whether it is a return.
fn returns(
    alloc: Global,
    tree: &CallTree,
    number: usize,
    section: Section,
) -> Result<Vec<bool>, AllocError>
    requires number { number < function_count tree.now }
    requires section { IsSection section }
    ensures { IfOk result
        (λ returns. AreReturns tree.now number section ((section.to - section.from) / 4)
        returns.items) }
{
    let mut returns = Vec::new(alloc);
    for index in 0..(section.to - section.from) / 4 {
        returns.push(tree.is_return(number, section.from + 4 * index))?;
    }
    Ok(returns)
}

/// Joins `onto` with the costs up to a word, and with the costs on from there by a call.
fn end_at(into: Option<&Matrix>, here: &Matrix, onto: &Matrix) -> Matrix
    ensures { IsBest (entry result)
        (Either (In (entry onto.now))
        (EndsAt (option_map (λ m. m.now) into.entry) (entry here.now))) }
{
    let ended = onto.join(here);
    match into {
        None => ended,
        Some(into) => ended.join(&here.chain(into)),
    }
}

/// The costs up to any of the words, or from one of them on into a routine that it calls.
fn deep(into: &WordCosts, at: &[Matrix]) -> Matrix
    ensures { IsBest (entry result) (Ending (costs_on into.now) at.now (length at.now)) }
{
    let mut deep = Matrix::NONE;
    for index in 0..at.len() {
        deep = end_at(into.at(index), &at[index], &deep);
    }
    deep
}

/// From a call to the word after it: the jump, a path to a return, and the jump back.
fn jump_through(jump: &Matrix, steps: &Steps, at: &[Matrix], ends: &[bool]) -> Matrix
    requires { length ends.now ≡ length at.now }
    ensures { (back : _) ×
        IsBest (entry back) (Ended steps.now ends.now at.now (length at.now)) ×
        IsBest (entry result) (Then (In (entry jump.now)) (In (entry back))) }
{
    jump.chain(&through(steps, at, ends))
}

/// From a call to where a path may end: the jump, and a path to one of the routine's words or on
/// from there into a routine that it calls.
fn jump_deep(jump: &Matrix, into: &WordCosts, at: &[Matrix]) -> Matrix
    ensures { (below : _) ×
        IsBest (entry below) (Ending (costs_on into.now) at.now (length at.now)) ×
        IsBest (entry result) (Then (In (entry jump.now)) (In (entry below))) }
{
    jump.chain(&deep(into, at))
}

/// The costs of calls of a routine, from the costs of calls of its callees.
fn summary_of(
    alloc: Global,
    tree: &CallTree,
    number: usize,
    function: &LoopTree,
    steps: &Steps,
    done: &Summaries,
) -> Result<Summary, AllocError>
    requires number { number < function_count tree.now }
    requires reached { IsReached (calls tree.now) (function_at tree.now number) }
    requires function { function.now ≡ function_tree (calls tree.now) (function_at
        tree.now number) }
    requires done { AreSummaries tree.now steps.now done.now.through.items done.now.deep.items }
    requires known { KnowsCallees tree.now steps.now number done.now.through.items
        done.now.deep.items }
    ensures { IfOk result (λ s. IsSummaryOf tree.now steps.now number s.through s.deep) }
{
    let callees = callees(alloc, tree, function.section())?;
    let ends = returns(alloc, tree, number, function.section())?;
    let at = reach(
        alloc,
        function,
        steps,
        &WordCosts::new(&callees, &done.through),
    )?;
    let jump = jump(steps);
    Ok(Summary {
        through: jump_through(&jump, steps, &at, &ends),
        deep: jump_deep(&jump, &WordCosts::new(&callees, &done.deep), &at),
    })
}

/// Computes the costs of calls of a routine, if it is reached.
fn summarise(
    alloc: Global,
    tree: &CallTree,
    steps: &Steps,
    number: usize,
    done: &mut Summaries,
) -> Result<(), AllocError>
    requires routine { 0 < number }
    requires number { number < function_count tree.now }
    requires done { AreSummaries tree.now steps.now done.old.through.items done.old.deep.items }
    requires known { IsReached (calls tree.now) (function_at tree.now number)
        → KnowsCallees tree.now steps.now number done.old.through.items done.old.deep.items }
    ensures { OnOk result
        (IsAdded tree.now steps.now number done.old.through.items done.old.deep.items
        done.new.through.items done.new.deep.items) }
{
    let Some(function) = tree.tree(number) else {
        return Ok(());
    };
    let summary = summary_of(alloc, tree, number, function, steps, done)?;
    done.through[number] = summary.through;
    done.deep[number] = summary.deep;
    Ok(())
}

/// Computes the costs of calls of the routines of a rank.
fn summarise_rank(
    alloc: Global,
    tree: &CallTree,
    steps: &Steps,
    ranks: &[usize],
    rank: usize,
    done: &mut Summaries,
) -> Result<(), AllocError>
    requires ranks { AreRanks tree.now ranks.now }
    requires done { AreSummaries tree.now steps.now done.old.through.items done.old.deep.items }
    requires below { AreKnown tree.now steps.now (λ k. rank_at ranks.now k < rank)
        done.old.through.items done.old.deep.items }
    ensures done { OnOk result
        (AreSummaries tree.now steps.now done.new.through.items done.new.deep.items) }
    ensures known { OnOk result
        (AreKnown tree.now steps.now (λ k. rank_at ranks.now k < rank + 1) done.new.through.items
        done.new.deep.items) }
{
    for number in 1..ranks.len() {
        if ranks[number] == rank {
            summarise(alloc, tree, steps, number, done)?;
        }
    }
    Ok(())
}

/// Summaries of `count` functions without any costs.
fn none_known(alloc: Global, count: usize) -> Result<Summaries, AllocError>
    ensures { IfOk result (λ none.
        (none.through.items ≡ replicate count (record { best = replicate 8 (replicate 8 None) })) ×
        (none.deep.items ≡ replicate count (record { best = replicate 8 (replicate 8 None) }))) }
{
    Ok(Summaries {
        through: vec![in alloc; Matrix::NONE; count]?,
        deep: vec![in alloc; Matrix::NONE; count]?,
    })
}

/// The costs of calls of the reached routines, callees first.
///
/// # Errors
///
/// Memory ran out.
pub fn summaries_of(alloc: Global, tree: &CallTree, steps: &Steps) -> Result<Summaries, AllocError>
    ensures done { IfOk result
        (λ done. AreSummaries tree.now steps.now done.through.items done.deep.items) }
    ensures known { IfOk result
        (λ done. AreKnown tree.now steps.now (λ k. Unit {0}) done.through.items done.deep.items) }
{
    let count = tree.function_count();
    let ranks = tree.ranks();
    let mut done = none_known(alloc, count)?;
    for rank in 0..count + 1 {
        summarise_rank(alloc, tree, steps, ranks, rank, &mut done)?;
    }
    Ok(done)
}
