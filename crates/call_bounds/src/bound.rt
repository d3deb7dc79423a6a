//! The bound of a section and the routines that it calls.

ghost use Rattle.std.specs.Prelude.{◌≡◌, ℕ, ◌<◌, ◌≤◌, ◌^◌, length, None};
ghost use Rattle.std.specs.Prelude.{Contains, IfOk, IfErr, MatchResult, OnOk};
ghost use Rattle.std.specs.Option.{option_map};
ghost use Rattle.rv_decode.specs.Lag.{redirect_lag};
ghost use Rattle.slot_table.specs.Frame.{frame};
ghost use Rattle.region_tree.specs.Walk.{IsOwn};
ghost use Rattle.region_tree.specs.Tree.{IsTree};
ghost use Rattle.bound_calc.specs.Best.{In, Then};
ghost use Rattle.bound_calc.specs.Bound.{positions};
ghost use Rattle.bound_calc.specs.declared.cycle_bound.BoundNo.TheVariants.{Overflow};
ghost use Rattle.bound_calc.specs.Matrices.{entry};
ghost use Rattle.bound_calc.specs.Propagation.{AreWordCosts, leaves, move_costs, costs_on};
ghost use Rattle.bound_calc.specs.Tops.{IsTop};
ghost use Rattle.call_bounds.specs.CallRefusals.{IsCallable, IsListing};
ghost use Rattle.call_bounds.specs.CallWalk.{IsCallBound, IsTooCostly};
ghost use Rattle.call_bounds.specs.Listing.{calls};
ghost use Rattle.call_bounds.specs.Patched.{function_tree};
ghost use Rattle.call_bounds.specs.Summaries.{AreKnown, AreSummaries, EndsAt};
ghost use Rattle.call_bounds.specs.Summaries.{IsMost, When, route};
ghost use Rattle.call_bounds.specs.Tops.{EndsFrom, IsMostBelow};

use crate::summary::{Summaries, callees, summaries_of};
use crate::tree::CallTree;
use bound_calc::{
    BoundNo, Matrix, Pass, Steps, WordCosts, along, edges_at, is_out, largest, largest_through,
};
use region_tree::{Edges, JUMP_LAG, LoopTree};
use slot_table::SlotTable;
use std::alloc::{AllocError, Global};

/// The largest of a number and, if the edge to `target` leaves the section, the costs at a word
/// taken along the edge.
fn leave_by(
    function: &LoopTree,
    steps: &Steps,
    edge_costs: Option<&Matrix>,
    here: &Matrix,
    target: Option<u32>,
    lag: u64,
    most: u128,
) -> u128
    requires lag { lag ≤ redirect_lag }
    ensures { IsTop
        (When (leaves function.now target)
        (Then (In (entry here.now)) (move_costs steps.now (option_map
        (λ m. m.now) edge_costs.entry) lag))) most result }
{
    if is_out(function, target) {
        largest(&along(steps, edge_costs, here, lag, &Matrix::NONE), most)
    } else {
        most
    }
}

/// The largest of a number, the costs up to a word, and the costs on from there by a call.
fn end_by(into: Option<&Matrix>, here: &Matrix, most: u128) -> u128
    ensures { IsTop (EndsAt (option_map (λ m. m.now) into.entry) (entry here.now)) most result }
{
    match into {
        None => largest(here, most),
        Some(into) => largest_through(here, into, most),
    }
}

/// The largest of a number and the costs of the paths that end at a word, go on from there into a
/// routine, or leave the section from there.
fn most_at(
    function: &LoopTree,
    steps: &Steps,
    edge_costs: Option<&Matrix>,
    into: Option<&Matrix>,
    here: &Matrix,
    edges: &Edges,
    most: u128,
) -> u128
    requires lag { edges.now.next_lag ≤ redirect_lag }
    ensures { IsTop (EndsFrom function.now steps.now (option_map (λ m. m.now) edge_costs.entry)
        (option_map (λ m. m.now) into.entry) edges.now (entry here.now)) most result }
{
    let ended = end_by(into, here, most);
    let next = leave_by(
        function,
        steps,
        edge_costs,
        here,
        edges.next,
        edges.next_lag,
        ended,
    );
    leave_by(
        function, steps, edge_costs, here, edges.jump, JUMP_LAG, next,
    )
}

/// The largest cost of a path that ends at a word of the section, in a routine that it calls, or
/// outside. It holds the costs at one word at a time.
fn most_over(
    alloc: Global,
    function: &LoopTree,
    steps: &Steps,
    word_costs: &WordCosts,
    into: &WordCosts,
) -> Result<u128, AllocError>
    requires own { AreWordCosts steps.now (costs_on word_costs.now) }
    ensures most { IfOk result (IsMostBelow function.now steps.now (costs_on word_costs.now)
        (costs_on into.now) (length function.now.words)) }
    ensures rules { IsTree function.now }
{
    let section = function.section();
    let mut pass = Pass::new(alloc, function, steps, word_costs)?;
    let mut most = 0;
    for index in 0..((section.to - section.from) / 4) as usize {
        pass.visit(alloc, function, steps, word_costs, index)?;
        let edges = edges_at(function, index);
        let edge_costs = word_costs.at(index);
        most = most_at(
            function,
            steps,
            edge_costs,
            into.at(index),
            pass.here(),
            &edges,
            most,
        );
    }
    Ok(most)
}

/// The largest cost of a path of the section, from its tree and the summaries of its callees.
fn most_in(
    alloc: Global,
    tree: &CallTree,
    function: &LoopTree,
    steps: &Steps,
    done: &Summaries,
) -> Result<u128, AllocError>
    requires function { function.now ≡ function_tree (calls tree.now) None }
    requires slot { (p : ℕ) × IsOwn steps.now p }
    requires done { AreSummaries tree.now steps.now done.now.through.items done.now.deep.items }
    requires known { AreKnown tree.now steps.now (λ k. Unit {0}) done.now.through.items
        done.now.deep.items }
    ensures { IfOk result (IsMost (route tree.now steps.now)) }
{
    let callees = callees(alloc, tree, function.section())?;
    let word_costs = WordCosts::new(&callees, &done.through);
    let into = WordCosts::new(&callees, &done.deep);
    most_over(alloc, function, steps, &word_costs, &into)
}

/// The largest cost of a path of the section, from the summaries of the routines.
fn most(alloc: Global, tree: &CallTree, steps: &Steps, done: &Summaries) -> Result<u128, AllocError>
    requires slot { (p : ℕ) × IsOwn steps.now p }
    requires done { AreSummaries tree.now steps.now done.now.through.items done.now.deep.items }
    requires known { AreKnown tree.now steps.now (λ k. Unit {0}) done.now.through.items
        done.now.deep.items }
    ensures { IfOk result (IsMost (route tree.now steps.now)) }
{
    match tree.tree(0) {
        Some(function) => most_in(alloc, tree, function, steps, done),
        None => Ok(0),
    }
}

/// The largest cost of a path of the section.
fn largest_cost(alloc: Global, tree: &CallTree, steps: &Steps) -> Result<u128, AllocError>
    requires { (p : ℕ) × IsOwn steps.now p }
    ensures most { IfOk result (IsMost (route tree.now steps.now)) }
    ensures rules { OnOk result (IsListing (calls tree.now) × IsCallable (calls tree.now)) }
{
    let done = summaries_of(alloc, tree, steps)?;
    most(alloc, tree, steps, &done)
}

/// Converts a bound to 64 bits; `Overflow` with 2^64 if it has more.
fn in_64_bits(most: u128) -> Result<u64, BoundNo>
    ensures { MatchResult result (λ bound. (bound ≡ most) × (most < 2 ^ 64))
        (λ no. (no ≡ Overflow (2 ^ 64)) × (2 ^ 64 ≤ most)) }
{
    match u64::try_from(most) {
        Ok(bound) => Ok(bound),
        Err(_) => Err(BoundNo::Overflow { value: 1 << 64 }),
    }
}

/// The bound of a section and its calls, for a thread: the largest number of cycles of a path with
/// matching calls and returns. The thread's turns determine the cycles. The path takes no loop's
/// back edges more often than the loop's bound allows. The thread is 0 to 7 and has a slot.
///
/// # Errors
///
/// [`BoundNo::Overflow`] with 2^64 exactly if the bound is above 2^64 - 1. `NoMemory` if memory ran
/// out.
pub fn call_bound(
    alloc: Global,
    tree: &CallTree,
    slots: &SlotTable,
    thread: u8,
) -> Result<u64, BoundNo>
    requires thread { thread < 8 }
    requires slot { Contains (frame slots.now) thread }
    ensures bound { IfOk result (IsCallBound (route tree.now (positions slots.now thread))) }
    ensures refused { IfErr result (IsTooCostly (route tree.now (positions slots.now thread))) }
{
    let steps = Steps::new(*slots, thread);
    in_64_bits(largest_cost(alloc, tree, &steps)?)
}
