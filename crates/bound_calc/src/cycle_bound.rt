//! The bound of a section.

ghost use Rattle.std.specs.Prelude.{◌≡◌, ℕ, ◌<◌, ◌≤◌, ◌^◌, None, length};
ghost use Rattle.std.specs.Prelude.{Contains, IfOk, IfErr, MatchResult};
ghost use Rattle.rv_decode.specs.Lag.{redirect_lag};
ghost use Rattle.slot_table.specs.Frame.{frame};
ghost use Rattle.region_tree.specs.Tree.{IsTree};
ghost use Rattle.region_tree.specs.Walk.{IsOwn};
ghost use Rattle.bound_calc.specs.Bound.{IsBound, IsTooLarge, course};
ghost use Rattle.bound_calc.specs.declared.cycle_bound.BoundNo.TheVariants.{Overflow};
ghost use Rattle.bound_calc.specs.Section.{whole};
ghost use Rattle.bound_calc.specs.Propagation.{IsMostFrom, IsOut, IsReady, leaves, over, walks};

use crate::advanced::{largest, largest_advanced};
use crate::fill::fill;
use crate::frontier::Frontier;
use crate::matrix::Matrix;
use crate::pass::{begin, edges_at, is_straight, process_word, skip, span_of};
use crate::steps::Steps;
use crate::word_costs::WordCosts;
use region_tree::{Edges, JUMP_LAG, LoopTree};
use slot_table::SlotTable;
use std::alloc::{AllocError, Global};
use thiserror::Error;

/// Why there is no bound.
#[derive(Clone, Copy, Debug, PartialEq, Eq, Error)]
pub enum BoundNo {
    /// The bound, which is above 2^64 - 1. For a bound through calls the value is 2^64 instead.
    #[error("the bound {value} has more than 64 bits")]
    Overflow { value: u128 },
    /// Memory ran out.
    #[error("out of memory")]
    NoMemory,
}

impl From<AllocError> for BoundNo {
    ghost use Rattle.std.specs.Prelude.{◌≡◌};
    ghost use Rattle.bound_calc.specs.declared.cycle_bound.BoundNo.TheVariants.{NoMemory};

    ghost from_gives = { λ _ no. no ≡ NoMemory };

    fn from(_error: AllocError) -> BoundNo {
        BoundNo::NoMemory
    }
}

/// Whether an edge leaves the section.
pub fn is_out(tree: &LoopTree, target: Option<u32>) -> bool
    ensures { result ≡ leaves tree.now target }
{
    let section = tree.section();
    match target {
        Some(to) => !(section.from <= to && to < section.to),
        None => false,
    }
}

/// The largest of a number and, if the edge leaves the section, the sums advanced along it.
fn most_out(steps: &Steps, here: &Matrix, out: bool, lag: u64, most: u128) -> u128
    requires lag { lag ≤ redirect_lag }
    ensures { IsOut steps.now here.now out lag most result }
{
    if out {
        largest_advanced(here, steps.hops(lag), most)
    } else {
        most
    }
}

/// The largest of a number, the costs at a word, and these costs advanced along its edges out of
/// the section.
fn most_from(tree: &LoopTree, steps: &Steps, here: &Matrix, edges: &Edges, most: u128) -> u128
    requires lag { edges.now.next_lag ≤ redirect_lag }
    ensures { IsMostFrom tree.now steps.now here.now edges.now most result }
{
    let inside = largest(here, most);
    let out = is_out(tree, edges.next);
    let next = most_out(steps, here, out, edges.next_lag, inside);
    most_out(steps, here, is_out(tree, edges.jump), JUMP_LAG, next)
}

/// The largest cost of a path, from the powers of the section's loops.
fn most(
    alloc: Global,
    tree: &LoopTree,
    steps: &Steps,
    powers: &[Option<Box<Matrix>>],
    frontier: &mut Frontier,
) -> Result<u128, AllocError>
    requires tree { IsTree tree.now }
    requires frame { length steps.now.frame ≤ 8 }
    requires slot { (p : ℕ) × IsOwn steps.now p }
    requires ready { let f = over tree.now steps.now (λ k. None) in
        IsReady f tree.now (whole f) powers.now }
    requires room { length frontier.old.waiting.items ≡ length tree.now.words }
    ensures { IfOk result (IsBound (walks tree.now steps.now)) }
{
    let last = span_of(tree, None).last;
    begin(alloc, tree, steps, None, frontier)?;
    let mut most = 0;
    for index in 0..last + 1 {
        let edges = edges_at(tree, index);
        if is_straight(tree, &edges, index, last, None, &powers[index], frontier) {
            most = largest_advanced(&frontier.base, &frontier.hops, most);
            skip(steps, edges.next_lag, frontier);
        } else {
            let power = &powers[index];
            process_word(alloc, tree, steps, None, power, index, last, frontier)?;
            most = most_from(tree, steps, &frontier.base, &edges, most);
        }
    }
    Ok(most)
}

/// The largest cost of a path, from a frontier that has room for each word.
fn largest_cost_by(
    alloc: Global,
    tree: &LoopTree,
    steps: &Steps,
    frontier: &mut Frontier,
) -> Result<u128, AllocError>
    requires tree { IsTree tree.now }
    requires frame { length steps.now.frame ≤ 8 }
    requires slot { (p : ℕ) × IsOwn steps.now p }
    requires room { length frontier.old.waiting.items ≡ length tree.now.words }
    ensures { IfOk result (IsBound (walks tree.now steps.now)) }
{
    let powers = fill(alloc, tree, steps, &WordCosts::new(&[], &[]), frontier)?;
    most(alloc, tree, steps, &powers, frontier)
}

/// The largest cost of a path.
fn largest_cost(alloc: Global, tree: &LoopTree, steps: &Steps) -> Result<u128, AllocError>
    requires frame { length steps.now.frame ≤ 8 }
    requires slot { (p : ℕ) × IsOwn steps.now p }
    ensures { IfOk result (IsBound (walks tree.now steps.now)) }
{
    let mut frontier = Frontier::new(alloc, span_of(tree, None).last + 1)?;
    largest_cost_by(alloc, tree, steps, &mut frontier)
}

/// Converts a bound to 64 bits; `Overflow` if it has more.
fn in_64_bits(value: u128) -> Result<u64, BoundNo>
    ensures { MatchResult result (λ bound. bound ≡ value)
        (λ no. (no ≡ Overflow value) × (2 ^ 64 ≤ value)) }
{
    match u64::try_from(value) {
        Ok(bound) => Ok(bound),
        Err(_) => Err(BoundNo::Overflow { value }),
    }
}

/// The bound of a tree's section for a thread: the largest number of cycles of a path through it.
/// The thread's turns determine the cycles. The path takes no loop's back edges more often than the
/// loop's bound allows. The thread is 0 to 7 and has a slot.
///
/// # Errors
///
/// [`BoundNo::Overflow`] with the bound exactly if it is above 2^64 - 1. `NoMemory` if memory ran
/// out.
pub fn bound(alloc: Global, tree: &LoopTree, slots: &SlotTable, thread: u8) -> Result<u64, BoundNo>
    requires thread { thread < 8 }
    requires slot { Contains (frame slots.now) thread }
    ensures bound { IfOk result (IsBound (course tree.now slots.now thread)) }
    ensures refused { IfErr result (IsTooLarge (course tree.now slots.now thread)) }
{
    let steps = Steps::new(*slots, thread);
    in_64_bits(largest_cost(alloc, tree, &steps)?)
}
