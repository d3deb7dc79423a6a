//! The powers of all loops, from the last head to the first.

ghost use Rattle.std.specs.Prelude.{◌≡◌, ◌≢◌, ℕ, ◌+◌, ◌<◌, ◌≤◌, length};
ghost use Rattle.std.specs.Prelude.{MatchOption, Contains, OnOk, IfOk};
ghost use Rattle.region_tree.specs.Graph.{Reachable};
ghost use Rattle.region_tree.specs.Search.{address};
ghost use Rattle.region_tree.specs.Tree.{IsTree, graph};
ghost use Rattle.bound_calc.specs.Propagation.{AreWordCosts, IsFilled, index as index_of};
ghost use Rattle.bound_calc.specs.Propagation.{over, power_at, costs_on};

use crate::frontier::Frontier;
use crate::matrix::Matrix;
use crate::rounds::rounds;
use crate::steps::Steps;
use crate::word_costs::WordCosts;
use fp_setup::LoopSetup;
use region_tree::LoopTree;
use std::alloc::{AllocError, Global};

/// A list of `count` absent powers.
///
/// # Errors
///
/// Memory ran out.
pub fn empty(alloc: Global, count: usize) -> Result<Vec<Option<Box<Matrix>>>, AllocError>
    ensures { IfOk result (λ powers. (length powers.items ≡ count) ×
        ((k : ℕ) → power_at powers.items k ≡ None)) }
{
    let mut powers = Vec::new(alloc);
    for _index in 0..count {
        powers.push(None)?;
    }
    Ok(powers)
}

/// The first of the loops with this head.
fn loop_at(loops: &[LoopSetup], head: u32) -> Option<LoopSetup>
    ensures { MatchOption result ((j : _) → Contains loops.now j → head ≢ j.head)
        (λ j. Contains loops.now j × (head ≡ j.head)) }
{
    for j in loops {
        if j.head == head {
            return Some(*j);
        }
    }
    None
}

/// The loop whose head is the word at an index, if it is one that is reachable.
fn loop_from(tree: &LoopTree, index: usize) -> Option<LoopSetup>
    requires { index < length tree.now.words }
    ensures found { let head = address tree.now index in MatchOption result
        ((j : _) → Contains tree.now.loops j → head ≡ j.head →
        Reachable (graph tree.now) head → ⊥)
        (λ j. Contains tree.now.loops j × (head ≡ j.head) × Reachable (graph tree.now) head) }
    ensures rules { IsTree tree.now }
{
    let address = tree.section().from + 4 * index as u32;
    if tree.is_reachable(address) {
        loop_at(tree.loops(), address)
    } else {
        None
    }
}

/// The power of the loop whose head is the word at an index, if it is one that is reachable.
fn fill_word(
    alloc: Global,
    tree: &LoopTree,
    steps: &Steps,
    word_costs: &WordCosts,
    index: usize,
    powers: &mut [Option<Box<Matrix>>],
    frontier: &mut Frontier,
) -> Result<(), AllocError>
    requires own { AreWordCosts steps.now (costs_on word_costs.now) }
    requires index { index < length tree.now.words }
    requires filled { IsFilled (over tree.now steps.now (costs_on word_costs.now)) tree.now
        (index + 1) powers.old }
    requires room { length frontier.old.waiting.items ≡ length tree.now.words }
    ensures filled { OnOk result (IsFilled (over tree.now steps.now (costs_on word_costs.now))
        tree.now index powers.new) }
    ensures room { OnOk result (length frontier.new.waiting.items ≡ length tree.now.words) }
{
    let Some(j) = loop_from(tree, index) else {
        return Ok(());
    };
    let power = rounds(alloc, tree, steps, word_costs, powers, j, frontier)?;
    powers[index] = Some(Box::new(alloc, power)?);
    Ok(())
}

/// The highest head of a loop below an address, or the first word where there is none.
fn head_below(loops: &[LoopSetup], first: u32, address: u32) -> u32
    requires { first < address }
    ensures low { first ≤ result }
    ensures below { result < address }
    ensures next { (j : _) → Contains loops.now j → j.head < address → j.head ≤ result }
{
    let mut head = first;
    for j in loops {
        if head < j.head && j.head < address {
            head = j.head;
        }
    }
    head
}

/// The index of the highest head of a loop below an index, or 0 where there is none.
fn index_below(tree: &LoopTree, index: usize) -> usize
    requires some { 0 < index }
    requires within { index ≤ length tree.now.words }
    ensures below { result < index }
    ensures next { (j : _) → Contains tree.now.loops j → j.head < address tree.now index →
        index_of tree.now j.head ≤ result }
{
    let from = tree.section().from;
    let head = head_below(tree.loops(), from, from + 4 * index as u32);
    ((head - from) / 4) as usize
}

/// The powers of all loops whose heads are reachable, inner loops first. From each head it goes on
/// to the next one below.
///
/// # Errors
///
/// Memory ran out.
pub fn fill(
    alloc: Global,
    tree: &LoopTree,
    steps: &Steps,
    word_costs: &WordCosts,
    frontier: &mut Frontier,
) -> Result<Vec<Option<Box<Matrix>>>, AllocError>
    requires tree { IsTree tree.now }
    requires own { AreWordCosts steps.now (costs_on word_costs.now) }
    requires room { length frontier.old.waiting.items ≡ length tree.now.words }
    ensures filled { IfOk result (λ powers.
        IsFilled (over tree.now steps.now (costs_on word_costs.now)) tree.now 0 powers.items) }
    ensures room { OnOk result (length frontier.new.waiting.items ≡ length tree.now.words) }
{
    let mut index = frontier.waiting.len();
    let mut powers = empty(alloc, index)?;
    while index > 0 {
        index = index_below(tree, index);
        fill_word(alloc, tree, steps, word_costs, index, &mut powers, frontier)?;
    }
    Ok(powers)
}
