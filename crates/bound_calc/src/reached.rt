//! The costs at the words of a section.

ghost use Rattle.std.specs.Prelude.{◌≡◌, ◌+◌, ◌<◌, length, IfOk, OnOk};
ghost use Rattle.region_tree.specs.Tree.{IsTree};
ghost use Rattle.bound_calc.specs.Best.{IsBest};
ghost use Rattle.bound_calc.specs.Matrices.{entry};
ghost use Rattle.bound_calc.specs.Passing.{IsPass, ReachesAt, here};
ghost use Rattle.bound_calc.specs.Propagation.{AreReached, AreWordCosts, costs_on};

use crate::fill::fill;
use crate::frontier::Frontier;
use crate::matrix::Matrix;
use crate::pass::{begin, process_word, span_of};
use crate::steps::Steps;
use crate::word_costs::WordCosts;
use region_tree::LoopTree;
use std::alloc::{AllocError, Global};

/// A pass over the words of a section, from its first word to its last. It holds a matrix for each
/// loop, for the last word, and for each later word that an edge leads to.
#[derive(Drop)]
pub struct Pass {
    powers: Vec<Option<Box<Matrix>>>,
    frontier: Frontier,
}

impl Pass {
    ghost use Rattle.std.specs.Prelude.{◌≡◌, ◌+◌, ◌<◌, length, IfOk, OnOk};
    ghost use Rattle.region_tree.specs.Tree.{IsTree};
    ghost use Rattle.bound_calc.specs.Best.{IsBest};
    ghost use Rattle.bound_calc.specs.Matrices.{entry};
    ghost use Rattle.bound_calc.specs.Passing.{IsPass, ReachesAt, here};
    ghost use Rattle.bound_calc.specs.Propagation.{AreWordCosts, costs_on};

    /// A pass before the first word. The words of `word_costs` go on at costs of their own, which
    /// lead to positions of the thread.
    ///
    /// # Errors
    ///
    /// Memory ran out.
    pub fn new(
        alloc: Global,
        tree: &LoopTree,
        steps: &Steps,
        word_costs: &WordCosts,
    ) -> Result<Pass, AllocError>
        requires own { AreWordCosts steps.now (costs_on word_costs.now) }
        ensures start { IfOk result (IsPass tree.now steps.now (costs_on word_costs.now) 0) }
        ensures rules { IsTree tree.now }
    {
        let mut frontier = Frontier::new(alloc, span_of(tree, None).last + 1)?;
        let powers = fill(alloc, tree, steps, word_costs, &mut frontier)?;
        begin(alloc, tree, steps, None, &mut frontier)?;
        Ok(Pass { powers, frontier })
    }

    /// Computes the costs at the word at an index, which is the next one. [`Pass::here`] returns
    /// them.
    ///
    /// # Errors
    ///
    /// Memory ran out. The pass can't be continued then.
    pub fn visit(
        &mut self,
        alloc: Global,
        tree: &LoopTree,
        steps: &Steps,
        word_costs: &WordCosts,
        index: usize,
    ) -> Result<(), AllocError>
        requires tree { IsTree tree.now }
        requires inside { index < length tree.now.words }
        requires before { IsPass tree.now steps.now (costs_on word_costs.now) index self.old }
        ensures after { OnOk result
            (IsPass tree.now steps.now (costs_on word_costs.now) (index + 1) self.new) }
        ensures here { OnOk result (IsBest (entry (here self.new))
            (ReachesAt tree.now steps.now (costs_on word_costs.now) index)) }
    {
        let last = span_of(tree, None).last;
        let edge_costs = word_costs.at(index);
        let power = &self.powers[index];
        let frontier = &mut self.frontier;
        process_word(alloc, tree, steps, edge_costs, power, index, last, frontier)?;
        Ok(())
    }

    /// The largest costs of paths to the last visited word, in cycles. Only after a visit.
    pub fn here(&self) -> &Matrix
        ensures { result.now ≡ here self.now }
    {
        &self.frontier.base
    }
}

/// By index the largest costs of paths to each word of the section. The words of `word_costs` go on
/// at costs of their own, which lead to positions of the thread.
///
/// # Errors
///
/// Memory ran out.
pub fn reach(
    alloc: Global,
    tree: &LoopTree,
    steps: &Steps,
    word_costs: &WordCosts,
) -> Result<Vec<Matrix>, AllocError>
    requires own { AreWordCosts steps.now (costs_on word_costs.now) }
    ensures reached { IfOk result (λ at.
        AreReached tree.now steps.now (costs_on word_costs.now) at.items) }
    ensures rules { IsTree tree.now }
{
    let mut pass = Pass::new(alloc, tree, steps, word_costs)?;
    let count = span_of(tree, None).last + 1;
    let mut at = Vec::with_capacity(alloc, count)?;
    for index in 0..count {
        pass.visit(alloc, tree, steps, word_costs, index)?;
        at.push(*pass.here())?;
    }
    Ok(at)
}
