//! The rounds of a loop.

ghost use Rattle.std.specs.Prelude.{◌≡◌, ℕ, ◌≤◌, length, Contains, IfOk, OnOk};
ghost use Rattle.region_tree.specs.Graph.{Reachable};
ghost use Rattle.region_tree.specs.Tree.{IsTree, graph};
ghost use Rattle.std.specs.Option.{option_map};
ghost use Rattle.rv_decode.specs.Lag.{redirect_lag};
ghost use Rattle.bound_calc.specs.Best.{IsBest};
ghost use Rattle.bound_calc.specs.Context.{body};
ghost use Rattle.bound_calc.specs.Section.{net};
ghost use Rattle.bound_calc.specs.PathCosts.{Round, Rounds};
ghost use Rattle.bound_calc.specs.Matrices.{entry};
ghost use Rattle.bound_calc.specs.Propagation.{AreWordCosts, IsReady, IsTurned};
ghost use Rattle.bound_calc.specs.Propagation.{move_costs, over, costs_on};

use crate::frontier::Frontier;
use crate::matrix::Matrix;
use crate::pass::{begin, edges_at, is_straight, join_along, process_word, skip, span_of};
use crate::powers::power;
use crate::steps::Steps;
use crate::word_costs::WordCosts;
use fp_setup::LoopSetup;
use region_tree::{Edges, JUMP_LAG, LoopTree};
use std::alloc::{AllocError, Global};

/// Joins the costs back at a head with the costs that an edge brings there.
fn turn(
    steps: &Steps,
    edge_costs: Option<&Matrix>,
    back: &mut Matrix,
    here: &Matrix,
    target: Option<u32>,
    lag: u64,
    head: u32,
)
    requires lag { lag ≤ redirect_lag }
    ensures { IsTurned (move_costs steps.now (option_map (λ m. m.now) edge_costs.entry) lag)
        back.old here.now target head back.new }
{
    match target {
        Some(to) if to == head => join_along(steps, edge_costs, here, lag, back),
        _ => {}
    }
}

/// Joins the costs back at a head with the costs that the edges of a word bring there.
fn turn_edges(
    steps: &Steps,
    edge_costs: Option<&Matrix>,
    back: &mut Matrix,
    here: &Matrix,
    edges: &Edges,
    head: u32,
)
    requires lag { edges.now.next_lag ≤ redirect_lag }
    ensures { let edge_costs = option_map (λ m. m.now) edge_costs.entry in (mid : _) ×
        IsTurned (move_costs steps.now edge_costs edges.now.next_lag)
        back.old here.now edges.now.next head mid ×
        IsTurned (move_costs steps.now edge_costs redirect_lag) mid here.now edges.now.jump
        head back.new }
{
    turn(
        steps,
        edge_costs,
        back,
        here,
        edges.next,
        edges.next_lag,
        head,
    );
    turn(steps, edge_costs, back, here, edges.jump, JUMP_LAG, head);
}

/// The costs with which a round of a loop is back at its head.
fn back_at_head(
    alloc: Global,
    tree: &LoopTree,
    steps: &Steps,
    word_costs: &WordCosts,
    powers: &[Option<Box<Matrix>>],
    j: LoopSetup,
    frontier: &mut Frontier,
) -> Result<Matrix, AllocError>
    requires known { Contains tree.now.loops j }
    requires reached { Reachable (graph tree.now) j.head }
    requires ready { let f = over tree.now steps.now (costs_on word_costs.now) in
        IsReady f tree.now (body (net f) j) powers.now }
    requires room { length frontier.old.waiting.items ≡ length tree.now.words }
    ensures round { IfOk result (λ back. IsBest (entry back)
        (Round (net (over tree.now steps.now (costs_on word_costs.now))) j)) }
    ensures room { OnOk result (length frontier.new.waiting.items ≡ length tree.now.words) }
    ensures rules { IsTree tree.now }
{
    let span = span_of(tree, Some(j));
    begin(alloc, tree, steps, Some(j), frontier)?;
    let mut back = Matrix::NONE;
    for index in span.first..span.last + 1 {
        let edges = edges_at(tree, index);
        let edge_costs = word_costs.at(index);
        if is_straight(
            tree,
            &edges,
            index,
            span.last,
            edge_costs,
            &powers[index],
            frontier,
        ) {
            skip(steps, edges.next_lag, frontier);
        } else {
            let power = &powers[index];
            process_word(
                alloc, tree, steps, edge_costs, power, index, span.last, frontier,
            )?;
            turn_edges(steps, edge_costs, &mut back, &frontier.base, &edges, j.head);
        }
    }
    Ok(back)
}

/// The largest costs of at most as many rounds of a loop as its bound allows.
///
/// # Errors
///
/// Memory ran out.
pub fn rounds(
    alloc: Global,
    tree: &LoopTree,
    steps: &Steps,
    word_costs: &WordCosts,
    powers: &[Option<Box<Matrix>>],
    j: LoopSetup,
    frontier: &mut Frontier,
) -> Result<Matrix, AllocError>
    requires own { AreWordCosts steps.now (costs_on word_costs.now) }
    requires known { Contains tree.now.loops j }
    requires reached { Reachable (graph tree.now) j.head }
    requires ready { let f = over tree.now steps.now (costs_on word_costs.now) in
        IsReady f tree.now (body (net f) j) powers.now }
    requires room { length frontier.old.waiting.items ≡ length tree.now.words }
    ensures rounds { IfOk result (λ power. IsBest (entry power)
        (Rounds (net (over tree.now steps.now (costs_on word_costs.now))) j j.limit)) }
    ensures room { OnOk result (length frontier.new.waiting.items ≡ length tree.now.words) }
{
    let back = back_at_head(alloc, tree, steps, word_costs, powers, j, frontier)?;
    let base = steps.one().join(&back);
    Ok(power(steps, &base, j.limit))
}
