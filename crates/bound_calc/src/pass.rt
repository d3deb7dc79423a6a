//! The costs at each word of a loop, or of a whole section.

ghost use Rattle.std.specs.Prelude.{◌≡◌, ℕ, ◌+◌, ◌<◌, ◌≤◌, ◌^◌, ◌↔◌, length, Option};
ghost use Rattle.std.specs.Prelude.{Some, None, Contains, IfOk, IfSome, IsTrue, OnOk};
ghost use Rattle.std.specs.Option.{option_map};
ghost use Rattle.rv_decode.specs.Lag.{redirect_lag};
ghost use Rattle.region_tree.specs.Search.{address};
ghost use Rattle.region_tree.specs.Tree.{IsTree};
ghost use Rattle.bound_calc.specs.Best.{Either, In, IsBest, Then};
ghost use Rattle.bound_calc.specs.Context.{IsScope};
ghost use Rattle.bound_calc.specs.Hops.{Hops};
ghost use Rattle.bound_calc.specs.Section.{net};
ghost use Rattle.bound_calc.specs.Matrices.{entry};
ghost use Rattle.bound_calc.specs.Propagation.{IsArrived, IsBrought, IsFrontier, IsGone};
ghost use Rattle.bound_calc.specs.Propagation.{IsLed, IsSkipped, IsSpan, IsStraight};
ghost use Rattle.bound_calc.specs.Propagation.{IsTaken, IsThrough, edges_at, abstract_frontier};
ghost use Rattle.bound_calc.specs.Propagation.{move_costs, over, scope_of, power_at, up_of};

use crate::advanced::join_advanced;
use crate::frontier::Frontier;
use crate::hop::HopRow;
use crate::matrix::Matrix;
use crate::steps::Steps;
use crate::word_costs::WordCosts;
use fp_setup::LoopSetup;
use region_tree::{Edges, JUMP_LAG, LoopTree, edges_of};
use std::alloc::{AllocError, Global};
use std::mem;

/// The indices of a part's first and last word.
#[derive(Clone, Copy)]
pub struct Span {
    /// The index of the first word: its distance from the section's first word, in words.
    pub first: usize,
    /// The index of the last word, counted likewise.
    pub last: usize,
}

/// The indices of a loop, or of the whole section.
pub fn span_of(tree: &LoopTree, around: Option<LoopSetup>) -> Span
    requires { IfSome around (λ j. Contains tree.now.loops j) }
    ensures span { (s : _) → (word_costs : _) →
        IsSpan tree.now (scope_of (over tree.now s word_costs) around) result.first result.last }
    ensures order { result.first ≤ result.last }
    ensures inside { result.last < length tree.now.words }
    ensures rules { IsTree tree.now }
{
    let section = tree.section();
    match around {
        None => Span {
            first: 0,
            last: ((section.to - section.from) / 4 - 1) as usize,
        },
        Some(j) => Span {
            first: ((j.head - section.from) / 4) as usize,
            last: ((j.last - section.from) / 4) as usize,
        },
    }
}

/// The edges of the word at an index.
pub fn edges_at(tree: &LoopTree, index: usize) -> Edges
    requires { index < length tree.now.words }
    ensures { result ≡ edges_at tree.now index }
{
    let address = tree.section().from + 4 * index as u32;
    edges_of(tree.word(address), address)
}

/// The index of an edge's target, where it is above an index and at most at another.
fn up_to(tree: &LoopTree, index: usize, last: usize, target: Option<u32>) -> Option<usize>
    requires order { index ≤ last }
    requires within { last < length tree.now.words }
    ensures { result ≡ up_of tree.now index last target }
{
    let from = tree.section().from;
    match target {
        Some(to) if from + 4 * (index as u32) < to && to <= from + 4 * (last as u32) => {
            Some(((to - from) / 4) as usize)
        }
        _ => None,
    }
}

/// Joins into a matrix another that goes on from a word: by the turns after a lag, or by the word's
/// own costs, if it has any.
pub(crate) fn join_along(
    steps: &Steps,
    edge_costs: Option<&Matrix>,
    here: &Matrix,
    lag: u64,
    onto: &mut Matrix,
)
    requires lag { lag ≤ redirect_lag }
    ensures { IsBest (entry onto.new) (Either (In (entry onto.old))
        (Then (In (entry here.now)) (move_costs steps.now (option_map
        (λ m. m.now) edge_costs.entry) lag))) }
{
    match edge_costs {
        None => join_advanced(here, steps.hops(lag), onto),
        Some(edge_costs) => onto.join_chain(here, edge_costs),
    }
}

/// Joins a matrix with another that goes on from a word: by the turns after a lag, or by the word's
/// own costs, if it has any.
pub fn along(
    steps: &Steps,
    edge_costs: Option<&Matrix>,
    here: &Matrix,
    lag: u64,
    onto: &Matrix,
) -> Matrix
    requires lag { lag ≤ redirect_lag }
    ensures { IsBest (entry result) (Either (In (entry onto.now)) (Then (In (entry here.now))
        (move_costs steps.now (option_map (λ m. m.now) edge_costs.entry) lag))) }
{
    let mut joined = *onto;
    join_along(steps, edge_costs, here, lag, &mut joined);
    joined
}

/// Whether there is a target, and it is this index.
fn is_index(target: Option<usize>, index: usize) -> bool
    ensures { IsTrue result ↔ (target ≡ Some index) }
{
    match target {
        Some(to) => to == index,
        None => false,
    }
}

/// A matrix without sums, in the spare box if there is one.
fn without_sums(alloc: Global, spare: &mut Option<Box<Matrix>>) -> Result<Box<Matrix>, AllocError>
    ensures { IfOk result (λ m. IsTaken None m.value) }
{
    let Some(mut none) = spare.take() else {
        return Ok(Box::new(alloc, Matrix::NONE)?);
    };
    *none = Matrix::NONE;
    Ok(none)
}

/// Takes the waiting costs, or a matrix without sums if none wait.
fn take(
    alloc: Global,
    waiting: &mut Option<Box<Matrix>>,
    spare: &mut Option<Box<Matrix>>,
) -> Result<Box<Matrix>, AllocError>
    ensures taken { IfOk result (λ m. IsTaken (option_map (λ b. b.value) waiting.old) m.value) }
    ensures empty { waiting.new ≡ None }
{
    match waiting.take() {
        Some(there) => Ok(there),
        None => without_sums(alloc, spare),
    }
}

/// Takes the costs at a word through the rounds of the loop whose head it is, if it is one.
fn apply_rounds(power: &Option<Box<Matrix>>, here: &mut Matrix)
    ensures { IsThrough (option_map (λ b. b.value) power.now) here.old here.new }
{
    if let Some(power) = power {
        *here = here.chain(power);
    }
}

/// Joins the costs that wait at an edge's target with the costs that the edge brings there.
fn bring(
    alloc: Global,
    steps: &Steps,
    edge_costs: Option<&Matrix>,
    to: Option<usize>,
    lag: u64,
    frontier: &mut Frontier,
) -> Result<(), AllocError>
    requires lag { lag ≤ redirect_lag }
    requires within { IfSome to (λ k. k < length frontier.old.waiting.items) }
    ensures { OnOk result (IsBrought to
        (Then (In (entry (abstract_frontier frontier.old).base))
        (move_costs steps.now (option_map (λ m. m.now) edge_costs.entry) lag))
        (abstract_frontier frontier.old) (abstract_frontier frontier.new)) }
{
    let Some(to) = to else {
        return Ok(());
    };
    let mut there = take(alloc, &mut frontier.waiting[to], &mut frontier.spare)?;
    join_along(steps, edge_costs, &frontier.base, lag, &mut there);
    frontier.waiting[to] = Some(there);
    Ok(())
}

/// Drops the costs that wait at the words of a span.
fn clear(span: Span, frontier: &mut Frontier)
    requires { span.last < length frontier.old.waiting.items }
    ensures none { (k : ℕ) → span.first ≤ k → k ≤ span.last →
        power_at frontier.new.waiting.items k ≡ None }
    ensures count { length frontier.new.waiting.items ≡ length frontier.old.waiting.items }
{
    for index in span.first..span.last + 1 {
        frontier.waiting[index] = None;
    }
}

/// Begins a pass over a loop, or over the whole section, at its first word.
///
/// # Errors
///
/// Memory ran out.
pub fn begin(
    alloc: Global,
    tree: &LoopTree,
    steps: &Steps,
    around: Option<LoopSetup>,
    frontier: &mut Frontier,
) -> Result<(), AllocError>
    requires known { IfSome around (λ j. Contains tree.now.loops j) }
    requires room { length frontier.old.waiting.items ≡ length tree.now.words }
    ensures { OnOk result ((word_costs : _) → let f = over tree.now steps.now word_costs in
        let s = scope_of f around in IsScope (net f) s → (k : ℕ) → s.low ≡ address tree.now k →
        IsFrontier f tree.now s k (abstract_frontier frontier.new)) }
{
    let span = span_of(tree, around);
    clear(span, frontier);
    frontier.waiting[span.first] = Some(Box::new(alloc, *steps.one())?);
    frontier.hops = HopRow::NONE;
    Ok(())
}

/// Whether the only edge of the word at an index is to the next word.
fn leads_on(tree: &LoopTree, edges: &Edges, index: usize, last: usize) -> bool
    requires order { index ≤ last }
    requires within { last < length tree.now.words }
    requires next { index + 1 < 2 ^ 64 }
    ensures { IsTrue result ↔ ((edges.now.jump ≡ None) ×
        (up_of tree.now index last edges.now.next ≡ Some (index + 1))) }
{
    edges.jump.is_none() && is_index(up_to(tree, index, last, edges.next), index + 1)
}

/// Whether a word is straight code, where a pass need not stop. Nothing waits there, it has no
/// power of a loop, and its only edge is to the next word, by the turns.
pub fn is_straight(
    tree: &LoopTree,
    edges: &Edges,
    index: usize,
    last: usize,
    edge_costs: Option<&Matrix>,
    power: &Option<Box<Matrix>>,
    frontier: &Frontier,
) -> bool
    requires order { index ≤ last }
    requires within { last < length tree.now.words }
    requires edges { edges.now ≡ edges_at tree.now index }
    requires room { length frontier.now.waiting.items ≡ length tree.now.words }
    ensures { IsTrue result ↔ IsStraight tree.now (edges_at tree.now index) index last
        (option_map (λ m. m.now) edge_costs.entry) (option_map (λ b. b.value) power.now)
        (abstract_frontier frontier.now) }
{
    leads_on(tree, edges, index, last)
        && edge_costs.is_none()
        && power.is_none()
        && frontier.waiting[index].is_none()
}

/// Passes a word of straight code: composes its step with the steps before it.
pub fn skip(steps: &Steps, lag: u64, frontier: &mut Frontier)
    requires lag { lag ≤ redirect_lag }
    requires positions { (p d q : ℕ) → Hops (abstract_frontier frontier.old).hops p d q → (p < 8) ×
        (q < 8) }
    requires short { (p d q : ℕ) → Hops (abstract_frontier frontier.old).hops p d q → d ≤ 2 ^ 31 }
    ensures { IsSkipped steps.now lag (abstract_frontier frontier.old) (abstract_frontier
        frontier.new) }
{
    frontier.hops = frontier.hops.then(steps.hops(lag));
}

/// Collects the costs at the word at an index: those that wait there and those that lead on to it.
/// Takes them through the rounds of the loop whose head it is, if it is one.
///
/// # Errors
///
/// Memory ran out.
fn arrive(
    alloc: Global,
    power: &Option<Box<Matrix>>,
    index: usize,
    frontier: &mut Frontier,
) -> Result<(), AllocError>
    requires index { index < length frontier.old.waiting.items }
    requires positions { (p d q : ℕ) → Hops (abstract_frontier frontier.old).hops p d q → (p < 8) ×
        (q < 8) }
    ensures { OnOk result (IsArrived (option_map (λ b. b.value) power.now) index
        (abstract_frontier frontier.old) (abstract_frontier frontier.new)) }
{
    let mut here = take(alloc, &mut frontier.waiting[index], &mut frontier.spare)?;
    join_advanced(&frontier.base, &frontier.hops, &mut here);
    apply_rounds(power, &mut here);
    frontier.spare = Some(mem::replace(&mut frontier.base, here));
    Ok(())
}

/// Goes on to the next word. If that is at the next index, the edge is deferred: its steps are
/// composed with those after it.
fn go_on(
    alloc: Global,
    steps: &Steps,
    edge_costs: Option<&Matrix>,
    next: Option<usize>,
    lag: u64,
    index: usize,
    frontier: &mut Frontier,
) -> Result<(), AllocError>
    requires lag { lag ≤ redirect_lag }
    requires index { index < length frontier.old.waiting.items }
    requires within { IfSome next (λ k. k < length frontier.old.waiting.items) }
    ensures { OnOk result (IsLed steps.now (option_map (λ m. m.now) edge_costs.entry) next lag index
        (abstract_frontier frontier.old) (abstract_frontier frontier.new)) }
{
    if edge_costs.is_none() && is_index(next, index + 1) {
        frontier.hops = *steps.hops(lag);
        return Ok(());
    }
    frontier.hops = HopRow::NONE;
    bring(alloc, steps, edge_costs, next, lag, frontier)
}

/// Goes on from the word at an index, along its edges to later words.
///
/// # Errors
///
/// Memory ran out.
fn follow_edges(
    alloc: Global,
    tree: &LoopTree,
    steps: &Steps,
    edge_costs: Option<&Matrix>,
    edges: &Edges,
    index: usize,
    last: usize,
    frontier: &mut Frontier,
) -> Result<(), AllocError>
    requires lag { edges.now.next_lag ≤ redirect_lag }
    requires order { index ≤ last }
    requires within { last < length tree.now.words }
    requires edges { edges.now ≡ edges_at tree.now index }
    requires room { length frontier.old.waiting.items ≡ length tree.now.words }
    ensures { OnOk result (IsGone tree.now steps.now (option_map (λ m. m.now) edge_costs.entry)
        (edges_at tree.now index) index last (abstract_frontier frontier.old)
        (abstract_frontier frontier.new)) }
{
    let next = up_to(tree, index, last, edges.next);
    go_on(
        alloc,
        steps,
        edge_costs,
        next,
        edges.next_lag,
        index,
        frontier,
    )?;
    let jump = up_to(tree, index, last, edges.jump);
    bring(alloc, steps, edge_costs, jump, JUMP_LAG, frontier)
}

/// Processes the word at an index: collects the costs there, and goes on along its edges to later
/// words. The frontier goes on from these costs then.
///
/// # Errors
///
/// Memory ran out.
pub fn process_word(
    alloc: Global,
    tree: &LoopTree,
    steps: &Steps,
    edge_costs: Option<&Matrix>,
    power: &Option<Box<Matrix>>,
    index: usize,
    last: usize,
    frontier: &mut Frontier,
) -> Result<(), AllocError>
    requires order { index ≤ last }
    requires within { last < length tree.now.words }
    requires room { length frontier.old.waiting.items ≡ length tree.now.words }
    requires positions { (p d q : ℕ) → Hops (abstract_frontier frontier.old).hops p d q → (p < 8) ×
        (q < 8) }
    ensures { OnOk result ((here : _) ×
        IsArrived (option_map (λ b. b.value) power.now) index (abstract_frontier frontier.old) here
        ×
        IsGone tree.now steps.now (option_map (λ m. m.now) edge_costs.entry)
        (edges_at tree.now index) index last here (abstract_frontier frontier.new)) }
{
    arrive(alloc, power, index, frontier)?;
    let edges = edges_at(tree, index);
    follow_edges(
        alloc, tree, steps, edge_costs, &edges, index, last, frontier,
    )
}
