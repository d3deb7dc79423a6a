//! Why a section with its loops has no bound.

ghost use Rattle.std.specs.Prelude.{◌≡◌, ◌≢◌, ◌<◌, ◌↔◌, length};
ghost use Rattle.std.specs.Prelude.{IsTrue, Option, IfErr, MatchResult};
ghost use Rattle.region_tree.specs.Graph.{Holds, Reachable};
ghost use Rattle.region_tree.specs.Refusals.{UnboundedAt, IsAllowed, IsRefused};
ghost use Rattle.region_tree.specs.Search.{GoesBack, ReturnsBadly};
ghost use Rattle.region_tree.specs.Search.{IsMet, LowestOf, address, lower_of};
ghost use Rattle.region_tree.specs.Tree.{graph};
ghost use Rattle.region_tree.specs.declared.tree.TreeNo.TheVariants.{NoMemory};

use crate::draft::Draft;
use crate::edges::Stop;
use crate::nesting::nesting;
use crate::tree::TreeNo;
use fp_setup::LoopSetup;

/// The lower of two optional addresses.
#[tactic(auto, unfolding(crate::specs::Search::lower_of))]
pub fn lower(a: Option<u32>, b: Option<u32>) -> Option<u32>
    ensures { result ≡ lower_of a b }
{
    match (a, b) {
        (None, _) => b,
        (_, None) => a,
        (Some(x), Some(y)) => Some(x.min(y)),
    }
}

/// Whether a loop contains an address.
pub(crate) fn holds(j: &LoopSetup, address: u32) -> bool
    ensures { IsTrue result ↔ Holds j.now address }
{
    j.head <= address && address <= j.last
}

/// The lowest address of a reachable word with this stop.
fn stopped(draft: &Draft, met: &[bool], stop: Stop) -> Option<u32>
    requires { IsMet draft.now met.now }
    ensures { LowestOf (λ u. Reachable (graph draft.now) u × ((graph draft.now).stop u ≡ stop))
        result }
{
    for index in 0..draft.len() {
        if met[index] && draft.edges(index).stop == stop {
            return Some(draft.address(index));
        }
    }
    None
}

/// Whether an edge leads back to the head of a loop that contains the edge's source.
fn goes_back(loops: &[LoopSetup], from: u32, to: u32) -> bool
    ensures { IsTrue result ↔ GoesBack loops.now from to }
{
    for j in loops {
        if j.head == to && holds(j, from) {
            return true;
        }
    }
    false
}

/// Whether a target is in the section, at or below a word, and is no head of a loop around it.
fn returns_badly(draft: &Draft, from: u32, target: Option<u32>) -> bool
    ensures { IsTrue result ↔ ReturnsBadly draft.now from target }
{
    let section = draft.section();
    match target {
        Some(to) => {
            section.from <= to
                && to < section.to
                && to <= from
                && !goes_back(draft.loops(), from, to)
        }
        None => false,
    }
}

/// Whether the word at an index is reachable and leads back without a bound.
fn is_unbounded(draft: &Draft, met: &[bool], index: usize) -> bool
    requires met { IsMet draft.now met.now }
    requires within { index < length draft.now.words }
    ensures { IsTrue result ↔ UnboundedAt (graph draft.now) (address draft.now index) }
{
    if !met[index] {
        return false;
    }
    let address = draft.address(index);
    let edges = draft.edges(index);
    returns_badly(draft, address, edges.next) || returns_badly(draft, address, edges.jump)
}

/// The lowest address of a reachable word that leads back without a bound.
fn unbounded(draft: &Draft, met: &[bool]) -> Option<u32>
    requires { IsMet draft.now met.now }
    ensures { LowestOf (UnboundedAt (graph draft.now)) result }
{
    for index in 0..draft.len() {
        if is_unbounded(draft, met, index) {
            return Some(draft.address(index));
        }
    }
    None
}

/// Refuses a section that has no bound: nesting first, then jumps, waits and back edges.
///
/// # Errors
///
/// The first of the four kinds that the section has, with the lowest address at which it has it.
pub fn check(draft: &Draft, met: &[bool]) -> Result<(), TreeNo>
    requires { IsMet draft.now met.now }
    ensures allowed { MatchResult result (λ _. IsAllowed (graph draft.now))
        (IsRefused (graph draft.now)) }
    ensures told { IfErr result (λ no. no ≢ NoMemory) }
{
    if let Some(address) = nesting(draft, met) {
        return Err(TreeNo::Nesting { address });
    }
    if let Some(address) = stopped(draft, met, Stop::Indirect) {
        return Err(TreeNo::IndirectJump { address });
    }
    if let Some(address) = stopped(draft, met, Stop::Timed) {
        return Err(TreeNo::TimedWait { address });
    }
    if let Some(address) = unbounded(draft, met) {
        return Err(TreeNo::UnboundedBackEdge { address });
    }
    Ok(())
}
