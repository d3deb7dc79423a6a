//! Refused nestings of loops: loops that cross, are nested too deep, or are entered past their
//! head.

ghost use Rattle.std.specs.Prelude.{◌≡◌, ◌<◌, ◌↔◌, length};
ghost use Rattle.std.specs.Prelude.{IsTrue, Option};
ghost use Rattle.region_tree.specs.Graph.{Inside};
ghost use Rattle.region_tree.specs.Nesting.{Crosses, CrossedAt, DeepAt};
ghost use Rattle.region_tree.specs.Nesting.{EnteredAt, NestingAt, depth};
ghost use Rattle.region_tree.specs.Search.{CrossedHere, DeepHere, EntersOff, EnteredHere};
ghost use Rattle.region_tree.specs.Search.{EnteredBy, EnteredFrom};
ghost use Rattle.region_tree.specs.Search.{IsMet, LowestOf, address};
ghost use Rattle.region_tree.specs.Tree.{IsDraft, graph};

use crate::draft::Draft;
use crate::refusals::{holds, lower};
use fp_setup::LoopSetup;

/// Whether the second loop is inside the first, with its head above the first one's.
fn is_inside(outer: &LoopSetup, inner: &LoopSetup) -> bool
    ensures { IsTrue result ↔ Inside outer.now inner.now }
{
    outer.head < inner.head && inner.last <= outer.last
}

/// Whether two loops overlap, and neither is inside the other with its head above the other's.
fn crosses(j: &LoopSetup, i: &LoopSetup) -> bool
    ensures { IsTrue result ↔ Crosses j.now i.now }
{
    j.head <= i.last && i.head <= j.last && !is_inside(j, i) && !is_inside(i, j)
}

/// The head of the loop at an index, if an earlier one crosses it.
fn crossed_here(loops: &[LoopSetup], later: usize) -> Option<u32>
    requires { later < length loops.now }
    ensures { LowestOf (CrossedHere loops.now later) result }
{
    for earlier in 0..later {
        if crosses(&loops[earlier], &loops[later]) {
            return Some(loops[later].head);
        }
    }
    None
}

/// The lowest head of a loop that an earlier one crosses.
fn crossed(loops: &[LoopSetup]) -> Option<u32>
    ensures { LowestOf (CrossedAt loops.now) result }
{
    let mut found = None;
    for later in 0..loops.len() {
        found = lower(found, crossed_here(loops, later));
    }
    found
}

/// The greatest allowed nesting depth: the number of loops that contain all of a loop, including
/// itself.
const DEEPEST: usize = 4;

/// The number of loops that contain all of a loop.
fn depth(loops: &[LoopSetup], j: LoopSetup) -> usize
    ensures { result ≡ depth loops.now j }
{
    loops
        .iter()
        .filter(|i| i.head <= j.head && j.last <= i.last)
        .count()
}

/// The head of the loop at an index, if it is nested deeper than [`DEEPEST`].
fn deep_here(loops: &[LoopSetup], index: usize) -> Option<u32>
    requires { index < length loops.now }
    ensures { LowestOf (DeepHere loops.now index) result }
{
    let j = loops[index];
    if depth(loops, j) > DEEPEST {
        Some(j.head)
    } else {
        None
    }
}

/// The lowest head of a loop that is nested deeper than [`DEEPEST`].
fn deep(loops: &[LoopSetup]) -> Option<u32>
    ensures { LowestOf (DeepAt loops.now) result }
{
    let mut found = None;
    for index in 0..loops.len() {
        found = lower(found, deep_here(loops, index));
    }
    found
}

/// Whether an edge enters a loop, but not at its head.
fn enters_off(j: &LoopSetup, from: u32, to: u32) -> bool
    ensures { IsTrue result ↔ EntersOff j.now from to }
{
    holds(j, to) && !holds(j, from) && to != j.head
}

/// The head of the loop at an index, if an edge enters the loop past its head.
fn entered_here(loops: &[LoopSetup], from: u32, to: u32, index: usize) -> Option<u32>
    requires { index < length loops.now }
    ensures { LowestOf (EnteredHere loops.now from to index) result }
{
    let j = loops[index];
    if enters_off(&j, from, to) {
        Some(j.head)
    } else {
        None
    }
}

/// The lowest head of a loop that the edge to a target enters, but not there.
fn entered_by(loops: &[LoopSetup], from: u32, target: Option<u32>) -> Option<u32>
    ensures { LowestOf (EnteredBy loops.now from target) result }
{
    let to = target?;
    let mut found = None;
    for index in 0..loops.len() {
        found = lower(found, entered_here(loops, from, to, index));
    }
    found
}

/// The lowest head of a loop that an edge of the word at an index enters, but not there.
///
/// Only its jump is tested: a loop that contains the next word but not this one has its head there,
/// since words are four bytes apart. Few words jump; testing the others against every loop would be
/// a fifth of all steps of a large bound.
fn entered_from(draft: &Draft, met: &[bool], index: usize) -> Option<u32>
    requires rules { IsDraft draft.now }
    requires met { IsMet draft.now met.now }
    requires within { index < length draft.now.words }
    ensures { LowestOf (EnteredFrom draft.now index) result }
{
    if !met[index] {
        return None;
    }
    let address = draft.address(index);
    entered_by(draft.loops(), address, draft.edges(index).jump)
}

/// The lowest head of a loop that a reachable edge enters, but not there.
fn entered(draft: &Draft, met: &[bool]) -> Option<u32>
    requires { IsMet draft.now met.now }
    ensures { LowestOf (EnteredAt (graph draft.now)) result }
{
    let mut found = None;
    for index in 0..draft.len() {
        found = lower(found, entered_from(draft, met, index));
    }
    found
}

/// The lowest head of a loop that is nested badly.
pub(crate) fn nesting(draft: &Draft, met: &[bool]) -> Option<u32>
    requires { IsMet draft.now met.now }
    ensures { LowestOf (NestingAt (graph draft.now)) result }
{
    let loops = draft.loops();
    lower(crossed(loops), lower(deep(loops), entered(draft, met)))
}
