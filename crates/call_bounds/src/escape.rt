//! Edges out of routines.

ghost use Rattle.std.specs.Prelude.{◌<◌, ◌↔◌, length, IfOk, IfErr, IsTrue, OnOk};
ghost use Rattle.region_tree.specs.Search.{LowestOf, address};
ghost use Rattle.region_tree.specs.Tree.{graph};
ghost use Rattle.call_bounds.specs.Build.{AreReached, EscapeFrom, LeadsOut, HasExitAt};
ghost use Rattle.call_bounds.specs.CallRefused.{AreCallsAllowed, IsCallRefused};
ghost use Rattle.call_bounds.specs.CallRefusals.{EscapeAt, IsCallable};
ghost use Rattle.call_bounds.specs.Listing.{AreFunctionTrees, calls};

use crate::causes::function_trees;
use crate::code::Code;
use crate::tree::CallNo;
use region_tree::{LoopTree, Section, edges_of, lower};
use std::alloc::Global;

/// Whether a target lies outside a section.
fn leads_out(section: Section, target: Option<u32>) -> bool
    ensures { IsTrue result ↔ LeadsOut section target }
{
    match target {
        Some(to) => to < section.from || section.to <= to,
        None => false,
    }
}

/// Whether the word at an index is reachable and has an edge out of the tree's section.
fn leaves(tree: &LoopTree, index: usize) -> bool
    requires { index < length tree.now.words }
    ensures { IsTrue result ↔ HasExitAt (graph tree.now) (address tree.now index) }
{
    let section = tree.section();
    let address = section.from + 4 * index as u32;
    if !tree.is_reachable(address) {
        return false;
    }
    let edges = edges_of(tree.word(address), address);
    leads_out(section, edges.next) || leads_out(section, edges.jump)
}

/// The lowest address of a reachable word with an edge out of the tree's section.
fn first_exit(tree: &LoopTree) -> Option<u32>
    ensures { LowestOf (HasExitAt (graph tree.now)) result }
{
    let section = tree.section();
    for index in 0..((section.to - section.from) / 4) as usize {
        if leaves(tree, index) {
            return Some(section.from + 4 * index as u32);
        }
    }
    None
}

/// The lowest address of a reachable word with an edge out of a function, if that is a reached
/// routine.
fn escape_from(trees: &[Option<LoopTree>], function: usize) -> Option<u32>
    requires { function < length trees.now }
    ensures { LowestOf (EscapeFrom trees.now function) result }
{
    if function == 0 {
        return None;
    }
    match &trees[function] {
        Some(tree) => first_exit(tree),
        None => None,
    }
}

/// The lowest address of a reachable word with an edge out of a reached routine.
fn escape(code: &Code, trees: &[Option<LoopTree>]) -> Option<u32>
    requires { AreFunctionTrees code.now trees.now }
    ensures { LowestOf (EscapeAt (calls code.now)) result }
{
    let mut found = None;
    for function in 0..code.function_count() {
        found = lower(found, escape_from(trees, function));
    }
    found
}

/// The trees of the reached functions, if no routine among them has an edge out of it.
///
/// # Errors
///
/// As for [`function_trees`]; then `Escape` with the lowest address of a reachable word with an
/// edge out of a reached routine.
pub fn closed_trees(
    alloc: Global,
    code: &Code,
    reached: &[bool],
) -> Result<Vec<Option<LoopTree>>, CallNo>
    requires reached { AreReached code.now reached.now }
    requires allowed { AreCallsAllowed (calls code.now) }
    ensures trees { IfOk result (λ trees. AreFunctionTrees code.now trees.items) }
    ensures allowed { OnOk result (IsCallable (calls code.now)) }
    ensures refused { IfErr result (IsCallRefused (calls code.now)) }
{
    let trees = function_trees(alloc, code, reached)?;
    match escape(code, trees.as_slice()) {
        None => Ok(trees),
        Some(address) => Err(CallNo::Escape { address }),
    }
}
