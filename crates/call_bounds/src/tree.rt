//! A section with its routines, for a bound through calls.

ghost use Rattle.std.specs.Prelude.{◌≡◌, IfOk, IfErr, OnOk, MatchResult};
ghost use Rattle.region_guard.specs.MemoryMap.{large_size};
ghost use Rattle.region_tree.specs.Refusals.{Nowhere};
ghost use Rattle.region_tree.specs.Search.{LowestOf};
ghost use Rattle.call_bounds.specs.Build.{IsTable};
ghost use Rattle.call_bounds.specs.CallRefused.{IsCallRefused};
ghost use Rattle.call_bounds.specs.CallRefusals.{IsCallable, OverlapAt};
ghost use Rattle.call_bounds.specs.Listing.{AreFunctionTrees, AreRanks, calls};

use crate::call_table::call_table;
use crate::code::Code;
use crate::escape::closed_trees;
use crate::order::{function_ranks, ordered_functions};
use crate::routines::{Routine, Routines};
use fp_image::Image;
use fp_setup::{LoopSetup, Loops};
use region_tree::{LoopTree, Section};
use std::alloc::{AllocError, Global};
use std::marker::Model;
use thiserror::Error;

/// Why a section with routines has no bound through calls. A refusal line shows the numbers 1 to 4
/// for the first four and 8 to 10 for the last three; out of memory has no number.
#[derive(Clone, Copy, Debug, PartialEq, Eq, Error)]
pub enum CallNo {
    /// Loops of a reached function overlap, lie too deep or are entered elsewhere than at their
    /// head; the head of such a loop.
    #[error("loops are nested badly at {address:#010x}")]
    Nesting { address: u32 },
    /// A reachable word of a reached function jumps to an address in a register, and isn't a
    /// return; the word's address.
    #[error("an indirect jump at {address:#010x}")]
    IndirectJump { address: u32 },
    /// A reachable word of a reached function is a timed wait; the word's address.
    #[error("a timed wait at {address:#010x}")]
    TimedWait { address: u32 },
    /// A reachable word of a reached function has a back edge to a word of the function that is no
    /// head of a counting loop around it; the word's address.
    #[error("a back edge without a bound at {address:#010x}")]
    UnboundedBackEdge { address: u32 },
    /// Memory ran out.
    #[error("out of memory")]
    NoMemory,
    /// A listed routine has a word in common with the section; the routine's head.
    #[error("the routine at {address:#010x} overlaps the section")]
    Overlap { address: u32 },
    /// Calls lead from a reached routine back to itself; the routine's head.
    #[error("calls lead from the routine at {address:#010x} back to it")]
    Recursion { address: u32 },
    /// A reachable word of a reached routine has an edge out of the routine, or is a call at its
    /// last word; the word's address.
    #[error("an edge out of a routine at {address:#010x}")]
    Escape { address: u32 },
}

impl From<AllocError> for CallNo {
    ghost use Rattle.std.specs.Prelude.{◌≡◌};
    ghost use Rattle.call_bounds.specs.declared.tree.CallNo.TheVariants.{NoMemory};

    ghost from_gives = { λ _ no. no ≡ NoMemory };

    fn from(_error: AllocError) -> CallNo {
        CallNo::NoMemory
    }
}

/// A section of code with the routines that it may call, for a bound through calls. Its functions
/// are numbered: the section is number 0, and the routines follow in their order.
#[derive(Drop)]
pub struct CallTree {
    code: Code,
    trees: Vec<Option<LoopTree>>,
    ranks: Vec<usize>,
}

impl Model for CallTree {
    ghost use Rattle.call_bounds.specs.Listing.{Listing, IsCallTree};

    ghost Value = { Listing };

    ghost view = { λ t. t.code };

    ghost invariant = { λ t. IsCallTree t.code t.trees.items t.ranks.items };
}

/// The lowest head of a routine that has a word in common with the section.
fn overlap(code: &Code) -> Option<u32>
    ensures { LowestOf (OverlapAt (calls code.now)) result }
{
    let section = code.section();
    for routine in code.routines() {
        if routine.head < section.to && section.from <= routine.last {
            return Some(routine.head);
        }
    }
    None
}

/// Refuses code where a routine has a word in common with the section.
fn refuse_overlap(code: &Code) -> Result<(), CallNo>
    ensures { MatchResult result (λ _. Nowhere (OverlapAt (calls code.now)))
        (IsCallRefused (calls code.now)) }
{
    match overlap(code) {
        None => Ok(()),
        Some(address) => Err(CallNo::Overlap { address }),
    }
}

/// The trees of the reached functions, if calls lead from none of them back to it and no routine
/// has an edge out of it.
fn trees_of(alloc: Global, code: &Code, table: &[bool]) -> Result<Vec<Option<LoopTree>>, CallNo>
    requires table { IsTable code.now table.now }
    requires overlap { Nowhere (OverlapAt (calls code.now)) }
    ensures trees { IfOk result (λ trees. AreFunctionTrees code.now trees.items) }
    ensures allowed { OnOk result (IsCallable (calls code.now)) }
    ensures refused { IfErr result (IsCallRefused (calls code.now)) }
{
    let reached = ordered_functions(alloc, code, table)?;
    closed_trees(alloc, code, reached.as_slice())
}

/// The functions of code that isn't refused.
#[derive(Drop)]
struct BuiltFunctions {
    /// The trees of the reached functions.
    trees: Vec<Option<LoopTree>>,
    /// The ranks of all functions.
    ranks: Vec<usize>,
}

/// Builds the functions of code, unless it is refused.
fn build_functions(alloc: Global, code: &Code) -> Result<BuiltFunctions, CallNo>
    ensures trees { IfOk result (λ functions. AreFunctionTrees code.now functions.trees.items) }
    ensures order { IfOk result (λ functions. AreRanks code.now functions.ranks.items) }
    ensures allowed { OnOk result (IsCallable (calls code.now)) }
    ensures refused { IfErr result (IsCallRefused (calls code.now)) }
{
    refuse_overlap(code)?;
    let table = call_table(alloc, code)?;
    let trees = trees_of(alloc, code, table.as_slice())?;
    let ranks = function_ranks(alloc, code, table.as_slice())?;
    Ok(BuiltFunctions { trees, ranks })
}

impl CallTree {
    ghost use Rattle.std.specs.Prelude.{◌≡◌, ℕ, ◌<◌, ◌≤◌, MatchOption, None, IfOk, OnOk, IfErr};
    ghost use Rattle.fp_image.specs.Rules.{word};
    ghost use Rattle.region_tree.specs.Tree.{IsSection};
    ghost use Rattle.call_bounds.specs.CallRefused.{IsCallRefused};
    ghost use Rattle.call_bounds.specs.CallRefusals.{IsCallable, IsListing};
    ghost use Rattle.call_bounds.specs.Calls.{returns};
    ghost use Rattle.call_bounds.specs.Listing.{AreRanks, calls, listing_of, function_at};
    ghost use Rattle.call_bounds.specs.Listing.{function_count};
    ghost use Rattle.call_bounds.specs.Functions.{IsCallee, IsFunctionReached, calls_of};
    ghost use Rattle.call_bounds.specs.Functions.{tree_of_function};

    /// The tree of a section of an image, with the listed routines and loops. The section isn't
    /// empty, its ends are multiples of four, and it ends at most at 65,536.
    ///
    /// A call is a JAL that writes the address after it to x1 and jumps to the head of a listed
    /// routine. In its function it has an edge to the word after it. A return is the word
    /// 0x00008067 in a routine. The section is a reached function, and so is each routine that a
    /// reachable word of a reached function calls.
    ///
    /// # Errors
    ///
    /// [`CallNo`] exactly if one of its causes holds: the first that holds anywhere, with the
    /// lowest address at which it holds. `Overlap` comes first, then `Recursion`, then the four
    /// causes of [`region_tree::TreeNo`] in their order, each over all reached functions, and
    /// `Escape` last. `NoMemory` if memory ran out.
    pub fn build(
        alloc: Global,
        image: &Image,
        section: Section,
        routines: &Routines,
        loops: &Loops,
    ) -> Result<CallTree, CallNo>
        requires { IsSection section }
        ensures tree { IfOk result
            (λ tree. tree ≡ listing_of (word image.now) section routines.now loops.now) }
        ensures listing { OnOk result
            (IsListing (calls_of (word image.now) section routines.now loops.now)) }
        ensures allowed { OnOk result
            (IsCallable (calls_of (word image.now) section routines.now loops.now)) }
        ensures refused { IfErr result
            (IsCallRefused (calls_of (word image.now) section routines.now loops.now)) }
    {
        let code = Code::new(alloc, image, section, routines, loops)?;
        let functions = build_functions(alloc, &code)?;
        Ok(CallTree {
            code,
            trees: functions.trees,
            ranks: functions.ranks,
        })
    }

    /// The section.
    pub fn section(&self) -> Section
        ensures { result ≡ self.now.section }
    {
        self.code.section()
    }

    /// The listed routines.
    pub fn routines(&self) -> &[Routine]
        ensures { result.now ≡ self.now.routines }
    {
        self.code.routines()
    }

    /// The listed loops.
    pub fn loops(&self) -> &[LoopSetup]
        ensures { result.now ≡ self.now.loops }
    {
        self.code.loops()
    }

    /// The number of functions: the section and the routines.
    pub fn function_count(&self) -> usize
        ensures value { result ≡ function_count self.now }
        ensures few { result ≤ 65 }
        ensures listing { IsListing (calls self.now) }
        ensures callable { IsCallable (calls self.now) }
    {
        let _ranks = &self.ranks;
        self.code.function_count()
    }

    /// The tree of a function, if it is reached. Its calls and returns are replaced.
    pub fn tree(&self, function: usize) -> Option<&LoopTree>
        requires { function < function_count self.now }
        ensures { MatchOption result (IsFunctionReached self.now function → ⊥)
            (λ tree. IsFunctionReached self.now function × (tree.now ≡ tree_of_function self.now
            function)) }
    {
        self.trees[function].as_ref()
    }

    /// The number of the function that the word at an address calls, if it is a call.
    pub fn called(&self, address: u32) -> Option<usize>
        requires { address < large_size }
        ensures { IsCallee self.now address result }
    {
        self.code.called(address)
    }

    /// Whether the word at an address of a function is a return.
    pub fn is_return(&self, function: usize, address: u32) -> bool
        requires function { function < function_count self.now }
        requires address { address < large_size }
        ensures { result ≡ returns (calls self.now) (function_at self.now function) address }
    {
        self.code.is_return(function, address)
    }

    /// A rank for each function: the callees of a reached function have lower ones. No rank is
    /// above the number of functions.
    pub fn ranks(&self) -> &[usize]
        ensures { AreRanks self.now result.now }
    {
        self.ranks.as_slice()
    }
}
