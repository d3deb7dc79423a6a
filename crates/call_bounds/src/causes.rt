//! Why functions are refused.

ghost use Rattle.std.specs.Prelude.{◌≡◌, ◌<◌, [], ◌∷◌, ◌++◌, IfOk, IfErr, OnOk, MatchResult};
ghost use Rattle.call_bounds.specs.Build.{AreReached, AreTreesTo, IsCauseOf};
ghost use Rattle.call_bounds.specs.Build.{IsFirst, IsTried, join_causes, no_causes};
ghost use Rattle.call_bounds.specs.CallRefused.{AreFunctionsAllowed, IsTreeRefused};
ghost use Rattle.call_bounds.specs.Listing.{AreFunctionTrees, calls, function_count};
ghost use Rattle.call_bounds.specs.declared.tree.CallNo.TheVariants.{NoMemory};

use crate::code::Code;
use crate::tree::CallNo;
use region_tree::{LoopTree, TreeNo, lower};
use std::alloc::{AllocError, Global};

/// The lowest address of each cause for a refusal.
#[derive(Clone, Copy)]
pub struct Causes {
    nesting: Option<u32>,
    indirect: Option<u32>,
    timed: Option<u32>,
    unbounded: Option<u32>,
}

impl Causes {
    /// No causes.
    const NONE: Causes = Causes {
        nesting: None,
        indirect: None,
        timed: None,
        unbounded: None,
    };

    /// The cause of one refusal.
    ///
    /// # Errors
    ///
    /// Exactly if memory ran out.
    fn of(no: TreeNo) -> Result<Causes, CallNo>
        ensures known { IfOk result (IsCauseOf no) }
        ensures memory { IfErr result (λ no. no ≡ NoMemory) }
    {
        let none = Causes::NONE;
        match no {
            TreeNo::Nesting { address } => Ok(Causes {
                nesting: Some(address),
                ..none
            }),
            TreeNo::IndirectJump { address } => Ok(Causes {
                indirect: Some(address),
                ..none
            }),
            TreeNo::TimedWait { address } => Ok(Causes {
                timed: Some(address),
                ..none
            }),
            TreeNo::UnboundedBackEdge { address } => Ok(Causes {
                unbounded: Some(address),
                ..none
            }),
            TreeNo::NoMemory => Err(CallNo::NoMemory),
        }
    }

    /// The lower address of each cause.
    fn join(self, other: Causes) -> Causes
        ensures { result ≡ join_causes self other }
    {
        Causes {
            nesting: lower(self.nesting, other.nesting),
            indirect: lower(self.indirect, other.indirect),
            timed: lower(self.timed, other.timed),
            unbounded: lower(self.unbounded, other.unbounded),
        }
    }
}

/// The tree of a function, if the function is reached and not refused, and the causes of its
/// refusal.
#[derive(Drop)]
struct Tried {
    tree: Option<LoopTree>,
    causes: Causes,
}

/// Builds the tree of a function, if the function is reached.
fn try_function(
    alloc: Global,
    code: &Code,
    reached: &[bool],
    function: usize,
) -> Result<Tried, CallNo>
    requires reached { AreReached code.now reached.now }
    requires function { function < function_count code.now }
    ensures tried { IfOk result (λ tried. IsTried code.now function tried.tree tried.causes) }
    ensures memory { IfErr result (λ no. no ≡ NoMemory) }
{
    if !reached[function] {
        return Ok(Tried {
            tree: None,
            causes: Causes::NONE,
        });
    }
    match code.tree(alloc, function) {
        Ok(tree) => Ok(Tried {
            tree: Some(tree),
            causes: Causes::NONE,
        }),
        Err(no) => Ok(Tried {
            tree: None,
            causes: Causes::of(no)?,
        }),
    }
}

/// The functions' trees, and the causes of their refusals.
#[derive(Drop)]
struct Trees {
    trees: Vec<Option<LoopTree>>,
    causes: Causes,
}

/// Appends the tree of the next function, or `None` if it has none.
fn push_tree(trees: &mut Vec<Option<LoopTree>>, tree: Option<LoopTree>) -> Result<(), AllocError>
    ensures { OnOk result (trees.new.items ≡ trees.old.items ++ tree ∷ []) }
{
    trees.push(tree)?;
    Ok(())
}

/// Builds the trees of the reached functions.
fn try_functions(alloc: Global, code: &Code, reached: &[bool]) -> Result<Trees, CallNo>
    requires { AreReached code.now reached.now }
    ensures trees { IfOk result
        (λ r. AreTreesTo code.now (function_count code.now) r.trees.items r.causes) }
    ensures memory { IfErr result (λ no. no ≡ NoMemory) }
{
    let mut trees = Vec::new(alloc);
    let mut causes = Causes::NONE;
    for function in 0..code.function_count() {
        let tried = try_function(alloc, code, reached, function)?;
        causes = causes.join(tried.causes);
        push_tree(&mut trees, tried.tree)?;
    }
    Ok(Trees { trees, causes })
}

/// Refuses with the first cause that has an address, if one has.
fn refuse(causes: Causes) -> Result<(), CallNo>
    ensures { MatchResult result (λ _. causes ≡ no_causes) (IsFirst causes) }
{
    if let Some(address) = causes.nesting {
        return Err(CallNo::Nesting { address });
    }
    if let Some(address) = causes.indirect {
        return Err(CallNo::IndirectJump { address });
    }
    if let Some(address) = causes.timed {
        return Err(CallNo::TimedWait { address });
    }
    if let Some(address) = causes.unbounded {
        return Err(CallNo::UnboundedBackEdge { address });
    }
    Ok(())
}

/// The trees of the reached functions, or why one of them is refused.
///
/// # Errors
///
/// The first of the four causes that a reached function has, with the lowest address at which one
/// has it; or memory ran out.
pub fn function_trees(
    alloc: Global,
    code: &Code,
    reached: &[bool],
) -> Result<Vec<Option<LoopTree>>, CallNo>
    requires { AreReached code.now reached.now }
    ensures trees { IfOk result (λ trees. AreFunctionTrees code.now trees.items) }
    ensures allowed { OnOk result (AreFunctionsAllowed (calls code.now)) }
    ensures refused { IfErr result (IsTreeRefused (calls code.now)) }
{
    let tried = try_functions(alloc, code, reached)?;
    refuse(tried.causes)?;
    Ok(tried.trees)
}
