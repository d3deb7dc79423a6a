//! Theorems about paths with matching calls and returns. The contract of each call is the theorem;
//! the call does nothing.

ghost use Rattle.call_bounds.specs.CallWalkLaws.{CallWalksCostAsFunctions, FunctionsHaveTheBound};

/// If nothing is refused, paths through a section and its routines, with their open calls and
/// counters, have the same costs as nested paths of single functions. Each nested path has counters
/// of its own, from 0.
pub fn call_walks_cost_as_functions()
    ensures { CallWalksCostAsFunctions }
{}

/// If nothing is refused, the largest cost of nested paths of functions is the bound through calls.
pub fn functions_have_the_bound()
    ensures { FunctionsHaveTheBound }
{}
