//! The control-flow graph of a section of code: the edges of its words, and the tree of its
//! counting loops. A region of this crate is a region of that graph, not one of a scratchpad.

#![tactic(auto)]

mod draft;
mod edges;
mod nesting;
mod reach;
mod refusals;
mod section;
mod tree;

pub use draft::{Draft, words};
pub use edges::{Edges, JUMP_LAG, Stop, edges_of};
pub use reach::reachable;
pub use refusals::lower;
pub use section::Section;
pub use tree::{LoopTree, TreeNo};
