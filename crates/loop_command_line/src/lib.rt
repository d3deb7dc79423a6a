//! The arguments of a run in closed loops, and the list of its plants.
#![tactic(auto)]

mod arguments;
mod kind;
mod lines;
mod listed;
mod plants;

pub use arguments::{LoopAsk, read_arguments};
pub use kind::Kind;
pub use listed::Listed;
pub use plants::{ListNo, MOST_LIST_BYTES, read_plants};
