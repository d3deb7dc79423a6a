//! A run in closed loops, from its arguments and files: the thread and the cycles, the program, and
//! the plants by thread; or why there is no run.
#![tactic(auto)]

mod fault;
mod reading;

pub use fault::LoopFault;
pub use reading::{LoopRun, read_loop};
