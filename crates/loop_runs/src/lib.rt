//! Closed loops of the machine. Up to eight plants, one at each thread's port, are sampled while
//! the machine runs, and their words are fed to the ports.

#![tactic(auto)]

mod driver;
mod feeding;
mod laws;
mod plants;

pub use driver::{LoopStop, begin_loops, continue_loops, run_loops};
pub use feeding::{feed_now, feeds_running, forget_past, forgets_running, keeps_three};
pub use laws::{runs_alone_in_loops, runs_alone_without_permits, runs_by_phases_in_loops};
pub use plants::{Plant, Plants, word_of};
