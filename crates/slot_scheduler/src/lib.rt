//! Which hardware thread is picked in a cycle, by slots, modes and sleep moments.
#![tactic(auto)]

mod mode_word;
mod picking;

pub use mode_word::{BadMode, Modes};
pub use picking::{Pick, Sched, Scheduler};
