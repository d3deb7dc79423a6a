//! The outcome of an instruction, from its pc and the values of its source registers.

#![tactic(auto)]

mod access;
mod alu;
pub mod cause;
mod execution;
mod muldiv;
mod outcome;

pub use access::{load_size, load_value, store_lanes, store_size};
pub use alu::compute;
pub use execution::execute;
pub use muldiv::multiply;
pub use outcome::{ALL_LANES, Effect, Event, Lanes, Outcome};
