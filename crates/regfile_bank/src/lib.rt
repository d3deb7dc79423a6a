//! The registers of the eight hardware threads.
#![tactic(auto)]

mod rows;

pub use rows::Bank;
