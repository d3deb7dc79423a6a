//! The trap registers of the eight hardware threads, and access to control and status registers by
//! their numbers.

#![tactic(auto)]

mod shared;
mod unit;
mod word;

pub use core_model::{CsrOp, Trapping};
pub use unit::{CsrDone, CsrNo, Traps};
