//! The instruction set of the core: RV32IM with the CSR instructions, FENCE.I and this project's
//! timing instructions, as words and as values of [`Ins`].

#![tactic(auto)]

pub mod csr;
mod decoder;
mod encoder;
mod fields;
mod instruction;
mod lags;

pub use decoder::decode;
pub use encoder::encode;
pub use instruction::{AluOp, BranchOp, CsrKind, ImmOp, Ins, LoadOp, MulOp, ShiftOp, StoreOp};
pub use lags::{LATE_LAG, PLAIN_LAG, REDIRECT_LAG, lag_of};
