//! A scratchpad: the words of the instruction memory, or of the data memory.
#![tactic(auto)]

mod memory;

pub use memory::Spm;
