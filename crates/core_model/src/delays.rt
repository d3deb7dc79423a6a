//! When an instruction is in each stage, in cycles after its issue in F.

/// Cycles from the issue to D, which reads the registers.
pub const CYCLES_TO_D: u64 = 1;

/// Cycles from the issue to E, which executes.
pub const CYCLES_TO_E: u64 = 2;

/// Cycles from the issue to M, which reads and writes memory and ports.
pub const CYCLES_TO_M: u64 = 3;

/// Cycles from the issue to W, the last stage, where an instruction retires.
pub const CYCLES_TO_W: u64 = 4;

/// Cycles from the issue of a write to slots or modes to the first pick that uses it.
pub const CYCLES_TO_PICK: u64 = 3;
