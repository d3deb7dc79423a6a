//! The machine between two cycles.

use pipeline_core::{Pipe, Units};

/// The machine between two cycles: its whole state, without the devices at the ports.
#[derive(Drop)]
pub struct Machine {
    /// The turns in the stages.
    pub pipe: Pipe,
    /// The units that the stages use: registers, scratchpads, slots, regions, timers and traps.
    pub units: Units,
    /// The number of cycles done.
    pub at: u64,
    /// For each thread, the cycle from which its issues find no port; None if its port is never
    /// removed.
    pub unplugs: [Option<u64>; 8],
}
