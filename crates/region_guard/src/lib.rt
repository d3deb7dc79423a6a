//! The region registers: the owners of the regions of the two scratchpads, and the resulting
//! permissions to fetch, load and store.
#![tactic(auto)]

mod access;
mod memory_map;
mod register;

pub use access::Guard;
pub use memory_map::{DATA_START, LARGE_SIZE, PORT_ADDRESS, SMALL_SIZE};
pub use register::{BadRegion, READ_ONLY, Regions, SHARED};
