//! The pipeline of the core: five stages, F, D, E, M and W, through which the turns of the eight
//! hardware threads go, one stage in each cycle.
#![tactic(auto)]

mod decode;
mod execute;
mod fetch;
mod memory;
mod memory_stage;
mod pipe;
mod retiring;
mod stage_register;
mod stages;
mod units;
mod writeback;

pub use pipe::Pipe;
pub use pipe_model::{Decoded, Executed, Fetched, Held, Stored, Written};
pub use retiring::Retired;
pub use stage_register::StageRegister;
pub use stages::Stages;
pub use units::Units;
