//! The definitions of the core: one instruction of one thread, one thread by itself, the machine
//! cycle by cycle, and its settings of slots and modes. The definitions are in specs/, below every
//! engine.

#![tactic(auto)]

mod delays;
mod own;
mod phase;
mod world;

pub use delays::{CYCLES_TO_D, CYCLES_TO_E, CYCLES_TO_M, CYCLES_TO_PICK, CYCLES_TO_W};
pub use own::{CsrOp, Own, Trapping};
pub use phase::{Phase, has_own_turns, tells_picks, unretired_is_unseen};
pub use world::goes_by_turns;
