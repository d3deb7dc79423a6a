//! Time, and the timers of the eight hardware threads.
#![tactic(auto)]

mod clock;
mod row;
mod timers;

pub use clock::{Clock, LAST_TIMED_CYCLE, MOST_CYCLES, moment};
pub use row::Timer;
pub use timers::Timers;
