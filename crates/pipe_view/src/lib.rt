//! The observation of the machine cycle by cycle, and its text: a line for each cycle.
//!
//! The contracts state the observation: the machine's state at a cycle's start, the turns in the
//! stages, and the line of the picked turn. A watched cycle is one cycle of the machine. For the
//! text only safety and termination are proved.
#![tactic(auto)]

mod cycle;
mod progress;
mod text;
mod view;
mod watch;
mod window;

pub use cycle::{Cycle, CycleStart, ThreadState, is_flushed, thread_of};
pub use progress::Progress;
pub use text::OutputForm;
pub use view::put_view;
pub use watch::Watch;
pub use window::Window;
