//! What one thread does with an instruction, on the units in place: timers, trap registers, sleep
//! moments, and slots, modes and regions. The values of loads, multiplications and divisions come
//! late, from [`finish`].
#![tactic(auto)]

mod access_checks;
mod csr;
mod execute;
mod hart;
mod late_values;
mod outcomes;
mod result;
mod sources;
mod timed_instructions;
mod word_sources;

pub use execute::{execute_frequent, execute_in};
pub use hart::Hart;
pub use late_values::finish;
pub use result::{ExecResult, PcWord, Sources};
pub use sources::sources_of;
pub use word_sources::sources_in;
