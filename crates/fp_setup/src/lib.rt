//! A setup file: period, slots, regions, threads with their inputs, and the loops with their
//! bounds.
//!
//! A setup is a TOML document. [`read_setup`] returns the setup of a document, or its first fault
//! with the fault's place, in the order of checks of `docs/FORMATS.md`.
#![tactic(auto)]

mod bounds;
mod file_name;
mod input_list;
mod input_rows;
mod keys;
mod loop_list;
mod loop_rows;
mod nibble_list;
mod reader;
mod refusal;
mod setup;
mod thread_list;
mod thread_rows;
mod values;
mod vocabulary;

pub use file_name::Name;
pub use input_list::{Input, Inputs};
pub use loop_list::{LoopSetup, Loops};
pub use reader::{MOST_SETUP_BYTES, accepted_keep_rules, read_setup};
pub use refusal::{Fault, Place, SetupNo, SetupRefused};
pub use setup::Setup;
pub use thread_list::{ThreadSetup, Threads};
