//! Input and output of the program: files that are read whole by name, and a sink that takes bytes.
//!
//! Both are traits, so that the layers above are proved for every kind of file and sink. An object
//! counts its faults, and its contract may expose its content. With the count, a caller's contract
//! can state that a fault is returned only if one occurred.

#![tactic(auto)]

mod files;
mod gathered;
mod memory_files;
mod memory_sink;
mod real;
mod sink;

pub use files::{FetchFault, Files};
pub use gathered::Gathered;
pub use memory_files::MemFiles;
pub use memory_sink::MemSink;
pub use real::{OutSink, RealFiles};
pub use sink::{PutFailed, Sink};
