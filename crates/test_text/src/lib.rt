//! Shared code of the programs `test_units` and `test_commands`: reading tables, writing results,
//! and counting.
#![tactic(auto)]

mod bytes;
mod tally;
mod text;

pub use bytes::push_bytes;
pub use tally::Tally;
pub use text::RowText;
