//! The machine's own run: eight programs that a simple generator draws from a number. Its result
//! has for each thread the number of its events and a hash of the text of its trace.

#![tactic(auto)]

mod cycles;
mod drawing;
mod hex_pairs;
mod instructions;
mod line_fold;
mod piece;
mod running;
mod sites;
mod tally;

pub use running::Selfrun;
pub use tally::Tally;
