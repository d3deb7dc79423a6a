//! The bound of a section: the largest number of cycles of a path through it.

#![tactic(auto)]

mod advanced;
mod cycle_bound;
mod fill;
mod frontier;
mod hop;
mod laws;
mod matrix;
mod pass;
mod powers;
mod reached;
mod returns;
mod rounds;
mod steps;
mod word_costs;

pub use advanced::{largest, largest_through};
pub use cycle_bound::{BoundNo, bound, is_out};
pub use laws::{rounds_are_steps, stays_in_rounds};
pub use matrix::Matrix;
pub use pass::{along, edges_at};
pub use reached::{Pass, reach};
pub use returns::{jump, through};
pub use steps::{Steps, has_slot};
pub use word_costs::WordCosts;
