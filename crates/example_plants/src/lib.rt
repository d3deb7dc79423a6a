//! Examples of plants: a heated body, a motor, a plant with a table, and one with recorded words;
//! and the plants of a list.

#![tactic(auto)]

mod body;
mod lag;
pub mod laws;
mod listed;
mod motor;
mod recorded;
mod table;

pub use body::HeatedBody;
pub use listed::{ListedPlant, plants_of_list};
pub use motor::Motor;
pub use recorded::RecordedPlant;
pub use table::TablePlant;
