//! The slots register: the frame of slots that share the cycles, and the turn of each cycle. Also
//! words as eight fields of four bits, as used by the region registers too.
#![tactic(auto)]

mod frame;
mod nibbles;
mod table;

pub use frame::{BadSlot, DISABLED, SOFT, Turn};
pub use nibbles::{nibble, nibbles_of};
pub use table::SlotTable;
