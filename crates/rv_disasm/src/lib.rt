//! The text of a word at its address, as the assembler reads it. Assembled there, the text is the
//! word again.
#![tactic(auto)]

mod names;
mod operands;
mod round_trip;
mod text;

pub use round_trip::texts_assemble_back;
pub use text::text_at;
