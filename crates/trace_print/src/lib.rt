//! The texts of events, refusals, bounds and dumps, each in a buffer of fixed size: no memory is
//! allocated and nothing can fail.
#![tactic(auto)]

mod bounds;
mod digits;
mod dump_lines;
mod event_line;
mod events;
mod in_place;
mod places;
mod refusals;

pub use bounds::bound_line;
pub use digits::{push_decimal, push_hex, push_right, push_word};
pub use dump_lines::{
    StageContent, cycles_line, latch_line, memory_line, stage_line, thread_words_line, timer_line,
    word_line,
};
pub use event_line::EventLine;
pub use events::line;
pub use refusals::{Refusal, refusal_line};
