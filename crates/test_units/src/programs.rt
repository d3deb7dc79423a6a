//! Worked programs through the pipeline, and the trace of a machine that is made field by field. A
//! call is the program; its answer is the events, each after its thread and with a semicolon at its
//! end.

use crate::{machines, pipelines};
use std::alloc::Global;
use test_text::RowText;

/// Appends the events of a program.
pub fn push_answer(text: &mut RowText, alloc: Global, program: &str) {
    match program {
        "state_of_fields" => machines::state_of_fields(alloc, text),
        _ => pipelines::push_program(alloc, text, program),
    }
}
