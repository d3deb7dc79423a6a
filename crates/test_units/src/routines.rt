//! Routines that are read from the bytes of a file.

ghost use Rattle.region_guard.specs.Regions.{IsSize};

use crate::escapes::unescaped;
use crate::numbers::head;
use call_bounds::{Routine, RoutinesRefused, read_routines};
use std::alloc::Global;
use test_text::RowText;

/// The size of scratchpads by its name.
fn size_of(name: &str) -> u32
    ensures { IsSize result }
{
    if name == "small" { 16_384 } else { 65_536 }
}

/// `small BYTES` or `large BYTES`, with escapes, for the two sizes of scratchpads: the routines, or
/// the first fault with its line.
pub fn push_answer(text: &mut RowText, alloc: Global, call: &str) {
    let (size, bytes) = head(call);
    match read_routines(alloc, &unescaped(text, alloc, bytes), size_of(size)) {
        Ok(routines) => push_routines(text, routines.as_slice()),
        Err(RoutinesRefused::Fault { line, code }) => write!(text, "{code:?} {line}"),
        Err(RoutinesRefused::NoMemory) => text.refuse(),
    }
}

/// The first and the last word of each routine.
fn push_routines(text: &mut RowText, routines: &[Routine]) {
    for routine in routines {
        write!(text, "{:x}:{:x};", routine.head, routine.last);
    }
}
