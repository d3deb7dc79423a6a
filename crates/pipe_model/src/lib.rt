//! Definitions of the five-stage pipeline: its stage registers, the effect of one cycle on them and
//! on the units, and the states that refine a cycle of the machine's world. They are in specs/,
//! below the pipeline in code. The theorems on them are the contracts of the functions here.
#![tactic(auto)]

mod stage_registers;

ghost use Rattle.pipe_model.specs.PipelineLaws.{EventsGrow, HoldsTurns, StepRefines};
ghost use Rattle.pipe_model.specs.PipelineLaws.{RefinesWithoutPort, ShowsTurns, StartRefines};

pub use stage_registers::{Decoded, Executed, Fetched, Flush, Held, Redirect, Stored, Written};

/// If the pipeline's state and its ports refine a cycle of a world, the state after that cycle
/// refines the next one. The words of code and data are arbitrary. The contract states the theorem;
/// the call does nothing.
pub fn refinement()
    ensures { StepRefines }
{}

/// An empty pipeline at the entries of its threads refines cycle 0. The contract states the
/// theorem; the call does nothing.
pub fn start_refines()
    ensures { StartRefines }
{}

/// A state that refines a cycle still does so after one of its ports is removed. The contract
/// states the theorem; the call does nothing.
pub fn refines_without_port()
    ensures { RefinesWithoutPort }
{}

/// In each cycle a thread gains one event if the turn that retires is its issue and has an event.
/// The contract states the theorem; the call does nothing.
pub fn events_grow()
    ensures { EventsGrow }
{}

/// Stage registers that refine a cycle show the turns of the last five cycles, each with its
/// thread. From D on they also show its pc and word. The contract states the theorem; the call does
/// nothing.
pub fn shows_turns()
    ensures { ShowsTurns }
{}

/// Stage registers that refine a cycle hold the contents that the profile of the core defines for
/// the last five turns. They follow from each turn's pc, word and effect, and from its thread's
/// registers. The contract states the theorem; the call does nothing.
pub fn holds_turns()
    ensures { HoldsTurns }
{}
