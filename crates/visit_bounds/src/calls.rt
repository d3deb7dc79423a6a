//! The bound of a section with routines bounds runs: no visit of the section takes longer, with the
//! routines that it calls. The contract of the call is a theorem; it does nothing. The statement
//! is in specs/CallsInSettings.antt.

ghost use Rattle.visit_bounds.specs.CallsInSettings.{CallVisitsAreBoundedInSettings};

/// A call visit takes no longer than an upper bound on the cost of the section's paths with
/// matching calls and returns. This holds if picking uses the same slots and the thread is hard and
/// active during the visit. The visit's returns must match its calls, and it must keep the stated
/// bounds of the loops of reached functions.
pub fn stays_bounded_in_settings()
    ensures { CallVisitsAreBoundedInSettings }
{}
