//! Theorems on the fields of a machine, and on ports that refine a cycle of a world. Each is the
//! contract of a call that does nothing; its statement is in specs/FieldLaws.antt.

ghost use Rattle.machine.specs.FieldLaws.{Dumps, GoesOn, Unplugs};

/// A machine that refines a cycle of a world still does so after the ports due in that cycle are
/// removed. The contract states the theorem; the call does nothing.
pub fn unplugs_ports()
    ensures { Unplugs }
{}

/// If a machine refines a cycle, its state after the pipeline's step refines the next one. The
/// contract states the theorem; the call does nothing.
pub fn goes_on()
    ensures { GoesOn }
{}

/// If a machine refines a cycle, its dump lines show the world of that cycle. The contract states
/// the theorem; the call does nothing.
pub fn dumps_what_is_seen()
    ensures { Dumps }
{}
