//! The definitions of the machine as a whole: its world cycle by cycle, the events of each thread,
//! and the view of one thread. They are in specs/, below every engine.

ghost use Rattle.core_model.specs.NextWorld.{NextWorld};

/// Each world is computed from the world before it. Its pick uses slots, modes and sleep moments as
/// they were two cycles earlier. The contract states the theorem; the call does nothing.
pub fn goes_by_turns()
    ensures { NextWorld }
{}
