//! Theorems about paths inside a loop. The contract of each call is the theorem; the call does
//! nothing.

ghost use Rattle.bound_calc.specs.Rounds.{RoundsAreSteps, StaysInRounds};

/// From where a path enters a loop, and while it stays there, it makes at most as many rounds as
/// the loop's bound, and one more.
pub fn stays_in_rounds()
    ensures { StaysInRounds }
{}

/// Take at most bound + 1 rounds of a reachable loop, in a section that isn't refused. They are
/// steps that keep the bounds of the loop and of the loops inside it.
pub fn rounds_are_steps()
    ensures { RoundsAreSteps }
{}
