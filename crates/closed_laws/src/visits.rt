//! The theorems on visits for a machine in closed loops. Each is the contract of a call that does
//! nothing; its statement is in specs/ClosedVisits.antt.

ghost use Rattle.closed_laws.specs.ClosedVisits.{LoopCallVisitsStayBounded};
ghost use Rattle.closed_laws.specs.ClosedVisits.{LoopCallVisitsStayBoundedInSettings};
ghost use Rattle.closed_laws.specs.ClosedVisits.{LoopVisitsStayBounded};
ghost use Rattle.closed_laws.specs.ClosedVisits.{LoopVisitsStayBoundedInSettings};

use visit_bounds::{calls, sections};

/// A visit takes no longer than an upper bound on the cost of the section's paths with these slots,
/// if picking uses them and the thread is hard and active during the visit, and the visit keeps the
/// stated bounds of the loops.
pub fn loop_visits_stay_bounded_in_settings()
    ensures { LoopVisitsStayBoundedInSettings }
{
    sections::stays_bounded_in_settings();
}

/// The same for all visits of a thread that starts hard and active, while no issue writes slots or
/// modes.
pub fn loop_visits_stay_bounded()
    ensures { LoopVisitsStayBounded }
{
    loop_visits_stay_bounded_in_settings();
}

/// A call visit with matching returns takes no longer than an upper bound on the cost of the paths
/// with matching calls and returns, on the same conditions.
pub fn loop_calls_stay_bounded_in_settings()
    ensures { LoopCallVisitsStayBoundedInSettings }
{
    calls::stays_bounded_in_settings();
}

/// The same for all call visits of a thread that starts hard and active, while no issue writes
/// slots or modes.
pub fn loop_calls_stay_bounded()
    ensures { LoopCallVisitsStayBounded }
{
    loop_calls_stay_bounded_in_settings();
}
