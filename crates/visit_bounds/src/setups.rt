//! The bound of a section of a setup's image bounds the runs of machines, by itself and through
//! calls. The contract of each call is a theorem; the call does nothing. The statements are in
//! specs/SetupInSettings.antt. [`crate::premises`] has simpler premises.

ghost use Rattle.visit_bounds.specs.SetupInSettings.{CallVisitsStayBoundedInSettings};
ghost use Rattle.visit_bounds.specs.SetupInSettings.{VisitsStayBoundedInSettings};

/// A visit takes no longer than an upper bound on the cost of the section's paths with these slots.
/// This holds if picking uses the same slots and the thread is hard and active during the visit,
/// and the visit keeps the stated bounds of the loops. The image needs only the same reachable
/// words.
pub fn stays_bounded_in_settings()
    ensures { VisitsStayBoundedInSettings }
{
    crate::sections::stays_bounded_in_settings();
}

/// A call visit takes no longer than an upper bound on the cost of the paths with matching calls
/// and returns with these slots. This holds if picking uses the same slots and the thread is hard
/// and active during the visit. The visit's returns must match its calls, and it must keep the
/// stated bounds of the loops.
pub fn calls_stay_bounded_in_settings()
    ensures { CallVisitsStayBoundedInSettings }
{
    crate::calls::stays_bounded_in_settings();
}
