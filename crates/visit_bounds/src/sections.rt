//! The bound of a section bounds runs: no visit of the section takes longer. The contract of each
//! call is a theorem; the call does nothing. The statements are in specs/InSettings.antt and
//! specs/VisitBound.antt.

ghost use Rattle.visit_bounds.specs.InSettings.{IssuesFollowEdgesInSettings};
ghost use Rattle.visit_bounds.specs.InSettings.{VisitsAreBoundedInSettings};
ghost use Rattle.visit_bounds.specs.VisitBound.{IssuesFollowEdges};

/// While picking uses the same slots, and a thread is hard and active, its issues follow the edges
/// of the section. Each is at the thread's first turn after the edge's lag.
pub fn follows_edges_in_settings()
    ensures { IssuesFollowEdgesInSettings }
{}

/// A visit takes no longer than an upper bound on the cost of the section's paths. This holds if
/// picking uses the same slots and the thread is hard and active during the visit, and the visit
/// keeps the stated bounds of the section's loops. Writes of region registers don't matter, nor do
/// writes of slots and modes before and after the visit.
pub fn stays_bounded_in_settings()
    ensures { VisitsAreBoundedInSettings }
{
    follows_edges_in_settings();
}

/// In a quiet run the issues of a hard thread follow the edges of the section, each at the thread's
/// first turn after the edge's lag.
pub fn follows_edges()
    ensures { IssuesFollowEdges }
{
    follows_edges_in_settings();
}
