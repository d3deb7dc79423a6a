//! The guarantees of [`flexpret`](crate::flexpret) by simpler premises. The contract of each call
//! is a theorem; the call does nothing. The statements are in specs/Corollaries.antt.

ghost use Rattle.flexpret_top.specs.Corollaries.{LongestByCallsByPhases, LongestByPhases};
ghost use Rattle.flexpret_top.specs.Corollaries.{LongestByCallsWhileQuiet, LongestWhileQuiet};
ghost use Rattle.flexpret_top.specs.Corollaries.{LongestByCallsWhileScheduled};
ghost use Rattle.flexpret_top.specs.Corollaries.{LongestWhileScheduled};
ghost use Rattle.flexpret_top.specs.Corollaries.{QuietIsolation, QuietIsolationByPhases};

use visit_bounds::premises::{has_same_words, phase_is_set, start_is_set};

/// If no issue writes a configuration register, retired or in flight, the trace that `run` wrote
/// for a confined hard thread follows from its view. If none writes a region register, it follows
/// from the view and the settings.
pub fn isolates_in_quiet_runs()
    ensures by_view { QuietIsolation }
    ensures by_phases { QuietIsolationByPhases }
{}

/// The numbers of `bound` and `calls` hold for each visit by a thread that starts hard and active
/// with the setup's slots, while no issue writes slots or modes. Region registers may be written.
pub fn bounds_while_scheduled()
    ensures sections { LongestWhileScheduled }
    ensures calls { LongestByCallsWhileScheduled }
{
    start_is_set();
}

/// The numbers hold for a visit whose cycles have settings of the same slots, with the thread hard
/// and active. `phases` writes these settings.
pub fn bounds_by_phases()
    ensures sections { LongestByPhases }
    ensures calls { LongestByCallsByPhases }
{
    phase_is_set();
}

/// The numbers hold for each visit in a run that writes no configuration register, by a thread that
/// starts hard and active with the setup's slots. The section's words are the same.
pub fn bounds_while_quiet()
    ensures sections { LongestWhileQuiet }
    ensures calls { LongestByCallsWhileQuiet }
{
    start_is_set();
    has_same_words();
    bounds_while_scheduled();
}
