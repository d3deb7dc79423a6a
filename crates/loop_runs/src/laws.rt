//! Theorems on loops with sampled plants. Each is the contract of a function that does nothing. The
//! statements are in specs/SampledLaws.antt.

ghost use Rattle.loop_runs.specs.SampledLaws.{SampledAlone, SampledPhased, SampledUnpermitted};

/// In a quiet run a confined hard thread has the same events as when it runs by itself in the loop
/// with its plant. The other threads may run any code.
pub fn runs_alone_in_loops()
    ensures { SampledAlone }
{
    closed_loops::runs_alone_in_loop();
    closed_loops::has_closed_loops();
}

/// The same without permits; then each run is quiet.
pub fn runs_alone_without_permits()
    ensures { SampledUnpermitted }
{
    runs_alone_in_loops();
    isolation::isolation::stays_quiet();
}

/// The same while slots and modes change, for a confined thread that is never soft active.
pub fn runs_by_phases_in_loops()
    ensures { SampledPhased }
{
    closed_loops::runs_by_phases_in_loop();
    closed_loops::has_closed_loops();
}
