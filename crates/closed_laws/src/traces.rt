//! The theorems of isolation for the traces of a machine in closed loops. Each is the contract of a
//! call that does nothing; its statement is in specs/ClosedTraces.antt.

ghost use Rattle.closed_laws.specs.ClosedTraces.{EqualLoopTraces, LoopTraceAlone};
ghost use Rattle.closed_laws.specs.ClosedTraces.{LoopTraceByPhases, QuietLoops};

use isolation::retired_isolation;

/// If no retired issue writes a configuration register, the trace of a confined hard thread is that
/// of the thread by itself in the loop with its plant. The seven others may run any code, and have
/// any plants.
pub fn traces_alone_in_loop()
    ensures { LoopTraceAlone }
{
    retired_isolation::runs_alone();
    closed_loops::has_closed_loops();
}

/// If such a thread has the same plant and the same view without its port's words in two machines,
/// both write equal traces of it.
pub fn writes_equal_loop_traces()
    ensures { EqualLoopTraces }
{
    traces_alone_in_loop();
}

/// A setup without a permit has only such runs, for any image, ports and plants.
pub fn keeps_loops_quiet()
    ensures { QuietLoops }
{
    isolation::isolation::stays_quiet();
}

/// If no retired issue writes a region register, and no setting of slots and modes makes a confined
/// thread soft and active, its trace is that of the thread by itself in the loop with its plant and
/// these settings.
pub fn traces_by_phases_in_loop()
    ensures { LoopTraceByPhases }
{
    closed_loops::has_closed_loops();
}
