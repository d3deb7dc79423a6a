//! The theorems of isolation for the traces of the machine of a setup, an image and ports. Each is
//! the contract of a call that does nothing; its statement is in specs/TraceLaws.antt.

ghost use Rattle.isolation.specs.TraceLaws.{EqualTraces, QuietSetup, TraceAlone};
ghost use Rattle.isolation.specs.TraceLaws.{TraceByPhases, TraceByWideView};

/// In a quiet run the trace of a confined hard thread is that of the definition of one thread over
/// its view. The seven others may run any code.
pub fn traces_alone()
    ensures { TraceAlone }
{
    crate::retired_traces::traces_alone();
}

/// While no region register is written, and no setting of the scheduling makes a confined thread
/// soft active, its trace is that of the definition of one thread over its view and the settings of
/// the run.
pub fn traces_by_phases()
    ensures { TraceByPhases }
{
    crate::retired_traces::traces_by_phases();
}

/// In quiet runs machines that agree in a confined hard thread's view write equal traces of it.
pub fn writes_equal_traces()
    ensures { EqualTraces }
{
    crate::retired_traces::writes_equal_traces();
}

/// A setup without a permit has only quiet runs.
pub fn stays_quiet()
    ensures { QuietSetup }
{
    crate::isolation::stays_quiet();
}

/// In a quiet run the trace of a hard thread that isn't confined follows from its wide view.
pub fn traces_by_wide_view()
    ensures { TraceByWideView }
{
    crate::retired_traces::traces_by_wide_view();
}
