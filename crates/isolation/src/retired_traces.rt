//! The theorems of isolation for the machine of a setup, an image and ports, with premises only on
//! issues that have retired. Each is the contract of a call that does nothing; its statement is in
//! specs/RetiredTraces.antt.

ghost use Rattle.isolation.specs.RetiredTraces.{RetiredEqualTraces, RetiredTraceAlone};
ghost use Rattle.isolation.specs.RetiredTraces.{RetiredTraceByPhases, RetiredTraceByWideView};

/// If no retired issue writes a configuration register, the trace of a confined hard thread is that
/// of the definition of one thread over its view. The seven others may run any code.
pub fn traces_alone()
    ensures { RetiredTraceAlone }
{
    crate::retired_isolation::runs_alone();
}

/// If no retired issue writes a region register, and no setting of slots and modes makes a confined
/// thread soft and active, its trace is that of the definition of one thread over its view and
/// these settings.
pub fn traces_by_phases()
    ensures { RetiredTraceByPhases }
{
    crate::retired_isolation::runs_by_phases();
}

/// If no retired issue writes a configuration register, machines that agree in a confined hard
/// thread's view write equal traces of it.
pub fn writes_equal_traces()
    ensures { RetiredEqualTraces }
{
    traces_alone();
}

/// If no retired issue writes a configuration register, the trace of a hard thread that isn't
/// confined follows from its wide view.
pub fn traces_by_wide_view()
    ensures { RetiredTraceByWideView }
{
    crate::retired_isolation::runs_by_wide_view();
}
