//! The theorems of isolation: the rest of the machine can't change a thread's events. Each is the
//! contract of a call that does nothing; its statement is in specs/Isolation.antt.

ghost use Rattle.isolation.specs.Isolation.{EqualViews, Isolation, PhasedIsolation};
ghost use Rattle.isolation.specs.Isolation.{QuietUnpermitted, WideIsolation};

/// A confined hard thread without a permit runs as if it were by itself. In a quiet run its events
/// are those of the definition of one thread, over its view.
pub fn runs_alone()
    ensures { Isolation }
{
    crate::retired_isolation::runs_alone();
}

/// A confined thread without a permit that is never soft active runs as if it were by itself over
/// the settings of the scheduling. While no region register is written, its events are those of the
/// definition of one thread, over its view and the settings of the run.
pub fn runs_by_phases()
    ensures { PhasedIsolation }
{
    crate::retired_isolation::runs_by_phases();
}

/// In quiet runs two machines that agree in a confined hard thread's view show equal events of it.
pub fn shows_equal_events()
    ensures { EqualViews }
{
    crate::retired_isolation::shows_equal_events();
}

/// Without a permit, no run of any length writes a configuration register.
pub fn stays_quiet()
    ensures { QuietUnpermitted }
{}

/// A hard thread that isn't confined depends only on its wide view. In a quiet run its events are
/// those of the definition of one thread over the wide view. This has the view, all code, and the
/// words that its loads read where others may write. With a permit it has the configuration
/// registers too.
pub fn runs_by_wide_view()
    ensures { WideIsolation }
{
    crate::retired_isolation::runs_by_wide_view();
}
