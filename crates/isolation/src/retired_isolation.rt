//! The theorems of isolation over a world, with premises only on issues that have retired. Each is
//! the contract of a call that does nothing; its statement is in specs/RetiredIsolation.antt.

ghost use Rattle.isolation.specs.RetiredIsolation.{RetiredEqualViews, RetiredIsolation};
ghost use Rattle.isolation.specs.RetiredIsolation.{RetiredPhasedIsolation, RetiredWideIsolation};

/// If no retired issue writes a configuration register, a confined hard thread without a permit
/// runs as if it were by itself. Its events are those that the definition of one thread has over
/// its view.
pub fn runs_alone()
    ensures { RetiredIsolation }
{}

/// If no retired issue writes a region register, a confined thread without a permit that is never
/// soft and active runs as if it were by itself over the settings of slots and modes.
pub fn runs_by_phases()
    ensures { RetiredPhasedIsolation }
{}

/// If no retired issue writes a configuration register, two machines that agree in a confined hard
/// thread's view show equal events of it.
pub fn shows_equal_events()
    ensures { RetiredEqualViews }
{
    runs_alone();
}

/// If no retired issue writes a configuration register, a hard thread that isn't confined runs by
/// its wide view.
pub fn runs_by_wide_view()
    ensures { RetiredWideIsolation }
{}
