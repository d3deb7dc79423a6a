//! The view that [`crate::SoloView::of`] returns, in the terms of the theorems on runs of the
//! machine.

ghost use Rattle.solo_run.specs.Setup.{SetupViews};

/// The view computed from a setup and an image is the thread's view in the world of their machine.
/// This holds for any ports and number of cycles. The contract states the theorem; the call does
/// nothing.
pub fn setup_views_are_views()
    ensures { SetupViews }
{}
