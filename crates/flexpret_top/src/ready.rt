//! A machine that is ready to run.

ghost use Rattle.std.specs.Prelude.{◌≡◌, ◌≤◌};
ghost use Rattle.timer_unit.specs.Time.{most_cycles};
ghost use Rattle.solo_run.specs.View.{IsView};

use fp_setup::Setup;
use machine::Machine;
use selfrun::Selfrun;
use solo_run::SoloView;

/// A setup, its machine at its start, and the requested number of cycles.
#[derive(Drop)]
pub struct Ready {
    pub setup: Setup,
    pub machine: Machine,
    pub cycles: u64,
    ghost start: { machine.at ≡ 0 },
    ghost limit: { cycles ≤ most_cycles },
}

/// A thread's view, the setup of the view, and the requested number of cycles.
#[derive(Drop)]
pub struct Alone {
    pub setup: Setup,
    pub view: SoloView,
    pub cycles: u64,
    ghost rules: { IsView view },
    ghost limit: { cycles ≤ most_cycles },
}

/// The text that a command will write, prepared.
#[derive(Drop)]
pub enum Prepared {
    /// The lines of a thread's events.
    Trace { ready: Ready, thread: u8 },
    /// The machine after its cycles.
    Dump(Ready),
    /// The lines of the settings of the scheduling.
    Phases(Ready),
    /// The lines of a thread's events, from only its view.
    Solo(Alone),
    /// The line of a trace that is the defined one.
    Same,
    /// The bytes of an image.
    Image(Vec<u8>),
    /// The line of a bound, in cycles.
    Bound(u64),
    /// The lines of the machine's own run.
    Selfrun(Selfrun),
}
