//! The observer of a run.

ghost use Rattle.std.specs.Prelude.{◌≡◌, ◌<◌, ◌≤◌, OnOk, OnErr, [], true, is_some};
ghost use Rattle.std.specs.Prelude.{if◌then◌else◌};
ghost use Rattle.std.specs.Io.KnownBytes.{Appends};
ghost use Rattle.fp_io.specs.Causes.{HasRisen};
ghost use Rattle.fp_io.specs.Content.{AppendsPrefix};
ghost use Rattle.timer_unit.specs.Time.{most_cycles};
ghost use Rattle.pipeline_core.specs.Retiring.{retired_in};
ghost use Rattle.pipeline_core.specs.Turns.{held};
ghost use Rattle.pipeline_core.specs.StageFacts.{StoredFits};
ghost use Rattle.machine.specs.Observing.{Acts, next_with, puts_with};

use fp_io::{PutFailed, Sink};
use pipeline_core::{StageRegister, Stored};

/// Takes each turn that retires while a machine runs, and puts bytes for it. Each type of observer
/// has a copy of the loop over cycles with all stages.
pub trait Observer {
    // Its state after an event, the bytes that it puts for the event, and the bytes that are ready.
    ghost acts: { Acts Self };

    /// Takes the turn that retires in a cycle, before the cycle: the turn in `m`, whose issue is
    /// [`StageRegister::retired`]. Returns whether it has bytes to put for it.
    fn retire(&mut self, turn: &StageRegister<Stored>, cycle: u64) -> bool
        requires cycle { cycle < most_cycles }
        requires fits { StoredFits (held turn.now) }
        ensures state { self.new ≡ next_with acts self.old (retired_in cycle turn.now) }
        ensures bytes { puts_with acts self.old (retired_in cycle turn.now)
            ≡ (if result then acts.ready self.new else []) }
        ensures event { result ≡ true → is_some (retired_in cycle turn.now) ≡ true };

    /// Puts the bytes that are ready. It is called after the cycle, so that the device calls of the
    /// cycle come before.
    ///
    /// # Errors
    ///
    /// The sink counted a fault in this call. The run ends with the cycle.
    fn write<K: Sink>(&self, out: &mut K) -> Result<(), PutFailed>
        ensures ok { OnOk result (Appends (K.taken out.old) (K.taken out.new)
            (acts.ready self.now)) }
        ensures err { OnErr result (AppendsPrefix (K.taken out.old) (K.taken out.new)
            (acts.ready self.now)) }
        ensures failed { OnErr result (HasRisen (K.faults out.old) (K.faults out.new)) }
        ensures counted { K.faults out.old ≤ K.faults out.new };
}
