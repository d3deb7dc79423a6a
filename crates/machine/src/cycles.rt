//! A cycle of a machine, with the stage registers as the stages use them.

ghost use Rattle.std.specs.Prelude.{◌≡◌, ◌<◌, is_some, vec_len};
ghost use Rattle.std.specs.List.{list_any};
ghost use Rattle.timer_unit.specs.Time.{most_cycles};
ghost use Rattle.fp_ports.specs.PluggedPorts.{rows_of};
ghost use Rattle.pipe_model.specs.Stages.{writeback_stage};
ghost use Rattle.pipeline_core.specs.Abstraction.{abstract_stages, registers_in};
ghost use Rattle.pipeline_core.specs.Turns.{held};
ghost use Rattle.pipeline_core.specs.StageFacts.{WrittenFits};
ghost use Rattle.machine.specs.OneCycle.{DoesCycle};

use crate::state::Machine;
use fp_ports::Ports;
use pipe_model::{Held, Written};
use pipeline_core::Stages;

/// The loop of the last cycle of a run.
pub(crate) struct Last;

impl Machine {
    /// Does one cycle with these stage registers, as [`Run::tick`](crate::run::Run::tick) does. A
    /// loop over cycles calls it by a `Run`. It takes the run's parts one by one, so that a run
    /// stays in registers.
    pub(crate) fn do_cycle<LOOP>(
        &mut self,
        stages: &mut Stages,
        ports: &mut Ports,
        loses_ports: bool,
    )
        requires cycle { self.old.at < most_cycles }
        requires eight { vec_len ports.old ≡ 8 }
        requires known { loses_ports ≡ list_any is_some self.old.unplugs }
        ensures cycle { DoesCycle stages.old self.old (rows_of latched word_at ports.old.items)
            stages.new (writeback_stage (held stages.old.m)) self.new
            (rows_of latched word_at ports.new.items) }
        ensures eight { vec_len ports.new ≡ 8 }
    {
        self.take_if_any(ports, loses_ports);
        stages.tick::<LOOP>(&mut self.units, ports, self.at);
        self.at += 1;
    }

    /// Does the last cycle of a run, as [`Run::last`](crate::run::Run::last) does. It isn't
    /// inlined: a run calls it once, and the loop over the other cycles has a copy of the stages.
    #[inline(never)]
    pub(crate) fn do_last_cycle(
        &mut self,
        stages: &mut Stages,
        ports: &mut Ports,
        loses_ports: bool,
    ) -> Held<Written>
        requires cycle { self.old.at < most_cycles }
        requires eight { vec_len ports.old ≡ 8 }
        requires known { loses_ports ≡ list_any is_some self.old.unplugs }
        ensures cycle { DoesCycle stages.old self.old (rows_of latched word_at ports.old.items)
            stages.new result self.new (rows_of latched word_at ports.new.items) }
        ensures fits { WrittenFits result }
        ensures eight { vec_len ports.new ≡ 8 }
    {
        let w = stages.written();
        self.do_cycle::<Last>(stages, ports, loses_ports);
        w
    }

    /// Puts the stage registers of `stages` into the machine, with this turn in `w`. It isn't
    /// inlined, so that a loop over lines doesn't touch the memory of its temporary values.
    #[cold]
    #[inline(never)]
    pub(crate) fn take_stages(&mut self, stages: &Stages, w: Held<Written>)
        requires { WrittenFits w }
        ensures stages { abstract_stages self.new.pipe ≡ registers_in stages.now w }
        ensures same { self.new ≡ record self.old { pipe = self.new.pipe } }
    {
        self.pipe = stages.pipe(w);
    }
}
