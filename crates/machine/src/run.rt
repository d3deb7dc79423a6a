//! A run: cycles of a machine, one after another.

ghost use Rattle.std.specs.Prelude.{◌≡◌, ℕ, ◌+◌, ◌-◌, ◌<◌, ◌≤◌, true, List, Option, None, []};
ghost use Rattle.std.specs.Prelude.{OnOk, OnErr, IfSome, vec_len, if◌then◌else◌};
ghost use Rattle.fp_io.specs.Causes.{HasRisen};
ghost use Rattle.timer_unit.specs.Time.{most_cycles};
ghost use Rattle.fp_ports.specs.PluggedPorts.{rows_of};
ghost use Rattle.core_model.specs.Delays.{cycles_to_m, cycles_to_w};
ghost use Rattle.core_model.specs.World.{Start};
ghost use Rattle.pipe_model.specs.Stages.{retired_event, writeback_stage};
ghost use Rattle.pipeline_core.specs.Abstraction.{abstract_stages, registers_in};
ghost use Rattle.pipeline_core.specs.Retiring.{retired_in};
ghost use Rattle.pipeline_core.specs.Turns.{held, is_issue};
ghost use Rattle.pipeline_core.specs.StageFacts.{WrittenFits};
ghost use Rattle.rv_exec.specs.Line.{IsPrintableEvent};
ghost use Rattle.machine.specs.Observing.{HasSeen, SawInPart, next_with, puts_with};
ghost use Rattle.machine.specs.OneCycle.{DoesCycle, Skips};
ghost use Rattle.machine.specs.Running.{Advanced, IsSameRun, KnowsPorts, Runs, RunsOn, turn_of};
ghost use Rattle.machine.specs.WorldRelation.{AreLeft, Refines, Ticks};

use crate::leaving::Leaving;
use crate::observer::Observer;
use crate::state::Machine;
use fp_io::{PutFailed, Sink};
use fp_ports::Ports;
use pipe_model::{Held, Written};
use pipeline_core::Stages;
use rv_exec::Event;

/// A machine that runs, with its stage registers as the stages use them. The machine's own `pipe`
/// is that of an earlier cycle meanwhile. A run isn't `Drop`: only `finish` ends it, which gives
/// the machine its `pipe` back.
pub(crate) struct Run<'a> {
    machine: &'a mut Machine,
    stages: &'a mut Stages,
    /// The result of [`loses_ports`](Machine::loses_ports), which is the same in all cycles.
    loses_ports: bool,
}

impl Run<'_> {
    /// Does one cycle. `LOOP` is a type for each loop over cycles, as
    /// [`execute_frequent`](hart_exec::execute_frequent) says.
    #[inline(always)]
    fn tick<LOOP>(&mut self, ports: &mut Ports)
        requires cycle { self.old.machine.now.at < most_cycles }
        requires eight { vec_len ports.old ≡ 8 }
        requires known { KnowsPorts self.old }
        ensures cycle { DoesCycle self.old.stages.now self.old.machine.now
            (rows_of latched word_at ports.old.items) self.new.stages.now
            (writeback_stage (held self.old.stages.now.m)) self.new.machine.now
            (rows_of latched word_at ports.new.items) }
        ensures same { IsSameRun self.old self.new }
        ensures eight { vec_len ports.new ≡ 8 }
    {
        let machine = &mut *self.machine;
        let stages = &mut *self.stages;
        machine.do_cycle::<LOOP>(stages, ports, self.loses_ports);
    }

    /// Skips cycles before `end` in which every thread sleeps and the pipeline is empty, in one
    /// step. Run and machine are then as after these cycles, which change only `at` and `w`, no
    /// port, and retire no event. The turn in `w` is a bubble after a skipped cycle. In a cycle in
    /// which a thread has a turn it makes one test.
    #[inline(always)]
    fn skip_sleep(&mut self, end: u64)
        requires { self.old.machine.now.at ≤ end }
        ensures same { IsSameRun self.old self.new }
        ensures skips { Skips self.old.stages.now self.old.machine.now end self.new.stages.now
            self.new.machine.now }
    {
        let stages = &*self.stages;
        if stages.f.is_bubble() {
            let machine = &mut *self.machine;
            machine.skip_empty(stages, end);
        }
    }

    /// Has the observer take the turn that retires in the next cycle. Returns whether it has bytes
    /// to put for it.
    #[inline(always)]
    fn observe<O: Observer>(&self, observer: &mut O) -> bool
        requires { self.now.machine.now.at < most_cycles }
        ensures state { observer.new ≡ next_with O.acts observer.old
            (retired_in self.now.machine.now.at self.now.stages.now.m) }
        ensures bytes { puts_with O.acts observer.old
            (retired_in self.now.machine.now.at self.now.stages.now.m)
            ≡ (if result then O.acts.ready observer.new else []) }
        ensures issue { result ≡ true → is_issue (held self.now.stages.now.m) ≡ true }
    {
        let stages = &*self.stages;
        let at = self.machine.at;
        observer.retire(&stages.m, at)
    }

    /// The issue in `m`.
    #[inline(always)]
    fn leaving(&self) -> Leaving
        requires { is_issue (held self.now.stages.now.m) ≡ true }
        ensures stage { writeback_stage (held self.now.stages.now.m) ≡ turn_of result }
        ensures thread { result.thread < 8 }
    {
        let stages = &*self.stages;
        let m = &stages.m;
        Leaving {
            thread: m.turn,
            pc: m.what.pc,
            word: m.what.word,
        }
    }

    /// Does the cycles before `end`, up to the first for which the observer has bytes to put. Then
    /// these are ready, and the result is the turn in `w` after that cycle. None means that all
    /// cycles were done, and that there are no such bytes.
    ///
    /// The observer takes the turn before its cycle, and the caller has it put its bytes after the
    /// cycle, so the device calls of a cycle come before the put.
    ///
    /// `stop` ends the loop after the cycle of a put, so that no other cycle tests whether it had
    /// one. The loop is inlined into the loop over puts, so one function has both, with all
    /// stages.
    #[inline(always)]
    fn advance_to_put<O: Observer>(
        &mut self,
        end: u64,
        ports: &mut Ports,
        observer: &mut O,
    ) -> Option<Leaving>
        requires low { self.old.machine.now.at < end }
        requires limit { end ≤ most_cycles }
        requires eight { vec_len ports.old ≡ 8 }
        requires known { KnowsPorts self.old }
        ensures advanced { (s : Start) (c n : ℕ) (first : O) (prior taken : Option (List ℕ))
            → end ≤ n + cycles_to_m
            → Runs O.acts s c n first self.old.stages.now self.old.machine.now
            (rows_of latched word_at ports.old.items) observer.old prior taken
            → Advanced O.acts s c n first self.new.stages.now self.new.machine.now
            (rows_of latched word_at ports.new.items) observer.new prior taken result }
        ensures fits { IfSome result (λ x. x.thread < 8) }
        ensures same { IsSameRun self.old self.new }
        ensures on { self.old.machine.now.at < self.new.machine.now.at }
        ensures end { self.new.machine.now.at ≤ end }
        ensures all { result ≡ None → self.new.machine.now.at ≡ end }
        ensures words { AreLeft (rows_of latched word_at ports.old.items)
            (rows_of latched word_at ports.new.items) }
        ensures eight { vec_len ports.new ≡ 8 }
    {
        let mut paused = None;
        let mut stop = end;
        while self.machine.at < stop {
            let puts = self.observe(observer);
            if puts {
                paused = Some(self.leaving());
                stop = self.machine.at + 1;
            }
            self.tick::<O>(ports);
            self.skip_sleep(stop);
        }
        paused
    }

    /// Does the cycles before `end` up to the next put, and has it done; does all of them if they
    /// have no put. An error is the turn in `w` after the cycle of a put that failed.
    #[inline(always)]
    fn run_to_put<O: Observer, K: Sink>(
        &mut self,
        end: u64,
        ports: &mut Ports,
        observer: &mut O,
        out: &mut K,
    ) -> Result<(), Held<Written>>
        requires low { self.old.machine.now.at < end }
        requires limit { end ≤ most_cycles }
        requires eight { vec_len ports.old ≡ 8 }
        requires known { KnowsPorts self.old }
        ensures runs { RunsOn O.acts end result self.old self.new
            (rows_of latched word_at ports.old.items) (rows_of latched word_at ports.new.items)
            observer.old observer.new (K.taken out.old) (K.taken out.new) }
        ensures failed { OnErr result (HasRisen (K.faults out.old) (K.faults out.new)) }
        ensures counted { K.faults out.old ≤ K.faults out.new }
        ensures on { self.old.machine.now.at < self.new.machine.now.at }
        ensures eight { vec_len ports.new ≡ 8 }
    {
        let Some(leaving) = self.advance_to_put(end, ports, observer) else {
            return Ok(());
        };
        if let Err(_failed) = observer.write(out) {
            return Err(leaving.held());
        }
        self.skip_sleep(end);
        Ok(())
    }

    /// Does the cycles before `end`. An error is the turn in `w` after the cycle of a put that
    /// failed.
    fn run_to<O: Observer, K: Sink>(
        &mut self,
        end: u64,
        ports: &mut Ports,
        observer: &mut O,
        out: &mut K,
    ) -> Result<(), Held<Written>>
        requires begun { self.old.machine.now.at ≤ end }
        requires limit { end ≤ most_cycles }
        requires eight { vec_len ports.old ≡ 8 }
        requires known { KnowsPorts self.old }
        ensures runs { RunsOn O.acts end result self.old self.new
            (rows_of latched word_at ports.old.items) (rows_of latched word_at ports.new.items)
            observer.old observer.new (K.taken out.old) (K.taken out.new) }
        ensures failed { OnErr result (HasRisen (K.faults out.old) (K.faults out.new)) }
        ensures counted { K.faults out.old ≤ K.faults out.new }
        ensures cycles { OnOk result (self.new.machine.now.at ≡ end) }
        ensures eight { vec_len ports.new ≡ 8 }
    {
        while self.machine.at < end {
            if let Err(w) = self.run_to_put(end, ports, observer, out) {
                return Err(w);
            }
        }
        Ok(())
    }

    /// Does the last cycle, and returns the turn in `w` after it.
    #[inline(always)]
    fn last(&mut self, ports: &mut Ports) -> Held<Written>
        requires cycle { self.old.machine.now.at < most_cycles }
        requires eight { vec_len ports.old ≡ 8 }
        requires known { KnowsPorts self.old }
        ensures cycle { DoesCycle self.old.stages.now self.old.machine.now
            (rows_of latched word_at ports.old.items) self.new.stages.now result
            self.new.machine.now (rows_of latched word_at ports.new.items) }
        ensures fits { WrittenFits result }
        ensures same { IsSameRun self.old self.new }
        ensures eight { vec_len ports.new ≡ 8 }
    {
        let machine = &mut *self.machine;
        let stages = &mut *self.stages;
        machine.do_last_cycle(stages, ports, self.loses_ports)
    }

    /// Ends the run, with this turn in `w`: the machine has its `pipe` again.
    fn finish(self, w: Held<Written>)
        requires { WrittenFits w }
        ensures stages { abstract_stages self.exit.0.now.pipe
            ≡ registers_in self.entry.stages.now w }
        ensures same { self.exit.0.now
            ≡ record self.entry.machine.now { pipe = self.exit.0.now.pipe } }
    {
        let Run {
            machine,
            stages,
            loses_ports: _,
        } = self;
        machine.take_stages(stages, w);
    }
}

impl Machine {
    /// Does one cycle, a run of its own. Returns the event of the issue of four cycles ago, or None
    /// if there is no such issue or event. A thread that is unplugged in cycle u loses its port at
    /// the start of cycle u + 3. In that cycle its issue of cycle u reaches the port.
    ///
    /// The machine refines a world whose lists of shown words have n entries, for the cycles below
    /// n + [`CYCLES_TO_M`](core_model::CYCLES_TO_M). In that cycle the issue of cycle n reads its
    /// port's word, and a list of n entries doesn't cover that word. A longer run refines a world
    /// with longer lists.
    ///
    /// A loop over many cycles is faster by [`run_with`](Machine::run_with).
    #[inline(never)]
    pub fn tick(&mut self, ports: &mut Ports) -> Option<Event>
        requires cycle { self.old.at < most_cycles }
        requires eight { vec_len ports.old ≡ 8 }
        ensures relation { (s : Start) (n : ℕ) → self.old.at < n + cycles_to_m
            → Refines s self.old.at n self.old (rows_of latched word_at ports.old.items)
            → Ticks s self.old.at n (rows_of latched word_at ports.old.items) self.new
            (rows_of latched word_at ports.new.items) result }
        ensures at { self.new.at ≡ self.old.at + 1 }
        ensures words { AreLeft (rows_of latched word_at ports.old.items)
            (rows_of latched word_at ports.new.items) }
        ensures eight { vec_len ports.new ≡ 8 }
        ensures retires { result ≡ retired_event (self.old.at - cycles_to_w) self.old.pipe.m }
        ensures printable { IsPrintableEvent result }
    {
        let loses_ports = self.loses_ports();
        let mut stages = Stages::of(&self.pipe);
        let event = stages.m.event(self.at);
        let mut run = Run {
            machine: self,
            stages: &mut stages,
            loses_ports,
        };
        let w = run.last(ports);
        run.finish(w);
        event
    }

    /// Does the cycles before `end`. The observer sees each turn that retires, and puts its bytes
    /// after the cycle. It skips cycles in which every thread sleeps and the pipeline is empty, in
    /// one step.
    ///
    /// # Errors
    ///
    /// The sink counted a fault in this call. The run ended in the cycle of the fault: the bytes of
    /// the earlier cycles were put, and a prefix of those of that cycle. Machine and ports are in
    /// the state after the cycles done, including that one.
    pub fn run_with<O: Observer, K: Sink>(
        &mut self,
        end: u64,
        ports: &mut Ports,
        observer: &mut O,
        out: &mut K,
    ) -> Result<(), PutFailed>
        requires begun { self.old.at ≤ end }
        requires limit { end ≤ most_cycles }
        requires eight { vec_len ports.old ≡ 8 }
        ensures ok { OnOk result ((s : Start) (n : ℕ) → end ≤ n + cycles_to_m
            → Refines s self.old.at n self.old (rows_of latched word_at ports.old.items)
            → Refines s end n self.new (rows_of latched word_at ports.new.items)
            × HasSeen O.acts s self.old.at end observer.old observer.new (K.taken out.old)
            (K.taken out.new)) }
        ensures err { OnErr result ((s : Start) (n : ℕ) → end ≤ n + cycles_to_m
            → Refines s self.old.at n self.old (rows_of latched word_at ports.old.items)
            → Refines s self.new.at n self.new (rows_of latched word_at ports.new.items)
            × SawInPart O.acts s self.old.at self.new.at observer.old (K.taken out.old)
            (K.taken out.new)) }
        ensures failed { OnErr result (HasRisen (K.faults out.old) (K.faults out.new)) }
        ensures counted { K.faults out.old ≤ K.faults out.new }
        ensures cycles { OnOk result (self.new.at ≡ end) }
        ensures end { self.new.at ≤ end }
        ensures words { AreLeft (rows_of latched word_at ports.old.items)
            (rows_of latched word_at ports.new.items) }
        ensures eight { vec_len ports.new ≡ 8 }
    {
        if self.at == end {
            return Ok(());
        }
        let loses_ports = self.loses_ports();
        let mut stages = Stages::of(&self.pipe);
        let mut run = Run {
            machine: self,
            stages: &mut stages,
            loses_ports,
        };
        if let Err(w) = run.run_to(end - 1, ports, observer, out) {
            run.finish(w);
            return Err(PutFailed);
        }
        let puts = run.observe(observer);
        let w = run.last(ports);
        run.finish(w);
        if puts {
            return observer.write(out);
        }
        Ok(())
    }
}
