//! The stages of the pipeline, in one cycle.

ghost use Rattle.std.specs.Prelude.{◌≡◌, All};
ghost use Rattle.std.proofs.Props.{props};
ghost use Rattle.timer_unit.specs.Time.{most_cycles};
ghost use Rattle.pipeline_core.specs.StageFacts.{IsPc, FetchedFits, DecodedFits};
ghost use Rattle.pipeline_core.specs.StageFacts.{ExecutedFits, StoredFits, WrittenFits};
ghost use Rattle.pipeline_core.specs.StageFacts.{RedirectFits, FetchedFits-prop};
ghost use Rattle.pipeline_core.specs.StageFacts.{DecodedFits-prop, ExecutedFits-prop};
ghost use Rattle.pipeline_core.specs.StageFacts.{StoredFits-prop};
ghost use Rattle.pipeline_core.specs.Turns.{held, is_bubble};
ghost use Rattle.core_model.specs.Delays.{cycles_to_m};

use crate::decode::decode_stage;
use crate::execute::execute_stage;
use crate::fetch::{fetch_stage, redirect_to};
use crate::memory_stage::memory_stage;
use crate::pipe::Pipe;
use crate::stage_register::StageRegister;
use crate::units::Units;
use crate::writeback::{write_back, written};
use fp_ports::{Port, Ports};
use pipe_model::{Decoded, Executed, Fetched, Flush, Held, Redirect, Stored, Written};
use slot_scheduler::Pick;

/// The content that [`Stages::of`] puts in `f` if its turn isn't an issue.
const NOT_FETCHED: Fetched = Fetched { pc: 0, word: 0 };

/// The content that [`Stages::of`] puts in `d` if its turn isn't an issue.
const NOT_DECODED: Decoded = Decoded {
    pc: 0,
    word: 0,
    expired: false,
    a: 0,
    b: 0,
};

/// The content that [`Stages::of`] puts in `e` if its turn isn't an issue.
const NOT_EXECUTED: Executed = Executed {
    pc: 0,
    word: 0,
    a: 0,
    b: 0,
    address: 0,
    effect: None,
};

/// The content that [`Stages::of`] puts in `m` if its turn isn't an issue.
const NOT_STORED: Stored = Stored {
    pc: 0,
    word: 0,
    effect: None,
};

/// The stage registers as the stages use them: a [`Pipe`] with two changes. One byte has the kind
/// of a turn and its thread. `w` is left out, since no stage reads it. A loop over cycles works on
/// them. The conditions on threads, pcs, effects and addresses are those of [`Pipe`].
#[derive(Drop)]
pub struct Stages {
    /// The pc that each thread fetches next.
    next: [u32; 8],
    /// The result of F.
    pub f: StageRegister<Fetched>,
    /// The result of D.
    pub d: StageRegister<Decoded>,
    /// The result of E.
    pub e: StageRegister<Executed>,
    /// The result of M.
    pub m: StageRegister<Stored>,
    ghost pcs: { All IsPc next } by { Prim.hlevel props },
    ghost fetched: { FetchedFits (held f) } by { FetchedFits-prop (held f) },
    ghost decoded: { DecodedFits (held d) } by { DecodedFits-prop (held d) },
    ghost executed: { ExecutedFits (held e) } by { ExecutedFits-prop (held e) },
    ghost stored: { StoredFits (held m) } by { StoredFits-prop (held m) },
}

impl Stages {
    ghost use Rattle.std.specs.Prelude.{◌<◌, ◌-◌, ◌&&◌, true, false};
    ghost use Rattle.std.specs.Prelude.{vec_len};
    ghost use Rattle.fp_ports.specs.PluggedPorts.{rows_of};
    ghost use Rattle.slot_scheduler.specs.Picking.{IsPick};
    ghost use Rattle.pipe_model.specs.declared.stage_registers.Held.{Held};
    ghost use Rattle.pipe_model.specs.declared.stage_registers.Written.{Written};
    ghost use Rattle.pipe_model.specs.Stages.{bank_after, memory_stage, ports_stored};
    ghost use Rattle.pipe_model.specs.Stages.{next_after_redirect};
    ghost use Rattle.pipe_model.specs.Stages.{step, words_stored, writeback_stage};
    ghost use Rattle.pipe_model.specs.PipelineLaws.{empty};
    ghost use Rattle.pipeline_core.specs.StageFacts.{uses_port};
    ghost use Rattle.pipeline_core.specs.Executing.{Executes, redirect_if};
    ghost use Rattle.pipeline_core.specs.YoungerStages.{DecodesAndFetches};
    ghost use Rattle.pipeline_core.specs.Retiring.{retired_in};
    ghost use Rattle.pipeline_core.specs.Abstraction.{registers_in};
    ghost use Rattle.pipeline_core.specs.Abstraction.{abstract_stages, abstract_state, ticked_with};

    /// The stage registers of a pipeline.
    pub fn of(pipe: &Pipe) -> Stages
        ensures { registers_in result pipe.now.w ≡ abstract_stages pipe.now }
    {
        Stages {
            next: pipe.next,
            f: StageRegister::of(&pipe.f, NOT_FETCHED),
            d: StageRegister::of(&pipe.d, NOT_DECODED),
            e: StageRegister::of(&pipe.e, NOT_EXECUTED),
            m: StageRegister::of(&pipe.m, NOT_STORED),
        }
    }

    /// The pipeline with these stage registers, whose `w` is given.
    pub fn pipe(&self, w: Held<Written>) -> Pipe
        requires { WrittenFits w }
        ensures { abstract_stages result ≡ registers_in self.now w }
    {
        Pipe {
            next: self.next,
            f: self.f.held(),
            d: self.d.held(),
            e: self.e.held(),
            m: self.m.held(),
            w,
        }
    }

    /// Whether they hold bubbles only.
    pub fn is_empty(&self) -> bool
        ensures bubbles { result ≡ (is_bubble (held self.now.f) && is_bubble (held self.now.d)
            && is_bubble (held self.now.e) && is_bubble (held self.now.m)) }
        ensures empty { (w : Held Written) → result ≡ true
            → registers_in self.now w ≡ record (empty self.now.next) { w = w } }
    {
        self.f.is_bubble() && self.d.is_bubble() && self.e.is_bubble() && self.m.is_bubble()
    }

    /// The `w` of the pipeline after the next cycle.
    pub fn written(&self) -> Held<Written>
        ensures stage { result ≡ writeback_stage (held self.now.m) }
        ensures fits { WrittenFits result }
    {
        written(&self.m)
    }

    /// Does one cycle of the core, stage by stage. With [`refinement`](pipe_model::refinement) it
    /// preserves the relation to the world. The turn in `m` before the cycle retires in it:
    /// [`StageRegister::retired`] is its issue, called before the cycle. `LOOP` has no effect on a
    /// result. It is a type for each loop over cycles, as
    /// [`execute_frequent`](hart_exec::execute_frequent) says.
    ///
    /// The older stages run first, so that the younger ones use their results. The pick uses slots,
    /// modes and sleep moments from before the cycle. The turn that enters M was issued three
    /// cycles ago, and reads the word of that cycle at its thread's port. The turn that enters E
    /// was issued two cycles ago, and the one that enters D one cycle ago. They use the times of
    /// those cycles.
    ///
    /// Inlined: a loop over cycles then contains the stages.
    #[inline(always)]
    pub fn tick<LOOP>(&mut self, units: &mut Units, ports: &mut Ports, cycle: u64)
        requires cycle { cycle < most_cycles }
        requires eight { vec_len ports.old ≡ 8 }
        ensures step { (w : Held Written) → ticked_with
            (registers_in self.new (writeback_stage (held self.old.m))) units.new
            (rows_of latched word_at ports.new.items) (retired_in cycle self.old.m) ≡
            step (registers_in self.old w) (abstract_state units.old
            (rows_of latched word_at ports.old.items)) cycle }
        ensures idle { uses_port units.old.guard.size (held self.old.e) ≡ false
            → ports.new ≡ ports.old }
        ensures eight { vec_len ports.new ≡ 8 }
    {
        self.older_stages(units, ports, cycle);
        let now = units.clock.now(cycle);
        let pick = units.scheduler.early_pick(&units.sched, cycle, now);
        let mut redirect = Redirect {
            thread: 0,
            pc: 0,
            flush: Flush::Decode,
        };
        let redirects = self.execute::<LOOP>(units, cycle, &mut redirect);
        self.younger_stages(units, redirects, redirect, pick, cycle);
    }

    /// W and M: the turn in `m` writes its register, and the turn in `e` accesses memory and its
    /// thread's port.
    #[inline(always)]
    fn older_stages(&mut self, units: &mut Units, ports: &mut Ports, cycle: u64)
        requires eight { vec_len ports.old ≡ 8 }
        ensures m { held self.new.m ≡ memory_stage units.old.guard.size units.old.imem
            units.old.dmem (rows_of latched word_at ports.old.items) (cycle - cycles_to_m)
            (held self.old.e) }
        ensures units { let rows = rows_of latched word_at ports.old.items in
            abstract_state units.new (rows_of latched word_at ports.new.items)
            ≡ record (abstract_state units.old rows) {
              bank = bank_after (held self.old.m) units.old.bank;
              d_words = words_stored units.old.guard.size (held self.new.m) units.old.dmem;
              ports = ports_stored (held self.new.m) rows;
            } }
        ensures idle { uses_port units.old.guard.size (held self.old.e) ≡ false
            → ports.new ≡ ports.old }
        ensures eight { vec_len ports.new ≡ 8 }
        ensures next { self.new.next ≡ self.old.next }
        ensures f { self.new.f ≡ self.old.f }
        ensures d { self.new.d ≡ self.old.d }
        ensures e { self.new.e ≡ self.old.e }
    {
        write_back(&mut units.bank, &self.m);
        memory_stage(
            &units.guard,
            &units.imem,
            &mut units.dmem,
            ports,
            cycle,
            &self.e,
            &mut self.m,
        );
    }

    /// E. Returns whether turns of a thread are flushed; if so, `redirect` has the thread and the
    /// pc at which it continues.
    #[inline(always)]
    fn execute<LOOP>(&mut self, units: &mut Units, cycle: u64, redirect: &mut Redirect) -> bool
        requires cycle { cycle < most_cycles }
        ensures executed { Executes units.old units.new cycle (held self.old.d) (held self.new.e)
            (redirect_if result redirect.new) }
        ensures next { self.new.next ≡ self.old.next }
        ensures f { self.new.f ≡ self.old.f }
        ensures d { self.new.d ≡ self.old.d }
        ensures m { self.new.m ≡ self.old.m }
    {
        execute_stage::<LOOP>(units, cycle, &self.d, &mut self.e, redirect)
    }

    /// D and F, from the result of E: if E flushes turns of a thread, that thread fetches next at
    /// the redirect's pc.
    #[inline(always)]
    fn younger_stages(
        &mut self,
        units: &Units,
        redirects: bool,
        redirect: Redirect,
        pick: Pick,
        cycle: u64,
    )
        requires cycle { cycle < most_cycles }
        requires pick { IsPick pick }
        requires fits { RedirectFits (redirect_if redirects redirect) }
        ensures { let flush = redirect_if redirects redirect in DecodesAndFetches units.now cycle
            pick flush (next_after_redirect flush self.old.next) self.old self.new }
    {
        if redirects {
            redirect_to(&mut self.next, redirect);
            self.decode_and_fetch(units, Some(redirect), pick, cycle);
        } else {
            self.decode_and_fetch(units, None, pick, cycle);
        }
    }

    /// D and F, from the results of the older stages. Inlined at both of its calls: in most cycles
    /// there is no redirect, and that copy doesn't test for one.
    #[inline(always)]
    fn decode_and_fetch(
        &mut self,
        units: &Units,
        redirect: Option<Redirect>,
        pick: Pick,
        cycle: u64,
    )
        requires cycle { cycle < most_cycles }
        requires pick { IsPick pick }
        ensures { DecodesAndFetches units.now cycle pick redirect self.old.next self.old self.new }
    {
        decode_stage(
            units,
            &self.m,
            &self.e,
            redirect,
            cycle,
            &self.f,
            &mut self.d,
        );
        fetch_stage(
            &units.guard,
            &units.imem,
            redirect,
            &mut self.next,
            pick,
            &mut self.f,
        );
    }
}
