//! The stage registers.

ghost use Rattle.std.specs.Prelude.{◌≡◌, All};
ghost use Rattle.std.proofs.Props.{props};
ghost use Rattle.timer_unit.specs.Time.{most_cycles};
ghost use Rattle.pipeline_core.specs.StageFacts.{IsPc, FetchedFits, DecodedFits};
ghost use Rattle.pipeline_core.specs.StageFacts.{ExecutedFits, StoredFits, WrittenFits};
ghost use Rattle.pipeline_core.specs.StageFacts.{FetchedFits-prop};
ghost use Rattle.pipeline_core.specs.StageFacts.{DecodedFits-prop, ExecutedFits-prop};
ghost use Rattle.pipeline_core.specs.StageFacts.{StoredFits-prop, WrittenFits-prop};
ghost use Rattle.core_model.specs.Delays.{cycles_to_w};

use crate::stages::Stages;
use crate::units::Units;
use fp_ports::{Port, Ports};
use pipe_model::{Decoded, Executed, Fetched, Held, Stored, Written, refinement, start_refines};
use rv_exec::Event;

/// The loop of [`Pipe::tick`].
struct OneCycle;

/// The stage registers, with the turns of the last five cycles. Before cycle c, `f` holds the turn
/// of c − 1, `d` that of c − 2, and so on to `w` with that of c − 5.
///
/// Threads are 0 to 7, and pcs are multiples of four. Effects can be shown in a line of a trace.
/// The addresses of loads and stores are aligned for their sizes.
#[derive(Clone, Copy, Debug)]
pub struct Pipe {
    /// The pc that each thread fetches next.
    pub next: [u32; 8],
    /// The result of F.
    pub f: Held<Fetched>,
    /// The result of D.
    pub d: Held<Decoded>,
    /// The result of E.
    pub e: Held<Executed>,
    /// The result of M.
    pub m: Held<Stored>,
    /// The result of W.
    pub w: Held<Written>,
    ghost pcs: { All IsPc next } by { Prim.hlevel props },
    ghost fetched: { FetchedFits f } by { FetchedFits-prop f },
    ghost decoded: { DecodedFits d } by { DecodedFits-prop d },
    ghost executed: { ExecutedFits e } by { ExecutedFits-prop e },
    ghost stored: { StoredFits m } by { StoredFits-prop m },
    ghost written: { WrittenFits w } by { WrittenFits-prop w },
}

impl Pipe {
    ghost use Rattle.std.specs.Prelude.{◌<◌, ◌-◌, false, List};
    ghost use Rattle.std.specs.Prelude.{Option, map, vec_len};
    ghost use Rattle.fp_ports.specs.PluggedPorts.{Row, rows_of};
    ghost use Rattle.core_model.specs.World.{Start, start_world};
    ghost use Rattle.pipe_model.specs.Stages.{retired_event};
    ghost use Rattle.pipe_model.specs.Stages.{step};
    ghost use Rattle.pipe_model.specs.Relation.{Begins, PortsRefine, PipelineRefines};
    ghost use Rattle.pipe_model.specs.Relation.{RefinesNext, HasLatches};
    ghost use Rattle.pipe_model.specs.PipelineLaws.{empty, first_units};
    ghost use Rattle.pipeline_core.specs.StageFacts.{uses_port};
    ghost use Rattle.rv_exec.specs.Line.{IsPrintableEvent};
    ghost use Rattle.pipeline_core.specs.Abstraction.{abstract_stages};
    ghost use Rattle.pipeline_core.specs.Abstraction.{abstract_state, abstract_ticked};

    /// An empty pipeline whose threads start at these entries. With units and ports that hold a
    /// world's start, it refines cycle 0 of that world, if the world's threads start there.
    pub fn new(entries: [u32; 8]) -> Pipe
        requires { All IsPc entries }
        ensures stage_registers { abstract_stages result ≡ empty entries }
        ensures refines { (s : Start) (ports : List (Option Row)) → Begins s →
            HasLatches (start_world s) ports →
            map (λ t. t.pc) s.threads ≡ entries →
            PipelineRefines s 0 (abstract_stages result) (first_units s ports) }
    {
        start_refines();
        Pipe {
            next: entries,
            f: Held::Bubble,
            d: Held::Bubble,
            e: Held::Bubble,
            m: Held::Bubble,
            w: Held::Bubble,
        }
    }

    /// Does one cycle of the core. If pipeline, units and ports refine the cycle of a world, they
    /// refine its next cycle afterwards. Returns the event of the issue of four cycles ago, or None
    /// if there is no such issue or event.
    ///
    /// It contains all stages, and isn't inlined. A loop over many cycles works on [`Stages`], and
    /// may have [`Stages::tick`] in line.
    #[inline(never)]
    pub fn tick(&mut self, units: &mut Units, ports: &mut Ports, cycle: u64) -> Option<Event>
        requires cycle { cycle < most_cycles }
        requires eight { vec_len ports.old ≡ 8 }
        ensures relation { let before = rows_of latched word_at ports.old.items in let after =
            rows_of latched word_at ports.new.items in
            (s : Start) → Begins s → PortsRefine s cycle before →
            PipelineRefines s cycle (abstract_stages self.old)
            (abstract_state units.old before) →
            RefinesNext s cycle before (abstract_ticked self.new units.new after result) }
        ensures step { abstract_ticked self.new units.new
            (rows_of latched word_at ports.new.items)
            result ≡ step (abstract_stages self.old)
            (abstract_state units.old (rows_of latched word_at ports.old.items)) cycle }
        ensures idle { uses_port units.old.guard.size self.old.e ≡ false → ports.new ≡ ports.old }
        ensures eight { vec_len ports.new ≡ 8 }
        ensures retires { result ≡ retired_event (cycle - cycles_to_w) self.old.m }
        ensures printable { IsPrintableEvent result }
    {
        refinement();
        let mut stages = Stages::of(self);
        let w = stages.written();
        let event = stages.m.event(cycle);
        stages.tick::<OneCycle>(units, ports, cycle);
        *self = stages.pipe(w);
        event
    }
}
