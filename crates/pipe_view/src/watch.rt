//! A machine that is watched cycle by cycle.

ghost use Rattle.std.specs.Prelude.{◌≡◌, ◌+◌, ◌<◌, [], ◌∷◌, None, Some, MatchOption};
ghost use Rattle.std.specs.Prelude.{option_map, slice_index_or, vec_len};
ghost use Rattle.fp_ports.specs.PluggedPorts.{row_at, rows_of};
ghost use Rattle.machine.specs.FieldRelation.{port_read};
ghost use Rattle.machine.specs.WorldRelation.{AreLeft};
ghost use Rattle.pipe_model.specs.declared.stage_registers.Held.TheVariants.{Bubble};
ghost use Rattle.pipe_model.specs.Stages.{retired_event};
ghost use Rattle.pipe_view.specs.Watching.{HasLine, IsTick, is_asleep, seen_after};
ghost use Rattle.pipe_view.specs.Watching.{start_of, thread_state, whole_next};
ghost use Rattle.trace_print.specs.Text.{line_text};
ghost use Rattle.timer_unit.specs.Time.{most_cycles};

use crate::cycle::{Cycle, CycleStart, ThreadState};
use arrayvec::ArrayString;
use fp_ports::{ABSENT_WORD, Ports, latch_of, read_port};
use machine::Machine;
use pipeline_core::{Held, Retired, Stored};
use trace_print::line;

/// The last cycles, kept until they are complete.
#[derive(Drop)]
pub struct Watch {
    /// The starts of the last three cycles, the newest first.
    pub starts: [Option<CycleStart>; 3],
    /// The last turns that came out of M, the newest first.
    pub turns: [Held<Stored>; 4],
}

impl Watch {
    /// A watch that has seen no cycle.
    pub fn new() -> Watch
        ensures starts { result.starts ≡ None ∷ None ∷ None ∷ [] }
        ensures turns { result.turns ≡ Bubble ∷ Bubble ∷ Bubble ∷ Bubble ∷ [] }
    {
        Watch {
            starts: [None; 3],
            turns: [Held::Bubble; 4],
        }
    }

    /// Does one cycle of the machine. Returns the cycle of three cycles ago, whose turn has now
    /// passed M, or None if it wasn't seen. Its turns are complete once seven cycles were seen, or
    /// all since cycle 0.
    pub fn tick(&mut self, machine: &mut Machine, ports: &mut Ports) -> Option<Cycle>
        requires cycle { machine.old.at < most_cycles }
        requires eight { vec_len ports.old ≡ 8 }
        ensures shown { MatchOption result (whole_next self.old ≡ None) (λ cycle.
            (whole_next self.old ≡ Some cycle.start)
            × (cycle.turns ≡ machine.new.pipe.m ∷ self.old.turns) × HasLine cycle) }
        ensures kept { self.new ≡ seen_after self.old (start_of machine.old
            (rows_of latched word_at ports.old.items)) machine.new.pipe.m }
        ensures relation { IsTick machine.old (rows_of latched word_at ports.old.items)
            machine.new (rows_of latched word_at ports.new.items) }
        ensures words { AreLeft (rows_of latched word_at ports.old.items)
            (rows_of latched word_at ports.new.items) }
        ensures at { machine.new.at ≡ machine.old.at + 1 }
        ensures eight { vec_len ports.new ≡ 8 }
    {
        let start = self.keep_start(start_of(machine, ports));
        let _event = machine.tick(ports);
        let turns = self.keep_turn(machine.pipe.m);
        whole_cycle(machine, start, turns)
    }

    /// Keeps the start of a cycle, and returns the start of three cycles before, if it was seen.
    fn keep_start(&mut self, start: CycleStart) -> Option<CycleStart>
        ensures third { result ≡ whole_next self.old }
        ensures starts { self.new.starts ≡ Some start ∷ slice_index_or self.old.starts 0 None
            ∷ slice_index_or self.old.starts 1 None ∷ [] }
        ensures turns { self.new.turns ≡ self.old.turns }
    {
        let [newest, second, third] = self.starts;
        self.starts = [Some(start), newest, second];
        third
    }

    /// Keeps a turn that came out of M, and returns it with the four before it, the newest first.
    fn keep_turn(&mut self, turn: Held<Stored>) -> [Held<Stored>; 5]
        ensures turns { result ≡ turn ∷ self.old.turns }
        ensures newest { self.new.turns ≡ turn ∷ slice_index_or self.old.turns 0 Bubble
            ∷ slice_index_or self.old.turns 1 Bubble ∷ slice_index_or self.old.turns 2 Bubble ∷ [] }
        ensures starts { self.new.starts ≡ self.old.starts }
    {
        let [d, e, m, w] = self.turns;
        self.turns = [turn, d, e, m];
        [turn, d, e, m, w]
    }
}

/// The cycle with this start, if it was seen, and these turns. M holds the first of them now.
fn whole_cycle(
    machine: &Machine,
    start: Option<CycleStart>,
    turns: [Held<Stored>; 5],
) -> Option<Cycle>
    ensures { MatchOption result (start ≡ None) (λ cycle. (start ≡ Some cycle.start)
        × (cycle.turns ≡ turns) × (option_map (λ text. text.bytes) cycle.line
        ≡ option_map line_text (retired_event cycle.start.cycle machine.now.pipe.m))) }
{
    let start = start?;
    Some(Cycle {
        start,
        turns,
        line: line_in_m(machine, start.cycle),
    })
}

/// The line of the turn in M, which was issued in this cycle, if it has one.
#[tactic(auto, unfolding(pipe_model::specs::Stages::retired_event))]
fn line_in_m(machine: &Machine, cycle: u64) -> Option<ArrayString<96>>
    ensures { option_map (λ text. text.bytes) result
        ≡ option_map line_text (retired_event cycle machine.now.pipe.m) }
{
    let Held::Issue { thread, what } = &machine.pipe.m else {
        return None;
    };
    match Retired::of(cycle, *thread, what) {
        Some(issue) => Some(line(&issue.event())),
        None => None,
    }
}

/// Whether a thread's mode is asleep at the start of the next cycle, or its sleep moment is in the
/// future.
fn is_asleep(machine: &Machine, thread: u8) -> bool
    requires cycle { machine.now.at < most_cycles }
    requires thread { thread < 8 }
    ensures { result ≡ is_asleep machine.now thread }
{
    let units = &machine.units;
    units.sched.modes.mode(thread) % 2 == 1
        || units.clock.now(machine.at) < units.sched.sleep[usize::from(thread)]
}

/// The state of a thread's mode, timer and port at the start of the next cycle.
fn thread_state(machine: &Machine, ports: &mut Ports, thread: u8) -> ThreadState
    requires cycle { machine.now.at < most_cycles }
    requires eight { vec_len ports.old ≡ 8 }
    requires thread { thread < 8 }
    ensures seen { result
        ≡ thread_state machine.now (rows_of latched word_at ports.old.items) thread }
    ensures rows { rows_of latched word_at ports.new.items
        ≡ rows_of latched word_at ports.old.items }
    ensures eight { vec_len ports.new ≡ 8 }
{
    ThreadState {
        asleep: is_asleep(machine, thread),
        armed: machine.units.timers.armed(thread),
        latch: latch_of(ports, thread),
        input: input_of(machine, ports, thread),
    }
}

/// The word that an issue of the next cycle reads at a thread's port. It is all ones from the cycle
/// in which the port is unplugged. The machine removes the port three cycles later, when earlier
/// issues have passed it.
fn input_of(machine: &Machine, ports: &mut Ports, thread: u8) -> u32
    requires cycle { machine.now.at < most_cycles }
    requires eight { vec_len ports.old ≡ 8 }
    requires thread { thread < 8 }
    ensures word { result ≡ port_read (slice_index_or machine.now.unplugs thread None)
        (row_at (rows_of latched word_at ports.old.items) thread) machine.now.at }
    ensures rows { rows_of latched word_at ports.new.items
        ≡ rows_of latched word_at ports.old.items }
    ensures eight { vec_len ports.new ≡ 8 }
{
    let gone_from = machine.unplugs[usize::from(thread)];
    match gone_from {
        Some(cycle) if cycle <= machine.at => ABSENT_WORD,
        _ => read_port(ports, thread, machine.at),
    }
}

/// The observed state of a machine at the start of its next cycle.
fn start_of(machine: &Machine, ports: &mut Ports) -> CycleStart
    requires cycle { machine.now.at < most_cycles }
    requires eight { vec_len ports.old ≡ 8 }
    ensures seen { result ≡ start_of machine.now (rows_of latched word_at ports.old.items) }
    ensures rows { rows_of latched word_at ports.new.items
        ≡ rows_of latched word_at ports.old.items }
    ensures eight { vec_len ports.new ≡ 8 }
{
    CycleStart {
        cycle: machine.at,
        time: machine.units.clock.now(machine.at),
        slot: machine.units.sched.slots.turn(machine.at),
        modes: machine.units.sched.modes.word(),
        threads: [
            thread_state(machine, ports, 0),
            thread_state(machine, ports, 1),
            thread_state(machine, ports, 2),
            thread_state(machine, ports, 3),
            thread_state(machine, ports, 4),
            thread_state(machine, ports, 5),
            thread_state(machine, ports, 6),
            thread_state(machine, ports, 7),
        ],
    }
}
