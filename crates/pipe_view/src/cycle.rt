//! The observation of one cycle.

ghost use Rattle.std.specs.Prelude.{◌≡◌, option_map};
ghost use Rattle.pipe_view.specs.Watching.{IsOutcome, is_flushed, picked_turn, turn_thread};

use arrayvec::ArrayString;
use pipeline_core::{Held, Stored};
use slot_table::Turn;

/// The column of the effect in a trace line.
const EFFECT_COLUMN: usize = 29;

/// The state of a thread's mode, timer and port at the start of a cycle.
#[derive(Clone, Copy, PartialEq, Eq)]
pub struct ThreadState {
    /// Whether its mode is asleep, or its sleep moment is in the future.
    pub asleep: bool,
    /// The armed moment, in nanoseconds, if there is one.
    pub armed: Option<u64>,
    /// Its port's latch, if it has a port.
    pub latch: Option<u32>,
    /// The word that an issue of the cycle reads at its port; all ones if there is no port.
    pub input: u32,
}

/// The observed state of the machine at the start of a cycle.
#[derive(Clone, Copy)]
pub struct CycleStart {
    /// The number of the cycle.
    pub cycle: u64,
    /// The time of the cycle, in nanoseconds.
    pub time: u64,
    /// The frame's slot of the cycle.
    pub slot: Turn,
    /// The modes register: bits 2i and 2i + 1 are thread i's.
    pub modes: u32,
    /// By thread, 0 to 7.
    pub threads: [ThreadState; 8],
}

/// A cycle, complete with the outcome of the turn that it picked.
#[derive(Drop)]
pub struct Cycle {
    /// The state at its start.
    pub start: CycleStart,
    /// The turns that were in F, D, E, M and W during it. Each is shown as it came out of M, so a
    /// turn that is flushed in F or D is shown as flushed in every stage.
    pub turns: [Held<Stored>; 5],
    /// The line of the turn in F in its thread's trace, if it has one.
    pub line: Option<ArrayString<96>>,
}

/// The thread of a turn, if one was picked.
pub fn thread_of(turn: &Held<Stored>) -> Option<u8>
    ensures { result ≡ turn_thread turn.now }
{
    match *turn {
        Held::Bubble => None,
        Held::Flushed { thread } | Held::Issue { thread, .. } => Some(thread),
    }
}

/// Whether a turn is one that was lost.
pub fn is_flushed(turn: &Held<Stored>) -> bool
    ensures { result ≡ is_flushed turn.now }
{
    matches!(turn, Held::Flushed { .. })
}

impl Cycle {
    /// The turn that the cycle picked.
    pub fn turn(&self) -> &Held<Stored>
        ensures { result.now ≡ picked_turn self.now }
    {
        &self.turns[0]
    }

    /// The outcome of the picked turn: the effect as in the trace; `held` if it waits at a DU and
    /// has no line; `flushed` if it is lost; empty if no thread was picked.
    pub fn outcome(&self) -> &str
        ensures { IsOutcome (picked_turn self.now)
            (option_map (λ text. text.bytes) self.now.line) result.now }
    {
        match self.turn() {
            Held::Bubble => "",
            Held::Flushed { .. } => "flushed",
            Held::Issue { .. } => match &self.line {
                None => "held",
                Some(line) => line.as_str().get(EFFECT_COLUMN..).unwrap_or("").trim_end(),
            },
        }
    }
}
