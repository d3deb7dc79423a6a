//! The lines of a thread.

ghost use Rattle.std.specs.Prelude.{◌≡◌, ◌<◌, is_some};
ghost use Rattle.timer_unit.specs.Time.{most_cycles};
ghost use Rattle.pipeline_core.specs.Retiring.{retired_in};
ghost use Rattle.pipeline_core.specs.Turns.{held};
ghost use Rattle.pipeline_core.specs.StageFacts.{StoredFits};
ghost use Rattle.machine.specs.ThreadLines.{line_with};

use crate::observer::Observer;
use fp_io::{PutFailed, Sink};
use pipeline_core::{StageRegister, Stored};
use trace_print::EventLine;

/// Puts the line of each event of a thread.
#[derive(Drop)]
pub(crate) struct ThreadLines {
    /// The thread.
    thread: u8,
    /// The line of its last event. The buffer is used for each line.
    line: EventLine,
}

impl ThreadLines {
    /// The lines of a thread.
    pub(crate) fn new(thread: u8) -> ThreadLines
        ensures { result.thread ≡ thread }
    {
        ThreadLines {
            thread,
            line: EventLine::new(),
        }
    }
}

/// Makes the line of the issue that retires, if it has one. Returns whether it has. It isn't
/// inlined: the loop over cycles then has only the test of the thread before it.
#[inline(never)]
fn set_line(line: &mut EventLine, turn: &StageRegister<Stored>, cycle: u64) -> bool
    requires cycle { cycle < most_cycles }
    requires fits { StoredFits (held turn.now) }
    ensures event { result ≡ is_some (retired_in cycle turn.now) }
    ensures line { line.new ≡ line_with line.old (retired_in cycle turn.now) }
{
    match turn.retired(cycle) {
        Some(it) => {
            line.set(it.cycle, it.pc, it.word, it.effect);
            true
        }
        None => false,
    }
}

impl Observer for ThreadLines {
    ghost use Rattle.machine.specs.ThreadLines.{line_acts};

    ghost acts = { line_acts };

    #[inline(always)]
    fn retire(&mut self, turn: &StageRegister<Stored>, cycle: u64) -> bool {
        turn.turn == self.thread && set_line(&mut self.line, turn, cycle)
    }

    #[inline(always)]
    fn write<K: Sink>(&self, out: &mut K) -> Result<(), PutFailed> {
        out.put(self.line.as_bytes())
    }
}
