//! The tally of a thread's events, and its line.

ghost use Rattle.std.specs.Prelude.{◌≡◌, ◌<◌, ◌^◌};
ghost use Rattle.rv_exec.specs.Line.{IsPrintable};
ghost use Rattle.selfrun.specs.Counted.{counted};
ghost use Rattle.selfrun.specs.Text.{tally_line};

use crate::line_fold::LineFolder;
use arrayvec::ArrayString;
use rv_exec::Effect;
use trace_print::{push_decimal, push_hex};

/// The tally of a thread's events.
#[derive(Clone, Copy, Debug)]
pub struct Tally {
    /// The number of events.
    pub events: u32,
    /// The hash of their lines: for each byte, the hash so far times 31 plus the byte, modulo 2^32.
    pub fold: u32,
}

impl Tally {
    /// Counts an event. The count wraps, which no run of the machine's own comes to.
    #[inline(always)]
    pub(crate) fn add(
        &mut self,
        folder: &mut LineFolder,
        cycle: u64,
        thread: u8,
        pc: u32,
        word: u32,
        effect: &Effect,
    )
        requires cycle { cycle < 10 ^ 10 }
        requires thread { thread < 8 }
        requires printable { IsPrintable effect.now }
        ensures { self.new ≡ counted self.old (record {
          cycle = cycle;
          thread = thread;
          pc = pc;
          word = word;
          effect = effect.now;
        }) }
    {
        self.events = self.events.wrapping_add(1);
        self.fold = folder.line(self.fold, cycle, thread, pc, word, effect);
    }

    /// The line of thread k.
    #[tactic(auto, unfolding(crate::specs::Text::tally_line))]
    pub(crate) fn line(&self, k: u8) -> ArrayString<96>
        ensures { result.bytes ≡ tally_line k self.now }
    {
        let mut text = ArrayString::new();
        text.push_str("T");
        push_decimal(&mut text, k);
        text.push_str(" events ");
        push_decimal(&mut text, self.events);
        text.push_str(" fold ");
        push_hex(&mut text, u64::from(self.fold), 8);
        text.push_str("\n");
        text
    }
}
