//! The hash of a line, computed from the parts of the line without making its text.

ghost use Rattle.std.specs.Prelude.{◌≡◌, ℕ, ◌<◌};
ghost use Rattle.rv_exec.specs.Line.{IsPrintable};
ghost use Rattle.trace_print.specs.Text.{line_text};
ghost use Rattle.selfrun.specs.Folds.{AreNames};
ghost use Rattle.selfrun.specs.Text.{fold_of};

use crate::cycles::Cycles;
use crate::hex_pairs::HexPairs;
use crate::piece::{Piece, folded, with_byte};
use crate::sites::Sites;
use rv_exec::{Effect, Event};
use std::marker::Model;
use trace_print::line;

/// The names of the registers, each with the `=` after it.
fn register_names() -> [Piece; 32]
    ensures { AreNames result }
{
    let mut names = [Piece::EMPTY; 32];
    for rd in 0..32u8 {
        let letter = Piece::EMPTY.then(b'x');
        let name = letter.then(b'0' + rd / 10).then(b'0' + rd % 10);
        names[usize::from(rd)] = name.then(b'=');
    }
    names
}

/// A hash with the line of an event with a rare effect appended.
#[cold]
#[inline(never)]
fn rare_line(h: u32, cycle: u64, thread: u8, pc: u32, word: u32, effect: &Effect) -> u32
    requires { IsPrintable effect.now }
    ensures { result ≡ fold_of h (line_text (record {
      cycle = cycle;
      thread = thread;
      pc = pc;
      word = word;
      effect = effect.now;
    })) }
{
    let event = Event {
        cycle,
        thread,
        pc,
        word,
        effect: *effect,
    };
    folded(h, line(&event).as_bytes())
}

/// A cache for the hashes of lines: the parts that recur. Contracts don't depend on it.
#[derive(Drop)]
pub struct LineFolder {
    pairs: HexPairs,
    names: [Piece; 32],
    cycles: Cycles,
    sites: Sites,
}

impl Model for LineFolder {
    ghost use Rattle.selfrun.specs.Folds.{AreNames};

    ghost Value = { Unit {0} };

    ghost view = { λ f. tt };

    ghost invariant = { λ f. AreNames f.names };
}

impl LineFolder {
    ghost use Rattle.std.specs.Prelude.{◌≡◌, ◌<◌, ◌^◌};
    ghost use Rattle.rv_exec.specs.Line.{IsPrintable};
    ghost use Rattle.trace_print.specs.Text.{line_text, register_text, store_text, trap_text};
    ghost use Rattle.selfrun.specs.Text.{fold_of};

    /// An empty cache.
    pub fn new() -> LineFolder {
        let pairs = HexPairs::new();
        let sites = Sites::new(&pairs);
        LineFolder {
            pairs,
            names: register_names(),
            cycles: Cycles::new(),
            sites,
        }
    }

    /// A hash with the line of an event appended: its cycle, its pc and word, its effect and a line
    /// feed, one after another.
    #[inline(always)]
    pub fn line(
        &mut self,
        h: u32,
        cycle: u64,
        thread: u8,
        pc: u32,
        word: u32,
        effect: &Effect,
    ) -> u32
        requires cycle { cycle < 10 ^ 10 }
        requires thread { thread < 8 }
        requires printable { IsPrintable effect.now }
        ensures { result ≡ fold_of h (line_text (record {
          cycle = cycle;
          thread = thread;
          pc = pc;
          word = word;
          effect = effect.now;
        })) }
    {
        let begun = self.cycles.fold(h, cycle);
        let prefix = self.sites.fold(begun, &self.pairs, thread, pc, word);
        let shown = match *effect {
            Effect::Nothing => with_byte(prefix, b'-'),
            Effect::Reg { rd, value } => self.register(prefix, rd, value),
            Effect::Store {
                address,
                size,
                value,
            } => self.store(prefix, address, size, value),
            Effect::Trap { cause, target } if cause < 10 => self.trap(prefix, cause, target),
            _ => return rare_line(h, cycle, thread, pc, word, effect),
        };
        with_byte(shown, b'\n')
    }

    /// A hash with a register and its value appended.
    #[inline(always)]
    fn register(&self, h: u32, rd: u8, value: u32) -> u32
        requires { rd < 32 }
        ensures { result ≡ fold_of h (register_text rd value) }
    {
        let h = self.names[usize::from(rd)].after(h);
        self.pairs.word(value).after(h)
    }

    /// A hash with a store's address, size (below ten bytes) and value appended.
    #[inline(always)]
    fn store(&self, h: u32, address: u32, size: u8, value: u32) -> u32
        requires { size < 10 }
        ensures { result ≡ fold_of h (store_text address size value) }
    {
        let h = self.pairs.word(address).after(with_byte(h, b'['));
        let h = with_byte(with_byte(h, b']'), b'/');
        let h = with_byte(with_byte(h, b'0' + size), b'=');
        self.pairs.word(value).after(h)
    }

    /// A hash with a trap's cause, of one digit, and target appended.
    #[inline(always)]
    fn trap(&self, h: u32, cause: u8, target: u32) -> u32
        requires { cause < 10 }
        ensures { result ≡ fold_of h (trap_text cause target) }
    {
        let h = with_byte(folded(h, b"trap "), b'0' + cause);
        self.pairs.word(target).after(folded(h, b" -> "))
    }
}
