//! The line of an event, made in place.

ghost use Rattle.std.specs.Prelude.{◌≡◌, ◌+◌, ◌<◌, ◌≤◌, ◌^◌, [], ◌++◌, length, take};
ghost use Rattle.rv_exec.specs.Line.{IsPrintable};
ghost use Rattle.trace_print.specs.Digits.{right};
ghost use Rattle.trace_print.specs.Kept.{IsKept};
ghost use Rattle.trace_print.specs.Text.{effect_text, line_text};

use crate::digits::push_right;
use crate::events::push_effect;
use crate::in_place::{ROOM, set_byte, set_text, set_two_digits, set_word};
use arrayvec::ArrayString;
use rv_exec::Effect;
use std::marker::Model;

/// The number of cycles with the same upper digits.
const SAME: u64 = 10_000;

/// The value of `first` if no cycle's upper digits are kept: a cycle that no line shows.
const NONE: u64 = 10_000_000_000;

/// The line of an event. It is empty at first. Its buffer is used again for the line of the next
/// event.
///
/// It has the same bytes as [`line`](crate::line), and takes fewer instructions to make: a run
/// spends many of its instructions on lines. Digits come in pairs from a table and are written in
/// place. The upper six columns of the cycle change once in 10,000 cycles and are reused from the
/// previous line.
#[derive(Drop)]
pub struct EventLine {
    /// The line, followed by bytes of earlier lines.
    text: [u8; ROOM],
    /// The length of the line, in bytes.
    len: usize,
    /// The first cycle with the upper digits that are in the text.
    first: u64,
}

impl Model for EventLine {
    ghost use Rattle.std.specs.Prelude.{ℕ, List, ◌≤◌, ◌^◌, take};
    ghost use Rattle.std.specs.Coded.{coded_ℕ, coded_list};
    ghost use Rattle.trace_print.specs.Kept.{IsKept};

    ghost Value = { List ℕ };

    ghost coded = { coded_list coded_ℕ };

    ghost view = { λ l. take l.len l.text };

    ghost invariant = { λ l. (l.len ≤ 64) × (l.first ≤ 10 ^ 10) × IsKept l.first l.text };
}

impl EventLine {
    /// An empty line.
    pub fn new() -> EventLine
        ensures { result ≡ [] }
    {
        EventLine {
            text: [b' '; ROOM],
            len: 0,
            first: NONE,
        }
    }

    /// The bytes of the line.
    #[inline(always)]
    pub fn as_bytes(&self) -> &[u8]
        ensures { result.now ≡ self.now }
    {
        &self.text[..self.len]
    }

    /// Makes the line of an event in place of the previous one. The cycle is below 10,000,000,000,
    /// so that it has ten digits at most. `pc` and `word` are arbitrary. The effect is printable: a
    /// register below 32, a CSR's number below 4096, and a store of 1, 2 or 4 bytes with a value
    /// that fits.
    #[inline(always)]
    pub fn set(&mut self, cycle: u64, pc: u32, word: u32, effect: &Effect)
        requires cycle { cycle < 10 ^ 10 }
        requires printable { IsPrintable effect.now }
        ensures { (thread : _) → self.new ≡ line_text (record {
          cycle = cycle;
          thread = thread;
          pc = pc;
          word = word;
          effect = effect.now;
        }) }
    {
        self.first = set_cycle(&mut self.text, self.first, cycle);
        set_byte(&mut self.text, 10, b' ');
        set_word(&mut self.text, 11, pc);
        set_byte(&mut self.text, 19, b' ');
        set_word(&mut self.text, 20, word);
        set_byte(&mut self.text, 28, b' ');
        let end = set_effect(&mut self.text, effect);
        set_byte(&mut self.text, end, b'\n');
        self.len = end + 1;
    }
}

/// Writes a cycle right-aligned in ten columns. Returns the first cycle with the same upper digits,
/// or [`NONE`] below 10,000.
#[inline(always)]
fn set_cycle(text: &mut [u8; ROOM], first: u64, cycle: u64) -> u64
    requires cycle { cycle < 10 ^ 10 }
    requires first { first ≤ 10 ^ 10 }
    requires kept { IsKept first text.old }
    ensures text { take 10 text.new ≡ right 10 cycle }
    ensures first { result ≤ 10 ^ 10 }
    ensures kept { IsKept result text.new }
{
    let lower = cycle.wrapping_sub(first);
    if lower >= SAME {
        return set_upper(text, cycle);
    }
    let lower = lower as u32;
    set_two_digits(text, 6, (lower / 100) as u8);
    set_two_digits(text, 8, (lower % 100) as u8);
    first
}

/// Writes a cycle whose upper digits aren't in the text, or that has spaces among its lower digits.
#[cold]
#[inline(never)]
fn set_upper(text: &mut [u8; ROOM], cycle: u64) -> u64
    requires cycle { cycle < 10 ^ 10 }
    ensures text { take 10 text.new ≡ right 10 cycle }
    ensures first { result ≤ 10 ^ 10 }
    ensures kept { IsKept result text.new }
{
    let mut digits = ArrayString::new();
    push_right(&mut digits, cycle, 10);
    set_text(text, 0, digits.as_bytes());
    if cycle < SAME {
        NONE
    } else {
        cycle - cycle % SAME
    }
}

/// Writes an effect after the first 29 bytes, and returns the index of its end.
#[inline(always)]
fn set_effect(text: &mut [u8; ROOM], effect: &Effect) -> usize
    requires { IsPrintable effect.now }
    ensures room { (29 ≤ result) × (result < 64) }
    ensures text { take result text.new ≡ take 29 text.old ++ effect_text effect.now }
{
    match *effect {
        Effect::Nothing => {
            set_byte(text, 29, b'-');
            30
        }
        Effect::Reg { rd, value } => {
            set_byte(text, 29, b'x');
            set_two_digits(text, 30, rd);
            set_byte(text, 32, b'=');
            set_word(text, 33, value);
            41
        }
        Effect::Store {
            address,
            size,
            value,
        } => {
            set_byte(text, 29, b'[');
            set_word(text, 30, address);
            set_byte(text, 38, b']');
            set_byte(text, 39, b'/');
            set_byte(text, 40, b'0' + size);
            set_byte(text, 41, b'=');
            set_word(text, 42, value);
            50
        }
        _ => set_rare_effect(text, effect),
    }
}

/// Writes a rare effect, as [`line`](crate::line) does.
#[cold]
#[inline(never)]
fn set_rare_effect(text: &mut [u8; ROOM], effect: &Effect) -> usize
    requires { IsPrintable effect.now }
    ensures room { (29 ≤ result) × (result < 64) }
    ensures text { take result text.new ≡ take 29 text.old ++ effect_text effect.now }
{
    let mut rare = ArrayString::new();
    push_effect(&mut rare, effect);
    set_text(text, 29, rare.as_bytes());
    29 + rare.len()
}
