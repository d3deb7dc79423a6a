//! The line of an event.

ghost use Rattle.std.specs.Prelude.{◌≡◌, ◌+◌, ◌<◌, ◌≤◌, ◌++◌};
ghost use Rattle.arrayvec.specs.ArrayString.{array_string_len};
ghost use Rattle.rv_exec.specs.Line.{IsPrintable};
ghost use Rattle.trace_print.specs.Text.{register_text, store_text, csr_text};
ghost use Rattle.trace_print.specs.Text.{trap_text, effect_text, line_text};

use crate::digits::{push_decimal, push_hex, push_right, push_two_digits, push_word};
use arrayvec::ArrayString;
use rv_exec::{Effect, Event};

/// The line of an event: the cycle in decimal, right in 10 columns; the pc and the word as eight
/// hexadecimal digits; the effect; a line feed.
#[tactic(auto, unfolding(crate::specs::Text::line_text))]
pub fn line(e: &Event) -> ArrayString<96>
    requires { IsPrintable e.now.effect }
    ensures { result.bytes ≡ line_text e.now }
{
    let mut text = ArrayString::new();
    push_right(&mut text, e.cycle, 10);
    text.push_str(" ");
    push_word(&mut text, e.pc);
    text.push_str(" ");
    push_word(&mut text, e.word);
    text.push_str(" ");
    push_effect(&mut text, &e.effect);
    text.push_str("\n");
    text
}

/// Appends an effect.
#[tactic(auto, unfolding(crate::specs::Text::effect_text))]
pub(crate) fn push_effect(text: &mut ArrayString<96>, effect: &Effect)
    requires printable { IsPrintable effect.now }
    requires room { array_string_len text.old + 32 ≤ 96 }
    ensures text { text.new.bytes ≡ text.old.bytes ++ effect_text effect.now }
    ensures len { array_string_len text.new ≤ array_string_len text.old + 32 }
{
    match *effect {
        Effect::Nothing => text.push_str("-"),
        Effect::Reg { rd, value } => push_register(text, rd, value),
        Effect::Store {
            address,
            size,
            value,
        } => push_store(text, address, size, value),
        Effect::Csr {
            csr,
            value,
            rd: 0,
            ..
        } => push_csr(text, csr, value),
        Effect::Csr {
            csr,
            value,
            rd,
            old,
        } => {
            push_register(text, rd, old);
            text.push_str(" ");
            push_csr(text, csr, value);
        }
        Effect::Trap { cause, target } => push_trap(text, cause, target),
        Effect::Wait => text.push_str("wait"),
    }
}

/// Appends a register and the value that it gets.
#[tactic(auto, unfolding(crate::specs::Text::register_text))]
fn push_register(text: &mut ArrayString<96>, rd: u8, value: u32)
    requires register { rd < 32 }
    requires room { array_string_len text.old + 12 ≤ 96 }
    ensures text { text.new.bytes ≡ text.old.bytes ++ register_text rd value }
    ensures len { array_string_len text.new ≡ array_string_len text.old + 12 }
{
    text.push_str("x");
    push_two_digits(text, rd);
    text.push_str("=");
    push_word(text, value);
}

/// Appends a store's address and value.
#[tactic(auto, unfolding(crate::specs::Text::store_text))]
fn push_store(text: &mut ArrayString<96>, address: u32, size: u8, value: u32)
    requires room { array_string_len text.old + 23 ≤ 96 }
    ensures text { text.new.bytes ≡ text.old.bytes ++ store_text address size value }
    ensures len { array_string_len text.new ≤ array_string_len text.old + 23 }
{
    text.push_str("[");
    push_word(text, address);
    text.push_str("]/");
    push_decimal(text, size);
    text.push_str("=");
    push_word(text, value);
}

/// Appends a CSR and its new value.
#[tactic(auto, unfolding(crate::specs::Text::csr_text))]
fn push_csr(text: &mut ArrayString<96>, csr: u16, value: u32)
    requires room { array_string_len text.old + 16 ≤ 96 }
    ensures text { text.new.bytes ≡ text.old.bytes ++ csr_text csr value }
    ensures len { array_string_len text.new ≡ array_string_len text.old + 16 }
{
    text.push_str("csr ");
    push_hex(text, u64::from(csr), 3);
    text.push_str("=");
    push_word(text, value);
}

/// Appends a trap's cause and the address at which the thread continues.
#[tactic(auto, unfolding(crate::specs::Text::trap_text))]
fn push_trap(text: &mut ArrayString<96>, cause: u8, target: u32)
    requires room { array_string_len text.old + 20 ≤ 96 }
    ensures text { text.new.bytes ≡ text.old.bytes ++ trap_text cause target }
    ensures len { array_string_len text.new ≤ array_string_len text.old + 20 }
{
    text.push_str("trap ");
    push_decimal(text, cause);
    text.push_str(" -> ");
    push_word(text, target);
}
