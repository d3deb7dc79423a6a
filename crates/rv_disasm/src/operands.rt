//! A mnemonic with operands of a form.

ghost use Rattle.std.specs.Prelude.{◌≡◌, ◌+◌, ◌≤◌, ◌∷◌, [], ◌++◌, length, flat_map};
ghost use Rattle.arrayvec.specs.ArrayString.{array_string_len};
ghost use Rattle.rv_disasm.specs.TextTokens.{register_token as register_part};
ghost use Rattle.rv_disasm.specs.TextTokens.{comma, digits, line, line_text};
ghost use Rattle.rv_disasm.specs.TextTokens.{token_text, csr_token, two_registers, three_registers};
ghost use Rattle.rv_disasm.specs.TextTokens.{with_number, with_memory, with_csr, with_branch};
ghost use Rattle.rv_disasm.specs.Names.{csr_name as csr_name_of};
ghost use Rattle.rv_disasm.specs.Text.{csr_source, word_line};

use crate::names::{csr_name, csr_op_name};
use arrayvec::ArrayString;
use rv_decode::CsrKind;
use trace_print::{push_decimal, push_hex, push_word};

/// Only a mnemonic.
pub fn alone(name: &str) -> ArrayString<96>
    requires short { length name.now ≤ 8 }
    ensures text { result.bytes ≡ line_text (line name.now []) }
    ensures len { array_string_len result ≤ 8 }
{
    let mut text = ArrayString::new();
    text.push_str(name);
    text
}

/// With a register.
pub fn one_register(name: &str, register: u8) -> ArrayString<96>
    requires short { length name.now ≤ 8 }
    ensures text { result.bytes ≡ line_text (line name.now (register_part register ∷ [])) }
    ensures len { array_string_len result ≤ 13 }
{
    let mut text = alone(name);
    text.push_str(" x");
    push_decimal(&mut text, register);
    text
}

/// Appends a further register.
fn push_next(text: &mut ArrayString<96>, register: u8)
    requires room { array_string_len text.old + 6 ≤ 96 }
    ensures text { text.new.bytes ≡ text.old.bytes ++ flat_map token_text
        (comma ∷ register_part register ∷ []) }
    ensures len { array_string_len text.new ≤ array_string_len text.old + 6 }
{
    text.push_str(", x");
    push_decimal(text, register);
}

/// With two registers.
pub fn two_registers(name: &str, first: u8, second: u8) -> ArrayString<96>
    requires short { length name.now ≤ 8 }
    ensures text { result.bytes ≡ line_text (line name.now (two_registers first second)) }
    ensures len { array_string_len result ≤ 19 }
{
    let mut text = one_register(name, first);
    push_next(&mut text, second);
    text
}

/// With three registers.
pub fn three_registers(name: &str, rd: u8, rs1: u8, rs2: u8) -> ArrayString<96>
    requires short { length name.now ≤ 8 }
    ensures { result.bytes ≡ line_text (line name.now (three_registers rd rs1 rs2)) }
{
    let mut text = two_registers(name, rd, rs1);
    push_next(&mut text, rs2);
    text
}

/// With two registers and a number.
pub fn with_number(name: &str, rd: u8, rs1: u8, number: i32) -> ArrayString<96>
    requires short { length name.now ≤ 8 }
    ensures { result.bytes ≡ line_text (line name.now (with_number rd rs1 number)) }
{
    let mut text = two_registers(name, rd, rs1);
    text.push_str(", ");
    push_decimal(&mut text, number);
    text
}

/// With a register, an offset and a base.
pub fn with_memory(name: &str, register: u8, offset: i32, base: u8) -> ArrayString<96>
    requires short { length name.now ≤ 8 }
    ensures { result.bytes ≡ line_text (line name.now (with_memory register offset base)) }
{
    let mut text = one_register(name, register);
    text.push_str(", ");
    push_decimal(&mut text, offset);
    text.push_str("(x");
    push_decimal(&mut text, base);
    text.push_str(")");
    text
}

/// With a register and a number of hexadecimal digits.
pub fn with_digits(name: &str, rd: u8, width: usize, number: u32) -> ArrayString<96>
    requires short { length name.now ≤ 8 }
    requires width { width ≤ 8 }
    ensures { result.bytes
        ≡ line_text (line name.now (register_part rd ∷ comma ∷ digits width number ∷ [])) }
{
    let mut text = one_register(name, rd);
    text.push_str(", 0x");
    push_hex(&mut text, u64::from(number), width);
    text
}

/// With two registers and an address.
pub fn with_branch(name: &str, rs1: u8, rs2: u8, to: u32) -> ArrayString<96>
    requires short { length name.now ≤ 8 }
    ensures { result.bytes ≡ line_text (line name.now (with_branch rs1 rs2 to)) }
{
    let mut text = two_registers(name, rs1, rs2);
    text.push_str(", 0x");
    push_word(&mut text, to);
    text
}

/// A word as it is.
pub fn word_line(word: u32) -> ArrayString<96>
    ensures { result.bytes ≡ line_text (word_line word) }
{
    let mut text = ArrayString::new();
    text.push_str(".word 0x");
    push_word(&mut text, word);
    text
}

/// Appends a control and status register.
fn push_csr(text: &mut ArrayString<96>, csr: u16)
    requires room { array_string_len text.old + 8 ≤ 96 }
    ensures text { text.new.bytes ≡ text.old.bytes ++ token_text (csr_token csr) }
    ensures len { array_string_len text.new ≤ array_string_len text.old + 8 }
{
    match csr_name(csr) {
        Some(name) => text.push_str(name),
        None => {
            text.push_str("0x");
            push_hex(text, u64::from(csr), 3);
        }
    }
}

/// Appends the source of an instruction on control and status registers.
fn push_source(text: &mut ArrayString<96>, op: CsrKind, source: u8)
    requires room { array_string_len text.old + 4 ≤ 96 }
    ensures { text.new.bytes ≡ text.old.bytes ++ token_text (csr_source op source) }
{
    match op {
        CsrKind::Rw | CsrKind::Rs | CsrKind::Rc => {
            text.push_str("x");
            push_decimal(text, source);
        }
        CsrKind::Rwi | CsrKind::Rsi | CsrKind::Rci => push_decimal(text, source),
    }
}

/// An instruction on a control and status register.
pub fn with_csr(op: CsrKind, rd: u8, csr: u16, source: u8) -> ArrayString<96>
    ensures { result.bytes ≡ line_text
        (line (csr_name_of op) (with_csr rd csr (csr_source op source))) }
{
    let mut text = one_register(csr_op_name(op), rd);
    text.push_str(", ");
    push_csr(&mut text, csr);
    text.push_str(", ");
    push_source(&mut text, op, source);
    text
}
