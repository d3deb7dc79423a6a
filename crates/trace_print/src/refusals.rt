//! The line of a refusal.

ghost use Rattle.std.specs.Prelude.{◌≡◌, ◌+◌, ◌≤◌, ◌++◌, length, codes, decimal};
ghost use Rattle.arrayvec.specs.ArrayString.{array_string_len};
ghost use Rattle.trace_print.specs.Refusals.{name_of, setup_names, section_names, image_names};
ghost use Rattle.trace_print.specs.Refusals.{source_names, bound_names, routine_names};
ghost use Rattle.trace_print.specs.Refusals.{bound_value, code_text, refusal_text};

use crate::digits::{push_decimal, push_hex};
use crate::places::push_place;
use arrayvec::ArrayString;
use fp_setup::Place;

/// The reason of a refusal, by the code of its fault. A code without a name is printed without one.
#[derive(Clone, Copy, Debug)]
pub enum Refusal {
    /// A setup, with the place of the fault.
    Setup { code: u8, place: Place },
    /// The requested section or thread.
    Section { code: u8 },
    /// An image or an ELF file, with the offset of the fault in bytes.
    Image { code: u8, offset: u32 },
    /// A source, with the line of the fault, counted from 1; 0 for the source as a whole.
    Source { line: u32, code: u8 },
    /// A bound, with the address of the fault. If the bound is too large (code 6), the value is the
    /// bound, or 2^64 for a bound through calls.
    Bound { code: u8, value: u128 },
    /// A list of routines, with the line of the fault, counted from 1.
    Routines { line: u32, code: u8 },
}

/// The line of a refusal: the refused object, the code with its name, and the place.
#[tactic(auto, unfolding(crate::specs::Refusals::refusal_text))]
pub fn refusal_line(r: &Refusal) -> ArrayString<96>
    ensures { result.bytes ≡ refusal_text r.now }
{
    let mut text = ArrayString::new();
    match *r {
        Refusal::Setup { code, place } => {
            text.push_str("refused setup ");
            push_code(&mut text, code, setup_name(code));
            text.push_str(" ");
            push_place(&mut text, &place);
        }
        Refusal::Section { code } => {
            text.push_str("refused section ");
            push_code(&mut text, code, section_name(code));
        }
        Refusal::Image { code, offset } => {
            text.push_str("refused image ");
            push_code(&mut text, code, image_name(code));
            text.push_str(" ");
            push_decimal(&mut text, offset);
        }
        Refusal::Source { line, code } => {
            text.push_str("refused source ");
            push_source(&mut text, line, code);
        }
        Refusal::Bound { code, value } => {
            text.push_str("refused bound ");
            push_code(&mut text, code, bound_name(code));
            text.push_str(" ");
            push_bound_value(&mut text, code, value);
        }
        Refusal::Routines { line, code } => {
            text.push_str("refused routines ");
            push_line_code(&mut text, line, code, routine_name(code));
        }
    }
    text.push_str("\n");
    text
}

/// Appends a code with its name.
fn push_code(text: &mut ArrayString<96>, code: u8, name: &str)
    requires short { length name.now ≤ 17 }
    requires room { array_string_len text.old + 21 ≤ 96 }
    ensures text { text.new.bytes ≡ text.old.bytes ++ (decimal code ++ (codes " " ++ name.now)) }
    ensures len { array_string_len text.new ≤ array_string_len text.old + 21 }
{
    push_decimal(text, code);
    text.push_str(" ");
    text.push_str(name);
}

/// Appends the number of a line, and a code with its name.
fn push_line_code(text: &mut ArrayString<96>, line: u32, code: u8, name: &str)
    requires short { length name.now ≤ 17 }
    requires room { array_string_len text.old + 32 ≤ 96 }
    ensures text { text.new.bytes ≡
        text.old.bytes ++ (decimal line
        ++ (codes " " ++ (decimal code ++ (codes " " ++ name.now)))) }
    ensures len { array_string_len text.new ≤ array_string_len text.old + 32 }
{
    push_decimal(text, line);
    text.push_str(" ");
    push_code(text, code, name);
}

/// Appends the line of a source, and the code of its fault with its name.
fn push_source(text: &mut ArrayString<96>, line: u32, code: u8)
    requires room { array_string_len text.old + 32 ≤ 96 }
    ensures text { text.new.bytes ≡
        text.old.bytes ++ (decimal line ++ (codes " " ++ code_text source_names code)) }
    ensures len { array_string_len text.new ≤ array_string_len text.old + 32 }
{
    push_line_code(text, line, code, source_name(code));
}

/// Appends the number of a bound's refusal.
#[tactic(auto, unfolding(crate::specs::Refusals::bound_value))]
fn push_bound_value(text: &mut ArrayString<96>, code: u8, value: u128)
    requires room { array_string_len text.old + 39 ≤ 96 }
    ensures text { text.new.bytes ≡ text.old.bytes ++ bound_value code value }
    ensures len { array_string_len text.new ≤ array_string_len text.old + 39 }
{
    if code == 6 {
        push_decimal(text, value);
    } else {
        push_hex(text, (value % 0x1_0000_0000) as u64, 8);
    }
}

/// The name of a setup's code.
#[tactic(auto, unfolding(crate::specs::Refusals::setup_names))]
fn setup_name(code: u8) -> &'static str
    ensures name { result.now ≡ name_of setup_names code }
    ensures short { length result.now ≤ 17 }
{
    match code {
        1 => "TooLong",
        2 => "Toml",
        3 => "UnknownKey",
        4 => "MissingKey",
        5 => "WrongType",
        6 => "OutOfRange",
        7 => "BadSlot",
        8 => "BadMode",
        9 => "BadRegion",
        10 => "ConfinedPermit",
        11 => "DoubleThread",
        12 => "TooMany",
        _ => "",
    }
}

/// The name of a section's code.
#[tactic(auto, unfolding(crate::specs::Refusals::section_names))]
fn section_name(code: u8) -> &'static str
    ensures name { result.now ≡ name_of section_names code }
    ensures short { length result.now ≤ 17 }
{
    match code {
        1 => "NotHard",
        2 => "NoSlot",
        3 => "Order",
        4 => "Misaligned",
        5 => "Outside",
        6 => "NotConfined",
        _ => "",
    }
}

/// The name of an image's code.
#[tactic(auto, unfolding(crate::specs::Refusals::image_names))]
fn image_name(code: u8) -> &'static str
    ensures name { result.now ≡ name_of image_names code }
    ensures short { length result.now ≤ 17 }
{
    match code {
        1 | 31 => "TooLong",
        2 => "Magic",
        3 | 33 => "Truncated",
        4 => "BadSegment",
        5 | 41 => "Overlap",
        6 => "Trailing",
        32 => "NotElf",
        34 => "Class",
        35 => "ByteOrder",
        36 => "Kind",
        37 => "Machine",
        38 => "EntrySize",
        39 => "Dynamic",
        40 => "BadLoad",
        42 => "TooManySegments",
        _ => "",
    }
}

/// The name of a source's code.
#[tactic(auto, unfolding(crate::specs::Refusals::source_names))]
fn source_name(code: u8) -> &'static str
    ensures name { result.now ≡ name_of source_names code }
    ensures short { length result.now ≤ 17 }
{
    match code {
        1 => "TooLong",
        2 => "Lex",
        3 => "UnknownName",
        4 => "Operands",
        5 => "OutOfRange",
        6 => "DoubleLabel",
        7 => "NoLabel",
        8 => "Misaligned",
        9 => "OutsideMemory",
        10 => "Overlap",
        11 => "TooManySegments",
        _ => "",
    }
}

/// The name of a bound's code.
#[tactic(auto, unfolding(crate::specs::Refusals::bound_names))]
fn bound_name(code: u8) -> &'static str
    ensures name { result.now ≡ name_of bound_names code }
    ensures short { length result.now ≤ 17 }
{
    match code {
        1 => "Nesting",
        2 => "IndirectJump",
        3 => "TimedWait",
        4 => "UnboundedBackEdge",
        6 => "Overflow",
        8 => "Overlap",
        9 => "Recursion",
        10 => "Escape",
        _ => "",
    }
}

/// The name of a code of a list of routines.
#[tactic(auto, unfolding(crate::specs::Refusals::routine_names))]
fn routine_name(code: u8) -> &'static str
    ensures name { result.now ≡ name_of routine_names code }
    ensures short { length result.now ≤ 17 }
{
    match code {
        1 => "TooMany",
        2 => "BadLine",
        3 => "BadPlace",
        4 => "Order",
        _ => "",
    }
}
