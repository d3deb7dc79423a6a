//! The place of a fault in a setup file.

ghost use Rattle.std.specs.Prelude.{◌≡◌, ◌+◌, ◌≤◌, ◌++◌, length};
ghost use Rattle.arrayvec.specs.ArrayString.{array_string_len};
ghost use Rattle.trace_print.specs.Places.{key_text, index_text, value_text, row_text, place_text};

use crate::digits::push_decimal;
use arrayvec::ArrayString;
use fp_setup::Place;

/// Appends a place: `-` for the file as a whole, else its keys and indices.
#[tactic(auto, unfolding(crate::specs::Places::place_text))]
pub(crate) fn push_place(text: &mut ArrayString<96>, place: &Place)
    requires room { array_string_len text.old + 40 ≤ 96 }
    ensures text { text.new.bytes ≡ text.old.bytes ++ place_text place.now }
    ensures len { array_string_len text.new ≤ array_string_len text.old + 40 }
{
    match (place.table, place.key) {
        (0, _) => text.push_str("-"),
        (1, 0) => text.push_str("top"),
        (1, key) => push_value(text, 1, key, place.item),
        (table, 0) => push_row(text, table, place.row),
        (table, key) => {
            push_row(text, table, place.row);
            text.push_str(".");
            push_value(text, table, key, place.item);
        }
    }
}

/// Appends a table of a thread or of a loop.
#[tactic(auto, unfolding(crate::specs::Places::row_text))]
fn push_row(text: &mut ArrayString<96>, table: u8, row: u32)
    requires room { array_string_len text.old + 18 ≤ 96 }
    ensures text { text.new.bytes ≡ text.old.bytes ++ row_text table row }
    ensures len { array_string_len text.new ≤ array_string_len text.old + 18 }
{
    text.push_str(if table == 2 { "thread" } else { "loop" });
    push_index(text, row);
}

/// Appends the name of a key. If `item` isn't 0, the index of an element follows: `item` - 1.
#[tactic(auto, unfolding(crate::specs::Places::value_text))]
fn push_value(text: &mut ArrayString<96>, table: u8, key: u8, item: u32)
    requires room { array_string_len text.old + 21 ≤ 96 }
    ensures text { text.new.bytes ≡ text.old.bytes ++ value_text table key item }
    ensures len { array_string_len text.new ≤ array_string_len text.old + 21 }
{
    text.push_str(key_name(table, key));
    if item != 0 {
        push_index(text, item - 1);
    }
}

/// Appends an index in brackets.
#[tactic(auto, unfolding(crate::specs::Places::index_text))]
fn push_index(text: &mut ArrayString<96>, index: u32)
    requires room { array_string_len text.old + 12 ≤ 96 }
    ensures text { text.new.bytes ≡ text.old.bytes ++ index_text index }
    ensures len { array_string_len text.new ≤ array_string_len text.old + 12 }
{
    text.push_str("[");
    push_decimal(text, index);
    text.push_str("]");
}

/// The name of a key by the numbers of its table and of itself.
#[tactic(auto, unfolding(crate::specs::Places::key_text))]
fn key_name(table: u8, key: u8) -> &'static str
    ensures name { result.now ≡ key_text table key }
    ensures short { length result.now ≤ 9 }
{
    match (table, key) {
        (1, 1) => "version",
        (1, 2) => "period",
        (1, 3) => "image",
        (1, 4) => "slots",
        (1, 5) => "i_regions",
        (1, 6) => "d_regions",
        (1, 7) => "thread",
        (1, 8) => "loop",
        (2, 1) => "id",
        (2, 2) => "mode",
        (2, 3) => "entry",
        (2, 4) => "confined",
        (2, 5) => "permit",
        (2, 6) => "unplug",
        (2, 7) => "inputs",
        (3, 1) => "head",
        (3, 2) => "last",
        (3, 3) => "bound",
        _ => "",
    }
}
