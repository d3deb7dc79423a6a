//! The values of a table's keys, each checked at its place.

ghost use Rattle.std.specs.Prelude.{◌≡◌, ◌<◌, ◌≤◌, ◌==◌, ◌&&◌, ℕ, List, true};
ghost use Rattle.std.specs.Prelude.{false, map, option_map, unwrap_or, Option};
ghost use Rattle.std.specs.Prelude.{Some, None, IfOk, IfSome, IsTrue, length};
ghost use Rattle.std.specs.Option.{option_map_or};
ghost use Rattle.std.specs.Str.{bytes_eq};
ghost use Rattle.toml.specs.Data.{get_member};
ghost use Rattle.toml.specs.View.{view, table_view};
ghost use Rattle.slot_table.specs.Nibbles.{nibbles};
ghost use Rattle.std.specs.List.{list_all, list_any};
ghost use Rattle.fp_setup.specs.Vocabulary.{is_value, is_word};
ghost use Rattle.fp_setup.specs.Values.{elements_at, number, number_at, text_at, truth_at};
ghost use Rattle.fp_setup.specs.Checks.{bytes_check, eight_check, not_taken_check, integer_check};
ghost use Rattle.fp_setup.specs.Checks.{is_in, permit_check, truth_check, word_check};
ghost use Rattle.fp_setup.specs.FaultOrder.{has_other_key, key_fault, unknown_fault};
ghost use Rattle.fp_setup.specs.SetupOfTables.{number_of_name, nibble_word};
ghost use Rattle.fp_setup.specs.Reading.{IsRead, IsReadInMemory};

use crate::bounds::Range;
use crate::file_name::Name;
use crate::nibble_list::eight;
use crate::refusal::{Fault, Place, SetupNo, SetupRefused};
use crate::values::{integer, name, not_taken, permit, truth_value, word};
use crate::vocabulary::Words;
use std::alloc::Global;
use toml::{Table, Value};

/// Whether a table may have this key.
fn is_known(keys: &[&str], key: &str) -> bool
    ensures { result ≡ list_any (λ known. bytes_eq known key.now) (map (λ k. k.now) keys.now) }
{
    keys.contains(&key)
}

/// Whether a table has a key outside a list.
#[tactic(auto, using(crate::proofs::Lists::other_keys))]
fn has_other(table: &Table, keys: &[&str]) -> bool
    ensures { result ≡ has_other_key (map (λ k. k.now) keys.now) (table_view table.now) }
{
    for key in table.keys() {
        if !is_known(keys, key.as_str()) {
            return true;
        }
    }
    false
}

/// Refuses a table with a key outside a list.
#[tactic(auto, unfolding(crate::specs::FaultOrder::unknown_fault))]
pub(crate) fn no_other_key(table: &Table, keys: &[&str], place: Place) -> Result<(), Fault>
    ensures { IsRead result
        (unknown_fault (map (λ k. k.now) keys.now) place (table_view table.now))
        tt }
{
    if has_other(table, keys) {
        return Err(Fault::new(SetupNo::UnknownKey, place));
    }
    Ok(())
}

/// The value under a key of a table.
pub(crate) fn member<'a>(table: &'a Table, key: &str) -> Option<&'a Value>
    ensures { option_map (λ v. view v.now) result ≡ get_member key.now (table_view table.now) }
{
    table.get(key)
}

/// A required integer.
#[tactic(auto, unfolding(crate::specs::FaultOrder::key_fault))]
pub(crate) fn needed_integer(
    table: &Table,
    key: &str,
    range: Range,
    place: Place,
) -> Result<u32, Fault>
    requires { 0 < range.step }
    ensures read { IsRead result
        (key_fault (integer_check range) true place (get_member key.now (table_view table.now)))
        (number_at key.now (table_view table.now)) }
    ensures within { IfOk result (λ n. is_in range n ≡ true) }
{
    match member(table, key) {
        Some(value) => integer(value, range, place),
        None => Err(Fault::new(SetupNo::MissingKey, place)),
    }
}

/// An optional integer.
#[tactic(auto, unfolding(crate::specs::FaultOrder::key_fault))]
pub(crate) fn optional_integer(
    table: &Table,
    key: &str,
    range: Range,
    place: Place,
) -> Result<Option<u32>, Fault>
    requires { 0 < range.step }
    ensures read { IsRead result
        (key_fault (integer_check range) false place (get_member key.now (table_view table.now)))
        (option_map number (get_member key.now (table_view table.now))) }
    ensures within { IfOk result (λ o. IfSome o (λ n. is_in range n ≡ true)) }
{
    match member(table, key) {
        Some(value) => Ok(Some(integer(value, range, place)?)),
        None => Ok(None),
    }
}

/// The word of eight texts of a list, which are required.
#[tactic(auto, unfolding(crate::specs::FaultOrder::key_fault))]
pub(crate) fn needed_eight(
    table: &Table,
    key: &str,
    words: Words,
    place: Place,
) -> Result<u32, Fault>
    ensures read { IsRead result
        (key_fault (eight_check words) true place (get_member key.now (table_view table.now)))
        (nibble_word words (elements_at key.now (table_view table.now))) }
    ensures values { IfOk result (λ word. IsTrue (is_word words word)) }
{
    match member(table, key) {
        Some(value) => eight(value, words, place),
        None => Err(Fault::new(SetupNo::MissingKey, place)),
    }
}

/// The number of a text of a list, which is required.
#[tactic(auto, unfolding(crate::specs::FaultOrder::key_fault))]
pub(crate) fn needed_word(table: &Table, key: &str, words: Words, place: Place) -> Result<u8, Fault>
    ensures read { IsRead result
        (key_fault (word_check words) true place (get_member key.now (table_view table.now)))
        (number_of_name words (text_at key.now (table_view table.now))) }
    ensures value { IfOk result (λ n. is_value words n ≡ true) }
{
    match member(table, key) {
        Some(value) => word(value, words, place),
        None => Err(Fault::new(SetupNo::MissingKey, place)),
    }
}

/// A truth value, false where it is absent.
#[tactic(auto, unfolding(crate::specs::FaultOrder::key_fault))]
pub(crate) fn truth_or_false(table: &Table, key: &str, place: Place) -> Result<bool, Fault>
    ensures { IsRead result
        (key_fault truth_check false place (get_member key.now (table_view table.now)))
        (truth_at key.now (table_view table.now)) }
{
    match member(table, key) {
        Some(value) => truth_value(value, place),
        None => Ok(false),
    }
}

/// A truth value, false where it is absent, that isn't true together with another.
#[tactic(auto, unfolding(crate::specs::FaultOrder::key_fault))]
pub(crate) fn permit_or_false(
    table: &Table,
    key: &str,
    confined: bool,
    place: Place,
) -> Result<bool, Fault>
    ensures read { IsRead result
        (key_fault (permit_check confined) false place (get_member key.now (table_view table.now)))
        (truth_at key.now (table_view table.now)) }
    ensures one_of_both { IfOk result (λ permit. (confined && permit) ≡ false) }
{
    match member(table, key) {
        Some(value) => permit(value, confined, place),
        None => Ok(false),
    }
}

/// A required name with a length in a range.
#[tactic(auto, unfolding(crate::specs::FaultOrder::key_fault))]
pub(crate) fn needed_name(
    alloc: Global,
    table: &Table,
    key: &str,
    low: usize,
    high: usize,
    place: Place,
) -> Result<Name, SetupRefused>
    ensures read { IsReadInMemory result
        (key_fault (bytes_check low high) true place (get_member key.now (table_view table.now)))
        (text_at key.now (table_view table.now)) }
    ensures lengths { IfOk result (λ n. (low ≤ length n) × (length n ≤ high)) }
{
    match member(table, key) {
        Some(value) => name(alloc, value, low, high, place),
        None => Err(SetupRefused::Fault {
            code: SetupNo::MissingKey,
            place,
        }),
    }
}

/// A required integer that isn't among those that are taken.
#[tactic(auto, unfolding(crate::specs::FaultOrder::key_fault))]
pub(crate) fn needed_fresh(
    table: &Table,
    key: &str,
    range: Range,
    taken: &[u8],
    place: Place,
) -> Result<u8, Fault>
    requires step { 0 < range.step }
    requires small { range.high < 256 }
    ensures read { IsRead result
        (key_fault (not_taken_check range taken.now) true place
        (get_member key.now (table_view table.now)))
        (number_at key.now (table_view table.now)) }
    ensures within { IfOk result (λ n. is_in range n ≡ true) }
    ensures not_taken { IfOk result (λ n. list_any (λ k. k == n) taken.now ≡ false) }
{
    match member(table, key) {
        Some(value) => not_taken(value, range, taken, place),
        None => Err(Fault::new(SetupNo::MissingKey, place)),
    }
}
