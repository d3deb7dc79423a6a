//! One value of a document, checked at its place.

ghost use Rattle.std.specs.Prelude.{◌≡◌, ◌<◌, ◌≤◌, ◌==◌, length, ◌&&◌};
ghost use Rattle.std.specs.Prelude.{false, IfOk, true, map, option_map};
ghost use Rattle.std.specs.List.{list_any};
ghost use Rattle.toml.specs.View.{view};
ghost use Rattle.fp_setup.specs.Checks.{bytes_check, not_taken_check, integer_check};
ghost use Rattle.fp_setup.specs.Checks.{word_check, truth_check, permit_check, is_in};
ghost use Rattle.fp_setup.specs.Values.{as_list, number, text, truth};
ghost use Rattle.fp_setup.specs.SetupOfTables.{number_of_name};
ghost use Rattle.fp_setup.specs.Vocabulary.{is_value};
ghost use Rattle.fp_setup.specs.Reading.{IsRead, IsReadInMemory};

use crate::bounds::Range;
use crate::file_name::Name;
use crate::refusal::{Fault, Place, SetupNo, SetupRefused};
use crate::vocabulary::Words;
use std::alloc::Global;
use toml::Value;

/// The elements of a list.
#[tactic(auto, using(crate::proofs::Lists::values_of), unfolding(crate::specs::Values::as_list))]
pub(crate) fn list(value: &Value) -> Option<&[Value]>
    ensures { option_map (λ items. map view items.now) result ≡ as_list (view value.now) }
{
    match value.as_array() {
        Some(items) => Some(items.as_slice()),
        None => None,
    }
}

/// An integer of a range.
#[tactic(auto, unfolding(crate::specs::Checks::integer_check))]
pub(crate) fn integer(value: &Value, range: Range, place: Place) -> Result<u32, Fault>
    requires { 0 < range.step }
    ensures read { IsRead result
        (integer_check range place (view value.now))
        (number (view value.now)) }
    ensures within { IfOk result (λ n. is_in range n ≡ true) }
{
    let Some(n) = value.as_integer() else {
        return Err(Fault::new(SetupNo::WrongType, place));
    };
    match u32::try_from(n) {
        Ok(n) if range.contains(n) => Ok(n),
        _ => Err(Fault::new(SetupNo::OutOfRange, place)),
    }
}

/// An integer of a range that isn't among those that are taken.
#[tactic(auto, unfolding(crate::specs::Checks::not_taken_check))]
pub(crate) fn not_taken(
    value: &Value,
    range: Range,
    taken: &[u8],
    place: Place,
) -> Result<u8, Fault>
    requires step { 0 < range.step }
    requires small { range.high < 256 }
    ensures read { IsRead result
        (not_taken_check range taken.now place (view value.now))
        (number (view value.now)) }
    ensures within { IfOk result (λ n. is_in range n ≡ true) }
    ensures not_taken { IfOk result (λ n. list_any (λ k. k == n) taken.now ≡ false) }
{
    let number = integer(value, range, place)? as u8;
    if taken.contains(&number) {
        return Err(Fault::new(SetupNo::DoubleThread, place));
    }
    Ok(number)
}

/// The number of a text of a list.
#[tactic(auto, unfolding(crate::proofs::Opened::word))]
pub(crate) fn word(value: &Value, words: Words, place: Place) -> Result<u8, Fault>
    ensures read { IsRead result
        (word_check words place (view value.now))
        (number_of_name words (text (view value.now))) }
    ensures value { IfOk result (λ n. is_value words n ≡ true) }
{
    let Some(text) = value.as_str() else {
        return Err(Fault::new(SetupNo::WrongType, place));
    };
    match words.number(text) {
        Some(n) => Ok(n),
        None => Err(Fault::new(words.refusal(), place)),
    }
}

/// A truth value.
#[tactic(auto, unfolding(crate::specs::Checks::truth_check))]
pub(crate) fn truth_value(value: &Value, place: Place) -> Result<bool, Fault>
    ensures { IsRead result (truth_check place (view value.now)) (truth (view value.now)) }
{
    match value.as_bool() {
        Some(flag) => Ok(flag),
        None => Err(Fault::new(SetupNo::WrongType, place)),
    }
}

/// A truth value that isn't true together with another.
#[tactic(auto, unfolding(crate::specs::Checks::permit_check))]
pub(crate) fn permit(value: &Value, confined: bool, place: Place) -> Result<bool, Fault>
    ensures read { IsRead result
        (permit_check confined place (view value.now))
        (truth (view value.now)) }
    ensures one_of_both { IfOk result (λ permit. (confined && permit) ≡ false) }
{
    match value.as_bool() {
        Some(true) if confined => Err(Fault::new(SetupNo::ConfinedPermit, place)),
        Some(flag) => Ok(flag),
        None => Err(Fault::new(SetupNo::WrongType, place)),
    }
}

/// A text of so many bytes, as a name.
#[tactic(auto, unfolding(crate::specs::Checks::bytes_check))]
pub(crate) fn name(
    alloc: Global,
    value: &Value,
    low: usize,
    high: usize,
    place: Place,
) -> Result<Name, SetupRefused>
    ensures read { IsReadInMemory result
        (bytes_check low high place (view value.now))
        (text (view value.now)) }
    ensures lengths { IfOk result (λ n. (low ≤ length n) × (length n ≤ high)) }
{
    let Some(text) = value.as_str() else {
        return Err(SetupRefused::Fault {
            code: SetupNo::WrongType,
            place,
        });
    };
    if text.len() < low || high < text.len() {
        return Err(SetupRefused::Fault {
            code: SetupNo::OutOfRange,
            place,
        });
    }
    Ok(Name::from_str(alloc, text)?)
}
