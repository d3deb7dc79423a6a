//! The inputs of a thread.

ghost use Rattle.std.specs.Prelude.{◌≡◌, ◌≤◌, length, map, IfOk, true, false};
ghost use Rattle.toml.specs.Data.{get_member};
ghost use Rattle.toml.specs.View.{table_view, view};
ghost use Rattle.timer_unit.specs.Time.{most_cycles};
ghost use Rattle.fp_setup.specs.Inputs.{AreInputs, most_inputs};
ghost use Rattle.fp_setup.specs.Values.{elements, elements_at, input_of, pair};
ghost use Rattle.fp_setup.specs.Checks.{input_check, inputs_fault, is_after, list_check};
ghost use Rattle.fp_setup.specs.FaultOrder.{key_fault};
ghost use Rattle.fp_setup.specs.Reading.{IsRead, IsReadInMemory};

use crate::input_list::{Input, Inputs};
use crate::keys::member;
use crate::refusal::{Fault, Place, SetupNo, SetupRefused};
use crate::values::list;
use std::alloc::Global;
use timer_unit::MOST_CYCLES;
use toml::{Table, Value};

/// The most inputs that a thread may have.
const MOST_INPUTS: usize = 4096;

/// Two integers, if the value is a list of exactly two.
#[tactic(auto, unfolding(crate::specs::Values::pair))]
fn two_integers(value: &Value) -> Option<(i64, i64)>
    ensures { result ≡ pair (view value.now) }
{
    let items = list(value)?;
    if items.len() != 2 {
        return None;
    }
    Some((items[0].as_integer()?, items[1].as_integer()?))
}

/// Whether an input's cycle is greater than that of the input before it.
fn comes_after(before: Option<u64>, at: u64) -> bool
    ensures { result ≡ is_after before at }
{
    match before {
        Some(before) => before < at,
        None => true,
    }
}

/// An input that comes after one with the cycle `before`.
#[tactic(auto, unfolding(crate::specs::Checks::input_check, crate::specs::Values::input_of))]
fn input(value: &Value, before: Option<u64>, place: Place) -> Result<Input, Fault>
    ensures read { IsRead result
        (input_check before place (view value.now))
        (input_of (view value.now)) }
    ensures within { IfOk result (λ i. i.at ≤ most_cycles) }
    ensures after { IfOk result (λ i. is_after before i.at ≡ true) }
{
    let Some((at, word)) = two_integers(value) else {
        return Err(Fault::new(SetupNo::WrongType, place));
    };
    match (u64::try_from(at), u32::try_from(word)) {
        (Ok(at), Ok(word)) if at <= MOST_CYCLES && comes_after(before, at) => {
            Ok(Input { at, word })
        }
        _ => Err(Fault::new(SetupNo::OutOfRange, place)),
    }
}

/// The inputs of a list.
fn inputs_of(alloc: Global, items: &[Value], place: Place) -> Result<Inputs, SetupRefused>
    requires { length items.now ≤ most_inputs }
    ensures read { IsReadInMemory result
        (inputs_fault place (map view items.now))
        (map input_of (map view items.now)) }
    ensures rules { IfOk result AreInputs }
{
    let mut read = Vec::new(alloc);
    let mut before = None;
    for (index, value) in items.iter().enumerate() {
        let input = input(value, before, place.element(index as u32))?;
        before = Some(input.at);
        read.push(input)?;
    }
    Ok(Inputs::from_vec(read))
}

/// The inputs that a value lists.
#[tactic(auto, unfolding(crate::specs::Checks::list_check))]
fn inputs(alloc: Global, value: &Value, place: Place) -> Result<Inputs, SetupRefused>
    ensures read { IsReadInMemory result
        (list_check most_inputs inputs_fault place (view value.now))
        (map input_of (elements (view value.now))) }
    ensures rules { IfOk result AreInputs }
{
    let Some(items) = list(value) else {
        return Err(SetupRefused::Fault {
            code: SetupNo::WrongType,
            place,
        });
    };
    if items.len() > MOST_INPUTS {
        return Err(SetupRefused::Fault {
            code: SetupNo::TooMany,
            place,
        });
    }
    inputs_of(alloc, items, place)
}

/// The inputs under a key of a table, none where it is absent.
#[tactic(auto, unfolding(crate::specs::FaultOrder::key_fault))]
pub(crate) fn inputs_or_none(
    alloc: Global,
    table: &Table,
    key: &str,
    place: Place,
) -> Result<Inputs, SetupRefused>
    ensures read { IsReadInMemory result
        (key_fault (list_check most_inputs inputs_fault) false place
        (get_member key.now (table_view table.now)))
        (map input_of (elements_at key.now (table_view table.now))) }
    ensures rules { IfOk result AreInputs }
{
    match member(table, key) {
        Some(value) => inputs(alloc, value, place),
        None => Ok(Inputs::from_vec(Vec::new(alloc))),
    }
}
