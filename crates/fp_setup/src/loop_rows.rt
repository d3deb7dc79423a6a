//! The tables of loops.

ghost use Rattle.std.specs.Prelude.{◌≡◌, ◌<◌, ◌≤◌, length, map, false, IfOk};
ghost use Rattle.std.specs.List.{All};
ghost use Rattle.toml.specs.Data.{as_table, get_member};
ghost use Rattle.toml.specs.View.{table_view, view};
ghost use Rattle.fp_setup.specs.declared.loop_list.LoopSetup.{LoopSetup};
ghost use Rattle.fp_setup.specs.Loops.{AreLoops, IsLoop};
ghost use Rattle.fp_setup.specs.Faults.{loop_row};
ghost use Rattle.fp_setup.specs.Values.{elements, elements_at, members};
ghost use Rattle.fp_setup.specs.Checks.{list_check};
ghost use Rattle.fp_setup.specs.FaultOrder.{key_fault, loop_fault, loop_table_fault};
ghost use Rattle.fp_setup.specs.FaultOrder.{loops_fault, loops_from};
ghost use Rattle.fp_setup.specs.SetupOfTables.{loop_of};
ghost use Rattle.fp_setup.specs.Reading.{IsRead, IsReadInMemory};

use crate::bounds::Range;
use crate::keys::{member, needed_integer, no_other_key};
use crate::loop_list::{LoopSetup, Loops};
use crate::refusal::{Fault, Place, SetupNo, SetupRefused};
use crate::values::list;
use std::alloc::Global;
use toml::{Table, Value};

/// The most loops that a setup may have.
const MOST_LOOPS: usize = 256;

/// The largest bound that a loop may have.
const MOST_ROUNDS: u32 = 1_048_576;

/// The keys of a loop's table, in the order of their numbers.
const KEYS: [&str; 3] = ["head", "last", "bound"];

/// The loop of a table, for scratchpads of a size in bytes.
#[tactic(auto, unfolding(crate::proofs::Opened::loop_table))]
fn loop_table(table: &Table, size: u32, row: Place) -> Result<LoopSetup, Fault>
    requires low { 4 ≤ size }
    ensures read { IsRead result
        (loop_table_fault size row (table_view table.now))
        (loop_of (table_view table.now)) }
    ensures rules { IfOk result IsLoop }
    ensures inside { IfOk result (λ l. l.last < size) }
{
    no_other_key(table, &KEYS, row)?;
    let head = needed_integer(table, "head", Range::addresses(0, size), row.key(1))?;
    let last = needed_integer(table, "last", Range::addresses(head, size), row.key(2))?;
    let limit = needed_integer(table, "bound", Range::integers(0, MOST_ROUNDS), row.key(3))?;
    Ok(LoopSetup { head, last, limit })
}

/// The loop of a row.
fn loop_in(value: &Value, size: u32, row: Place) -> Result<LoopSetup, Fault>
    requires low { 4 ≤ size }
    ensures read { IsRead result
        (loop_fault size row (as_table (view value.now)))
        (loop_of (members (view value.now))) }
    ensures rules { IfOk result IsLoop }
    ensures inside { IfOk result (λ l. l.last < size) }
{
    match value.as_table() {
        Some(table) => loop_table(table, size, row),
        None => Err(Fault::new(SetupNo::WrongType, row)),
    }
}

/// The loops of a list.
fn loops_of(alloc: Global, items: &[Value], size: u32) -> Result<Loops, SetupRefused>
    requires few { length items.now ≤ 256 }
    requires low { 4 ≤ size }
    ensures read { IsReadInMemory result
        (loops_from size 0 (map view items.now))
        (map loop_of (map members (map view items.now))) }
    ensures rules { IfOk result AreLoops }
    ensures inside { IfOk result (All (λ (l : LoopSetup). l.last < size)) }
{
    let mut read = Vec::new(alloc);
    for (row, value) in items.iter().enumerate() {
        read.push(loop_in(value, size, Place::of_loop(row as u32))?)?;
    }
    Ok(Loops::from_vec(read))
}

/// The loops that a value lists.
#[tactic(auto, unfolding(crate::specs::Checks::list_check, crate::specs::FaultOrder::loops_fault))]
fn loops(alloc: Global, value: &Value, size: u32, place: Place) -> Result<Loops, SetupRefused>
    requires low { 4 ≤ size }
    ensures read { IsReadInMemory result
        (list_check 256 (loops_fault size) place (view value.now))
        (map loop_of (map members (elements (view value.now)))) }
    ensures rules { IfOk result AreLoops }
    ensures inside { IfOk result (All (λ (l : LoopSetup). l.last < size)) }
{
    let Some(items) = list(value) else {
        return Err(SetupRefused::Fault {
            code: SetupNo::WrongType,
            place,
        });
    };
    if items.len() > MOST_LOOPS {
        return Err(SetupRefused::Fault {
            code: SetupNo::TooMany,
            place,
        });
    }
    loops_of(alloc, items, size)
}

/// The loops under a key of a table, none where it is absent.
#[tactic(auto, unfolding(crate::specs::FaultOrder::key_fault))]
pub(crate) fn loops_or_none(
    alloc: Global,
    table: &Table,
    key: &str,
    size: u32,
    place: Place,
) -> Result<Loops, SetupRefused>
    requires low { 4 ≤ size }
    ensures read { IsReadInMemory result
        (key_fault (list_check 256 (loops_fault size)) false place
        (get_member key.now (table_view table.now)))
        (map loop_of (map members (elements_at key.now (table_view table.now)))) }
    ensures rules { IfOk result AreLoops }
    ensures inside { IfOk result (All (λ (l : LoopSetup). l.last < size)) }
{
    match member(table, key) {
        Some(value) => loops(alloc, value, size, place),
        None => Ok(Loops::from_vec(Vec::new(alloc))),
    }
}
