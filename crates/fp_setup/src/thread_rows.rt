//! The tables of threads.

ghost use Rattle.std.specs.Prelude.{◌≡◌, ◌<◌, ◌≤◌, ◌==◌, length, map, true};
ghost use Rattle.std.specs.Prelude.{false, nat_lt, IfOk, [], slice_set, replicate};
ghost use Rattle.std.specs.List.{All, list_all, list_any};
ghost use Rattle.toml.specs.Data.{Data, as_table, get_member};
ghost use Rattle.toml.specs.View.{table_view, view};
ghost use Rattle.region_guard.specs.MemoryMap.{large_size};
ghost use Rattle.fp_setup.specs.declared.refusal.Place.{Place};
ghost use Rattle.fp_setup.specs.declared.thread_list.ThreadSetup.{ThreadSetup};
ghost use Rattle.fp_setup.specs.Threads.{AreThreads, IsThread};
ghost use Rattle.fp_setup.specs.Values.{as_list, elements, elements_at, members};
ghost use Rattle.fp_setup.specs.Checks.{list_check};
ghost use Rattle.fp_setup.specs.FaultOrder.{key_fault, thread_fault, thread_table_fault};
ghost use Rattle.fp_setup.specs.FaultOrder.{threads_fault, threads_from};
ghost use Rattle.fp_setup.specs.SetupOfTables.{id_at, mode_at, modes_of, thread_setup};
ghost use Rattle.fp_setup.specs.SetupOfTables.{threads_of, default_thread, unnamed_mode};
ghost use Rattle.fp_setup.specs.Rows.{thread_row_of, rows_of};
ghost use Rattle.fp_setup.specs.Reading.{IsReadInMemory};

use crate::bounds::Range;
use crate::input_rows::inputs_or_none;
use crate::keys::{
    member, needed_fresh, needed_integer, needed_word, no_other_key, optional_integer,
    permit_or_false, truth_or_false,
};
use crate::refusal::{Place, SetupNo, SetupRefused};
use crate::thread_list::{ThreadSetup, Threads};
use crate::values::list;
use crate::vocabulary::Words;
use std::alloc::Global;
use timer_unit::MOST_CYCLES;
use toml::{Table, Value};

/// The most tables of threads that a setup may have.
const MOST_ROWS: usize = 8;

/// The mode of a thread without a table.
const UNNAMED_MODE: u8 = 3;

/// The keys of a thread's table, in the order of their numbers.
const KEYS: [&str; 7] = [
    "id", "mode", "entry", "confined", "permit", "unplug", "inputs",
];

/// The settings in a thread's table.
#[derive(Drop)]
pub(crate) struct ThreadRow {
    pub id: u8,
    pub mode: u8,
    pub thread: ThreadSetup,
}

/// The settings of the eight threads by the tables: their modes, and the rest.
#[derive(Drop)]
pub(crate) struct ThreadRows {
    pub modes: [u8; 8],
    pub threads: Threads,
}

impl ThreadRows {
    /// Before any table: no thread has one.
    fn unnamed(alloc: Global) -> ThreadRows
        ensures modes { result.modes ≡ replicate 8 unnamed_mode }
        ensures threads { result.threads ≡ replicate 8 default_thread }
    {
        ThreadRows {
            modes: [UNNAMED_MODE; 8],
            threads: Threads::unnamed(alloc),
        }
    }

    /// Puts the settings of a table in the place of its thread.
    fn put(&mut self, row: ThreadRow)
        requires id { row.id < 8 }
        requires rules { IsThread row.thread }
        requires eight { length self.old.modes ≡ 8 }
        ensures modes { self.new.modes ≡ slice_set self.old.modes row.id row.mode }
        ensures threads { self.new.threads ≡ slice_set self.old.threads row.id row.thread }
    {
        self.modes[row.id as usize] = row.mode;
        self.threads.set(row.id, row.thread);
    }
}

/// The cycle from which on issues find no port, in 64 bits.
fn as_cycle(moment: Option<u32>) -> Option<u64>
    ensures { result ≡ moment }
{
    match moment {
        Some(cycle) => Some(u64::from(cycle)),
        None => None,
    }
}

/// The settings in a thread's table, for scratchpads of a size in bytes, after the tables with some
/// ids.
fn thread_table(
    alloc: Global,
    table: &Table,
    size: u32,
    ids: &[u8],
    row: Place,
) -> Result<ThreadRow, SetupRefused>
    requires low { 4 ≤ size }
    requires high { size ≤ large_size }
    ensures read { IsReadInMemory result
        (thread_table_fault size ids.now row (table_view table.now))
        (thread_row_of (table_view table.now)) }
    ensures id { IfOk result (λ r. r.id < 8) }
    ensures not_taken { IfOk result (λ r. list_any (λ k. k == r.id) ids.now ≡ false) }
    ensures mode { IfOk result (λ r. r.mode < 4) }
    ensures rules { IfOk result (λ r. IsThread r.thread) }
    ensures inside { IfOk result (λ r. r.thread.entry < size) }
{
    no_other_key(table, &KEYS, row)?;
    let id = needed_fresh(table, "id", Range::integers(0, 7), ids, row.key(1))?;
    let mode = needed_word(table, "mode", Words::Modes, row.key(2))?;
    let entry = needed_integer(table, "entry", Range::addresses(0, size), row.key(3))?;
    let confined = truth_or_false(table, "confined", row.key(4))?;
    let permit = permit_or_false(table, "permit", confined, row.key(5))?;
    let unplug = optional_integer(
        table,
        "unplug",
        Range::integers(0, MOST_CYCLES as u32),
        row.key(6),
    )?;
    let inputs = inputs_or_none(alloc, table, "inputs", row.key(7))?;
    Ok(ThreadRow {
        id,
        mode,
        thread: ThreadSetup {
            entry,
            confined,
            permit,
            unplug: as_cycle(unplug),
            inputs,
        },
    })
}

/// The settings in a thread's row.
fn thread_in(
    alloc: Global,
    value: &Value,
    size: u32,
    ids: &[u8],
    row: Place,
) -> Result<ThreadRow, SetupRefused>
    requires low { 4 ≤ size }
    requires high { size ≤ large_size }
    ensures read { IsReadInMemory result
        (thread_fault size ids.now row (as_table (view value.now)))
        (thread_row_of (members (view value.now))) }
    ensures id { IfOk result (λ r. r.id < 8) }
    ensures not_taken { IfOk result (λ r. list_any (λ k. k == r.id) ids.now ≡ false) }
    ensures mode { IfOk result (λ r. r.mode < 4) }
    ensures rules { IfOk result (λ r. IsThread r.thread) }
    ensures inside { IfOk result (λ r. r.thread.entry < size) }
{
    match value.as_table() {
        Some(table) => thread_table(alloc, table, size, ids, row),
        None => Err(SetupRefused::Fault {
            code: SetupNo::WrongType,
            place: row,
        }),
    }
}

/// The settings of the threads by the rows of a list.
fn threads_in(alloc: Global, items: &[Value], size: u32) -> Result<ThreadRows, SetupRefused>
    requires few { length items.now ≤ 8 }
    requires low { 4 ≤ size }
    requires high { size ≤ large_size }
    ensures read { IsReadInMemory result
        (threads_from size 0 [] (map view items.now))
        (rows_of (map members (map view items.now))) }
    ensures modes { IfOk result (λ r. list_all (λ n. nat_lt n 4) r.modes ≡ true) }
    ensures rules { IfOk result (λ r. AreThreads r.threads) }
    ensures inside { IfOk result (λ r. All (λ (t : ThreadSetup). t.entry < size) r.threads) }
{
    let mut rows = ThreadRows::unnamed(alloc);
    let mut ids = [0; 8];
    for (index, value) in items.iter().enumerate() {
        let row = thread_in(
            alloc,
            value,
            size,
            &ids[..index],
            Place::thread(index as u32),
        )?;
        ids[index] = row.id;
        rows.put(row);
    }
    Ok(rows)
}

/// The settings of the threads by the rows that a value lists.
#[tactic(auto, unfolding(crate::proofs::Opened::threads))]
fn threads(
    alloc: Global,
    value: &Value,
    size: u32,
    place: Place,
) -> Result<ThreadRows, SetupRefused>
    requires low { 4 ≤ size }
    requires high { size ≤ large_size }
    ensures read { IsReadInMemory result
        (list_check 8 (threads_fault size) place (view value.now))
        (rows_of (map members (elements (view value.now)))) }
    ensures modes { IfOk result (λ r. list_all (λ n. nat_lt n 4) r.modes ≡ true) }
    ensures rules { IfOk result (λ r. AreThreads r.threads) }
    ensures inside { IfOk result (λ r. All (λ (t : ThreadSetup). t.entry < size) r.threads) }
{
    let Some(items) = list(value) else {
        return Err(SetupRefused::Fault {
            code: SetupNo::WrongType,
            place,
        });
    };
    if items.len() > MOST_ROWS {
        return Err(SetupRefused::Fault {
            code: SetupNo::TooMany,
            place,
        });
    }
    threads_in(alloc, items, size)
}

/// The settings of the threads without any table.
#[tactic(auto, unfolding(crate::proofs::Opened::no_threads))]
fn no_threads(alloc: Global) -> ThreadRows
    ensures read { result ≡ rows_of [] }
    ensures modes { list_all (λ n. nat_lt n 4) result.modes ≡ true }
    ensures rules { AreThreads result.threads }
    ensures entries { All (λ (t : ThreadSetup). t.entry ≡ 0) result.threads }
{
    ThreadRows::unnamed(alloc)
}

/// The settings of the threads by the rows under a key of a table.
#[tactic(auto, unfolding(crate::specs::FaultOrder::key_fault))]
pub(crate) fn threads_or_none(
    alloc: Global,
    table: &Table,
    key: &str,
    size: u32,
    place: Place,
) -> Result<ThreadRows, SetupRefused>
    requires low { 4 ≤ size }
    requires high { size ≤ large_size }
    ensures read { IsReadInMemory result
        (key_fault (list_check 8 (threads_fault size)) false place
        (get_member key.now (table_view table.now)))
        (rows_of (map members (elements_at key.now (table_view table.now)))) }
    ensures modes { IfOk result (λ r. list_all (λ n. nat_lt n 4) r.modes ≡ true) }
    ensures rules { IfOk result (λ r. AreThreads r.threads) }
    ensures inside { IfOk result (λ r. All (λ (t : ThreadSetup). t.entry < size) r.threads) }
{
    match member(table, key) {
        Some(value) => threads(alloc, value, size, place),
        None => Ok(no_threads(alloc)),
    }
}
