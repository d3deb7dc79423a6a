//! Reads the setup of a file's bytes.

ghost use Rattle.std.specs.Prelude.{◌≡◌, ◌⊎◌, false, IfOk, IfErr, Ok, Some, codes};
ghost use Rattle.toml.specs.Data.{get_member};
ghost use Rattle.toml.specs.Errors.{IsMemory};
ghost use Rattle.toml.specs.View.{table_view};
ghost use Rattle.fp_setup.specs.Settings.{size_of};
ghost use Rattle.fp_setup.specs.Faults.{key_of, no_place, top};
ghost use Rattle.fp_setup.specs.Checks.{integer_check};
ghost use Rattle.fp_setup.specs.FaultOrder.{integers, key_fault, top_fault};
ghost use Rattle.fp_setup.specs.AcceptedSetups.{AcceptedKeepRules};
ghost use Rattle.fp_setup.specs.SetupOfTables.{settings, version_at};
ghost use Rattle.fp_setup.specs.Places.{HasPlace};
ghost use Rattle.fp_setup.specs.Reading.{IsRead, IsReadInMemory};
ghost use Rattle.fp_setup.specs.Setup.{IsFaultOf, document, setup, setup_in, setup_of};

use crate::bounds::{Range, size_of_version};
use crate::keys::{needed_eight, needed_integer, needed_name, no_other_key, optional_integer};
use crate::loop_rows::loops_or_none;
use crate::nibble_list::word_of_modes;
use crate::refusal::{Fault, Place, SetupNo, SetupRefused};
use crate::setup::Setup;
use crate::thread_rows::threads_or_none;
use crate::vocabulary::Words;
use std::alloc::Global;
use toml::Table;

/// The most bytes that a setup may have.
pub const MOST_SETUP_BYTES: usize = 262_144;

/// The keys of the top table, in the order of their numbers.
const KEYS: [&str; 8] = [
    "version",
    "period",
    "image",
    "slots",
    "i_regions",
    "d_regions",
    "thread",
    "loop",
];

/// The version of a setup, 1 where the key is absent.
fn version(table: &Table) -> Result<u32, Fault>
    ensures read { IsRead result
        (key_fault (integer_check (integers 1 2)) false (key_of top 1)
        (get_member (codes "version") (table_view table.now)))
        (version_at (table_view table.now)) }
    ensures one_of { IfOk result (λ v. (v ≡ 1) ⊎ (v ≡ 2)) }
{
    match optional_integer(table, "version", Range::integers(1, 2), Place::top_key(1))? {
        Some(version) => Ok(version),
        None => Ok(1),
    }
}

/// The refusal of a text that `toml` doesn't accept.
fn text_refusal(error: &toml::de::Error) -> SetupRefused
    ensures memory { IsMemory error.now → result ≡ SetupRefused.NoMemory }
    ensures fault { ¬ (IsMemory error.now) → result ≡ SetupRefused.Fault SetupNo.Toml no_place }
{
    if error.is_memory() {
        return SetupRefused::NoMemory;
    }
    SetupRefused::Fault {
        code: SetupNo::Toml,
        place: Place::none(),
    }
}

/// The table of a document.
#[tactic(auto, using(crate::proofs::Lists::utf8_test))]
fn document_of(alloc: Global, bytes: &[u8]) -> Result<Table, SetupRefused>
    ensures ok { IfOk result (λ table. document bytes.now ≡ Some (table_view table)) }
    ensures refused { IfErr result (IsFaultOf (setup_in (document bytes.now))) }
{
    let Ok(text) = std::str::from_utf8(bytes) else {
        return Err(SetupRefused::Fault {
            code: SetupNo::Toml,
            place: Place::none(),
        });
    };
    match toml::table_from_str(alloc, text) {
        Ok(table) => Ok(table),
        Err(error) => Err(text_refusal(&error)),
    }
}

/// The setup of the top table.
fn top_table(alloc: Global, table: &Table) -> Result<Setup, SetupRefused>
    ensures { IsReadInMemory result
        (top_fault (size_of (version_at (table_view table.now))) (table_view table.now))
        (settings (table_view table.now)) }
{
    no_other_key(table, &KEYS, Place::top())?;
    let version = version(table)?;
    let size = size_of_version(version);
    let period = needed_integer(table, "period", Range::integers(1, 1000), Place::top_key(2))?;
    let image = needed_name(alloc, table, "image", 1, 255, Place::top_key(3))?;
    let slots = needed_eight(table, "slots", Words::Slots, Place::top_key(4))?;
    let iregions = needed_eight(table, "i_regions", Words::Owners, Place::top_key(5))?;
    let dregions = needed_eight(table, "d_regions", Words::Owners, Place::top_key(6))?;
    let rows = threads_or_none(alloc, table, "thread", size, Place::top_key(7))?;
    let loops = loops_or_none(alloc, table, "loop", size, Place::top_key(8))?;
    Ok(Setup {
        version,
        period,
        slots,
        modes: word_of_modes(&rows.modes),
        iregions,
        dregions,
        image,
        threads: rows.threads,
        loops,
    })
}

/// The setup of a table.
#[tactic(auto, unfolding(crate::specs::Setup::setup_of))]
fn setup_in_table(alloc: Global, table: &Table) -> Result<Setup, SetupRefused>
    ensures ok { IfOk result (λ s. setup_of (table_view table.now) ≡ Ok s) }
    ensures refused { IfErr result (IsFaultOf (setup_of (table_view table.now))) }
{
    top_table(alloc, table)
}

/// Reads a setup file: returns its setup, or its first fault.
///
/// # Errors
///
/// [`SetupRefused::Fault`] exactly if the file has a fault, with the first one in the order of the
/// checks and its place. [`SetupRefused::NoMemory`] if memory ran out.
#[tactic(auto, using(crate::proofs::PlaceLaws::fault_of_setup_at_place))]
pub fn read_setup(alloc: Global, bytes: &[u8]) -> Result<Setup, SetupRefused>
    ensures ok { IfOk result (λ s. setup bytes.now ≡ Ok s) }
    ensures refused { IfErr result (IsFaultOf (setup bytes.now)) }

    // The table and the key of the place exist.
    ensures place { IfErr result HasPlace }
{
    setup_in_bytes(alloc, bytes)
}

/// An accepted setup keeps the rules of its values. The contract is the theorem; the call does
/// nothing.
pub fn accepted_keep_rules()
    ensures { AcceptedKeepRules }
{}

/// The setup of the bytes of a file.
#[tactic(auto, unfolding(crate::specs::Setup::setup))]
fn setup_in_bytes(alloc: Global, bytes: &[u8]) -> Result<Setup, SetupRefused>
    ensures ok { IfOk result (λ s. setup bytes.now ≡ Ok s) }
    ensures refused { IfErr result (IsFaultOf (setup bytes.now)) }
{
    if bytes.len() > MOST_SETUP_BYTES {
        return Err(SetupRefused::Fault {
            code: SetupNo::TooLong,
            place: Place::none(),
        });
    }
    let table = document_of(alloc, bytes)?;
    setup_in_table(alloc, &table)
}
