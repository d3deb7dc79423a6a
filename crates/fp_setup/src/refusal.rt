//! Why a setup is refused, and where its fault is.

use std::alloc::{AllocError, AllocFailed};
use thiserror::Error;

/// The kind of a setup's fault. The numbers are those of refusal lines.
#[derive(Clone, Copy, Debug, PartialEq, Eq)]
pub enum SetupNo {
    /// The file has more than 262,144 bytes.
    TooLong = 1,
    /// The file is no TOML document.
    Toml = 2,
    /// A table has an unknown key.
    UnknownKey = 3,
    /// A required key is missing.
    MissingKey = 4,
    /// A value isn't of the key's type.
    WrongType = 5,
    /// A number, a text's length or a list's length is out of its range.
    OutOfRange = 6,
    /// A text isn't the name of a slot.
    BadSlot = 7,
    /// A text isn't the name of a mode.
    BadMode = 8,
    /// A text isn't the name of an owner of a region.
    BadRegion = 9,
    /// A confined thread has a permit.
    ConfinedPermit = 10,
    /// Two thread tables have one id.
    DoubleThread = 11,
    /// There are more than 8 thread tables, 256 loop tables, or 4,096 inputs of a thread.
    TooMany = 12,
}

/// The place of a fault in a setup.
#[derive(Clone, Copy, Debug, PartialEq, Eq)]
pub struct Place {
    /// 0 for the file as a whole, 1 for the top table, 2 for a `thread` table, 3 for a `loop`
    /// table.
    pub table: u8,
    /// Which of the `thread` or `loop` tables, from 0. It is 0 elsewhere.
    pub row: u32,
    /// 0 for the table itself, else the number of the key among the keys of its table, from 1.
    pub key: u8,
    /// 0 for the value itself, else the index of an element of the list, plus 1.
    pub item: u32,
}

impl Place {
    ghost use Rattle.std.specs.Prelude.{◌≡◌, ◌+◌, ◌<◌, ◌^◌};
    ghost use Rattle.fp_setup.specs.Faults.{no_place, top, thread_row};
    ghost use Rattle.fp_setup.specs.Faults.{loop_row, key_of, element_of};

    /// The file as a whole.
    pub(crate) fn none() -> Place
        ensures { result ≡ no_place }
    {
        Place::table(0, 0)
    }

    /// The top table.
    pub(crate) fn top() -> Place
        ensures { result ≡ top }
    {
        Place::table(1, 0)
    }

    /// The value of a key of the top table, by the key's number.
    pub(crate) fn top_key(key: u8) -> Place
        ensures { result ≡ key_of top key }
    {
        Place::top().key(key)
    }

    /// A table of a thread.
    pub(crate) fn thread(row: u32) -> Place
        ensures { result ≡ thread_row row }
    {
        Place::table(2, row)
    }

    /// A table of a loop.
    pub(crate) fn of_loop(row: u32) -> Place
        ensures { result ≡ loop_row row }
    {
        Place::table(3, row)
    }

    /// The place of a whole table.
    fn table(table: u8, row: u32) -> Place
        ensures { result ≡ record { table = table; row = row; key = 0; item = 0 } }
    {
        Place {
            table,
            row,
            key: 0,
            item: 0,
        }
    }

    /// The value of a key of this table, by the key's number.
    pub(crate) fn key(self, key: u8) -> Place
        ensures { result ≡ key_of self key }
    {
        Place {
            table: self.table,
            row: self.row,
            key,
            item: 0,
        }
    }

    /// An element of the list at this place.
    pub(crate) fn element(self, index: u32) -> Place
        requires { index + 1 < 2 ^ 32 }
        ensures { result ≡ element_of self index }
    {
        Place {
            table: self.table,
            row: self.row,
            key: self.key,
            item: index + 1,
        }
    }
}

/// A fault of a setup with its place.
#[derive(Clone, Copy, Debug, PartialEq, Eq)]
pub struct Fault {
    /// The kind of the fault.
    pub code: SetupNo,
    /// Where it is.
    pub place: Place,
}

impl Fault {
    ghost use Rattle.std.specs.Prelude.{◌≡◌};
    ghost use Rattle.fp_setup.specs.Faults.{fault_at};

    /// A fault at a place.
    pub(crate) fn new(code: SetupNo, place: Place) -> Fault
        ensures { result ≡ fault_at code place }
    {
        Fault { code, place }
    }
}

/// Why no setup was read.
#[derive(Clone, Copy, Debug, PartialEq, Eq, Error)]
pub enum SetupRefused {
    /// The setup's first fault and its place.
    #[error("setup fault {code:?} at {place:?}")]
    Fault { code: SetupNo, place: Place },
    /// Memory ran out.
    #[error("out of memory")]
    NoMemory,
}

impl From<Fault> for SetupRefused {
    ghost use Rattle.std.specs.Prelude.{◌≡◌};
    ghost use Rattle.fp_setup.specs.declared.refusal.SetupRefused.{SetupRefused};

    ghost from_gives = { λ f r. r ≡ SetupRefused.Fault f.code f.place };

    fn from(fault: Fault) -> SetupRefused {
        SetupRefused::Fault {
            code: fault.code,
            place: fault.place,
        }
    }
}

impl From<AllocError> for SetupRefused {
    ghost use Rattle.std.specs.Prelude.{◌≡◌};
    ghost use Rattle.fp_setup.specs.declared.refusal.SetupRefused.{SetupRefused};

    ghost from_gives = { λ _ r. r ≡ SetupRefused.NoMemory };

    fn from(_refused: AllocError) -> SetupRefused {
        SetupRefused::NoMemory
    }
}

impl<T: Drop> From<AllocFailed<T>> for SetupRefused {
    ghost use Rattle.std.specs.Prelude.{◌≡◌};
    ghost use Rattle.fp_setup.specs.declared.refusal.SetupRefused.{SetupRefused};

    ghost from_gives = { λ _ r. r ≡ SetupRefused.NoMemory };

    fn from(_refused: AllocFailed<T>) -> SetupRefused {
        SetupRefused::NoMemory
    }
}
