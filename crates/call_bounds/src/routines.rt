//! The routines that a section of code may call.

ghost use Rattle.std.specs.Prelude.{◌≡◌};

use std::marker::Model;

/// A routine: the words of code from its head to its last word.
#[derive(Clone, Copy, Debug)]
pub struct Routine {
    /// The address of the first word.
    pub head: u32,
    /// The address of the last word.
    pub last: u32,
}

/// A list of at most 64 routines. Each has head and last multiples of 4, head at most last, and
/// last at most 65,532. Each head is above the last of the routine before it. Contracts see the
/// list. These rules are the type's invariant, as for the lists of a setup.
#[derive(Drop)]
pub struct Routines {
    items: Vec<Routine>,
}

impl Model for Routines {
    ghost use Rattle.std.specs.Prelude.{List};
    ghost use Rattle.call_bounds.specs.declared.routines.Routine.{Routine};
    ghost use Rattle.call_bounds.specs.Routines.{AreRoutines};

    ghost Value = { List Routine };

    ghost view = { λ r. r.items.items };

    ghost invariant = { λ r. AreRoutines r.items.items };
}

impl Routines {
    ghost use Rattle.call_bounds.specs.Routines.{AreRoutines};

    /// The routines of a list.
    pub fn from_vec(items: Vec<Routine>) -> Routines
        requires { AreRoutines items.items }
        ensures { result ≡ items.items }
    {
        Routines { items }
    }

    /// The routines, from the lowest to the highest.
    pub fn as_slice(&self) -> &[Routine]
        ensures value { result.now ≡ self.now }
        ensures rules { AreRoutines result.now }
    {
        self.items.as_slice()
    }
}
