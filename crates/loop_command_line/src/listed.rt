//! A plant of a list.

ghost use Rattle.std.specs.Prelude.{◌≡◌};

use crate::kind::Kind;
use std::marker::Model;

/// A plant of a list: its kind and its numbers. A body and a motor have the step in which the load
/// begins, a table and a recording have one word or more, and a pipe has none.
#[derive(Drop)]
pub struct Listed {
    kind: Kind,
    words: Vec<u32>,
}

impl Model for Listed {
    ghost use Rattle.std.specs.Prelude.{◌≡◌, true, length};
    ghost use Rattle.loop_command_line.specs.Plants.{Listed, takes};

    ghost Value = { Listed };

    ghost view = { λ plant. record { kind = plant.kind; words = plant.words.items } };

    ghost invariant = { λ plant. takes plant.kind (length plant.words.items) ≡ true };
}

impl Listed {
    ghost use Rattle.std.specs.Prelude.{◌≡◌, Some, true, vec_len};
    ghost use Rattle.loop_command_line.specs.Plants.{takes, with_numbers};

    /// A plant of a kind with numbers, if the kind has so many.
    pub(crate) fn new(kind: Kind, words: Vec<u32>) -> Option<Listed>
        ensures { result ≡ with_numbers (Some kind) (Some words.items) }
    {
        if kind.takes(words.len()) {
            Some(Listed { kind, words })
        } else {
            None
        }
    }

    /// Its kind.
    pub fn kind(&self) -> Kind
        ensures { result ≡ self.now.kind }
    {
        self.kind
    }

    /// Its numbers.
    pub fn into_words(self) -> Vec<u32>
        ensures words { result.items ≡ self.words }
        ensures counted { takes self.kind (vec_len result) ≡ true }
    {
        self.words
    }
}
