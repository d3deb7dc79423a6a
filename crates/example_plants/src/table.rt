//! A plant with a table: its word is the entry for the last two words that it took.

ghost use Rattle.std.specs.Prelude.{◌≡◌, ◌<◌, vec_len};
ghost use Rattle.example_plants.specs.Tables.{entry_after, entry_of, unused};

use loop_runs::Plant;
use std::marker::Model;

/// A table of words, and the last two words that were taken, 0 before the first.
#[derive(Drop)]
pub struct TablePlant {
    words: Vec<u32>,
    before: u32,
    last: u32,
}

impl Model for TablePlant {
    ghost use Rattle.std.specs.Prelude.{◌<◌, length};
    ghost use Rattle.example_plants.specs.Tables.{Tabled};

    ghost Value = { Tabled };

    ghost view = { λ t. record { words = t.words.items; before = t.before; last = t.last } };

    ghost invariant = { λ t. 0 < length t.words.items };
}

impl TablePlant {
    /// A plant with a table of at least one word.
    pub fn new(words: Vec<u32>) -> TablePlant
        requires { 0 < vec_len words }
        ensures { result ≡ unused words.items }
    {
        TablePlant {
            words,
            before: 0,
            last: 0,
        }
    }

    /// The entry for the last two words.
    fn entry(&self) -> u32
        ensures { result ≡ entry_of self.now }
    {
        let key = u64::from(self.last) + 3 * u64::from(self.before);
        let index = key % self.words.len() as u64;
        self.words[index as usize]
    }
}

impl Plant for TablePlant {
    ghost response = { entry_after };

    fn word(&self) -> u32 {
        self.entry()
    }

    fn step(&mut self, drive: u32) -> u32 {
        self.before = self.last;
        self.last = drive;
        self.entry()
    }
}
