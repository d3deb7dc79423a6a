//! A plant that replays recorded words: its word after n steps is entry n; after the last entry the
//! word stays.

ghost use Rattle.std.specs.Prelude.{◌≡◌, ◌<◌, vec_len};
ghost use Rattle.example_plants.specs.Recordings.{played_after, unplayed};

use loop_runs::Plant;
use std::marker::Model;

/// Recorded words, and the number of steps played, up to the last word. The words that steps take
/// are ignored.
#[derive(Drop)]
pub struct RecordedPlant {
    words: Vec<u32>,
    at: usize,
}

impl Model for RecordedPlant {
    ghost use Rattle.std.specs.Prelude.{◌<◌, length};
    ghost use Rattle.example_plants.specs.Recordings.{Recorded};

    ghost Value = { Recorded };

    ghost view = { λ r. record { words = r.words.items; at = r.at } };

    ghost invariant = { λ r. r.at < length r.words.items };
}

impl RecordedPlant {
    /// A plant with at least one recorded word.
    pub fn new(words: Vec<u32>) -> RecordedPlant
        requires { 0 < vec_len words }
        ensures { result ≡ unplayed words.items }
    {
        RecordedPlant { words, at: 0 }
    }
}

impl Plant for RecordedPlant {
    ghost response = { played_after };

    fn word(&self) -> u32 {
        self.words[self.at]
    }

    fn step(&mut self, _drive: u32) -> u32 {
        if self.at + 1 < self.words.len() {
            self.at += 1;
        }
        self.word()
    }
}
