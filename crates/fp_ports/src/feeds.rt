//! The words that were fed to a device.

ghost use Rattle.std.specs.Prelude.{◌≡◌, ◌≤◌, [], ◌∷◌, is_ok, drop, length, reverse};
ghost use Rattle.std.specs.Prelude.{find, nat_le, option_copied, if◌then◌else◌};
ghost use Rattle.fp_ports.specs.Kinds.{fed_word, kept_from};

use std::alloc::{AllocError, Global};
use std::marker::Model;

/// A word that a device shows from a cycle on.
#[derive(Clone, Copy)]
pub struct Feed {
    /// The cycle from which on the word is shown.
    pub at: u64,
    /// The word.
    pub word: u32,
}

/// The words that were fed, seen as a list with the newest first.
#[derive(Drop)]
pub struct Feeds {
    fed: Vec<Feed>,
}

impl Model for Feeds {
    ghost use Rattle.std.specs.Prelude.{List, reverse};
    ghost use Rattle.fp_ports.specs.declared.feeds.Feed.{Feed};

    ghost Value = { List Feed };

    ghost view = { λ feeds. reverse feeds.fed.items };
}

impl Feeds {
    /// No words.
    pub fn new(alloc: Global) -> Feeds
        ensures { result ≡ [] }
    {
        Feeds {
            fed: Vec::new(alloc),
        }
    }

    /// Adds a word to be shown from the cycle `at` on.
    ///
    /// # Errors
    ///
    /// Out of memory; nothing was added.
    pub fn push(&mut self, at: u64, word: u32) -> Result<(), AllocError>
        ensures { self.new ≡ (if is_ok result then record { at = at; word = word } ∷ self.old
            else self.old) }
    {
        self.fed.push(Feed { at, word })?;
        Ok(())
    }

    /// Forgets the words that no cycle from `before` on shows. It allocates no memory.
    pub fn forget(&mut self, before: u64)
        ensures { self.new ≡ kept_from before self.old }
    {
        let unseen = count_unseen(&self.fed, before);
        drop(self.fed.drain(..unseen));
    }

    /// The word that was fed for a cycle, if one was.
    pub fn word_at(&self, at: u64) -> Option<u32>
        ensures { result ≡ fed_word self.now at }
    {
        newest(&self.fed, at).map(|feed| feed.word)
    }
}

/// The last feed that is at or before a cycle.
fn newest(fed: &[Feed], at: u64) -> Option<&Feed>
    ensures { option_copied result ≡ find (λ feed. nat_le feed.at at) (reverse fed.entry.now) }
{
    fed.iter().rev().find(|feed| feed.at <= at)
}

/// The number of oldest feeds that no cycle from `before` on shows.
fn count_unseen(fed: &[Feed], before: u64) -> usize
    ensures kept { reverse (drop result fed.entry.now) ≡ kept_from before (reverse fed.entry.now) }
    ensures within { result ≤ length fed.entry.now }
{
    match fed.iter().rev().position(|feed| feed.at <= before) {
        Some(newer) => fed.len() - newer - 1,
        None => 0,
    }
}
