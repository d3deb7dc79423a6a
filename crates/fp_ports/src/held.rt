//! A device that shows the words that it was fed.

ghost use Rattle.std.specs.Prelude.{◌≡◌, ℕ};
ghost use Rattle.fp_ports.specs.Kinds.{new_held, held_word};

use crate::device::Port;
use crate::feeds::Feeds;
use std::alloc::{AllocError, Global};
use std::marker::Model;

/// A device that shows 0 until the first fed cycle, and then the fed words.
#[derive(Drop)]
pub struct HeldPort {
    feeds: Feeds,
    latch: u32,
}

impl Model for HeldPort {
    ghost use Rattle.fp_ports.specs.Kinds.{HeldModel};

    ghost Value = { HeldModel };

    ghost view = { λ port. record { feeds = port.feeds; latch = port.latch } };
}

impl HeldPort {
    /// A device that shows 0 in every cycle, with 0 in its latch.
    pub fn new(alloc: Global) -> HeldPort
        ensures new { result ≡ new_held }
        ensures words { (c : ℕ) → ⟦<HeldPort as Port>⟧.word_at result c ≡ 0 }
        ensures latch { ⟦<HeldPort as Port>⟧.latched result ≡ 0 }
    {
        HeldPort {
            feeds: Feeds::new(alloc),
            latch: 0,
        }
    }
}

impl Port for HeldPort {
    ghost word_at = { held_word };

    ghost latched = { λ port. port.latch };

    fn feed(&mut self, at: u64, word: u32) -> Result<(), AllocError> {
        self.feeds.push(at, word)
    }

    fn read(&mut self, at: u64) -> u32 {
        self.feeds.word_at(at).unwrap_or(0)
    }

    fn write(&mut self, word: u32) {
        self.latch = word;
    }

    fn latch(&self) -> u32 {
        self.latch
    }

    fn forget(&mut self, before: u64) {
        self.feeds.forget(before);
    }
}
