//! A device that shows a square wave.

ghost use Rattle.std.specs.Prelude.{◌≡◌, ℕ, ◌<◌, ◌/◌, ◌%◌};
ghost use Rattle.fp_ports.specs.Kinds.{new_wave, wave_word};

use crate::device::Port;
use crate::feeds::Feeds;
use std::alloc::{AllocError, Global};
use std::marker::Model;

/// A device that shows a square wave until the first fed cycle, and then the fed words.
#[derive(Drop)]
pub struct WavePort {
    half: u64,
    feeds: Feeds,
    latch: u32,
}

impl Model for WavePort {
    ghost use Rattle.std.specs.Prelude.{◌<◌};
    ghost use Rattle.fp_ports.specs.Kinds.{WaveModel};

    ghost Value = { WaveModel };

    ghost view = { λ port. record { half = port.half; feeds = port.feeds; latch = port.latch } };

    ghost invariant = { λ port. 0 < port.half };
}

impl WavePort {
    /// A device that shows 0 for `half` cycles from cycle 0 on, then 1 for `half` cycles, and so
    /// on, with 0 in its latch. `half` is at least 1.
    pub fn new(alloc: Global, half: u64) -> WavePort
        requires { 0 < half }
        ensures new { result ≡ new_wave half }
        ensures words { (c : ℕ) → ⟦<WavePort as Port>⟧.word_at result c ≡ c / half % 2 }
        ensures latch { ⟦<WavePort as Port>⟧.latched result ≡ 0 }
    {
        WavePort {
            half,
            feeds: Feeds::new(alloc),
            latch: 0,
        }
    }
}

impl Port for WavePort {
    ghost word_at = { wave_word };

    ghost latched = { λ port. port.latch };

    fn feed(&mut self, at: u64, word: u32) -> Result<(), AllocError> {
        self.feeds.push(at, word)
    }

    fn read(&mut self, at: u64) -> u32 {
        let wave = (at / self.half % 2) as u32;
        self.feeds.word_at(at).unwrap_or(wave)
    }

    fn write(&mut self, word: u32) {
        self.latch = word;
    }

    fn latch(&self) -> u32 {
        self.latch
    }

    fn forget(&mut self, before: u64) {
        self.feeds.forget(before);
    }
}
