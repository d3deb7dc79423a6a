//! A device that shows a ramp. It is the example of a custom device.

ghost use Rattle.std.specs.Prelude.{◌≡◌, ℕ, ◌<◌};
ghost use Rattle.fp_ports.specs.Ramp.{new_ramp, ramp, shown_word};

use crate::device::Port;
use crate::held::HeldPort;
use std::alloc::{AllocError, Global};
use std::marker::Model;

/// A device that shows a ramp until the first fed cycle, and then the fed words.
#[derive(Drop)]
pub struct RampPort {
    every: u64,
    first: Option<u64>,
    held: HeldPort,
}

impl Model for RampPort {
    ghost use Rattle.std.specs.Prelude.{◌<◌};
    ghost use Rattle.fp_ports.specs.Ramp.{Ramp};

    ghost Value = { Ramp };

    ghost view = { λ port. record { every = port.every; first = port.first; held = port.held } };

    ghost invariant = { λ port. 0 < port.every };
}

impl RampPort {
    /// A device that shows 0 for `every` cycles from cycle 0 on, then 1 for `every` cycles, and so
    /// on, with 0 in its latch. `every` is at least 1.
    pub fn new(alloc: Global, every: u64) -> RampPort
        requires { 0 < every }
        ensures new { result ≡ new_ramp every }
        ensures words { (c : ℕ) → ⟦<RampPort as Port>⟧.word_at result c ≡ ramp every c }
        ensures latch { ⟦<RampPort as Port>⟧.latched result ≡ 0 }
    {
        RampPort {
            every,
            first: None,
            held: HeldPort::new(alloc),
        }
    }
}

impl Port for RampPort {
    ghost word_at = { shown_word };

    ghost latched = { λ port. port.held.latch };

    fn feed(&mut self, at: u64, word: u32) -> Result<(), AllocError> {
        self.held.feed(at, word)?;
        match self.first {
            Some(first) if first <= at => {}
            _ => self.first = Some(at),
        }
        Ok(())
    }

    fn read(&mut self, at: u64) -> u32 {
        match self.first {
            Some(first) if first <= at => self.held.read(at),
            _ => (at / self.every % 0x1_0000_0000) as u32,
        }
    }

    fn write(&mut self, word: u32) {
        self.held.write(word);
    }

    fn latch(&self) -> u32 {
        self.held.latch()
    }

    fn forget(&mut self, before: u64) {
        self.held.forget(before);
    }
}
