//! Kinds of devices that the crates below don't have.
ghost use Rattle.std.specs.Prelude.{◌%◌, ◌^◌, nat_le, if◌then◌else◌};
ghost use Rattle.std.specs.Option.{option_map_or};
ghost use Rattle.fp_ports.specs.Kinds.{held_word};

use crate::noted::Notes;
use fp_ports::{HeldPort, Port};
use std::alloc::{AllocError, Global};
use std::rc::Rc;

/// The one word that a device was fed.
#[derive(Clone, Copy)]
struct Fed {
    at: u64,
    word: u32,
}

/// Shows the number of the cycle until it is fed, and refuses a second feeding.
#[derive(Drop)]
pub struct StepPort {
    fed: Option<Fed>,
    latch: u32,
}

impl StepPort {
    pub fn new() -> StepPort {
        StepPort {
            fed: None,
            latch: 0,
        }
    }
}

impl Port for StepPort {
    ghost word_at = { λ port c. option_map_or
        (λ fed. if nat_le fed.at c then fed.word else c % 2 ^ 32) port.fed (c % 2 ^ 32) };

    ghost latched = { λ port. port.latch };

    fn feed(&mut self, at: u64, word: u32) -> Result<(), AllocError> {
        if self.fed.is_some() {
            return Err(AllocError);
        }
        self.fed = Some(Fed { at, word });
        Ok(())
    }

    fn read(&mut self, at: u64) -> u32 {
        match self.fed {
            Some(fed) if fed.at <= at => fed.word,
            _ => (at & 0xffff_ffff) as u32,
        }
    }

    fn write(&mut self, word: u32) {
        self.latch = word;
    }

    fn latch(&self) -> u32 {
        self.latch
    }
}

/// Counts its calls in the notes, and shows 0.
#[derive(Drop)]
pub struct CountPort {
    latch: u32,
    notes: Rc<Notes>,
}

impl CountPort {
    pub fn boxed(alloc: Global, notes: &Rc<Notes>) -> Result<Box<CountPort>, AllocError> {
        let notes = notes.clone()?;
        Ok(Box::new(alloc, CountPort { latch: 0, notes })?)
    }

    /// Counts a call of the device.
    fn count(&self) {
        self.notes.count();
    }
}

impl Port for CountPort {
    ghost word_at = { λ _ c. 0 };

    ghost latched = { λ port. port.latch };

    fn feed(&mut self, _at: u64, _word: u32) -> Result<(), AllocError> {
        self.count();
        Err(AllocError)
    }

    fn read(&mut self, _at: u64) -> u32 {
        self.count();
        0
    }

    fn write(&mut self, word: u32) {
        self.count();
        self.latch = word;
    }

    fn latch(&self) -> u32 {
        self.count();
        self.latch
    }
}

/// Holds the words it is fed, and counts its drop in the notes.
pub struct DropPort {
    held: HeldPort,
    notes: Rc<Notes>,
}

impl DropPort {
    pub fn boxed(alloc: Global, notes: &Rc<Notes>) -> Result<Box<DropPort>, AllocError> {
        let (held, notes) = (HeldPort::new(alloc), notes.clone()?);
        Ok(Box::new(alloc, DropPort { held, notes })?)
    }
}

impl Drop for DropPort {
    fn drop(self) {
        self.notes.drops.set(self.notes.drops.get().wrapping_add(1));
        let DropPort { held: _, notes: _ } = self;
    }
}

impl Port for DropPort {
    ghost word_at = { λ port c. held_word port.held c };

    ghost latched = { λ port. port.held.latch };

    fn feed(&mut self, at: u64, word: u32) -> Result<(), AllocError> {
        self.held.feed(at, word)
    }

    fn read(&mut self, at: u64) -> u32 {
        self.held.read(at)
    }

    fn write(&mut self, word: u32) {
        self.held.write(word);
    }

    fn latch(&self) -> u32 {
        self.held.latch()
    }
}
