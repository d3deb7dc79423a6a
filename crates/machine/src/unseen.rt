//! A run that puts nothing.

ghost use Rattle.std.specs.Prelude.{None};

use crate::observer::Observer;
use fp_io::{PutFailed, Sink};
use pipeline_core::{StageRegister, Stored};

/// An observer that ignores each turn.
#[derive(Drop)]
pub(crate) struct Unseen;

impl Observer for Unseen {
    ghost use Rattle.machine.specs.Unseen.{no_acts};

    ghost acts = { no_acts };

    #[inline(always)]
    fn retire(&mut self, _turn: &StageRegister<Stored>, _cycle: u64) -> bool {
        false
    }

    #[inline(always)]
    fn write<K: Sink>(&self, _out: &mut K) -> Result<(), PutFailed> {
        Ok(())
    }
}

/// A sink for an observer that puts nothing. It drops each byte, and its list of bytes is unknown.
#[derive(Drop)]
pub struct Nowhere;

impl Sink for Nowhere {
    ghost taken = { λ _. None };

    ghost faults = { λ _. 0 };

    fn put(&mut self, _bytes: &[u8]) -> Result<(), PutFailed> {
        Ok(())
    }
}
