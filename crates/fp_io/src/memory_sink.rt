//! A sink in memory.

ghost use Rattle.std.specs.Prelude.{◌≡◌, ℕ, ◌-◌, ◌^◌, ◌<◌, ◌≤◌, ◌↔◌, [], ◌∷◌, ◌++◌};
ghost use Rattle.std.specs.Prelude.{Some, IsTrue, IsErr, IfOk, is_ok, if◌then◌else◌};
ghost use Rattle.fp_io.specs.Listed.{cut_of};
ghost use Rattle.fp_io.specs.Memory.{empty_sink, put_fails, put_into, FaultsAreCut};

use crate::sink::{PutFailed, Sink};
use std::alloc::{AllocError, Global};
use std::marker::Model;

/// A call of `put` that fails.
#[derive(Clone, Copy)]
pub struct Cut {
    /// The number of the call, counted from 0.
    pub call: u64,
    /// The most bytes that it takes.
    pub taken: usize,
}

/// A sink in memory with a fixed capacity. Chosen calls of `put` fail.
///
/// Its contract exposes the bytes taken so far. `put` allocates no memory: it writes into the
/// memory allocated by `new`.
#[derive(Drop)]
pub struct MemSink {
    bytes: Vec<u8>,
    room: usize,
    cuts: Vec<Cut>,
    calls: u64,
    faults: u64,
}

impl Model for MemSink {
    ghost use Rattle.std.specs.Vec.{vec_capacity};
    ghost use Rattle.fp_io.specs.Memory.{MemorySink, SinkIsSound};

    ghost Value = { MemorySink };

    ghost view = { λ s. record {
      bytes = s.bytes.items;
      room = s.room;
      cuts = s.cuts.items;
      calls = s.calls;
      faults = s.faults;
    } };

    ghost invariant = { λ s.
        SinkIsSound s.bytes.items s.room (vec_capacity s.bytes) s.cuts.items s.calls s.faults };
}

impl MemSink {
    /// A sink with room for `room` bytes, allocated here, and no call that fails.
    ///
    /// # Errors
    ///
    /// Out of memory.
    pub fn new(alloc: Global, room: usize) -> Result<MemSink, AllocError>
        ensures { IfOk result (λ sink. sink ≡ empty_sink room) }
    {
        Ok(MemSink {
            bytes: Vec::with_capacity(alloc, room)?,
            room,
            cuts: Vec::new(alloc),
            calls: 0,
            faults: 0,
        })
    }

    /// Lists a call of `put`, counted from 0, as one that takes at most `taken` bytes and fails.
    ///
    /// If a call is listed twice, the first listing counts.
    ///
    /// # Errors
    ///
    /// Out of memory; nothing changes then.
    pub fn fail_at(&mut self, call: u64, taken: usize) -> Result<(), AllocError>
        requires { call < 2 ^ 64 - 1 }
        ensures after { self.new ≡ (if is_ok result
            then record self.old {
              cuts = self.old.cuts ++ record { call = call; taken = taken }
                  ∷ [];
            }
            else self.old) }
        ensures few { FaultsAreCut self.new }
    {
        self.cuts.push(Cut { call, taken })?;
        Ok(())
    }

    /// The bytes taken so far.
    pub fn bytes(&self) -> &[u8]
        ensures { result.now ≡ self.now.bytes }
    {
        &self.bytes
    }
}

/// The most bytes that a call takes, if it is listed.
fn cut_of(cuts: &[Cut], call: u64) -> Option<usize>
    ensures { result ≡ cut_of cuts.now call }
{
    cuts.iter()
        .find(|cut| cut.call == call)
        .map(|cut| cut.taken)
}

impl Sink for MemSink {
    ghost taken = { λ s. Some s.bytes };

    ghost faults = { λ s. s.faults };

    fn put(&mut self, bytes: &[u8]) -> Result<(), PutFailed>
        ensures after { self.new ≡ put_into self.old bytes.now }
        ensures counted { self.old.faults ≤ self.new.faults }
        ensures failed { IsErr result ↔ IsTrue (put_fails self.old bytes.now) }
        ensures few { FaultsAreCut self.new }
    {
        let cut = cut_of(&self.cuts, self.calls);
        let fitting = bytes.len().min(self.room - self.bytes.len());
        let taken = cut.map_or(fitting, |most| most.min(fitting));
        let _ = self.bytes.extend_from_slice(&bytes[..taken]);
        self.calls = self.calls.saturating_add(1);
        if cut.is_none() && fitting == bytes.len() {
            return Ok(());
        }
        self.faults = self.faults.saturating_add(1);
        Err(PutFailed)
    }
}
