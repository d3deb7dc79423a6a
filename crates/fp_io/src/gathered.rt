//! A sink that buffers bytes for another sink.

ghost use Rattle.std.specs.Prelude.{◌≡◌, ◌≢◌, [], ◌++◌, ◌+◌, ◌<◌, ◌≤◌, None, length, OnOk, OnErr};
ghost use Rattle.std.specs.Io.KnownBytes.{Appends};
ghost use Rattle.fp_io.specs.Causes.{HasRisen};
ghost use Rattle.fp_io.specs.Content.{AppendsPrefix};
ghost use Rattle.fp_io.specs.Gathered.{followed, gathered_with};

use crate::sink::{PutFailed, Sink};
use std::marker::Model;

/// The size of the buffer, in bytes.
const ROOM: usize = 8192;

/// A sink that buffers bytes and passes them to another sink in large pieces: in
/// [`Gathered::flush`], and in a `put` whose bytes don't fit.
///
/// As a sink it exposes no bytes, since buffered bytes may never be passed on. Contracts refer to
/// the sink behind it and to the buffered bytes. They state that the bytes reach that sink in order
/// and once.
///
/// The bytes are the first `len` of an array: the `clear` of an `ArrayVec` overwrites each byte.
#[derive(Drop)]
pub struct Gathered<K> {
    sink: K,
    /// The buffered bytes, followed by bytes that were passed on.
    room: [u8; ROOM],
    /// The number of buffered bytes.
    len: usize,
}

impl<K> Model for Gathered<K> {
    ghost use Rattle.std.specs.Prelude.{ℕ, List, ◌≤◌, take};
    ghost use Rattle.std.specs.Coded.{coded×, coded_ℕ, coded_list};

    ghost Value = { K × List ℕ };

    ghost coded = { coded× K.code (coded_list coded_ℕ) };

    ghost view = { λ sink. (sink.sink, take sink.len sink.room) };

    ghost invariant = { λ sink. sink.len ≤ 8192 };
}

impl<K: Sink + Drop> Gathered<K> {
    /// Buffers for a sink.
    pub fn new(sink: K) -> Gathered<K>
        ensures { result ≡ (sink, []) }
    {
        Gathered {
            sink,
            room: [0; ROOM],
            len: 0,
        }
    }

    /// Passes the buffered bytes on in one call, or does nothing if there are none.
    ///
    /// # Errors
    ///
    /// `PutFailed` if the sink behind it returns that. That sink has then taken a prefix of the
    /// bytes, and the others are lost.
    pub fn flush(&mut self) -> Result<(), PutFailed>
        ensures ok { OnOk result (Appends (K.taken self.old.0) (K.taken self.new.0) self.old.1) }
        ensures err { OnErr result (AppendsPrefix (K.taken self.old.0) (K.taken self.new.0)
            self.old.1) }
        ensures failed { OnErr result (HasRisen (K.faults self.old.0) (K.faults self.new.0)) }
        ensures counted { K.faults self.old.0 ≤ K.faults self.new.0 }
        ensures some { OnErr result (self.old.1 ≢ []) }
        ensures nothing { self.old.1 ≡ [] → self.new.0 ≡ self.old.0 }
        ensures gathered { self.new.1 ≡ [] }
    {
        if self.len == 0 {
            return Ok(());
        }
        let put = self.sink.put(&self.room[..self.len]);
        self.len = 0;
        put
    }

    /// Passes on the buffered bytes, and then bytes that don't fit with them. It is separate from
    /// `put`, so that the fast path, nearly every put, saves no registers.
    ///
    /// # Errors
    ///
    /// `PutFailed` if the sink behind returns that, for the buffered bytes or for `bytes`.
    #[cold]
    #[inline(never)]
    fn hand_on(&mut self, bytes: &[u8]) -> Result<(), PutFailed>
        ensures ok { OnOk result (Appends (followed (K.taken self.old.0) self.old.1)
            (followed (K.taken self.new.0) self.new.1) bytes.now) }
        ensures err { OnErr result (AppendsPrefix (K.taken self.old.0) (K.taken self.new.0)
            (self.old.1 ++ bytes.now)) }
        ensures failed { OnErr result (HasRisen (K.faults self.old.0) (K.faults self.new.0)) }
        ensures counted { K.faults self.old.0 ≤ K.faults self.new.0 }
        ensures gathered { self.new.1 ≡ [] }
    {
        self.flush()?;
        self.sink.put(bytes)
    }
}

impl<K: Sink + Drop> Sink for Gathered<K> {
    ghost taken = { λ _. None };

    ghost faults = { λ sink. K.faults sink.0 };

    #[inline]
    fn put(&mut self, bytes: &[u8]) -> Result<(), PutFailed>
        ensures ok { OnOk result (Appends (followed (K.taken self.old.0) self.old.1)
            (followed (K.taken self.new.0) self.new.1) bytes.now) }
        ensures err { OnErr result (AppendsPrefix (K.taken self.old.0) (K.taken self.new.0)
            (self.old.1 ++ bytes.now)) }
        ensures failed { OnErr result (HasRisen (K.faults self.old.0) (K.faults self.new.0)) }
        ensures counted { K.faults self.old.0 ≤ K.faults self.new.0 }
        ensures full { OnErr result (8192 < length self.old.1 + length bytes.now) }
        ensures room { length self.old.1 + length bytes.now ≤ 8192 → self.new.0 ≡ self.old.0 }
        ensures gathered { self.new.1 ≡ gathered_with 8192 self.old.1 bytes.now }
    {
        if bytes.len() > ROOM - self.len {
            return self.hand_on(bytes);
        }
        let end = self.len + bytes.len();
        self.room[self.len..end].copy_from_slice(bytes);
        self.len = end;
        Ok(())
    }
}
