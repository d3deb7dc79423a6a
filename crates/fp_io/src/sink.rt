//! A sink that takes bytes.

ghost use Rattle.std.specs.Prelude.{◌≡◌, ℕ, ◌≤◌, List, Option, OnOk, OnErr};
ghost use Rattle.std.specs.Io.KnownBytes.{Appends};
ghost use Rattle.fp_io.specs.Causes.{HasRisen};
ghost use Rattle.fp_io.specs.Content.{AppendsPrefix};

use thiserror::Error;

/// Bytes were not all taken.
#[derive(Clone, Copy, Debug, PartialEq, Eq, Error)]
#[error("not all bytes were taken")]
pub struct PutFailed;

/// The bytes taken so far, in order, and a count of the faults met in taking them.
pub trait Sink {
    // The bytes taken so far, if the object's contract exposes them.
    ghost taken: { Self → Option (List ℕ) };

    // The number of write faults so far. It never decreases, and saturates at 2^64 - 1.
    ghost faults: { Self → ℕ };

    /// Takes the bytes after those taken so far.
    ///
    /// # Errors
    ///
    /// `PutFailed` if a fault was counted in this call. Then a prefix of the bytes was taken,
    /// possibly none or all of them.
    fn put(&mut self, bytes: &[u8]) -> Result<(), PutFailed>
        ensures counted { faults self.old ≤ faults self.new }
        ensures ok { OnOk result (Appends (taken self.old) (taken self.new) bytes.now) }
        ensures err { OnErr result (AppendsPrefix (taken self.old) (taken self.new) bytes.now) }
        ensures failed { OnErr result (HasRisen (faults self.old) (faults self.new)) };
}
