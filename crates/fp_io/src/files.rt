//! Files that are read whole, by name.

ghost use Rattle.std.specs.Prelude.{◌≡◌, ℕ, ◌+◌, ◌-◌, ◌^◌, ◌<◌, ◌≤◌};
ghost use Rattle.std.specs.Prelude.{List, [], ◌∷◌, Option, None, IfOk, vec_len};
ghost use Rattle.fp_io.specs.Causes.{HasRisen};
ghost use Rattle.fp_io.specs.Content.{HasRequested, FileMap, Fetched, IsMissing, Request};

use std::alloc::Global;
use thiserror::Error;

/// The reason why a file was not fetched.
#[derive(Clone, Copy, Debug, PartialEq, Eq, Error)]
pub enum FetchFault {
    /// No file has the name.
    #[error("no file has the name")]
    Missing = 1,
    /// The file could not be read.
    #[error("the file could not be read")]
    Failed = 2,
    /// Out of memory.
    #[error("out of memory")]
    NoMemory = 3,
}

/// A map from names to the bytes of files, and a count of the faults met in reading them.
pub trait Files {
    // The map, if the object's contract exposes it.
    ghost contents: { Self → Option FileMap };

    // The number of read faults so far. It never decreases, and saturates at 2^64 - 1.
    ghost faults: { Self → ℕ };

    // The calls of `fetch` so far, in order, if the object's contract exposes them. An object that
    // doesn't leaves this out.
    ghost requests: { Self → Option (List Request) } = { λ _. None };

    // What holds if the object looks a name up before it takes memory, and then counts no fault for
    // want of memory. Other objects leave this out.
    ghost looks_first: { Type 0 } = { ⊥ };

    /// Returns the first `most + 1` bytes of a file, or the whole file if it is shorter.
    ///
    /// If `most` is the largest accepted length, a result of `most + 1` bytes means that the file
    /// is too long.
    ///
    /// # Errors
    ///
    /// `Missing` if the object exposes its map and no file has the name. `Failed` if a fault was
    /// counted in this call. `NoMemory` if memory ran out. If the object looks names up first, no
    /// fault was counted then, and the map, if exposed, doesn't lack the file.
    fn fetch(&mut self, alloc: Global, name: &str, most: usize) -> Result<Vec<u8>, FetchFault>
        requires { most < 2 ^ 64 - 1 }
        ensures request { HasRequested (requests self.old) (requests self.new) ((
          name.now,
          most,
        ) ∷ []) }
        ensures stays { contents self.new ≡ contents self.old }
        ensures counted { faults self.old ≤ faults self.new }
        ensures within { IfOk result (λ bytes. vec_len bytes ≤ most + 1) }
        ensures bytes { IfOk result (λ bytes. Fetched (contents self.old) name.now most
            bytes.items) }
        ensures missing { result ≡ Err FetchFault.Missing
            → IsMissing (contents self.old) name.now × (faults self.new ≡ faults self.old) }
        ensures failed { result ≡ Err FetchFault.Failed
            → HasRisen (faults self.old) (faults self.new) }
        ensures out_of_memory { looks_first → result ≡ Err FetchFault.NoMemory
            → (faults self.new ≡ faults self.old) × ¬ (IsMissing (contents self.old) name.now) };
}
