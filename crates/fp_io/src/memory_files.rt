//! Files in memory.

ghost use Rattle.std.specs.Prelude.{◌≡◌, ℕ, ◌+◌, ◌-◌, ◌^◌, ◌<◌, ◌≤◌, ◌↔◌, [], ◌∷◌};
ghost use Rattle.std.specs.Prelude.{◌++◌, take, Some, None, IsTrue, IfOk, IsSomeAnd};
ghost use Rattle.std.specs.Prelude.{is_ok, option_map, if◌then◌else◌, vec_len};
ghost use Rattle.std.specs.FinMap as map;
ghost use Rattle.fp_io.specs.Memory.{no_files, next_fails, fetched_from, FaultsAreListed};

use crate::files::{FetchFault, Files};
use std::alloc::{AllocError, Global};
use std::collections::BTreeMap;
use std::marker::Model;

/// Files in memory. Chosen calls of `fetch` fail.
///
/// Their contract exposes the map. Their count of faults is at most the number of listed calls
/// made, so without a listing it stays 0.
#[derive(Drop)]
pub struct MemFiles {
    alloc: Global,
    files: BTreeMap<String, Vec<u8>>,
    failing: Vec<u64>,
    calls: u64,
    faults: u64,
}

impl Model for MemFiles {
    ghost use Rattle.std.specs.Prelude.{map};
    ghost use Rattle.std.specs.String.{string_bytes};
    ghost use Rattle.std.specs.FinMap as named;
    ghost use Rattle.fp_io.specs.Memory.{MemoryFiles, memory_files_code, FilesAreSound};

    ghost Value = { MemoryFiles };

    ghost coded = { memory_files_code };

    ghost view = { λ m. record {
      named = named.from_entries (map (λ e. (string_bytes e.0, e.1.items)) m.files.entries);
      failing = m.failing.items;
      calls = m.calls;
      faults = m.faults;
    } };

    ghost invariant = { λ m. FilesAreSound m.failing.items m.calls m.faults };
}

impl MemFiles {
    /// No files, and no call that fails.
    pub fn new(alloc: Global) -> MemFiles
        ensures { result ≡ no_files }
    {
        MemFiles {
            alloc,
            files: BTreeMap::new(alloc),
            failing: Vec::new(alloc),
            calls: 0,
            faults: 0,
        }
    }

    /// Sets the bytes of the file with this name, in place of earlier ones.
    ///
    /// # Errors
    ///
    /// Out of memory; nothing changes then.
    pub fn add(&mut self, name: &str, bytes: &[u8]) -> Result<(), AllocError>
        ensures after { self.new ≡ (if is_ok result
            then record self.old { named = map.insert self.old.named name.now bytes.now }
            else self.old) }
        ensures few { FaultsAreListed self.new }
    {
        let name = String::from_str(self.alloc, name)?;
        let bytes = Vec::from_slice(self.alloc, bytes)?;
        self.files.insert(name, bytes)?;
        Ok(())
    }

    /// Lists a call of `fetch`, counted from 0, as one that fails.
    ///
    /// # Errors
    ///
    /// Out of memory; nothing changes then.
    pub fn fail_at(&mut self, call: u64) -> Result<(), AllocError>
        requires { call < 2 ^ 64 - 1 }
        ensures after { self.new ≡ (if is_ok result
            then record self.old { failing = self.old.failing ++ call ∷ [] }
            else self.old) }
        ensures few { FaultsAreListed self.new }
    {
        self.failing.push(call)?;
        Ok(())
    }

    /// Counts a call of `fetch`, and returns whether it fails.
    fn count_call(&mut self) -> bool
        ensures fails { result ≡ next_fails self.old }
        ensures after { self.new ≡ fetched_from self.old }
        ensures counted { self.old.faults ≤ self.new.faults }
        ensures few { FaultsAreListed self.new }
    {
        let fails = self.failing.contains(&self.calls);
        self.calls = self.calls.saturating_add(1);
        if fails {
            self.faults = self.faults.saturating_add(1);
        }
        fails
    }

    /// The bytes of a name, if there is such a file.
    fn file(&self, name: &str) -> Option<&Vec<u8>>
        ensures { option_map (λ file. file.now.items) result ≡ map.get self.now.named name.now }
    {
        self.files.get(name)
    }
}

impl Files for MemFiles {
    ghost contents = { λ m. Some (λ name. map.get m.named name) };

    ghost looks_first = { Unit {0} };

    ghost faults = { λ m. m.faults };

    fn fetch(&mut self, alloc: Global, name: &str, most: usize) -> Result<Vec<u8>, FetchFault>
        requires { most < 2 ^ 64 - 1 }
        ensures after { self.new ≡ fetched_from self.old }
        ensures counted { self.old.faults ≤ self.new.faults }
        ensures few { FaultsAreListed self.new }
        ensures failed { (result ≡ Err FetchFault.Failed) ↔ IsTrue (next_fails self.old) }
        ensures missing { (result ≡ Err FetchFault.Missing)
            ↔ (¬ (IsTrue (next_fails self.old)) × (map.get self.old.named name.now ≡ None)) }
        ensures bytes { IfOk result (λ bytes. IsSomeAnd (map.get self.old.named name.now)
            (λ whole. bytes.items ≡ take (most + 1) whole)) }
    {
        if self.count_call() {
            return Err(FetchFault::Failed);
        }
        let Some(whole) = self.file(name) else {
            return Err(FetchFault::Missing);
        };
        let prefix = whole.len().min(most + 1);
        Vec::from_slice(alloc, &whole[..prefix]).map_err(|_| FetchFault::NoMemory)
    }
}
