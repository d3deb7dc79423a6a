//! The image of the placed and written words.

ghost use Rattle.std.specs.Prelude.{◌≡◌, ◌<◌, ◌+◌, ◌*◌, ◌^◌, IfOk, map, length};
ghost use Rattle.region_guard.specs.MemoryMap.{large_size};
ghost use Rattle.fp_image.specs.Rules.{IsImage};
ghost use Rattle.fp_asm.specs.Runs.{word_at as word_at_of, bytes_from, segment_of};

use super::runs::Run;
use fp_image::{Bytes, Image};
use std::alloc::{AllocError, Global};
use std::collections::{BTreeMap, BTreeSet};

/// The addresses of a set, rising.
///
/// # Errors
///
/// Out of memory.
pub(crate) fn rising(alloc: Global, taken: &BTreeSet<u32>) -> Result<Vec<u32>, AllocError>
    ensures { IfOk result (λ list. list.items ≡ taken.now.keys) }
{
    taken.iter().copied().collect(alloc)
}

// The word that was written at an address, 0 if none was.
fn word_at(memory: &BTreeMap<u32, u32>, a: u32) -> u32
    ensures { result ≡ word_at_of memory.now.entries a }
{
    memory.get(&a).copied().unwrap_or(0)
}

// The bytes of the words of a run.
fn bytes_of(alloc: Global, memory: &BTreeMap<u32, u32>, run: &Run) -> Result<Vec<u8>, AllocError>
    requires { run.now.first + 4 * run.now.count < 2 ^ 32 }
    ensures { IfOk result (λ bytes. bytes.items
        ≡ bytes_from memory.now.entries run.now.first run.now.count) }
{
    let mut list = Vec::new(alloc);
    let mut a = run.first;
    let mut left = run.count;
    while left != 0 {
        list.extend_from_slice(&word_at(memory, a).to_le_bytes())?;
        a += 4;
        left -= 1;
    }
    Ok(list)
}

/// The image with a segment for each run.
///
/// # Errors
///
/// Out of memory.
#[tactic(auto, using(crate::proofs::Segments::all_short, crate::proofs::Segments::image_more))]
pub(crate) fn image_of(
    alloc: Global,
    memory: &BTreeMap<u32, u32>,
    runs: &[Run],
) -> Result<Image, AllocError>
    requires { IsImage large_size (map (segment_of memory.now.entries) runs.now) }
    ensures { IfOk result (λ image. image ≡ map (segment_of memory.now.entries) runs.now) }
{
    let mut image = Image::new(alloc);
    for run in runs {
        let bytes = bytes_of(alloc, memory, run)?;
        image.add(run.first, Bytes::from_vec(bytes))?;
    }
    Ok(image)
}
