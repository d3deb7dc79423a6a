//! From a source to an image.

ghost use Rattle.std.specs.Prelude.{◌≡◌, ◌≤◌, ◌<◌, ◌^◌, IfOk, IfErr, Ok, map, length, All};
ghost use Rattle.fp_asm.specs.Source.{assembly_of, assembled_lines, segments_at};
ghost use Rattle.fp_asm.specs.Faults.{IsFaultOf};
ghost use Rattle.fp_asm.specs.Runs.{ArePlaced};

use super::build::{image_of, rising};
use super::first_pass::First;
use super::lines::lines;
use super::refusal::{AsmNo, AsmRefused};
use super::runs::runs_of;
use super::second_pass::Second;
use fp_image::Image;
use std::alloc::Global;
use std::collections::{BTreeMap, BTreeSet};

/// The most bytes of a source.
pub const MOST_SOURCE_BYTES: usize = 1_048_576;

/// The most runs of words of an image.
const MOST_SEGMENTS: usize = fp_image::MOST_SEGMENTS as usize;

// The image of the words at the placed addresses, with at most MOST_SEGMENTS runs.
#[tactic(auto, unfolding(crate::specs::Source::segments_at))]
fn image_at(
    alloc: Global,
    memory: &BTreeMap<u32, u32>,
    taken: &BTreeSet<u32>,
) -> Result<Image, AsmRefused>
    requires { ArePlaced 0 taken.now.keys }
    ensures image { IfOk result (λ image. segments_at memory.now.entries taken.now.keys
        ≡ Ok image) }
    ensures refused { IfErr result (IsFaultOf (segments_at memory.now.entries taken.now.keys)) }
{
    let addresses = rising(alloc, taken)?;
    let runs = runs_of(alloc, addresses.as_slice())?;
    if runs.len() > MOST_SEGMENTS {
        return Err(AsmRefused::Fault {
            line: 0,
            code: AsmNo::TooManySegments,
        });
    }
    Ok(image_of(alloc, memory, runs.as_slice())?)
}

// The image of the lines.
#[tactic(auto, unfolding(crate::specs::Source::assembled_lines))]
fn assemble_lines(alloc: Global, lines: &[&[u8]]) -> Result<Image, AsmRefused>
    requires short { All (λ l. length l.now < 2 ^ 32) lines.now }
    requires few { length lines.now < 2 ^ 31 }
    ensures image { IfOk result
        (λ image. assembled_lines (map (λ l. l.now) lines.now) ≡ Ok image) }
    ensures refused { IfErr result (IsFaultOf (assembled_lines (map (λ l. l.now) lines.now))) }
{
    let mut first = First::new(alloc);
    first.pass(alloc, lines)?;
    let mut second = Second::new(alloc);
    second.pass(alloc, &first.labels, lines)?;
    image_at(alloc, &second.memory, &first.taken)
}

/// The image of a source text.
///
/// # Errors
///
/// The first fault of the source, in this order: a source that is too long; the faults of the first
/// pass, which computes locations and labels; the faults of the second pass, which resolves labels;
/// more segments than an image may have. `NoMemory` if memory ran out.
#[tactic(auto, unfolding(crate::specs::Source::assembly_of))]
pub fn assemble(alloc: Global, source: &[u8]) -> Result<Image, AsmRefused>
    ensures image { IfOk result (λ image. assembly_of source.now ≡ Ok image) }
    ensures refused { IfErr result (IsFaultOf (assembly_of source.now)) }
{
    if source.len() > MOST_SOURCE_BYTES {
        return Err(AsmRefused::Fault {
            line: 0,
            code: AsmNo::TooLong,
        });
    }
    let lines = lines(alloc, source)?;
    assemble_lines(alloc, lines.as_slice())
}
