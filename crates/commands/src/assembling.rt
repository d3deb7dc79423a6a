//! The image of a source.

ghost use Rattle.std.specs.Prelude.{◌≡◌, ◌≤◌, [], ◌∷◌, Ok, Err, IfOk, IfErr, IfSome};
ghost use Rattle.fp_io.specs.Content.{HasRequested};
ghost use Rattle.fp_image.specs.Format.{file_of};
ghost use Rattle.commands.specs.Answer.{on_file};
ghost use Rattle.commands.specs.Answer.Answer.{Says};
ghost use Rattle.commands.specs.Assembled.{asm_answer, source_in, source_request};
ghost use Rattle.commands.specs.Codes.{source_code};
ghost use Rattle.commands.specs.Stops.{FindsNone, IsStop, IsStopIn, IsStopOf, IsMadeBy};

use crate::program::fetch;
use crate::stop::CommandStop;
use fp_asm::{AsmNo, AsmRefused, MOST_SOURCE_BYTES, assemble};
use fp_image::{Image, write_image};
use fp_io::Files;
use fp_setup::Name;
use std::alloc::Global;
use trace_print::Refusal;

/// The refusal of a source.
fn source_refusal(line: u32, code: AsmNo) -> Refusal
    ensures { result ≡ Refusal.Source line (source_code code) }
{
    Refusal::Source {
        line,
        code: code as u8,
    }
}

/// The image of a source's bytes.
#[tactic(auto, unfolding(crate::specs::Assembled::source_in))]
fn source_in(alloc: Global, bytes: &[u8]) -> Result<Image, CommandStop>
    ensures ok { IfOk result (λ image. source_in bytes.now ≡ Ok image) }
    ensures stop { IfErr result (IsStopOf (source_in bytes.now)) }
{
    match assemble(alloc, bytes) {
        Ok(image) => Ok(image),
        Err(AsmRefused::Fault { line, code }) => Err(CommandStop::Refused(source_refusal(
            line, code,
        ))),
        Err(AsmRefused::NoMemory) => Err(CommandStop::NoMemory),
    }
}

/// Fetches a source, and assembles it.
fn fetch_source<F: Files>(alloc: Global, name: &Name, files: &mut F) -> Result<Image, CommandStop>
    ensures contents { F.contents files.new ≡ F.contents files.old }
    ensures counted { F.faults files.old ≤ F.faults files.new }
    ensures request { HasRequested (F.requests files.old) (F.requests files.new)
        (source_request name.now ∷ []) }
    ensures missing { FindsNone F.looks_first (F.contents files.old) name.now → result
        ≡ Err CommandStop.Read }
    ensures ok { IfOk result (IsMadeBy (F.contents files.old) (on_file source_in name.now)) }
    ensures stop { IfErr result (IsStopIn (F.contents files.old) (on_file source_in name.now)
        (F.faults files.old) (F.faults files.new)) }
{
    let bytes = fetch(alloc, name, MOST_SOURCE_BYTES, files)?;
    source_in(alloc, &bytes)
}

/// The bytes of the image of a source.
///
/// # Errors
///
/// If the source isn't there, can't be read or has a fault. `NoMemory` if memory ran out, unless
/// the files are known to lack the source.
pub fn image_bytes<F: Files>(
    alloc: Global,
    name: &Name,
    files: &mut F,
) -> Result<Vec<u8>, CommandStop>
    ensures contents { F.contents files.new ≡ F.contents files.old }
    ensures counted { F.faults files.old ≤ F.faults files.new }
    ensures request { HasRequested (F.requests files.old) (F.requests files.new)
        (source_request name.now ∷ []) }
    ensures missing { FindsNone F.looks_first (F.contents files.old) name.now → result
        ≡ Err CommandStop.Read }
    ensures ok { IfOk result (λ bytes. IfSome (F.contents files.old) (λ contents.
        Says 0 bytes.items ≡ asm_answer contents name.now)) }
    ensures stop { IfErr result
        (IsStop (F.contents files.old) (λ contents x. x ≡ asm_answer contents name.now)
        (F.faults files.old) (F.faults files.new)) }
{
    let image = fetch_source(alloc, name, files)?;
    Ok(write_image(alloc, &image)?)
}
