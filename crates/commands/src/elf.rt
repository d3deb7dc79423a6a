//! The image of an executable.

ghost use Rattle.std.specs.Prelude.{◌≡◌, ◌≤◌, [], ◌∷◌, Ok, Err, IfOk, IfErr, IfSome};
ghost use Rattle.fp_io.specs.Content.{HasRequested};
ghost use Rattle.commands.specs.Answer.{on_file};
ghost use Rattle.commands.specs.Answer.Answer.{Says};
ghost use Rattle.commands.specs.Codes.{elf_code};
ghost use Rattle.commands.specs.Elf.{elf_answer, elf_in, executable_request};
ghost use Rattle.commands.specs.Stops.{FindsNone, IsStop, IsStopIn, IsStopOf, IsMadeBy};

use crate::program::fetch;
use crate::stop::CommandStop;
use fp_elf::{ElfNo, ElfRefused, MOST_ELF_BYTES, read_elf};
use fp_image::{Image, write_image};
use fp_io::Files;
use fp_setup::Name;
use std::alloc::Global;
use trace_print::Refusal;

/// The refusal of an executable.
fn elf_refusal(code: ElfNo, offset: u32) -> Refusal
    ensures { result ≡ Refusal.Image (elf_code code) offset }
{
    Refusal::Image {
        code: code as u8,
        offset,
    }
}

/// The image of an executable's bytes.
#[tactic(auto, unfolding(crate::specs::Elf::elf_in))]
fn elf_in(alloc: Global, bytes: &[u8]) -> Result<Image, CommandStop>
    ensures ok { IfOk result (λ image. elf_in bytes.now ≡ Ok image) }
    ensures stop { IfErr result (IsStopOf (elf_in bytes.now)) }
{
    match read_elf(alloc, bytes) {
        Ok(image) => Ok(image),
        Err(ElfRefused::Fault { code, offset }) => Err(CommandStop::Refused(elf_refusal(
            code, offset,
        ))),
        Err(ElfRefused::NoMemory) => Err(CommandStop::NoMemory),
    }
}

/// Fetches an executable, and takes its image.
fn fetch_executable<F: Files>(
    alloc: Global,
    name: &Name,
    files: &mut F,
) -> Result<Image, CommandStop>
    ensures contents { F.contents files.new ≡ F.contents files.old }
    ensures counted { F.faults files.old ≤ F.faults files.new }
    ensures request { HasRequested (F.requests files.old) (F.requests files.new)
        (executable_request name.now ∷ []) }
    ensures missing { FindsNone F.looks_first (F.contents files.old) name.now → result
        ≡ Err CommandStop.Read }
    ensures ok { IfOk result (IsMadeBy (F.contents files.old) (on_file elf_in name.now)) }
    ensures stop { IfErr result (IsStopIn (F.contents files.old) (on_file elf_in name.now)
        (F.faults files.old) (F.faults files.new)) }
{
    let bytes = fetch(alloc, name, MOST_ELF_BYTES, files)?;
    elf_in(alloc, &bytes)
}

/// The bytes of the image of an executable.
///
/// # Errors
///
/// If the executable isn't there, can't be read or has a fault. `NoMemory` if memory ran out,
/// unless the files are known to lack the executable.
pub fn imported_bytes<F: Files>(
    alloc: Global,
    name: &Name,
    files: &mut F,
) -> Result<Vec<u8>, CommandStop>
    ensures contents { F.contents files.new ≡ F.contents files.old }
    ensures counted { F.faults files.old ≤ F.faults files.new }
    ensures request { HasRequested (F.requests files.old) (F.requests files.new)
        (executable_request name.now ∷ []) }
    ensures missing { FindsNone F.looks_first (F.contents files.old) name.now → result
        ≡ Err CommandStop.Read }
    ensures ok { IfOk result (λ bytes. IfSome (F.contents files.old) (λ contents.
        Says 0 bytes.items ≡ elf_answer contents name.now)) }
    ensures stop { IfErr result
        (IsStop (F.contents files.old) (λ contents x. x ≡ elf_answer contents name.now)
        (F.faults files.old) (F.faults files.new)) }
{
    let image = fetch_executable(alloc, name, files)?;
    Ok(write_image(alloc, &image)?)
}
