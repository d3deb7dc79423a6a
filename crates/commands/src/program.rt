//! The setup and the image that a command reads.

ghost use Rattle.std.specs.Prelude.{◌≡◌, ◌≤◌, ◌<◌, ◌^◌, ◌-◌, [], ◌∷◌, Ok, Err, IfOk, IfErr};
ghost use Rattle.fp_io.specs.Content.{HasRequested, Fetched};
ghost use Rattle.fp_setup.specs.Settings.{size_of};
ghost use Rattle.region_guard.specs.Regions.{IsSize};
ghost use Rattle.fp_image.specs.Format.{longest};
ghost use Rattle.commands.specs.Answer.{on_file};
ghost use Rattle.commands.specs.Codes.{setup_code, image_code};
ghost use Rattle.commands.specs.Program.{IsProgramAsked, image_in, program};
ghost use Rattle.commands.specs.Program.{program_requests, setup_in, setup_request};
ghost use Rattle.commands.specs.Stops.{FindsNone, IsFetchStop, IsStopIn};
ghost use Rattle.commands.specs.Stops.{IsStopOf, IsMadeBy, stop_of_fetch};

use crate::stop::CommandStop;
use fp_image::{Image, ImageNo, ImageRefused, longest, read_image};
use fp_io::{FetchFault, Files};
use fp_setup::{MOST_SETUP_BYTES, Name, Place, Setup, SetupNo, SetupRefused, read_setup};
use std::alloc::Global;
use trace_print::Refusal;

/// A setup, and the image that it names, which was read for the setup's size.
#[derive(Drop)]
pub struct Program {
    /// The setup.
    pub setup: Setup,
    /// The image of the file that the setup names.
    pub image: Image,
}

/// Why a file that isn't fetched stops a command.
fn stop_of_fetch(fault: FetchFault) -> CommandStop
    ensures { result ≡ stop_of_fetch fault }
{
    match fault {
        FetchFault::Missing | FetchFault::Failed => CommandStop::Read,
        FetchFault::NoMemory => CommandStop::NoMemory,
    }
}

/// Fetches a file: its first `most + 1` bytes, or all if it has fewer.
///
/// # Errors
///
/// `Read` only if the files' count of faults rose, or if the files are known to lack the file.
/// `NoMemory` if memory ran out, and neither of these is so.
pub fn fetch<F: Files>(
    alloc: Global,
    name: &Name,
    most: usize,
    files: &mut F,
) -> Result<Vec<u8>, CommandStop>
    requires { most < 2 ^ 64 - 1 }
    ensures contents { F.contents files.new ≡ F.contents files.old }
    ensures counted { F.faults files.old ≤ F.faults files.new }
    ensures request { HasRequested (F.requests files.old) (F.requests files.new) ((
      name.now,
      most,
    ) ∷ []) }
    ensures bytes { IfOk result (λ bytes. Fetched (F.contents files.old) name.now most
        bytes.items) }
    ensures missing { FindsNone F.looks_first (F.contents files.old) name.now → result
        ≡ Err CommandStop.Read }
    ensures stop { IfErr result (IsFetchStop F.looks_first (F.contents files.old) name.now
        (F.faults files.old) (F.faults files.new)) }
{
    match files.fetch(alloc, name.as_str(), most) {
        Ok(bytes) => Ok(bytes),
        Err(fault) => Err(stop_of_fetch(fault)),
    }
}

/// The refusal of a setup.
fn setup_refusal(code: SetupNo, place: Place) -> Refusal
    ensures { result ≡ Refusal.Setup (setup_code code) place }
{
    Refusal::Setup {
        code: code as u8,
        place,
    }
}

/// The setup of a file's bytes.
///
/// Images, sources and executables each have a function of this form. Its reader, faults and
/// definition differ together, and one function for all would take the three as parameters.
#[tactic(auto, unfolding(crate::specs::Program::setup_in))]
fn setup_in(alloc: Global, bytes: &[u8]) -> Result<Setup, CommandStop>
    ensures ok { IfOk result (λ s. setup_in bytes.now ≡ Ok s) }
    ensures stop { IfErr result (IsStopOf (setup_in bytes.now)) }
{
    match read_setup(alloc, bytes) {
        Ok(setup) => Ok(setup),
        Err(SetupRefused::Fault { code, place }) => {
            Err(CommandStop::Refused(setup_refusal(code, place)))
        }
        Err(SetupRefused::NoMemory) => Err(CommandStop::NoMemory),
    }
}

/// The refusal of an image.
fn image_refusal(code: ImageNo, offset: u32) -> Refusal
    ensures { result ≡ Refusal.Image (image_code code) offset }
{
    Refusal::Image {
        code: code as u8,
        offset,
    }
}

/// The image of a file's bytes, for scratchpads of a size.
#[tactic(auto, unfolding(crate::specs::Program::image_in))]
fn image_in(alloc: Global, bytes: &[u8], size: u32) -> Result<Image, CommandStop>
    requires { IsSize size }
    ensures ok { IfOk result (λ image. image_in size bytes.now ≡ Ok image) }
    ensures stop { IfErr result (IsStopOf (image_in size bytes.now)) }
{
    match read_image(alloc, bytes, size) {
        Ok(image) => Ok(image),
        Err(ImageRefused::Fault { code, offset }) => {
            Err(CommandStop::Refused(image_refusal(code, offset)))
        }
        Err(ImageRefused::NoMemory) => Err(CommandStop::NoMemory),
    }
}

/// Fetches and reads a setup.
fn fetch_setup<F: Files>(alloc: Global, name: &Name, files: &mut F) -> Result<Setup, CommandStop>
    ensures contents { F.contents files.new ≡ F.contents files.old }
    ensures counted { F.faults files.old ≤ F.faults files.new }
    ensures request { HasRequested (F.requests files.old) (F.requests files.new)
        (setup_request name.now ∷ []) }
    ensures missing { FindsNone F.looks_first (F.contents files.old) name.now → result
        ≡ Err CommandStop.Read }
    ensures ok { IfOk result (IsMadeBy (F.contents files.old) (on_file setup_in name.now)) }
    ensures stop { IfErr result (IsStopIn (F.contents files.old) (on_file setup_in name.now)
        (F.faults files.old) (F.faults files.new)) }
{
    let bytes = fetch(alloc, name, MOST_SETUP_BYTES, files)?;
    setup_in(alloc, &bytes)
}

/// Fetches and reads an image, for scratchpads of a size.
fn fetch_image<F: Files>(
    alloc: Global,
    name: &Name,
    size: u32,
    files: &mut F,
) -> Result<Image, CommandStop>
    requires { IsSize size }
    ensures contents { F.contents files.new ≡ F.contents files.old }
    ensures counted { F.faults files.old ≤ F.faults files.new }
    ensures request { HasRequested (F.requests files.old) (F.requests files.new)
        ((name.now, longest size) ∷ []) }
    ensures missing { FindsNone F.looks_first (F.contents files.old) name.now → result
        ≡ Err CommandStop.Read }
    ensures ok { IfOk result (IsMadeBy (F.contents files.old) (on_file (image_in size) name.now)) }
    ensures stop { IfErr result (IsStopIn (F.contents files.old) (on_file (image_in size) name.now)
        (F.faults files.old) (F.faults files.new)) }
{
    let bytes = fetch(alloc, name, longest(size), files)?;
    image_in(alloc, &bytes, size)
}

/// Fetches and reads a setup, and then the image that it names, for scratchpads of the setup's
/// size.
///
/// # Errors
///
/// The first of: the setup isn't there or can't be read; it has a fault; the image isn't there or
/// can't be read; it has a fault. `NoMemory` if memory ran out, unless the files are known to lack
/// the setup.
pub fn load<F: Files>(alloc: Global, name: &Name, files: &mut F) -> Result<Program, CommandStop>
    ensures contents { F.contents files.new ≡ F.contents files.old }
    ensures counted { F.faults files.old ≤ F.faults files.new }
    ensures requests { IfOk result (λ p. HasRequested (F.requests files.old) (F.requests files.new)
        (program_requests name.now p.setup)) }
    ensures asked { IsProgramAsked (F.contents files.old) name.now
        (F.requests files.old) (F.requests files.new) }
    ensures missing { FindsNone F.looks_first (F.contents files.old) name.now → result
        ≡ Err CommandStop.Read }
    ensures ok { IfOk result (IsMadeBy (F.contents files.old) (λ contents. program contents
        name.now)) }
    ensures stop { IfErr result (IsStopIn (F.contents files.old) (λ contents. program
        contents name.now)
        (F.faults files.old) (F.faults files.new)) }
{
    let setup = fetch_setup(alloc, name, files)?;
    let image = fetch_image(alloc, &setup.image, setup.size(), files)?;
    Ok(Program { setup, image })
}
