//! Commands that use no port: images, bounds, and the machine's own run.

ghost use Rattle.std.specs.Prelude.{◌≡◌, ◌≤◌, ◌<◌, [], ◌∷◌, Err, IfOk};
ghost use Rattle.std.specs.Prelude.{IfErr, List, Option};
ghost use Rattle.fp_io.specs.Content.{HasRequested, FileMap};
ghost use Rattle.fp_ports.specs.PluggedPorts.{Row};
ghost use Rattle.command_line.specs.declared.asked.Ask.{Ask};
ghost use Rattle.flexpret_top.specs.declared.ready.Prepared.{Prepared};
ghost use Rattle.commands.specs.Assembled.{asm_answer, source_request};
ghost use Rattle.commands.specs.BoundAnswer.{IsBoundAnswer};
ghost use Rattle.commands.specs.CallsAnswer.{IsCallsAnswer};
ghost use Rattle.flexpret_top.specs.Requests.{IsAsked};
ghost use Rattle.commands.specs.Elf.{elf_answer, executable_request};
ghost use Rattle.commands.specs.Program.{IsProgramAsked, program};
ghost use Rattle.flexpret_top.specs.Prepared.{IsWithoutPort, IsPreparedApart, IsThread, Prepares};
ghost use Rattle.commands.specs.Stops.{FindsNone, IsStop};
ghost use Rattle.commands.specs.declared.stop.CommandStop.{CommandStop};
ghost use Rattle.commands.specs.declared.stop.CommandStop.TheVariants.{NoMemory};

use crate::ready::Prepared;
use command_line::Ask;
use commands::{CommandStop, calls_bound, image_bytes, imported_bytes, load, section_bound};
use fp_io::Files;
use fp_setup::Name;
use region_tree::Section;
use selfrun::Selfrun;
use std::alloc::Global;

/// `asm SOURCE`
pub fn image<F: Files>(alloc: Global, source: &Name, files: &mut F) -> Result<Prepared, CommandStop>
    ensures contents { F.contents files.new ≡ F.contents files.old }
    ensures asked { HasRequested (F.requests files.old) (F.requests files.new)
        (source_request source.now ∷ []) }
    ensures counted { F.faults files.old ≤ F.faults files.new }
    ensures missing { FindsNone F.looks_first (F.contents files.old) source.now
        → result ≡ Err CommandStop.Read }
    ensures ok { IfOk result (IsPreparedApart (Ask.Asm source.now) (F.contents files.old)) }
    ensures thread { IfOk result IsThread }
    ensures apart { IfOk result IsWithoutPort }
    ensures stop { IfErr result (IsStop (F.contents files.old)
        (λ contents x. x ≡ asm_answer contents source.now)
        (F.faults files.old) (F.faults files.new)) }
{
    Ok(Prepared::Image(image_bytes(alloc, source, files)?))
}

/// `elf FILE`
pub fn imported<F: Files>(
    alloc: Global,
    file: &Name,
    files: &mut F,
) -> Result<Prepared, CommandStop>
    ensures contents { F.contents files.new ≡ F.contents files.old }
    ensures asked { HasRequested (F.requests files.old) (F.requests files.new)
        (executable_request file.now ∷ []) }
    ensures counted { F.faults files.old ≤ F.faults files.new }
    ensures missing { FindsNone F.looks_first (F.contents files.old) file.now → result
        ≡ Err CommandStop.Read }
    ensures ok { IfOk result (IsPreparedApart (Ask.Elf file.now) (F.contents files.old)) }
    ensures thread { IfOk result IsThread }
    ensures apart { IfOk result IsWithoutPort }
    ensures stop { IfErr result (IsStop (F.contents files.old)
        (λ contents x. x ≡ elf_answer contents file.now)
        (F.faults files.old) (F.faults files.new)) }
{
    Ok(Prepared::Image(imported_bytes(alloc, file, files)?))
}

/// `bound SETUP --thread i --from a --to b`
pub fn bound<F: Files>(
    alloc: Global,
    setup: &Name,
    thread: u8,
    section: Section,
    files: &mut F,
) -> Result<Prepared, CommandStop>
    requires thread { thread < 8 }
    ensures contents { F.contents files.new ≡ F.contents files.old }
    ensures asked { IsProgramAsked (F.contents files.old) setup.now
        (F.requests files.old) (F.requests files.new) }
    ensures counted { F.faults files.old ≤ F.faults files.new }
    ensures missing { FindsNone F.looks_first (F.contents files.old) setup.now
        → result ≡ Err CommandStop.Read }
    ensures ok { IfOk result
        (IsPreparedApart (Ask.Bound setup.now thread section) (F.contents files.old)) }
    ensures thread { IfOk result IsThread }
    ensures apart { IfOk result IsWithoutPort }
    ensures stop { IfErr result (IsStop (F.contents files.old)
        (λ contents x. IsBoundAnswer (program contents setup.now) thread section x)
        (F.faults files.old) (F.faults files.new)) }
{
    match load(alloc, setup, files) {
        Ok(program) => match section_bound(alloc, &program, thread, section) {
            Ok(cycles) => Ok(Prepared::Bound(cycles)),
            Err(stop) => Err(stop),
        },
        Err(stop) => Err(stop),
    }
}

/// `calls SETUP --thread i --from a --to b --routines FILE`
pub fn calls<F: Files>(
    alloc: Global,
    setup: &Name,
    thread: u8,
    section: Section,
    routines: &Name,
    files: &mut F,
) -> Result<Prepared, CommandStop>
    requires thread { thread < 8 }
    ensures contents { F.contents files.new ≡ F.contents files.old }
    ensures asked { IsAsked (Ask.Calls setup.now thread section routines.now) (F.contents files.old)
        (F.requests files.old) (F.requests files.new) }
    ensures counted { F.faults files.old ≤ F.faults files.new }
    ensures missing { FindsNone F.looks_first (F.contents files.old) setup.now
        → result ≡ Err CommandStop.Read }
    ensures ok { IfOk result
        (IsPreparedApart (Ask.Calls setup.now thread section routines.now) (F.contents files.old)) }
    ensures thread { IfOk result IsThread }
    ensures apart { IfOk result IsWithoutPort }
    ensures stop { IfErr result (IsStop (F.contents files.old)
        (λ contents x. IsCallsAnswer (program contents setup.now) thread section (contents
        routines.now) x)
        (F.faults files.old) (F.faults files.new)) }
{
    match load(alloc, setup, files) {
        Ok(program) => match calls_bound(alloc, &program, thread, section, routines, files) {
            Ok(cycles) => Ok(Prepared::Bound(cycles)),
            Err(stop) => Err(stop),
        },
        Err(stop) => Err(stop),
    }
}

/// `selfrun NUMBER`
pub fn own_run(alloc: Global, number: u32) -> Result<Prepared, CommandStop>
    ensures ok { IfOk result (λ p. (contents : FileMap) (ports : List (Option Row)) →
        Prepares (Ask.Selfrun number) contents ports ports p) }
    ensures thread { IfOk result IsThread }
    ensures apart { IfOk result IsWithoutPort }
    ensures memory { IfErr result (λ stop. stop ≡ NoMemory) }
{
    Ok(Prepared::Selfrun(Selfrun::new(alloc, number)?))
}
