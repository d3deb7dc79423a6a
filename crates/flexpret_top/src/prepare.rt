//! Prepares a command's text, before its first byte is written.

ghost use Rattle.std.specs.Prelude.{◌≡◌, ◌≢◌, ◌⊎◌, ◌≤◌, false, Err, IfOk};
ghost use Rattle.std.specs.Prelude.{IfErr, OnErr, IfSome, vec_len};
ghost use Rattle.fp_ports.specs.PluggedPorts.{rows_of};
ghost use Rattle.command_line.specs.Limits.{IsWithinLimits};
ghost use Rattle.command_line.specs.declared.asked.Ask.{Ask};
ghost use Rattle.flexpret_top.specs.declared.ready.Prepared.{Prepared};
ghost use Rattle.flexpret_top.specs.Command.{IsAnswerIn, UsesNoPort};
ghost use Rattle.flexpret_top.specs.Command.{HasLeftFedInPart, OnlyReads};
ghost use Rattle.flexpret_top.specs.Requests.{IsAsked, LacksFirst};
ghost use Rattle.flexpret_top.specs.Prepared.{IsWithoutPort, IsPrepared, IsThread, OnlyReadsFor};
ghost use Rattle.commands.specs.Stops.{IsStop, is_difference};
ghost use Rattle.commands.specs.declared.stop.CommandStop.{CommandStop};
ghost use Rattle.commands.specs.declared.stop.CommandStop.TheVariants.{NoMemory};

use crate::file_commands::{bound, calls, image, imported, own_run};
use crate::machine_commands::{dump, phases, trace};
use crate::ready::Prepared;
use crate::view_commands::{check, solo};
use command_line::Ask;
use commands::CommandStop;
use fp_io::Files;
use fp_ports::Ports;
use std::alloc::Global;

/// Prepares a command's text, and feeds the ports if it runs the machine.
pub fn prepare<F: Files>(
    alloc: Global,
    ask: &Ask,
    files: &mut F,
    ports: &mut Ports,
) -> Result<Prepared, CommandStop>
    requires limits { IsWithinLimits ask.now }
    requires eight { vec_len ports.old ≡ 8 }
    ensures contents { F.contents files.new ≡ F.contents files.old }
    ensures asked { IsAsked ask.now (F.contents files.old)
        (F.requests files.old) (F.requests files.new) }
    ensures counted { F.faults files.old ≤ F.faults files.new }
    ensures missing { LacksFirst F.looks_first ask.now (F.contents files.old) → result
        ≡ Err CommandStop.Read }
    ensures ok { IfOk result (IsPrepared ask.now (F.contents files.old)
        (rows_of latched word_at ports.old.items) (rows_of latched word_at ports.new.items)) }
    ensures thread { IfOk result IsThread }
    ensures stop { IfErr result (IsStop (F.contents files.old)
        (IsAnswerIn ask.now (rows_of latched word_at ports.old.items))
        (F.faults files.old) (F.faults files.new)) }
    ensures kept { IfErr result (λ stop.
        stop ≢ NoMemory → is_difference stop ≡ false → ports.new ≡ ports.old) }
    ensures others { IfErr result (λ stop.
        stop ≢ NoMemory → OnlyReads ask.now ⊎ (ports.new ≡ ports.old)) }
    ensures part { OnErr result (IfSome (F.contents files.old) (λ contents. HasLeftFedInPart
        ask.now contents
        (rows_of latched word_at ports.old.items) (rows_of latched word_at ports.new.items))) }
    ensures reads { OnlyReads ask.now →
        rows_of latched word_at ports.new.items ≡ rows_of latched word_at ports.old.items }
    ensures reads_for { IfOk result (λ p. OnlyReads ask.now → OnlyReadsFor p) }
    ensures apart { UsesNoPort ask.now → ports.new ≡ ports.old }
    ensures apart_from { IfOk result (λ p. UsesNoPort ask.now → IsWithoutPort p) }
    ensures eight { vec_len ports.new ≡ 8 }
{
    match ask {
        Ask::Run {
            setup,
            thread,
            cycles,
        } => trace(alloc, setup, *thread, *cycles, files, ports),
        Ask::Dump { setup, cycles } => dump(alloc, setup, *cycles, files, ports),
        Ask::Asm { source } => image(alloc, source, files),
        Ask::Bound {
            setup,
            thread,
            section,
        } => bound(alloc, setup, *thread, *section, files),
        Ask::Selfrun { number } => own_run(alloc, *number),
        Ask::Phases { setup, cycles } => phases(alloc, setup, *cycles, files, ports),
        Ask::Solo {
            setup,
            thread,
            cycles,
        } => solo(alloc, setup, *thread, *cycles, files),
        Ask::Check {
            setup,
            thread,
            cycles,
            trace,
        } => check(alloc, setup, *thread, *cycles, trace, files, ports),
        Ask::Elf { file } => imported(alloc, file, files),
        Ask::Calls {
            setup,
            thread,
            section,
            routines,
        } => calls(alloc, setup, *thread, *section, routines, files),
    }
}
