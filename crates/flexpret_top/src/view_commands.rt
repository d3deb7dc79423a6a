//! Commands that run a thread from only its view.

ghost use Rattle.std.specs.Prelude.{◌≡◌, ◌≤◌, ◌<◌, false, Err, IfOk};
ghost use Rattle.std.specs.Prelude.{IfErr, vec_len};
ghost use Rattle.timer_unit.specs.Time.{most_cycles};
ghost use Rattle.fp_ports.specs.PluggedPorts.{rows_of};
ghost use Rattle.command_line.specs.declared.asked.Ask.{Ask};
ghost use Rattle.flexpret_top.specs.SoloAndCheck.{alone_program};
ghost use Rattle.flexpret_top.specs.declared.ready.Prepared.{Prepared};
ghost use Rattle.flexpret_top.specs.Command.{IsAnswerIn};
ghost use Rattle.flexpret_top.specs.Requests.{IsAsked};
ghost use Rattle.commands.specs.Program.{IsProgramAsked};
ghost use Rattle.flexpret_top.specs.Prepared.{IsPrepared, IsPreparedApart, IsThread, OnlyReadsFor};
ghost use Rattle.commands.specs.Stops.{FindsNone, IsStop, IsStopIn, is_difference};
ghost use Rattle.commands.specs.declared.stop.CommandStop.{CommandStop};

use crate::alone::{compare_alone, load_alone};
use crate::ready::Prepared;
use command_line::Ask;
use commands::CommandStop;
use fp_io::Files;
use fp_ports::Ports;
use fp_setup::Name;
use std::alloc::Global;

/// `solo SETUP --thread i --cycles n`
pub fn solo<F: Files>(
    alloc: Global,
    setup: &Name,
    thread: u8,
    cycles: u64,
    files: &mut F,
) -> Result<Prepared, CommandStop>
    requires limit { cycles ≤ most_cycles }
    requires thread { thread < 8 }
    ensures contents { F.contents files.new ≡ F.contents files.old }
    ensures asked { IsProgramAsked (F.contents files.old) setup.now
        (F.requests files.old) (F.requests files.new) }
    ensures counted { F.faults files.old ≤ F.faults files.new }
    ensures missing { FindsNone F.looks_first (F.contents files.old) setup.now
        → result ≡ Err CommandStop.Read }
    ensures ok { IfOk result
        (IsPreparedApart (Ask.Solo setup.now thread cycles) (F.contents files.old)) }
    ensures thread { IfOk result IsThread }
    ensures reads { IfOk result OnlyReadsFor }
    ensures stop { IfErr result (IsStopIn (F.contents files.old)
        (λ contents. alone_program contents setup.now thread) (F.faults files.old) (F.faults
        files.new)) }
{
    match load_alone(alloc, setup, thread, cycles, files) {
        Ok(alone) => Ok(Prepared::Solo(alone)),
        Err(stop) => Err(stop),
    }
}

/// `check SETUP --thread i --cycles n --trace FILE`
pub fn check<F: Files>(
    alloc: Global,
    setup: &Name,
    thread: u8,
    cycles: u64,
    trace: &Name,
    files: &mut F,
    ports: &mut Ports,
) -> Result<Prepared, CommandStop>
    requires limit { cycles ≤ most_cycles }
    requires thread { thread < 8 }
    requires eight { vec_len ports.old ≡ 8 }
    ensures contents { F.contents files.new ≡ F.contents files.old }
    ensures asked { IsAsked (Ask.Check setup.now thread cycles trace.now) (F.contents files.old)
        (F.requests files.old) (F.requests files.new) }
    ensures counted { F.faults files.old ≤ F.faults files.new }
    ensures missing { FindsNone F.looks_first (F.contents files.old) setup.now
        → result ≡ Err CommandStop.Read }
    ensures ok { IfOk result
        (IsPrepared (Ask.Check setup.now thread cycles trace.now) (F.contents files.old)
        (rows_of latched word_at ports.old.items) (rows_of latched word_at ports.new.items)) }
    ensures thread { IfOk result IsThread }
    ensures reads { IfOk result OnlyReadsFor }
    ensures stop { IfErr result (IsStop (F.contents files.old)
        (IsAnswerIn (Ask.Check setup.now thread cycles trace.now)
        (rows_of latched word_at ports.old.items))
        (F.faults files.old) (F.faults files.new)) }
    ensures kept { IfErr result
        (λ stop. is_difference stop ≡ false → ports.new ≡ ports.old) }
    ensures rows { rows_of latched word_at ports.new.items ≡
        rows_of latched word_at ports.old.items }
    ensures eight { vec_len ports.new ≡ 8 }
{
    match load_alone(alloc, setup, thread, cycles, files) {
        Ok(alone) => match compare_alone(alloc, alone, trace, files, ports) {
            Ok(()) => Ok(Prepared::Same),
            Err(stop) => Err(stop),
        },
        Err(stop) => Err(stop),
    }
}
