//! Commands that run the machine.

ghost use Rattle.std.specs.Prelude.{◌≡◌, ◌≢◌, ◌≤◌, ◌<◌, ℕ, Err, IfOk};
ghost use Rattle.std.specs.Prelude.{IfErr, OnOk, OnErr, IfSome, List, Option, length, vec_len};
ghost use Rattle.timer_unit.specs.Time.{most_cycles};
ghost use Rattle.fp_ports.specs.PluggedPorts.{Row, rows_of};
ghost use Rattle.command_line.specs.declared.asked.Ask.{Ask};
ghost use Rattle.machine.specs.Feeding.{IsFedPrefix, fed_all};
ghost use Rattle.machine.specs.WorldRelation.{Refines, start_with_ports};
ghost use Rattle.flexpret_top.specs.declared.ready.Prepared.{Prepared};
ghost use Rattle.flexpret_top.specs.Command.{IsAnswerIn, IsUnrun};
ghost use Rattle.commands.specs.Program.{IsProgramAsked, program};
ghost use Rattle.flexpret_top.specs.Prepared.{IsPrepared, IsReady, IsThread};
ghost use Rattle.commands.specs.Stops.{FindsNone, IsStop, IsStopIn};
ghost use Rattle.commands.specs.declared.stop.CommandStop.{CommandStop};
ghost use Rattle.commands.specs.declared.stop.CommandStop.TheVariants.{NoMemory};

use crate::ready::{Prepared, Ready};
use command_line::Ask;
use commands::{CommandStop, Program, load};
use fp_io::Files;
use fp_ports::Ports;
use fp_setup::Name;
use machine::{Machine, feed_inputs};
use std::alloc::{AllocError, Global};

/// The machine of a program, with the ports fed.
fn machine_with_ports(
    alloc: Global,
    program: &Program,
    ports: &mut Ports,
) -> Result<Machine, AllocError>
    requires eight { vec_len ports.old ≡ 8 }
    ensures refines { IfOk result
        (λ m. (ports : List (Option Row)) (n : ℕ) → length ports ≡ 8 →
        Refines (start_with_ports program.now.setup program.now.image ports n) 0 n m ports) }
    ensures start { IfOk result (λ m. m.at ≡ 0) }
    ensures fed { OnOk result (rows_of latched word_at ports.new.items ≡
        fed_all program.now.setup (rows_of latched word_at ports.old.items)) }
    ensures part { OnErr result (IsFedPrefix program.now.setup
        (rows_of latched word_at ports.old.items) (rows_of latched word_at ports.new.items)) }
    ensures eight { vec_len ports.new ≡ 8 }
{
    match Machine::load(alloc, &program.setup, &program.image) {
        Ok(machine) => match feed_inputs(&program.setup, ports) {
            Ok(()) => Ok(machine),
            Err(error) => Err(error),
        },
        Err(error) => Err(error),
    }
}

/// The machine of a setup and the image that it names, with the ports fed.
fn ready<F: Files>(
    alloc: Global,
    setup: &Name,
    cycles: u64,
    files: &mut F,
    ports: &mut Ports,
) -> Result<Ready, CommandStop>
    requires limit { cycles ≤ most_cycles }
    requires eight { vec_len ports.old ≡ 8 }
    ensures contents { F.contents files.new ≡ F.contents files.old }
    ensures asked { IsProgramAsked (F.contents files.old) setup.now
        (F.requests files.old) (F.requests files.new) }
    ensures counted { F.faults files.old ≤ F.faults files.new }
    ensures missing { FindsNone F.looks_first (F.contents files.old) setup.now
        → result ≡ Err CommandStop.Read }
    ensures ok { IfOk result (λ r. IfSome (F.contents files.old) (λ contents. IsReady
        contents setup.now
        (rows_of latched word_at ports.old.items) (rows_of latched word_at ports.new.items) r)) }
    ensures cycles { IfOk result (λ r. r.cycles ≡ cycles) }
    ensures stop { IfErr result (IsStopIn (F.contents files.old) (λ contents. program
        contents setup.now)
        (F.faults files.old) (F.faults files.new)) }
    ensures kept { IfErr result (λ stop. stop ≢ NoMemory → ports.new ≡ ports.old) }
    ensures part { OnErr result (IfSome (F.contents files.old) (λ contents. IsUnrun
        contents setup.now
        (rows_of latched word_at ports.old.items) (rows_of latched word_at ports.new.items))) }
    ensures eight { vec_len ports.new ≡ 8 }
{
    match load(alloc, setup, files) {
        Ok(program) => match machine_with_ports(alloc, &program, ports) {
            Ok(machine) => Ok(Ready {
                setup: program.setup,
                machine,
                cycles,
            }),
            Err(AllocError) => Err(CommandStop::NoMemory),
        },
        Err(stop) => Err(stop),
    }
}

/// `run SETUP --thread i --cycles n`
///
/// `dump` and `phases` differ from it in the command of their clauses. One function for the three
/// would take the command and the kind of output, and match on both.
pub fn trace<F: Files>(
    alloc: Global,
    setup: &Name,
    thread: u8,
    cycles: u64,
    files: &mut F,
    ports: &mut Ports,
) -> Result<Prepared, CommandStop>
    requires limit { cycles ≤ most_cycles }
    requires thread { thread < 8 }
    requires eight { vec_len ports.old ≡ 8 }
    ensures contents { F.contents files.new ≡ F.contents files.old }
    ensures asked { IsProgramAsked (F.contents files.old) setup.now
        (F.requests files.old) (F.requests files.new) }
    ensures counted { F.faults files.old ≤ F.faults files.new }
    ensures missing { FindsNone F.looks_first (F.contents files.old) setup.now
        → result ≡ Err CommandStop.Read }
    ensures ok { IfOk result (IsPrepared (Ask.Run setup.now thread cycles) (F.contents files.old)
        (rows_of latched word_at ports.old.items) (rows_of latched word_at ports.new.items)) }
    ensures thread { IfOk result IsThread }
    ensures stop { IfErr result (IsStop (F.contents files.old)
        (IsAnswerIn (Ask.Run setup.now thread cycles) (rows_of latched word_at ports.old.items))
        (F.faults files.old) (F.faults files.new)) }
    ensures kept { IfErr result (λ stop. stop ≢ NoMemory → ports.new ≡ ports.old) }
    ensures part { OnErr result (IfSome (F.contents files.old) (λ contents. IsUnrun
        contents setup.now
        (rows_of latched word_at ports.old.items) (rows_of latched word_at ports.new.items))) }
    ensures eight { vec_len ports.new ≡ 8 }
{
    let ready = ready(alloc, setup, cycles, files, ports)?;
    Ok(Prepared::Trace { ready, thread })
}

/// `dump SETUP --cycles n`
pub fn dump<F: Files>(
    alloc: Global,
    setup: &Name,
    cycles: u64,
    files: &mut F,
    ports: &mut Ports,
) -> Result<Prepared, CommandStop>
    requires limit { cycles ≤ most_cycles }
    requires eight { vec_len ports.old ≡ 8 }
    ensures contents { F.contents files.new ≡ F.contents files.old }
    ensures asked { IsProgramAsked (F.contents files.old) setup.now
        (F.requests files.old) (F.requests files.new) }
    ensures counted { F.faults files.old ≤ F.faults files.new }
    ensures missing { FindsNone F.looks_first (F.contents files.old) setup.now
        → result ≡ Err CommandStop.Read }
    ensures ok { IfOk result (IsPrepared (Ask.Dump setup.now cycles) (F.contents files.old)
        (rows_of latched word_at ports.old.items) (rows_of latched word_at ports.new.items)) }
    ensures thread { IfOk result IsThread }
    ensures stop { IfErr result (IsStop (F.contents files.old)
        (IsAnswerIn (Ask.Dump setup.now cycles) (rows_of latched word_at ports.old.items))
        (F.faults files.old) (F.faults files.new)) }
    ensures kept { IfErr result (λ stop. stop ≢ NoMemory → ports.new ≡ ports.old) }
    ensures part { OnErr result (IfSome (F.contents files.old) (λ contents. IsUnrun
        contents setup.now
        (rows_of latched word_at ports.old.items) (rows_of latched word_at ports.new.items))) }
    ensures eight { vec_len ports.new ≡ 8 }
{
    Ok(Prepared::Dump(ready(alloc, setup, cycles, files, ports)?))
}

/// `phases SETUP --cycles n`
pub fn phases<F: Files>(
    alloc: Global,
    setup: &Name,
    cycles: u64,
    files: &mut F,
    ports: &mut Ports,
) -> Result<Prepared, CommandStop>
    requires limit { cycles ≤ most_cycles }
    requires eight { vec_len ports.old ≡ 8 }
    ensures contents { F.contents files.new ≡ F.contents files.old }
    ensures asked { IsProgramAsked (F.contents files.old) setup.now
        (F.requests files.old) (F.requests files.new) }
    ensures counted { F.faults files.old ≤ F.faults files.new }
    ensures missing { FindsNone F.looks_first (F.contents files.old) setup.now
        → result ≡ Err CommandStop.Read }
    ensures ok { IfOk result (IsPrepared (Ask.Phases setup.now cycles) (F.contents files.old)
        (rows_of latched word_at ports.old.items) (rows_of latched word_at ports.new.items)) }
    ensures thread { IfOk result IsThread }
    ensures stop { IfErr result (IsStop (F.contents files.old)
        (IsAnswerIn (Ask.Phases setup.now cycles) (rows_of latched word_at ports.old.items))
        (F.faults files.old) (F.faults files.new)) }
    ensures kept { IfErr result (λ stop. stop ≢ NoMemory → ports.new ≡ ports.old) }
    ensures part { OnErr result (IfSome (F.contents files.old) (λ contents. IsUnrun
        contents setup.now
        (rows_of latched word_at ports.old.items) (rows_of latched word_at ports.new.items))) }
    ensures eight { vec_len ports.new ≡ 8 }
{
    Ok(Prepared::Phases(ready(alloc, setup, cycles, files, ports)?))
}
