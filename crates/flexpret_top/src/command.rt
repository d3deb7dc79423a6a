//! The command over files, a sink and the ports.

ghost use Rattle.std.specs.Prelude.{◌≡◌, ◌≢◌, ◌⊎◌, ◌≤◌, map, string_bytes, vec_len};
ghost use Rattle.fp_ports.specs.PluggedPorts.{rows_of};
ghost use Rattle.fp_elf.specs.Law.{ReadsBack};
ghost use Rattle.fp_setup.specs.AcceptedSetups.{AcceptedKeepRules};
ghost use Rattle.isolation.specs.RetiredTraces.{RetiredTraceAlone, RetiredTraceByPhases};
ghost use Rattle.visit_bounds.specs.SetupInSettings.{CallVisitsStayBoundedInSettings};
ghost use Rattle.visit_bounds.specs.SetupInSettings.{VisitsStayBoundedInSettings};
ghost use Rattle.command_line.specs.Commands.{ask};
ghost use Rattle.command_line.specs.Limits.{IsWithinLimits};
ghost use Rattle.commands.specs.Status.{number_of};
ghost use Rattle.commands.specs.declared.stop.CommandStop.{CommandStop};
ghost use Rattle.flexpret_top.specs.Endings.{HasEnded};
ghost use Rattle.flexpret_top.specs.Outcome.{Outcome, state};

use crate::deliver::deliver;
use crate::prepare::prepare;
use command_line::{Ask, WordsNo, read_words};
use commands::{CommandStop, Status, difference_line};
use fp_elf::reads_back;
use fp_io::{Files, PutFailed, Sink};
use fp_ports::Ports;
use fp_setup::accepted_keep_rules;
use isolation::retired_traces::{traces_alone, traces_by_phases};
use std::alloc::Global;
use trace_print::{Refusal, refusal_line};
use visit_bounds::setups::{calls_stay_bounded_in_settings, stays_bounded_in_settings};

/// Writes the line of a refusal.
fn refuse<K: Sink>(refusal: &Refusal, out: &mut K) -> Status
    ensures counted { K.faults out.old ≤ K.faults out.new }
    ensures ends { HasEnded (CommandStop.Refused refusal.now) (K.faults out.old) (K.faults out.new)
        (K.taken out.old) (K.taken out.new) result }
    ensures statuses { (result ≢ Status.Read) × (result ≢ Status.NoMemory) }
{
    match out.put(refusal_line(refusal).as_bytes()) {
        Ok(()) => Status::of_refusal(refusal),
        Err(PutFailed) => Status::Write,
    }
}

/// Writes the line of a trace that isn't the defined one.
fn write_difference<K: Sink>(line: u64, out: &mut K) -> Status
    ensures counted { K.faults out.old ≤ K.faults out.new }
    ensures ends { HasEnded (CommandStop.Differs line) (K.faults out.old) (K.faults out.new)
        (K.taken out.old) (K.taken out.new) result }
    ensures statuses { (result ≢ Status.Read) × (result ≢ Status.NoMemory) }
{
    match out.put(difference_line(line).as_bytes()) {
        Ok(()) => Status::Differs,
        Err(PutFailed) => Status::Write,
    }
}

/// Ends a command before its text.
fn end<K: Sink>(stop: CommandStop, out: &mut K) -> Status
    ensures counted { K.faults out.old ≤ K.faults out.new }
    ensures ends { HasEnded stop (K.faults out.old) (K.faults out.new)
        (K.taken out.old) (K.taken out.new) result }
    ensures nothing { (result ≡ Status.Read) ⊎ (result ≡ Status.NoMemory)
        → out.new ≡ out.old }
{
    match stop {
        CommandStop::Refused(refusal) => refuse(&refusal, out),
        CommandStop::Differs { line } => write_difference(line, out),
        CommandStop::Read => Status::Read,
        CommandStop::NoMemory => Status::NoMemory,
    }
}

/// Answers a command.
fn answer<F: Files, K: Sink>(
    alloc: Global,
    ask: &Ask,
    files: &mut F,
    out: &mut K,
    ports: &mut Ports,
) -> Status
    requires limits { IsWithinLimits ask.now }
    requires eight { vec_len ports.old ≡ 8 }
    ensures outcome { Outcome F.looks_first (Some ask.now)
        (state F.Files K.Sink files.old out.old ports.old
        (rows_of latched word_at ports.old.items))
        (state F.Files K.Sink files.new out.new ports.new
        (rows_of latched word_at ports.new.items))
        (number_of result) }
    ensures eight { vec_len ports.new ≡ 8 }
{
    theorems();
    match prepare(alloc, ask, files, ports) {
        Ok(prepared) => match deliver(prepared, ports, out) {
            Ok(()) => Status::Ok,
            Err(PutFailed) => Status::Write,
        },
        Err(stop) => end(stop, out),
    }
}

/// The theorems for the contract: one thread's trace and visits don't depend on the other threads'
/// code, an accepted setup keeps the rules, and the image of an executable reads back.
fn theorems()
    ensures rules { AcceptedKeepRules }
    ensures by_view { RetiredTraceAlone }
    ensures by_phases { RetiredTraceByPhases }
    ensures visits { VisitsStayBoundedInSettings }
    ensures call_visits { CallVisitsStayBoundedInSettings }
    ensures imported { ReadsBack }
{
    accepted_keep_rules();
    traces_alone();
    traces_by_phases();
    stays_bounded_in_settings();
    calls_stay_bounded_in_settings();
    reads_back();
}

/// Runs the command of a command line. `words` has the arguments after the program's name, and
/// `ports` has the eight devices, or none, at the ports of the threads:
///
/// - `run SETUP --thread i --cycles n`: the lines of the thread's events that have retired after n
///   cycles;
/// - `dump SETUP --cycles n`: the observed state of the machine then;
/// - `asm SOURCE`: the image of a source;
/// - `solo SETUP --thread i --cycles n`: the lines of the thread's events from only its view, for a
///   confined thread that starts hard and awake;
/// - `check SETUP --thread i --cycles n --trace FILE`: `same` if a recorded trace has these lines;
/// - `bound SETUP --thread i --from a --to b`: the largest number of cycles from a section's first
///   issue to the last, over all paths that keep the loops' bounds;
/// - `selfrun NUMBER`: the tallies of the eight threads in a run of programs drawn from the number;
/// - `phases SETUP --cycles n`: the settings of slots and modes in n cycles, each with the first
///   cycle that is picked by it: the first one, and one for each write of them that has retired;
/// - `elf FILE`: the image of a static ELF32 executable;
/// - `calls SETUP --thread i --from a --to b --routines FILE`: the largest number of cycles from a
///   section's first issue to the last, over all paths with matching calls and returns that go
///   through the routines of the file and keep the loops' bounds.
///
/// Returns the status of the command:
///
/// - 0: the command's text was written;
/// - 1: the recorded trace isn't the defined one; the line with the place was written;
/// - 2: usage error; nothing was fetched, and nothing written;
/// - 3: the setup has a fault, the section's addresses aren't those of a section, or the thread
///   isn't hard and awake, has no slot or isn't confined; the refusal line was written;
/// - 4: the image or the executable has a fault; its refusal line was written;
/// - 5: the source has a fault; its refusal line was written;
/// - 6: the section has no bound, or one past 64 bits; the refusal line was written;
/// - 7: a file isn't there, or it could not be read; nothing was written;
/// - 8: the sink failed; a prefix of the text or refusal line was written;
/// - 9: memory ran out; nothing was written;
/// - 10: the list of routines has a fault; its refusal line was written.
pub fn flexpret<F: Files, K: Sink>(
    alloc: Global,
    words: &[String],
    files: &mut F,
    out: &mut K,
    ports: &mut Ports,
) -> u8
    requires { vec_len ports.old ≡ 8 }
    ensures outcome { Outcome F.looks_first (ask (map string_bytes words.now))
        (state F.Files K.Sink files.old out.old ports.old
        (rows_of latched word_at ports.old.items))
        (state F.Files K.Sink files.new out.new ports.new
        (rows_of latched word_at ports.new.items))
        result }
    ensures eight { vec_len ports.new ≡ 8 }
{
    match read_words(alloc, words) {
        Ok(ask) => answer(alloc, &ask, files, out, ports).number(),
        Err(WordsNo::Usage) => Status::Usage.number(),
        Err(WordsNo::NoMemory) => Status::NoMemory.number(),
    }
}
