//! One thread of a program from only its view.

ghost use Rattle.std.specs.Prelude.{◌≡◌, ◌*◌, ◌<◌, ◌≤◌, [], ◌∷◌, nat_eq, false, true};
ghost use Rattle.std.specs.Prelude.{Ok, Err, OnOk, OnErr, IfOk, IfErr, IfSome, vec_len};
ghost use Rattle.std.specs.Io.KnownBytes.{Appends};
ghost use Rattle.std.specs.List.{common_prefix_len};
ghost use Rattle.fp_io.specs.Causes.{HasRisen};
ghost use Rattle.fp_io.specs.Content.{AppendsPrefix, HasRequested};
ghost use Rattle.timer_unit.specs.Time.{most_cycles};
ghost use Rattle.fp_ports.specs.PluggedPorts.{rows_of};
ghost use Rattle.solo_run.specs.FirstDifference.{IsChecked};
ghost use Rattle.flexpret_top.specs.SoloAndCheck.{IsAlone, IsAloneOf, alone_fault};
ghost use Rattle.flexpret_top.specs.SoloAndCheck.{alone_in, alone_program, comparison_of};
ghost use Rattle.flexpret_top.specs.SoloAndCheck.{said_by, same_text, told_alone};
ghost use Rattle.flexpret_top.specs.Requests.{trace_request};
ghost use Rattle.commands.specs.Answer.{on_file};
ghost use Rattle.commands.specs.Program.{IsProgramAsked, program_requests};
ghost use Rattle.commands.specs.Stops.{FindsNone, IsAnswerStop, IsStopIn};
ghost use Rattle.commands.specs.Stops.{IsStopOf, IsMadeBy, is_difference};
ghost use Rattle.commands.specs.declared.stop.CommandStop.{CommandStop};

use crate::ready::Alone;
use crate::shown::ReadPort;
use commands::{CommandStop, Program, SectionNo, fetch, load, section_refusal};
use fp_io::{Files, PutFailed, Sink};
use fp_ports::Ports;
use fp_setup::{Name, Setup};
use setup_model::modes;
use solo_run::{Checked, SoloRun, SoloView};
use std::alloc::Global;

/// More bytes than an event's line has.
const MOST_OF_A_LINE: usize = 60;

/// Why a thread can't be run from only its view, if so.
#[tactic(auto, unfolding(crate::specs::SoloAndCheck::alone_fault))]
fn alone_fault(setup: &Setup, thread: u8) -> Option<SectionNo>
    requires { thread < 8 }
    ensures { result ≡ alone_fault setup.now thread }
{
    if modes(setup).mode(thread) != 0 {
        Some(SectionNo::NotHard)
    } else if !setup.threads.get(thread).confined {
        Some(SectionNo::NotConfined)
    } else {
        None
    }
}

/// A thread of a program, from only its view.
fn alone_in(alloc: Global, program: Program, thread: u8, cycles: u64) -> Result<Alone, CommandStop>
    requires thread { thread < 8 }
    requires limit { cycles ≤ most_cycles }
    ensures ok { IfOk result (IsAloneOf program thread cycles) }
    ensures accepted { IfOk result (λ a. alone_in thread program ≡ Ok program) }
    ensures stop { IfErr result (IsAnswerStop (λ x. alone_in thread program ≡ Err x)) }
{
    let Program { setup, image } = program;
    if let Some(no) = alone_fault(&setup, thread) {
        return Err(CommandStop::Refused(section_refusal(no)));
    }
    let view = SoloView::of(alloc, &setup, &image, thread)?;
    Ok(Alone {
        setup,
        view,
        cycles,
    })
}

/// A thread of the program of a setup and the image that it names, from only its view.
pub fn load_alone<F: Files>(
    alloc: Global,
    name: &Name,
    thread: u8,
    cycles: u64,
    files: &mut F,
) -> Result<Alone, CommandStop>
    requires thread { thread < 8 }
    requires limit { cycles ≤ most_cycles }
    ensures contents { F.contents files.new ≡ F.contents files.old }
    ensures counted { F.faults files.old ≤ F.faults files.new }
    ensures missing { FindsNone F.looks_first (F.contents files.old) name.now → result
        ≡ Err CommandStop.Read }
    ensures asked { IsProgramAsked (F.contents files.old) name.now
        (F.requests files.old) (F.requests files.new) }
    ensures requests { IfOk result (λ a. HasRequested (F.requests files.old) (F.requests files.new)
        (program_requests name.now a.setup)) }
    ensures ok { IfOk result (λ a. IfSome (F.contents files.old) (λ contents.
        IsAlone contents name.now thread cycles a)) }
    ensures cycles { IfOk result (λ a. a.cycles ≡ cycles) }
    ensures stop { IfErr result (IsStopIn (F.contents files.old)
        (λ contents. alone_program contents name.now thread) (F.faults files.old) (F.faults
        files.new)) }
{
    match load(alloc, name, files) {
        Ok(program) => alone_in(alloc, program, thread, cycles),
        Err(stop) => Err(stop),
    }
}

/// Writes the lines of the thread's events.
pub fn put_alone<K: Sink>(alone: Alone, ports: &mut Ports, out: &mut K) -> Result<(), PutFailed>
    requires { vec_len ports.old ≡ 8 }
    ensures ok { OnOk result (Appends (K.taken out.old) (K.taken out.new)
        (told_alone alone (rows_of latched word_at ports.old.items))) }
    ensures err { OnErr result (AppendsPrefix (K.taken out.old) (K.taken out.new)
        (told_alone alone (rows_of latched word_at ports.old.items))) }
    ensures failed { OnErr result (HasRisen (K.faults out.old) (K.faults out.new)) }
    ensures counted { K.faults out.old ≤ K.faults out.new }
    ensures rows { rows_of latched word_at ports.new.items ≡
        rows_of latched word_at ports.old.items }
    ensures eight { vec_len ports.new ≡ 8 }
{
    let Alone {
        setup,
        view,
        cycles,
    } = alone;
    let thread = view.thread;
    let mut port = ReadPort {
        device: ports[thread as usize].take(),
        thread: setup.threads.get(thread),
    };
    let put = SoloRun::new(view).run(cycles, &mut port, out);
    ports[thread as usize] = port.device;
    put
}

/// Compares a recorded trace with the lines of the thread's events.
pub fn check_alone(alone: Alone, ports: &mut Ports, given: &[u8]) -> Checked
    requires { vec_len ports.old ≡ 8 }
    ensures checked { IsChecked given.now
        (told_alone alone (rows_of latched word_at ports.old.items)) result }
    ensures prefix { common_prefix_len nat_eq given.now
        (told_alone alone (rows_of latched word_at ports.old.items)) ≤ 59 * alone.cycles }
    ensures rows { rows_of latched word_at ports.new.items ≡
        rows_of latched word_at ports.old.items }
    ensures eight { vec_len ports.new ≡ 8 }
{
    let Alone {
        setup,
        view,
        cycles,
    } = alone;
    let thread = view.thread;
    let mut port = ReadPort {
        device: ports[thread as usize].take(),
        thread: setup.threads.get(thread),
    };
    let checked = SoloRun::new(view).check(cycles, &mut port, given);
    ports[thread as usize] = port.device;
    checked
}

/// The result of a comparison: a trace that isn't the defined one ends the command.
fn said_by(checked: Checked) -> Result<(), CommandStop>
    ensures same { OnOk result (said_by checked ≡ Ok same_text) }
    ensures stop { IfErr result (IsStopOf (said_by checked)) }
    ensures difference { IfErr result (λ stop. is_difference stop ≡ true) }
{
    match checked {
        Checked::Same => Ok(()),
        Checked::Differs { line } => Err(CommandStop::Differs { line }),
    }
}

/// Fetches a recorded trace, and compares it with the lines of the thread's events.
///
/// # Errors
///
/// If they differ, with the line; if the trace isn't there or can't be read; `NoMemory` if memory
/// ran out.
pub fn compare_alone<F: Files>(
    alloc: Global,
    alone: Alone,
    trace: &Name,
    files: &mut F,
    ports: &mut Ports,
) -> Result<(), CommandStop>
    requires { vec_len ports.old ≡ 8 }
    ensures contents { F.contents files.new ≡ F.contents files.old }
    ensures counted { F.faults files.old ≤ F.faults files.new }
    ensures missing { FindsNone F.looks_first (F.contents files.old) trace.now
        → result ≡ Err CommandStop.Read }
    ensures request { HasRequested (F.requests files.old) (F.requests files.new)
        (trace_request trace.now alone.cycles ∷ []) }
    ensures ok { OnOk result (IsMadeBy (F.contents files.old)
        (on_file (comparison_of (told_alone alone (rows_of latched word_at ports.old.items)))
        trace.now)
        same_text) }
    ensures stop { IfErr result (IsStopIn (F.contents files.old)
        (on_file (comparison_of (told_alone alone (rows_of latched word_at ports.old.items)))
        trace.now)
        (F.faults files.old) (F.faults files.new)) }
    ensures kept { IfErr result
        (λ stop. is_difference stop ≡ false → ports.new ≡ ports.old) }
    ensures rows { rows_of latched word_at ports.new.items ≡
        rows_of latched word_at ports.old.items }
    ensures eight { vec_len ports.new ≡ 8 }
{
    match fetch(alloc, trace, MOST_OF_A_LINE * alone.cycles as usize, files) {
        Ok(given) => said_by(check_alone(alone, ports, &given)),
        Err(stop) => Err(stop),
    }
}
