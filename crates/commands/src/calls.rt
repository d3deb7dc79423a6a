//! The bound of a section of a program through the routines that a file lists.

ghost use Rattle.std.specs.Prelude.{◌≡◌, ◌≢◌, ◌<◌, ◌≤◌, [], ◌∷◌, None};
ghost use Rattle.std.specs.Prelude.{Ok, Err, IfOk, IfErr, OnOk, IfSome};
ghost use Rattle.fp_io.specs.Content.{HasRequested};
ghost use Rattle.region_guard.specs.Regions.{IsSize};
ghost use Rattle.region_tree.specs.Tree.{IsSection};
ghost use Rattle.call_bounds.specs.CallRefusals.{IsCallable};
ghost use Rattle.call_bounds.specs.Listing.{calls};
ghost use Rattle.trace_print.specs.Bounds.{bound_text};
ghost use Rattle.commands.specs.Answer.{on_file};
ghost use Rattle.commands.specs.Answer.Answer.{Says};
ghost use Rattle.commands.specs.BoundAnswer.{section_fault};
ghost use Rattle.commands.specs.CallsAnswer.{IsCallsAnswer, IsListingAnswer, IsListingRefused};
ghost use Rattle.commands.specs.CallsAnswer.{routines_in, routines_request, section_listing};
ghost use Rattle.commands.specs.Codes.{routines_code};
ghost use Rattle.commands.specs.Stops.{FindsNone, IsAnswerStop, IsStop};
ghost use Rattle.commands.specs.Stops.{IsStopIn, IsStopOf, IsMadeBy};
ghost use Rattle.commands.specs.BoundStops.{stop_of_calls};

use crate::bound::{bound_stop, section_fault};
use crate::codes::{BoundCode, bound_refusal, section_refusal};
use crate::program::{Program, fetch};
use crate::stop::CommandStop;
use call_bounds::{
    CallNo, CallTree, MOST_LIST_BYTES, Routines, RoutinesNo, RoutinesRefused, call_bound,
    read_routines,
};
use fp_io::Files;
use fp_setup::Name;
use region_tree::Section;
use setup_model::slot_table;
use std::alloc::Global;
use trace_print::Refusal;

/// The refusal of a list of routines.
fn routines_refusal(line: u32, code: RoutinesNo) -> Refusal
    ensures { result ≡ Refusal.Routines line (routines_code code) }
{
    Refusal::Routines {
        line,
        code: code as u8,
    }
}

/// The routines of a file's bytes, for scratchpads of a size.
#[tactic(auto, unfolding(crate::specs::CallsAnswer::routines_in))]
fn routines_in(alloc: Global, bytes: &[u8], size: u32) -> Result<Routines, CommandStop>
    requires { IsSize size }
    ensures ok { IfOk result (λ routines. routines_in size bytes.now ≡ Ok routines) }
    ensures stop { IfErr result (IsStopOf (routines_in size bytes.now)) }
{
    match read_routines(alloc, bytes, size) {
        Ok(routines) => Ok(routines),
        Err(RoutinesRefused::Fault { line, code }) => {
            Err(CommandStop::Refused(routines_refusal(line, code)))
        }
        Err(RoutinesRefused::NoMemory) => Err(CommandStop::NoMemory),
    }
}

/// Fetches and reads a list of routines, for scratchpads of a size.
fn fetch_routines<F: Files>(
    alloc: Global,
    name: &Name,
    size: u32,
    files: &mut F,
) -> Result<Routines, CommandStop>
    requires { IsSize size }
    ensures contents { F.contents files.new ≡ F.contents files.old }
    ensures counted { F.faults files.old ≤ F.faults files.new }
    ensures request { HasRequested (F.requests files.old) (F.requests files.new)
        (routines_request name.now ∷ []) }
    ensures missing { FindsNone F.looks_first (F.contents files.old) name.now → result
        ≡ Err CommandStop.Read }
    ensures ok { IfOk result (IsMadeBy (F.contents files.old) (on_file (routines_in size)
        name.now)) }
    ensures stop { IfErr result (IsStopIn (F.contents files.old) (on_file (routines_in
        size) name.now)
        (F.faults files.old) (F.faults files.new)) }
{
    let bytes = fetch(alloc, name, MOST_LIST_BYTES, files)?;
    routines_in(alloc, &bytes, size)
}

/// Why a section with its routines has no bound.
fn call_stop(no: CallNo) -> CommandStop
    ensures { result ≡ stop_of_calls no }
{
    let (code, address) = match no {
        CallNo::Nesting { address } => (BoundCode::Nesting, address),
        CallNo::IndirectJump { address } => (BoundCode::IndirectJump, address),
        CallNo::TimedWait { address } => (BoundCode::TimedWait, address),
        CallNo::UnboundedBackEdge { address } => (BoundCode::UnboundedBackEdge, address),
        CallNo::Overlap { address } => (BoundCode::Overlap, address),
        CallNo::Recursion { address } => (BoundCode::Recursion, address),
        CallNo::Escape { address } => (BoundCode::Escape, address),
        CallNo::NoMemory => return CommandStop::NoMemory,
    };
    CommandStop::Refused(bound_refusal(code, u128::from(address)))
}

/// The tree of a section with its routines.
#[tactic(auto, using(crate::proofs::CallAnswers::call_stops))]
fn call_tree(
    alloc: Global,
    program: &Program,
    section: Section,
    routines: &Routines,
) -> Result<CallTree, CommandStop>
    requires { IsSection section }
    ensures tree { IfOk result
        (λ tree. tree ≡ section_listing program.now section routines.now) }
    ensures allowed { OnOk result
        (IsCallable (calls (section_listing program.now section routines.now))) }
    ensures stop { IfErr result
        (IsAnswerStop (IsListingRefused (section_listing program.now section routines.now))) }
{
    match CallTree::build(
        alloc,
        &program.image,
        section,
        routines,
        &program.setup.loops,
    ) {
        Ok(tree) => Ok(tree),
        Err(no) => Err(call_stop(no)),
    }
}

/// The bound, through its routines, of a section whose bound can be requested, in cycles.
fn calls_in(
    alloc: Global,
    program: &Program,
    thread: u8,
    section: Section,
    routines: &Routines,
) -> Result<u64, CommandStop>
    requires thread { thread < 8 }
    requires section { section_fault program.now.setup thread section ≡ None }
    ensures ok { IfOk result (λ cycles.
        IsListingAnswer (section_listing program.now section routines.now)
        program.now.setup.slots thread (Says 0 (bound_text cycles))) }
    ensures stop { IfErr result (IsAnswerStop
        (IsListingAnswer (section_listing program.now section routines.now)
        program.now.setup.slots thread)) }
{
    let tree = call_tree(alloc, program, section, routines)?;
    match call_bound(alloc, &tree, &slot_table(&program.setup), thread) {
        Ok(cycles) => Ok(cycles),
        Err(no) => Err(bound_stop(no)),
    }
}

/// The bound of a section for a thread through the routines of a file, in cycles.
///
/// # Errors
///
/// If the section's bound can't be requested; if the file isn't there, can't be read or has a
/// fault; if the section with these routines has no bound, or one past 64 bits. `NoMemory` if
/// memory ran out, unless the files are known to lack the file.
pub fn calls_bound<F: Files>(
    alloc: Global,
    program: &Program,
    thread: u8,
    section: Section,
    routines: &Name,
    files: &mut F,
) -> Result<u64, CommandStop>
    requires { thread < 8 }
    ensures contents { F.contents files.new ≡ F.contents files.old }
    ensures counted { F.faults files.old ≤ F.faults files.new }
    ensures refused { section_fault program.now.setup thread section ≢ None →
        files.new ≡ files.old }
    ensures request { section_fault program.now.setup thread section ≡ None →
        HasRequested (F.requests files.old) (F.requests files.new) (routines_request
        routines.now ∷ []) }
    ensures missing { section_fault program.now.setup thread section ≡ None →
        FindsNone F.looks_first (F.contents files.old) routines.now → result
        ≡ Err CommandStop.Read }
    ensures ok { IfOk result (λ cycles. IfSome (F.contents files.old) (λ contents.
        IsCallsAnswer (Ok program.now) thread section (contents routines.now)
        (Says 0 (bound_text cycles)))) }
    ensures stop { IfErr result (IsStop (F.contents files.old)
        (λ contents x. IsCallsAnswer (Ok program.now) thread section (contents routines.now) x)
        (F.faults files.old) (F.faults files.new)) }
{
    if let Some(no) = section_fault(&program.setup, thread, section) {
        return Err(CommandStop::Refused(section_refusal(no)));
    }
    match fetch_routines(alloc, routines, program.setup.size(), files) {
        Ok(routines) => calls_in(alloc, program, thread, section, &routines),
        Err(stop) => Err(stop),
    }
}
