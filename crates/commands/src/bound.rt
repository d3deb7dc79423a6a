//! The bound of a section of a program.

ghost use Rattle.std.specs.Prelude.{◌≡◌, ◌<◌, ◌≤◌, ◌↔◌, IsTrue, Some, Ok};
ghost use Rattle.std.specs.Prelude.{IfOk, IfErr, OnOk, None, Contains, length};
ghost use Rattle.region_tree.specs.Tree.{IsSection, IsTree};
ghost use Rattle.commands.specs.Answer.Answer.{Says};
ghost use Rattle.trace_print.specs.Bounds.{bound_text};
ghost use Rattle.commands.specs.BoundAnswer.{IsBoundAnswer, IsTreeRefused, IsTreeAnswer};
ghost use Rattle.commands.specs.BoundAnswer.{names, section_fault, section_tree};
ghost use Rattle.commands.specs.Stops.{IsAnswerStop};
ghost use Rattle.commands.specs.BoundStops.{stop_of_tree, stop_of_bound};

use crate::codes::{BoundCode, SectionNo, bound_refusal, section_refusal};
use crate::program::Program;
use crate::stop::CommandStop;
use bound_calc::{BoundNo, bound};
use fp_setup::Setup;
use region_tree::{LoopTree, Section, TreeNo};
use setup_model::{modes, slot_table};
use slot_table::{SlotTable, nibbles_of};
use std::alloc::Global;

/// Whether a slot of the register is assigned to a thread.
fn names(slots: &SlotTable, thread: u8) -> bool
    ensures { result ≡ names slots.now thread }
{
    nibbles_of(slots.word()).iter().any(|slot| *slot == thread)
}

/// Why the bound of a section can't be requested, if so.
#[tactic(auto, unfolding(crate::specs::BoundAnswer::section_fault))]
pub fn section_fault(setup: &Setup, thread: u8, section: Section) -> Option<SectionNo>
    requires { thread < 8 }
    ensures { result ≡ section_fault setup.now thread section }
{
    if modes(setup).mode(thread) != 0 {
        Some(SectionNo::NotHard)
    } else if !names(&slot_table(setup), thread) {
        Some(SectionNo::NoSlot)
    } else if section.to <= section.from {
        Some(SectionNo::Order)
    } else if section.from % 4 != 0 || section.to % 4 != 0 {
        Some(SectionNo::Misaligned)
    } else if section.to > setup.size() {
        Some(SectionNo::Outside)
    } else {
        None
    }
}

/// Why a section with its loops has no bound.
fn tree_stop(no: TreeNo) -> CommandStop
    ensures { result ≡ stop_of_tree no }
{
    let (code, address) = match no {
        TreeNo::Nesting { address } => (BoundCode::Nesting, address),
        TreeNo::IndirectJump { address } => (BoundCode::IndirectJump, address),
        TreeNo::TimedWait { address } => (BoundCode::TimedWait, address),
        TreeNo::UnboundedBackEdge { address } => (BoundCode::UnboundedBackEdge, address),
        TreeNo::NoMemory => return CommandStop::NoMemory,
    };
    CommandStop::Refused(bound_refusal(code, u128::from(address)))
}

/// Why there is no bound.
pub fn bound_stop(no: BoundNo) -> CommandStop
    ensures { result ≡ stop_of_bound no }
{
    match no {
        BoundNo::Overflow { value } => CommandStop::Refused(bound_refusal(
            BoundCode::Overflow,
            value,
        )),
        BoundNo::NoMemory => CommandStop::NoMemory,
    }
}

/// The tree of a section's loops.
#[tactic(auto, using(crate::proofs::Bounds::tree_stops))]
fn tree_in(alloc: Global, program: &Program, section: Section) -> Result<LoopTree, CommandStop>
    requires { IsSection section }
    ensures tree { IfOk result (λ tree. tree ≡ section_tree program.now section) }
    ensures rules { OnOk result (IsTree (section_tree program.now section)) }
    ensures stop { IfErr result (IsAnswerStop (IsTreeRefused (section_tree program.now section))) }
{
    match LoopTree::build(alloc, &program.image, section, &program.setup.loops) {
        Ok(tree) => Ok(tree),
        Err(no) => Err(tree_stop(no)),
    }
}

/// The bound of a section without such a fault, in cycles.
fn bound_in(
    alloc: Global,
    program: &Program,
    thread: u8,
    section: Section,
) -> Result<u64, CommandStop>
    requires thread { thread < 8 }
    requires section { section_fault program.now.setup thread section ≡ None }
    ensures ok { IfOk result (λ cycles. IsTreeAnswer (section_tree program.now section)
        program.now.setup.slots thread (Says 0 (bound_text cycles))) }
    ensures stop { IfErr result (IsAnswerStop
        (IsTreeAnswer (section_tree program.now section) program.now.setup.slots thread)) }
{
    let tree = tree_in(alloc, program, section)?;
    match bound(alloc, &tree, &slot_table(&program.setup), thread) {
        Ok(cycles) => Ok(cycles),
        Err(no) => Err(bound_stop(no)),
    }
}

/// The bound of a section for a thread, in cycles.
///
/// # Errors
///
/// A refusal if the section's bound can't be requested for this thread, if its tree is refused, or
/// if the bound has more than 64 bits. `NoMemory` if memory ran out.
pub fn section_bound(
    alloc: Global,
    program: &Program,
    thread: u8,
    section: Section,
) -> Result<u64, CommandStop>
    requires { thread < 8 }
    ensures ok { IfOk result (λ cycles.
        IsBoundAnswer (Ok program.now) thread section (Says 0 (bound_text cycles))) }
    ensures stop { IfErr result (IsAnswerStop (IsBoundAnswer (Ok program.now) thread section)) }
{
    match section_fault(&program.setup, thread, section) {
        Some(no) => Err(CommandStop::Refused(section_refusal(no))),
        None => bound_in(alloc, program, thread, section),
    }
}
