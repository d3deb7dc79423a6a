//! The numbers of faults in the refusal lines of sections and bounds. The enums of other faults are
//! those of their readers.

ghost use Rattle.std.specs.Prelude.{◌≡◌};
ghost use Rattle.commands.specs.Codes.{bound_code, section_code};

use trace_print::Refusal;

/// Why the bound of a section can't be requested, or a thread can't be run from only its view.
#[derive(Clone, Copy, Debug, PartialEq, Eq)]
pub enum SectionNo {
    /// The thread isn't hard and awake.
    NotHard = 1,
    /// The thread has no slot.
    NoSlot = 2,
    /// The section is empty, or ends before it begins.
    Order = 3,
    /// The section's ends aren't multiples of four.
    Misaligned = 4,
    /// The section ends past the instruction scratchpad.
    Outside = 5,
    /// The thread isn't confined.
    NotConfined = 6,
}

/// Why a section has no bound, by itself or with its routines.
#[derive(Clone, Copy, Debug, PartialEq, Eq)]
pub enum BoundCode {
    /// Loops overlap, are nested too deep, or are entered past their head.
    Nesting = 1,
    /// A jump to an address in a register.
    IndirectJump = 2,
    /// A timed wait.
    TimedWait = 3,
    /// A back edge without a bound.
    UnboundedBackEdge = 4,
    /// The bound has more than 64 bits.
    Overflow = 6,
    /// A routine overlaps the section.
    Overlap = 8,
    /// A routine calls itself.
    Recursion = 9,
    /// An edge out of a routine.
    Escape = 10,
}

/// The refusal of a section or a thread.
pub fn section_refusal(no: SectionNo) -> Refusal
    ensures { result ≡ Refusal.Section (section_code no) }
{
    Refusal::Section { code: no as u8 }
}

/// The refusal of a bound, with its address or its number of cycles.
pub fn bound_refusal(code: BoundCode, value: u128) -> Refusal
    ensures { result ≡ Refusal.Bound (bound_code code) value }
{
    Refusal::Bound {
        code: code as u8,
        value,
    }
}
