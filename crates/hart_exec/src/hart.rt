//! A thread with the units that its instructions read and change.

ghost use Rattle.std.specs.Prelude.{◌<◌};

use region_guard::Guard;
use slot_scheduler::Sched;
use timer_unit::Timers;
use trap_unit::Traps;

/// A hardware thread in the cycle in which it issues an instruction, with the units that the
/// instruction reads and changes. It changes no timer, trap register or sleep moment of another
/// thread.
#[derive(Drop)]
pub struct Hart<'a> {
    /// The thread's number, 0 to 7.
    pub thread: u8,
    /// The time of the cycle of the issue, in nanoseconds.
    pub time: u64,
    /// Whether the thread is confined to the regions that it owns or that are read only.
    pub confined: bool,
    /// Whether it may access slots, modes and regions, 0x7C0 to 0x7C3.
    pub permit: bool,
    /// The regions of both scratchpads.
    pub guard: &'a mut Guard,
    /// Slots and modes, and for each thread the moment until which it sleeps.
    pub sched: &'a mut Sched,
    /// For each thread the armed moment and the latched high word of the time.
    pub timers: &'a mut Timers,
    /// The trap registers of each thread.
    pub traps: &'a mut Traps,
    ghost eight: { thread < 8 },
}
