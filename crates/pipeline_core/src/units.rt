//! The units that the stages use.

ghost use Rattle.std.specs.Prelude.{◌≡◌, ◌/◌, length};

use regfile_bank::Bank;
use region_guard::Guard;
use scratchpad::Spm;
use slot_scheduler::{Sched, Scheduler};
use timer_unit::{Clock, Timers};
use trap_unit::Traps;

/// The units of the core: registers, scratchpads and their guard, scheduling, time, traps, and the
/// flags of the eight hardware threads.
#[derive(Drop)]
pub struct Units {
    /// The registers x1 to x31 of each thread.
    pub bank: Bank,
    /// The instruction scratchpad.
    pub imem: Spm,
    /// The data scratchpad.
    pub dmem: Spm,
    /// The region registers, and the size of each scratchpad.
    pub guard: Guard,
    /// The round-robin pointer of the soft threads.
    pub scheduler: Scheduler,
    /// Slots, modes and sleep moments, as written by the execute stage.
    pub sched: Sched,
    /// The length of a cycle, in nanoseconds.
    pub clock: Clock,
    /// The armed moment of each thread, and the high word of the time that it read last.
    pub timers: Timers,
    /// The trap registers of each thread.
    pub traps: Traps,
    /// Whether a thread is confined to the regions that it owns or that are read only.
    pub confined: [bool; 8],
    /// Whether a thread may access the configuration registers.
    pub permit: [bool; 8],
    ghost imem_size: { length imem ≡ guard.size / 4 },
    ghost dmem_size: { length dmem ≡ guard.size / 4 },
}

impl Units {
    ghost use Rattle.std.specs.Prelude.{◌<◌, slice_index_or, true};

    /// Whether a thread is confined.
    #[inline(always)]
    pub(crate) fn is_confined(&self, thread: u8) -> bool
        requires { thread < 8 }
        ensures { result ≡ slice_index_or self.now.confined thread true }
    {
        self.confined[thread as usize]
    }
}
