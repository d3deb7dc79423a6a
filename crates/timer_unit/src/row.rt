//! One thread's state in the timers.

/// One hardware thread's state in the timers.
#[derive(Clone, Copy, Debug)]
pub struct Timer {
    /// The armed moment, in nanoseconds: from then on, an expiry trap replaces the thread's next
    /// instruction.
    pub armed: Option<u64>,
    /// The high word of the time whose low word was read last, and 0 before any such reading.
    pub high: u32,
}
