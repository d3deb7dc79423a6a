//! The numbers of the control and status registers. Source: RISC-V privileged manual, "CSR
//! Listing", for the first five; the last four are this project's, at numbers that the manual
//! leaves free.

/// mtvec: the target of traps.
pub const MTVEC: u16 = 0x305;

/// mscratch: a scratch word that traps don't change.
pub const MSCRATCH: u16 = 0x340;

/// mepc: the pc of a trap.
pub const MEPC: u16 = 0x341;

/// mcause: the cause of a trap.
pub const MCAUSE: u16 = 0x342;

/// mhartid: the thread's own number, read only.
pub const MHARTID: u16 = 0xF14;

/// slots: who has the slots of the frame.
pub const SLOTS: u16 = 0x7C0;

/// modes: which threads are active, and which are soft.
pub const MODES: u16 = 0x7C1;

/// dregions: who has the regions of the data scratchpad.
pub const DREGIONS: u16 = 0x7C2;

/// iregions: the owners of the regions of the instruction scratchpad.
pub const IREGIONS: u16 = 0x7C3;
