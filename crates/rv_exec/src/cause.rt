//! The causes of traps. Source: RISC-V privileged manual, "Machine Cause Register"; the expiry is
//! this project's, at a number that the manual leaves to the platform.

/// A jump or a taken branch to an address that is no multiple of 4.
pub const MISALIGNED_TARGET: u8 = 0;

/// A refused fetch.
pub const FETCH_FAULT: u8 = 1;

/// A word that is no instruction, or a refused access to a register.
pub const ILLEGAL: u8 = 2;

/// EBREAK.
pub const BREAKPOINT: u8 = 3;

/// A load with an unaligned address.
pub const MISALIGNED_LOAD: u8 = 4;

/// A refused load.
pub const LOAD_FAULT: u8 = 5;

/// A store with an unaligned address.
pub const MISALIGNED_STORE: u8 = 6;

/// A refused store.
pub const STORE_FAULT: u8 = 7;

/// ECALL.
pub const ENVIRONMENT_CALL: u8 = 11;

/// The moment that EE armed is reached.
pub const EXPIRY: u8 = 24;
