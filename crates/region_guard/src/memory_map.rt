//! The addresses of the scratchpads and the port. The instruction scratchpad begins at 0, and both
//! have the same size. Source: this project's profile.

/// The smaller of the two sizes of a scratchpad, in bytes.
pub const SMALL_SIZE: u32 = 16_384;

/// The larger of them, in bytes.
pub const LARGE_SIZE: u32 = 65_536;

/// The address of the first byte of the data scratchpad.
pub const DATA_START: u32 = 0x2000_0000;

/// The address of the word of a thread's port.
pub const PORT_ADDRESS: u32 = 0x4000_0000;
