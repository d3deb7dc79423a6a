//! The inputs of an execution, and its result.

use rv_exec::Effect;

/// The address of an instruction, and its word.
#[derive(Clone, Copy, Debug)]
pub struct PcWord {
    /// Its address, in bytes.
    pub pc: u32,
    /// The word there, as it was fetched.
    pub word: u32,
}

/// The values of an instruction's rs1 and rs2, 0 where it reads none.
#[derive(Clone, Copy, Debug)]
pub struct Sources {
    /// The value of rs1.
    pub a: u32,
    /// The value of rs2.
    pub b: u32,
}

/// The result of an execution, without the changes of the units.
#[derive(Clone, Copy, Debug)]
pub struct ExecResult {
    /// The address of the thread's next word, in bytes.
    pub pc: u32,
    /// The least number of cycles from the issue of the instruction to that of the thread's next
    /// one, 1 to 3.
    pub lag: u64,
    /// The word; 0 if an expiry or a refused fetch replaces the instruction.
    pub word: u32,
    /// The address of a load or store that is allowed, in bytes, else 0.
    pub address: u32,
    /// The effect, with `Nothing` in place of a late value; None for a turn without an event.
    pub effect: Option<Effect>,
}
