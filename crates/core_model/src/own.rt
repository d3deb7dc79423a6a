//! The state of a thread in addition to its pc and its registers x1 to x31.

use timer_unit::Timer;

/// The thread's trap registers (RISC-V privileged manual, "Machine-Level CSRs"). The two low bits
/// of `mtvec` and `mepc` are 0.
#[derive(Clone, Copy, Debug)]
pub struct Trapping {
    /// The address at which a trap continues.
    pub mtvec: u32,
    /// Scratch register of the program.
    pub mscratch: u32,
    /// The address at which the last trap was taken, or the value written since.
    pub mepc: u32,
    /// The cause of the last trap, or the value written since.
    pub mcause: u32,
}

/// A thread's timer, its trap registers, and the moment until which it sleeps, in nanoseconds.
#[derive(Clone, Copy, Debug)]
pub struct Own {
    /// The armed expiry and the latched high word of GT.
    pub timer: Timer,
    /// The trap registers.
    pub trap: Trapping,
    /// The moment, in nanoseconds, from which the thread is awake; 0 if it never slept.
    pub sleep: u64,
}

/// The operation of a CSR instruction (RISC-V unprivileged manual, "Zicsr"): replaces the old value
/// by the operand, or sets or clears the operand's bits in it.
#[derive(Clone, Copy, Debug)]
pub enum CsrOp {
    /// CSRRW and CSRRWI: the operand.
    Swap,
    /// CSRRS and CSRRSI: the old value with the operand's bits set.
    Set,
    /// CSRRC and CSRRCI: the old value with the operand's bits cleared.
    Clear,
}
