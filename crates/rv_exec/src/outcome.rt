//! The outcome of an instruction, and the effect of its issue.

use crate::cause;

/// The results that follow only from an instruction, its pc and the values of its source registers.
/// A field that the instruction doesn't use is 0, false or `None`.
#[derive(Clone, Copy, Debug)]
pub struct Outcome {
    /// The word for `rd`; 0 if it comes from elsewhere (loads, CSR instructions, GT and GTH).
    pub value: u32,
    /// The address of a load or store, in bytes.
    pub address: u32,
    /// The target of JAL, JALR and every branch, taken or not.
    pub target: u32,
    /// Whether a branch is taken.
    pub taken: bool,
    /// The trap's cause, one of those of [`cause`] that follow only from these.
    pub trap: Option<u8>,
}

impl Outcome {
    ghost use Rattle.std.specs.Prelude.{◌≡◌, ◌<◌};
    ghost use Rattle.rv_exec.specs.TrapCauses.{cause_misaligned_load, cause_misaligned_store};
    ghost use Rattle.rv_exec.specs.Result.{of_value, of_trap, of_access, of_jump, of_branch};

    /// The outcome of an instruction without a result, or with a word that comes from elsewhere.
    pub(crate) const NOTHING: Self = Self {
        value: 0,
        address: 0,
        target: 0,
        taken: false,
        trap: None,
    };

    /// A word for `rd`.
    #[inline(always)]
    pub(crate) fn of_value(value: u32) -> Self
        ensures { result ≡ of_value value }
    {
        Self {
            value,
            ..Self::NOTHING
        }
    }

    /// Only a trap.
    #[inline(always)]
    pub(crate) fn of_trap(cause: u8) -> Self
        ensures { result ≡ of_trap cause }
    {
        Self {
            trap: Some(cause),
            ..Self::NOTHING
        }
    }

    /// A load of `size` bytes; it traps if its address isn't aligned.
    #[inline(always)]
    pub(crate) fn of_load(address: u32, size: u8) -> Self
        requires { 0 < size }
        ensures { result ≡ of_access address size cause_misaligned_load }
    {
        Self::of_access(address, size, cause::MISALIGNED_LOAD)
    }

    /// A store of `size` bytes; it traps if its address isn't aligned.
    #[inline(always)]
    pub(crate) fn of_store(address: u32, size: u8) -> Self
        requires { 0 < size }
        ensures { result ≡ of_access address size cause_misaligned_store }
    {
        Self::of_access(address, size, cause::MISALIGNED_STORE)
    }

    /// An access of `size` bytes; it traps with `cause` if its address isn't aligned.
    #[inline(always)]
    fn of_access(address: u32, size: u8, cause: u8) -> Self
        requires { 0 < size }
        ensures { result ≡ of_access address size cause }
    {
        let trap = if address % u32::from(size) == 0 {
            None
        } else {
            Some(cause)
        };
        Self {
            address,
            trap,
            ..Self::NOTHING
        }
    }

    /// A jump with the word for `rd`.
    #[inline(always)]
    pub(crate) fn of_jump(link: u32, target: u32) -> Self
        ensures { result ≡ of_jump link target }
    {
        let trap = if target % 4 == 0 {
            None
        } else {
            Some(cause::MISALIGNED_TARGET)
        };
        Self {
            value: link,
            target,
            trap,
            ..Self::NOTHING
        }
    }

    /// A branch; it can trap only if it is taken.
    #[inline(always)]
    pub(crate) fn of_branch(taken: bool, target: u32) -> Self
        ensures { result ≡ of_branch taken target }
    {
        let trap = if taken && target % 4 != 0 {
            Some(cause::MISALIGNED_TARGET)
        } else {
            None
        };
        Self {
            target,
            taken,
            trap,
            ..Self::NOTHING
        }
    }
}

/// The bytes of an aligned word that a store writes: bit k of `mask` is set for byte k, and `value`
/// has the bytes in their lanes, with 0 in the others.
#[derive(Clone, Copy, Debug)]
pub struct Lanes {
    /// A bit for each byte that is written, 1 to 15.
    pub mask: u8,
    /// The bytes that are written, in their lanes.
    pub value: u32,
}

/// The mask of all four lanes of a word.
pub const ALL_LANES: u8 = 0b1111;

/// The effect of an issue, as in a trace.
#[derive(Clone, Copy, Debug)]
pub enum Effect {
    /// No register, memory word, port or CSR changes.
    Nothing,
    /// A register gets a value.
    Reg {
        /// The register, 1 to 31.
        rd: u8,
        /// Its new value.
        value: u32,
    },
    /// `size` bytes (1, 2 or 4) at an address in memory, or at the port, get a value cut to them.
    Store {
        /// The address of the first byte, a multiple of `size`.
        address: u32,
        /// The number of bytes.
        size: u8,
        /// The value, below 256^`size`.
        value: u32,
    },
    /// A CSR is set to a value; unless `rd` is 0, that register gets the old one.
    Csr {
        /// The number of the control and status register.
        csr: u16,
        /// The value as stored in the register.
        value: u32,
        /// The register that gets the old value, 0 to 31.
        rd: u8,
        /// The value before.
        old: u32,
    },
    /// A trap is taken, and the thread continues at `target`.
    Trap {
        /// The cause, as mcause then has it: 0 to 7, 11 or 24.
        cause: u8,
        /// The address in mtvec.
        target: u32,
    },
    /// A WU puts its thread to sleep.
    Wait,
}

/// An issue of a thread, with its effect. The issue of a DU that waits is no event.
#[derive(Clone, Copy, Debug)]
pub struct Event {
    /// The cycle in which it was issued.
    pub cycle: u64,
    /// The hardware thread, 0 to 7.
    pub thread: u8,
    /// The address at which it was issued.
    pub pc: u32,
    /// The word at the pc; 0 if the trap's cause is 1 (fetch access) or 24 (expiry).
    pub word: u32,
    /// Its effect.
    pub effect: Effect,
}
