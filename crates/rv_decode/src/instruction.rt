//! The instructions, with their fields as numbers: registers are 0 to 31, immediates are sign
//! extended, and offsets are in bytes.

/// The condition of a conditional branch (RISC-V unprivileged manual, "Conditional Branches").
#[derive(Clone, Copy, Debug)]
pub enum BranchOp {
    /// Equal.
    Beq,
    /// Not equal.
    Bne,
    /// Less, both signed.
    Blt,
    /// Not less, both signed.
    Bge,
    /// Less, both unsigned.
    Bltu,
    /// Not less, both unsigned.
    Bgeu,
}

/// The width of a load and whether its value is sign extended ("Load and Store Instructions").
#[derive(Clone, Copy, Debug)]
pub enum LoadOp {
    /// 1 byte, sign extended.
    Lb,
    /// 2 bytes, sign extended.
    Lh,
    /// 4 bytes.
    Lw,
    /// 1 byte, zero extended.
    Lbu,
    /// 2 bytes, zero extended.
    Lhu,
}

/// The width of a store ("Load and Store Instructions").
#[derive(Clone, Copy, Debug)]
pub enum StoreOp {
    /// The low byte.
    Sb,
    /// The low 2 bytes.
    Sh,
    /// 4 bytes.
    Sw,
}

/// An operation on a register and a 12-bit immediate ("Integer Register-Immediate Instructions").
#[derive(Clone, Copy, Debug)]
pub enum ImmOp {
    /// The sum modulo 2^32.
    Addi,
    /// 1 if the register is less, both signed, else 0.
    Slti,
    /// 1 if the register is less than the sign-extended immediate, both unsigned, else 0.
    Sltiu,
    /// Bitwise exclusive or.
    Xori,
    /// Bitwise or.
    Ori,
    /// Bitwise and.
    Andi,
}

/// A shift by a constant amount ("Integer Register-Immediate Instructions").
#[derive(Clone, Copy, Debug)]
pub enum ShiftOp {
    /// Left; zeros are shifted in.
    Slli,
    /// Right; zeros are shifted in.
    Srli,
    /// Right; copies of the sign bit are shifted in.
    Srai,
}

/// An operation on two registers ("Integer Register-Register Operations").
#[derive(Clone, Copy, Debug)]
pub enum AluOp {
    /// The sum modulo 2^32.
    Add,
    /// The difference modulo 2^32.
    Sub,
    /// Left by the low five bits of `rs2`; zeros are shifted in.
    Sll,
    /// 1 if `rs1` is less, both signed, else 0.
    Slt,
    /// 1 if `rs1` is less, both unsigned, else 0.
    Sltu,
    /// Bitwise exclusive or.
    Xor,
    /// Right by the low five bits of `rs2`; zeros are shifted in.
    Srl,
    /// Right by the low five bits of `rs2`; copies of the sign bit are shifted in.
    Sra,
    /// Bitwise or.
    Or,
    /// Bitwise and.
    And,
}

/// A multiplication or division on two registers ("M" Extension).
#[derive(Clone, Copy, Debug)]
pub enum MulOp {
    /// The low word of the product.
    Mul,
    /// The high word of the product, both signed.
    Mulh,
    /// The high word of the product, `rs1` signed and `rs2` unsigned.
    Mulhsu,
    /// The high word of the product, both unsigned.
    Mulhu,
    /// The signed quotient, rounded toward 0: 2^32 - 1 by 0, and -2^31 of -2^31 by -1.
    Div,
    /// The unsigned quotient; 2^32 - 1 by 0.
    Divu,
    /// The signed remainder, with the dividend's sign; the dividend for a division by 0, and 0 for
    /// -2^31 by -1.
    Rem,
    /// The unsigned remainder; the dividend for a division by 0.
    Remu,
}

/// The operation of a CSR instruction on the old value, with a register or an immediate ("Zicsr").
#[derive(Clone, Copy, Debug)]
pub enum CsrKind {
    /// CSRRW: the register replaces it.
    Rw,
    /// CSRRS: the register's bits are set in it; no write if the register is x0.
    Rs,
    /// CSRRC: the register's bits are cleared in it; no write if the register is x0.
    Rc,
    /// CSRRWI: the immediate replaces it.
    Rwi,
    /// CSRRSI: the immediate's bits are set in it; no write if it is 0.
    Rsi,
    /// CSRRCI: the immediate's bits are cleared in it; no write if it is 0.
    Rci,
}

/// An instruction with its fields.
#[derive(Clone, Copy, Debug)]
pub enum Ins {
    /// LUI: `rd` gets `imm` × 2^12 ("Integer Register-Immediate Instructions").
    Lui {
        /// The register that is written, 0 to 31; x0 keeps 0.
        rd: u8,
        /// The immediate without the twelve zero bits below it, 0 to 2^20 - 1.
        imm: u32,
    },
    /// AUIPC: `rd` gets the pc plus `imm` × 2^12 ("Integer Register-Immediate Instructions").
    Auipc {
        /// The register that is written, 0 to 31; x0 keeps 0.
        rd: u8,
        /// The immediate without the twelve zero bits below it, 0 to 2^20 - 1.
        imm: u32,
    },
    /// JAL: jumps to the pc plus `off`; `rd` gets the pc plus 4 ("Unconditional Jumps").
    Jal {
        /// The register that is written, 0 to 31; x0 keeps 0.
        rd: u8,
        /// The offset in bytes: even, -2^20 to 2^20 - 2.
        off: i32,
    },
    /// JALR: jumps to `rs1` plus `imm`, with bit 0 cleared; `rd` gets the pc plus 4 ("Unconditional
    /// Jumps").
    Jalr {
        /// The register that is written, 0 to 31; x0 keeps 0.
        rd: u8,
        /// The base register of the address, 0 to 31.
        rs1: u8,
        /// The offset from the base, -2,048 to 2,047 bytes.
        imm: i32,
    },
    /// A conditional branch to the pc plus `off`.
    Branch {
        /// The condition.
        op: BranchOp,
        /// The first register that is read, 0 to 31.
        rs1: u8,
        /// The second register that is read, 0 to 31.
        rs2: u8,
        /// The offset in bytes: even, -4,096 to 4,094.
        off: i32,
    },
    /// A load from `rs1` plus `imm`.
    Load {
        /// The width and sign.
        op: LoadOp,
        /// The register that is written, 0 to 31; x0 keeps 0.
        rd: u8,
        /// The base register of the address, 0 to 31.
        rs1: u8,
        /// The offset from the base, -2,048 to 2,047 bytes.
        imm: i32,
    },
    /// A store of `rs2` to `rs1` plus `imm`.
    Store {
        /// The width.
        op: StoreOp,
        /// The base register of the address, 0 to 31.
        rs1: u8,
        /// The register that is stored, 0 to 31.
        rs2: u8,
        /// The offset from the base, -2,048 to 2,047 bytes.
        imm: i32,
    },
    /// An operation on a register and an immediate.
    OpImm {
        /// The operation.
        op: ImmOp,
        /// The register that is written, 0 to 31; x0 keeps 0.
        rd: u8,
        /// The register that is read, 0 to 31.
        rs1: u8,
        /// The immediate, -2,048 to 2,047.
        imm: i32,
    },
    /// A shift by a constant amount.
    Shift {
        /// The direction, and the bits shifted in.
        op: ShiftOp,
        /// The register that is written, 0 to 31; x0 keeps 0.
        rd: u8,
        /// The register that is shifted, 0 to 31.
        rs1: u8,
        /// The amount in bits, 0 to 31.
        amount: u8,
    },
    /// An operation on two registers.
    Op {
        /// The operation.
        op: AluOp,
        /// The register that is written, 0 to 31; x0 keeps 0.
        rd: u8,
        /// The first register that is read, 0 to 31.
        rs1: u8,
        /// The second register that is read, 0 to 31.
        rs2: u8,
    },
    /// A multiplication or division.
    Muldiv {
        /// The operation.
        op: MulOp,
        /// The register that is written, 0 to 31; x0 keeps 0.
        rd: u8,
        /// The first register that is read, 0 to 31.
        rs1: u8,
        /// The second register that is read, 0 to 31.
        rs2: u8,
    },
    /// FENCE or FENCE.I; the word is stored, since its other bits are ignored.
    Fence {
        /// The whole word.
        word: u32,
    },
    /// ECALL: a trap with cause 11 ("Environment Call and Breakpoints").
    Ecall,
    /// EBREAK: a trap with cause 3 ("Environment Call and Breakpoints").
    Ebreak,
    /// MRET: jumps to mepc (privileged manual, "Trap-Return Instructions").
    Mret,
    /// A CSR instruction ("Zicsr"): `src` is a register, or the value itself in the immediate
    /// forms.
    Csr {
        /// Its operation, and whether `src` is a register.
        op: CsrKind,
        /// The register that gets the old value, 0 to 31; x0 keeps 0.
        rd: u8,
        /// The number of the control and status register, 0 to 4,095.
        csr: u16,
        /// A register or an immediate, 0 to 31.
        src: u8,
    },
    /// Get the low word of the time in nanoseconds, and latch the high word.
    Gt {
        /// The register that is written, 0 to 31; x0 keeps 0.
        rd: u8,
    },
    /// Get the latched high word of the time.
    Gth {
        /// The register that is written, 0 to 31; x0 keeps 0.
        rd: u8,
    },
    /// Delay until the moment `rs1` × 2^32 + `rs2`, and keep the slots.
    Du {
        /// The register with the high word of the moment in nanoseconds, 0 to 31.
        rs1: u8,
        /// The register with its low word, 0 to 31.
        rs2: u8,
    },
    /// Wait until the moment `rs1` × 2^32 + `rs2`, or the armed one if that is earlier, and donate
    /// the slots.
    Wu {
        /// The register with the high word of the moment in nanoseconds, 0 to 31.
        rs1: u8,
        /// The register with its low word, 0 to 31.
        rs2: u8,
    },
    /// Arm the expiry trap at the moment `rs1` × 2^32 + `rs2`.
    Ee {
        /// The register with the high word of the moment in nanoseconds, 0 to 31.
        rs1: u8,
        /// The register with its low word, 0 to 31.
        rs2: u8,
    },
    /// Disarm the expiry trap.
    De,
    /// A word that is no instruction.
    Illegal {
        /// The word; no row of the table fits it.
        word: u32,
    },
}
