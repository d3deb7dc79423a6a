//! The fields of an instruction word (RISC-V unprivileged manual, "Base Instruction Formats" and
//! "Immediate Encoding Variants").

ghost use Rattle.std.specs.Prelude.{◌≡◌, ◌<◌, ◌+◌, ◌*◌, ◌^◌, ◌-ℤ◌, pos, nat_lt, if◌then◌else◌};
ghost use Rattle.rv_decode.specs.Fields.{field, imm_b, imm_i, imm_j, imm_s};

/// Bits 0 to 6, the opcode.
pub fn opcode(word: u32) -> u32
    ensures { result ≡ field word 0 7 }
{
    word & 0x7f
}

/// Bits 7 to 11, the register that is written.
pub fn rd(word: u32) -> u8
    ensures { result ≡ field word 7 5 }
{
    ((word >> 7) & 0x1f) as u8
}

/// Bits 12 to 14, 0 to 7.
pub fn funct3(word: u32) -> u32
    ensures { result ≡ field word 12 3 }
{
    (word >> 12) & 0x7
}

/// Bits 15 to 19, the first register that is read.
pub fn rs1(word: u32) -> u8
    ensures { result ≡ field word 15 5 }
{
    ((word >> 15) & 0x1f) as u8
}

/// Bits 20 to 24, the second register that is read, or the amount of a shift.
pub fn rs2(word: u32) -> u8
    ensures { result ≡ field word 20 5 }
{
    ((word >> 20) & 0x1f) as u8
}

/// Bits 25 to 31.
pub fn funct7(word: u32) -> u32
    ensures { result ≡ field word 25 7 }
{
    word >> 25
}

/// The number of a control and status register.
pub fn csr(word: u32) -> u16
    ensures { result ≡ field word 20 12 }
{
    (word >> 20) as u16
}

/// The immediate of format U, without the twelve zero bits below it.
pub fn imm_u(word: u32) -> u32
    ensures { result ≡ field word 12 20 }
{
    word >> 12
}

/// -1 if bit 31 is set, else 0: the bits above a signed immediate.
fn sign(word: u32) -> i32
    ensures { result ≡ (if nat_lt word (2 ^ 31) then pos 0 else pos 0 -ℤ pos 1) }
{
    word.cast_signed() >> 31
}

/// The immediate of format I.
pub fn imm_i(word: u32) -> i32
    ensures { result ≡ imm_i word }
{
    word.cast_signed() >> 20
}

/// The immediate of format S.
pub fn imm_s(word: u32) -> i32
    ensures { result ≡ imm_s word }
{
    // Bits 7 to 11, which are rd in other formats.
    (word.cast_signed() >> 25) * 0x20 + i32::from(rd(word))
}

/// The bits of a B offset below its sign.
fn lower_b(word: u32) -> u32
    ensures bits { result
        ≡ field word 7 1 * 2 ^ 11 + field word 25 6 * 2 ^ 5 + field word 8 4 * 2 }
    ensures small { result < 2 ^ 12 }
{
    (((word >> 7) & 0x1) << 11) + (((word >> 25) & 0x3f) << 5) + (((word >> 8) & 0xf) << 1)
}

/// The offset of format B, in bytes.
pub fn imm_b(word: u32) -> i32
    ensures { result ≡ imm_b word }
{
    sign(word) * 0x1000 + lower_b(word).cast_signed()
}

/// The bits of a J offset below its sign.
fn lower_j(word: u32) -> u32
    ensures bits { result
        ≡ field word 12 8 * 2 ^ 12 + field word 20 1 * 2 ^ 11 + field word 21 10 * 2 }
    ensures small { result < 2 ^ 20 }
{
    (((word >> 12) & 0xff) << 12) + (((word >> 20) & 0x1) << 11) + (((word >> 21) & 0x3ff) << 1)
}

/// The offset of format J, in bytes.
pub fn imm_j(word: u32) -> i32
    ensures { result ≡ imm_j word }
{
    sign(word) * 0x10_0000 + lower_j(word).cast_signed()
}
