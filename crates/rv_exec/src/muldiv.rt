//! Multiplication and division.

ghost use Rattle.std.specs.Prelude.{◌≡◌, ◌≢◌, ◌^◌, ◌-ℤ◌, ◌*ℤ◌};
ghost use Rattle.rv_exec.specs.Words.{word, signed, floor_div};
ghost use Rattle.rv_exec.specs.Alu.{mul_result, quotient};

use rv_decode::MulOp;

/// The value of a multiplication or division (RISC-V unprivileged manual, "M" extension).
#[tactic(auto, unfolding(crate::specs::Alu::mul_result))]
pub fn multiply(op: MulOp, a: u32, b: u32) -> u32
    ensures { result ≡ mul_result op a b }
{
    match op {
        MulOp::Mul => a.wrapping_mul(b),
        MulOp::Mulh => high_word(i64::from(a.cast_signed()) * i64::from(b.cast_signed())),
        MulOp::Mulhsu => high_word(i64::from(a.cast_signed()) * i64::from(b)),
        MulOp::Mulhu => ((u64::from(a) * u64::from(b)) >> 32) as u32,
        MulOp::Div if b == 0 => u32::MAX,
        MulOp::Div => divide(a, b),
        MulOp::Divu if b == 0 => u32::MAX,
        MulOp::Divu => a / b,
        MulOp::Rem if b == 0 => a,
        MulOp::Rem => remain(a, b),
        MulOp::Remu if b == 0 => a,
        MulOp::Remu => a % b,
    }
}

/// The high word of a product.
fn high_word(product: i64) -> u32
    ensures { result ≡ word (floor_div product (2 ^ 32)) }
{
    (product.cast_unsigned() >> 32) as u32
}

/// The signed quotient; it wraps if the least number is divided by -1.
fn divide(a: u32, b: u32) -> u32
    requires { b ≢ 0 }
    ensures { result ≡ word (quotient (signed a) (signed b)) }
{
    a.cast_signed()
        .wrapping_div(b.cast_signed())
        .cast_unsigned()
}

/// The signed remainder: its sign is the dividend's.
fn remain(a: u32, b: u32) -> u32
    requires { b ≢ 0 }
    ensures { result ≡ word (signed a -ℤ signed b *ℤ quotient (signed a) (signed b)) }
{
    a.cast_signed()
        .wrapping_rem(b.cast_signed())
        .cast_unsigned()
}
