//! Numbers of digits.

ghost use Rattle.std.specs.Prelude.{◌≡◌, ◌+◌, ◌*◌, ◌<◌, ◌^◌, IfSome};
ghost use Rattle.fp_lex.specs.Bytes.{digit as digit_of, number_of, fit};

/// The value of a decimal or hexadecimal digit.
fn digit(b: u8) -> u32
    ensures value { result ≡ digit_of b }
    ensures small { result < 256 }
{
    if b <= b'9' {
        u32::from(b).saturating_sub(48)
    } else if b <= b'F' {
        u32::from(b).saturating_sub(55)
    } else {
        u32::from(b).saturating_sub(87)
    }
}

// The number with a digit appended.
#[tactic(auto, unfolding(crate::specs::Bytes::fit))]
fn longer(base: u32, n: u32, b: u8) -> Option<u32>
    ensures fits { result ≡ fit (n * base + digit_of b) }
    ensures value { IfSome result (λ m. (m ≡ n * base + digit_of b) × (m < 2 ^ 32)) }
{
    n.checked_mul(base)?.checked_add(digit(b))
}

/// The value of the digits, if it fits 32 bits.
#[tactic(auto, using(crate::proofs::Runs::counting), unfolding(crate::specs::Bytes::number_of))]
pub(crate) fn number(base: u32, digits: &[u8]) -> Option<u32>
    requires { 0 < base }
    ensures { result ≡ fit (number_of base digits.now) }
{
    let mut n = 0u32;
    for b in digits {
        n = longer(base, n, *b)?;
    }
    Some(n)
}
