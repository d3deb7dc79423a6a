//! Numbers in fixed point.

use std::fmt;

/// A number with 16 fractional bits, as used at the controller's port.
#[derive(Clone, Copy)]
pub struct Fixed(pub i32);

impl fmt::Display for Fixed {
    /// In decimal, with four digits after the point; the rest is truncated.
    fn fmt<W: fmt::Write>(&self, f: &mut fmt::Formatter<W>) -> fmt::Result {
        let sign = if self.0 < 0 { "-" } else { "" };
        let size = self.0.unsigned_abs();
        let whole = size / 0x1_0000;
        let digits = size % 0x1_0000 * 10_000 / 0x1_0000;
        write!(f, "{sign}{whole}.{digits:04}")
    }
}
