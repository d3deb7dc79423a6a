//! The registers that an instruction reads.

ghost use Rattle.std.specs.Prelude.{◌≡◌};
ghost use Rattle.core_model.specs.Issue.{source_1, source_2};

use rv_decode::{CsrKind, Ins};

/// The numbers of the registers that an instruction reads, x0 where it reads none.
pub fn sources_of(i: &Ins) -> (u8, u8)
    ensures first { result.0 ≡ source_1 i.now }
    ensures second { result.1 ≡ source_2 i.now }
{
    match *i {
        Ins::Branch { rs1, rs2, .. }
        | Ins::Store { rs1, rs2, .. }
        | Ins::Op { rs1, rs2, .. }
        | Ins::Muldiv { rs1, rs2, .. }
        | Ins::Du { rs1, rs2 }
        | Ins::Wu { rs1, rs2 }
        | Ins::Ee { rs1, rs2 } => (rs1, rs2),
        Ins::Jalr { rs1, .. }
        | Ins::Load { rs1, .. }
        | Ins::OpImm { rs1, .. }
        | Ins::Shift { rs1, .. } => (rs1, 0),
        Ins::Csr {
            op: CsrKind::Rw | CsrKind::Rs | CsrKind::Rc,
            src,
            ..
        } => (src, 0),
        _ => (0, 0),
    }
}
