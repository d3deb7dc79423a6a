//! Values that come late: of loads, multiplications and divisions.

ghost use Rattle.std.specs.Prelude.{◌≡◌, ◌<◌, Some};
ghost use Rattle.rv_exec.specs.Access.{IsAligned};
ghost use Rattle.rv_decode.specs.Range.{InRange};
ghost use Rattle.core_model.specs.Thread.{with_late_value};
ghost use Rattle.hart_exec.specs.Effects.{IsPrintableEffect, IsAlignedStore};
ghost use Rattle.core_model.specs.Issue.{late_rd, late_value};

use crate::outcomes::write_to;
use crate::result::Sources;
use rv_decode::Ins;
use rv_exec::{Effect, load_value, multiply};

/// The register's write takes the place of `Nothing`.
#[inline(always)]
fn fill(effect: Option<Effect>, rd: u8, value: u32) -> Option<Effect>
    requires rd { rd < 32 }
    requires printable { IsPrintableEffect effect }
    requires store { IsAlignedStore effect }
    ensures effect { result ≡ with_late_value (Some rd) value effect }
    ensures printable { IsPrintableEffect result }
    ensures store { IsAlignedStore result }
{
    match effect {
        Some(Effect::Nothing) => Some(write_to(rd, value)),
        other => other,
    }
}

/// The effect with its late value, if it has one. A load's value comes from the aligned word at its
/// address; that of a multiplication or division comes from its sources. Inlined, because the
/// caller decodes: only the fields of these three are then computed, and no `Ins` is in memory.
#[inline(always)]
pub fn finish(
    effect: Option<Effect>,
    i: &Ins,
    loaded: u32,
    address: u32,
    s: Sources,
) -> Option<Effect>
    requires range { InRange i.now }
    requires aligned { IsAligned i.now address }
    requires printable { IsPrintableEffect effect }
    requires store { IsAlignedStore effect }
    ensures effect { result ≡ with_late_value (late_rd i.now)
        (late_value i.now loaded address s.a s.b)
        effect }
    ensures printable { IsPrintableEffect result }
    ensures store { IsAlignedStore result }
{
    match *i {
        Ins::Load { op, rd, .. } => fill(effect, rd, load_value(op, address, loaded)),
        Ins::Muldiv { op, rd, .. } => fill(effect, rd, multiply(op, s.a, s.b)),
        _ => effect,
    }
}
