//! The line of a bound.

ghost use Rattle.std.specs.Prelude.{◌≡◌};
ghost use Rattle.trace_print.specs.Bounds.{bound_text};

use crate::digits::push_decimal;
use arrayvec::ArrayString;

/// The line of a bound, in cycles: `bound ` and the number in decimal.
#[tactic(auto, unfolding(crate::specs::Bounds::bound_text))]
pub fn bound_line(cycles: u64) -> ArrayString<96>
    ensures { result.bytes ≡ bound_text cycles }
{
    let mut text = ArrayString::new();
    text.push_str("bound ");
    push_decimal(&mut text, cycles);
    text.push_str("\n");
    text
}
