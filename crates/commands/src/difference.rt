//! The line of a trace that isn't the defined one.

ghost use Rattle.std.specs.Prelude.{◌≡◌};
ghost use Rattle.commands.specs.Answer.{differs_text};

use arrayvec::ArrayString;
use trace_print::push_decimal;

/// The line with the place where a trace first differs: `differs line ` and the number in decimal.
#[tactic(auto, unfolding(crate::specs::Answer::differs_text))]
pub fn difference_line(line: u64) -> ArrayString<96>
    ensures { result.bytes ≡ differs_text line }
{
    let mut text = ArrayString::new();
    text.push_str("differs line ");
    push_decimal(&mut text, line);
    text.push_str("\n");
    text
}
