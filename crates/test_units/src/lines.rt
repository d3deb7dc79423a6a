//! Lines of traces, and of refusals.

ghost use Rattle.rv_exec.specs.Line.{IsPrintable};

use crate::numbers::{head, low_byte, low_word, numbers};
use fp_setup::Place;
use rv_exec::{Effect, Event};
use test_text::RowText;
use trace_print::{Refusal, line, refusal_line};

/// `event CYCLE PC WORD EFFECT ..`, or a refusal's kind with its numbers. The answer has no line
/// end.
pub fn push_answer(text: &mut RowText, call: &str) {
    let (name, with) = head(call);
    let n = numbers(with);
    if name == "event" {
        return push_event(text, with, &n);
    }
    let refusal = refusal_of(name, &n, value_of(with));
    text.push_str(refusal_line(&refusal).as_str().trim_end())
}

/// The line of an event: its cycle, pc and word, and the numbers of its effect after its name.
fn push_event(text: &mut RowText, with: &str, n: &[u64; 8]) {
    let event = Event {
        cycle: n[0],
        thread: 0,
        pc: low_word(n[1]),
        word: low_word(n[2]),
        effect: effect_of(with.split(' ').nth(3).unwrap_or(""), n),
    };
    text.push_str(line(&event).as_str().trim_end())
}

/// The effect of a row: its name, with numbers from the fifth on.
fn effect_of(name: &str, n: &[u64; 8]) -> Effect
    ensures { IsPrintable result }
{
    match name {
        "register" => Effect::Reg {
            rd: low_byte(n[4]) % 32,
            value: low_word(n[5]),
        },
        "store" => Effect::Store {
            address: low_word(n[4]),
            size: 4,
            value: low_word(n[5]),
        },
        "csr" => Effect::Csr {
            csr: (n[4] % 4096) as u16,
            value: low_word(n[5]),
            rd: low_byte(n[6]) % 32,
            old: low_word(n[7]),
        },
        "trap" => Effect::Trap {
            cause: low_byte(n[4]),
            target: low_word(n[5]),
        },
        "wait" => Effect::Wait,
        _ => Effect::Nothing,
    }
}

/// The last number, which may have more than 64 bits.
fn value_of(with: &str) -> u128 {
    let last = with.split(' ').last().unwrap_or("");
    last.parse().unwrap_or(0u128)
}

/// The refusal of a row: its name, with its code and place.
fn refusal_of(name: &str, n: &[u64; 8], value: u128) -> Refusal {
    let code = low_byte(n[0]);
    match name {
        "setup" => Refusal::Setup {
            code,
            place: Place {
                table: low_byte(n[1]),
                row: low_word(n[2]),
                key: low_byte(n[3]),
                item: low_word(n[4]),
            },
        },
        "section" => Refusal::Section { code },
        "image" => Refusal::Image {
            code,
            offset: low_word(n[1]),
        },
        "source" => Refusal::Source {
            line: low_word(n[1]),
            code,
        },
        "routines" => Refusal::Routines {
            line: low_word(n[1]),
            code,
        },
        _ => Refusal::Bound { code, value },
    }
}
