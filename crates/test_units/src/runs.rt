//! The state after a run of one instruction.

use crate::numbers::low_word;
use rv_decode::Ins;
use rv_exec::{Lanes, execute, load_value, store_lanes};
use test_text::RowText;

/// The state after an instruction. The numbers of its call after its word are its pc, the values of
/// its source registers, and the content of the aligned word that it loads from or stores to. The
/// answer is the value of its destination register, the next pc, and the address of that word with
/// its content then.
pub fn push_run(text: &mut RowText, ins: &Ins, n: &[u64; 8]) {
    let (pc, a, b, content) = (
        low_word(n[1]),
        low_word(n[2]),
        low_word(n[3]),
        low_word(n[4]),
    );
    let Some(left) = left_by(ins, pc, a, b, content) else {
        return text.push_str("trap");
    };
    let [value, next, address, after] = left;
    write!(text, "{value:x} {next:x} {address:x} {after:x}")
}

/// The result of an instruction: a value, the next pc, the address of the aligned word, and its
/// content then. Nothing if it traps.
fn left_by(ins: &Ins, pc: u32, a: u32, b: u32, content: u32) -> Option<[u32; 4]> {
    let outcome = execute(ins, pc, a, b);
    if outcome.trap.is_some() {
        return None;
    }
    let (mut value, mut next, mut after) = (outcome.value, pc.wrapping_add(4), content);
    match *ins {
        Ins::Load { op, .. } => value = load_value(op, outcome.address, content),
        Ins::Store { op, .. } => after = merge(content, store_lanes(op, outcome.address, b)),
        Ins::Jal { .. } | Ins::Jalr { .. } => next = outcome.target,
        Ins::Branch { .. } if outcome.taken => next = outcome.target,
        _ => {}
    }
    Some([value, next, outcome.address & 0xffff_fffc, after])
}

/// A word in which the bytes of some lanes are replaced.
fn merge(word: u32, lanes: Lanes) -> u32 {
    let mut bytes = word.to_le_bytes();
    for (lane, byte) in lanes.value.to_le_bytes().iter().enumerate() {
        if lanes.mask >> lane & 1 == 1 {
            bytes[lane] = *byte;
        }
    }
    u32::from_le_bytes(bytes)
}
