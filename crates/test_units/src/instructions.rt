//! Words, lags, outcomes, loads and stores in each lane, and runs.
//!
//! GNU as 2.40 made the words of `decode.txt` from text, which gave the answers, for the
//! architecture `rv32im_zicsr_zifencei`; those that are illegal are words of other extensions,
//! which were made for `rv64imafdh_zicsr_zifencei_zba_zbb_zbc_zbs_zicbom_zicboz`. It also made the
//! words of `results.txt`, for the architecture `rv32im`, and qemu-riscv32 7.2 ran them in a static
//! program. Each is at an address of its own, in a field of jumps that record their addresses.
//! Operands are the edges of ranges in about half of the rows, and random in the others. Numbers
//! that a kind of instruction doesn't use are 0.

use crate::numbers::{head, low_word, numbers};
use crate::runs::push_run;
use rv_decode::{Ins, LoadOp, StoreOp, decode, encode, lag_of};
use rv_exec::{execute, load_size, load_value, store_lanes, store_size};
use test_text::RowText;

/// `decode WORD`, `lag WORD TAKEN TRAPPED`, `execute WORD PC A B`, `memory WORD ADDRESS VALUE`,
/// `run WORD PC A B CONTENT`.
pub fn push_answer(text: &mut RowText, call: &str) {
    let (name, with) = head(call);
    let n = numbers(with);
    let ins = decode(low_word(n[0]));
    match name {
        "decode" => write!(text, "{:08x} {ins:?}", encode(&ins)),
        "lag" => write!(text, "{}", lag_of(&ins, n[1] != 0, n[2] != 0)),
        "execute" => push_executed(text, &ins, low_word(n[1]), low_word(n[2]), low_word(n[3])),
        "memory" => push_moved(text, &ins, low_word(n[1]), low_word(n[2])),
        "run" => push_run(text, &ins, &n),
        _ => text.push_str("no call"),
    }
}

/// The outcome of an instruction: value, address, target, whether it is taken, and trap.
fn push_executed(text: &mut RowText, ins: &Ins, pc: u32, a: u32, b: u32) {
    let done = execute(ins, pc, a, b);
    write!(
        text,
        "{:x} {:x} {:x} {} {:?}",
        done.value, done.address, done.target, done.taken, done.trap
    )
}

/// The result of a load from a word at an address, or of a store of a value there.
fn push_moved(text: &mut RowText, ins: &Ins, address: u32, value: u32) {
    match *ins {
        Ins::Load { op, .. } => push_loaded(text, op, address, value),
        Ins::Store { op, .. } => push_stored(text, op, address, value),
        _ => text.push_str("neither"),
    }
}

/// Writes what a load makes of a word.
fn push_loaded(text: &mut RowText, op: LoadOp, address: u32, word: u32) {
    if address % u32::from(load_size(op)) != 0 {
        return text.push_str("misaligned");
    }
    write!(text, "{:x}", load_value(op, address, word))
}

/// Writes the lanes of a store.
fn push_stored(text: &mut RowText, op: StoreOp, address: u32, value: u32) {
    if address % u32::from(store_size(op)) != 0 {
        return text.push_str("misaligned");
    }
    let lanes = store_lanes(op, address, value);
    write!(text, "{:04b} {:x}", lanes.mask, lanes.value)
}
