//! The text of a setup that was read. An executable model of the format, which was written
//! independently of the reader, gave the answers to the setups of the table.

use crate::escapes::unescaped;
use crate::numbers::{low_word, number};
use fp_io::{Files, RealFiles};
use fp_setup::{
    Input, Inputs, LoopSetup, Loops, Name, Place, Setup, SetupNo, SetupRefused, ThreadSetup,
    read_setup,
};
use std::alloc::Global;
use test_text::RowText;

/// A name, and the lines of a setup; or `bytes: BYTES`, with escapes, `signs: COUNT` for so many
/// bytes `#`, `file: NAME`, `words: given` for a setup of its registers' words, and `parts: given`
/// for the values that the parts of a setup return.
pub fn push_answer(text: &mut RowText, rt: HostRuntime, call: &str) {
    let (name, setup) = call.split_once('\n').unwrap_or((call, ""));
    match name.split_once(": ") {
        Some((kind, with)) => push_made(text, rt, kind, with),
        None => push_setup(text, rt.alloc(), setup.as_bytes()),
    }
}

/// Writes the setup that a row makes of its text.
fn push_made(text: &mut RowText, rt: HostRuntime, kind: &str, with: &str) {
    let alloc = rt.alloc();
    match kind {
        "bytes" => {
            let bytes = unescaped(text, alloc, with);
            push_setup(text, alloc, &bytes)
        }
        "signs" => {
            let count = low_word(number(with)) as usize;
            match vec![in alloc; b'#'; count] {
                Ok(signs) => push_setup(text, alloc, &signs),
                Err(_) => text.refuse(),
            }
        }
        "file" => push_file(text, rt, with),
        "words" => push_words(text, alloc),
        _ => push_parts(text, alloc),
    }
}

/// Writes the setup of a file.
fn push_file(text: &mut RowText, rt: HostRuntime, name: &str) {
    match RealFiles::new(rt).fetch(rt.alloc(), name, 262_144) {
        Ok(bytes) => push_setup(text, rt.alloc(), &bytes),
        Err(_) => text.push_str("no file"),
    }
}

/// The refusal of a setup, or all its settings.
fn push_setup(text: &mut RowText, alloc: Global, bytes: &[u8]) {
    match read_setup(alloc, bytes) {
        Ok(setup) => push_accepted(text, &setup),
        Err(SetupRefused::Fault { code, place }) => push_fault(text, code, place),
        Err(SetupRefused::NoMemory) => text.refuse(),
    }
}

/// Writes a refusal of a setup, with its code and place.
fn push_fault(text: &mut RowText, code: SetupNo, place: Place) {
    write!(text, "refused {} {code:?} ", code as u8);
    push_place(text, place);
    text.push_str("\n")
}

/// Writes the place of a refusal: its table, row, key and item.
fn push_place(text: &mut RowText, place: Place) {
    let Place {
        table,
        row,
        key,
        item,
    } = place;
    let name = key_name(table, key);
    match table {
        0 | 1 => text.push_str(name),
        2 => write!(text, "thread[{row}]{name}"),
        _ => write!(text, "loop[{row}]{name}"),
    }
    if item > 0 {
        write!(text, "[{}]", item - 1);
    }
}

/// The text after the name of a table.
fn key_name(table: u8, key: u8) -> &'static str {
    match (table, key) {
        (0, _) => "-",
        (1, 0) => "top",
        (1, 1) => "version",
        (1, 2) => "period",
        (1, 3) => "image",
        (1, 4) => "slots",
        (1, 5) => "i_regions",
        (1, 6) => "d_regions",
        (1, 7) => "thread",
        (1, 8) => "loop",
        (2, 1) => ".id",
        (2, 2) => ".mode",
        (2, 3) => ".entry",
        (2, 4) => ".confined",
        (2, 5) => ".permit",
        (2, 6) => ".unplug",
        (2, 7) => ".inputs",
        (3, 1) => ".head",
        (3, 2) => ".last",
        (3, 3) => ".bound",
        (_, 0) => "",
        _ => ".",
    }
}

/// All settings of a setup. Lines after the first begin as in the table.
fn push_accepted(text: &mut RowText, setup: &Setup) {
    push_registers(text, setup);
    for thread in 0..8 {
        push_thread(text, thread, setup.threads.get(thread));
    }
    push_loops(text, setup.loops.as_slice())
}

/// Writes the registers that a setup gives.
fn push_registers(text: &mut RowText, setup: &Setup) {
    let Setup {
        version,
        period,
        slots,
        modes,
        iregions,
        dregions,
        ..
    } = *setup;
    let image = setup.image.as_str();
    writeln!(
        text,
        "version {version} period {period}\n--- slots {slots:08x} modes {modes:08x}\n\
         --- regions {iregions:08x} {dregions:08x} image {image}"
    )
}

/// Writes what a setup says of a thread.
fn push_thread(text: &mut RowText, number: u8, thread: &ThreadSetup) {
    let confined = if thread.confined { " confined" } else { "" };
    let permit = if thread.permit { " permit" } else { "" };
    let entry = thread.entry;
    write!(text, "--- T{number} entry {entry}{confined}{permit}");
    if let Some(cycle) = thread.unplug {
        write!(text, " unplug {cycle}");
    }
    push_inputs(text, thread.inputs.as_slice())
}

/// Writes the input words of a thread, with their cycles.
fn push_inputs(text: &mut RowText, inputs: &[Input]) {
    for input in inputs {
        write!(text, " {}:{}", input.at, input.word);
    }
    text.push_str("\n")
}

/// Writes the loops of a thread, with their limits.
fn push_loops(text: &mut RowText, loops: &[LoopSetup]) {
    for bounds in loops {
        let LoopSetup { head, last, limit } = *bounds;
        writeln!(text, "--- loop {head} {last} {limit}");
    }
}

/// Writes the setup that is made of register words.
#[tactic(auto, unfolding(crate::proofs::Opened::setup_words))]
fn push_words(text: &mut RowText, alloc: Global) {
    let setup = Setup::of_words(
        alloc,
        10,
        0xeeee_3210,
        0xaa00,
        0x7654_3210,
        0xc888_3210,
        [0, 2048, 4096, 6144, 8192, 10240, 12288, 14336],
        [true, true, true, true, false, false, false, false],
    );
    match setup {
        Ok(setup) => push_accepted(text, &setup),
        Err(_) => text.refuse(),
    }
}

/// Writes names, and whether they may stand in a setup.
fn push_parts(text: &mut RowText, alloc: Global) {
    match Name::from_str(alloc, "drive.toml") {
        Ok(name) => write!(text, "{}, ", name.as_str()),
        Err(_) => text.refuse(),
    }
    match vec![in alloc; Input { at: 3, word: 4 }] {
        Ok(inputs) => write!(
            text,
            "{} inputs, ",
            Inputs::from_vec(inputs).as_slice().len()
        ),
        Err(_) => text.refuse(),
    }
    match vec![in alloc; ROUND] {
        Ok(loops) => writeln!(text, "{} loops", Loops::from_vec(loops).as_slice().len()),
        Err(_) => text.refuse(),
    }
}

const ROUND: LoopSetup = LoopSetup {
    head: 4,
    last: 8,
    limit: 2,
};
