//! Files and sinks: those in memory with calls that fail, real ones, and those of a slow runtime.

use crate::numbers::{head, low_word, number, numbers};
use crate::short_io::ShortIo;
use fp_io::{FetchFault, Files, Gathered, MemFiles, MemSink, OutSink, RealFiles, Sink};
use std::alloc::Global;
use test_text::RowText;

/// `real NAME MOST`, `slow FAILING MOST`, `out FAILING TEXT`, and `files STEPS` and `sink STEPS`,
/// with `;` between two steps.
pub fn push_answer(text: &mut RowText, rt: HostRuntime, call: &str) {
    let (name, with) = head(call);
    match name {
        "real" => push_real(text, rt, with),
        "slow" => push_slow(text, rt.alloc(), &numbers(with)),
        "out" => push_out(text, with),
        "files" => push_files(text, rt.alloc(), with),
        _ => push_sink(text, rt.alloc(), with),
    }
}

/// The number of bytes that a real file gives, of at most so many and one more, and the number of
/// zeros among them.
fn push_real(text: &mut RowText, rt: HostRuntime, with: &str) {
    let (name, most) = head(with);
    let mut files = RealFiles::new(rt);
    match files.fetch(rt.alloc(), name, low_word(number(most)) as usize) {
        Ok(bytes) => write!(text, "{} {}", bytes.len(), zeros(&bytes)),
        Err(fault) => write!(text, "{fault:?}"),
    }
}

/// How many bytes are 0.
fn zeros(bytes: &[u8]) -> usize {
    bytes.iter().filter(|byte| **byte == 0).count()
}

/// The bytes that the slow runtime's files give.
fn push_slow(text: &mut RowText, alloc: Global, n: &[u64; 8]) {
    let mut files = RealFiles::new(ShortIo::new(low_word(n[0])));
    push_fetched(text, files.fetch(alloc, "a", low_word(n[1]) as usize))
}

/// Appends the fetched bytes.
fn push_fetched(text: &mut RowText, fetched: Result<Vec<u8>, FetchFault>) {
    match fetched {
        Ok(bytes) => write!(text, "{} ", str::from_utf8(&bytes).unwrap_or("?")),
        Err(fault) => write!(text, "{fault:?} "),
    }
}

/// Writes a text to the slow runtime's output and flushes it, and appends the bytes that it took.
fn push_out(text: &mut RowText, with: &str) {
    let (failing, bytes) = head(with);
    let slow = ShortIo::new(low_word(number(failing)));
    let mut out = Gathered::new(OutSink::new(&slow));
    let put = name_of(out.put(bytes.as_bytes()).is_ok());
    let before = slow.taken.get();
    let flushed = name_of(out.flush().is_ok());
    write!(text, "{put} {before:x} {flushed} {:x}", slow.taken.get())
}

/// How a row writes the outcome of a call.
fn name_of(is_ok: bool) -> &'static str {
    if is_ok { "ok" } else { "failed" }
}

/// Appends the results of steps over files in memory.
fn push_files(text: &mut RowText, alloc: Global, steps: &str) {
    let mut files = MemFiles::new(alloc);
    for step in steps.split(';') {
        push_files_step(text, alloc, &mut files, step);
    }
}

/// `add NAME TEXT` gives a file, `fail CALL` lists a call as one that fails, `fetch NAME MOST`
/// appends the fetched bytes.
fn push_files_step(text: &mut RowText, alloc: Global, files: &mut MemFiles, step: &str) {
    let (call, with) = head(step);
    let (name, more) = head(with);
    let done = match call {
        "add" => files.add(name, more.as_bytes()),
        "fail" => files.fail_at(u64::from(low_word(number(name)))),
        _ => {
            push_fetched(
                text,
                files.fetch(alloc, name, low_word(number(more)) as usize),
            );
            Ok(())
        }
    };
    if done.is_err() {
        text.refuse();
    }
}

/// Appends the results of steps over a sink in memory of eight bytes.
fn push_sink(text: &mut RowText, alloc: Global, steps: &str) {
    let Ok(mut sink) = MemSink::new(alloc, 8) else {
        return text.refuse();
    };
    for step in steps.split(';') {
        push_sink_step(text, &mut sink, step);
    }
}

/// `fail CALL TAKEN` lists a call as one that fails, `put TEXT` appends the sink's content then.
fn push_sink_step(text: &mut RowText, sink: &mut MemSink, step: &str) {
    let (call, with) = head(step);
    if call == "fail" {
        let n = numbers(with);
        if sink
            .fail_at(u64::from(low_word(n[0])), low_word(n[1]) as usize)
            .is_err()
        {
            text.refuse();
        }
        return;
    }
    let put = name_of(sink.put(with.as_bytes()).is_ok());
    let bytes = str::from_utf8(sink.bytes()).unwrap_or("?");
    write!(text, "{put}:{bytes} ")
}
