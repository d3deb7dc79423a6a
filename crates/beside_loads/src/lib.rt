//! An example of a program over the theorems of this project. It shows that a control thread has
//! the same trace with any two loads, and that a bound of its code holds beside any load.
//!
//! Its line of crates.txt names only `flexpret_top`, which re-exports the definitions, theorems and
//! types used here.

#![tactic(auto)]

mod bounds;
#[cfg(test)]
mod tests;

ghost use Rattle.std.specs.Prelude.{◌≡◌, ◌↔◌, [], IfOk, map, string_bytes, true, vec_len};
ghost use Rattle.flexpret_top.specs.PluggedPorts.{rows_of};
ghost use Rattle.beside_loads.specs.Loads.{IsSameBeside, IsTraceBeside};

pub use bounds::bound_beside;
use flexpret_top::{Files, MemSink, Ports, flexpret};
use std::alloc::{AllocError, Global};

/// Why there is no trace.
#[derive(Clone, Copy, Debug, PartialEq, Eq)]
pub enum NoTrace {
    /// The command ended with this status, 1 to 10.
    Status(u8),
    /// Out of memory.
    NoMemory,
}

impl From<AllocError> for NoTrace {
    fn from(_refused: AllocError) -> NoTrace {
        NoTrace::NoMemory
    }
}

/// Runs the command of some arguments with an empty sink, and returns its status.
fn write_trace<F: Files>(
    alloc: Global,
    words: &[String],
    files: &mut F,
    ports: &mut Ports,
    out: &mut MemSink,
) -> u8
    requires eight { vec_len ports.old ≡ 8 }
    requires empty { out.old.bytes ≡ [] }
    ensures { result ≡ 0 → IsTraceBeside (F.contents files.old) (map string_bytes words.now)
        (rows_of latched word_at ports.old.items) out.new.bytes }
{
    flexpret(alloc, words, files, out, ports)
}

/// The trace that the command of some arguments writes with a load, in a sink with room for `room`
/// bytes. The files have the setup and the image with the load, and the ports have its devices.
///
/// # Errors
///
/// The status of the command, 8 if the trace has more bytes; or out of memory.
pub fn trace_beside<F: Files>(
    alloc: Global,
    words: &[String],
    files: &mut F,
    ports: &mut Ports,
    room: usize,
) -> Result<MemSink, NoTrace>
    requires { vec_len ports.old ≡ 8 }
    ensures { IfOk result (λ trace. IsTraceBeside (F.contents files.old)
        (map string_bytes words.now)
        (rows_of latched word_at ports.old.items) trace.bytes) }
{
    let mut out = MemSink::new(alloc, room)?;
    match write_trace(alloc, words, files, ports, &mut out) {
        0 => Ok(out),
        status => Err(NoTrace::Status(status)),
    }
}

/// Whether two sinks have the same bytes.
fn have_same(one: &MemSink, other: &MemSink) -> bool
    ensures { (result ≡ true) ↔ (one.now.bytes ≡ other.now.bytes) }
{
    one.bytes() == other.bytes()
}

/// Whether the command of some arguments writes the same trace with two loads. It does if the
/// thread is protected from both, with the same view: its own code, slots, private memory and
/// inputs are the same, and its trace depends on nothing else.
///
/// # Errors
///
/// As for [`trace_beside`], for the first load or else for the second one.
#[tactic(auto, using(crate::proofs::Traces::same_beside))]
pub fn is_same_beside<F: Files>(
    alloc: Global,
    words: &[String],
    one: &mut F,
    ports_of_one: &mut Ports,
    other: &mut F,
    ports_of_other: &mut Ports,
    room: usize,
) -> Result<bool, NoTrace>
    requires one { vec_len ports_of_one.old ≡ 8 }
    requires other { vec_len ports_of_other.old ≡ 8 }
    ensures { IfOk result (λ same. IsSameBeside (F.contents one.old) (F.contents other.old)
        (map string_bytes words.now) (rows_of latched word_at ports_of_one.old.items)
        (rows_of latched word_at ports_of_other.old.items) same) }
{
    let first = trace_beside(alloc, words, one, ports_of_one, room)?;
    let second = trace_beside(alloc, words, other, ports_of_other, room)?;
    Ok(have_same(&first, &second))
}
