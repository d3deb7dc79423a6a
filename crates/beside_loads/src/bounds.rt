//! The bound of a thread's section beside any load: one bound holds for all setups with the
//! thread's slots and the section's words, whatever the seven other threads run.

ghost use Rattle.std.specs.Prelude.{◌≡◌, [], IfOk, map, string_bytes, vec_len};
ghost use Rattle.beside_loads.specs.Bounds.{IsBoundBeside};

use crate::NoTrace;
use flexpret_top::{Files, MemSink, Ports, bounds_while_scheduled, flexpret, programs_keep_rules};
use std::alloc::Global;

/// Runs the command of some arguments with an empty sink, and returns its status.
fn write_bound<F: Files>(
    alloc: Global,
    words: &[String],
    files: &mut F,
    ports: &mut Ports,
    out: &mut MemSink,
) -> u8
    requires eight { vec_len ports.old ≡ 8 }
    requires empty { out.old.bytes ≡ [] }
    ensures { result ≡ 0 →
        IsBoundBeside (F.contents files.old) (map string_bytes words.now) out.new.bytes }
{
    programs_keep_rules();
    bounds_while_scheduled();
    flexpret(alloc, words, files, out, ports)
}

/// The line that the command of some arguments writes: `bound` or `calls` of a section of a
/// thread's code. Its number bounds the visits of the section beside any load.
///
/// # Errors
///
/// The status of the command, 8 if the line has more than `room` bytes; or out of memory.
pub fn bound_beside<F: Files>(
    alloc: Global,
    words: &[String],
    files: &mut F,
    ports: &mut Ports,
    room: usize,
) -> Result<MemSink, NoTrace>
    requires { vec_len ports.old ≡ 8 }
    ensures { IfOk result (λ line. IsBoundBeside (F.contents files.old) (map string_bytes words.now)
        line.bytes) }
{
    let mut out = MemSink::new(alloc, room)?;
    match write_bound(alloc, words, files, ports, &mut out) {
        0 => Ok(out),
        status => Err(NoTrace::Status(status)),
    }
}
