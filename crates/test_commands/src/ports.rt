//! The state of the ports before and after a command.

ghost use Rattle.std.specs.Prelude.{◌<◌, ◌≡◌, vec_len};

use crate::noted::Notes;
use fp_ports::{Ports, THREADS, latch_of, read_port};
use test_text::RowText;

/// The half of the period of a square wave, by its kind `wN`; 0 for other kinds.
pub fn half_of(kind: &str) -> u64 {
    match kind.strip_prefix('w') {
        Some(digits) => digits.parse().unwrap_or(0u64),
        None => 0,
    }
}

/// The number of feedings that a device noting its calls accepts, from its kind: `+` without a
/// limit, or `+N`. None for other kinds.
pub fn room_of(kind: &str) -> Option<u32> {
    match kind.strip_prefix('+') {
        Some(digits) => Some(digits.parse().unwrap_or(u32::MAX)),
        None => None,
    }
}

/// Appends a thread's latch and the word that its device shows in cycle 0; `-` if there is no
/// device.
fn push_port(text: &mut RowText, ports: &mut Ports, thread: u8)
    requires eight { vec_len ports.old ≡ 8 }
    requires thread { thread < 8 }
    ensures { vec_len ports.new ≡ 8 }
{
    let shown = read_port(ports, thread, 0);
    match latch_of(ports, thread) {
        Some(latch) => write!(text, "{latch:08x}/{shown:08x} "),
        None => text.push_str("- "),
    }
}

/// Appends the final state of the ports, and the number of dropped devices before and after the
/// rest is dropped.
pub fn push_left(text: &mut RowText, mut ports: Ports, notes: &Notes) {
    for thread in 0..THREADS {
        if ports.len() == 8 {
            push_port(text, &mut ports, thread);
        }
    }
    let before = notes.drops.get();
    drop(ports);
    write!(text, "dropped {before} {}", notes.drops.get())
}
