//! The engine of one thread, from only the thread's view and with an absent port. A call is a
//! setup, an image, a thread and a number of cycles, as `plain.toml plain.fpx 0 1000`. Its answer
//! is how many bytes the thread's trace has. The trace itself is discarded, so that only the engine
//! takes time.

ghost use Rattle.std.specs.Prelude.{◌<◌, ◌≤◌, IfSome};
ghost use Rattle.timer_unit.specs.Time.{most_cycles};
ghost use Rattle.solo_run.specs.View.{IsView};

use crate::numbers::{head, number, thread_of};
use fp_image::read_image;
use fp_io::{Files, PutFailed, RealFiles, Sink};
use fp_setup::{MOST_SETUP_BYTES, read_setup};
use solo_run::{NoPort, SoloRun, SoloView};
use std::alloc::Global;
use test_text::RowText;
use timer_unit::MOST_CYCLES;

/// A sink that counts the bytes that it takes, and keeps none. It never fails.
#[derive(Clone, Copy)]
struct Tally {
    bytes: u64,
}

impl Sink for Tally {
    ghost use Rattle.std.specs.Prelude.{None};

    ghost taken = { λ _. None };

    ghost faults = { λ _. 0 };

    fn put(&mut self, bytes: &[u8]) -> Result<(), PutFailed> {
        self.bytes = self.bytes.saturating_add(bytes.len() as u64);
        Ok(())
    }
}

/// How many bytes a thread's trace has; None if memory ran out.
fn bytes_of(view: SoloView, cycles: u64) -> Option<u64>
    requires view { IsView view }
    requires limit { cycles ≤ most_cycles }
{
    let mut tally = Tally { bytes: 0 };
    match SoloRun::new(view).run(cycles, &mut NoPort, &mut tally) {
        Ok(()) => Some(tally.bytes),
        Err(_) => None,
    }
}

/// The view of a thread; None if setup or image is refused, or memory ran out.
fn view_of(alloc: Global, setup: &[u8], image: &[u8], thread: u8) -> Option<SoloView>
    requires { thread < 8 }
    ensures { IfSome result IsView }
{
    let setup = read_setup(alloc, setup).ok()?;
    let image = read_image(alloc, image, setup.size()).ok()?;
    SoloView::of(alloc, &setup, &image, thread).ok()
}

/// How many bytes a thread's trace has; None if it has no view, memory ran out, or there aren't so
/// many cycles.
fn trace_length(alloc: Global, setup: &[u8], image: &[u8], thread: u8, cycles: u64) -> Option<u64>
    requires { thread < 8 }
{
    if cycles > MOST_CYCLES {
        return None;
    }
    bytes_of(view_of(alloc, setup, image, thread)?, cycles)
}

/// The bytes of a file; none where it can't be read.
fn bytes_in(rt: HostRuntime, name: &str) -> Vec<u8> {
    match RealFiles::new(rt).fetch(rt.alloc(), name, MOST_SETUP_BYTES) {
        Ok(bytes) => bytes,
        Err(_) => Vec::new(rt.alloc()),
    }
}

/// Appends how many bytes a trace has.
pub fn push_answer(text: &mut RowText, rt: HostRuntime, call: &str) {
    let (setup, call) = head(call);
    let (image, call) = head(call);
    let (thread, cycles) = head(call);
    let (setup, image) = (bytes_in(rt, setup), bytes_in(rt, image));
    let thread = thread_of(number(thread));
    match trace_length(rt.alloc(), &setup, &image, thread, number(cycles)) {
        Some(bytes) => write!(text, "{bytes} bytes"),
        None => text.push_str("nothing"),
    }
}
