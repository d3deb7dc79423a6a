//! The lines of a run's events.

ghost use Rattle.std.specs.Prelude.{◌≡◌, ◌≤◌, ◌<◌, ◌^◌, IfSome, IfNone, OnOk, OnErr};
ghost use Rattle.std.specs.Io.KnownBytes.{Appends};
ghost use Rattle.fp_io.specs.Causes.{HasRisen};
ghost use Rattle.fp_io.specs.Content.{AppendsPrefix};
ghost use Rattle.rv_exec.specs.Line.{IsPrintable, IsPrintableEvent};
ghost use Rattle.trace_print.specs.Text.{line_text};
ghost use Rattle.solo_run.specs.Text.{event_text};

use fp_io::{PutFailed, Sink};
use rv_exec::Event;
use trace_print::EventLine;

/// Makes the line of an event.
#[inline(always)]
pub(crate) fn set_line(line: &mut EventLine, event: &Event)
    requires cycle { event.now.cycle < 10 ^ 10 }
    requires printable { IsPrintable event.now.effect }
    ensures { line.new ≡ line_text event.now }
{
    line.set(event.cycle, event.pc, event.word, &event.effect);
}

/// Puts the line of an event, if there is one. The line is made in place of an earlier one.
#[inline(always)]
pub(crate) fn put_event<K: Sink>(
    out: &mut K,
    line: &mut EventLine,
    event: Option<Event>,
) -> Result<(), PutFailed>
    requires cycle { IfSome event (λ e. e.cycle < 10 ^ 10) }
    requires printable { IsPrintableEvent event }
    ensures counted { K.faults out.old ≤ K.faults out.new }
    ensures ok { OnOk result (Appends (K.taken out.old) (K.taken out.new) (event_text event)) }
    ensures err { OnErr result (AppendsPrefix (K.taken out.old) (K.taken out.new)
        (event_text event)) }
    ensures failed { OnErr result (HasRisen (K.faults out.old) (K.faults out.new)) }
    ensures nothing { IfNone event (out.new ≡ out.old) }
{
    match event {
        Some(event) => {
            set_line(line, &event);
            out.put(line.as_bytes())
        }
        None => Ok(()),
    }
}
