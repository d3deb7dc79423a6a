//! How far a run is.

ghost use Rattle.std.specs.Prelude.{◌<◌};
ghost use Rattle.timer_unit.specs.Time.{most_cycles};

/// The number of cycles between two reports of progress.
const EACH: u64 = 1 << 20;

/// The receiver of progress reports.
pub trait Progress {
    /// So many cycles are done.
    fn tell(&mut self, done: u64);

    /// The cycles before the window are done.
    fn begin_window(&mut self);
}

/// The number of cycles done at the next report after so many.
pub(crate) fn next_report(done: u64) -> u64
    requires { done < most_cycles }
    ensures { done < result }
{
    done - done % EACH + EACH
}

/// Reports the number of cycles done, if a report is due.
pub(crate) fn tell_at<P: Progress>(progress: &mut P, done: u64) {
    if done % EACH == 0 {
        progress.tell(done);
    }
}
