//! A line on standard error with the progress of a run.

use pipe_view::{Progress, Window};

/// More blanks than a line has characters, which are 52 at most.
const BLANKS: &str = "                                                            ";

/// Until when progress is shown.
#[derive(Clone, Copy, PartialEq, Eq)]
pub enum ShownUntil {
    /// Never.
    Never,
    /// Until the window begins.
    Before,
    /// To the end of the run.
    All,
}

/// A line that replaces the one before it. Output that standard error refuses is lost, and the run
/// goes on.
#[derive(Drop)]
pub struct ProgressLine {
    rt: HostRuntime,
    until: ShownUntil,
    /// How many cycles the run has.
    cycles: u64,
    /// Whether a line is shown.
    is_shown: bool,
}

impl ProgressLine {
    /// A line that isn't shown yet, for a run that shows a window.
    pub fn new(rt: HostRuntime, until: ShownUntil, window: &Window) -> ProgressLine {
        ProgressLine {
            rt,
            until,
            cycles: window.run_len(),
            is_shown: false,
        }
    }

    /// Removes the line, if one is shown.
    pub fn clear(&mut self) {
        if self.is_shown {
            let _ = eprint!(self.rt; "\r{BLANKS}\r");
            self.is_shown = false;
        }
    }
}

impl Progress for ProgressLine {
    fn tell(&mut self, done: u64) {
        if self.until == ShownUntil::Never {
            return;
        }
        let cycles = self.cycles;
        let percent = done.saturating_mul(100).checked_div(cycles).unwrap_or(100);
        let _ = eprint!(self.rt; "\rflexpret_view: {percent} %, cycle {done} of {cycles}");
        self.is_shown = true;
    }

    fn begin_window(&mut self) {
        if self.until == ShownUntil::Before {
            self.clear();
            self.until = ShownUntil::Never;
        }
    }
}
