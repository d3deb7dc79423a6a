//! An issue that leaves M.

ghost use Rattle.std.specs.Prelude.{◌≡◌};
ghost use Rattle.machine.specs.Running.{turn_of};

use pipe_model::{Held, Written};

/// An issue that leaves M: the turn in `w` after its cycle.
#[derive(Clone, Copy, Drop)]
pub(crate) struct Leaving {
    /// Its thread.
    pub(crate) thread: u8,
    /// Its pc.
    pub(crate) pc: u32,
    /// Its word.
    pub(crate) word: u32,
}

impl Leaving {
    /// Its turn.
    pub(crate) fn held(self) -> Held<Written>
        ensures { result ≡ turn_of self }
    {
        Held::Issue {
            thread: self.thread,
            what: Written {
                pc: self.pc,
                word: self.word,
            },
        }
    }
}
