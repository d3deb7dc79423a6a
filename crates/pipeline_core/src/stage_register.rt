//! A stage register as the stages use it.

ghost use Rattle.std.specs.Prelude.{◌≡◌, ◌<◌, true, false};
ghost use Rattle.pipe_model.specs.declared.stage_registers.Held.TheVariants.{Bubble, Flushed};
ghost use Rattle.pipe_model.specs.declared.stage_registers.Held.TheVariants.{Issue};
ghost use Rattle.pipeline_core.specs.Turns.{HasThread, held, is_bubble, is_issue, next_turn};

use pipe_model::Held;

/// The byte of a flushed turn of thread 0. The byte of a flushed turn is its thread plus this one,
/// and smaller bytes are issues.
const FLUSHED: u8 = 8;

/// The byte of a bubble.
const BUBBLE: u8 = 16;

/// A stage register as the stages use it: the same as [`Held`], with the kind of its turn and its
/// thread in one byte. A stage reads and writes that byte in every cycle, and needs one
/// comparison to find whether the turn is an issue of a given thread.
#[derive(Drop)]
pub struct StageRegister<T> {
    /// The thread of an issue, 8 more than the thread of a flushed turn, or 16 for a bubble.
    pub turn: u8,
    /// The content of an issue. It has no meaning if the turn isn't an issue.
    pub what: T,
}

impl<T: Copy> StageRegister<T> {
    /// Whether the turn is an issue. Its thread is `turn` then.
    #[inline(always)]
    pub fn is_issue(&self) -> bool
        ensures issue { result ≡ true → held self.now ≡ Issue self.now.turn self.now.what }
        ensures other { result ≡ false → is_issue (held self.now) ≡ false }
    {
        self.turn < FLUSHED
    }

    /// Whether the turn is a bubble.
    #[inline(always)]
    pub fn is_bubble(&self) -> bool
        ensures { result ≡ is_bubble (held self.now) }
    {
        self.turn >= BUBBLE
    }

    /// Makes the turn a bubble.
    #[inline(always)]
    pub(crate) fn clear(&mut self)
        ensures { held self.new ≡ Bubble }
    {
        self.turn = BUBBLE;
    }

    /// Makes the turn a flushed one of a thread.
    #[inline(always)]
    pub(crate) fn flush(&mut self, thread: u8)
        requires { thread < 8 }
        ensures { held self.new ≡ Flushed thread }
    {
        self.turn = thread + FLUSHED;
    }

    /// Makes the turn an issue of a thread.
    #[inline(always)]
    pub(crate) fn put(&mut self, thread: u8, what: T)
        requires { thread < 8 }
        ensures { held self.new ≡ Issue thread what }
    {
        self.turn = thread;
        self.what = what;
    }

    /// Takes the turn of the stage register before it, which isn't an issue.
    #[inline(always)]
    pub(crate) fn take_turn<U>(&mut self, before: &StageRegister<U>)
        requires { is_issue (held before.now) ≡ false }
        ensures { held self.new ≡ next_turn (held before.now) }
    {
        self.turn = before.turn;
    }

    /// The same turn as `from`. `blank` is the content if it isn't an issue.
    #[inline(always)]
    pub(crate) fn of(from: &Held<T>, blank: T) -> StageRegister<T>
        requires { HasThread from.now }
        ensures { held result ≡ from.now }
    {
        match *from {
            Held::Bubble => StageRegister {
                turn: BUBBLE,
                what: blank,
            },
            Held::Flushed { thread } => StageRegister {
                turn: thread + FLUSHED,
                what: blank,
            },
            Held::Issue { thread, what } => StageRegister { turn: thread, what },
        }
    }

    /// Its turn.
    #[inline(always)]
    pub(crate) fn held(&self) -> Held<T>
        ensures { result ≡ held self.now }
    {
        if self.turn < FLUSHED {
            Held::Issue {
                thread: self.turn,
                what: self.what,
            }
        } else if self.turn < BUBBLE {
            Held::Flushed {
                thread: self.turn - FLUSHED,
            }
        } else {
            Held::Bubble
        }
    }
}
