//! The registers between two stages. A turn moves one stage per cycle: F fetches, D reads
//! registers, E executes, M accesses memory and ports, and W writes registers.

use rv_exec::Effect;

/// The content of a stage register.
#[derive(Clone, Copy, Debug)]
pub enum Held<T> {
    /// No thread was picked.
    Bubble,
    /// The turn of a thread that wasn't ready.
    Flushed { thread: u8 },
    /// An instruction of a thread, 0 to 7, with the data known in this stage.
    Issue { thread: u8, what: T },
}

/// After F: an address and its word, 0 outside the instruction scratchpad.
#[derive(Clone, Copy, Debug)]
pub struct Fetched {
    /// The address of the word, in bytes, a multiple of 4.
    pub pc: u32,
    /// The word there.
    pub word: u32,
}

/// After D: the word with the values of its source registers, 0 if it has none. `expired` is
/// whether the thread's armed moment was reached in the cycle of the issue.
#[derive(Clone, Copy, Debug)]
pub struct Decoded {
    /// The address of the word, in bytes.
    pub pc: u32,
    /// The word there.
    pub word: u32,
    /// Whether an expiry takes the turn.
    pub expired: bool,
    /// The value of rs1.
    pub a: u32,
    /// The value of rs2.
    pub b: u32,
}

/// After E: the word and the sources are 0 if an expiry or a refused fetch took the turn. `address`
/// is the address of a load or store that doesn't trap, else 0. `effect` is None for a DU that
/// waits, and `Nothing` if M computes the value.
#[derive(Clone, Copy, Debug)]
pub struct Executed {
    /// The address of the word, in bytes.
    pub pc: u32,
    /// The word that the event shows.
    pub word: u32,
    /// The value of rs1.
    pub a: u32,
    /// The value of rs2.
    pub b: u32,
    /// The address that M loads or stores, in bytes.
    pub address: u32,
    /// The effect, without a late value.
    pub effect: Option<Effect>,
}

/// After M: the effect is the event's; None for a DU that waits.
#[derive(Clone, Copy, Debug)]
pub struct Stored {
    /// The address of the word, in bytes.
    pub pc: u32,
    /// The word that the event shows.
    pub word: u32,
    /// The effect of the event.
    pub effect: Option<Effect>,
}

/// After W.
#[derive(Clone, Copy, Debug)]
pub struct Written {
    /// The address of the word, in bytes.
    pub pc: u32,
    /// The word that the event showed.
    pub word: u32,
}

/// Which younger turns of its thread a redirect flushes. Source: this project's profile of the
/// core.
#[derive(Clone, Copy, PartialEq, Eq, Debug)]
pub enum Flush {
    /// The turn in D, which would read a register before M has its value. The turn in F stays.
    Decode,
    /// The turns in D and in F: their pc, or state that they read, is resolved only in E.
    DecodeAndFetch,
}

/// A redirect from E to D and F in the same cycle: the thread, 0 to 7, fetches at `pc` next. Its
/// turn in D is flushed, and with `DecodeAndFetch` that in F too. Turns of other threads aren't
/// touched.
#[derive(Clone, Copy, Debug)]
pub struct Redirect {
    /// Whose turns are flushed.
    pub thread: u8,
    /// The address of the word that it fetches next, in bytes, a multiple of 4.
    pub pc: u32,
    /// Which of its turns are flushed.
    pub flush: Flush,
}
