//! How a command ended.

ghost use Rattle.std.specs.Prelude.{◌≡◌};

use trace_print::Refusal;

/// How a command ended.
#[derive(Clone, Copy)]
pub enum Status {
    /// The command's text was written.
    Ok = 0,
    /// The recorded trace isn't the defined one; the line with the place was written.
    Differs = 1,
    /// Usage error: the arguments are no command.
    Usage = 2,
    /// The setup has a fault, or the section or the thread can't be requested; its line was
    /// written.
    Setup = 3,
    /// The image, or the executable, has a fault; its line was written.
    Image = 4,
    /// The source has a fault; its line was written.
    Source = 5,
    /// The section has no bound, or one past 64 bits; its line was written.
    Bound = 6,
    /// A file could not be read, or isn't there.
    Read = 7,
    /// The text could not be written whole.
    Write = 8,
    /// Memory ran out; nothing was written.
    NoMemory = 9,
    /// The list of routines has a fault; its line was written.
    Routines = 10,
}

impl Status {
    ghost use Rattle.commands.specs.Answer.{status_of};
    ghost use Rattle.commands.specs.Status.{number_of};

    /// The status of a command whose refusal line was written.
    pub fn of_refusal(refusal: &Refusal) -> Status
        ensures { number_of result ≡ status_of refusal.now }
    {
        match refusal {
            Refusal::Setup { .. } | Refusal::Section { .. } => Status::Setup,
            Refusal::Image { .. } => Status::Image,
            Refusal::Source { .. } => Status::Source,
            Refusal::Bound { .. } => Status::Bound,
            Refusal::Routines { .. } => Status::Routines,
        }
    }

    /// Its number.
    pub fn number(self) -> u8
        ensures { result ≡ number_of self }
    {
        self as u8
    }
}
