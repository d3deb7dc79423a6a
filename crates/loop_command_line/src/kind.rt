//! The kinds of plants.

ghost use Rattle.std.specs.Prelude.{◌≡◌};
ghost use Rattle.loop_command_line.specs.Plants.{is_pipe_kind, kind_in, takes};

/// The kind of a plant.
#[derive(Clone, Copy, Debug, PartialEq, Eq)]
pub enum Kind {
    /// A heated body.
    Body,
    /// A motor.
    Motor,
    /// A table of words.
    Table,
    /// Recorded words.
    Recorded,
    /// A plant in another process.
    Pipe,
}

impl Kind {
    /// Whether it is the pipe.
    pub fn is_pipe(self) -> bool
        ensures { result ≡ is_pipe_kind self }
    {
        matches!(self, Kind::Pipe)
    }

    /// Whether a plant of the kind has so many numbers.
    pub(crate) fn takes(self, count: usize) -> bool
        ensures { result ≡ takes self count }
    {
        match self {
            Kind::Body | Kind::Motor => count == 1,
            Kind::Table | Kind::Recorded => count > 0,
            Kind::Pipe => count == 0,
        }
    }
}

/// The kind with a name.
pub(crate) fn kind_of(name: &[u8]) -> Option<Kind>
    ensures { result ≡ kind_in name.now }
{
    if name == b"body".as_slice() {
        Some(Kind::Body)
    } else if name == b"motor".as_slice() {
        Some(Kind::Motor)
    } else if name == b"table".as_slice() {
        Some(Kind::Table)
    } else if name == b"recorded".as_slice() {
        Some(Kind::Recorded)
    } else if name == b"pipe".as_slice() {
        Some(Kind::Pipe)
    } else {
        None
    }
}
