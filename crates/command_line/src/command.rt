//! The commands by name.

/// A command.
#[derive(Clone, Copy)]
pub enum Command {
    Run,
    Dump,
    Asm,
    Bound,
    Selfrun,
    Phases,
    Solo,
    Check,
    Elf,
    Calls,
}
