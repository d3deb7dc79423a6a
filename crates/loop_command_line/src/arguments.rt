//! The run that arguments give.

ghost use Rattle.std.specs.Prelude.{◌≡◌, ◌<◌, ◌≤◌, IfOk, IfErr, IfSome, Some, length, map};
ghost use Rattle.std.specs.Prelude.{string_bytes, true};
ghost use Rattle.timer_unit.specs.Time.{most_cycles};
ghost use Rattle.command_line.specs.Causes.{IsCauseOf};
ghost use Rattle.command_line.specs.Numbers.{number_in};
ghost use Rattle.command_line.specs.Rules.{is_fit};
ghost use Rattle.loop_command_line.specs.Arguments.{IsWithinLimits, loop_ask, options, positive};
ghost use Rattle.loop_command_line.specs.Arguments.{run_asks};

use command_line::{WordsNo, number_of, texts_of, thread_of};
use fp_setup::Name;
use std::alloc::Global;
use timer_unit::MOST_CYCLES;

/// A run in closed loops.
#[derive(Drop)]
pub struct LoopAsk {
    /// The file of the setup.
    pub setup: Name,
    /// The file that lists the plants.
    pub plants: Name,
    /// The thread whose trace is written.
    pub thread: u8,
    /// The number of cycles of a step of the plants.
    pub every: u64,
    /// The number of cycles of the run.
    pub cycles: u64,
}

/// The options, in order.
fn option_names() -> &'static [&'static str]
    ensures options { map (λ n. n.now) result.now ≡ options }
    ensures fit { is_fit (map (λ n. n.now) result.now) ≡ true }
{
    &["plants", "thread", "every", "cycles"]
}

/// The number of cycles of a step.
fn every_of(word: &str) -> Option<u64>
    ensures value { result ≡ positive (number_in most_cycles word.now) }
    ensures some { IfSome result (λ n. 0 < n) }
{
    match number_of(MOST_CYCLES, word) {
        Some(every) if every > 0 => Some(every),
        _ => None,
    }
}

/// The run of the texts of the file name and the options.
fn run_of(alloc: Global, texts: &[&str]) -> Result<LoopAsk, WordsNo>
    ensures asked { IfOk result (λ ask. run_asks (map (λ t. t.now) texts.now) ≡ Some ask) }
    ensures refused { IfErr result (IsCauseOf (run_asks (map (λ t. t.now) texts.now))) }
    ensures limits { IfOk result IsWithinLimits }
{
    if texts.len() != 5 {
        return Err(WordsNo::Usage);
    }
    match (
        thread_of(texts[2]),
        every_of(texts[3]),
        number_of(MOST_CYCLES, texts[4]),
    ) {
        (Some(thread), Some(every), Some(cycles)) => Ok(LoopAsk {
            setup: Name::from_str(alloc, texts[0])?,
            plants: Name::from_str(alloc, texts[1])?,
            thread,
            every,
            cycles,
        }),
        _ => Err(WordsNo::Usage),
    }
}

/// The run that the arguments give: `SETUP --plants FILE --thread i --every n --cycles n`. They
/// come after the program's name, in any order.
///
/// # Errors
///
/// Usage exactly if the arguments give no run, unless memory ran out; then NoMemory.
#[tactic(auto, unfolding(crate::specs::Arguments::loop_ask))]
pub fn read_arguments(alloc: Global, words: &[String]) -> Result<LoopAsk, WordsNo>
    ensures asked { IfOk result (λ ask. loop_ask (map string_bytes words.now) ≡ Some ask) }
    ensures refused { IfErr result (IsCauseOf (loop_ask (map string_bytes words.now))) }
    ensures limits { IfOk result IsWithinLimits }
{
    let texts = texts_of(alloc, "loop_cli", option_names(), words)?;
    run_of(alloc, texts.as_slice())
}
