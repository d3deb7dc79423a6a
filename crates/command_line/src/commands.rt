//! The commands.

ghost use Rattle.std.specs.Prelude.{◌≡◌, ◌≤◌, length, map, string_bytes, IfOk};
ghost use Rattle.std.specs.Prelude.{IfErr, IfSome, Err, Some, option_map, find, true};
ghost use Rattle.std.specs.Str.{bytes_eq};
ghost use Rattle.timer_unit.specs.Time.{most_cycles};
ghost use Rattle.command_line.specs.Limits.{most_checked_cycles};
ghost use Rattle.command_line.specs.Commands.{cycles_in, checked_cycles_in};
ghost use Rattle.command_line.specs.Commands.{ask, ask_of_words, commands, run_asks, dump_asks};
ghost use Rattle.command_line.specs.Commands.{asm_asks, bound_asks, selfrun_asks, phases_asks};
ghost use Rattle.command_line.specs.Commands.{solo_asks, check_asks, elf_asks, calls_asks};
ghost use Rattle.command_line.specs.Code.{command_row_of};
ghost use Rattle.command_line.specs.Rules.{is_fit};
ghost use Rattle.command_line.specs.Causes.{IsCauseOf};
ghost use Rattle.command_line.specs.declared.asked.WordsNo.TheVariants.{Usage};
ghost use Rattle.command_line.specs.Limits.{IsWithinLimits};

use crate::asked::{Ask, WordsNo};
use crate::command::Command;
use crate::numbers::{address_of, number_of, thread_of};
use crate::parse::texts_of;
use fp_setup::Name;
use region_tree::Section;
use std::alloc::{AllocError, Global};
use timer_unit::MOST_CYCLES;

/// The most cycles of a run that a trace is compared with.
const MOST_CHECKED_CYCLES: u64 = 1_000_000;

/// The largest number of the machine's own run.
const MOST_NUMBER: u64 = 4_294_967_295;

/// The command of this name.
fn command_named(name: &str) -> Option<Command>
    ensures { option_map command_row_of result ≡ find (λ row. bytes_eq name.now row.name) commands }
{
    match name {
        "run" => Some(Command::Run),
        "dump" => Some(Command::Dump),
        "asm" => Some(Command::Asm),
        "bound" => Some(Command::Bound),
        "selfrun" => Some(Command::Selfrun),
        "phases" => Some(Command::Phases),
        "solo" => Some(Command::Solo),
        "check" => Some(Command::Check),
        "elf" => Some(Command::Elf),
        "calls" => Some(Command::Calls),
        _ => None,
    }
}

/// The options of a command, in order.
fn options_of(command: Command) -> &'static [&'static str]
    ensures options { map (λ n. n.now) result.now ≡ (command_row_of command).options }
    ensures fit { is_fit (map (λ n. n.now) result.now) ≡ true }
{
    match command {
        Command::Run => &["thread", "cycles"],
        Command::Dump => &["cycles"],
        Command::Asm => &[],
        Command::Bound => &["thread", "from", "to"],
        Command::Selfrun => &[],
        Command::Phases => &["cycles"],
        Command::Solo => &["thread", "cycles"],
        Command::Check => &["thread", "cycles", "trace"],
        Command::Elf => &[],
        Command::Calls => &["thread", "from", "to", "routines"],
    }
}

/// Two names with these texts.
fn two_names(alloc: Global, first: &str, second: &str) -> Result<(Name, Name), AllocError>
    ensures { IfOk result (λ names. (names.0 ≡ first.now) × (names.1 ≡ second.now)) }
{
    let first = Name::from_str(alloc, first)?;
    Ok((first, Name::from_str(alloc, second)?))
}

/// A number of cycles, at most [`MOST_CYCLES`].
fn cycles_of(word: &str) -> Option<u64>
    ensures value { result ≡ cycles_in word.now }
    ensures limit { IfSome result (λ n. n ≤ most_cycles) }
{
    number_of(MOST_CYCLES, word)
}

/// A number of cycles that a trace is compared over, at most [`MOST_CHECKED_CYCLES`].
fn checked_cycles_of(word: &str) -> Option<u64>
    ensures value { result ≡ checked_cycles_in word.now }
    ensures limit { IfSome result (λ n. n ≤ most_checked_cycles) }
{
    number_of(MOST_CHECKED_CYCLES, word)
}

/// `run SETUP --thread i --cycles n`
fn run(alloc: Global, texts: &[&str]) -> Result<Ask, WordsNo>
    ensures asked { IfOk result (λ a. run_asks (map (λ t. t.now) texts.now) ≡ Some a) }
    ensures refused { IfErr result (IsCauseOf (run_asks (map (λ t. t.now) texts.now))) }
    ensures limits { IfOk result IsWithinLimits }
{
    if texts.len() != 3 {
        return Err(WordsNo::Usage);
    }
    match (thread_of(texts[1]), cycles_of(texts[2])) {
        (Some(thread), Some(cycles)) => Ok(Ask::Run {
            setup: Name::from_str(alloc, texts[0])?,
            thread,
            cycles,
        }),
        _ => Err(WordsNo::Usage),
    }
}

/// `dump SETUP --cycles n`
fn dump(alloc: Global, texts: &[&str]) -> Result<Ask, WordsNo>
    ensures asked { IfOk result (λ a. dump_asks (map (λ t. t.now) texts.now) ≡ Some a) }
    ensures refused { IfErr result (IsCauseOf (dump_asks (map (λ t. t.now) texts.now))) }
    ensures limits { IfOk result IsWithinLimits }
{
    if texts.len() != 2 {
        return Err(WordsNo::Usage);
    }
    match cycles_of(texts[1]) {
        Some(cycles) => Ok(Ask::Dump {
            setup: Name::from_str(alloc, texts[0])?,
            cycles,
        }),
        None => Err(WordsNo::Usage),
    }
}

/// `asm SOURCE`
fn asm(alloc: Global, texts: &[&str]) -> Result<Ask, WordsNo>
    ensures asked { IfOk result (λ a. asm_asks (map (λ t. t.now) texts.now) ≡ Some a) }
    ensures refused { IfErr result (IsCauseOf (asm_asks (map (λ t. t.now) texts.now))) }
    ensures limits { IfOk result IsWithinLimits }
{
    if texts.len() != 1 {
        return Err(WordsNo::Usage);
    }
    Ok(Ask::Asm {
        source: Name::from_str(alloc, texts[0])?,
    })
}

/// `bound SETUP --thread i --from a --to b`
fn bound(alloc: Global, texts: &[&str]) -> Result<Ask, WordsNo>
    ensures asked { IfOk result (λ a. bound_asks (map (λ t. t.now) texts.now) ≡ Some a) }
    ensures refused { IfErr result (IsCauseOf (bound_asks (map (λ t. t.now) texts.now))) }
    ensures limits { IfOk result IsWithinLimits }
{
    if texts.len() != 4 {
        return Err(WordsNo::Usage);
    }
    match (
        thread_of(texts[1]),
        address_of(texts[2]),
        address_of(texts[3]),
    ) {
        (Some(thread), Some(from), Some(to)) => Ok(Ask::Bound {
            setup: Name::from_str(alloc, texts[0])?,
            thread,
            section: Section { from, to },
        }),
        _ => Err(WordsNo::Usage),
    }
}

/// `selfrun NUMBER`, with the number in place of the other commands' file name.
fn selfrun(texts: &[&str]) -> Result<Ask, WordsNo>
    ensures asked { IfOk result (λ a. selfrun_asks (map (λ t. t.now) texts.now) ≡ Some a) }
    ensures refused { IfErr result (IsCauseOf (selfrun_asks (map (λ t. t.now) texts.now))) }
    ensures limits { IfOk result IsWithinLimits }
{
    if texts.len() != 1 {
        return Err(WordsNo::Usage);
    }
    match number_of(MOST_NUMBER, texts[0]) {
        Some(number) => Ok(Ask::Selfrun {
            number: number as u32,
        }),
        None => Err(WordsNo::Usage),
    }
}

/// `phases SETUP --cycles n`
fn phases(alloc: Global, texts: &[&str]) -> Result<Ask, WordsNo>
    ensures asked { IfOk result (λ a. phases_asks (map (λ t. t.now) texts.now) ≡ Some a) }
    ensures refused { IfErr result (IsCauseOf (phases_asks (map (λ t. t.now) texts.now))) }
    ensures limits { IfOk result IsWithinLimits }
{
    if texts.len() != 2 {
        return Err(WordsNo::Usage);
    }
    match cycles_of(texts[1]) {
        Some(cycles) => Ok(Ask::Phases {
            setup: Name::from_str(alloc, texts[0])?,
            cycles,
        }),
        None => Err(WordsNo::Usage),
    }
}

/// `solo SETUP --thread i --cycles n`
fn solo(alloc: Global, texts: &[&str]) -> Result<Ask, WordsNo>
    ensures asked { IfOk result (λ a. solo_asks (map (λ t. t.now) texts.now) ≡ Some a) }
    ensures refused { IfErr result (IsCauseOf (solo_asks (map (λ t. t.now) texts.now))) }
    ensures limits { IfOk result IsWithinLimits }
{
    if texts.len() != 3 {
        return Err(WordsNo::Usage);
    }
    match (thread_of(texts[1]), cycles_of(texts[2])) {
        (Some(thread), Some(cycles)) => Ok(Ask::Solo {
            setup: Name::from_str(alloc, texts[0])?,
            thread,
            cycles,
        }),
        _ => Err(WordsNo::Usage),
    }
}

/// `check SETUP --thread i --cycles n --trace FILE`
fn check(alloc: Global, texts: &[&str]) -> Result<Ask, WordsNo>
    ensures asked { IfOk result (λ a. check_asks (map (λ t. t.now) texts.now) ≡ Some a) }
    ensures refused { IfErr result (IsCauseOf (check_asks (map (λ t. t.now) texts.now))) }
    ensures limits { IfOk result IsWithinLimits }
{
    if texts.len() != 4 {
        return Err(WordsNo::Usage);
    }
    match (thread_of(texts[1]), checked_cycles_of(texts[2])) {
        (Some(thread), Some(cycles)) => {
            let (setup, trace) = two_names(alloc, texts[0], texts[3])?;
            Ok(Ask::Check {
                setup,
                thread,
                cycles,
                trace,
            })
        }
        _ => Err(WordsNo::Usage),
    }
}

/// `elf FILE`
fn elf(alloc: Global, texts: &[&str]) -> Result<Ask, WordsNo>
    ensures asked { IfOk result (λ a. elf_asks (map (λ t. t.now) texts.now) ≡ Some a) }
    ensures refused { IfErr result (IsCauseOf (elf_asks (map (λ t. t.now) texts.now))) }
    ensures limits { IfOk result IsWithinLimits }
{
    if texts.len() != 1 {
        return Err(WordsNo::Usage);
    }
    Ok(Ask::Elf {
        file: Name::from_str(alloc, texts[0])?,
    })
}

/// `calls SETUP --thread i --from a --to b --routines FILE`
fn calls(alloc: Global, texts: &[&str]) -> Result<Ask, WordsNo>
    ensures asked { IfOk result (λ a. calls_asks (map (λ t. t.now) texts.now) ≡ Some a) }
    ensures refused { IfErr result (IsCauseOf (calls_asks (map (λ t. t.now) texts.now))) }
    ensures limits { IfOk result IsWithinLimits }
{
    if texts.len() != 5 {
        return Err(WordsNo::Usage);
    }
    match (
        thread_of(texts[1]),
        address_of(texts[2]),
        address_of(texts[3]),
    ) {
        (Some(thread), Some(from), Some(to)) => {
            let (setup, routines) = two_names(alloc, texts[0], texts[4])?;
            Ok(Ask::Calls {
                setup,
                thread,
                section: Section { from, to },
                routines,
            })
        }
        _ => Err(WordsNo::Usage),
    }
}

/// The command with its values, from its texts: the file name or number, and the options' values in
/// order.
fn ask_by(alloc: Global, command: Command, texts: &[&str]) -> Result<Ask, WordsNo>
    ensures asked { IfOk result
        (λ a. (command_row_of command).asks (map (λ t. t.now) texts.now) ≡ Some a) }
    ensures refused { IfErr result
        (IsCauseOf ((command_row_of command).asks (map (λ t. t.now) texts.now))) }
    ensures limits { IfOk result IsWithinLimits }
{
    match command {
        Command::Run => run(alloc, texts),
        Command::Dump => dump(alloc, texts),
        Command::Asm => asm(alloc, texts),
        Command::Bound => bound(alloc, texts),
        Command::Selfrun => selfrun(texts),
        Command::Phases => phases(alloc, texts),
        Command::Solo => solo(alloc, texts),
        Command::Check => check(alloc, texts),
        Command::Elf => elf(alloc, texts),
        Command::Calls => calls(alloc, texts),
    }
}

/// The command with its values, from the arguments after its name.
#[tactic(auto, unfolding(crate::specs::Commands::ask_of_words))]
fn ask_of(alloc: Global, name: &str, command: Command, words: &[String]) -> Result<Ask, WordsNo>
    ensures asked { IfOk result (λ a.
        ask_of_words (command_row_of command) (map string_bytes words.now) ≡ Some a) }
    ensures refused { IfErr result
        (IsCauseOf (ask_of_words (command_row_of command) (map string_bytes words.now))) }
    ensures limits { IfOk result IsWithinLimits }
{
    let texts = texts_of(alloc, name, options_of(command), words)?;
    ask_by(alloc, command, texts.as_slice())
}

/// The command that the arguments give; they come after the program's name.
///
/// # Errors
///
/// Usage exactly if the arguments give no command, unless memory ran out; then NoMemory.
pub fn read_words(alloc: Global, words: &[String]) -> Result<Ask, WordsNo>
    ensures asked { IfOk result (λ a. ask (map string_bytes words.now) ≡ Some a) }
    ensures refused { IfErr result (IsCauseOf (ask (map string_bytes words.now))) }
    ensures limits { IfOk result IsWithinLimits }
    ensures nothing { length words.now ≡ 0 → result ≡ Err Usage }
{
    let Some((name, words)) = words.split_first() else {
        return Err(WordsNo::Usage);
    };
    let name = name.as_str();
    match command_named(name) {
        Some(command) => ask_of(alloc, name, command, words),
        None => Err(WordsNo::Usage),
    }
}
