//! The texts that arguments give, found with the library's command-line parser.

ghost use Rattle.std.specs.Prelude.{◌≡◌, ◌∷◌, [], map, string_bytes};
ghost use Rattle.std.specs.Prelude.{IfOk, IfErr, true, false, Some};
ghost use Rattle.command_line.specs.Forms.{texts_in, file_id};
ghost use Rattle.command_line.specs.Code.{has_forms};
ghost use Rattle.command_line.specs.Causes.{IsCauseOf};
ghost use Rattle.command_line.specs.Rules.{app, option_rule, is_fit, row_text};
ghost use Rattle.clap.specs.Simple.{new_rule};
ghost use Rattle.clap.specs.Walk.{rule_of};
ghost use Rattle.clap.specs.declared.builder.action.ArgAction.TheVariants.{Set};
ghost use Rattle.clap.specs.Words.{app_of, takes, matches_of, rows_of};
ghost use Rattle.clap.specs.Words.{found_of, is_simple, with_rule};

use crate::asked::WordsNo;
use crate::form::FILE;
use crate::given::gives_each_once;
use clap::error::ErrorKind;
use clap::{Arg, ArgAction, ArgMatches, Command};
use std::alloc::{AllocError, Global};

/// A required argument with one value.
fn required_argument<'a>(alloc: Global, id: &'a str) -> Arg<'a>
    ensures rule { rule_of result ≡
        record (new_rule id.entry.now) { action = Some Set; required = true } }
    ensures local { result.global ≡ false }
{
    Arg::new(alloc, id).required(true).action(ArgAction::Set)
}

/// A command that has a file name and no option yet.
fn named_command<'a>(alloc: Global, name: &'a str) -> Result<Command<'a>, AllocError>
    ensures { IfOk result (λ c. app_of c ≡ app name.entry.now []) }
{
    let file = required_argument(alloc, FILE);
    Command::new(alloc, name).no_binary_name(true).arg(file)
}

/// A command with an additional option.
fn with_option<'a>(
    alloc: Global,
    command: Command<'a>,
    name: &'a str,
) -> Result<Command<'a>, AllocError>
    ensures { IfOk result (λ c.
        app_of c ≡ with_rule (app_of command.entry) (option_rule name.entry.now)) }
{
    command.arg(required_argument(alloc, name).long(name))
}

/// The command of this name with a file name and these options, all required.
fn command_of<'a>(
    alloc: Global,
    name: &'a str,
    options: &[&'a str],
) -> Result<Command<'a>, AllocError>
    ensures { IfOk result (λ c. app_of c ≡ app name.entry.now (map (λ n. n.now) options.now)) }
{
    let mut command = named_command(alloc, name)?;
    for option in options {
        command = with_option(alloc, command, option)?;
    }
    Ok(command)
}

/// The matches of arguments that the command takes. It can only fail if memory runs out.
fn matches_taken<'a>(
    command: Command<'a>,
    words: &'a [String],
) -> Result<ArgMatches<'a>, AllocError>
    requires simple { is_simple (app_of command) ≡ true }
    requires takes { takes (app_of command) (map string_bytes words.now) ≡ true }
    ensures { IfOk result (λ m.
        rows_of (found_of m) ≡
        matches_of (app_of command.entry) (map string_bytes words.entry.now)) }
{
    match command.try_get_matches_from(words) {
        Ok(matches) => Ok(matches),
        Err(error) => {
            let is_memory = error.kind() == ErrorKind::OutOfMemory;
            prove!(is_memory);
            Err(AllocError)
        }
    }
}

/// The value that was found for a name.
fn value_of<'a>(matches: &ArgMatches<'a>, name: &str) -> &'a str
    ensures { result.now ≡ row_text (rows_of (found_of matches.now)) name.now }
{
    matches.get_str(name).unwrap_or("")
}

/// The file name, and the options' values in the order of the options.
fn values_of<'a>(
    alloc: Global,
    options: &[&str],
    matches: &ArgMatches<'a>,
) -> Result<Vec<&'a str>, AllocError>
    ensures { IfOk result (λ v. map (λ t. t.now) v.items ≡
        map (row_text (rows_of (found_of matches.now)))
        (file_id ∷ map (λ n. n.now) options.now)) }
{
    let mut values = vec![in alloc; value_of(matches, FILE)]?;
    for option in options {
        values.push(value_of(matches, option))?;
    }
    Ok(values)
}

/// The matches of arguments that give the file name and each option exactly once, and nothing else.
fn matches_for<'a>(
    alloc: Global,
    name: &'a str,
    options: &[&'a str],
    words: &'a [String],
) -> Result<ArgMatches<'a>, AllocError>
    requires fit { is_fit (map (λ n. n.now) options.now) ≡ true }
    requires given { has_forms (map (λ n. n.now) options.now) (map string_bytes words.now) ≡
        true }
    ensures { IfOk result (λ m.
        rows_of (found_of m) ≡ matches_of (app name.entry.now (map (λ n. n.now) options.now))
        (map string_bytes words.entry.now)) }
{
    matches_taken(command_of(alloc, name, options)?, words)
}

/// The values that arguments give, if they give each exactly once and nothing else.
fn values_for<'a>(
    alloc: Global,
    name: &'a str,
    options: &[&'a str],
    words: &'a [String],
) -> Result<Vec<&'a str>, AllocError>
    requires fit { is_fit (map (λ n. n.now) options.now) ≡ true }
    requires given { has_forms (map (λ n. n.now) options.now) (map string_bytes words.now) ≡
        true }
    ensures { IfOk result (λ v.
        texts_in (map (λ n. n.now) options.now) (map string_bytes words.entry.now) ≡
        Some (map (λ t. t.now) v.items)) }
{
    let matches = matches_for(alloc, name, options, words)?;
    values_of(alloc, options, &matches)
}

/// The file name that the arguments after a command's name give, and the options' values in the
/// order of the options.
///
/// # Errors
///
/// Usage if the arguments don't give each exactly once and nothing else; NoMemory if memory ran
/// out.
pub fn texts_of<'a>(
    alloc: Global,
    name: &'a str,
    options: &[&'a str],
    words: &'a [String],
) -> Result<Vec<&'a str>, WordsNo>
    requires fit { is_fit (map (λ n. n.now) options.now) ≡ true }
    ensures given { IfOk result (λ v.
        texts_in (map (λ n. n.now) options.now) (map string_bytes words.entry.now) ≡
        Some (map (λ t. t.now) v.items)) }
    ensures refused { IfErr result (IsCauseOf
        (texts_in (map (λ n. n.now) options.now) (map string_bytes words.entry.now))) }
{
    if !gives_each_once(options, words) {
        return Err(WordsNo::Usage);
    }
    Ok(values_for(alloc, name, options, words)?)
}
