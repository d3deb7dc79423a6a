//! The commands of command-line arguments.

use command_line::{Ask, WordsNo, read_words};
use region_tree::Section;
use std::alloc::{AllocError, Global};
use test_text::RowText;

/// `none`, or the arguments after a colon: their command, with all values.
pub fn push_answer(text: &mut RowText, alloc: Global, call: &str) {
    match words_of(alloc, call) {
        Ok(words) => push_asked_by(text, alloc, &words),
        Err(AllocError) => text.refuse(),
    }
}

/// The arguments of a call.
fn words_of(alloc: Global, call: &str) -> Result<Vec<String>, AllocError> {
    let mut words = Vec::new(alloc);
    if let Some(line) = call.strip_prefix(':') {
        for word in line.split(' ') {
            words.push(String::from_str(alloc, word)?)?;
        }
    }
    Ok(words)
}

/// Appends the command of the arguments.
fn push_asked_by(text: &mut RowText, alloc: Global, words: &[String]) {
    match read_words(alloc, words) {
        Ok(ask) => push_ask(text, &ask),
        Err(WordsNo::Usage) => text.push_str("usage"),
        Err(WordsNo::NoMemory) => text.refuse(),
    }
}

/// Appends a command: its name, its file, its numbers, and the other file that it reads.
fn push_ask(text: &mut RowText, ask: &Ask) {
    text.push_str(name_of(ask));
    match ask {
        Ask::Run {
            setup,
            thread,
            cycles,
        }
        | Ask::Solo {
            setup,
            thread,
            cycles,
        }
        | Ask::Check {
            setup,
            thread,
            cycles,
            ..
        } => push_asked(text, setup.as_str(), &[u64::from(*thread), *cycles]),
        Ask::Dump { setup, cycles } | Ask::Phases { setup, cycles } => {
            push_asked(text, setup.as_str(), &[*cycles])
        }
        Ask::Bound {
            setup,
            thread,
            section,
        }
        | Ask::Calls {
            setup,
            thread,
            section,
            ..
        } => push_section(text, setup.as_str(), *thread, section),
        Ask::Asm { source: file } | Ask::Elf { file } => push_asked(text, file.as_str(), &[]),
        Ask::Selfrun { number } => write!(text, " {number}"),
    }
    push_other_file(text, ask)
}

/// The command's name.
fn name_of(ask: &Ask) -> &'static str {
    match ask {
        Ask::Run { .. } => "run",
        Ask::Dump { .. } => "dump",
        Ask::Asm { .. } => "asm",
        Ask::Bound { .. } => "bound",
        Ask::Selfrun { .. } => "selfrun",
        Ask::Phases { .. } => "phases",
        Ask::Solo { .. } => "solo",
        Ask::Check { .. } => "check",
        Ask::Elf { .. } => "elf",
        Ask::Calls { .. } => "calls",
    }
}

/// Appends the file that a command reads in addition to its first.
fn push_other_file(text: &mut RowText, ask: &Ask) {
    match ask {
        Ask::Check { trace: file, .. } | Ask::Calls { routines: file, .. } => {
            write!(text, " {}", file.as_str())
        }
        _ => {}
    }
}

/// A file, a thread and the addresses of a section.
fn push_section(text: &mut RowText, file: &str, thread: u8, section: &Section) {
    let Section { from, to } = *section;
    push_asked(
        text,
        file,
        &[u64::from(thread), u64::from(from), u64::from(to)],
    )
}

/// A file and numbers.
fn push_asked(text: &mut RowText, file: &str, numbers: &[u64]) {
    write!(text, " {file}");
    for number in numbers {
        write!(text, " {number}");
    }
}
