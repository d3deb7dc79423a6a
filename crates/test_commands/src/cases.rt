//! The tables of command lines with their expected results.

use crate::expanded::{push_event, push_expanded};
use std::alloc::{AllocError, Global};
use test_text::push_bytes;

/// A file that exists from its row of the table on.
#[derive(Drop)]
pub struct File<'a> {
    pub name: &'a str,
    pub bytes: Vec<u8>,
}

/// A call of `put` that fails, and the number of bytes that it takes.
#[derive(Clone, Copy)]
pub struct Cut {
    pub call: u32,
    pub taken: usize,
}

/// The calls that fail.
#[derive(Clone, Copy)]
pub struct Fails {
    pub fetch: Option<u32>,
    pub put: Option<Cut>,
}

impl Fails {
    pub fn none() -> Fails {
        Fails {
            fetch: None,
            put: None,
        }
    }

    /// Only a call of `fetch`.
    pub fn at_fetch(call: u32) -> Fails {
        Fails {
            fetch: Some(call),
            put: None,
        }
    }

    /// Only a call of `put`.
    pub fn at_put(call: u32, taken: usize) -> Fails {
        Fails {
            fetch: None,
            put: Some(Cut { call, taken }),
        }
    }
}

/// The notation of a text's lines in the table.
#[derive(Clone, Copy)]
enum Style {
    /// Verbatim. A backslash at the end of a line removes itself and the line end.
    Plain,
    /// With the abbreviations of a dump, or of a trace, as those of settings.
    Dump,
    Trace,
    /// In hexadecimal digits.
    Digits,
}

/// A command line, with the number of the case's files that exist, the calls that fail, and the
/// expected result. The result has the status and the output. Optional parts are the final state of
/// the ports, the calls made, and the dump of a machine that a failing put stopped.
#[derive(Drop)]
pub struct Command<'a> {
    pub line: &'a str,
    pub files: usize,
    pub fails: Fails,
    pub status: u8,
    pub text: Vec<u8>,
    pub ports: Option<&'a str>,
    /// One line each, with no line end after the last.
    pub calls: Option<&'a str>,
    pub dump: Option<Vec<u8>>,
}

/// The calls that fail while a command runs, and the expected result, as in a `Command`.
#[derive(Clone, Copy)]
pub struct Wanted<'a> {
    pub fails: Fails,
    pub status: u8,
    pub text: &'a [u8],
    pub ports: Option<&'a str>,
    pub calls: Option<&'a str>,
}

impl Command<'_> {
    /// The expected result in the table.
    pub fn wanted(&self) -> Wanted<'_> {
        Wanted {
            fails: self.fails,
            status: self.status,
            text: &self.text,
            ports: self.ports,
            calls: self.calls,
        }
    }

    /// Whether the command writes an image if it succeeds.
    pub fn has_image(&self) -> bool {
        self.line.starts_with("asm") || self.line.starts_with("elf")
    }
}

/// Devices and files, and command lines over them.
#[derive(Drop)]
pub struct Case<'a> {
    pub name: &'a str,
    pub ports: &'a str,
    pub files: Vec<File<'a>>,
    pub commands: Vec<Command<'a>>,
}

/// The notation of a command's text.
fn style_of(status: u8, line: &str) -> Style {
    match (status, line.split(' ').next().unwrap_or("")) {
        (0, "run" | "solo" | "phases") => Style::Trace,
        (0, "dump") => Style::Dump,
        (0, "asm" | "elf") => Style::Digits,
        _ => Style::Plain,
    }
}

/// Appends a line in a notation.
fn push_line(to: &mut Vec<u8>, alloc: Global, style: Style, line: &str) -> Result<(), AllocError> {
    match style {
        Style::Digits => return push_bytes(to, alloc, line),
        Style::Plain => match line.strip_suffix('\\') {
            Some(prefix) => return to.extend_from_slice(prefix.as_bytes()),
            None => to.extend_from_slice(line.as_bytes())?,
        },
        Style::Dump => push_expanded(to, line)?,
        Style::Trace => push_event(to, line)?,
    }
    to.push(b'\n')?;
    Ok(())
}

/// Appends lines in a notation.
fn push_lines(
    to: &mut Vec<u8>,
    alloc: Global,
    style: Style,
    lines: Option<&str>,
) -> Result<(), AllocError> {
    if let Some(lines) = lines {
        for line in lines.split('\n') {
            push_line(to, alloc, style, line)?;
        }
    }
    Ok(())
}

/// The calls that fail, from a command's head such as `7 fetch 0` or `8 put 3 5`.
fn fails_of(head: &str) -> Fails {
    let mut words = head.split_whitespace().skip(1);
    let kind = words.next().unwrap_or("");
    let call = words.next().unwrap_or("").parse().ok();
    let taken = words.next().unwrap_or("").parse().unwrap_or(0);
    match (kind, call) {
        ("put", Some(call)) => Fails::at_put(call, taken),
        ("fetch", Some(call)) => Fails::at_fetch(call),
        _ => Fails::none(),
    }
}

/// The status in a command's head.
fn status_of(head: &str) -> u8 {
    let word = head.split_whitespace().next().unwrap_or("");
    word.parse().unwrap_or(255)
}

impl<'a> Case<'a> {
    /// A case with no file and no command.
    pub fn new(alloc: Global, name: &'a str, ports: &'a str) -> Case<'a> {
        Case {
            name,
            ports,
            files: Vec::new(alloc),
            commands: Vec::new(alloc),
        }
    }

    /// Reads a section: a heading, and the lines below it.
    fn take(&mut self, alloc: Global, section: &'a str) -> Result<(), AllocError> {
        let (heading, lines) = match section.split_once('\n') {
            Some((heading, lines)) => (heading, Some(lines)),
            None => (section, None),
        };
        if let Some((head, line)) = heading.split_once("$ ") {
            return self.take_command(alloc, head, line, lines);
        }
        match heading.split_once(' ') {
            Some((kind, name)) => self.take_file(alloc, kind, name, lines),
            None => self.take_rest(alloc, heading, lines),
        }
    }

    /// Reads a command from its head, its line and the lines that it writes.
    fn take_command(
        &mut self,
        alloc: Global,
        head: &str,
        line: &'a str,
        lines: Option<&str>,
    ) -> Result<(), AllocError> {
        let status = status_of(head);
        let mut text = Vec::new(alloc);
        push_lines(&mut text, alloc, style_of(status, line), lines)?;
        self.commands.push(Command {
            line,
            files: self.files.len(),
            fails: fails_of(head),
            status,
            text,
            ports: None,
            calls: None,
            dump: None,
        })?;
        Ok(())
    }

    /// Reads a file of a kind: `text`, `bytes` in hexadecimal digits, or `written`, which begins
    /// with the output of the last command.
    fn take_file(
        &mut self,
        alloc: Global,
        kind: &str,
        name: &'a str,
        lines: Option<&str>,
    ) -> Result<(), AllocError> {
        let mut bytes = Vec::new(alloc);
        let style = match (kind, self.commands.last()) {
            ("bytes", _) => Style::Digits,
            ("written", Some(command)) => {
                bytes.extend_from_slice(&command.text)?;
                Style::Plain
            }
            _ => Style::Plain,
        };
        push_lines(&mut bytes, alloc, style, lines)?;
        self.files.push(File { name, bytes })?;
        Ok(())
    }

    /// Reads a part of the last command's expected result other than its text.
    fn take_rest(
        &mut self,
        alloc: Global,
        heading: &str,
        lines: Option<&'a str>,
    ) -> Result<(), AllocError> {
        let Some(command) = self.commands.last_mut() else {
            return Ok(());
        };
        match heading {
            "calls" => command.calls = Some(lines.unwrap_or("")),
            "dump" => {
                let mut dump = Vec::new(alloc);
                push_lines(&mut dump, alloc, Style::Dump, lines)?;
                command.dump = Some(dump);
            }
            _ => command.ports = lines,
        }
        Ok(())
    }
}

/// The case from a text that begins with its name and its ports, one line each.
fn case_of(alloc: Global, text: &str) -> Result<Case<'_>, AllocError> {
    let mut sections = text.split("\n--- ");
    let first = sections.next().unwrap_or("");
    let (name, ports) = first.split_once('\n').unwrap_or((first, ""));
    let mut case = Case::new(alloc, name, ports);
    for section in sections {
        case.take(alloc, section)?;
    }
    Ok(case)
}

/// The cases of a table. It begins with a comment, up to the first of them.
pub fn cases(alloc: Global, text: &str) -> Result<Vec<Case<'_>>, AllocError> {
    let mut cases = Vec::new(alloc);
    let lines = text.strip_suffix('\n').unwrap_or(text);
    for part in lines.split("\n=== ").skip(1) {
        cases.push(case_of(alloc, part)?)?;
    }
    Ok(cases)
}
