//! Commands in which each call of `fetch` and each call of `put` fails in turn. The output before
//! it remains, and no call follows it.

use crate::agrees;
use crate::answer::{Answer, answer_to};
use crate::cases::{Case, Command, Fails, Wanted, cases};
use crate::noted::Put;
use flexpret_top::Status;
use std::{fs, io};
use test_text::Tally;

/// Compares the commands of a table with each of these calls failing.
pub fn compare(rt: HostRuntime, name: &str, title: &str) -> io::Result<()> {
    let table = fs::read_to_string(&rt, name)?;
    let mut tally = Tally::new();
    for case in &cases(rt.alloc(), table.as_str())? {
        count(rt, &mut tally, case)?;
    }
    tally.print(rt, title, "commands")
}

/// Counts the commands of a case with each of their calls failing. Commands in which a call fails
/// already are skipped.
fn count(rt: HostRuntime, tally: &mut Tally, case: &Case<'_>) -> io::Result<()> {
    for command in &case.commands {
        if command.fails.fetch.is_none() && command.fails.put.is_none() {
            let whole = answer_to(rt.alloc(), case, command, Fails::none())?;
            count_fetches(rt, tally, case, command, &whole)?;
            count_puts(rt, tally, case, command, &whole)?;
        }
    }
    Ok(())
}

/// Counts a command with each fetch failing. Nothing is written then.
fn count_fetches(
    rt: HostRuntime,
    tally: &mut Tally,
    case: &Case<'_>,
    command: &Command<'_>,
    whole: &Answer,
) -> io::Result<()> {
    for (call, end) in (0..u32::MAX).zip(whole.fetches.iter()) {
        let wanted = stopped(
            Fails::at_fetch(call),
            Status::Read,
            &[],
            prefix(whole, *end),
        );
        tally.count(agrees(rt, case, command, wanted)?);
    }
    Ok(())
}

/// Counts a command with each put failing.
fn count_puts(
    rt: HostRuntime,
    tally: &mut Tally,
    case: &Case<'_>,
    command: &Command<'_>,
    whole: &Answer,
) -> io::Result<()> {
    let mut before = 0usize;
    for (call, put) in (0..u32::MAX).zip(whole.puts.iter()) {
        count_put(rt, tally, case, command, whole, call, before, *put)?;
        before = before.saturating_add(put.bytes);
    }
    Ok(())
}

/// Counts a command with a put failing; `before` bytes were written before that put. The put takes
/// none, half or all of its own bytes.
fn count_put(
    rt: HostRuntime,
    tally: &mut Tally,
    case: &Case<'_>,
    command: &Command<'_>,
    whole: &Answer,
    call: u32,
    before: usize,
    put: Put,
) -> io::Result<()> {
    for taken in [0, put.bytes / 2, put.bytes] {
        let end = before.saturating_add(taken);
        let written = whole.text.get(..end).unwrap_or(&[]);
        let wanted = stopped(
            Fails::at_put(call, taken),
            Status::Write,
            written,
            prefix(whole, put.end),
        );
        tally.count(agrees(rt, case, command, wanted)?);
    }
    Ok(())
}

/// The first calls of a command, with no line end after the last.
fn prefix(whole: &Answer, end: usize) -> &str {
    let lines = whole.calls.as_str().get(..end).unwrap_or("");
    lines.strip_suffix('\n').unwrap_or("")
}

/// The expected result of a command that a failing call stops.
fn stopped<'a>(fails: Fails, status: Status, text: &'a [u8], calls: &'a str) -> Wanted<'a> {
    Wanted {
        fails,
        status: status.number(),
        text,
        ports: None,
        calls: Some(calls),
    }
}
