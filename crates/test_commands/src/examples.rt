//! The examples of the repository: commands over their files. Copies of the files are in the folder
//! in which the program runs.

use crate::cases::{Case, Command, Fails, File};
use crate::count;
use std::{fs, io};
use test_text::Tally;

/// The names of files in commands and setups, each with its copy.
const FILES: [(&str, &str); 13] = [
    ("examples/drive.s", "drive.s"),
    ("examples/drive.fpx", "drive.fpx"),
    ("examples/drive.toml", "drive.toml"),
    ("examples/sum.s", "sum.s"),
    ("examples/sum.fpx", "sum.fpx"),
    ("examples/sum.toml", "sum.toml"),
    ("examples/calls.s", "calls.s"),
    ("examples/calls.fpx", "calls.fpx"),
    ("examples/calls.toml", "calls.toml"),
    ("examples/calls.routines", "calls.routines"),
    ("examples/c/pid.elf", "pid.elf"),
    ("examples/c/pid.fpx", "pid.fpx"),
    ("examples/c/pid.toml", "pid.toml"),
];

/// Commands, each with the file that has its expected output.
const COMMANDS: [(&str, &str); 11] = [
    ("asm examples/drive.s", "drive.fpx"),
    (
        "run examples/drive.toml --thread 0 --cycles 77",
        "drive.trace",
    ),
    ("asm examples/sum.s", "sum.fpx"),
    ("run examples/sum.toml --thread 0 --cycles 820", "sum.trace"),
    (
        "bound examples/sum.toml --thread 0 --from 0x10 --to 0x3c",
        "sum.bound",
    ),
    ("asm examples/calls.s", "calls.fpx"),
    (
        "run examples/calls.toml --thread 0 --cycles 200",
        "calls.trace",
    ),
    (
        "calls examples/calls.toml --thread 0 --from 0x8 --to 0x18 --routines \
         examples/calls.routines",
        "calls.bound",
    ),
    ("elf examples/c/pid.elf", "pid.fpx"),
    (
        "run examples/c/pid.toml --thread 0 --cycles 1250",
        "pid.trace",
    ),
    (
        "bound examples/c/pid.toml --thread 0 --from 0xb4 --to 0x1a4",
        "pid.bound",
    ),
];

/// The files of the example with a custom device, each with its copy.
const DEVICE_FILES: [(&str, &str); 3] = [
    ("examples/device/ramp.s", "ramp.s"),
    ("examples/device/ramp.fpx", "ramp.fpx"),
    ("examples/device/ramp.toml", "ramp.toml"),
];

/// Its commands, each with the file that has its expected output.
const DEVICE_COMMANDS: [(&str, &str); 2] = [
    ("asm examples/device/ramp.s", "ramp.fpx"),
    (
        "run examples/device/ramp.toml --thread 0 --cycles 400",
        "ramp.trace",
    ),
];

/// Compares the output of the commands.
pub fn compare(rt: HostRuntime) -> io::Result<()> {
    let case = Case::new(rt.alloc(), "examples", "h h h h h h h h");
    compare_by(rt, case, &FILES, &COMMANDS)?;
    let case = Case::new(rt.alloc(), "examples/device", "ramp h h h h h h h");
    compare_by(rt, case, &DEVICE_FILES, &DEVICE_COMMANDS)
}

/// Compares the output of commands over files. The case has no files or commands yet.
fn compare_by(
    rt: HostRuntime,
    mut case: Case<'static>,
    files: &[(&'static str, &'static str)],
    commands: &[(&'static str, &'static str)],
) -> io::Result<()> {
    for (name, copy) in files {
        add_file(rt, &mut case, name, copy)?;
    }
    for (line, wanted) in commands {
        add_command(rt, &mut case, line, wanted)?;
    }
    let mut tally = Tally::new();
    count(rt, &mut tally, &case)?;
    tally.print(rt, case.name, "commands")
}

/// Adds a file with the bytes of its copy.
fn add_file(
    rt: HostRuntime,
    case: &mut Case<'static>,
    name: &'static str,
    copy: &str,
) -> io::Result<()> {
    let bytes = fs::read(&rt, copy)?;
    case.files.push(File { name, bytes })?;
    Ok(())
}

/// Adds a command whose expected output is the content of a file.
fn add_command(
    rt: HostRuntime,
    case: &mut Case<'static>,
    line: &'static str,
    wanted: &str,
) -> io::Result<()> {
    let text = fs::read(&rt, wanted)?;
    case.commands.push(Command {
        line,
        files: case.files.len(),
        fails: Fails::none(),
        status: 0,
        text,
        ports: None,
        calls: None,
        dump: None,
    })?;
    Ok(())
}
