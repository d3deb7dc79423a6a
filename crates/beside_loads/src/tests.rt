//! A control loop with two loads.

ghost use Rattle.std.specs.Prelude.{◌≡◌, IfOk, vec_len};

use super::*;
use flexpret_top::{MemFiles, THREADS};
use std::test::Fail;

/// T0 is the control thread; T1 has the load.
const SETUP: &str = "period = 10\nimage = \"a.fpx\"\n\
    slots = [\"T0\", \"S\", \"D\", \"D\", \"D\", \"D\", \"D\", \"D\"]\n\
    i_regions = [\"readonly\", \"readonly\", \"readonly\", \"readonly\", \
    \"readonly\", \"readonly\", \"readonly\", \"readonly\"]\n\
    d_regions = [\"T0\", \"shared\", \"readonly\", \"readonly\", \
    \"readonly\", \"readonly\", \"readonly\", \"readonly\"]\n\
    [[thread]]\nid = 0\nmode = \"hard\"\nentry = 0\nconfined = true\n\
    inputs = [[0, 42], [50, 43]]\n\
    [[thread]]\nid = 1\nmode = \"soft\"\nentry = 0x100\n";

/// The control thread copies the word of its port.
const CONTROL: &str = "lui t0, 0x40000\nloop:\nlw t1, 0(t0)\nsw t1, 0(t0)\nj loop\n.org 0x100\n";

/// A load that counts.
const COUNTS: &str = "count:\naddi t0, t0, 1\nj count\n";

/// A load that stores to allowed and to forbidden addresses.
const STORES: &str =
    "lui t0, 0x20000\nlui t1, 0x20001\nstore:\nsw t1, 0(t1)\nsw t1, 0(t0)\nj store\n";

/// The bytes that an image has at most here.
const ROOM: usize = 4_096;

/// The arguments of a command line.
fn words_of(alloc: Global, line: &str) -> Result<Vec<String>, AllocError> {
    let mut words = Vec::new(alloc);
    for word in line.split_whitespace() {
        words.push(String::from_str(alloc, word)?)?;
    }
    Ok(words)
}

/// Eight ports without devices.
fn no_ports(alloc: Global) -> Result<Ports, AllocError>
    ensures { IfOk result (λ ports. vec_len ports ≡ 8) }
{
    let mut ports = Vec::new(alloc);
    for _thread in 0..THREADS {
        ports.push(None)?;
    }
    Ok(ports)
}

/// The setup, and the image of the control thread with a load.
fn files_with(alloc: Global, load: &str) -> Result<MemFiles, NoTrace> {
    let mut source = String::from_str(alloc, CONTROL)?;
    source.push_str(load)?;
    let mut sources = MemFiles::new(alloc);
    sources.add("a.s", source.as_bytes())?;
    let words = words_of(alloc, "asm a.s")?;
    let image = trace_beside(alloc, &words, &mut sources, &mut no_ports(alloc)?, ROOM)?;
    let mut files = MemFiles::new(alloc);
    files.add("a.toml", SETUP.as_bytes())?;
    files.add("a.fpx", image.bytes())?;
    Ok(files)
}

#[test]
fn a_control_loop_has_the_same_trace(rt: HostRuntime) -> Result<(), Fail> {
    let alloc = rt.alloc();
    let words = words_of(alloc, "run a.toml --thread 0 --cycles 100")?;
    let (mut one, mut other) = (files_with(alloc, COUNTS)?, files_with(alloc, STORES)?);
    let trace = trace_beside(alloc, &words, &mut one, &mut no_ports(alloc)?, ROOM)?;
    assert!(rt; trace.bytes().len() > 1_000);
    let (mut ports, mut others) = (no_ports(alloc)?, no_ports(alloc)?);
    let same = is_same_beside(
        alloc,
        &words,
        &mut one,
        &mut ports,
        &mut other,
        &mut others,
        ROOM,
    )?;
    assert!(rt; same);
    Ok(())
}

#[test]
fn the_loads_differ(rt: HostRuntime) -> Result<(), Fail> {
    let alloc = rt.alloc();
    let words = words_of(alloc, "run a.toml --thread 1 --cycles 100")?;
    let (mut one, mut other) = (files_with(alloc, COUNTS)?, files_with(alloc, STORES)?);
    let (mut ports, mut others) = (no_ports(alloc)?, no_ports(alloc)?);
    let same = is_same_beside(
        alloc,
        &words,
        &mut one,
        &mut ports,
        &mut other,
        &mut others,
        ROOM,
    )?;
    assert!(rt; !same);
    Ok(())
}

#[test]
fn a_refused_command_has_its_status(rt: HostRuntime) -> Result<(), Fail> {
    let alloc = rt.alloc();
    let words = words_of(alloc, "run b.toml --thread 0 --cycles 100")?;
    let mut files = files_with(alloc, COUNTS)?;
    let missing = trace_beside(alloc, &words, &mut files, &mut no_ports(alloc)?, ROOM);
    assert!(rt; matches!(missing, Err(NoTrace::Status(7))));
    Ok(())
}

#[test]
fn the_loop_has_a_bound(rt: HostRuntime) -> Result<(), Fail> {
    let alloc = rt.alloc();
    let words = words_of(alloc, "bound a.toml --thread 0 --from 4 --to 12")?;
    let mut files = files_with(alloc, STORES)?;
    let line = bound_beside(alloc, &words, &mut files, &mut no_ports(alloc)?, ROOM)?;
    assert!(rt; line.bytes() == b"bound 4\n".as_slice());
    Ok(())
}
