//! The adapters over the runtime's files and standard output.

ghost use Rattle.std.specs.Prelude.{◌≡◌, ◌≢◌, [], ◌+◌, ◌-◌, ◌^◌, ◌<◌, ◌≤◌, None};
ghost use Rattle.std.specs.Prelude.{take, is_err, IfOk, IfSome, OnOk, OnErr, vec_len};
ghost use Rattle.std.specs.Io.KnownBytes.{Appends};
ghost use Rattle.fp_io.specs.Causes.{risen_if};
ghost use Rattle.fp_io.specs.Content.{AppendsPrefix};
ghost use Rattle.fp_io.specs.Real.{has_failed};

use crate::files::{FetchFault, Files};
use crate::sink::{PutFailed, Sink};
use std::alloc::Global;
use std::io::{Read, Write};
use std::marker::Model;
use std::{fs, io, rt};

/// The most bytes that one read requests.
const PIECE: usize = 4096;

/// The runtime's files. Their contract exposes no map: nothing is claimed about the content of a
/// real file.
///
/// A file that is not there is `Failed`, never `Missing`.
#[derive(Drop)]
pub struct RealFiles<R> {
    rt: R,
    faults: u64,
}

impl<R> Model for RealFiles<R> {
    ghost use Rattle.std.specs.Prelude.{ℕ};
    ghost use Rattle.std.specs.Coded.{coded×, coded_ℕ};

    ghost Value = { R × ℕ };

    ghost coded = { coded× R.code coded_ℕ };

    ghost view = { λ files. (files.rt, files.faults) };
}

impl<R: rt::Files + Drop> RealFiles<R> {
    /// The files of a runtime, with no fault so far.
    pub fn new(rt: R) -> RealFiles<R>
        ensures { result ≡ (rt, 0) }
    {
        RealFiles { rt, faults: 0 }
    }
}

impl<R: rt::Files + Drop> Files for RealFiles<R> {
    ghost contents = { λ _. None };

    ghost looks_first = { Unit {0} };

    ghost faults = { λ files. files.1 };

    fn fetch(&mut self, alloc: Global, name: &str, most: usize) -> Result<Vec<u8>, FetchFault>
        requires { most < 2 ^ 64 - 1 }
        ensures after { self.new ≡ (self.old.0, risen_if (has_failed result) self.old.1) }
        ensures counted { self.old.1 ≤ self.new.1 }
        ensures within { IfOk result (λ bytes. vec_len bytes ≤ most + 1) }
        ensures found { result ≢ Err FetchFault.Missing }
    {
        let result = read_file(&self.rt, alloc, name, most);
        if matches!(&result, Err(FetchFault::Failed)) {
            self.faults = self.faults.saturating_add(1);
        }
        result
    }
}

/// The runtime's standard output. Its contract exposes no bytes: nothing is claimed about the bytes
/// that a terminal or a pipe takes. Each `put` is written at once.
#[derive(Drop)]
pub struct OutSink<R> {
    rt: R,
    faults: u64,
}

impl<R> Model for OutSink<R> {
    ghost use Rattle.std.specs.Prelude.{ℕ};
    ghost use Rattle.std.specs.Coded.{coded×, coded_ℕ};

    ghost Value = { R × ℕ };

    ghost coded = { coded× R.code coded_ℕ };

    ghost view = { λ sink. (sink.rt, sink.faults) };
}

impl<R: Print + Drop> OutSink<R> {
    /// The standard output of a runtime, with no fault so far.
    pub fn new(rt: R) -> OutSink<R>
        ensures { result ≡ (rt, 0) }
    {
        OutSink { rt, faults: 0 }
    }
}

impl<R: Print + Drop> Sink for OutSink<R> {
    ghost taken = { λ _. None };

    ghost faults = { λ sink. sink.1 };

    fn put(&mut self, bytes: &[u8]) -> Result<(), PutFailed>
        ensures after { self.new ≡ (self.old.0, risen_if (is_err result) self.old.1) }
        ensures counted { self.old.1 ≤ self.new.1 }
        ensures some { OnErr result (bytes.now ≢ []) }
    {
        let put = write_whole(&mut io::writer(&self.rt), bytes);
        if put.is_err() {
            self.faults = self.faults.saturating_add(1);
        }
        put
    }
}

/// The first `most + 1` bytes of a file of the runtime, or the whole file if it is shorter.
fn read_file<R: rt::Files>(
    rt: &R,
    alloc: Global,
    name: &str,
    most: usize,
) -> Result<Vec<u8>, FetchFault>
    requires { most < 2 ^ 64 - 1 }
    ensures within { IfOk result (λ bytes. vec_len bytes ≤ most + 1) }
    ensures found { result ≢ Err FetchFault.Missing }
{
    let mut file = fs::open(rt, name).map_err(|_| FetchFault::Failed)?;
    read_up_to(alloc, &mut file, most)
}

/// The first `most + 1` bytes of a reader, or all if it has fewer. A read that returns no bytes is
/// the end.
fn read_up_to<F: Read>(alloc: Global, file: &mut F, most: usize) -> Result<Vec<u8>, FetchFault>
    requires { most < 2 ^ 64 - 1 }
    ensures within { IfOk result (λ bytes. vec_len bytes ≤ most + 1) }
    ensures bytes { IfOk result (λ bytes.
        IfSome (F.remaining file.old) (λ all. bytes.items ≡ take (most + 1) all)) }
    ensures found { result ≢ Err FetchFault.Missing }
{
    let mut bytes = Vec::new(alloc);
    let mut piece = [0; PIECE];
    while bytes.len() <= most {
        let room = PIECE.min(most + 1 - bytes.len());
        let count = file
            .read(&mut piece[..room])
            .map_err(|_| FetchFault::Failed)?;
        if count == 0 {
            break;
        }
        bytes
            .extend_from_slice(&piece[..count])
            .map_err(|_| FetchFault::NoMemory)?;
    }
    Ok(bytes)
}

/// Writes all bytes. A write that takes no bytes is an error, since no piece is empty.
fn write_whole<W: Write>(to: &mut W, bytes: &[u8]) -> Result<(), PutFailed>
    ensures ok { OnOk result (Appends (W.contents to.old) (W.contents to.new) bytes.now) }
    ensures err { OnErr result (AppendsPrefix (W.contents to.old) (W.contents to.new) bytes.now) }
    ensures some { OnErr result (bytes.now ≢ []) }
{
    let mut at = 0;
    while at < bytes.len() {
        match to.write(&bytes[at..]) {
            Ok(count) if count > 0 => at += count,
            _ => return Err(PutFailed),
        }
    }
    Ok(())
}
