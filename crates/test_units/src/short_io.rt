//! A runtime whose file and output give and take two bytes a call at most, and fail at one call.

use std::alloc::Allocator;
use std::cell::Cell;
use std::fmt::Display;
use std::fs::{Metadata, OpenFile, OpenOptions};
use std::io;
use std::io::{Read, Seek, SeekFrom, Write};
use std::rt::Files;

/// The bytes of each file.
const BYTES: [u8; 5] = *b"abcde";

/// The error of an operation that fails on purpose.
fn refused() -> io::Error {
    io::Error::from(io::ErrorKind::Other)
}

/// A runtime whose files and output fail at the call of this number.
#[derive(Drop)]
pub struct ShortIo {
    pub failing: u32,
    pub calls: Cell<u32>,
    /// The bytes that were taken, as the digits of a number.
    pub taken: Cell<u64>,
}

impl ShortIo {
    pub fn new(failing: u32) -> ShortIo {
        ShortIo {
            failing,
            calls: Cell::new(0),
            taken: Cell::new(0),
        }
    }
}

/// An opened file.
#[derive(Drop)]
pub struct SlowFile {
    at: usize,
    calls: u32,
    failing: u32,
}

impl Read for SlowFile {
    fn read(&mut self, buf: &mut [u8]) -> io::Result<usize> {
        let fails = self.calls == self.failing;
        self.calls = self.calls.saturating_add(1);
        if fails {
            return Err(refused());
        }
        let left = BYTES.get(self.at..).unwrap_or(&[]);
        let count = left.len().min(buf.len()).min(2);
        buf[..count].copy_from_slice(&left[..count]);
        self.at = self.at.saturating_add(count);
        Ok(count)
    }
}

impl Write for SlowFile {
    fn write(&mut self, _buf: &[u8]) -> io::Result<usize> {
        Err(refused())
    }

    fn flush(&mut self) -> io::Result<()> {
        Ok(())
    }
}

impl Seek for SlowFile {
    fn seek(&mut self, _pos: SeekFrom) -> io::Result<u64> {
        Err(refused())
    }
}

impl OpenFile for SlowFile {
    fn metadata(&self) -> io::Result<Metadata> {
        Err(refused())
    }

    fn set_len(&self, _size: u64) -> io::Result<()> {
        Err(refused())
    }

    fn sync_all(&self) -> io::Result<()> {
        Err(refused())
    }

    fn sync_data(&self) -> io::Result<()> {
        Err(refused())
    }
}

impl Files for ShortIo {
    type File = SlowFile;

    type Dir = SlowFile;

    fn open_file(&self, _how: &OpenOptions, _path: &str) -> io::Result<SlowFile> {
        Ok(SlowFile {
            at: 0,
            calls: 0,
            failing: self.failing,
        })
    }

    fn open_dir(&self, _path: &str) -> io::Result<SlowFile> {
        Err(refused())
    }

    fn metadata(&self, _path: &str) -> io::Result<Metadata> {
        Err(refused())
    }

    fn symlink_metadata(&self, _path: &str) -> io::Result<Metadata> {
        Err(refused())
    }

    fn copy(&self, _from: &str, _to: &str) -> io::Result<u64> {
        Err(refused())
    }

    fn rename(&self, _from: &str, _to: &str) -> io::Result<()> {
        Err(refused())
    }

    fn remove_file(&self, _path: &str) -> io::Result<()> {
        Err(refused())
    }

    fn create_dir(&self, _path: &str) -> io::Result<()> {
        Err(refused())
    }

    fn remove_dir(&self, _path: &str) -> io::Result<()> {
        Err(refused())
    }

    fn remove_dir_all<B: Allocator>(&self, _alloc: B, _path: &str) -> io::Result<()> {
        Err(refused())
    }
}

impl Print for &ShortIo {
    fn print<D: Display + Drop>(&self, _value: D) -> io::Result<()> {
        Err(refused())
    }

    fn println<D: Display + Drop>(&self, _value: D) -> io::Result<()> {
        Err(refused())
    }

    fn write_all(&self, _bytes: &[u8]) -> io::Result<()> {
        Err(refused())
    }

    fn write_some(&self, bytes: &[u8]) -> io::Result<usize> {
        let fails = self.calls.get() == self.failing;
        self.calls.set(self.calls.get().saturating_add(1));
        if fails {
            return Err(refused());
        }
        let count = bytes.len().min(2);
        for byte in &bytes[..count] {
            let taken = self.taken.get().wrapping_mul(256);
            self.taken.set(taken.wrapping_add(u64::from(*byte)));
        }
        Ok(count)
    }
}
