//! A plant in another process. A line `CYCLE WORD` on standard output is sent to it, and a line
//! `WORD` on standard input is its response.

ghost use Rattle.std.specs.Prelude.{◌≤◌};

use crate::fault::RunFault;
use fp_io::{PutFailed, Sink};
use std::alloc::{AllocError, Global};
use std::io::{Read, Write};

/// The most bytes of a response, with its end of line.
const ROOM: usize = 64;

/// The responses of a plant: lines from a reader.
#[derive(Drop)]
struct Answers<R> {
    reader: R,
    /// The bytes that were read and not yet returned as a word, and then unused bytes.
    room: [u8; ROOM],
    /// The number of bytes not yet returned.
    len: usize,

    ghost within: { len ≤ 64 },
}

impl<R: Read + Drop> Answers<R> {
    /// The word of the next line.
    fn next_word(&mut self) -> Result<u32, RunFault> {
        for _read in 0..ROOM {
            if let Some(end) = self.room[..self.len].iter().position(|byte| *byte == b'\n') {
                return self.take_word(end);
            }
            self.read_more()?;
        }
        self.take_word(ROOM)
    }

    /// Reads more bytes.
    fn read_more(&mut self) -> Result<(), RunFault> {
        if self.len == ROOM {
            return Err(RunFault::NoWord);
        }
        match self.reader.read(&mut self.room[self.len..]) {
            Ok(0) | Err(_) => Err(RunFault::PlantEnded),
            Ok(count) => {
                self.len += count;
                Ok(())
            }
        }
    }

    /// The word of a line that ends before the byte `end`, which is its end of line.
    fn take_word(&mut self, end: usize) -> Result<u32, RunFault> {
        if end >= self.len {
            return Err(RunFault::NoWord);
        }
        let word = parse_word(&self.room[..end]);
        self.room.copy_within(end + 1..self.len, 0);
        self.len -= end + 1;
        word
    }
}

/// The word that a text is: a decimal number of 32 bits, signed or not, among blanks.
fn parse_word(bytes: &[u8]) -> Result<u32, RunFault> {
    let Ok(text) = std::str::from_utf8(bytes) else {
        return Err(RunFault::NoWord);
    };
    let number = text.trim();
    if let Ok(word) = number.parse::<u32>() {
        return Ok(word);
    }
    match number.parse::<i32>() {
        Ok(word) => Ok(word.cast_unsigned()),
        Err(_) => Err(RunFault::NoWord),
    }
}

/// A plant in another process.
#[derive(Drop)]
pub struct Pipe<R, K> {
    alloc: Global,
    answers: Answers<R>,
    out: K,
}

impl<R: Read + Drop, K: Sink + Drop> Pipe<R, K> {
    /// A plant that receives lines through a sink, and responds through a reader.
    pub fn new(alloc: Global, reader: R, out: K) -> Pipe<R, K> {
        Pipe {
            alloc,
            answers: Answers {
                reader,
                room: [0; ROOM],
                len: 0,
            },
            out,
        }
    }

    /// Sends the plant a cycle and the word that its thread stored last. Returns the word for the
    /// port.
    ///
    /// # Errors
    ///
    /// `PlantEnded` if the plant reads no line or writes none; `NoWord`; `NoMemory`.
    pub fn send(&mut self, cycle: u64, drive: u32) -> Result<u32, RunFault> {
        let line = format!(in self.alloc; "{cycle} {drive}\n")?;
        if self.out.put(line.as_bytes()).is_err() {
            return Err(RunFault::PlantEnded);
        }
        self.answers.next_word()
    }

    /// The line of an exchange.
    ///
    /// # Errors
    ///
    /// Out of memory.
    pub fn exchanged(&self, cycle: u64, drive: u32, word: u32) -> Result<String, AllocError> {
        format!(in self.alloc; "> {cycle} {drive} {word}\n")
    }
}

/// A sink over a writer, which counts its faults.
#[derive(Drop)]
pub struct WriterSink<W> {
    to: W,
    faults: u64,
}

impl<W: Write + Drop> WriterSink<W> {
    /// A sink over a writer.
    pub fn new(to: W) -> WriterSink<W> {
        WriterSink { to, faults: 0 }
    }
}

impl<W: Write + Drop> Sink for WriterSink<W> {
    ghost use Rattle.std.specs.Prelude.{None};

    ghost taken = { λ _. None };

    ghost faults = { λ sink. sink.faults };

    fn put(&mut self, bytes: &[u8]) -> Result<(), PutFailed> {
        match self.to.write_all(bytes) {
            Ok(()) => Ok(()),
            Err(_) => {
                self.faults = self.faults.saturating_add(1);
                Err(PutFailed)
            }
        }
    }
}
