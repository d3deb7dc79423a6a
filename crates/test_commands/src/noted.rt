//! Files, a sink and devices whose calls are noted, in the order in which a command makes them.
ghost use Rattle.fp_ports.specs.Kinds.{held_word};

use fp_io::{FetchFault, Files, PutFailed, Sink};
use fp_ports::{HeldPort, Port};
use std::alloc::{AllocError, Global};
use std::cell::{Cell, RefCell};
use std::fmt::Display;
use std::rc::Rc;
use test_text::RowText;

/// The calls so far, one line each, and the counts of the devices.
#[derive(Drop)]
pub struct Notes {
    text: RefCell<RowText>,
    /// Whether a call is missing.
    is_cut: Cell<bool>,
    /// Whether the command has ended, so that no call is noted.
    is_over: Cell<bool>,
    /// The number of calls of devices that count them.
    pub calls: Cell<u32>,
    /// The number of drops of devices that count them.
    pub drops: Cell<u32>,
}

impl Notes {
    pub fn new(alloc: Global) -> Notes {
        Notes {
            text: RefCell::new(RowText::new(alloc)),
            is_cut: Cell::new(false),
            is_over: Cell::new(false),
            calls: Cell::new(0),
            drops: Cell::new(0),
        }
    }

    /// Notes a call.
    fn note<D: Display + Drop>(&self, call: D) {
        match self.text.try_borrow_mut() {
            Ok(mut text) if !self.is_over.get() => writeln!(text, "{call}"),
            Ok(_) => {}
            Err(_) => self.is_cut.set(true),
        }
    }

    /// Counts a call of a device.
    pub fn count(&self) {
        if !self.is_over.get() {
            self.calls.set(self.calls.get().wrapping_add(1));
        }
    }

    /// Ends notes and counts of calls.
    pub fn end(&self) {
        self.is_over.set(true);
    }

    /// The length of the notes, in bytes.
    fn len(&self) -> usize {
        match self.text.try_borrow() {
            Ok(text) => text.len(),
            Err(_) => 0,
        }
    }

    /// The notes. An error if memory ran out for some of them.
    pub fn text(&self, alloc: Global) -> Result<String, AllocError> {
        match self.text.try_borrow() {
            Ok(text) if !self.is_cut.get() => String::from_str(alloc, text.as_str()?),
            _ => Err(AllocError),
        }
    }
}

/// Files whose calls are noted.
#[derive(Drop)]
pub struct NotedFiles<'a, F> {
    files: F,
    notes: &'a Notes,
    /// The length of the notes after each call, in bytes.
    pub ends: Vec<usize>,
}

impl<'a, F: Files + Drop> NotedFiles<'a, F> {
    pub fn of(alloc: Global, files: F, notes: &'a Notes) -> NotedFiles<'a, F> {
        NotedFiles {
            files,
            notes,
            ends: Vec::new(alloc),
        }
    }
}

impl<F: Files + Drop> Files for NotedFiles<'_, F> {
    ghost contents = { λ noted. F.contents noted.files };

    ghost requests = { λ noted. F.requests noted.files };

    ghost looks_first = { F.looks_first };

    ghost faults = { λ noted. F.faults noted.files };

    fn fetch(&mut self, alloc: Global, name: &str, most: usize) -> Result<Vec<u8>, FetchFault> {
        self.notes.note(format_args!("fetch {name} {most}"));
        if self.ends.push(self.notes.len()).is_err() {
            self.notes.is_cut.set(true);
        }
        self.files.fetch(alloc, name, most)
    }
}

/// A call of `put`.
#[derive(Clone, Copy)]
pub struct Put {
    /// The number of bytes passed to it.
    pub bytes: usize,
    /// Whether these are exactly one whole line.
    pub is_line: bool,
    /// The length of the notes after it, in bytes.
    pub end: usize,
}

/// Whether bytes are one line, with its line feed.
fn is_line(bytes: &[u8]) -> bool {
    match bytes.split_last() {
        Some((last, prefix)) => *last == b'\n' && !prefix.contains(&b'\n'),
        None => false,
    }
}

/// A sink whose calls are noted.
#[derive(Drop)]
pub struct NotedSink<'a, K> {
    pub out: K,
    notes: &'a Notes,
    pub puts: Vec<Put>,
}

impl<'a, K: Sink + Drop> NotedSink<'a, K> {
    pub fn of(alloc: Global, out: K, notes: &'a Notes) -> NotedSink<'a, K> {
        NotedSink {
            out,
            notes,
            puts: Vec::new(alloc),
        }
    }
}

impl<K: Sink + Drop> Sink for NotedSink<'_, K> {
    ghost taken = { λ noted. K.taken noted.out };

    ghost faults = { λ noted. K.faults noted.out };

    fn put(&mut self, bytes: &[u8]) -> Result<(), PutFailed> {
        self.notes.note(format_args!("put {}", bytes.len()));
        let put = Put {
            bytes: bytes.len(),
            is_line: is_line(bytes),
            end: self.notes.len(),
        };
        if self.puts.push(put).is_err() {
            self.notes.is_cut.set(true);
        }
        self.out.put(bytes)
    }
}

/// Holds the words it is fed while it has room, and then refuses feedings. Its calls and its drop
/// are noted.
pub struct NotedPort {
    held: HeldPort,
    thread: usize,
    /// The number of feedings that it still accepts.
    room: u32,
    notes: Rc<Notes>,
}

impl NotedPort {
    pub fn boxed(
        alloc: Global,
        thread: usize,
        room: u32,
        notes: &Rc<Notes>,
    ) -> Result<Box<NotedPort>, AllocError> {
        let port = NotedPort {
            held: HeldPort::new(alloc),
            thread,
            room,
            notes: notes.clone()?,
        };
        Ok(Box::new(alloc, port)?)
    }
}

impl Drop for NotedPort {
    fn drop(self) {
        let NotedPort {
            held: _,
            thread,
            room: _,
            notes,
        } = self;
        notes.note(format_args!("drop {thread}"));
    }
}

impl Port for NotedPort {
    ghost word_at = { λ port c. held_word port.held c };

    ghost latched = { λ port. port.held.latch };

    fn feed(&mut self, at: u64, word: u32) -> Result<(), AllocError> {
        let thread = self.thread;
        self.notes
            .note(format_args!("feed {thread} {at} {word:08x}"));
        if self.room == 0 {
            return Err(AllocError);
        }
        self.room -= 1;
        self.held.feed(at, word)
    }

    fn read(&mut self, at: u64) -> u32 {
        let thread = self.thread;
        self.notes.note(format_args!("read {thread} {at}"));
        self.held.read(at)
    }

    fn write(&mut self, word: u32) {
        let thread = self.thread;
        self.notes.note(format_args!("write {thread} {word:08x}"));
        self.held.write(word);
    }

    fn latch(&self) -> u32 {
        let thread = self.thread;
        self.notes.note(format_args!("latch {thread}"));
        self.held.latch()
    }
}
