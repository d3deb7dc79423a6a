//! The ports of the eight threads, each a boxed device or none.
//!
//! A contract sees them as eight rows, one for each thread. Each call states the new row of its
//! thread, and keeps the other seven.

ghost use Rattle.std.specs.Prelude.{◌≡◌, ◌≢◌, ℕ, ◌<◌, None, true, is_ok};
ghost use Rattle.std.specs.Prelude.{if◌then◌else◌, slice_set, vec_len, OnOk, OnErr};
ghost use Rattle.fp_ports.specs.PluggedPorts.{row_of, rows_of, row_at, word_seen};
ghost use Rattle.fp_ports.specs.PluggedPorts.{latch_seen, row_with_word, fed, Forgot};
ghost use Rattle.fp_ports.specs.PortWords.{SameWords, fed_words};

use crate::device::Port;
use std::alloc::AllocError;

/// The number of hardware threads, each with a port.
pub const THREADS: u8 = 8;

/// The devices at the ports of the eight threads, in the threads' order. A port may be empty.
///
/// Each program fills its own list: the prover's gate refuses a function that makes boxed devices
/// and returns them.
pub type Ports = Vec<Option<Box<dyn Port>>>;

/// The word that an empty port shows: all ones.
pub const ABSENT_WORD: u32 = 0xFFFF_FFFF;

/// The word that a thread's device shows in the cycle `at`. An empty port shows [`ABSENT_WORD`].
pub fn read_port(ports: &mut Ports, thread: u8, at: u64) -> u32
    requires eight { vec_len ports.old ≡ 8 }
    requires thread { thread < 8 }
    ensures value { result ≡ word_seen (row_at (rows_of latched word_at ports.old.items) thread)
        at }
    ensures rows { rows_of latched word_at ports.new.items
        ≡ rows_of latched word_at ports.old.items }
    ensures eight { vec_len ports.new ≡ 8 }
{
    read_entry(&mut ports[thread as usize], at)
}

/// Puts a word into the latch of a thread's device. An empty port ignores it.
pub fn write_port(ports: &mut Ports, thread: u8, word: u32)
    requires eight { vec_len ports.old ≡ 8 }
    requires thread { thread < 8 }
    ensures rows { let rows = rows_of latched word_at ports.old.items in
        rows_of latched word_at ports.new.items
        ≡ slice_set rows thread (row_with_word (row_at rows thread) word) }
    ensures eight { vec_len ports.new ≡ 8 }
{
    write_entry(&mut ports[thread as usize], word);
}

/// Makes a thread's device show the word from the cycle `at` on. At an empty port nothing happens.
///
/// # Errors
///
/// Out of memory; nothing changes then.
pub fn feed_port(ports: &mut Ports, thread: u8, at: u64, word: u32) -> Result<(), AllocError>
    requires eight { vec_len ports.old ≡ 8 }
    requires thread { thread < 8 }
    ensures rows { let rows = rows_of latched word_at ports.old.items in
        let row = row_at rows thread in
        rows_of latched word_at ports.new.items
        ≡ slice_set rows thread (if is_ok result then fed row at word else row) }
    ensures none { row_at (rows_of latched word_at ports.old.items) thread ≡ None
        → is_ok result ≡ true }
    ensures eight { vec_len ports.new ≡ 8 }
{
    feed_entry(&mut ports[thread as usize], at, word)
}

/// Makes a thread's device forget its words of the cycles before `before`. Its latch stays, and so
/// do its words from that cycle on. At an empty port nothing happens.
pub fn forget_port(ports: &mut Ports, thread: u8, before: u64)
    requires eight { vec_len ports.old ≡ 8 }
    requires thread { thread < 8 }
    ensures forgot { Forgot before (row_at (rows_of latched word_at ports.old.items) thread)
        (row_at (rows_of latched word_at ports.new.items) thread) }
    ensures others { (k : ℕ) → k ≢ thread → row_at (rows_of latched word_at ports.new.items) k
        ≡ row_at (rows_of latched word_at ports.old.items) k }
    ensures eight { vec_len ports.new ≡ 8 }
{
    forget_entry(&mut ports[thread as usize], before);
}

/// The last word that was written to a thread's device, or None if the port is empty.
pub fn latch_of(ports: &Ports, thread: u8) -> Option<u32>
    requires eight { vec_len ports.now ≡ 8 }
    requires thread { thread < 8 }
    ensures { result ≡ latch_seen (row_at (rows_of latched word_at ports.now.items) thread) }
{
    latch_entry(&ports[thread as usize])
}

/// Removes a thread's device and drops it. The port is then empty.
pub fn unplug(ports: &mut Ports, thread: u8)
    requires eight { vec_len ports.old ≡ 8 }
    requires thread { thread < 8 }
    ensures rows { rows_of latched word_at ports.new.items
        ≡ slice_set (rows_of latched word_at ports.old.items) thread None }
    ensures eight { vec_len ports.new ≡ 8 }
{
    ports[thread as usize] = None;
}

/// The word that a load at cycle `at` reads: the port's, or that of an absent port.
fn read_entry(entry: &mut Option<Box<dyn Port>>, at: u64) -> u32
    ensures value { result ≡ word_seen (row_of latched word_at entry.old) at }
    ensures row { row_of latched word_at entry.new ≡ row_of latched word_at entry.old }
{
    match entry {
        Some(port) => port.read(at),
        None => ABSENT_WORD,
    }
}

/// Gives a store's word to the port. Without one, the word is lost.
fn write_entry(entry: &mut Option<Box<dyn Port>>, word: u32)
    ensures { row_of latched word_at entry.new ≡ row_with_word
        (row_of latched word_at entry.old) word }
{
    if let Some(port) = entry {
        port.write(word);
    }
}

/// Gives the port an input word for the cycles from `at` on.
fn feed_entry(entry: &mut Option<Box<dyn Port>>, at: u64, word: u32) -> Result<(), AllocError>
    ensures row { let row = row_of latched word_at entry.old in
        row_of latched word_at entry.new ≡ (if is_ok result then fed row at word else row) }
    ensures none { row_of latched word_at entry.old ≡ None → is_ok result ≡ true }
{
    match entry {
        Some(port) => feed_box(port, at, word),
        None => Ok(()),
    }
}

/// Gives a port an input word for the cycles from `at` on.
fn feed_box(port: &mut Box<dyn Port>, at: u64, word: u32) -> Result<(), AllocError>
    ensures ok { OnOk result (SameWords (fed_words (word_at port.old) at word) (word_at port.new)) }
    ensures err { OnErr result (SameWords (word_at port.old) (word_at port.new)) }
    ensures latch { latched port.new ≡ latched port.old }
{
    port.feed(at, word)
}

/// Lets the port drop the input words that no load from cycle `before` on can read.
fn forget_entry(entry: &mut Option<Box<dyn Port>>, before: u64)
    ensures { Forgot before (row_of latched word_at entry.old) (row_of latched word_at entry.new) }
{
    if let Some(port) = entry {
        port.forget(before);
    }
}

/// The word that the port's output holds.
fn latch_entry(entry: &Option<Box<dyn Port>>) -> Option<u32>
    ensures { result ≡ latch_seen (row_of latched word_at entry.now) }
{
    match entry {
        Some(port) => Some(port.latch()),
        None => None,
    }
}
