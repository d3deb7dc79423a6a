//! The lines of a dump, over plain values.

ghost use Rattle.std.specs.Prelude.{◌≡◌, ◌+◌, ◌*◌, ◌≤◌, ◌++◌, length, codes};
ghost use Rattle.arrayvec.specs.ArrayString.{array_string_len};
ghost use Rattle.trace_print.specs.Digits.{hex};
ghost use Rattle.trace_print.specs.DumpLines.{cycles_text, thread_text, held_text};
ghost use Rattle.trace_print.specs.DumpLines.{stage_text, word_text, words_text};
ghost use Rattle.trace_print.specs.DumpLines.{thread_words_text, moment_text, timer_text};
ghost use Rattle.trace_print.specs.DumpLines.{port_text, latch_text, memory_text};

use crate::digits::{push_decimal, push_hex, push_word};
use arrayvec::ArrayString;

/// The content of a stage, as in a dump.
#[derive(Clone, Copy, Debug)]
pub enum StageContent {
    /// No turn.
    Nothing,
    /// The picked thread. It isn't shown whether its turn will be flushed.
    Picked { thread: u8 },
    /// A flushed turn of the thread.
    Flushed { thread: u8 },
    /// An issue of the thread, with its pc and its word.
    Issue { thread: u8, pc: u32, word: u32 },
}

/// The line `cycles N`.
#[tactic(auto, unfolding(crate::specs::DumpLines::cycles_text))]
pub fn cycles_line(n: u64) -> ArrayString<96>
    ensures { result.bytes ≡ cycles_text n }
{
    let mut text = ArrayString::new();
    text.push_str("cycles ");
    push_decimal(&mut text, n);
    text.push_str("\n");
    text
}

/// The line of a stage: its name, of at most 16 bytes, and its content.
#[tactic(auto, unfolding(crate::specs::DumpLines::stage_text))]
pub fn stage_line(name: &str, held: &StageContent) -> ArrayString<96>
    requires { length name.now ≤ 16 }
    ensures { result.bytes ≡ stage_text name.now held.now }
{
    let mut text = ArrayString::new();
    text.push_str(name);
    text.push_str(" ");
    push_held(&mut text, held);
    text.push_str("\n");
    text
}

/// The line of a word: its name, of at most 16 bytes, and eight hexadecimal digits.
#[tactic(auto, unfolding(crate::specs::DumpLines::word_text))]
pub fn word_line(name: &str, word: u32) -> ArrayString<96>
    requires { length name.now ≤ 16 }
    ensures { result.bytes ≡ word_text name.now word }
{
    let mut text = ArrayString::new();
    text.push_str(name);
    text.push_str(" ");
    push_word(&mut text, word);
    text.push_str("\n");
    text
}

/// The line of some words of a thread: the thread, their name and the words.
#[tactic(auto, unfolding(crate::specs::DumpLines::thread_words_text))]
pub fn thread_words_line(thread: u8, name: &str, words: &[u32]) -> ArrayString<96>
    requires name { length name.now ≤ 3 }
    requires few { length words.now ≤ 8 }
    ensures { result.bytes ≡ thread_words_text thread name.now words.now }
{
    let mut text = ArrayString::new();
    push_thread(&mut text, thread);
    text.push_str(" ");
    text.push_str(name);
    push_words(&mut text, words);
    text.push_str("\n");
    text
}

/// The line of a thread's armed moment and sleep moment, in nanoseconds, and of the latched high
/// word of GT.
#[tactic(auto, unfolding(crate::specs::DumpLines::timer_text))]
pub fn timer_line(thread: u8, armed: Option<u64>, sleep: u64, high: u32) -> ArrayString<96>
    ensures { result.bytes ≡ timer_text thread armed sleep high }
{
    let mut text = ArrayString::new();
    push_thread(&mut text, thread);
    text.push_str(" armed ");
    push_moment(&mut text, armed);
    push_sleep(&mut text, sleep, high);
    text.push_str("\n");
    text
}

/// Appends a sleep moment and a latched high word.
fn push_sleep(text: &mut ArrayString<96>, sleep: u64, high: u32)
    requires room { array_string_len text.old + 37 ≤ 96 }
    ensures text { text.new.bytes ≡
        text.old.bytes ++ (codes " sleep " ++ (hex 16 sleep ++ (codes " high " ++ hex 8 high))) }
    ensures len { array_string_len text.new ≤ array_string_len text.old + 37 }
{
    text.push_str(" sleep ");
    push_hex(text, sleep, 16);
    text.push_str(" high ");
    push_word(text, high);
}

/// The line of a thread's latch; without a port the latch is `open`.
#[tactic(auto, unfolding(crate::specs::DumpLines::latch_text))]
pub fn latch_line(thread: u8, latch: Option<u32>) -> ArrayString<96>
    ensures { result.bytes ≡ latch_text thread latch }
{
    let mut text = ArrayString::new();
    push_thread(&mut text, thread);
    text.push_str(" latch ");
    push_port(&mut text, latch);
    text.push_str("\n");
    text
}

/// The line of words of the data scratchpad: the first one's address and the words.
#[tactic(auto, unfolding(crate::specs::DumpLines::memory_text))]
pub fn memory_line(address: u32, words: &[u32]) -> ArrayString<96>
    requires { length words.now ≤ 8 }
    ensures { result.bytes ≡ memory_text address words.now }
{
    let mut text = ArrayString::new();
    text.push_str("[");
    push_word(&mut text, address);
    text.push_str("]");
    push_words(&mut text, words);
    text.push_str("\n");
    text
}

/// Appends `T` and the thread's number.
#[tactic(auto, unfolding(crate::specs::DumpLines::thread_text))]
fn push_thread(text: &mut ArrayString<96>, thread: u8)
    requires room { array_string_len text.old + 4 ≤ 96 }
    ensures text { text.new.bytes ≡ text.old.bytes ++ thread_text thread }
    ensures len { array_string_len text.new ≤ array_string_len text.old + 4 }
{
    text.push_str("T");
    push_decimal(text, thread);
}

/// Appends the content of a stage.
#[tactic(auto, unfolding(crate::specs::DumpLines::held_text))]
fn push_held(text: &mut ArrayString<96>, held: &StageContent)
    requires room { array_string_len text.old + 22 ≤ 96 }
    ensures text { text.new.bytes ≡ text.old.bytes ++ held_text held.now }
    ensures len { array_string_len text.new ≤ array_string_len text.old + 22 }
{
    match *held {
        StageContent::Nothing => text.push_str("-"),
        StageContent::Picked { thread } => push_thread(text, thread),
        StageContent::Flushed { thread } => {
            push_thread(text, thread);
            text.push_str(" flushed");
        }
        StageContent::Issue { thread, pc, word } => {
            push_thread(text, thread);
            text.push_str(" ");
            push_word(text, pc);
            text.push_str(" ");
            push_word(text, word);
        }
    }
}

/// Appends a moment as sixteen hexadecimal digits, or `-`.
#[tactic(auto, unfolding(crate::specs::DumpLines::moment_text))]
fn push_moment(text: &mut ArrayString<96>, moment: Option<u64>)
    requires room { array_string_len text.old + 16 ≤ 96 }
    ensures text { text.new.bytes ≡ text.old.bytes ++ moment_text moment }
    ensures len { array_string_len text.new ≤ array_string_len text.old + 16 }
{
    match moment {
        Some(moment) => push_hex(text, moment, 16),
        None => text.push_str("-"),
    }
}

/// Appends a latch as eight hexadecimal digits, or `open`.
#[tactic(auto, unfolding(crate::specs::DumpLines::port_text))]
fn push_port(text: &mut ArrayString<96>, latch: Option<u32>)
    requires room { array_string_len text.old + 8 ≤ 96 }
    ensures text { text.new.bytes ≡ text.old.bytes ++ port_text latch }
    ensures len { array_string_len text.new ≤ array_string_len text.old + 8 }
{
    match latch {
        Some(latch) => push_word(text, latch),
        None => text.push_str("open"),
    }
}

/// Appends words as eight hexadecimal digits each, each with a space before it.
#[tactic(auto, unfolding(crate::specs::DumpLines::words_text))]
fn push_words(text: &mut ArrayString<96>, words: &[u32])
    requires room { array_string_len text.old + 9 * length words.now ≤ 96 }
    ensures text { text.new.bytes ≡ text.old.bytes ++ words_text words.now }
    ensures len { array_string_len text.new ≡ array_string_len text.old + 9 * length words.now }
{
    if let [first, rest @ ..] = words {
        text.push_str(" ");
        push_word(text, *first);
        push_words(text, rest);
    }
}
