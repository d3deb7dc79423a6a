//! The bounds of sections, and the refusals of those that have none. An executable model of the
//! rules, which was written independently of the analyser, gave the answers.
//!
//! A call is the slots register, the thread, and the section's two ends; the loops, each as its
//! head, its last word and its bound; and the words of an image's file that has only the section. A
//! tab separates these three. Numbers are hexadecimal, except for bounds.

ghost use Rattle.std.specs.Prelude.{◌<◌, ◌↔◌, Contains, IsTrue};
ghost use Rattle.fp_setup.specs.Loops.{IsLoop};
ghost use Rattle.region_tree.specs.Tree.{IsSection};
ghost use Rattle.slot_table.specs.Frame.{frame};

use crate::numbers::{hexadecimal, read_hexadecimals};
use bound_calc::{BoundNo, bound, has_slot};
use fp_image::{Image, read_image};
use fp_setup::{LoopSetup, Loops};
use region_tree::{LoopTree, Section, TreeNo};
use slot_table::SlotTable;
use std::alloc::Global;
use test_text::RowText;

/// The arguments of a bound, in addition to the image and the loops.
#[derive(Clone, Copy)]
struct Question {
    slots: SlotTable,
    thread: u8,
    section: Section,
}

impl Question {
    /// The question of a row: slots, thread, first and end address, in hexadecimal.
    fn of_words(words: &str) -> Option<Question> {
        let mut numbers = [0; 4];
        read_hexadecimals(words, &mut numbers)?;
        let [slots, thread, from, to] = numbers;
        Some(Question {
            slots: SlotTable::from_word(slots).ok()?,
            thread: u8::try_from(thread).ok()?,
            section: Section { from, to },
        })
    }
}

/// The text before the first tab, and the text after it.
fn field(text: &str) -> (&str, &str) {
    text.split_once('\t').unwrap_or((text, ""))
}

/// `bound` and the number, or `refused` with the number, the name and the address of the refusal; a
/// dash if no bound may be requested.
pub fn push_answer(text: &mut RowText, alloc: Global, call: &str) {
    let (words, rest) = field(call);
    let (numbers, file) = field(rest);
    let Some(question) = Question::of_words(words) else {
        return text.push_str("no question");
    };
    let Some(loops) = loops_of(text, alloc, numbers) else {
        return text.push_str("no loops");
    };
    match image_of(text, alloc, file) {
        Some(image) => push_asked(text, alloc, question, &image, &loops),
        None => text.push_str("no image"),
    }
}

/// Whether a loop's addresses and limit may stand in a setup.
fn is_loop(j: &LoopSetup) -> bool
    ensures { IsTrue result ↔ IsLoop j.now }
{
    j.head % 4 == 0 && j.last % 4 == 0 && j.head <= j.last && j.limit <= 1_048_576
}

/// Loops as a setup has them; None where they break a rule of loops.
fn kept_loops(loops: Vec<LoopSetup>) -> Option<Loops> {
    if loops.len() > 256 || !loops.iter().all(is_loop) {
        return None;
    }
    Some(Loops::from_vec(loops))
}

/// The loops of a list of numbers, three each; None where they break a rule of loops.
fn loops_of(text: &mut RowText, alloc: Global, numbers: &str) -> Option<Loops> {
    let mut loops = Vec::new(alloc);
    let mut words = numbers.split_ascii_whitespace();
    while let Some(head) = words.next() {
        let (last, limit) = (words.next().unwrap_or(""), words.next().unwrap_or(""));
        let (Some(head), Some(last), Ok(limit)) = (
            hexadecimal(head),
            hexadecimal(last),
            limit.parse(),
        ) else {
            return None;
        };
        if loops.push(LoopSetup { head, last, limit }).is_err() {
            text.refuse();
        }
    }
    kept_loops(loops)
}

/// The image of a file's words; None where a word is no number.
fn image_of(text: &mut RowText, alloc: Global, words: &str) -> Option<Image> {
    let mut file = Vec::new(alloc);
    for word in words.split_ascii_whitespace() {
        let word = hexadecimal(word)?;
        if file.extend_from_slice(&word.to_le_bytes()).is_err() {
            text.refuse();
        }
    }
    read_image(alloc, &file, 65_536).ok()
}

/// Whether a section may be asked about.
fn is_section(s: Section) -> bool
    ensures { IsTrue result ↔ IsSection s }
{
    s.from < s.to && s.from % 4 == 0 && s.to % 4 == 0 && s.to <= 65_536
}

/// Writes the answer of a question.
fn push_asked(text: &mut RowText, alloc: Global, question: Question, image: &Image, loops: &Loops) {
    let Question {
        slots,
        thread,
        section,
    } = question;
    if !is_section(section) || thread > 7 || !has_slot(&slots, thread) {
        return text.push_str("-");
    }
    match LoopTree::build(alloc, image, section, loops) {
        Ok(tree) => push_bound(text, alloc, &tree, &slots, thread),
        Err(TreeNo::NoMemory) => text.refuse(),
        Err(TreeNo::Nesting { address }) => push_refused(text, "1 Nesting", address),
        Err(TreeNo::IndirectJump { address }) => push_refused(text, "2 IndirectJump", address),
        Err(TreeNo::TimedWait { address }) => push_refused(text, "3 TimedWait", address),
        Err(TreeNo::UnboundedBackEdge { address }) => {
            push_refused(text, "4 UnboundedBackEdge", address)
        }
    }
}

/// Writes a bound in cycles, or why there is none.
fn push_bound(text: &mut RowText, alloc: Global, tree: &LoopTree, slots: &SlotTable, thread: u8)
    requires thread { thread < 8 }
    requires slot { Contains (frame slots.now) thread }
{
    match bound(alloc, tree, slots, thread) {
        Ok(cycles) => write!(text, "bound {cycles}"),
        Err(BoundNo::Overflow { value }) => write!(text, "refused 6 Overflow {value}"),
        Err(BoundNo::NoMemory) => text.refuse(),
    }
}

/// Writes a refusal with its address.
fn push_refused(text: &mut RowText, why: &str, address: u32) {
    write!(text, "refused {why} {address:08x}")
}
