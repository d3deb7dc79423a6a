//! The plants that a text lists.

ghost use Rattle.std.specs.Prelude.{◌≡◌, ◌<◌, IfOk, IfErr, OnOk, Ok, Some, None};
ghost use Rattle.std.specs.Prelude.{false, length, map, option_map, true, vec_len};
ghost use Rattle.std.specs.List.{list_any};
ghost use Rattle.loop_command_line.specs.Plants.{after_lines, after_words, has_room, is_pipe};
ghost use Rattle.loop_command_line.specs.Plants.{numbers_in};
ghost use Rattle.loop_command_line.specs.Plants.{plant_in, plants_of};
ghost use Rattle.loop_command_line.specs.ListCauses.{IsListCauseOf};

use crate::kind::kind_of;
use crate::lines::{lines, words};
use crate::listed::Listed;
use command_line::{number_of_bytes, thread_of_bytes};
use std::alloc::{AllocError, AllocFailed, Global};

/// The most bytes of a list.
pub const MOST_LIST_BYTES: usize = 67_108_864;

/// The largest number of a list.
const MOST_NUMBER: u64 = 4_294_967_295;

/// How many threads there are.
const THREADS: usize = 8;

/// The reason why a text gives no plants.
#[derive(Clone, Copy, Debug, PartialEq, Eq)]
pub enum ListNo {
    /// A line lists no plant, a second plant of a thread, or a second pipe: the first such line.
    Line { number: u64 },
    /// The text has more than [`MOST_LIST_BYTES`].
    TooLong,
    /// Out of memory.
    NoMemory,
}

impl From<AllocError> for ListNo {
    ghost use Rattle.std.specs.Prelude.{◌≡◌};
    ghost use Rattle.loop_command_line.specs.declared.plants.ListNo.TheVariants.{NoMemory};

    ghost from_gives = { λ _ no. no ≡ NoMemory };

    fn from(_error: AllocError) -> ListNo {
        ListNo::NoMemory
    }
}

impl<T: Drop> From<AllocFailed<T>> for ListNo {
    ghost use Rattle.std.specs.Prelude.{◌≡◌};
    ghost use Rattle.loop_command_line.specs.declared.plants.ListNo.TheVariants.{NoMemory};

    ghost from_gives = { λ _ no. no ≡ NoMemory };

    fn from(_refused: AllocFailed<T>) -> ListNo {
        ListNo::NoMemory
    }
}

/// The numbers of words; None if a word is no number.
#[tactic(auto, unfolding(crate::specs::Plants::numbers_in))]
fn numbers_of(alloc: Global, words: &[&[u8]]) -> Result<Option<Vec<u32>>, AllocError>
    ensures { IfOk result (λ numbers. option_map (λ ns. ns.items) numbers
        ≡ numbers_in (map (λ word. word.now) words.now)) }
{
    let mut numbers = Vec::new(alloc);
    for word in words {
        match number_of_bytes(MOST_NUMBER, word) {
            Some(number) => numbers.push(number as u32)?,
            None => return Ok(None),
        }
    }
    Ok(Some(numbers))
}

/// The plant of a line, from the words after its thread; None if they are no plant.
#[tactic(auto, unfolding(crate::specs::Plants::plant_in))]
fn plant_of(alloc: Global, words: &[&[u8]]) -> Result<Option<Listed>, AllocError>
    ensures { IfOk result (λ plant. plant ≡ plant_in (map (λ word. word.now) words.now)) }
{
    let Some((name, words)) = words.split_first() else {
        return Ok(None);
    };
    let numbers = numbers_of(alloc, words)?;
    match (kind_of(name), numbers) {
        (Some(kind), Some(numbers)) => Ok(Listed::new(kind, numbers)),
        _ => Ok(None),
    }
}

/// Whether a plant is at the pipe.
fn is_pipe(plant: &Option<Listed>) -> bool
    ensures { result ≡ is_pipe plant.now }
{
    match plant {
        Some(plant) => plant.kind().is_pipe(),
        None => false,
    }
}

/// Whether one of the plants is at the pipe.
fn has_pipe(plants: &[Option<Listed>]) -> bool
    ensures { result ≡ list_any is_pipe plants.now }
{
    plants.iter().any(|plant| is_pipe(plant))
}

/// Whether a plant may be added for a thread: it has none yet, and there is one pipe at most.
fn has_room(plants: &[Option<Listed>], thread: u8, plant: &Listed) -> bool
    requires eight { length plants.now ≡ 8 }
    requires thread { thread < 8 }
    ensures { result ≡ has_room plants.now thread plant.now }
{
    plants[thread as usize].is_none() && !(plant.kind().is_pipe() && has_pipe(plants))
}

/// Adds the plant of a line of words. Returns whether the line lists one, or needs none.
#[tactic(auto, unfolding(crate::specs::Plants::after_words))]
fn add_words(
    alloc: Global,
    words: &[&[u8]],
    plants: &mut Vec<Option<Listed>>,
) -> Result<bool, AllocError>
    requires { vec_len plants.old ≡ 8 }
    ensures listed { IfOk result (λ listed. listed ≡ true
        → after_words plants.old.items (map (λ word. word.now) words.now)
        ≡ Some plants.new.items) }
    ensures refused { IfOk result (λ listed. listed ≡ false
        → after_words plants.old.items (map (λ word. word.now) words.now) ≡ None) }
    ensures eight { vec_len plants.new ≡ 8 }
{
    let Some((word, words)) = words.split_first() else {
        return Ok(true);
    };
    if *word == b"#".as_slice() {
        return Ok(true);
    }
    match (thread_of_bytes(word), plant_of(alloc, words)?) {
        (Some(thread), Some(plant)) if has_room(plants, thread, &plant) => {
            plants[thread as usize] = Some(plant);
            Ok(true)
        }
        _ => Ok(false),
    }
}

/// Adds the plants of lines.
#[tactic(auto, unfolding(crate::specs::Plants::after_lines))]
fn add_lines(alloc: Global, lines: &[&[u8]], plants: &mut Vec<Option<Listed>>) -> Result<(), ListNo>
    requires { vec_len plants.old ≡ 8 }
    ensures listed { OnOk result (after_lines 1 plants.old.items (map (λ line. line.now) lines.now)
        ≡ Ok plants.new.items) }
    ensures refused { IfErr result
        (IsListCauseOf (after_lines 1 plants.old.items (map (λ line. line.now) lines.now))) }
    ensures eight { vec_len plants.new ≡ 8 }
{
    let mut number = 1;
    for line in lines {
        let words = words(alloc, line)?;
        if !add_words(alloc, &words, plants)? {
            return Err(ListNo::Line { number });
        }
        number += 1;
    }
    Ok(())
}

/// The plants of the eight threads that a text lists, each line with a thread, a kind and its
/// numbers. Lines without words, and lines whose first word is `#`, list none.
///
/// # Errors
///
/// `TooLong` or `Line` exactly for such a text, unless memory ran out; then `NoMemory`.
#[tactic(auto, unfolding(crate::specs::Plants::plants_of))]
pub fn read_plants(alloc: Global, text: &[u8]) -> Result<Vec<Option<Listed>>, ListNo>
    ensures listed { IfOk result (λ plants. plants_of text.now ≡ Ok plants.items) }
    ensures refused { IfErr result (IsListCauseOf (plants_of text.now)) }
    ensures eight { IfOk result (λ plants. vec_len plants ≡ 8) }
{
    if text.len() > MOST_LIST_BYTES {
        return Err(ListNo::TooLong);
    }
    let mut plants = Vec::new(alloc);
    for _thread in 0..THREADS {
        plants.push(None)?;
    }
    add_lines(alloc, &lines(alloc, text)?, &mut plants)?;
    Ok(plants)
}
