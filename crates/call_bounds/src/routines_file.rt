//! From files to routines.

ghost use Rattle.std.specs.Prelude.{◌≡◌, ◌⊎◌, ◌≤◌, ◌<◌, ◌^◌, Err, length, drop, take, true, IfOk};
ghost use Rattle.std.specs.List.{list_all};
ghost use Rattle.region_guard.specs.Regions.{IsSize};
ghost use Rattle.call_bounds.specs.RoutinesFile.{digit, has_form, head_digits, is_above};
ghost use Rattle.call_bounds.specs.RoutinesFile.{is_digit, is_placed, last_digits};
ghost use Rattle.call_bounds.specs.RoutinesFile.{number_from, routine_at, routines_of};

use crate::routines::{Routine, Routines};
use crate::routines_refusals::{RoutinesNo, RoutinesRefused, fault};
use std::alloc::Global;

/// The most routines that a file may list.
const MOST_ROUTINES: usize = 64;

/// How many bytes a routine's line has, with its line feed.
const LINE_LEN: usize = 18;

/// The most bytes that a list of routines may have.
pub const MOST_LIST_BYTES: usize = MOST_ROUTINES * LINE_LEN;

/// Whether a byte is a hexadecimal digit of lower case.
fn is_digit(byte: u8) -> bool
    ensures { result ≡ is_digit byte }
{
    matches!(byte, b'0'..=b'9' | b'a'..=b'f')
}

/// The value of a hexadecimal digit of lower case.
fn digit(byte: u8) -> u32
    requires { is_digit byte ≡ true }
    ensures value { result ≡ digit byte }
    ensures small { result < 16 }
{
    if byte <= b'9' {
        u32::from(byte - b'0')
    } else {
        u32::from(byte - b'a') + 10
    }
}

/// Whether all bytes are hexadecimal digits of lower case.
fn are_digits(bytes: &[u8]) -> bool
    ensures { result ≡ list_all is_digit bytes.now }
{
    bytes.iter().all(|byte| is_digit(*byte))
}

/// The number of eight hexadecimal digits, the highest first.
fn number_of(digits: &[u8]) -> u32
    requires len { length digits.now ≡ 8 }
    requires digits { list_all is_digit digits.now ≡ true }
    ensures { result ≡ number_from 0 digits.now }
{
    let mut number = 0;
    for byte in digits {
        number = number * 16 + digit(*byte);
    }
    number
}

/// Whether a line is eight digits, a space, eight digits, and a line feed.
fn has_form(line: &[u8]) -> bool
    ensures value { result ≡ has_form line.now }
    ensures len { result ≡ true → length line.now ≡ 18 }
    ensures head { result ≡ true → list_all is_digit (head_digits line.now) ≡ true }
    ensures last { result ≡ true → list_all is_digit (last_digits line.now) ≡ true }
{
    line.len() == LINE_LEN
        && are_digits(&line[..8])
        && line[8] == b' '
        && are_digits(&line[9..17])
        && line[17] == b'\n'
}

/// Whether a routine may lie in a scratchpad of `size` bytes.
fn is_placed(routine: Routine, size: u32) -> bool
    requires { IsSize size }
    ensures { result ≡ is_placed size routine }
{
    routine.head % 4 == 0
        && routine.last % 4 == 0
        && routine.head <= routine.last
        && routine.last <= size - 4
}

/// Reads the routine of the line with this number, after another one.
#[tactic(auto, unfolding(crate::specs::RoutinesFile::routine_at))]
fn routine_at(
    line: &[u8],
    number: usize,
    before: Option<Routine>,
    size: u32,
) -> Result<Routine, RoutinesRefused>
    requires size { IsSize size }
    requires number { number ≤ 65 }
    ensures value { result ≡ routine_at size number before line.now }
    ensures placed { IfOk result (λ r. is_placed size r ≡ true) }
    ensures above { IfOk result (λ r. is_above before r ≡ true) }
    ensures few { IfOk result (λ r. number ≤ 64) }
{
    if number > MOST_ROUTINES {
        return Err(fault(number as u32, RoutinesNo::TooMany));
    }
    if !has_form(line) {
        return Err(fault(number as u32, RoutinesNo::BadLine));
    }
    let routine = Routine {
        head: number_of(&line[..8]),
        last: number_of(&line[9..17]),
    };
    if !is_placed(routine, size) {
        return Err(fault(number as u32, RoutinesNo::BadPlace));
    }
    if before.is_some_and(|before| routine.head <= before.last) {
        return Err(fault(number as u32, RoutinesNo::Order));
    }
    Ok(routine)
}

/// Reads the routines of a file, for scratchpads of `size` bytes, 16,384 or 65,536. A line has the
/// address of a routine's first word, a space, the address of its last word, and a line feed. Each
/// address is eight hexadecimal digits of lower case.
///
/// # Errors
///
/// `Fault` exactly if a line breaks a rule of [`RoutinesNo`]: with the first such line and the
/// first of its faults, in the order of their numbers. `NoMemory` if memory ran out.
pub fn read_routines(alloc: Global, bytes: &[u8], size: u32) -> Result<Routines, RoutinesRefused>
    requires { IsSize size }
    ensures { (result ≡ Err RoutinesRefused.NoMemory)
        ⊎ (result ≡ routines_of size bytes.now) }
{
    let mut items = Vec::new(alloc);
    let mut before = None;
    // Up to the first fault all lines have the same length.
    for line in bytes.chunks(LINE_LEN) {
        let routine = match routine_at(line, items.len() + 1, before, size) {
            Ok(routine) => routine,
            Err(refused) => return Err(refused),
        };
        if items.push(routine).is_err() {
            return Err(RoutinesRefused::NoMemory);
        }
        before = Some(routine);
    }
    Ok(Routines::from_vec(items))
}
