//! Words of eight digits, and the texts of the digits.

ghost use Rattle.std.specs.Prelude.{◌≡◌, ◌<◌, ◌≤◌, ◌^◌, IfOk, length, map, true, nat_lt, IsTrue};
ghost use Rattle.std.specs.List.{list_all};
ghost use Rattle.slot_table.specs.Nibbles.{nibbles};
ghost use Rattle.toml.specs.View.{view};
ghost use Rattle.fp_setup.specs.Checks.{each_fault, eight_check, word_check};
ghost use Rattle.fp_setup.specs.Values.{elements, text};
ghost use Rattle.fp_setup.specs.SetupOfTables.{number_of_name, nibble_word, word_of};
ghost use Rattle.fp_setup.specs.Vocabulary.{is_value, is_word};
ghost use Rattle.fp_setup.specs.Reading.{IsRead};

use crate::refusal::{Fault, Place, SetupNo};
use crate::values::{list, word};
use crate::vocabulary::Words;
use toml::Value;

/// The numbers of eight texts of a list.
fn eight_numbers(items: &[Value], words: Words, place: Place) -> Result<[u8; 8], Fault>
    requires { length items.now ≡ 8 }
    ensures read { IsRead result
        (each_fault (word_check words) place 0 (map view items.now))
        (map (λ d. number_of_name words (text d)) (map view items.now)) }
    ensures values { IfOk result (λ ns. list_all (is_value words) ns ≡ true) }
{
    let mut numbers = [0; 8];
    for i in 0..8 {
        numbers[i] = word(&items[i], words, place.element(i as u32))?;
    }
    Ok(numbers)
}

/// The number with eight given digits in a base, the lowest first.
fn word_of_digits(base: u32, digits: &[u8; 8]) -> u32
    requires base { base ≤ 16 }
    requires digits { list_all (λ n. nat_lt n base) digits.now ≡ true }
    ensures word { result ≡ word_of base digits.now }
    ensures small { result < base ^ 8 }
{
    let mut word = 0;
    for i in (0..8).rev() {
        word = base * word + u32::from(digits[i]);
    }
    word
}

/// The word of eight nibbles, the lowest first.
#[tactic(auto, using(crate::proofs::Digits::nibbles_of_word))]
fn word_of_nibbles(numbers: &[u8; 8]) -> u32
    requires { list_all (λ n. nat_lt n 16) numbers.now ≡ true }
    ensures word { result ≡ word_of 16 numbers.now }
    ensures nibbles { nibbles result ≡ numbers.now }
{
    word_of_digits(16, numbers)
}

/// The word of the modes of eight threads, two bits for each.
pub(crate) fn word_of_modes(modes: &[u8; 8]) -> u32
    requires { list_all (λ n. nat_lt n 4) modes.now ≡ true }
    ensures word { result ≡ word_of 4 modes.now }
    ensures small { result < 65536 }
{
    word_of_digits(4, modes)
}

/// The word of eight texts of a list.
#[tactic(auto, using(crate::proofs::Digits::eight), unfolding(crate::proofs::Opened::eight))]
pub(crate) fn eight(value: &Value, words: Words, place: Place) -> Result<u32, Fault>
    ensures read { IsRead result
        (eight_check words place (view value.now))
        (nibble_word words (elements (view value.now))) }
    ensures values { IfOk result (λ word. IsTrue (is_word words word)) }
{
    let Some(items) = list(value) else {
        return Err(Fault::new(SetupNo::WrongType, place));
    };
    if items.len() != 8 {
        return Err(Fault::new(SetupNo::OutOfRange, place));
    }
    let numbers = eight_numbers(items, words, place)?;
    Ok(word_of_nibbles(&numbers))
}
