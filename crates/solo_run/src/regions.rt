//! The region registers of a view: each region's owner, as far as the view determines it.

ghost use Rattle.std.specs.Prelude.{◌≡◌, ◌<◌, nat_lt, true};
ghost use Rattle.std.specs.List.{list_all};
ghost use Rattle.slot_table.specs.Nibbles.{nibbles};
ghost use Rattle.region_guard.specs.Regions.{is_owner_nibble, region_kind};
ghost use Rattle.fp_setup.specs.SetupOfTables.{word_of};
ghost use Rattle.core_model.specs.Viewed.{region_kinds};
ghost use Rattle.solo_run.specs.RegionKinds.{kind_of_number, kinds_of_numbers};

use region_guard::{READ_ONLY, Regions, SHARED};

/// The nibble of a region with a kind, given by its number in a view. For a region of another
/// thread it is any other thread's number.
#[tactic(auto, unfolding(region_guard::specs::Regions::region_kind))]
fn owner(number: u8, thread: u8) -> u8
    requires { thread < 8 }
    ensures kind { region_kind thread result ≡ kind_of_number number }
    ensures owner { is_owner_nibble result ≡ true }
    ensures small { result < 16 }
{
    match number {
        0 => thread,
        1 => READ_ONLY,
        2 => SHARED,
        _ => (thread + 1) % 8,
    }
}

/// The word of eight nibbles, the lowest first.
fn word_of(digits: &[u8; 8]) -> u32
    requires { list_all (λ n. nat_lt n 16) digits.now ≡ true }
    ensures word { result ≡ word_of 16 digits.now }
    ensures nibbles { nibbles result ≡ digits.now }
{
    let mut word = 0u32;
    for i in (0..8).rev() {
        word = 16 * word + u32::from(digits[i]);
    }
    word
}

/// A region register whose eight regions have given kinds for a thread. `numbers` has the number of
/// each kind, as a view does.
pub fn regions(numbers: [u8; 8], thread: u8) -> Regions
    requires { thread < 8 }
    ensures { region_kinds thread result ≡ kinds_of_numbers numbers }
{
    let [a, b, c, d, e, f, g, h] = numbers;
    let nibbles = [
        owner(a, thread),
        owner(b, thread),
        owner(c, thread),
        owner(d, thread),
        owner(e, thread),
        owner(f, thread),
        owner(g, thread),
        owner(h, thread),
    ];
    Regions::from_word(word_of(&nibbles)).unwrap()
}
