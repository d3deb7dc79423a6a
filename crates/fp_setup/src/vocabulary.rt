//! The texts for slots, owners of regions and modes.

ghost use Rattle.std.specs.Prelude.{◌≡◌, ◌<◌, IfSome, true};
ghost use Rattle.fp_setup.specs.Vocabulary.{is_value, number_in, number_of, refusal, threads};

use crate::refusal::SetupNo;
use region_guard::{READ_ONLY, SHARED};
use slot_table::{DISABLED, SOFT};

/// A list of texts, each with a number.
#[derive(Clone, Copy)]
pub(crate) enum Words {
    /// The slots of the frame.
    Slots,
    /// The owners of regions.
    Owners,
    /// The modes of threads.
    Modes,
}

impl Words {
    /// The number of a text, if it is in the list.
    #[tactic(auto, unfolding(crate::specs::Vocabulary::number_of))]
    pub(crate) fn number(self, text: &str) -> Option<u8>
        ensures number { result ≡ number_of self text.now }
        ensures value { IfSome result (λ n. is_value self n ≡ true) }
    {
        match self {
            Words::Slots => match text {
                "S" => Some(SOFT),
                "D" => Some(DISABLED),
                _ => thread_number(text),
            },
            Words::Owners => match text {
                "shared" => Some(SHARED),
                "readonly" => Some(READ_ONLY),
                _ => thread_number(text),
            },
            Words::Modes => match text {
                "hard" => Some(0),
                "hard-asleep" => Some(1),
                "soft" => Some(2),
                "soft-asleep" => Some(3),
                _ => None,
            },
        }
    }

    /// The refusal of a text that isn't in the list.
    pub(crate) fn refusal(self) -> SetupNo
        ensures { result ≡ refusal self }
    {
        match self {
            Words::Slots => SetupNo::BadSlot,
            Words::Owners => SetupNo::BadRegion,
            Words::Modes => SetupNo::BadMode,
        }
    }
}

/// The number of a thread by its text, `T0` to `T7`.
fn thread_number(text: &str) -> Option<u8>
    ensures number { result ≡ number_in threads text.now }
    ensures thread { IfSome result (λ n. n < 8) }
{
    match text {
        "T0" => Some(0),
        "T1" => Some(1),
        "T2" => Some(2),
        "T3" => Some(3),
        "T4" => Some(4),
        "T5" => Some(5),
        "T6" => Some(6),
        "T7" => Some(7),
        _ => None,
    }
}
