//! The slots register as a type that holds only accepted words.

ghost use Rattle.std.specs.Prelude.{◌≡◌, ◌<◌, IsTrue, is_ok, length};
ghost use Rattle.slot_table.specs.Frame.{IsTurn, frame, is_slot, turn, turn_named};
ghost use Rattle.slot_table.specs.Table.{early, is_table, table_of};

use crate::frame::{BadSlot, Frame, Turn, bad_slot, turn_named};
use crate::nibbles::nibbles_of;
use std::marker::Model;

/// A word of the register slots (0x7C0): a nibble for each of eight slots, slot i in bits 4i to 4i
/// + 3. A nibble is a thread (0 to 7), the soft threads (14) or disabled (15).
#[derive(Clone, Copy, Debug)]
pub struct SlotTable {
    word: u32,
    layout: Frame,
}

impl Model for SlotTable {
    ghost use Rattle.std.specs.Prelude.{◌≡◌, ℕ, true};
    ghost use Rattle.slot_table.specs.Frame.{frame};
    ghost use Rattle.slot_table.specs.Table.{is_table, laid_out};

    ghost Value = { ℕ };

    ghost view = { λ t. t.word };

    ghost invariant = { λ t. (is_table t.word ≡ true)
        × (t.layout ≡ laid_out (frame t.word)) };

    ghost inverse = { λ w. record { word = w; layout = laid_out (frame w) } };
}

impl SlotTable {
    /// The table of a word of the register; the word is stored unchanged.
    ///
    /// # Errors
    ///
    /// [`BadSlot`] exactly if a nibble is 8 to 13.
    #[tactic(auto, unfolding(crate::specs::Table::table_of, crate::specs::Frame::frame))]
    pub fn from_word(word: u32) -> Result<SlotTable, BadSlot>
        ensures table { result ≡ table_of word }
        ensures accepts { is_ok result ≡ is_table word }
    {
        let slots = nibbles_of(word);
        match bad_slot(&slots) {
            Some(index) => Err(BadSlot { index: index as u8 }),
            None => Ok(SlotTable {
                word,
                layout: Frame::of_slots(&slots),
            }),
        }
    }

    /// The word of the register; no nibble is 8 to 13.
    pub fn word(&self) -> u32
        ensures word { result ≡ self.now }
        ensures accepted { IsTrue (is_table result) }
    {
        self.word
    }

    /// The number of slots that share the cycles, 0 to 8: those that aren't disabled.
    pub fn frame_len(&self) -> u8
        ensures { result ≡ length (frame self.now) }
    {
        self.layout.len
    }

    /// The nibble of a cycle's slot, 0 to 7 or 14: the frame's entry at the cycle's number modulo
    /// the frame's length. It is 15 exactly if the frame is empty.
    ///
    /// It exists in addition to [`turn`](SlotTable::turn) because a mask of threads can be tested
    /// with the nibble, without a case for each kind of turn.
    pub fn slot(&self, cycle: u64) -> u8
        ensures slot { IsTrue (is_slot result) }
        ensures turn { turn_named result ≡ turn self.now cycle }
    {
        self.layout.slots[self.layout.position_of(cycle) as usize]
    }

    /// The nibble of the slot of a cycle before 2^61: as [`slot`](SlotTable::slot), without a test
    /// of the cycle.
    #[inline(always)]
    pub fn early_slot(&self, cycle: u64) -> u8
        requires { cycle < early }
        ensures slot { IsTrue (is_slot result) }
        ensures turn { turn_named result ≡ turn self.now cycle }
    {
        self.layout.slots[self.layout.early_position_of(cycle) as usize]
    }

    /// The turn of a cycle: that of the frame's entry at the cycle's number modulo the frame's
    /// length, and nobody's exactly if the frame is empty.
    pub fn turn(&self, cycle: u64) -> Turn
        ensures turn { result ≡ turn self.now cycle }
        ensures thread { IsTurn result }
    {
        turn_named(self.slot(cycle))
    }
}
