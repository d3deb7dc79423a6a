//! Settings of the scheduling, and the theorems on them.

ghost use Rattle.core_model.specs.SettingLaws.{OwnPositions, SettingsOfPicks, UnretiredUnseen};

/// A setting of the scheduling: the words of the slots and of the modes that picking uses from a
/// cycle on.
#[derive(Clone, Copy, Debug)]
pub struct Phase {
    /// The first cycle whose picking uses it.
    pub from: u64,
    /// The word of the slots: nibble k for slot k.
    pub slots: u32,
    /// The word of the modes: bits 2i and 2i + 1 for thread i.
    pub modes: u32,
}

/// Picking in a cycle uses the setting of that cycle. The contract states the theorem; the call
/// does nothing.
pub fn tells_picks()
    ensures { SettingsOfPicks }
{}

/// No retired issue sees an unretired write of slots or modes. In the cycle of a retired issue, the
/// settings so far decide picking, whatever comes later. The contract states the theorem; the call
/// does nothing.
pub fn unretired_is_unseen()
    ensures { UnretiredUnseen }
{}

/// A thread has a cycle exactly if the slot of that cycle is its own and its mode is hard active.
/// The contract states the theorem; the call does nothing.
pub fn has_own_turns()
    ensures { OwnPositions }
{}
