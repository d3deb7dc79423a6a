//! The loops of a program with their bounds.

ghost use Rattle.std.specs.Prelude.{◌≡◌};

use std::marker::Model;

/// A loop of a program, and how often its back edges are taken at most.
#[derive(Clone, Copy, Debug)]
pub struct LoopSetup {
    /// The address of the loop's first word.
    pub head: u32,
    /// The address of the loop's last word.
    pub last: u32,
    /// How many times an edge from a word of the loop goes to its head, at most, for one entry.
    pub limit: u32,
}

/// The loops of a program: at most 256, each with head and last multiples of 4, head at most last,
/// and limit at most 1,048,576. Contracts see the list.
#[derive(Drop)]
pub struct Loops {
    items: Vec<LoopSetup>,
}

impl Model for Loops {
    ghost use Rattle.std.specs.Prelude.{List};
    ghost use Rattle.fp_setup.specs.declared.loop_list.LoopSetup.{LoopSetup};
    ghost use Rattle.fp_setup.specs.Loops.{AreLoops};

    ghost Value = { List LoopSetup };

    ghost view = { λ l. l.items.items };

    ghost invariant = { λ l. AreLoops l.items.items };
}

impl Loops {
    ghost use Rattle.fp_setup.specs.Loops.{AreLoops};

    /// The loops of a list.
    pub fn from_vec(items: Vec<LoopSetup>) -> Loops
        requires { AreLoops items.items }
        ensures { result ≡ items.items }
    {
        Loops { items }
    }

    /// The list of the loops.
    pub fn into_vec(self) -> Vec<LoopSetup>
        ensures { result.items ≡ self }
    {
        self.items
    }

    /// The loops, in the order of the file.
    pub fn as_slice(&self) -> &[LoopSetup]
        ensures value { result.now ≡ self.now }
        ensures rules { AreLoops result.now }
    {
        self.items.as_slice()
    }
}
