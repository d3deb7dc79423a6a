//! The inputs of a thread's port.

ghost use Rattle.std.specs.Prelude.{◌≡◌};

use std::marker::Model;

/// A word that is fed to a thread's port.
#[derive(Clone, Copy, Debug)]
pub struct Input {
    /// The cycle from which on the port shows the word, 0 to 4,000,000,000.
    pub at: u64,
    /// The word that the port shows then.
    pub word: u32,
}

/// The words that are fed to a thread's port: at most 4,096, their cycles strictly rising and at
/// most 4,000,000,000. Contracts see the list. Each list with rules, like this one and [`Loops`],
/// is a type of its own. Its rules are its invariant, which a type parameter can't give.
///
/// [`Loops`]: crate::Loops
#[derive(Drop)]
pub struct Inputs {
    items: Vec<Input>,
}

impl Model for Inputs {
    ghost use Rattle.std.specs.Prelude.{List};
    ghost use Rattle.fp_setup.specs.declared.input_list.Input.{Input};
    ghost use Rattle.fp_setup.specs.Inputs.{AreInputs};

    ghost Value = { List Input };

    ghost view = { λ i. i.items.items };

    ghost invariant = { λ i. AreInputs i.items.items };
}

impl Inputs {
    ghost use Rattle.fp_setup.specs.Inputs.{AreInputs};

    /// The words of a list.
    pub fn from_vec(items: Vec<Input>) -> Inputs
        requires { AreInputs items.items }
        ensures { result ≡ items.items }
    {
        Inputs { items }
    }

    /// The list of the words.
    pub fn into_vec(self) -> Vec<Input>
        ensures { result.items ≡ self }
    {
        self.items
    }

    /// The words, in the order of their cycles.
    pub fn as_slice(&self) -> &[Input]
        ensures value { result.now ≡ self.now }
        ensures rules { AreInputs result.now }
    {
        self.items.as_slice()
    }
}
