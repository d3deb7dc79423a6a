//! The costs of going on from the words that have costs of their own.

ghost use Rattle.std.specs.Prelude.{◌≡◌};

use crate::matrix::Matrix;
use std::marker::Model;

/// Matrices, and for each word the index of its matrix. The matrix has the costs of going on from a
/// word whose lag doesn't determine them. Contracts see the two lists.
#[derive(Drop)]
pub struct WordCosts<'a> {
    indices: &'a [Option<usize>],
    costs: &'a [Matrix],
}

impl<'a> Model for WordCosts<'a> {
    ghost use Rattle.bound_calc.specs.Propagation.{CostTable};

    ghost Value = { CostTable };

    ghost view = { λ w. record { indices = w.indices.now; costs = w.costs.now } };
}

impl<'a> WordCosts<'a> {
    ghost use Rattle.std.specs.Prelude.{◌≡◌};
    ghost use Rattle.std.specs.Option.{option_map};
    ghost use Rattle.bound_calc.specs.Propagation.{costs_on};

    /// The ways with these indices into these matrices. A word beyond the indices has none, nor has
    /// one whose index is beyond the matrices.
    pub fn new(indices: &'a [Option<usize>], costs: &'a [Matrix]) -> WordCosts<'a>
        ensures { result ≡ record { indices = indices.now; costs = costs.now } }
    {
        WordCosts { indices, costs }
    }

    /// The matrix of the word at an index.
    pub fn at(&self, word: usize) -> Option<&Matrix>
        ensures { option_map (λ m. m.now) result ≡ costs_on self.now word }
    {
        if word >= self.indices.len() {
            return None;
        }
        let Some(index) = self.indices[word] else {
            return None;
        };
        if index < self.costs.len() {
            Some(&self.costs[index])
        } else {
            None
        }
    }
}
