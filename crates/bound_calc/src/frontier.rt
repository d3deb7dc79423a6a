//! The frontier of a pass, between two words.

ghost use Rattle.std.specs.Prelude.{◌≡◌, length, IfOk};

use crate::fill::empty;
use crate::hop::HopRow;
use crate::matrix::Matrix;
use std::alloc::{AllocError, Global};

/// The costs that lead from the words already passed to the words ahead. A matrix is kept only
/// while an edge leads on to its word, not for each word of the section.
#[derive(Drop)]
pub struct Frontier {
    /// By index the costs that edges brought to a word ahead.
    pub waiting: Vec<Option<Box<Matrix>>>,
    /// The costs at the word from which the pass goes on.
    pub base: Box<Matrix>,
    /// The steps from there to the next word. Through straight code they are composed: eight steps
    /// a word instead of a matrix.
    pub hops: HopRow,
    /// A box for reuse: a stop allocates only if there is none.
    pub spare: Option<Box<Matrix>>,
}

impl Frontier {
    ghost use Rattle.std.specs.Prelude.{◌≡◌, length, IfOk};

    /// A frontier of `count` words with nothing ahead.
    ///
    /// # Errors
    ///
    /// Memory ran out.
    pub fn new(alloc: Global, count: usize) -> Result<Frontier, AllocError>
        ensures { IfOk result (λ frontier. length frontier.waiting.items ≡ count) }
    {
        Ok(Frontier {
            waiting: empty(alloc, count)?,
            base: Box::new(alloc, Matrix::NONE)?,
            hops: HopRow::NONE,
            spare: None,
        })
    }
}
