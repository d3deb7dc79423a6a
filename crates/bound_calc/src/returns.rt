//! The costs through a routine.

ghost use Rattle.std.specs.Prelude.{◌≡◌, ℕ, ◌≤◌, length};
ghost use Rattle.rv_decode.specs.Lag.{redirect_lag};
ghost use Rattle.bound_calc.specs.Best.{IsBest};
ghost use Rattle.bound_calc.specs.Matrices.{entry};
ghost use Rattle.bound_calc.specs.Propagation.{Ended, EndedHere};
ghost use Rattle.bound_calc.specs.Section.{Steps as StepsAfter};

use crate::advanced::join_advanced;
use crate::matrix::Matrix;
use crate::steps::Steps;
use region_tree::JUMP_LAG;

/// A jump: the steps to the thread's first turns that are at least three cycles later.
pub fn jump(steps: &Steps) -> Matrix
    ensures { IsBest (entry result) (StepsAfter steps.now redirect_lag) }
{
    let mut jumped = Matrix::NONE;
    join_advanced(steps.one(), steps.hops(JUMP_LAG), &mut jumped);
    jumped
}

/// The costs at the words that `ends` marks, and then a jump.
pub fn through(steps: &Steps, at: &[Matrix], ends: &[bool]) -> Matrix
    requires count { length ends.now ≡ length at.now }
    ensures { IsBest (entry result) (Ended steps.now ends.now at.now (length at.now)) }
{
    let mut back = Matrix::NONE;
    for index in 0..at.len() {
        end(steps, ends[index], &at[index], &mut back);
    }
    back
}

/// Joins into `back` the costs at a word after a jump, if the word is an end.
fn end(steps: &Steps, is_end: bool, here: &Matrix, back: &mut Matrix)
    ensures { EndedHere steps.now is_end here.now back.old back.new }
{
    if is_end {
        join_advanced(here, steps.hops(JUMP_LAG), back);
    }
}
