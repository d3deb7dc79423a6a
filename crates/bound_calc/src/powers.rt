//! Powers of matrices.

ghost use Rattle.std.specs.Prelude.{◌≡◌, ℕ, ◌<◌, ◌≤◌};
ghost use Rattle.region_tree.specs.Walk.{IsOwn};
ghost use Rattle.bound_calc.specs.Best.{In, IsBest, Power};
ghost use Rattle.bound_calc.specs.Matrices.{entry};

use crate::matrix::Matrix;
use crate::steps::Steps;

/// A matrix chained with itself so many times, by squaring. Sums saturate at 2^128 - 1.
pub fn power(steps: &Steps, base: &Matrix, times: u32) -> Matrix
    requires lands { (p c q : ℕ) → In (entry base.now) p c q → IsOwn steps.now q }
    ensures { IsBest (entry result) (Power (IsOwn steps.now) (In (entry base.now)) times) }
{
    if times == 0 {
        return *steps.one();
    }
    let half = power(steps, base, times / 2);
    let square = half.chain(&half);
    if times % 2 == 0 {
        return square;
    }
    square.chain(base)
}
