//! Matrices advanced by a step.

ghost use Rattle.std.specs.Prelude.{◌≡◌, ℕ, ◌+◌, ◌<◌, ◌≤◌, min, ◌⊎◌, max, List};
ghost use Rattle.std.specs.Prelude.{[], length, Option, Some, None, slice_index_or};
ghost use Rattle.bound_calc.specs.Best.{Either, In, IsBest, Then, ceiling};
ghost use Rattle.bound_calc.specs.Hops.{Hops, IsFarthest, IsLargest, IsLeft, raised};
ghost use Rattle.bound_calc.specs.Matrices.{cell, entry};
ghost use Rattle.bound_calc.specs.Tops.{IsTop};

use crate::hop::{Hop, HopRow};
use crate::matrix::{Matrix, take_in};

/// The greater of two costs, in cycles.
fn greater(a: u128, b: u128) -> u128
    ensures { result ≡ max a b }
{
    if a < b { b } else { a }
}

/// Joins into a row a sum advanced by a step.
fn join_step(row: &mut [Option<u128>; 8], sum: Option<u128>, hop: Hop)
    requires { hop.position < 8 }
    ensures raised { row.new ≡ raised sum (Some hop) row.old }
    ensures long { length row.old ≡ 8 }
{
    let Some(sum) = sum else {
        return;
    };
    take_in(
        &mut row[hop.position],
        Some(sum.saturating_add(u128::from(hop.cost))),
    );
}

/// Joins into a matrix the sums of a column of another, each advanced by the step from there.
fn join_advanced_column(here: &Matrix, column: usize, hop: Option<Hop>, onto: &mut Matrix)
    requires column { column < 8 }
    requires position { (h : _) → hop ≡ Some h → h.position < 8 }
    ensures raised { (p : ℕ) → p < 8 → slice_index_or onto.new.best p [] ≡
        raised (cell here.now p column) hop (slice_index_or onto.old.best p []) }
    ensures long { (h : _) → hop ≡ Some h → (p : ℕ) → p < 8 →
        length (slice_index_or onto.old.best p []) ≡ 8 }
{
    let Some(hop) = hop else {
        return;
    };
    for p in 0..8 {
        join_step(&mut onto.best[p], here.best[p][column], hop);
    }
}

/// Joins into a matrix another that is advanced by a step. It works in place, without a copy of the
/// matrix. It works by columns, since all sums of a column have the same step.
pub fn join_advanced(here: &Matrix, hops: &HopRow, onto: &mut Matrix)
    requires positions { (p d q : ℕ) → Hops hops.now.hops p d q → (p < 8) × (q < 8) }
    ensures { IsBest (entry onto.new)
        (Either (In (entry onto.old)) (Then (In (entry here.now)) (Hops hops.now.hops))) }
{
    for r in 0..8 {
        join_advanced_column(here, r, hops.hops[r], onto);
    }
}

/// The larger of a number and a sum advanced by a step.
fn larger_advanced(sum: Option<u128>, hop: Option<Hop>, most: u128) -> u128
    ensures stays { most ≤ result }
    ensures upper { (x : ℕ) → (h : _) → sum ≡ Some x → hop ≡ Some h →
        min (x + h.cost) ceiling ≤ result }
    ensures met { (result ≡ most)
        ⊎ ((x : ℕ) × (h : _) × (sum ≡ Some x) × (hop ≡ Some h) ×
        (result ≡ min (x + h.cost) ceiling)) }
{
    let Some(sum) = sum else {
        return most;
    };
    let Some(hop) = hop else {
        return most;
    };
    greater(most, sum.saturating_add(u128::from(hop.cost)))
}

/// The largest cost, in cycles, of one of a row's paths and the edge behind it.
fn largest_advanced_row(row: &[Option<u128>; 8], hops: &HopRow, most: u128) -> u128
    ensures { IsFarthest row.now hops.now.hops 8 most result }
{
    let mut farthest = most;
    for r in 0..8 {
        farthest = larger_advanced(row[r], hops.hops[r], farthest);
    }
    farthest
}

/// The largest of a number and the sums of a matrix, each advanced by a step.
pub fn largest_advanced(here: &Matrix, hops: &HopRow, most: u128) -> u128
    requires positions { (p d q : ℕ) → Hops hops.now.hops p d q → (p < 8) × (q < 8) }
    ensures { IsLeft here.now hops.now.hops most result }
{
    let mut farthest = most;
    for p in 0..8 {
        farthest = largest_advanced_row(&here.best[p], hops, farthest);
    }
    farthest
}

/// The largest cost of a row, in cycles, or `most` if that is larger.
fn largest_row(row: &[Option<u128>; 8], most: u128) -> u128
    ensures stays { most ≤ result }
    ensures upper { (q d : ℕ) → q < 8 → slice_index_or row.now q None ≡ Some d
        → d ≤ result }
    ensures met { (result ≡ most) ⊎
        ((q : ℕ) × (q < 8) × (slice_index_or row.now q None ≡ Some result)) }
{
    let mut largest = most;
    for q in 0..8 {
        if let Some(sum) = row[q] {
            if sum > largest {
                largest = sum;
            }
        }
    }
    largest
}

/// The largest of a number and the sums of a matrix, in cycles.
pub fn largest(here: &Matrix, most: u128) -> u128
    ensures { IsLargest here.now most result }
{
    let mut largest = most;
    for p in 0..8 {
        largest = largest_row(&here.best[p], largest);
    }
    largest
}

/// The larger of a number and the sum of a cost, if there is one, and the cost onward.
fn larger_on(cost: Option<u128>, onward: u128, most: u128) -> u128
    ensures stays { most ≤ result }
    ensures upper { (x : ℕ) → cost ≡ Some x → min (x + onward) ceiling ≤ result }
    ensures met { (result ≡ most) ⊎
        ((x : ℕ) × (cost ≡ Some x) × (result ≡ min (x + onward) ceiling)) }
{
    match cost {
        None => most,
        Some(cost) => greater(most, cost.saturating_add(onward)),
    }
}

/// The largest of a number and the sums of a column of a matrix, each with the cost onward.
fn largest_column_on(here: &Matrix, column: usize, onward: u128, most: u128) -> u128
    requires column { column < 8 }
    ensures stays { most ≤ result }
    ensures upper { (p x : ℕ) → p < 8 → cell here.now p column ≡ Some x →
        min (x + onward) ceiling ≤ result }
    ensures met { (result ≡ most) ⊎ ((p : ℕ) × (x : ℕ) × (p < 8) ×
        (cell here.now p column ≡ Some x) × (result ≡ min (x + onward) ceiling)) }
{
    let mut largest = most;
    for p in 0..8 {
        largest = larger_on(here.best[p][column], onward, largest);
    }
    largest
}

/// The largest of a number, the sums of a matrix, and the sums of the matrix chained with another,
/// in cycles. Of the other it uses the largest sum of each row, or 0 for a row without sums.
pub fn largest_through(here: &Matrix, into: &Matrix, most: u128) -> u128
    ensures { IsTop
        (Either (In (entry here.now)) (Then (In (entry here.now)) (In (entry into.now))))
        most result }
{
    let mut largest = most;
    for r in 0..8 {
        let onward = largest_row(&into.best[r], 0);
        largest = largest_column_on(here, r, onward, largest);
    }
    largest
}
