//! Matrices of the largest sums between frame positions.

ghost use Rattle.std.specs.Prelude.{◌≡◌, ℕ, ◌+◌, ◌<◌, ◌^◌, Option, Some, None, slice_index_or};
ghost use Rattle.bound_calc.specs.Best.{Either, In, IsBest, Then};
ghost use Rattle.bound_calc.specs.Matrices.{larger_of, sum_of};

/// For each pair of frame positions the largest sum, or none. The row is the position at the start,
/// the column the one at the end.
#[derive(Clone, Copy, Debug)]
pub struct Matrix {
    /// The sums in cycles, by row and column; `None` where there is none.
    pub best: [[Option<u128>; 8]; 8],
}

/// The larger of two sums, where there are any.
#[tactic(auto, unfolding(crate::specs::Matrices::larger_of))]
pub fn larger(a: Option<u128>, b: Option<u128>) -> Option<u128>
    ensures { result ≡ larger_of a b }
{
    match (a, b) {
        (None, _) => b,
        (_, None) => a,
        (Some(x), Some(y)) => Some(x.max(y)),
    }
}

/// The cost of two paths, one behind the other. It saturates.
#[tactic(auto, unfolding(crate::specs::Matrices::sum_of))]
fn sum(a: Option<u128>, b: Option<u128>) -> Option<u128>
    ensures { result ≡ sum_of a b }
{
    match (a, b) {
        (Some(x), Some(y)) => Some(x.saturating_add(y)),
        _ => None,
    }
}

/// Joins a sum, if there is one, into an entry, which then is the larger of both.
///
/// It exists next to [`larger`] because most sums come to an empty entry. It writes such an entry
/// without a comparison. A function that returns the new value would need a choice between two
/// 128-bit numbers: a third of the steps of each sum.
#[tactic(auto, unfolding(crate::specs::Matrices::larger_of))]
pub fn take_in(best: &mut Option<u128>, sum: Option<u128>)
    ensures { best.new ≡ larger_of best.old sum }
{
    let Some(sum) = sum else {
        return;
    };
    match *best {
        None => *best = Some(sum),
        Some(old) if old < sum => *best = Some(sum),
        Some(_) => {}
    }
}

/// Joins into a row the sums of an entry and each entry of another row.
fn take_sums(first: Option<u128>, second: &[Option<u128>; 8], onto: &mut [Option<u128>; 8])
    ensures { (q : ℕ) → q < 8 → slice_index_or onto.new q None ≡
        larger_of (slice_index_or onto.old q None)
        (sum_of first (slice_index_or second.now q None)) }
{
    let Some(first) = first else {
        return;
    };
    for q in 0..8 {
        take_in(&mut onto[q], sum(Some(first), second[q]));
    }
}

/// For each position in the frame, the larger cost of two rows.
fn join_row(a: &[Option<u128>; 8], b: &[Option<u128>; 8]) -> [Option<u128>; 8]
    ensures { (q : ℕ) → q < 8 → slice_index_or result q None ≡
        larger_of (slice_index_or a.now q None) (slice_index_or b.now q None) }
{
    let mut row = [None; 8];
    for q in 0..8 {
        row[q] = larger(a[q], b[q]);
    }
    row
}

impl Matrix {
    ghost use Rattle.std.specs.Prelude.{◌≡◌, ℕ, ◌+◌, ◌<◌, ◌^◌, Option, Some, None, slice_index_or};
    ghost use Rattle.bound_calc.specs.Best.{Either, In, IsBest, Then};
    ghost use Rattle.bound_calc.specs.Matrices.{IsJoin, IsProduct, cell, entry, larger_of, over};

    /// No sum for any pair.
    pub const NONE: Matrix = Matrix {
        best: [[None; 8]; 8],
    };

    /// The larger entry for each pair of positions.
    pub fn join(&self, other: &Matrix) -> Matrix
        ensures larger { IsJoin self.now other.now result }
        ensures best { IsBest (entry result) (Either (In (entry self.now)) (In (entry other.now))) }
    {
        let mut best = [[None; 8]; 8];
        for p in 0..8 {
            best[p] = join_row(&self.best[p], &other.best[p]);
        }
        Matrix { best }
    }

    /// The largest sum over the position between, for each pair of positions.
    pub fn chain(&self, other: &Matrix) -> Matrix
        ensures largest { IsProduct self.now other.now result }
        ensures best { IsBest (entry result) (Then (In (entry self.now)) (In (entry other.now))) }
    {
        let mut best = [[None; 8]; 8];
        for p in 0..8 {
            best[p] = other.chain_row(&self.best[p]);
        }
        Matrix { best }
    }

    /// Joins into the matrix the largest sums of two others over the position between. It works in
    /// place, since a matrix made between chaining and joining is a third of the cost.
    pub fn join_chain(&mut self, first: &Matrix, second: &Matrix)
        ensures { IsBest (entry self.new) (Either (In (entry self.old))
            (Then (In (entry first.now)) (In (entry second.now)))) }
    {
        for p in 0..8 {
            second.take_row(&first.best[p], &mut self.best[p]);
        }
    }

    /// A row chained with the matrix.
    fn chain_row(&self, row: &[Option<u128>; 8]) -> [Option<u128>; 8]
        ensures { (q : ℕ) → q < 8 → slice_index_or result q None ≡
            over 8 (λ r. slice_index_or row.now r None) (λ r. cell self.now r q) }
    {
        let mut out = [None; 8];
        self.take_row(row, &mut out);
        out
    }

    /// Joins into a row the sums of another row chained with the matrix. It iterates over the
    /// entries of that row, not over those of the result, since a row has few. Positions of other
    /// threads have none, and often half of the thread's positions have none.
    fn take_row(&self, row: &[Option<u128>; 8], onto: &mut [Option<u128>; 8])
        ensures { (q : ℕ) → q < 8 → slice_index_or onto.new q None ≡
            larger_of (slice_index_or onto.old q None)
            (over 8 (λ r. slice_index_or row.now r None) (λ r. cell self.now r q)) }
    {
        for r in 0..8 {
            take_sums(row[r], &self.best[r], onto);
        }
    }
}
