//! Steps from one turn of a thread to another.

ghost use Rattle.std.specs.Prelude.{◌≡◌, ℕ, ◌<◌, ◌≤◌, ◌^◌, Some};
ghost use Rattle.bound_calc.specs.Hops.{Hops, hop_chain};

/// A step to a later turn of the thread: the cycles until then, and the turn's frame position.
#[derive(Clone, Copy)]
pub struct Hop {
    /// The number of cycles until that turn.
    pub cost: u64,
    /// That turn's position in the frame, 0 to 7.
    pub position: usize,
}

/// A step, followed by the step of a row from its end.
fn follow(first: Option<Hop>, row: &HopRow) -> Option<Hop>
    requires position { (h : _) → first ≡ Some h → h.position < 8 }
    requires short { (h : _) → first ≡ Some h → h.cost ≤ 2 ^ 32 }
    requires short_row { (p d q : ℕ) → Hops row.now.hops p d q → d ≤ 2 ^ 32 }
    ensures { result ≡ hop_chain first row.now.hops }
{
    let first = first?;
    let second = row.hops[first.position]?;
    Some(Hop {
        cost: first.cost + second.cost,
        position: second.position,
    })
}

/// For each frame position of the thread the step from there.
#[derive(Clone, Copy)]
pub struct HopRow {
    /// By the position; `None` where the position isn't the thread's or doesn't occur.
    pub hops: [Option<Hop>; 8],
}

impl HopRow {
    ghost use Rattle.std.specs.Prelude.{◌≡◌, ℕ, ◌<◌, ◌≤◌, ◌^◌, None, length, slice_index_or};
    ghost use Rattle.bound_calc.specs.Hops.{Hops, hop_chain};

    /// No steps.
    pub const NONE: HopRow = HopRow { hops: [None; 8] };

    /// From each position a step, followed by the step of another row from its end.
    pub fn then(&self, row: &HopRow) -> HopRow
        requires positions { (p d q : ℕ) → Hops self.now.hops p d q → q < 8 }
        requires short { (p d q : ℕ) → Hops self.now.hops p d q → d ≤ 2 ^ 32 }
        requires short_row { (p d q : ℕ) → Hops row.now.hops p d q → d ≤ 2 ^ 32 }
        ensures each { (p : ℕ) → p < 8 → slice_index_or result.hops p None ≡
            hop_chain (slice_index_or self.now.hops p None) row.now.hops }
        ensures long { (length self.now.hops ≡ 8) × (length result.hops ≡ 8) }
    {
        let mut hops = [None; 8];
        for p in 0..8 {
            hops[p] = follow(self.hops[p], row);
        }
        HopRow { hops }
    }
}
