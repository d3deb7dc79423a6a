//! The kind of a scratchpad's region for the thread.

/// The kind of a scratchpad's region for the thread, with the cases of the definition of that name.
#[derive(Clone, Copy, Debug, PartialEq, Eq)]
pub enum RegionKind {
    /// The thread owns it: it may fetch, load and store there.
    Mine,
    /// Every thread may fetch and load there.
    ReadOnly,
    /// Every thread may store there; a confined thread may neither fetch nor load there.
    Shared,
    /// It is another thread's.
    Foreign,
}

impl RegionKind {
    ghost use Rattle.std.specs.Prelude.{◌≡◌, ◌≤◌};
    ghost use Rattle.region_guard.specs.Regions.{is_readable};
    ghost use Rattle.solo_run.specs.RegionKinds.{abstract_kind, kind_of_number};

    /// Its number in a view, 0 to 3.
    pub fn number(self) -> u8
        ensures number { kind_of_number result ≡ abstract_kind self }
        ensures small { result ≤ 3 }
    {
        match self {
            RegionKind::Mine => 0,
            RegionKind::ReadOnly => 1,
            RegionKind::Shared => 2,
            RegionKind::Foreign => 3,
        }
    }

    /// Whether the thread may fetch and load there.
    pub fn is_readable(self) -> bool
        ensures { result ≡ is_readable (abstract_kind self) }
    {
        matches!(self, RegionKind::Mine | RegionKind::ReadOnly)
    }
}
