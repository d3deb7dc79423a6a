//! The edges of a word of code.

ghost use Rattle.std.specs.Prelude.{◌≡◌, ℤ};
ghost use Rattle.region_tree.specs.Edges.{aligned_target, edges_from, edges_of};
ghost use Rattle.region_tree.specs.Edges.{offset, next_edge, no_edges};

use rv_decode::{Ins, LATE_LAG, PLAIN_LAG, REDIRECT_LAG, decode};

/// The reason why a word's successor isn't known.
#[derive(Clone, Copy, Debug, PartialEq, Eq)]
pub enum Stop {
    /// The successor is known, or there is none.
    No,
    /// The word jumps to an address out of a register.
    Indirect,
    /// The word waits for a moment.
    Timed,
}

/// The edges of a word: to the next word, and to a jump's target. A jump has the lag [`JUMP_LAG`].
#[derive(Clone, Copy, Debug)]
pub struct Edges {
    /// The address of the next word, if it is a successor.
    pub next: Option<u32>,
    /// The least number of cycles until the next word issues; 0 if `next` is None.
    pub next_lag: u64,
    /// The target of a branch or a jump, if it is a multiple of four.
    pub jump: Option<u32>,
    /// The reason why the successor isn't known.
    pub stop: Stop,
}

/// The least number of cycles from the issue of a jump to that of its target.
pub const JUMP_LAG: u64 = REDIRECT_LAG;

impl Edges {
    ghost use Rattle.region_tree.specs.Edges.{next_edge, no_edges};

    /// The edge to the next word, after `lag` cycles.
    fn onward(address: u32, lag: u64) -> Edges
        ensures { result ≡ next_edge address lag }
    {
        Edges {
            next: Some(address.wrapping_add(4)),
            next_lag: lag,
            jump: None,
            stop: Stop::No,
        }
    }

    /// No edge: the path ends here, for this reason.
    fn ended(stop: Stop) -> Edges
        ensures { result ≡ no_edges stop }
    {
        Edges {
            next: None,
            next_lag: 0,
            jump: None,
            stop,
        }
    }
}

/// The target at this offset, if it is a multiple of four.
fn target(address: u32, off: i32) -> Option<u32>
    ensures { result ≡ aligned_target (offset address off) }
{
    let target = address.wrapping_add_signed(off);
    if target % 4 == 0 { Some(target) } else { None }
}

/// The edges of an instruction, by its kind.
#[tactic(auto, unfolding(crate::specs::Edges::edges_from))]
fn edges_from(address: u32, instruction: Ins) -> Edges
    ensures { result ≡ edges_from address instruction }
{
    match instruction {
        Ins::Load { .. } | Ins::Muldiv { .. } => Edges::onward(address, LATE_LAG),
        Ins::Csr { .. } | Ins::Ee { .. } | Ins::De => Edges::onward(address, REDIRECT_LAG),
        Ins::Branch { off, .. } => {
            let mut edges = Edges::onward(address, PLAIN_LAG);
            edges.jump = target(address, off);
            edges
        }
        Ins::Jal { off, .. } => {
            let mut edges = Edges::ended(Stop::No);
            edges.jump = target(address, off);
            edges
        }
        Ins::Ecall | Ins::Ebreak | Ins::Illegal { .. } => Edges::ended(Stop::No),
        Ins::Jalr { .. } | Ins::Mret => Edges::ended(Stop::Indirect),
        Ins::Du { .. } | Ins::Wu { .. } => Edges::ended(Stop::Timed),
        _ => Edges::onward(address, PLAIN_LAG),
    }
}

/// The edges of the word `word` at `address`. Addresses wrap modulo 2^32.
#[tactic(auto, unfolding(crate::specs::Edges::edges_of))]
pub fn edges_of(word: u32, address: u32) -> Edges
    ensures { result ≡ edges_of word address }
{
    edges_from(address, decode(word))
}
