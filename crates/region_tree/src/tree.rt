//! A section with its words and the loops that count in it.

ghost use Rattle.std.specs.Prelude.{◌≡◌};

use crate::draft::Draft;
use crate::reach::reachable;
use crate::refusals::check;
use crate::section::Section;
use fp_image::Image;
use fp_setup::{LoopSetup, Loops};
use std::alloc::{AllocError, Global};
use std::marker::Model;
use thiserror::Error;

/// Why a section with loops has no bound, in the order in which the causes count.
#[derive(Clone, Copy, Debug, PartialEq, Eq, Error)]
pub enum TreeNo {
    /// Loops overlap, are nested too deep, or are entered past their head; the head of such a loop.
    #[error("loops are nested badly at {address:#010x}")]
    Nesting { address: u32 },
    /// A reachable word jumps to an address out of a register; the word's address.
    #[error("an indirect jump at {address:#010x}")]
    IndirectJump { address: u32 },
    /// A reachable word waits for a moment; the word's address.
    #[error("a timed wait at {address:#010x}")]
    TimedWait { address: u32 },
    /// A reachable word leads back to a word that is no head of a counting loop around it; the
    /// word's address.
    #[error("a back edge without a bound at {address:#010x}")]
    UnboundedBackEdge { address: u32 },
    /// Out of memory.
    #[error("out of memory")]
    NoMemory,
}

impl From<AllocError> for TreeNo {
    ghost use Rattle.std.specs.Prelude.{◌≡◌};
    ghost use Rattle.region_tree.specs.declared.tree.TreeNo.TheVariants.{NoMemory};

    ghost from_gives = { λ _ no. no ≡ NoMemory };

    fn from(_error: AllocError) -> TreeNo {
        TreeNo::NoMemory
    }
}

/// A section of code that has a bound: its words, and the loops of a setup that count in it.
#[derive(Drop)]
pub struct LoopTree {
    draft: Draft,
    met: Vec<bool>,
}

impl Model for LoopTree {
    ghost use Rattle.region_tree.specs.Search.{IsMet};
    ghost use Rattle.region_tree.specs.Tree.{Tree, IsTree};

    ghost Value = { Tree };

    ghost view = { λ t. t.draft };

    ghost invariant = { λ t. IsTree t.draft × IsMet t.draft t.met.items };
}

impl LoopTree {
    ghost use Rattle.std.specs.Prelude.{◌≡◌, ◌≤◌, ◌<◌, ◌%◌, ◌+◌, ◌*◌, ◌↔◌};
    ghost use Rattle.std.specs.Prelude.{length, IfOk, IfErr, OnOk, IsTrue};
    ghost use Rattle.fp_image.specs.Rules.{word};
    ghost use Rattle.region_tree.specs.Graph.{Reachable};
    ghost use Rattle.region_tree.specs.Refusals.{IsAllowed, IsRefused};
    ghost use Rattle.region_tree.specs.Tree.{IsSection, IsTree, graph, tree_of, tree_with, word_at};

    /// The tree of a section of an image and of the loops that count in it: the listed loops with
    /// head and last word in the section. The section isn't empty, its ends are multiples of four,
    /// and it ends at most at 65,536.
    ///
    /// # Errors
    ///
    /// [`TreeNo`] exactly if the section has no bound: the first of its causes that holds anywhere,
    /// with the lowest address at which it holds. Or out of memory.
    pub fn build(
        alloc: Global,
        image: &Image,
        section: Section,
        loops: &Loops,
    ) -> Result<LoopTree, TreeNo>
        requires { IsSection section }
        ensures tree { IfOk result (λ tree. tree ≡ tree_of (word image.now) section loops.now) }
        ensures allowed { OnOk result
            (IsAllowed (graph (tree_of (word image.now) section loops.now))) }
        ensures rules { IfOk result IsTree }
        ensures refused { IfErr result
            (IsRefused (graph (tree_of (word image.now) section loops.now))) }
    {
        LoopTree::of_draft(alloc, Draft::new(alloc, image, section, loops)?)
    }

    /// The tree of a section with these words, as many as the section has, and of the loops that
    /// count in it.
    ///
    /// # Errors
    ///
    /// As of [`LoopTree::build`].
    pub fn from_words(
        alloc: Global,
        section: Section,
        words: Vec<u32>,
        loops: &Loops,
    ) -> Result<LoopTree, TreeNo>
        requires section { IsSection section }
        requires count { section.to ≡ section.from + 4 * length words.items }
        ensures tree { IfOk result (λ tree. tree ≡ tree_with section words.items loops.now) }
        ensures allowed { OnOk result
            (IsAllowed (graph (tree_with section words.items loops.now))) }
        ensures rules { IfOk result IsTree }
        ensures refused { IfErr result
            (IsRefused (graph (tree_with section words.items loops.now))) }
    {
        LoopTree::of_draft(alloc, Draft::from_words(alloc, section, words, loops)?)
    }

    /// The tree of a draft that has a bound.
    fn of_draft(alloc: Global, draft: Draft) -> Result<LoopTree, TreeNo>
        ensures tree { IfOk result (λ tree. tree ≡ draft) }
        ensures allowed { OnOk result (IsAllowed (graph draft)) }
        ensures rules { IfOk result IsTree }
        ensures refused { IfErr result (IsRefused (graph draft)) }
    {
        let met = reachable(alloc, &draft)?;
        check(&draft, met.as_slice())?;
        Ok(LoopTree { draft, met })
    }

    /// The section.
    pub fn section(&self) -> Section
        ensures value { result ≡ self.now.section }
        ensures rules { IsTree self.now }
    {
        self.draft.section()
    }

    /// The word at `address`, a multiple of four in the section.
    pub fn word(&self, address: u32) -> u32
        requires aligned { address % 4 ≡ 0 }
        requires low { self.now.section.from ≤ address }
        requires high { address < self.now.section.to }
        ensures { result ≡ word_at self.now address }
    {
        self.draft.word(address)
    }

    /// The loops of the setup that count in the section, in the order in which they were listed.
    pub fn loops(&self) -> &[LoopSetup]
        ensures { result.now ≡ self.now.loops }
    {
        self.draft.loops()
    }

    /// Whether edges inside the section lead to the word at `address`, a multiple of four in the
    /// section, from its first word.
    pub fn is_reachable(&self, address: u32) -> bool
        requires aligned { address % 4 ≡ 0 }
        requires low { self.now.section.from ≤ address }
        requires high { address < self.now.section.to }
        ensures { IsTrue result ↔ Reachable (graph self.now) address }
    {
        let section = self.draft.section();
        self.met[((address - section.from) / 4) as usize]
    }
}
