//! A section with its words and the loops that count in it.

ghost use Rattle.std.specs.Prelude.{◌≡◌, ℕ, ◌+◌, ◌*◌, ◌<◌, ◌≤◌, ◌%◌, length, filter, IfOk};
ghost use Rattle.fp_image.specs.Rules.{word};
ghost use Rattle.region_tree.specs.Tree.{IsSection, counts, section_words};

use crate::edges::{Edges, edges_of};
use crate::section::Section;
use fp_image::Image;
use fp_setup::{LoopSetup, Loops};
use std::alloc::{AllocError, Global};
use std::marker::Model;

/// A section, its words and the loops that count in it, before the nesting is checked.
#[derive(Drop)]
pub struct Draft {
    section: Section,
    words: Vec<u32>,
    loops: Vec<LoopSetup>,
}

impl Model for Draft {
    ghost use Rattle.region_tree.specs.Tree.{Tree, IsDraft};

    ghost Value = { Tree };

    ghost view = { λ t. record
        { section = t.section; words = t.words.items; loops = t.loops.items } };

    ghost invariant = { λ t. IsDraft
        (record { section = t.section; words = t.words.items; loops = t.loops.items }) };
}

/// The words of an image in a section, by rising addresses; 0 if no segment has the word.
///
/// # Errors
///
/// Out of memory.
#[tactic(auto, unfolding(crate::specs::Tree::section_words))]
pub fn words(alloc: Global, image: &Image, section: Section) -> Result<Vec<u32>, AllocError>
    requires { IsSection section }
    ensures { IfOk result (λ words. words.items ≡ section_words (word image.now) section) }
{
    let mut words = Vec::new(alloc);
    for index in 0..(section.to - section.from) / 4 {
        words.push(image.code_word(section.from + 4 * index))?;
    }
    Ok(words)
}

/// Whether a loop has its head and its last word in a section.
fn counts(section: Section, j: LoopSetup) -> bool
    ensures { result ≡ counts section j }
{
    (section.from <= j.head && j.head < section.to)
        && (section.from <= j.last && j.last < section.to)
}

/// The loops that count in a section.
fn counting(
    alloc: Global,
    section: Section,
    loops: &[LoopSetup],
) -> Result<Vec<LoopSetup>, AllocError>
    ensures { IfOk result (λ counting. counting.items ≡ filter (counts section) loops.now) }
{
    loops
        .iter()
        .copied()
        .filter(|j| counts(section, *j))
        .collect(alloc)
}

impl Draft {
    ghost use Rattle.fp_image.specs.Rules.{word};
    ghost use Rattle.region_tree.specs.Edges.{edges_of};
    ghost use Rattle.region_tree.specs.Search.{address, index_of};
    ghost use Rattle.region_tree.specs.Tree.{IsDraft, IsSection, tree_of, tree_with, word_at};

    /// A section with these words, and with the listed loops that count in it.
    ///
    /// # Errors
    ///
    /// Out of memory.
    pub fn from_words(
        alloc: Global,
        section: Section,
        words: Vec<u32>,
        loops: &Loops,
    ) -> Result<Draft, AllocError>
        requires section { IsSection section }
        requires count { section.to ≡ section.from + 4 * length words.items }
        ensures { IfOk result (λ draft. draft ≡ tree_with section words.items loops.now) }
    {
        let loops = counting(alloc, section, loops.as_slice())?;
        Ok(Draft {
            section,
            words,
            loops,
        })
    }

    /// A section of an image, with the listed loops that count in it.
    ///
    /// # Errors
    ///
    /// Out of memory.
    pub fn new(
        alloc: Global,
        image: &Image,
        section: Section,
        loops: &Loops,
    ) -> Result<Draft, AllocError>
        requires { IsSection section }
        ensures { IfOk result (λ draft. draft ≡ tree_of (word image.now) section loops.now) }
    {
        let words = words(alloc, image, section)?;
        Draft::from_words(alloc, section, words, loops)
    }

    /// The section.
    pub fn section(&self) -> Section
        ensures value { result ≡ self.now.section }
        ensures rules { IsDraft self.now }
    {
        self.section
    }

    /// The number of words of the section.
    pub fn len(&self) -> usize
        ensures value { result ≡ length self.now.words }
        ensures some { 0 < result }
        ensures rules { IsDraft self.now }
    {
        self.words.len()
    }

    /// The word at `address`, a multiple of four in the section.
    pub fn word(&self, address: u32) -> u32
        requires aligned { address % 4 ≡ 0 }
        requires low { self.now.section.from ≤ address }
        requires high { address < self.now.section.to }
        ensures { result ≡ word_at self.now address }
    {
        self.words[((address - self.section.from) / 4) as usize]
    }

    /// The loops that count.
    pub fn loops(&self) -> &[LoopSetup]
        ensures { result.now ≡ self.now.loops }
    {
        self.loops.as_slice()
    }

    /// The address of a word by its index: its distance from the first word, in words.
    pub fn address(&self, index: usize) -> u32
        requires { index < length self.now.words }
        ensures value { result ≡ address self.now index }
        ensures aligned { result % 4 ≡ 0 }
        ensures low { self.now.section.from ≤ result }
        ensures high { result < self.now.section.to }
    {
        self.section.from + 4 * index as u32
    }

    /// The edges of a word by its index.
    pub fn edges(&self, index: usize) -> Edges
        requires { index < length self.now.words }
        ensures { result ≡ edges_of (word_at self.now (address self.now index))
            (address self.now index) }
    {
        let address = self.address(index);
        edges_of(self.word(address), address)
    }

    /// The index of the word at a target, if it is in the section.
    pub fn index_of(&self, target: Option<u32>) -> Option<usize>
        ensures { result ≡ index_of self.now.section target }
    {
        match target {
            Some(to) if self.section.from <= to && to < self.section.to => {
                Some(((to - self.section.from) / 4) as usize)
            }
            _ => None,
        }
    }
}
