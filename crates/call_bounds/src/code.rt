//! A section with the routines that it may call, and its words.

ghost use Rattle.std.specs.Prelude.{◌≡◌, ◌==◌, position, IfOk};
ghost use Rattle.rv_decode.specs.Table.{ins};
ghost use Rattle.region_guard.specs.MemoryMap.{large_size};
ghost use Rattle.fp_setup.specs.Loops.{AreLoops};
ghost use Rattle.call_bounds.specs.Routines.{AreRoutines};
ghost use Rattle.call_bounds.specs.Calls.{link_target};

use crate::routines::{Routine, Routines};
use fp_image::Image;
use fp_setup::{LoopSetup, Loops};
use region_guard::LARGE_SIZE;
use region_tree::{Draft, LoopTree, Section, TreeNo, edges_of, words};
use rv_decode::{Ins, decode};
use std::alloc::{AllocError, Global};
use std::marker::Model;

/// The largest scratchpad, as a section.
const SCRATCHPAD: Section = Section {
    from: 0,
    to: LARGE_SIZE,
};

/// The return instruction: a jump to the address in x1.
const RETURN: u32 = 0x0000_8067;

/// A word that goes on to the next one with the lag of a jump: a read of the cycle counter.
const LEADS_ON: u32 = 0xc000_2073;

/// A word without a successor: ECALL.
const LEADS_NOWHERE: u32 = 0x0000_0073;

/// A section, the routines that it may call, the words of memory, and the listed loops.
#[derive(Drop)]
pub struct Code {
    section: Section,
    routines: Routines,
    words: Vec<u32>,
    loops: Loops,
}

impl Model for Code {
    ghost use Rattle.call_bounds.specs.Listing.{IsCode, Listing};

    ghost Value = { Listing };

    ghost view = { λ c. record {
      section = c.section;
      routines = c.routines;
      words = c.words.items;
      loops = c.loops;
    } };

    ghost invariant = { λ c. IsCode (record {
      section = c.section;
      routines = c.routines;
      words = c.words.items;
      loops = c.loops;
    }) };
}

/// The target of the word at an address, if it is a JAL that writes the address after it to x1.
fn linked(address: u32, word: u32) -> Option<u32>
    ensures { result ≡ link_target address (ins word) }
{
    match decode(word) {
        Ins::Jal { rd, .. } => {
            if rd == 1 {
                edges_of(word, address).jump
            } else {
                None
            }
        }
        _ => None,
    }
}

/// The index of the first routine with this head.
fn index_of(routines: &[Routine], head: u32) -> Option<usize>
    ensures { result ≡ position (λ r. r.head == head) routines.now }
{
    routines.iter().position(|r| r.head == head)
}

/// A copy of a list of routines.
fn copied_routines(alloc: Global, routines: &Routines) -> Result<Routines, AllocError>
    ensures same { IfOk result (λ copy. copy ≡ routines.now) }
    ensures rules { IfOk result AreRoutines }
{
    Ok(Routines::from_vec(routines.as_slice().to_vec(alloc)?))
}

/// A copy of a list of loops.
fn copied_loops(alloc: Global, loops: &Loops) -> Result<Loops, AllocError>
    ensures same { IfOk result (λ copy. copy ≡ loops.now) }
    ensures rules { IfOk result AreLoops }
{
    Ok(Loops::from_vec(loops.as_slice().to_vec(alloc)?))
}

impl Code {
    ghost use Rattle.std.specs.Prelude.{◌≡◌, ℕ, ◌+◌, ◌*◌, ◌/◌, ◌<◌, ◌≤◌};
    ghost use Rattle.std.specs.Prelude.{◌%◌, length, IfOk, IfErr, OnOk};
    ghost use Rattle.fp_image.specs.Rules.{word};
    ghost use Rattle.region_tree.specs.Refusals.{IsAllowed, IsRefused};
    ghost use Rattle.region_tree.specs.Tree.{IsSection, graph};
    ghost use Rattle.fp_setup.specs.Loops.{AreLoops};
    ghost use Rattle.call_bounds.specs.Routines.{AreRoutines};
    ghost use Rattle.call_bounds.specs.CallRefusals.{IsListing};
    ghost use Rattle.call_bounds.specs.Calls.{returns};
    ghost use Rattle.call_bounds.specs.Listing.{calls, listing_of, function_at, function_count};
    ghost use Rattle.call_bounds.specs.Functions.{IsCallee, range_of_function, tree_of_function};
    ghost use Rattle.call_bounds.specs.Functions.{words_of_function};
    ghost use Rattle.call_bounds.specs.Patched.{patched_word};

    /// A section of an image with its routines and loops.
    ///
    /// # Errors
    ///
    /// Memory ran out.
    pub fn new(
        alloc: Global,
        image: &Image,
        section: Section,
        routines: &Routines,
        loops: &Loops,
    ) -> Result<Code, AllocError>
        requires { IsSection section }
        ensures value { IfOk result
            (λ code. code ≡ listing_of (word image.now) section routines.now loops.now) }
        ensures rules { IfOk result (λ code. IsListing (calls code)) }
    {
        let words = words(alloc, image, SCRATCHPAD)?;
        let routines = copied_routines(alloc, routines)?;
        let loops = copied_loops(alloc, loops)?;
        Ok(Code {
            section,
            routines,
            words,
            loops,
        })
    }

    /// The section.
    pub fn section(&self) -> Section
        ensures value { result ≡ self.now.section }
        ensures rules { IsSection result }
    {
        self.section
    }

    /// The listed routines.
    pub fn routines(&self) -> &[Routine]
        ensures value { result.now ≡ self.now.routines }
        ensures rules { AreRoutines result.now }
    {
        self.routines.as_slice()
    }

    /// The listed loops.
    pub fn loops(&self) -> &[LoopSetup]
        ensures value { result.now ≡ self.now.loops }
        ensures rules { AreLoops result.now }
    {
        self.loops.as_slice()
    }

    /// The number of functions: the section and the routines.
    pub fn function_count(&self) -> usize
        ensures value { result ≡ function_count self.now }
        ensures few { result ≤ 65 }
        ensures rules { IsListing (calls self.now) }
    {
        let _section = &self.section;
        self.routines().len() + 1
    }

    /// The addresses of a function, as a section.
    pub fn range(&self, function: usize) -> Section
        requires { function < function_count self.now }
        ensures value { result ≡ range_of_function self.now function }
        ensures rules { IsSection result }
    {
        if function == 0 {
            return self.section;
        }
        let routine = self.routines()[function - 1];
        Section {
            from: routine.head,
            to: routine.last + 4,
        }
    }

    /// The word at an address, a multiple of four below 65,536.
    pub fn word(&self, address: u32) -> u32
        requires { address < large_size }
        ensures { result ≡ (calls self.now).word address }
    {
        self.words[(address / 4) as usize]
    }

    /// The number of the function that the word at an address calls, if it is a call.
    pub fn called(&self, address: u32) -> Option<usize>
        requires { address < large_size }
        ensures { IsCallee self.now address result }
    {
        let head = linked(address, self.word(address))?;
        let index = index_of(self.routines(), head)?;
        Some(index + 1)
    }

    /// Whether the word at an address of a function is a return.
    pub fn is_return(&self, function: usize, address: u32) -> bool
        requires function { function < function_count self.now }
        requires address { address < large_size }
        ensures { result ≡ returns (calls self.now) (function_at self.now function) address }
    {
        function != 0 && self.word(address) == RETURN
    }

    /// The word at an address of a function. `LEADS_ON` replaces a call, and `LEADS_NOWHERE` a
    /// return.
    fn patched(&self, function: usize, address: u32) -> u32
        requires function { function < function_count self.now }
        requires address { address < large_size }
        ensures { result ≡ patched_word (calls self.now) (function_at self.now function) address }
    {
        if self.called(address).is_some() {
            return LEADS_ON;
        }
        if self.is_return(function, address) {
            return LEADS_NOWHERE;
        }
        self.word(address)
    }

    /// The words of a function, with its calls and returns replaced.
    #[tactic(auto, unfolding(region_tree::specs::Tree::section_words))]
    fn function_words(&self, alloc: Global, function: usize) -> Result<Vec<u32>, AllocError>
        requires { function < function_count self.now }
        ensures { IfOk result (λ words. words.items ≡ words_of_function self.now function) }
    {
        let section = self.range(function);
        let mut words = Vec::new(alloc);
        for index in 0..(section.to - section.from) / 4 {
            words.push(self.patched(function, section.from + 4 * index))?;
        }
        Ok(words)
    }

    /// A function as a section of its own.
    ///
    /// # Errors
    ///
    /// Memory ran out.
    pub fn draft(&self, alloc: Global, function: usize) -> Result<Draft, AllocError>
        requires { function < function_count self.now }
        ensures { IfOk result (λ draft. draft ≡ tree_of_function self.now function) }
    {
        let section = self.range(function);
        let words = self.function_words(alloc, function)?;
        Draft::from_words(alloc, section, words, &self.loops)
    }

    /// The tree of a function.
    ///
    /// # Errors
    ///
    /// The function's first refusal as a section of its own, with its address; or memory ran out.
    pub fn tree(&self, alloc: Global, function: usize) -> Result<LoopTree, TreeNo>
        requires { function < function_count self.now }
        ensures tree { IfOk result (λ tree. tree ≡ tree_of_function self.now function) }
        ensures allowed { OnOk result (IsAllowed (graph (tree_of_function self.now function))) }
        ensures refused { IfErr result (IsRefused (graph (tree_of_function self.now function))) }
        ensures section { IsSection (range_of_function self.now function) }
    {
        let section = self.range(function);
        let words = self.function_words(alloc, function)?;
        LoopTree::from_words(alloc, section, words, &self.loops)
    }
}
