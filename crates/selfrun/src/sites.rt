//! The part of a line for an instruction: its pc and its word.

ghost use Rattle.std.specs.Prelude.{◌≡◌};
ghost use Rattle.selfrun.specs.Folds.{IsSite};

use crate::hex_pairs::HexPairs;
use crate::piece::Piece;
use std::marker::Model;

/// The number of words of a thread's own program.
const WORDS: usize = 128;

/// The number of sites cached for eight threads.
const ENTRIES: usize = 8 * WORDS;

/// A pc and the word that an event showed there.
#[derive(Clone, Copy, Debug)]
struct Site {
    pc: u32,
    word: u32,
    /// Both in hexadecimal digits, each followed by a space.
    piece: Piece,
}

/// The site of a pc and a word.
fn site_of(pairs: &HexPairs, pc: u32, word: u32) -> Site
    ensures is { IsSite result }
    ensures pc { result.pc ≡ pc }
    ensures word { result.word ≡ word }
{
    let prefix = pairs.word(pc).then(b' ');
    let back = pairs.word(word).then(b' ');
    Site {
        pc,
        word,
        piece: prefix.and(back),
    }
}

/// A cache of the sites of the last events. A thread has as many entries as its own program has
/// words, so that nearly every event hits. Contracts don't depend on it.
///
/// Most lines have 42 bytes, and 18 of them are the pc and the word, which recur in a loop.
#[derive(Drop)]
pub struct Sites {
    kept: [Site; ENTRIES],
}

impl Model for Sites {
    ghost use Rattle.selfrun.specs.Folds.{AreSites};

    ghost Value = { Unit {0} };

    ghost view = { λ s. tt };

    ghost invariant = { λ s. AreSites s.kept };
}

impl Sites {
    ghost use Rattle.std.specs.Prelude.{◌≡◌, ◌<◌};
    ghost use Rattle.selfrun.specs.Folds.{site_text};
    ghost use Rattle.selfrun.specs.Text.{fold_of};

    /// A cache with the site of the word 0 at the pc 0 in each entry.
    pub fn new(pairs: &HexPairs) -> Sites {
        Sites {
            kept: [site_of(pairs, 0, 0); ENTRIES],
        }
    }

    /// A hash with a thread's pc and word appended, each followed by a space.
    #[inline(always)]
    pub fn fold(&mut self, h: u32, pairs: &HexPairs, thread: u8, pc: u32, word: u32) -> u32
        requires { thread < 8 }
        ensures { result ≡ fold_of h (site_text pc word) }
    {
        let index = usize::from(thread) * WORDS + (pc / 4) as usize % WORDS;
        let site = &self.kept[index];
        if site.pc != pc || site.word != word {
            return self.fold_other(h, pairs, index, pc, word);
        }
        site.piece.after(h)
    }

    /// A hash with a pc and a word appended, each followed by a space. They are cached in an entry
    /// from then on.
    #[cold]
    #[inline(never)]
    fn fold_other(&mut self, h: u32, pairs: &HexPairs, index: usize, pc: u32, word: u32) -> u32
        requires { index < 1024 }
        ensures { result ≡ fold_of h (site_text pc word) }
    {
        let site = site_of(pairs, pc, word);
        self.kept[index] = site;
        site.piece.after(h)
    }
}
