//! The answers of a tree of sections.

ghost use Rattle.std.specs.Prelude.{◌<◌, ◌≤◌};

use fp_image::{Image, read_image};
use fp_setup::{LoopSetup, Loops};
use region_tree::{LoopTree, Section};
use std::alloc::Global;
use test_text::RowText;

// addi x5, x5, -1; bne x5, x0, 0; j 16; ret; nop
const FILE: &[u8] = b"FPX1\x01\0\0\0\0\0\0\0\x14\0\0\0\
    \x93\x82\xf2\xff\xe3\x9e\x02\xfe\x6f\0\x80\0\x67\x80\0\0\x13\0\0\0";

const ROUND: LoopSetup = LoopSetup {
    head: 0,
    last: 4,
    limit: 9,
};

const OUTSIDE: LoopSetup = LoopSetup {
    head: 16,
    last: 20,
    limit: 1,
};

const SECTION: Section = Section { from: 0, to: 20 };

/// The content of the tree of the whole file.
pub fn push_answer(text: &mut RowText, alloc: Global) {
    match read_image(alloc, FILE, 16_384) {
        Ok(image) => push_built(text, alloc, &image),
        Err(_) => text.push_str("no image"),
    }
}

/// The content of the tree of an image's section.
fn push_built(text: &mut RowText, alloc: Global, image: &Image) {
    let Ok(loops) = vec![in alloc; OUTSIDE, ROUND] else {
        return text.refuse();
    };
    match LoopTree::build(alloc, image, SECTION, &Loops::from_vec(loops)) {
        Ok(tree) => push_tree(text, &tree),
        Err(_) => text.push_str("no tree"),
    }
}

/// A tree's ends, how many loops it has, the word at 8, and whether 12 and 16 are reachable.
fn push_tree(text: &mut RowText, tree: &LoopTree)
    requires from { tree.now.section.from ≤ 8 }
    requires to { 16 < tree.now.section.to }
{
    let (section, count, word) = (tree.section(), tree.loops().len(), tree.word(8));
    let (behind, target) = (tree.is_reachable(12), tree.is_reachable(16));
    write!(text, "{section:?} {count} {word:x} {behind} {target}")
}
