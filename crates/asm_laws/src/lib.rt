//! A theorem on the assembler in a listing's words: which word stands at which address, what a
//! label is, and what the segments are. The contract states it; the call does nothing.

#![tactic(auto)]

ghost use Rattle.asm_laws.specs.Laws.{AssemblesListing};

/// The image of an accepted source is what its listing says. Each word of a statement stands at the
/// address of its line, and no other word is in the image. A label is the address of what follows
/// it. The segments are the maximal runs of placed words.
#[tactic(auto, using(crate::proofs::Law::assembled_listing))]
pub fn assembles_the_listing()
    ensures { AssemblesListing }
{}
