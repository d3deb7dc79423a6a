//! The assembler turns each text back into its word.

ghost use Rattle.rv_disasm.specs.RoundTrip.{TakesOneWord, AssemblesBack};

/// The text of each word, assembled at the word's address, is a statement of one word without a
/// label, and makes that word. The contract states the theorem; the call does nothing.
pub fn texts_assemble_back()
    ensures one { TakesOneWord }
    ensures back { AssemblesBack }
{}
