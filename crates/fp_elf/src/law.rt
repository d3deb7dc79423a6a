//! The theorem of an executable's image.

ghost use Rattle.fp_elf.specs.Law.{ReadsBack};

/// Reading the file of an executable's image, for scratchpads of 65,536 bytes, returns that image.
/// The contract states the theorem; the call does nothing.
pub fn reads_back()
    ensures { ReadsBack }
{}
