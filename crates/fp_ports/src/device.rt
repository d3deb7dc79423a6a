//! The trait of devices at ports.

ghost use Rattle.std.specs.Prelude.{◌≡◌, ℕ, OnOk, OnErr};
ghost use Rattle.fp_ports.specs.PortWords.{SameWords, SameWordsFrom, fed_words};

use std::alloc::AllocError;

/// A device at a hardware thread's port.
///
/// It shows a word in each cycle, and has a latch for the last word that was written to it. Feeding
/// changes the words that it shows from a cycle on; reading and writing don't change them.
pub trait Port: Drop {
    // The word that the device shows in a cycle. Claims on it cover only cycles below 2^64.
    ghost word_at: { Self → ℕ → ℕ };

    // The last word that was written.
    ghost latched: { Self → ℕ };

    /// Makes the device show the word from the cycle `at` on.
    ///
    /// # Errors
    ///
    /// Out of memory; nothing changes then.
    fn feed(&mut self, at: u64, word: u32) -> Result<(), AllocError>
        ensures ok { OnOk result (SameWords (fed_words (word_at self.old) at word)
            (word_at self.new)) }
        ensures err { OnErr result (SameWords (word_at self.old) (word_at self.new)) }
        ensures latch { latched self.new ≡ latched self.old };

    /// The word that the device shows in the cycle `at`.
    fn read(&mut self, at: u64) -> u32
        ensures value { result ≡ word_at self.old at }
        ensures words { SameWords (word_at self.old) (word_at self.new) }
        ensures latch { latched self.new ≡ latched self.old };

    /// Puts a word into the latch.
    fn write(&mut self, word: u32)
        ensures words { SameWords (word_at self.old) (word_at self.new) }
        ensures latch { latched self.new ≡ word };

    /// The last word that was written.
    fn latch(&self) -> u32
        ensures { result ≡ latched self.now };

    /// Makes the device forget its words of the cycles before `before`. Its latch stays, and so do
    /// its words from that cycle on. So the memory of a device that stores its feeds doesn't grow
    /// with the length of a run. The default body forgets nothing.
    fn forget(&mut self, before: u64)
        ensures words { SameWordsFrom before (word_at self.old) (word_at self.new) }
        ensures latch { latched self.new ≡ latched self.old }
    {
        let _ = before;
    }
}
