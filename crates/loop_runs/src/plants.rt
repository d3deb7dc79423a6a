//! The plants of the eight threads, each a plant or none.

ghost use Rattle.std.specs.Prelude.{◌≡◌, ℕ, ◌<◌, List, [], ◌∷◌, vec_len};
ghost use Rattle.loop_runs.specs.Plants.{Continues, HasStepped, IsWord};
ghost use Rattle.loop_runs.specs.Plants.{response_at, response_of, responses_of};

/// A plant in steps: each step takes the word that the controller stored last, and returns the word
/// that the controller's port shows until the next step.
pub trait Plant: Drop {
    // The plant's word after some steps, as a function of the words that they take.
    ghost response: { Self → List ℕ → ℕ };

    /// The plant's word now.
    fn word(&self) -> u32
        ensures { result ≡ response self.now [] };

    /// Does one step: takes the word of the port's latch, and returns the word for the port.
    fn step(&mut self, drive: u32) -> u32
        ensures word { result ≡ response self.old (drive ∷ []) }
        ensures continues { (more : List ℕ) → response self.new more
            ≡ response self.old (drive ∷ more) };
}

/// The plants of the eight threads, in the threads' order. A thread may have none. Where the
/// threads have plants of several types, P is an enum of them.
pub type Plants<P> = Vec<Option<P>>;

/// The word of a thread's plant now, if the thread has a plant.
pub fn word_of<P: Plant>(plants: &Plants<P>, thread: u8) -> Option<u32>
    requires eight { vec_len plants.now ≡ 8 }
    requires thread { thread < 8 }
    ensures { IsWord (response_at (responses_of P.response plants.now.items) thread) [] result }
{
    word_in(&plants[thread as usize])
}

/// Does one step of a thread's plant. Returns its word, if the thread has a plant.
pub(crate) fn step_plant<P: Plant>(plants: &mut Plants<P>, thread: u8, drive: u32) -> Option<u32>
    requires eight { vec_len plants.old ≡ 8 }
    requires thread { thread < 8 }
    ensures stepped { HasStepped (responses_of P.response plants.old.items)
        (responses_of P.response plants.new.items) thread drive result }
    ensures eight { vec_len plants.new ≡ 8 }
{
    step_entry(&mut plants[thread as usize], drive)
}

/// The word that a thread's plant drives, if it has one.
fn word_in<P: Plant>(entry: &Option<P>) -> Option<u32>
    ensures { IsWord (response_of P.response entry.now) [] result }
{
    match entry {
        Some(plant) => Some(plant.word()),
        None => None,
    }
}

/// Steps a thread's plant by the word that the thread drives. The answer is the plant's next word.
fn step_entry<P: Plant>(entry: &mut Option<P>, drive: u32) -> Option<u32>
    ensures continues { Continues (response_of P.response entry.old)
        (response_of P.response entry.new) (drive ∷ []) }
    ensures word { IsWord (response_of P.response entry.old) (drive ∷ []) result }
{
    match entry {
        Some(plant) => Some(plant.step(drive)),
        None => None,
    }
}
