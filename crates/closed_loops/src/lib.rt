//! Closed loops: a thread whose port shows the response of a plant to the thread's own stores.
//! Each theorem is the contract of a function that does nothing. The statements are in
//! specs/LoopLaws.antt and specs/Sampled.antt.

#![tactic(auto)]

ghost use Rattle.isolation.specs.Isolation.{Isolation};
ghost use Rattle.closed_loops.specs.LoopLaws.{EqualLoops, InputsAnswer, InputsAreLoops};
ghost use Rattle.closed_loops.specs.LoopLaws.{LoopIsolation};
ghost use Rattle.closed_loops.specs.LoopLaws.{LoopsExist, LoopsWithoutPermits, PastWords};
ghost use Rattle.closed_loops.specs.LoopLaws.{PhasedInputsAreLoops, PhasedLoops};
ghost use Rattle.closed_loops.specs.Sampled.{LatchOfStores, SampledWords, StoreDelay};

/// A confined hard thread in a closed loop runs as if it were by itself with its plant: in a quiet
/// run its events are those of the one-thread definition over its view and the plant.
pub fn runs_alone_in_loop()
    ensures { LoopIsolation }
{
    isolation::isolation::runs_alone();
}

/// Let a confined hard thread have the same plant in two machines, and the same view without its
/// port's words. In quiet runs both machines give it equal events.
pub fn shows_equal_events()
    ensures { EqualLoops }
{
    runs_alone_in_loop();
}

/// Over the settings of the scheduling, a confined thread in a closed loop runs as if it were by
/// itself with its plant. The conditions are that no setting makes it soft active, and that no
/// region register is written.
pub fn runs_by_phases_in_loop()
    ensures { PhasedLoops }
{}

/// Fixed input words are a plant that ignores all stores. It responds to its thread in each run. By
/// itself, a thread has the same events in the loop with this plant as with these words.
pub fn takes_inputs_as_plants()
    ensures answered { InputsAnswer }
    ensures alone { InputsAreLoops }
    ensures phased { PhasedInputsAreLoops }
{}

/// Isolation over fixed inputs is the case of a plant that ignores all stores.
pub fn runs_alone_over_inputs()
    ensures { Isolation }
{
    runs_alone_in_loop();
    takes_inputs_as_plants();
}

/// The world before a cycle is the same for two starts that differ only in the port words of that
/// cycle and later ones.
pub fn depends_on_past_words()
    ensures { PastWords }
{}

/// For each start, all plants and each length there is a run in which each plant responds to its
/// thread.
pub fn has_closed_loops()
    ensures { LoopsExist }
{}

/// If no thread has a permit, each confined hard thread runs as if it were by itself in the loop
/// with its plant.
pub fn runs_alone_without_permits()
    ensures { LoopsWithoutPermits }
{
    runs_alone_in_loop();
    has_closed_loops();
    isolation::isolation::stays_quiet();
}

/// The latch of a port is the word of the last store that its thread issued there while the port
/// was present. Before such a store it is the latch at the start.
pub fn latches_last_store()
    ensures { LatchOfStores }
{}

/// A sample of a latch in cycle c includes the stores issued in cycle c - 4 and before.
pub fn delays_stores()
    ensures { StoreDelay }
{}

/// In loops with sampled plants a port that is present shows its plant's response to the samples of
/// its latch so far.
pub fn shows_sampled_words()
    ensures { SampledWords }
{}
