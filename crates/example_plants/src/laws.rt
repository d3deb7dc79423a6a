//! What the examples of plants do, in the words of the plant. Each theorem is the contract of a
//! call that does nothing; the statements are in specs/PlantLaws.antt.

ghost use Rattle.example_plants.specs.PlantLaws.{HeatStaysInRange, LagsApproach, MotorStaysAtRest};
ghost use Rattle.example_plants.specs.PlantLaws.{PlaysInOrder, ShowsLastTwo, UnheatedCools};

/// A lag approaches its target and never passes it.
#[tactic(auto, using(crate::proofs::Lags::approaches))]
pub fn lags_approach()
    ensures { LagsApproach }
{}

/// A heated body stays in the range of its heating and load. Without both it cools in each step.
pub fn heat_stays_in_range()
    ensures range { HeatStaysInRange }
    ensures cools { UnheatedCools }
{}

/// A motor at rest without voltage stays at rest until its load comes.
#[tactic(auto, using(crate::proofs::Rest::rests))]
pub fn motor_stays_at_rest()
    ensures { MotorStaysAtRest }
{}

/// A recording plays its words in their order; a table shows the entry of the last two words.
#[tactic(auto, using(crate::proofs::Rest::plays, crate::proofs::Rest::shows))]
pub fn words_follow_the_lists()
    ensures recorded { PlaysInOrder }
    ensures table { ShowsLastTwo }
{}
