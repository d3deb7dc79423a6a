//! The plants that a list may name.

ghost use Rattle.std.specs.Prelude.{◌≡◌, IfOk, vec_len};
ghost use Rattle.loop_runs.specs.Plants.{response_of, responses_of};
ghost use Rattle.example_plants.specs.Known.{known_response};
ghost use Rattle.example_plants.specs.ListedPlants.{listed_response, listed_responses};
ghost use Rattle.example_plants.specs.ListedPlants.{response_of_kind};

use crate::body::HeatedBody;
use crate::motor::Motor;
use crate::recorded::RecordedPlant;
use crate::table::TablePlant;
use loop_command_line::{Kind, Listed};
use loop_runs::{Plant, Plants};
use std::alloc::{AllocError, Global};

/// A plant that a list may name, and that is known.
#[derive(Drop)]
pub enum ListedPlant {
    /// A heated body.
    Body(HeatedBody),
    /// A motor.
    Motor(Motor),
    /// A plant with a table.
    Table(TablePlant),
    /// A plant with recorded words.
    Recorded(RecordedPlant),
}

impl Plant for ListedPlant {
    ghost use Rattle.example_plants.specs.Known.{known_response};

    ghost response = { known_response };

    fn word(&self) -> u32 {
        match self {
            ListedPlant::Body(body) => body.word(),
            ListedPlant::Motor(motor) => motor.word(),
            ListedPlant::Table(table) => table.word(),
            ListedPlant::Recorded(recorded) => recorded.word(),
        }
    }

    fn step(&mut self, drive: u32) -> u32 {
        match self {
            ListedPlant::Body(body) => body.step(drive),
            ListedPlant::Motor(motor) => motor.step(drive),
            ListedPlant::Table(table) => table.step(drive),
            ListedPlant::Recorded(recorded) => recorded.step(drive),
        }
    }
}

/// The plant of a kind with its numbers. A plant at the pipe is none.
fn plant_of_kind(listed: Listed) -> Option<ListedPlant>
    ensures { response_of known_response result ≡ response_of_kind listed.kind listed.words }
{
    let kind = listed.kind();
    let words = listed.into_words();
    match kind {
        Kind::Body => Some(ListedPlant::Body(HeatedBody::cold(words[0]))),
        Kind::Motor => Some(ListedPlant::Motor(Motor::resting(words[0]))),
        Kind::Table => Some(ListedPlant::Table(TablePlant::new(words))),
        Kind::Recorded => Some(ListedPlant::Recorded(RecordedPlant::new(words))),
        Kind::Pipe => None,
    }
}

/// The plant of a thread's entry in a list, if it has one that is known.
fn plant_of(listed: Option<Listed>) -> Option<ListedPlant>
    ensures { response_of known_response result ≡ listed_response listed }
{
    match listed {
        Some(listed) => plant_of_kind(listed),
        None => None,
    }
}

/// The plants of the threads of a list. A plant at the pipe is none.
///
/// # Errors
///
/// Out of memory.
pub fn plants_of_list(
    alloc: Global,
    listed: Vec<Option<Listed>>,
) -> Result<Plants<ListedPlant>, AllocError>
    ensures responses { IfOk result (λ plants.
        responses_of known_response plants.items ≡ listed_responses listed.items) }
    ensures counted { IfOk result (λ plants. vec_len plants ≡ vec_len listed) }
{
    let mut rest = listed;
    let mut plants = Vec::new(alloc);
    while !rest.is_empty() {
        plants.push(plant_of(rest.remove(0)))?;
    }
    Ok(plants)
}
