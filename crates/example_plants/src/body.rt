//! A heated body with a sensor in it: one first-order lag after another. All numbers have 16 bits
//! after the binary point.

ghost use Rattle.std.specs.Prelude.{◌≡◌};
ghost use Rattle.example_plants.specs.Heating.{after, cold, load, sensor_word};

use crate::lag::lagging;
use loop_runs::Plant;
use std::marker::Model;

/// The body's time constant is 2 to the power of this, in steps.
const BODY_BITS: u32 = 7;

/// The sensor's time constant is 2 to the power of this, in steps.
const SENSOR_BITS: u32 = 3;

/// The load, in units of heating.
const LOAD: i32 = 0x4_0000;

/// A heated body. A step takes the heating, and returns the sensor's temperature.
#[derive(Drop)]
pub struct HeatedBody {
    body: i32,
    sensor: i32,
    unloaded: u32,
}

impl Model for HeatedBody {
    ghost use Rattle.example_plants.specs.Heating.{Heated};

    ghost Value = { Heated };

    ghost view = { λ b. record { body = b.body; sensor = b.sensor; unloaded = b.unloaded } };
}

impl HeatedBody {
    /// A cold body; its load begins in step `unloaded`.
    pub fn cold(unloaded: u32) -> HeatedBody
        ensures { result ≡ cold unloaded }
    {
        HeatedBody {
            body: 0,
            sensor: 0,
            unloaded,
        }
    }

    /// The body after a step that takes a word as heating.
    fn after(&self, word: u32) -> HeatedBody
        ensures { result ≡ after self.now word }
    {
        let unloaded = self.unloaded.saturating_sub(1);
        let heat = word.cast_signed().saturating_sub(load_of(unloaded));
        let body = lagging(self.body, heat, BODY_BITS);
        let sensor = lagging(self.sensor, body, SENSOR_BITS);
        HeatedBody {
            body,
            sensor,
            unloaded,
        }
    }
}

impl Plant for HeatedBody {
    ghost response = { sensor_word };

    fn word(&self) -> u32 {
        self.sensor.cast_unsigned()
    }

    fn step(&mut self, drive: u32) -> u32 {
        *self = self.after(drive);
        self.word()
    }
}

/// The load, if no unloaded step is left.
fn load_of(unloaded: u32) -> i32
    ensures { result ≡ load unloaded }
{
    if unloaded == 0 { LOAD } else { 0 }
}
