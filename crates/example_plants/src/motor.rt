//! A motor, of second order: its current and its speed. All numbers have 16 bits after the binary
//! point.

ghost use Rattle.std.specs.Prelude.{◌≡◌};
ghost use Rattle.example_plants.specs.Motion.{resting, speed_after, torque_of_load, motor_after};

use crate::lag::lagging;
use loop_runs::Plant;
use std::marker::Model;

/// The current's time constant is 2 to the power of this, in steps.
const CURRENT_BITS: u32 = 4;

/// The speed's time constant is 2 to the power of this, in steps.
const SPEED_BITS: u32 = 6;

/// The load, in units of torque.
const LOAD: i32 = 0x4_0000;

/// A motor. A step takes the voltage, and returns the speed.
#[derive(Drop)]
pub struct Motor {
    current: i32,
    speed: i32,
    unloaded: u32,
}

impl Model for Motor {
    ghost use Rattle.example_plants.specs.Motion.{Turning};

    ghost Value = { Turning };

    ghost view = { λ m. record { current = m.current; speed = m.speed; unloaded = m.unloaded } };
}

impl Motor {
    /// A motor at rest; its load begins in step `unloaded`.
    pub fn resting(unloaded: u32) -> Motor
        ensures { result ≡ resting unloaded }
    {
        Motor {
            current: 0,
            speed: 0,
            unloaded,
        }
    }

    /// The motor after a step that takes a word as voltage.
    fn turned(&self, word: u32) -> Motor
        ensures { result ≡ motor_after self.now word }
    {
        let unloaded = self.unloaded.saturating_sub(1);
        let voltage = word.cast_signed().saturating_sub(self.speed);
        let current = lagging(self.current, voltage, CURRENT_BITS);
        let torque = current.saturating_sub(torque_of_load(unloaded));
        let speed = lagging(self.speed, torque, SPEED_BITS);
        Motor {
            current,
            speed,
            unloaded,
        }
    }
}

impl Plant for Motor {
    ghost response = { speed_after };

    fn word(&self) -> u32 {
        self.speed.cast_unsigned()
    }

    fn step(&mut self, drive: u32) -> u32 {
        *self = self.turned(drive);
        self.word()
    }
}

/// The load, if no unloaded step is left.
fn torque_of_load(unloaded: u32) -> i32
    ensures { result ≡ torque_of_load unloaded }
{
    if unloaded == 0 { LOAD } else { 0 }
}
