//! The machine with a plant next to it.

ghost use Rattle.std.specs.Prelude.{◌≡◌, ◌+◌, ◌≤◌, IfOk, OnOk, vec_len};
ghost use Rattle.timer_unit.specs.Time.{most_cycles};

use commands::Program;
use example_plants::HeatedBody;
use fp_ports::{Ports, feed_port, latch_of};
use loop_runs::Plant;
use machine::Machine;
use std::alloc::{AllocError, Global};

/// The thread of the controller.
const CONTROLLER: u8 = 0;

/// The number of cycles for which the same word drives the plant.
const CYCLES: u64 = 100;

/// The number of such steps of the plant in a period of the controller.
const STEPS: u8 = 8;

/// The step of the plant in which its load begins: 640 steps are 64,000 cycles.
const LOADED: u32 = 640;

/// The machine, with a plant that the latch of the controller's port drives. The plant's response
/// is shown at that port.
#[derive(Drop)]
pub struct ControlLoop {
    machine: Machine,
    ports: Ports,
    plant: HeatedBody,
}

impl ControlLoop {
    /// The machine of a setup and its image at cycle 0, with devices that show the words they are
    /// fed, and a cold plant. The setup's inputs are ignored.
    ///
    /// # Errors
    ///
    /// Out of memory.
    pub fn new(alloc: Global, program: &Program, ports: Ports) -> Result<ControlLoop, AllocError>
        requires { vec_len ports ≡ 8 }
        ensures eight { IfOk result (λ l. vec_len l.ports ≡ 8) }
        ensures start { IfOk result (λ l. l.machine.at ≡ 0) }
    {
        Ok(ControlLoop {
            machine: Machine::load(alloc, &program.setup, &program.image)?,
            ports,
            plant: HeatedBody::cold(LOADED),
        })
    }

    /// The number of cycles done.
    pub fn cycle(&self) -> u64
        ensures { result ≡ self.now.machine.at }
    {
        self.machine.cycle()
    }

    /// The controller's last written word, as a number with 16 fractional bits.
    pub fn drive(&self) -> i32
        requires { vec_len self.now.ports ≡ 8 }
    {
        latch_of(&self.ports, CONTROLLER).unwrap_or(0).cast_signed()
    }

    /// The value of the plant's sensor.
    pub fn measured(&self) -> i32 {
        self.plant.word().cast_signed()
    }

    /// Runs for a period of the controller.
    ///
    /// # Errors
    ///
    /// Out of memory.
    pub fn period(&mut self) -> Result<(), AllocError>
        requires eight { vec_len self.old.ports ≡ 8 }
        requires cycles { self.old.machine.at + 800 ≤ most_cycles }
        ensures eight { vec_len self.new.ports ≡ 8 }
        ensures cycles { OnOk result (self.new.machine.at ≡ self.old.machine.at + 800) }
    {
        for _step in 0..STEPS {
            self.plant_step()?;
        }
        Ok(())
    }

    /// Runs for a step of the plant: the machine does its cycles, and the plant responds to the
    /// word then in the latch. The response is shown from the next cycle on.
    fn plant_step(&mut self) -> Result<(), AllocError>
        requires eight { vec_len self.old.ports ≡ 8 }
        requires cycles { self.old.machine.at + 100 ≤ most_cycles }
        ensures eight { vec_len self.new.ports ≡ 8 }
        ensures cycles { self.new.machine.at ≡ self.old.machine.at + 100 }
    {
        for _cycle in 0..CYCLES {
            self.machine.tick(&mut self.ports);
        }
        let drive = self.drive().cast_unsigned();
        let shown = self.plant.step(drive);
        feed_port(&mut self.ports, CONTROLLER, self.machine.cycle(), shown)
    }
}
