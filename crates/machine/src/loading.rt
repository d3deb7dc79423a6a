//! The machine at its start.

ghost use Rattle.std.specs.Prelude.{◌≡◌, ℕ, ◌/◌, ◌≤◌, List, All, Option, IfOk, length, map};
ghost use Rattle.region_guard.specs.MemoryMap.{data_start};
ghost use Rattle.fp_ports.specs.PluggedPorts.{Row};
ghost use Rattle.fp_setup.specs.declared.thread_list.ThreadSetup.{ThreadSetup};
ghost use Rattle.fp_setup.specs.Settings.{size_of};
ghost use Rattle.setup_model.specs.Start.{words_from};
ghost use Rattle.pipeline_core.specs.StageFacts.{IsPc};
ghost use Rattle.pipeline_core.specs.Abstraction.{abstract_state};
ghost use Rattle.machine.specs.WorldRelation.{Refines, start_with_ports, units_at_start};

use crate::state::Machine;
use fp_image::Image;
use fp_setup::Setup;
use pipe_model::start_refines;
use pipeline_core::{Pipe, Units};
use regfile_bank::Bank;
use region_guard::{DATA_START, Guard};
use scratchpad::Spm;
use setup_model::{d_regions, i_regions, modes, slot_table, word_list};
use slot_scheduler::{Sched, Scheduler};
use std::alloc::{AllocError, Global};
use timer_unit::{Clock, Timers};
use trap_unit::Traps;

/// The address of each thread's first instruction.
fn entries(setup: &Setup) -> [u32; 8]
    ensures entries { result ≡ map (λ (t : ThreadSetup). t.entry) setup.now.threads }
    ensures pcs { All IsPc result }
    ensures eight { length setup.now.threads ≡ 8 }
{
    setup.threads.each().map(|thread| thread.entry)
}

/// Whether each thread is confined.
fn confined(setup: &Setup) -> [bool; 8]
    ensures { result ≡ map (λ (t : ThreadSetup). t.confined) setup.now.threads }
{
    setup.threads.each().map(|thread| thread.confined)
}

/// Whether each thread may access the configuration registers.
fn permits(setup: &Setup) -> [bool; 8]
    ensures { result ≡ map (λ (t : ThreadSetup). t.permit) setup.now.threads }
{
    setup.threads.each().map(|thread| thread.permit)
}

/// For each thread, the cycle from which its issues find no port; None if its port is never
/// removed.
fn unplugs(setup: &Setup) -> [Option<u64>; 8]
    ensures { result ≡ map (λ (t : ThreadSetup). t.unplug) setup.now.threads }
{
    setup.threads.each().map(|thread| thread.unplug)
}

/// The words of a scratchpad that begins at an address.
fn scratchpad(alloc: Global, setup: &Setup, image: &Image, base: u32) -> Result<Spm, AllocError>
    requires { base ≤ data_start }
    ensures words { IfOk result
        (λ s. s ≡ words_from image.now base (size_of setup.now.version)) }
    ensures len { IfOk result (λ s. length s ≡ size_of setup.now.version / 4) }
{
    Ok(Spm::from_words(word_list(alloc, image, base, setup.size())?))
}

/// The units at the start.
fn units(alloc: Global, setup: &Setup, image: &Image) -> Result<Units, AllocError>
    ensures { IfOk result (λ u. (ports : List (Option Row)) → abstract_state u ports
        ≡ units_at_start setup.now image.now ports) }
{
    Ok(Units {
        imem: scratchpad(alloc, setup, image, 0)?,
        dmem: scratchpad(alloc, setup, image, DATA_START)?,
        bank: Bank::new(),
        guard: Guard {
            i: i_regions(setup),
            d: d_regions(setup),
            size: setup.size(),
        },
        scheduler: Scheduler::new(),
        sched: Sched {
            slots: slot_table(setup),
            modes: modes(setup),
            sleep: [0; 8],
        },
        clock: Clock::new(setup.period),
        timers: Timers::new(),
        traps: Traps::new(),
        confined: confined(setup),
        permit: permits(setup),
    })
}

impl Machine {
    /// The machine at cycle 0 of a setup and an image. Words that the image doesn't define are 0.
    /// Words past the setup's scratchpads are ignored.
    ///
    /// # Errors
    ///
    /// Out of memory.
    pub fn load(alloc: Global, setup: &Setup, image: &Image) -> Result<Machine, AllocError>
        ensures refines { IfOk result
            (λ m. (ports : List (Option Row)) (n : ℕ) → length ports ≡ 8
            → Refines (start_with_ports setup.now image.now ports n) 0 n m ports) }
        ensures start { IfOk result (λ m. m.at ≡ 0) }
    {
        start_refines();
        Ok(Machine {
            pipe: Pipe::new(entries(setup)),
            units: units(alloc, setup, image)?,
            at: 0,
            unplugs: unplugs(setup),
        })
    }
}
