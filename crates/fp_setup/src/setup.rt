//! A setup as a whole.

use crate::bounds::size_of_version;
use crate::file_name::Name;
use crate::loop_list::Loops;
use crate::thread_list::Threads;
use std::alloc::{AllocError, Global};
use std::marker::Model;

/// An accepted setup. Contracts see its fields under their names.
#[derive(Drop)]
pub struct Setup {
    /// 1 or 2. Both scratchpads have 16,384 bytes in version 1 and 65,536 bytes in version 2.
    pub version: u32,
    /// The length of a cycle, 1 to 1,000 nanoseconds.
    pub period: u32,
    /// The slots register at the start: a nibble for each slot.
    pub slots: u32,
    /// The modes register at the start: two bits for each thread.
    pub modes: u32,
    /// The register of the regions of the instruction scratchpad at the start: a nibble for each.
    pub iregions: u32,
    /// The register of the regions of the data scratchpad at the start: a nibble for each.
    pub dregions: u32,
    /// The name of the image file, 1 to 255 bytes.
    pub image: Name,
    /// The settings of each of the eight threads, except their modes.
    pub threads: Threads,
    /// The loops of the program with their bounds, in the order of the file.
    pub loops: Loops,
}

impl Model for Setup {
    ghost use Rattle.fp_setup.specs.Settings.{Settings};

    ghost Value = { Settings };

    ghost use Rattle.fp_setup.specs.Rules.{KeepsRules};

    ghost view = { λ s. record {
      version = s.version;
      period = s.period;
      slots = s.slots;
      modes = s.modes;
      iregions = s.iregions;
      dregions = s.dregions;
      image = s.image;
      threads = s.threads;
      loops = s.loops;
    } };

    ghost invariant = { λ s. KeepsRules (record {
      version = s.version;
      period = s.period;
      slots = s.slots;
      modes = s.modes;
      iregions = s.iregions;
      dregions = s.dregions;
      image = s.image;
      threads = s.threads;
      loops = s.loops;
    }) };
}

impl Setup {
    ghost use Rattle.std.specs.Prelude.{◌≡◌, ◌<◌, ◌≤◌, IsTrue, IfOk};
    ghost use Rattle.region_guard.specs.Regions.{IsSize};
    ghost use Rattle.fp_setup.specs.Settings.{size_of};
    ghost use Rattle.std.specs.List.{list_all};
    ghost use Rattle.slot_table.specs.Table.{is_table};
    ghost use Rattle.region_guard.specs.RegionsWord.{is_regions};
    ghost use Rattle.fp_setup.specs.Plain.{is_entry, plain_setup};

    /// The size of each scratchpad in bytes, 16,384 or 65,536, by the version.
    pub fn size(&self) -> u32
        ensures size { result ≡ size_of self.now.version }
        ensures one_of { IsSize result }
    {
        size_of_version(self.version)
    }

    /// The setup of version 1 with these values, the image name `-`, no permit, no unplug, no
    /// inputs and no loops. The values keep the rules of a setup: a period of 1 to 1,000
    /// nanoseconds, words that the registers accept, and entries that are multiples of 4 below
    /// 16,384.
    ///
    /// # Errors
    ///
    /// Memory ran out.
    #[expect(clippy::too_many_arguments)]
    pub fn of_words(
        alloc: Global,
        period: u32,
        slots: u32,
        modes: u32,
        iregions: u32,
        dregions: u32,
        entries: [u32; 8],
        confined: [bool; 8],
    ) -> Result<Setup, AllocError>
        requires short { 1 ≤ period }
        requires long { period ≤ 1000 }
        requires slots { IsTrue (is_table slots) }
        requires modes { modes < 65536 }
        requires iregions { IsTrue (is_regions iregions) }
        requires dregions { IsTrue (is_regions dregions) }
        requires entries { IsTrue (list_all is_entry entries) }
        ensures { IfOk result (λ s.
            s ≡ plain_setup period slots modes iregions dregions entries confined) }
    {
        let image = Name::from_str(alloc, "-")?;
        Ok(Setup {
            version: 1,
            period,
            slots,
            modes,
            iregions,
            dregions,
            image,
            threads: Threads::plain(alloc, entries, confined),
            loops: Loops::from_vec(Vec::new(alloc)),
        })
    }
}
