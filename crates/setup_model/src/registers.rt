//! The machine's registers at the start.

ghost use Rattle.std.specs.Prelude.{◌≡◌};

use fp_setup::Setup;
use region_guard::Regions;
use slot_scheduler::Modes;
use slot_table::SlotTable;

/// The slots register at the start: the word of the setup, nibble k for slot k.
pub fn slot_table(setup: &Setup) -> SlotTable
    ensures { result ≡ setup.now.slots }
{
    match SlotTable::from_word(setup.slots) {
        Ok(slots) => slots,
        Err(_) => unreachable!(),
    }
}

/// The modes register at the start: the word of the setup, bits 2i and 2i + 1 for thread i.
pub fn modes(setup: &Setup) -> Modes
    ensures { result ≡ setup.now.modes }
{
    match Modes::from_word(setup.modes) {
        Ok(modes) => modes,
        Err(_) => unreachable!(),
    }
}

/// The register of the regions of the instruction scratchpad at the start: the word of the setup,
/// nibble k for region k.
pub fn i_regions(setup: &Setup) -> Regions
    ensures { result ≡ setup.now.iregions }
{
    match Regions::from_word(setup.iregions) {
        Ok(regions) => regions,
        Err(_) => unreachable!(),
    }
}

/// The register of the regions of the data scratchpad at the start: the word of the setup, nibble k
/// for region k.
pub fn d_regions(setup: &Setup) -> Regions
    ensures { result ≡ setup.now.dregions }
{
    match Regions::from_word(setup.dregions) {
        Ok(regions) => regions,
        Err(_) => unreachable!(),
    }
}
