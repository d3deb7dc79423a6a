//! The permissions of threads to fetch, load and store.

ghost use Rattle.std.specs.Prelude.{◌≡◌, ◌<◌, ◌/◌, not, ◌||◌, IsTrue};
ghost use Rattle.region_guard.specs.Regions.{IsSize, IsSize-prop, index_of, is_code};
ghost use Rattle.region_guard.specs.Regions.{is_data, is_port, may_fetch, may_load};
ghost use Rattle.region_guard.specs.Regions.{may_read, may_store, region_of};

use crate::memory_map::{DATA_START, PORT_ADDRESS};
use crate::register::Regions;

/// The number of bits of a region's index: there are eight regions.
const INDEX_BITS: u32 = 3;

/// The owners of the regions of both scratchpads.
///
/// The instruction scratchpad begins at address 0, the data scratchpad at [`DATA_START`], and the
/// word of a thread's port is at [`PORT_ADDRESS`]. Each scratchpad has eight regions of `size / 8`
/// bytes.
#[derive(Clone, Copy, Debug)]
pub struct Guard {
    /// The regions of the instruction scratchpad: the register iregions (0x7C3).
    pub i: Regions,
    /// The regions of the data scratchpad: the register dregions (0x7C2).
    pub d: Regions,
    /// The size of each scratchpad in bytes, 16,384 or 65,536.
    pub size: u32,
    ghost sized: { IsSize size } by { IsSize-prop size },
}

// The region of an offset in a scratchpad. Regions have 2^11 or 2^13 bytes.
fn region_at(size: u32, offset: u32) -> u32
    requires sized { IsSize size }
    requires inside { offset < size }
    ensures region { result ≡ region_of size offset }
    ensures small { result < 8 }
{
    offset >> (size.trailing_zeros() - INDEX_BITS)
}

// Whether an access is one of the whole word of the port.
fn is_port(address: u32, size: u8) -> bool
    ensures { result ≡ is_port address size }
{
    address == PORT_ADDRESS && size == 4
}

impl Guard {
    /// Whether an address is in the instruction scratchpad.
    pub fn is_code(&self, address: u32) -> bool
        ensures { result ≡ is_code self.now.size address }
    {
        self.size > address
    }

    /// Whether an address is in the data scratchpad.
    pub fn is_data(&self, address: u32) -> bool
        ensures { result ≡ is_data self.now.size address }
    {
        address.wrapping_sub(DATA_START) < self.size
    }

    /// The index, in the instruction scratchpad, of the word that contains an address of this
    /// scratchpad.
    #[tactic(auto, unfolding(crate::specs::Regions::index_of))]
    pub fn code_index(&self, address: u32) -> u32
        requires { IsTrue (is_code self.now.size address) }
        ensures index { result ≡ index_of self.now.size address }
        ensures small { result < self.now.size / 4 }
    {
        address / 4
    }

    /// The index, in the data scratchpad, of the word that contains an address of this scratchpad.
    #[tactic(auto, unfolding(crate::specs::Regions::index_of))]
    pub fn data_index(&self, address: u32) -> u32
        requires { IsTrue (is_data self.now.size address) }
        ensures index { result ≡ index_of self.now.size address }
        ensures small { result < self.now.size / 4 }
    {
        (address - DATA_START) / 4
    }

    // Whether a thread may load or fetch at an offset in the scratchpad with these regions.
    fn may_read(&self, regions: &Regions, thread: u8, confined: bool, offset: u32) -> bool
        requires { offset < self.now.size }
        ensures { result ≡ may_read thread self.now.size confined regions.now offset }
    {
        !confined || regions.is_readable(region_at(self.size, offset), thread)
    }

    /// Whether a thread may fetch at an address: in the instruction scratchpad; a confined thread
    /// only in its own and read-only regions.
    #[tactic(auto, unfolding(crate::specs::Regions::may_fetch))]
    pub fn may_fetch(&self, thread: u8, confined: bool, address: u32) -> bool
        ensures { result ≡ may_fetch thread self.now.size confined self.now.i address }
    {
        address < self.size && self.may_read(&self.i, thread, confined, address)
    }

    /// Whether a thread may load `size` bytes at an address that is aligned for them: in both
    /// scratchpads, and four bytes at the port. In the scratchpads a confined thread may load only
    /// in its own and read-only regions.
    #[tactic(auto, unfolding(crate::specs::Regions::may_load))]
    pub fn may_load(&self, thread: u8, confined: bool, address: u32, size: u8) -> bool
        ensures { result
            ≡ may_load thread self.now.size confined self.now.i self.now.d address size }
    {
        if address < self.size {
            self.may_read(&self.i, thread, confined, address)
        } else if self.is_data(address) {
            self.may_read(&self.d, thread, confined, address - DATA_START)
        } else {
            is_port(address, size)
        }
    }

    /// Whether a thread may store `size` bytes at an address that is aligned for them: in its own
    /// and shared regions of the data scratchpad, and four bytes at the port.
    #[tactic(auto, unfolding(crate::specs::Regions::may_store))]
    pub fn may_store(&self, thread: u8, address: u32, size: u8) -> bool
        ensures { result ≡ may_store thread self.now.size self.now.d address size }
    {
        if self.is_data(address) {
            self.d
                .is_writable(region_at(self.size, address - DATA_START), thread)
        } else {
            is_port(address, size)
        }
    }

    // Whether a thread 0 to 7 may load or fetch at an offset: as `may_read`, without a test of the
    // thread.
    fn may_read_by(&self, regions: &Regions, thread: u8, confined: bool, offset: u32) -> bool
        requires inside { offset < self.now.size }
        requires thread { thread < 8 }
        ensures { result ≡ may_read thread self.now.size confined regions.now offset }
    {
        !confined || regions.is_readable_by(region_at(self.size, offset), thread)
    }

    /// Whether a thread 0 to 7 may fetch at an address: as [`may_fetch`](Guard::may_fetch), without
    /// a test of the thread.
    #[tactic(auto, unfolding(crate::specs::Regions::may_fetch))]
    pub fn may_fetch_by(&self, thread: u8, confined: bool, address: u32) -> bool
        requires { thread < 8 }
        ensures { result ≡ may_fetch thread self.now.size confined self.now.i address }
    {
        if address >= self.size {
            return false;
        }
        self.may_read_by(&self.i, thread, confined, address)
    }

    /// Whether a thread 0 to 7 may load `size` bytes at an address that is aligned for them: as
    /// [`may_load`](Guard::may_load), without a test of the thread.
    #[tactic(auto, unfolding(crate::specs::Regions::may_load))]
    pub fn may_load_by(&self, thread: u8, confined: bool, address: u32, size: u8) -> bool
        requires { thread < 8 }
        ensures { result
            ≡ may_load thread self.now.size confined self.now.i self.now.d address size }
    {
        if address < self.size {
            self.may_read_by(&self.i, thread, confined, address)
        } else if self.is_data(address) {
            self.may_read_by(&self.d, thread, confined, address - DATA_START)
        } else {
            is_port(address, size)
        }
    }

    /// Whether a thread 0 to 7 may store `size` bytes at an address that is aligned for them: as
    /// [`may_store`](Guard::may_store), without a test of the thread.
    #[tactic(auto, unfolding(crate::specs::Regions::may_store))]
    pub fn may_store_by(&self, thread: u8, address: u32, size: u8) -> bool
        requires { thread < 8 }
        ensures { result ≡ may_store thread self.now.size self.now.d address size }
    {
        if !self.is_data(address) {
            return is_port(address, size);
        }
        self.d
            .is_writable_by(region_at(self.size, address - DATA_START), thread)
    }
}
