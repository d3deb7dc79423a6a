//! The eight threads of a setup.

ghost use Rattle.std.specs.Prelude.{◌≡◌, ◌<◌, Some, slice_get, length};
ghost use Rattle.region_guard.specs.MemoryMap.{small_size};

use crate::input_list::Inputs;
use std::alloc::Global;
use std::marker::Model;

/// The settings of a thread. Its mode is in the setup's word of modes.
#[derive(Drop)]
pub struct ThreadSetup {
    /// The address of the first instruction, a multiple of 4.
    pub entry: u32,
    /// Whether the thread may load and fetch only in its own and in read only regions.
    pub confined: bool,
    /// Whether the thread may read and write the registers of scheduling and regions. A confined
    /// thread may not.
    pub permit: bool,
    /// The cycle from which on the thread's issues find no port; None if the port is never removed.
    pub unplug: Option<u64>,
    /// The inputs of the thread's port.
    pub inputs: Inputs,
}

impl ThreadSetup {
    ghost use Rattle.fp_setup.specs.SetupOfTables.{default_thread};
    ghost use Rattle.fp_setup.specs.Plain.{plain_thread};

    /// A thread with no permit, no unplug and no inputs.
    pub(crate) fn plain(alloc: Global, entry: u32, confined: bool) -> ThreadSetup
        ensures { result ≡ plain_thread entry confined }
    {
        ThreadSetup {
            entry,
            confined,
            permit: false,
            unplug: None,
            inputs: Inputs::from_vec(Vec::new(alloc)),
        }
    }

    /// A thread without a table.
    pub(crate) fn unnamed(alloc: Global) -> ThreadSetup
        ensures { result ≡ default_thread }
    {
        ThreadSetup::plain(alloc, 0, false)
    }
}

/// The threads of a setup, eight of them. Contracts see the list.
#[derive(Drop)]
pub struct Threads {
    items: [ThreadSetup; 8],
}

impl Model for Threads {
    ghost use Rattle.std.specs.Prelude.{List, ◌≡◌, length};
    ghost use Rattle.std.specs.List.{All};
    ghost use Rattle.fp_setup.specs.declared.thread_list.ThreadSetup.{ThreadSetup};
    ghost use Rattle.fp_setup.specs.Threads.{AreThreads};

    ghost Value = { List ThreadSetup };

    ghost view = { λ t. t.items };

    ghost invariant = { λ t. AreThreads t.items };
}

impl Threads {
    ghost use Rattle.std.specs.Prelude.{IsTrue, replicate, slice_set, map, length, ◌≡◌};
    ghost use Rattle.std.specs.List.{All, list_all};
    ghost use Rattle.fp_setup.specs.declared.thread_list.ThreadSetup.{ThreadSetup};
    ghost use Rattle.fp_setup.specs.Threads.{AreThreads, IsThread};
    ghost use Rattle.fp_setup.specs.SetupOfTables.{default_thread};
    ghost use Rattle.fp_setup.specs.Plain.{is_entry, plain_threads};

    /// Eight threads without tables.
    pub(crate) fn unnamed(alloc: Global) -> Threads
        ensures { result ≡ replicate 8 default_thread }
    {
        Threads {
            items: [
                ThreadSetup::unnamed(alloc),
                ThreadSetup::unnamed(alloc),
                ThreadSetup::unnamed(alloc),
                ThreadSetup::unnamed(alloc),
                ThreadSetup::unnamed(alloc),
                ThreadSetup::unnamed(alloc),
                ThreadSetup::unnamed(alloc),
                ThreadSetup::unnamed(alloc),
            ],
        }
    }

    /// Eight threads with these entries and flags, with no permit, no unplug and no inputs.
    pub(crate) fn plain(alloc: Global, entries: [u32; 8], confined: [bool; 8]) -> Threads
        requires { IsTrue (list_all is_entry entries) }
        ensures threads { result ≡ plain_threads entries confined }
        ensures rules { AreThreads result }
        ensures inside { All (λ (t : ThreadSetup). t.entry < small_size) result }
    {
        let mut threads = Threads::unnamed(alloc);
        for thread in 0..8 {
            let entry = entries[thread as usize];
            let confined = confined[thread as usize];
            threads.set(thread, ThreadSetup::plain(alloc, entry, confined));
        }
        threads
    }

    /// The settings of each thread.
    pub fn each(&self) -> [&ThreadSetup; 8]
        ensures settings { map (λ t. t.now) result ≡ self.now }
        ensures eight { length result ≡ 8 }
        ensures rules { AreThreads self.now }
    {
        self.items.each_ref()
    }

    /// Replaces the settings of a thread.
    pub(crate) fn set(&mut self, thread: u8, setup: ThreadSetup)
        requires thread { thread < 8 }
        requires rules { IsThread setup }
        ensures { self.new ≡ slice_set self.old thread setup }
    {
        self.items[thread as usize] = setup;
    }

    /// The thread of a number below 8.
    pub fn get(&self, thread: u8) -> &ThreadSetup
        requires { thread < 8 }
        ensures value { slice_get self.now thread ≡ Some result.now }
        ensures rules { IsThread result.now }
        ensures eight { length self.now ≡ 8 }
    {
        &self.items[thread as usize]
    }
}
