//! When a port is unplugged.

ghost use Rattle.std.specs.Prelude.{◌≡◌, ◌-◌, ◌<◌, false, not};
ghost use Rattle.std.specs.Prelude.{None, is_some, vec_len};
ghost use Rattle.std.specs.Prelude.{slice_index_or, slice_set, if◌then◌else◌};
ghost use Rattle.std.specs.List.{list_any};
ghost use Rattle.fp_ports.specs.PluggedPorts.{rows_of};
ghost use Rattle.pipe_model.specs.Relation.{stays_in};
ghost use Rattle.machine.specs.FieldRelation.{ports_left_in};

use crate::state::Machine;
use core_model::CYCLES_TO_M;
use fp_ports::{Ports, unplug};

impl Machine {
    /// Whether any thread loses its port in some cycle, by a test of all eight without branches.
    pub(crate) fn loses_ports(&self) -> bool
        ensures { result ≡ list_any is_some self.now.unplugs }
    {
        let mut loses = false;
        for thread in 0..8 {
            loses |= self.unplugs[thread].is_some();
        }
        loses
    }

    /// Removes the ports that are due in the next cycle, if any port is ever removed.
    #[inline(always)]
    pub(crate) fn take_if_any(&self, ports: &mut Ports, loses_ports: bool)
        requires eight { vec_len ports.old ≡ 8 }
        requires known { loses_ports ≡ list_any is_some self.now.unplugs }
        ensures rows { rows_of latched word_at ports.new.items
            ≡ ports_left_in self.now.unplugs self.now.at (rows_of latched word_at ports.old.items)
            8 }
        ensures eight { vec_len ports.new ≡ 8 }
    {
        if loses_ports {
            self.take_due(ports);
        }
    }

    /// Removes the ports that are due in the next cycle.
    fn take_due(&self, ports: &mut Ports)
        requires { vec_len ports.old ≡ 8 }
        ensures rows { rows_of latched word_at ports.new.items
            ≡ ports_left_in self.now.unplugs self.now.at (rows_of latched word_at ports.old.items)
            8 }
        ensures eight { vec_len ports.new ≡ 8 }
    {
        for thread in 0..8 {
            self.take_if_due(ports, thread);
        }
    }

    /// Removes a thread's port if it is due.
    fn take_if_due(&self, ports: &mut Ports, thread: u8)
        requires eight { vec_len ports.old ≡ 8 }
        requires thread { thread < 8 }
        ensures rows { rows_of latched word_at ports.new.items
            ≡ (if stays_in (slice_index_or self.now.unplugs thread None) self.now.at
            then rows_of latched word_at ports.old.items
            else slice_set (rows_of latched word_at ports.old.items) thread None) }
        ensures eight { vec_len ports.new ≡ 8 }
    {
        if self.is_unplug_due(thread) {
            unplug(ports, thread);
        }
    }

    /// Whether a thread was unplugged three or more cycles ago.
    fn is_unplug_due(&self, thread: u8) -> bool
        ensures { result ≡ not (stays_in (slice_index_or self.now.unplugs thread None)
            self.now.at) }
    {
        match self.unplugs.get(usize::from(thread)) {
            Some(Some(unplug)) => self.at >= CYCLES_TO_M && *unplug <= self.at - CYCLES_TO_M,
            _ => false,
        }
    }
}
