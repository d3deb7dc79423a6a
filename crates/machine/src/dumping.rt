//! The dump of a machine.

ghost use Rattle.std.specs.Prelude.{◌≡◌, ℕ, ◌+◌, ◌/◌, ◌<◌, ◌≤◌, [], vec_len, OnOk, OnErr};
ghost use Rattle.std.specs.Io.KnownBytes.{Appends};
ghost use Rattle.fp_io.specs.Causes.{HasRisen};
ghost use Rattle.fp_io.specs.Content.{AppendsPrefix};
ghost use Rattle.fp_ports.specs.PluggedPorts.{rows_of};
ghost use Rattle.core_model.specs.World.{Start};
ghost use Rattle.machine.specs.DumpedState.{seen};
ghost use Rattle.machine.specs.Fields.{first_of_memory};
ghost use Rattle.machine.specs.MachineDump.{line_of, text_of};
ghost use Rattle.machine.specs.WorldRelation.{Refines};

use crate::lines::FIRST_OF_MEMORY;
use crate::state::Machine;
use fp_io::{PutFailed, Sink};
use fp_ports::Ports;

impl Machine {
    /// Puts the dump of the machine, each line by one call. First come the cycles done, the
    /// contents of the stages, and the configuration registers. The registers, trap registers,
    /// timer, sleep moment and latch of each thread follow. Last come the words of the data
    /// scratchpad, eight a line, without the lines of zeros. No memory is allocated.
    ///
    /// # Errors
    ///
    /// The sink counted a fault in this call. The dump was put up to that point.
    pub fn dump<K: Sink>(&self, ports: &Ports, out: &mut K) -> Result<(), PutFailed>
        requires { vec_len ports.now ≡ 8 }
        ensures ok { OnOk result ((s : Start) (c n : ℕ)
            → Refines s c n self.now (rows_of latched word_at ports.now.items)
            → Appends (K.taken out.old) (K.taken out.new) (seen s c)) }
        ensures err { OnErr result ((s : Start) (c n : ℕ)
            → Refines s c n self.now (rows_of latched word_at ports.now.items)
            → AppendsPrefix (K.taken out.old) (K.taken out.new) (seen s c)) }
        ensures failed { OnErr result (HasRisen (K.faults out.old) (K.faults out.new)) }
        ensures counted { K.faults out.old ≤ K.faults out.new }
    {
        self.put_lines(ports, out)
    }

    /// Puts the lines by their numbers.
    fn put_lines<K: Sink>(&self, ports: &Ports, out: &mut K) -> Result<(), PutFailed>
        requires { vec_len ports.now ≡ 8 }
        ensures ok { OnOk result (Appends (K.taken out.old) (K.taken out.new)
            (text_of self.now (rows_of latched word_at ports.now.items))) }
        ensures err { OnErr result (AppendsPrefix (K.taken out.old) (K.taken out.new)
            (text_of self.now (rows_of latched word_at ports.now.items))) }
        ensures failed { OnErr result (HasRisen (K.faults out.old) (K.faults out.new)) }
        ensures counted { K.faults out.old ≤ K.faults out.new }
    {
        for number in 0..FIRST_OF_MEMORY + self.units.guard.size / 32 {
            self.put_line(number, ports, out)?;
        }
        Ok(())
    }

    /// Puts the line of a number, if it is shown.
    fn put_line<K: Sink>(&self, number: u32, ports: &Ports, out: &mut K) -> Result<(), PutFailed>
        requires eight { vec_len ports.now ≡ 8 }
        requires number { number < first_of_memory + self.now.units.guard.size / 32 }
        ensures ok { OnOk result (Appends (K.taken out.old) (K.taken out.new)
            (line_of self.now (rows_of latched word_at ports.now.items) number)) }
        ensures err { OnErr result (AppendsPrefix (K.taken out.old) (K.taken out.new)
            (line_of self.now (rows_of latched word_at ports.now.items) number)) }
        ensures failed { OnErr result (HasRisen (K.faults out.old) (K.faults out.new)) }
        ensures counted { K.faults out.old ≤ K.faults out.new }
        ensures nothing { line_of self.now (rows_of latched word_at ports.now.items) number ≡ []
            → out.new ≡ out.old }
    {
        let line = self.line(ports, number);
        if line.is_empty() {
            return Ok(());
        }
        out.put(line.as_bytes())
    }
}
