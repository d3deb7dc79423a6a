//! The inputs of a setup.

ghost use Rattle.std.specs.Prelude.{◌≡◌, ◌<◌, ◌≤◌, length, take, vec_len, OnOk, OnErr};
ghost use Rattle.fp_ports.specs.PluggedPorts.{rows_of};
ghost use Rattle.machine.specs.Feeding.{fed_words, fed_all, IsFedPrefix};
ghost use Rattle.machine.specs.PortLaws.{FeedsStart};

use fp_ports::{Ports, feed_port};
use fp_setup::{Input, Setup};
use std::alloc::AllocError;

/// Feeds each thread's inputs to its port, in order, from thread 0 to thread 7. An absent port
/// ignores them.
///
/// # Errors
///
/// Out of memory. A prefix of the inputs has been fed then.
pub fn feed_inputs(setup: &Setup, ports: &mut Ports) -> Result<(), AllocError>
    requires { vec_len ports.old ≡ 8 }
    ensures ok { OnOk result (rows_of latched word_at ports.new.items
        ≡ fed_all setup.now (rows_of latched word_at ports.old.items)) }
    ensures err { OnErr result (IsFedPrefix setup.now (rows_of latched word_at ports.old.items)
        (rows_of latched word_at ports.new.items)) }
    ensures eight { vec_len ports.new ≡ 8 }
{
    for thread in 0..8 {
        feed_thread(ports, thread, setup.threads.get(thread).inputs.as_slice())?;
    }
    Ok(())
}

/// Feeds inputs to a thread's port, in order.
fn feed_thread(ports: &mut Ports, thread: u8, inputs: &[Input]) -> Result<(), AllocError>
    requires eight { vec_len ports.old ≡ 8 }
    requires thread { thread < 8 }
    ensures ok { OnOk result (rows_of latched word_at ports.new.items
        ≡ fed_words thread (rows_of latched word_at ports.old.items) inputs.now) }
    ensures err { OnErr result ((j : _)
        × (rows_of latched word_at ports.new.items
        ≡ fed_words thread (rows_of latched word_at ports.old.items) (take j inputs.now))) }
    ensures eight { vec_len ports.new ≡ 8 }
{
    for input in inputs {
        feed_port(ports, thread, input.at, input.word)?;
    }
    Ok(())
}

/// Take a machine with ports that were fed the inputs of its setup. It starts in the world of the
/// setup and of the ports before they were fed. The contract states the theorem; the call does
/// nothing.
pub fn feeds_the_start()
    ensures { FeedsStart }
{}
