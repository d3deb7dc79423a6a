//! The words at the port of a thread that runs by itself.

ghost use Rattle.std.specs.Prelude.{◌≡◌, Option, List, find, map, nat_le, option_copied, reverse};
ghost use Rattle.fp_ports.specs.PluggedPorts.{Row, row_of, word_seen};
ghost use Rattle.fp_ports.specs.ShownWords.{input_at, is_gone, shown_at};
ghost use Rattle.fp_setup.specs.declared.input_list.Input.{Input};
ghost use Rattle.setup_model.specs.Start.{inputs_of};

use fp_ports::{ABSENT_WORD, Port};
use fp_setup::{Input, Inputs, ThreadSetup};
use solo_run::Shown;

/// A thread's port that is only read, not fed or written. The setup's inputs come before the words
/// of the device. From its unplugging on the port isn't there.
#[derive(Drop)]
pub struct ReadPort<'a> {
    /// The device at the port.
    pub device: Option<Box<dyn Port>>,
    /// The thread's settings: its inputs and its unplugging.
    pub thread: &'a ThreadSetup,
}

impl Shown for ReadPort<'_> {
    ghost word_at = { λ s. shown_at
        (row_of (λ b. (Port-box b).latched b.value) (λ b. (Port-box b).word_at b.value) s.device)
        (inputs_of s.thread.now) s.thread.now.unplug };

    ghost Kept = { Option Row };

    ghost kept = { λ s.
        row_of (λ b. (Port-box b).latched b.value) (λ b. (Port-box b).word_at b.value) s.device };

    fn word(&mut self, at: u64) -> u32 {
        word_at_port(&mut self.device, self.thread, at)
    }
}

/// The word that a thread with a device at its port reads there in a cycle.
fn word_at_port(device: &mut Option<Box<dyn Port>>, thread: &ThreadSetup, at: u64) -> u32
    ensures value { result ≡ shown_at (row_of latched word_at device.old)
        (inputs_of thread.now) thread.now.unplug at }
    ensures row { row_of latched word_at device.new ≡ row_of latched word_at device.old }
{
    if is_gone(thread.unplug, at) {
        return ABSENT_WORD;
    }
    match input_at(&thread.inputs, at) {
        Some(word) => { if device.is_some() { word } else { ABSENT_WORD } }
        None => read_device(device, at),
    }
}

/// Whether an issue of cycle `at` finds no port; `unplug` is the first cycle without one.
fn is_gone(unplug: Option<u64>, at: u64) -> bool
    ensures { result ≡ is_gone unplug at }
{
    match unplug {
        Some(unplug) => unplug <= at,
        None => false,
    }
}

/// The last input whose cycle is at most `at`, if there is one.
fn last_input(inputs: &Inputs, at: u64) -> Option<&Input>
    ensures { option_copied result ≡ find (λ input. nat_le input.at at) (reverse inputs.now) }
{
    let inputs = inputs.as_slice();
    let past = inputs.partition_point(|input| input.at <= at);
    inputs[..past].last()
}

/// The word of the last input whose cycle is at most `at`, if there is one.
fn input_at(inputs: &Inputs, at: u64) -> Option<u32>
    ensures { result ≡ input_at (map (λ (input : Input). (input.at, input.word)) inputs.now) at }
{
    last_input(inputs, at).map(|input| input.word)
}

/// The word that a device shows in a cycle, or that of an absent one.
fn read_device(device: &mut Option<Box<dyn Port>>, at: u64) -> u32
    ensures value { result ≡ word_seen (row_of latched word_at device.old) at }
    ensures row { row_of latched word_at device.new ≡ row_of latched word_at device.old }
{
    match device {
        Some(device) => device.read(at),
        None => ABSENT_WORD,
    }
}
