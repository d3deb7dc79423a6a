//! The ports of the eight hardware threads: boxed devices of any kind, specified by their meaning.

#![tactic(auto)]

mod device;
mod feeds;
mod held;
mod ports;
mod ramp;
mod wave;

pub use device::Port;
pub use held::HeldPort;
pub use ports::{
    ABSENT_WORD, Ports, THREADS, feed_port, forget_port, latch_of, read_port, unplug, write_port,
};
pub use ramp::RampPort;
pub use wave::WavePort;
