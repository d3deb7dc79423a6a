//! The machine: eight hardware threads through the pipeline of five stages, cycle by cycle, over a
//! setup, an image and the devices at the ports.
#![tactic(auto)]

mod cycles;
mod dumping;
mod feeding;
mod field_laws;
mod leaving;
mod lines;
mod loading;
mod observer;
mod run;
mod running;
mod sleeping;
mod state;
mod thread_lines;
mod unplugging;
mod unseen;

pub use feeding::{feed_inputs, feeds_the_start};
pub use field_laws::{dumps_what_is_seen, goes_on, unplugs_ports};
pub use isolation::setup_traces::{
    stays_quiet, traces_alone, traces_by_phases, traces_by_wide_view, writes_equal_traces,
};
pub use observer::Observer;
pub use running::leaves_ports;
pub use sleeping::sleeps_on;
pub use state::Machine;
pub use unseen::Nowhere;
