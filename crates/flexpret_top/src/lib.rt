//! The program as one call, over files, a sink, the arguments of the command line and eight ports.
//!
//! It re-exports the items that a caller of [`flexpret`] needs: the files, the sinks and the ports,
//! and the theorems that its contract is used with, on traces, settings and visits. Each theorem is
//! the contract of a call that does nothing.
#![tactic(auto)]

mod alone;
mod command;
mod corollaries;
mod deliver;
mod file_commands;
mod machine_commands;
mod prepare;
mod ready;
mod rules;
mod shown;
mod view_commands;

pub use command::flexpret;
pub use command_line::{Ask, WordsNo, read_words};
pub use commands::Status;
pub use core_model::{has_own_turns, tells_picks, unretired_is_unseen};
pub use corollaries::{
    bounds_by_phases, bounds_while_quiet, bounds_while_scheduled, isolates_in_quiet_runs,
};
pub use fp_io::{
    FetchFault, Files, Gathered, MemFiles, MemSink, OutSink, PutFailed, RealFiles, Sink,
};
pub use fp_ports::{HeldPort, Port, Ports, THREADS, WavePort};
pub use fp_setup::accepted_keep_rules;
pub use isolation as isolation_theorems;
pub use rules::programs_keep_rules;
pub use solo_run::setup_views_are_views;
pub use visit_bounds as visit_theorems;
