//! A run in closed loops, from its arguments and files.

ghost use Rattle.std.specs.Prelude.{◌≡◌, ◌≤◌, IfErr, IfOk, Some, map, string_bytes, vec_len};
ghost use Rattle.commands.specs.Program.{program};
ghost use Rattle.commands.specs.Stops.{IsMadeBy};
ghost use Rattle.loop_command_line.specs.Arguments.{IsWithinLimits, loop_ask};
ghost use Rattle.loop_commands.specs.LoopFiles.{IsFaultOf, IsListFault, Lists};

use crate::fault::LoopFault;
use commands::{Program, fetch, load};
use fp_io::Files;
use fp_setup::Name;
use loop_command_line::{Listed, LoopAsk, MOST_LIST_BYTES, read_arguments, read_plants};
use std::alloc::Global;

/// A run in closed loops.
#[derive(Drop)]
pub struct LoopRun {
    /// What the arguments ask for.
    pub ask: LoopAsk,
    /// The setup and its image.
    pub program: Program,
    /// The plants of the eight threads.
    pub plants: Vec<Option<Listed>>,
}

/// Fetches and reads a list of plants.
#[tactic(auto, using(crate::proofs::Lists::run_faults))]
fn fetch_plants<F: Files>(
    alloc: Global,
    name: &Name,
    files: &mut F,
) -> Result<Vec<Option<Listed>>, LoopFault>
    ensures contents { F.contents files.new ≡ F.contents files.old }
    ensures counted { F.faults files.old ≤ F.faults files.new }
    ensures ok { IfOk result (λ plants. Lists (F.contents files.old) name.now plants.items) }
    ensures fault { IfErr result (IsListFault (F.contents files.old) name.now
        (F.faults files.old) (F.faults files.new)) }
    ensures eight { IfOk result (λ plants. vec_len plants ≡ 8) }
{
    let text = fetch(alloc, name, MOST_LIST_BYTES, files)?;
    Ok(read_plants(alloc, &text)?)
}

/// Reads the run that the arguments give: `SETUP --plants FILE --thread i --every n --cycles n`.
/// The setup and its image are read first, and then the list of plants.
///
/// # Errors
///
/// The first of: the arguments give no run; the setup, its image or the list isn't there, can't be
/// read, or has a fault. `Stopped(NoMemory)` if memory ran out.
#[tactic(auto, using(crate::proofs::Lists::run_faults))]
pub fn read_loop<F: Files>(
    alloc: Global,
    words: &[String],
    files: &mut F,
) -> Result<LoopRun, LoopFault>
    ensures contents { F.contents files.new ≡ F.contents files.old }
    ensures counted { F.faults files.old ≤ F.faults files.new }
    ensures asked { IfOk result (λ run. loop_ask (map string_bytes words.now) ≡ Some run.ask) }
    ensures program { IfOk result (λ run.
        IsMadeBy (F.contents files.old) (λ contents. program contents run.ask.setup) run.program) }
    ensures plants { IfOk result (λ run.
        Lists (F.contents files.old) run.ask.plants run.plants.items) }
    ensures fault { IfErr result (IsFaultOf (F.contents files.old)
        (loop_ask (map string_bytes words.now)) (F.faults files.old) (F.faults files.new)) }
    ensures limits { IfOk result (λ run. IsWithinLimits run.ask) }
    ensures eight { IfOk result (λ run. vec_len run.plants ≡ 8) }
{
    let ask = read_arguments(alloc, words)?;
    let program = load(alloc, &ask.setup, files)?;
    let plants = fetch_plants(alloc, &ask.plants, files)?;
    Ok(LoopRun {
        ask,
        program,
        plants,
    })
}
