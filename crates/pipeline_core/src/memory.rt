//! The words of the two scratchpads, as fetches, loads and stores access them.

ghost use Rattle.std.specs.Prelude.{◌≡◌, ◌-◌, ◌<◌, ◌/◌, ◌%◌, ◌||◌, true, length, vec_len};
ghost use Rattle.region_guard.specs.Regions.{is_code, is_data};
ghost use Rattle.rv_exec.specs.Access.{lanes_at};
ghost use Rattle.rv_exec.specs.Line.{IsWidth};
ghost use Rattle.core_model.specs.Memory.{code_at, data_at};
ghost use Rattle.core_model.specs.World.{words_after};
ghost use Rattle.core_model.specs.Delays.{cycles_to_m};
ghost use Rattle.fp_ports.specs.PluggedPorts.{rows_of, row_at, word_seen};
ghost use Rattle.pipeline_core.specs.StageFacts.{EffectFits};

use core_model::CYCLES_TO_M;
use fp_ports::{Port, Ports, read_port};
use region_guard::Guard;
use rv_decode::StoreOp;
use rv_exec::{Effect, Lanes, store_lanes};
use scratchpad::Spm;

/// The word of the instruction scratchpad at a pc, 0 outside.
#[inline(always)]
#[tactic(auto, unfolding(core_model::specs::Memory::code_at))]
pub fn code_word(guard: &Guard, imem: &Spm, pc: u32) -> u32
    requires { length imem.now ≡ guard.now.size / 4 }
    ensures { result ≡ code_at guard.now.size imem.now pc }
{
    if guard.is_code(pc) {
        imem.word_at(guard.code_index(pc))
    } else {
        0
    }
}

/// The word that a thread's load reads at an address; outside the scratchpads it is the word that
/// the thread's port showed three cycles ago.
#[inline(always)]
#[tactic(auto, unfolding(core_model::specs::Memory::data_at))]
pub fn data_word(
    guard: &Guard,
    imem: &Spm,
    dmem: &Spm,
    ports: &mut Ports,
    thread: u8,
    cycle: u64,
    address: u32,
) -> u32
    requires imem { length imem.now ≡ guard.now.size / 4 }
    requires dmem { length dmem.now ≡ guard.now.size / 4 }
    requires eight { vec_len ports.old ≡ 8 }
    requires thread { thread < 8 }
    ensures word { result ≡ data_at guard.now.size imem.now dmem.now
        (word_seen (row_at (rows_of latched word_at ports.old.items) thread)
        (cycle - cycles_to_m)) address }
    ensures rows { rows_of latched word_at ports.new.items ≡
        rows_of latched word_at ports.old.items }
    ensures untouched { (is_code guard.now.size address || is_data guard.now.size address) ≡ true →
        ports.new ≡ ports.old }
    ensures eight { vec_len ports.new ≡ 8 }
{
    if guard.is_code(address) {
        imem.word_at(guard.code_index(address))
    } else if guard.is_data(address) {
        dmem.word_at(guard.data_index(address))
    } else {
        read_port(ports, thread, cycle.saturating_sub(CYCLES_TO_M))
    }
}

/// The lanes of a store of `size` bytes.
#[inline(always)]
fn lanes_of(size: u8, address: u32, value: u32) -> Lanes
    requires width { IsWidth size }
    requires aligned { address % size ≡ 0 }
    ensures { result ≡ lanes_at size address value }
{
    match size {
        1 => store_lanes(StoreOp::Sb, address, value),
        2 => store_lanes(StoreOp::Sh, address, value),
        _ => store_lanes(StoreOp::Sw, address, value),
    }
}

/// Applies an effect to the data scratchpad.
#[inline(always)]
pub fn store_in_scratchpad(guard: &Guard, dmem: &mut Spm, effect: &Option<Effect>)
    requires dmem { length dmem.old ≡ guard.now.size / 4 }
    requires fits { EffectFits effect.now }
    ensures words { dmem.new ≡ words_after guard.now.size effect.now dmem.old }
    ensures length { length dmem.new ≡ length dmem.old }
{
    if let Some(
        Effect::Store {
            address,
            size,
            value,
        },
    ) = effect
        && guard.is_data(*address)
    {
        dmem.store(
            guard.data_index(*address),
            lanes_of(*size, *address, *value),
        );
    }
}
