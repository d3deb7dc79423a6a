//! M: loads and stores access the scratchpads and the ports.

ghost use Rattle.std.specs.Prelude.{◌≡◌, ◌-◌, ◌<◌, ◌/◌, Some, false, length, vec_len};
ghost use Rattle.rv_decode.specs.Table.{ins};
ghost use Rattle.rv_exec.specs.Access.{IsAligned};
ghost use Rattle.core_model.specs.Thread.{with_late_value};
ghost use Rattle.core_model.specs.Issue.{late_rd, late_value};
ghost use Rattle.core_model.specs.Memory.{data_at};
ghost use Rattle.core_model.specs.Delays.{cycles_to_m};
ghost use Rattle.fp_ports.specs.PluggedPorts.{rows_of, row_at, word_seen};
ghost use Rattle.pipe_model.specs.declared.stage_registers.Held.TheVariants.{Issue};
ghost use Rattle.rv_exec.specs.declared.outcome.Effect.TheVariants.{Nothing, Reg};
ghost use Rattle.pipe_model.specs.Stages.{memory_stage, words_stored, ports_stored, put_at_port};
ghost use Rattle.pipeline_core.specs.Turns.{held};
ghost use Rattle.pipeline_core.specs.StageFacts.{EffectFits, ExecutedFits, StoredFits};
ghost use Rattle.pipeline_core.specs.StageFacts.{at_port, loads_port, uses_port};

use crate::memory::{data_word, store_in_scratchpad};
use crate::stage_register::StageRegister;
use fp_ports::{Port, Ports, write_port};
use hart_exec::{Sources, finish};
use pipe_model::{Executed, Stored};
use region_guard::{Guard, PORT_ADDRESS};
use rv_decode::{Ins, decode};
use rv_exec::Effect;
use scratchpad::Spm;
use std::slice::{from_mut, from_ref};

/// The effect of an instruction whose value may come late, with that value. Until M its effect is
/// `Nothing`. A load at the port reads the word of three cycles ago, the cycle of the load's issue.
#[inline(always)]
fn late_effect(
    guard: &Guard,
    imem: &Spm,
    dmem: &Spm,
    ports: &mut Ports,
    thread: u8,
    cycle: u64,
    x: &Executed,
) -> Option<Effect>
    requires imem { length imem.now ≡ guard.now.size / 4 }
    requires dmem { length dmem.now ≡ guard.now.size / 4 }
    requires eight { vec_len ports.old ≡ 8 }
    requires thread { thread < 8 }
    requires nothing { x.now.effect ≡ Some Nothing }
    requires aligned { IsAligned (ins x.now.word) x.now.address }
    ensures effect { let found = data_at guard.now.size imem.now dmem.now
        (word_seen (row_at (rows_of latched word_at ports.old.items) thread) (cycle - cycles_to_m))
        x.now.address in
        result ≡ with_late_value (late_rd (ins x.now.word))
        (late_value (ins x.now.word) found x.now.address x.now.a x.now.b) x.now.effect }
    ensures fits { EffectFits result }
    ensures rows { rows_of latched word_at ports.new.items ≡
        rows_of latched word_at ports.old.items }
    ensures idle { loads_port guard.now.size x.now ≡ false → ports.new ≡ ports.old }
    ensures eight { vec_len ports.new ≡ 8 }
{
    let i = decode(x.word);
    let found = match i {
        Ins::Load { .. } => data_word(guard, imem, dmem, ports, thread, cycle, x.address),
        _ => 0,
    };
    let sources = Sources { a: x.a, b: x.b };
    finish(Some(Effect::Nothing), &i, found, x.address, sources)
}

/// The stage register's content for an instruction with its effect.
#[inline(always)]
fn stored(x: &Executed, effect: Option<Effect>) -> Stored
    ensures { result ≡ record { pc = x.now.pc; word = x.now.word; effect = effect } }
{
    Stored {
        pc: x.pc,
        word: x.word,
        effect,
    }
}

/// Writes to `m` an instruction that writes a register. It is a separate function, so that only
/// this variant's fields are copied.
#[inline(always)]
fn put_register(thread: u8, x: &Executed, rd: u8, value: u32, m: &mut StageRegister<Stored>)
    requires { thread < 8 }
    ensures { held m.new ≡ Issue thread (record {
      pc = x.now.pc;
      word = x.now.word;
      effect = Some (Reg rd value);
    }) }
{
    let what = stored(x, Some(Effect::Reg { rd, value }));
    m.put(thread, what);
}

/// Writes to `m` an instruction with its effect after E. The effect is copied as a slice of one
/// element, without a case for each variant.
#[inline(always)]
fn put_same(thread: u8, x: &Executed, m: &mut StageRegister<Stored>)
    requires { thread < 8 }
    ensures { held m.new ≡ Issue thread (record {
      pc = x.now.pc;
      word = x.now.word;
      effect = x.now.effect;
    }) }
{
    m.turn = thread;
    m.what.pc = x.pc;
    m.what.word = x.word;
    from_mut(&mut m.what.effect).copy_from_slice(from_ref(&x.effect));
}

/// Writes to `m` an instruction whose value may have come late. Its effect is `Reg` or `Nothing`,
/// and only the variant's own fields are copied.
#[inline(always)]
fn put_late(thread: u8, x: &Executed, effect: Option<Effect>, m: &mut StageRegister<Stored>)
    requires { thread < 8 }
    ensures { held m.new ≡ Issue thread (record {
      pc = x.now.pc;
      word = x.now.word;
      effect = effect;
    }) }
{
    match effect {
        Some(Effect::Reg { rd, value }) => put_register(thread, x, rd, value, m),
        Some(Effect::Nothing) => {
            let what = stored(x, Some(Effect::Nothing));
            m.put(thread, what);
        }
        effect => {
            let what = stored(x, effect);
            m.put(thread, what);
        }
    }
}

/// Applies a thread's effect to its port.
#[inline(always)]
fn store_at_port(ports: &mut Ports, thread: u8, effect: &Option<Effect>)
    requires eight { vec_len ports.old ≡ 8 }
    requires thread { thread < 8 }
    ensures rows { rows_of latched word_at ports.new.items ≡
        put_at_port thread effect.now (rows_of latched word_at ports.old.items) }
    ensures idle { at_port effect.now ≡ false → ports.new ≡ ports.old }
    ensures eight { vec_len ports.new ≡ 8 }
{
    if let Some(Effect::Store { address, value, .. }) = effect
        && *address == PORT_ADDRESS
    {
        write_port(ports, thread, *value);
    }
}

/// Writes to `m` the result of M for an instruction that was issued three cycles ago. Does its
/// store, in the data scratchpad or at its thread's port.
#[inline(always)]
#[tactic(auto, unfolding(crate::proofs::Opened::storing))]
fn access_issue(
    guard: &Guard,
    imem: &Spm,
    dmem: &mut Spm,
    ports: &mut Ports,
    cycle: u64,
    thread: u8,
    x: &Executed,
    m: &mut StageRegister<Stored>,
)
    requires imem { length imem.now ≡ guard.now.size / 4 }
    requires dmem { length dmem.old ≡ guard.now.size / 4 }
    requires eight { vec_len ports.old ≡ 8 }
    requires fits { ExecutedFits (Issue thread x.now) }
    ensures stage { held m.new ≡ memory_stage guard.now.size imem.now dmem.old
        (rows_of latched word_at ports.old.items) (cycle - cycles_to_m) (Issue thread x.now) }
    ensures fits { StoredFits (held m.new) }
    ensures words { dmem.new ≡ words_stored guard.now.size (held m.new) dmem.old }
    ensures length { length dmem.new ≡ length dmem.old }
    ensures rows { rows_of latched word_at ports.new.items ≡
        ports_stored (held m.new) (rows_of latched word_at ports.old.items) }
    ensures idle { uses_port guard.now.size (Issue thread x.now) ≡ false → ports.new ≡ ports.old }
    ensures eight { vec_len ports.new ≡ 8 }
{
    if let Some(Effect::Nothing) = x.effect {
        let effect = late_effect(guard, imem, dmem, ports, thread, cycle, x);
        put_late(thread, x, effect, m);
        return;
    }
    // A local `Store`: `store_in_scratchpad` and `store_at_port` then need no test of the variant.
    if let Some(
        Effect::Store {
            address,
            size,
            value,
        },
    ) = x.effect
    {
        let effect = Some(Effect::Store {
            address,
            size,
            value,
        });
        store_in_scratchpad(guard, dmem, &effect);
        store_at_port(ports, thread, &effect);
    }
    put_same(thread, x, m);
}

/// Writes to `m` the result of M for a turn that was issued three cycles ago, and does its store.
#[inline(always)]
#[tactic(auto, unfolding(crate::proofs::Opened::storing))]
pub fn memory_stage(
    guard: &Guard,
    imem: &Spm,
    dmem: &mut Spm,
    ports: &mut Ports,
    cycle: u64,
    e: &StageRegister<Executed>,
    m: &mut StageRegister<Stored>,
)
    requires imem { length imem.now ≡ guard.now.size / 4 }
    requires dmem { length dmem.old ≡ guard.now.size / 4 }
    requires eight { vec_len ports.old ≡ 8 }
    requires fits { ExecutedFits (held e.now) }
    ensures stage { held m.new ≡ memory_stage guard.now.size imem.now dmem.old
        (rows_of latched word_at ports.old.items) (cycle - cycles_to_m) (held e.now) }
    ensures fits { StoredFits (held m.new) }
    ensures words { dmem.new ≡ words_stored guard.now.size (held m.new) dmem.old }
    ensures length { length dmem.new ≡ length dmem.old }
    ensures rows { rows_of latched word_at ports.new.items ≡
        ports_stored (held m.new) (rows_of latched word_at ports.old.items) }
    ensures idle { uses_port guard.now.size (held e.now) ≡ false → ports.new ≡ ports.old }
    ensures eight { vec_len ports.new ≡ 8 }
{
    if e.is_issue() {
        access_issue(guard, imem, dmem, ports, cycle, e.turn, &e.what, m);
    } else {
        m.take_turn(e);
    }
}
