//! F: words are fetched.

ghost use Rattle.std.specs.Prelude.{◌≡◌, ◌/◌, All, Some, length};
ghost use Rattle.slot_scheduler.specs.Picking.{IsPick};
ghost use Rattle.pipe_model.specs.Stages.{flushes_f, next_after_redirect};
ghost use Rattle.pipe_model.specs.Stages.{fetch_stage, next_after_fetch};
ghost use Rattle.pipeline_core.specs.Turns.{held};
ghost use Rattle.pipeline_core.specs.StageFacts.{IsPc, FetchedFits, RedirectFits};

use crate::memory::code_word;
use crate::stage_register::StageRegister;
use pipe_model::{Fetched, Flush, Redirect};
use region_guard::Guard;
use scratchpad::Spm;
use slot_scheduler::Pick;

/// Whether a redirect flushes a thread's turn in F: only a redirect with `DecodeAndFetch` does.
fn flushes_f(thread: u8, redirect: Option<Redirect>) -> bool
    ensures { result ≡ flushes_f thread redirect }
{
    let Some(redirect) = redirect else {
        return false;
    };
    match redirect.flush {
        Flush::Decode => false,
        Flush::DecodeAndFetch => redirect.thread == thread,
    }
}

/// Sets the pc that the redirect's thread fetches next.
#[tactic(auto, unfolding(crate::proofs::Opened::redirecting), using(crate::proofs::Pcs::pcs_set))]
pub fn redirect_to(next: &mut [u32; 8], redirect: Redirect)
    requires pcs { All IsPc next.old }
    requires fits { RedirectFits (Some redirect) }
    ensures next { next.new ≡ next_after_redirect (Some redirect) next.old }
    ensures pcs { All IsPc next.new }
{
    next[redirect.thread as usize] = redirect.pc;
}

/// Writes the next word of the picked thread to `f`, if its turn isn't flushed. Inlined, as D is:
/// the step contains each twice, and the copy without a redirect doesn't test for one.
#[tactic(auto, unfolding(crate::proofs::Opened::fetching), using(crate::proofs::Pcs::moving))]
#[inline(always)]
pub fn fetch_stage(
    guard: &Guard,
    imem: &Spm,
    redirect: Option<Redirect>,
    next: &mut [u32; 8],
    pick: Pick,
    f: &mut StageRegister<Fetched>,
)
    requires imem { length imem.now ≡ guard.now.size / 4 }
    requires pcs { All IsPc next.old }
    requires pick { IsPick pick }
    ensures stage { held f.new ≡ fetch_stage guard.now.size imem.now redirect next.old pick }
    ensures next { next.new ≡ next_after_fetch redirect pick next.old }
    ensures pcs { All IsPc next.new }
    ensures fits { FetchedFits (held f.new) }
{
    let Pick::Issue { thread } = pick else {
        f.clear();
        return;
    };
    if flushes_f(thread, redirect) {
        f.flush(thread);
        return;
    }
    let pc = next[thread as usize];
    next[thread as usize] = pc.wrapping_add(4);
    let word = code_word(guard, imem, pc);
    f.put(thread, Fetched { pc, word });
}
