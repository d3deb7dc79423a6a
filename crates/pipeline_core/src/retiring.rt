//! The turn that retires: its issue, its event and its place in `w`.

ghost use Rattle.std.specs.Prelude.{◌≡◌, ◌<◌, ◌≤◌, IfSome, Some, option_map};
ghost use Rattle.pipe_model.specs.Stages.{event_at};
ghost use Rattle.pipeline_core.specs.Turns.{held};
ghost use Rattle.pipeline_core.specs.Retiring.{event_of, retired_in};
ghost use Rattle.pipeline_core.specs.StageFacts.{StoredFits};
ghost use Rattle.rv_exec.specs.Line.{IsPrintable, IsPrintableEvent};

use crate::stage_register::StageRegister;
use core_model::CYCLES_TO_W;
use pipe_model::Stored;
use rv_exec::{Effect, Event};

/// An issue that retires with an effect. It borrows the effect: a cycle whose event isn't needed
/// then makes no event.
#[derive(Clone, Copy, Drop)]
pub struct Retired<'a> {
    /// The cycle of the issue.
    pub cycle: u64,
    /// Its thread.
    pub thread: u8,
    /// Its pc.
    pub pc: u32,
    /// Its word.
    pub word: u32,
    /// Its effect.
    pub effect: &'a Effect,
}

impl<'a> Retired<'a> {
    /// The issue of a thread in a cycle, as M leaves it, if it has an effect.
    #[inline(always)]
    pub fn of(cycle: u64, thread: u8, what: &'a Stored) -> Option<Retired<'a>>
        ensures event { option_map event_of result
            ≡ event_at cycle thread what.now.pc what.now.word what.now.effect }
        ensures cycle { IfSome result (λ r. r.cycle ≡ cycle) }
        ensures thread { IfSome result (λ r. r.thread ≡ thread) }
        ensures effect { IfSome result (λ r. what.now.effect ≡ Some r.effect.now) }
    {
        match &what.effect {
            Some(effect) => Some(Retired {
                cycle,
                thread,
                pc: what.pc,
                word: what.word,
                effect,
            }),
            None => None,
        }
    }

    /// Its event.
    #[inline(always)]
    pub fn event(&self) -> Event
        ensures { result ≡ event_of self.now }
    {
        Event {
            cycle: self.cycle,
            thread: self.thread,
            pc: self.pc,
            word: self.word,
            effect: *self.effect,
        }
    }
}

impl StageRegister<Stored> {
    /// The issue that retires in a cycle, if it has an effect: the turn in `m` before that cycle,
    /// which was issued [`CYCLES_TO_W`] cycles ago. Events and lines are made from it.
    #[inline(always)]
    #[tactic(auto, unfolding(pipe_model::specs::Stages::retired_event))]
    pub fn retired(&self, cycle: u64) -> Option<Retired<'_>>
        requires { StoredFits (held self.now) }
        ensures event { option_map event_of result ≡ retired_in cycle self.now }
        ensures cycle { IfSome result (λ r. r.cycle ≤ cycle) }
        ensures thread { IfSome result (λ r. r.thread < 8) }
        ensures printable { IfSome result (λ r. IsPrintable r.effect.now) }
    {
        if !self.is_issue() {
            return None;
        }
        Retired::of(cycle.saturating_sub(CYCLES_TO_W), self.turn, &self.what)
    }

    /// The event that retires in a cycle, if there is one.
    #[inline(always)]
    pub fn event(&self, cycle: u64) -> Option<Event>
        requires { StoredFits (held self.now) }
        ensures event { result ≡ retired_in cycle self.now }
        ensures printable { IsPrintableEvent result }
    {
        match self.retired(cycle) {
            Some(retired) => Some(retired.event()),
            None => None,
        }
    }
}
