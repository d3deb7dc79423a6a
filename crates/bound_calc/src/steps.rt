//! The turns of a thread, and the steps between them.

ghost use Rattle.std.specs.Prelude.{◌≡◌, ◌≢◌, ℕ, ◌+◌, ◌%◌, ◌<◌, ◌≤◌, ◌↔◌, length};
ghost use Rattle.std.specs.Prelude.{IsTrue, Contains, Option, Some, None, slice_index_or};
ghost use Rattle.rv_decode.specs.Lag.{redirect_lag};
ghost use Rattle.slot_table.specs.Frame.{frame};
ghost use Rattle.region_tree.specs.Walk.{IsOwn, IsNextTurn};
ghost use Rattle.bound_calc.specs.Best.{IsBest, Stays};
ghost use Rattle.bound_calc.specs.Bound.{positions};
ghost use Rattle.bound_calc.specs.Hops.{Hops, IsHops};
ghost use Rattle.bound_calc.specs.Matrices.{cell, entry};

use crate::hop::{Hop, HopRow};
use crate::matrix::Matrix;
use slot_table::{SlotTable, Turn};
use std::marker::Model;

/// Whether a cycle is the thread's turn.
fn is_own(slots: &SlotTable, thread: u8, cycle: u64) -> bool
    requires { thread < 8 }
    ensures { IsTrue result ↔
        IsOwn (positions slots.now thread) (cycle % length (frame slots.now)) }
{
    match slots.turn(cycle) {
        Turn::Thread(turn) => turn == thread,
        Turn::Soft | Turn::Nobody => false,
    }
}

/// Whether a thread, 0 to 7, has a slot of its own.
pub fn has_slot(slots: &SlotTable, thread: u8) -> bool
    requires { thread < 8 }
    ensures { IsTrue result ↔ Contains (frame slots.now) thread }
{
    for cycle in 0..u64::from(slots.frame_len()) {
        if is_own(slots, thread, cycle) {
            return true;
        }
    }
    false
}

/// The cycles from a position of the thread until its first turn that is at least `lag` later.
fn distance(slots: &SlotTable, thread: u8, position: u64, lag: u64) -> u64
    requires thread { thread < 8 }
    requires own { IsOwn (positions slots.now thread) position }
    requires lag { lag ≤ redirect_lag }
    ensures far { result ≤ 24 }
    ensures next { IsNextTurn (positions slots.now thread) lag position result
        ((position + result) % length (frame slots.now)) }
{
    let mut cycles = lag;
    while !is_own(slots, thread, position + cycles) {
        cycles += 1;
    }
    cycles
}

/// The step from a position, if that is the thread's.
fn hop(slots: &SlotTable, thread: u8, position: u64, lag: u64) -> Option<Hop>
    requires thread { thread < 8 }
    requires lag { lag ≤ redirect_lag }
    requires position { position < 8 }
    ensures found { (d q : ℕ) → result ≡ Some (record { cost = d; position = q }) →
        IsNextTurn (positions slots.now thread) lag position d q }
    ensures all { (d q : ℕ) → IsNextTurn (positions slots.now thread) lag position d q →
        result ≡ Some (record { cost = d; position = q }) }
{
    let count = u64::from(slots.frame_len());
    if position >= count || !is_own(slots, thread, position) {
        return None;
    }
    let cost = distance(slots, thread, position, lag);
    Some(Hop {
        cost,
        position: ((position + cost) % count) as usize,
    })
}

/// The steps from each position.
fn hop_row(slots: &SlotTable, thread: u8, lag: u64) -> HopRow
    requires thread { thread < 8 }
    requires lag { lag ≤ redirect_lag }
    ensures { IsHops (positions slots.now thread) lag result.hops }
{
    let mut hops = [None; 8];
    for position in 0..8 {
        hops[position] = hop(slots, thread, position as u64, lag);
    }
    HopRow { hops }
}

/// A row of the identity matrix: no cycles at the position, if that is the thread's.
fn one_row(slots: &SlotTable, thread: u8, position: usize) -> [Option<u128>; 8]
    requires thread { thread < 8 }
    requires position { position < 8 }
    ensures found { (q d : ℕ) → q < 8 → slice_index_or result q None ≡ Some d →
        Stays (IsOwn (positions slots.now thread)) position d q }
    ensures all { (q d : ℕ) → Stays (IsOwn (positions slots.now thread)) position d q →
        slice_index_or result q None ≡ Some d }
{
    let mut row = [None; 8];
    if position < slots.frame_len() as usize && is_own(slots, thread, position as u64) {
        row[position] = Some(0);
    }
    row
}

/// The identity matrix: no cycles from each of the thread's positions to itself.
fn one(slots: &SlotTable, thread: u8) -> Matrix
    requires { thread < 8 }
    ensures { IsBest (entry result) (Stays (IsOwn (positions slots.now thread))) }
{
    let mut best = [[None; 8]; 8];
    for position in 0..8 {
        best[position] = one_row(slots, thread, position);
    }
    Matrix { best }
}

/// The turns of a thread, with the steps between them. Contracts see the frame and the thread.
#[derive(Drop)]
pub struct Steps {
    slots: SlotTable,
    thread: u8,
    one: Matrix,
    rows: [HopRow; 4],
}

impl Model for Steps {
    ghost use Rattle.region_tree.specs.Walk.{Positions};
    ghost use Rattle.bound_calc.specs.Bound.{positions};
    ghost use Rattle.bound_calc.specs.Hops.{IsTable};

    ghost Value = { Positions };

    ghost view = { λ s. positions s.slots s.thread };

    ghost invariant = { λ s. IsTable (positions s.slots s.thread) s.one s.rows };
}

impl Steps {
    ghost use Rattle.std.specs.Prelude.{◌≡◌, ◌<◌, ◌≤◌, length};
    ghost use Rattle.region_tree.specs.Walk.{IsOwn};
    ghost use Rattle.bound_calc.specs.Best.{IsBest, Stays};
    ghost use Rattle.bound_calc.specs.Bound.{positions};
    ghost use Rattle.bound_calc.specs.Hops.{IsHops};
    ghost use Rattle.bound_calc.specs.Matrices.{entry};

    /// The steps of a thread by a table of slots.
    pub fn new(slots: SlotTable, thread: u8) -> Steps
        requires { thread < 8 }
        ensures { result ≡ positions slots thread }
    {
        Steps {
            slots,
            thread,
            one: one(&slots, thread),
            rows: [
                hop_row(&slots, thread, 0),
                hop_row(&slots, thread, 1),
                hop_row(&slots, thread, 2),
                hop_row(&slots, thread, 3),
            ],
        }
    }

    /// The identity matrix.
    pub fn one(&self) -> &Matrix
        ensures one { IsBest (entry result.now) (Stays (IsOwn self.now)) }
        ensures frame { length self.now.frame ≤ 8 }
    {
        &self.one
    }

    /// The steps after a lag of 0 to 3 cycles.
    pub fn hops(&self, lag: u64) -> &HopRow
        requires { lag ≤ redirect_lag }
        ensures hops { IsHops self.now lag result.now.hops }
        ensures frame { length self.now.frame ≤ 8 }
    {
        &self.rows[lag as usize]
    }
}
