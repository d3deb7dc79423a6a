//! Eight threads with 31 registers each, and x0.

ghost use Rattle.std.specs.Prelude.{◌≡◌, ◌<◌, length, replicate, slice_set};
ghost use Rattle.regfile_bank.specs.Registers.{register, registers_of, with_register};

use std::marker::Model;

/// The registers x1 to x31 of the eight hardware threads. x0 reads 0 and ignores writes. A thread
/// is 0 to 7, and a register 0 to 31.
#[derive(Clone, Copy, Debug)]
pub struct Bank {
    // A row of 32 words for each thread. The first is x0's and stays 0, so that a read needs no
    // test.
    rows: [[u32; 32]; 8],
}

impl Model for Bank {
    ghost use Rattle.std.specs.Prelude.{List, ℕ, All, map, drop};
    ghost use Rattle.regfile_bank.specs.Kept.{IsRow, with_x0, rows_again};

    ghost Value = { List (List ℕ) };

    ghost view = { λ b. map (drop 1) b.rows };

    ghost invariant = { λ b. All IsRow b.rows };

    ghost inverse = { λ registers. record { rows = map with_x0 registers } };

    ghost inverse_ok = { λ b all i. record { rows = rows_again b.rows all i } };
}

impl Bank {
    /// A bank in which every register is 0.
    pub fn new() -> Bank
        ensures { result ≡ replicate 8 (replicate 31 0) }
    {
        Bank { rows: [[0; 32]; 8] }
    }

    /// The word of a thread's register.
    pub fn read(&self, thread: u8, x: u8) -> u32
        requires thread { thread < 8 }
        requires register { x < 32 }
        ensures value { result ≡ register (registers_of self.now thread) x }
        ensures words { length (registers_of self.now thread) ≡ 31 }
    {
        let row = &self.rows[thread as usize];
        row[x as usize]
    }

    /// Writes a word to a thread's register.
    pub fn write(&mut self, thread: u8, x: u8, v: u32)
        requires thread { thread < 8 }
        requires register { x < 32 }
        ensures row { self.new
            ≡ slice_set self.old thread (with_register (registers_of self.old thread) x v) }
        ensures words { length (registers_of self.new thread) ≡ 31 }
        ensures eight { length self.new ≡ 8 }
    {
        if x != 0 {
            self.rows[thread as usize][x as usize] = v;
        }
    }
}
