//! Cycles, right in ten columns.

ghost use Rattle.std.specs.Prelude.{◌≡◌, ℕ, ◌+◌, ◌*◌, ◌<◌, ◌^◌, replicate};
ghost use Rattle.selfrun.specs.Folds.{AreLower, IsPiece, upper_text};

use crate::piece::Piece;
use std::marker::Model;

/// Spaces.
fn blanks(width: usize) -> Piece
    ensures { IsPiece result (replicate width 32) }
{
    let mut piece = Piece::EMPTY;
    for _column in 0..width {
        piece = piece.then(b' ');
    }
    piece
}

/// The text before the last digit of a right-aligned number, from a tenth of the number and the
/// number of columns.
fn upper(width: usize, tens: u64) -> Piece
    ensures { IsPiece result (upper_text width tens) }
{
    if tens == 0 {
        return blanks(width);
    }
    upper(width.saturating_sub(1), tens / 10).then(b'0' + (tens % 10) as u8)
}

/// The last two digits of a cycle and a space, by these digits.
fn lower_pieces() -> [Piece; 100]
    ensures { AreLower result }
{
    let mut pieces = [Piece::EMPTY; 100];
    for n in 0..100u8 {
        let digits = Piece::EMPTY.then(b'0' + n / 10).then(b'0' + n % 10);
        pieces[usize::from(n)] = digits.then(b' ');
    }
    pieces
}

/// A cache for the texts of cycles. A hundred cycles have the same text before their last two
/// digits; that of the last such hundred is cached. Contracts don't depend on it.
#[derive(Drop)]
pub struct Cycles {
    /// The last two digits of a cycle and the space after it, by these digits.
    lower: [Piece; 100],
    /// The first one of the hundred cycles, 100 or more: a cycle below 100 has spaces in place of
    /// digits.
    first: u64,
    /// The text before their last two digits.
    upper: Piece,
}

impl Model for Cycles {
    ghost use Rattle.std.specs.Prelude.{◌/◌};
    ghost use Rattle.selfrun.specs.Folds.{AreLower, IsFirst, IsPiece, upper_text};

    ghost Value = { Unit {0} };

    ghost view = { λ c. tt };

    ghost invariant = { λ c. AreLower c.lower × IsFirst c.first
        × IsPiece c.upper (upper_text 8 (c.first / 100)) };
}

impl Cycles {
    ghost use Rattle.std.specs.Prelude.{◌≡◌, ◌<◌, ◌^◌};
    ghost use Rattle.selfrun.specs.Folds.{cycle_text};
    ghost use Rattle.selfrun.specs.Text.{fold_of};

    /// With the cycles from 100 on.
    pub fn new() -> Cycles {
        Cycles {
            lower: lower_pieces(),
            first: 100,
            upper: upper(8, 1),
        }
    }

    /// A hash with a cycle and a space appended.
    #[inline(always)]
    pub fn fold(&mut self, h: u32, cycle: u64) -> u32
        requires { cycle < 10 ^ 10 }
        ensures { result ≡ fold_of h (cycle_text cycle) }
    {
        let lower = cycle.wrapping_sub(self.first);
        if lower >= 100 {
            return self.fold_other(h, cycle);
        }
        self.lower[lower as usize].after(self.upper.after(h))
    }

    /// A hash with a cycle and a space appended, if the cycle isn't one of the cached hundred. Its
    /// hundred is cached from then on.
    #[cold]
    #[inline(never)]
    fn fold_other(&mut self, h: u32, cycle: u64) -> u32
        requires { cycle < 10 ^ 10 }
        ensures { result ≡ fold_of h (cycle_text cycle) }
    {
        if cycle < 100 {
            let digits = upper(9, cycle / 10).then(b'0' + (cycle % 10) as u8);
            return digits.then(b' ').after(h);
        }
        let last = cycle % 100;
        self.first = cycle - last;
        self.upper = upper(8, cycle / 100);
        self.lower[last as usize].after(self.upper.after(h))
    }
}
