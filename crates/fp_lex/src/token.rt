//! Tokens, and why a line isn't one of tokens.

ghost use Rattle.std.specs.Prelude.{◌≡◌};

use std::alloc::AllocFailed;
use std::marker::Model;
use thiserror::Error;

/// The kind of a token.
#[derive(Clone, Copy, Debug)]
pub enum Kind {
    /// A letter, `_` or `.`, and then letters, digits, `_` and `.`.
    Name,
    /// Decimal digits, or `0x` and hexadecimal digits of either case.
    Number,
    /// One of `,` `:` `(` `)` `+` `-`.
    Mark,
}

/// A token, whose text is the slice of its line from `start` to before `end`, in bytes.
#[derive(Clone, Copy, Debug)]
pub struct Token {
    /// The token's kind.
    pub kind: Kind,
    /// The index of its first byte in the line, from 0.
    pub start: u32,
    /// The index after its last byte.
    pub end: u32,
    /// A number's value, a mark's byte, and 0 for a name.
    pub value: u32,
}

/// The reason why a line was refused. A column is the index of a byte in the line, from 0.
#[derive(Clone, Copy, Debug, PartialEq, Eq, Error)]
pub enum LexNo {
    /// A byte outside comments that begins no token.
    #[error("byte {column} begins no token")]
    BadChar { column: u32 },
    /// A number that begins at the column and passes 2^32 - 1, has no digit after `0x`, or has a
    /// letter, `_` or `.` directly after it.
    #[error("byte {column} begins a bad number")]
    BadNumber { column: u32 },
    /// More than 64 tokens.
    #[error("more than 64 tokens")]
    TooMany,
    /// Out of memory.
    #[error("out of memory")]
    NoMemory,
}

impl From<AllocFailed<Token>> for LexNo {
    ghost use Rattle.fp_lex.specs.declared.token.LexNo.{LexNo};

    ghost from_gives = { λ _ refused. refused ≡ LexNo.NoMemory };

    fn from(_failed: AllocFailed<Token>) -> LexNo {
        LexNo::NoMemory
    }
}

/// The tokens of a line, from left to right.
#[derive(Drop)]
pub struct Tokens {
    list: Vec<Token>,
}

impl Model for Tokens {
    ghost use Rattle.std.specs.Prelude.{List};
    ghost use Rattle.fp_lex.specs.declared.token.Token.{Token};

    ghost Value = { List Token };

    ghost view = { λ tokens. tokens.list.items };
}

impl Tokens {
    /// The tokens of a list.
    pub fn from_vec(list: Vec<Token>) -> Tokens
        ensures { result ≡ list.items }
    {
        Tokens { list }
    }

    /// The list of the tokens.
    pub fn into_vec(self) -> Vec<Token>
        ensures { result.items ≡ self }
    {
        self.list
    }

    /// The tokens as a slice.
    pub fn as_slice(&self) -> &[Token]
        ensures { result.now ≡ self.now }
    {
        self.list.as_slice()
    }
}
