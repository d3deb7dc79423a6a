//! The tokens of a line with their texts, and the pieces between commas.

ghost use Rattle.std.specs.Prelude.{◌≡◌, ◌<◌, ◌≤◌, ◌+◌, ◌^◌, IfOk, IfErr, Ok, map, length, All};
ghost use Rattle.fp_lex.specs.Tokens.{tokens_of};
ghost use Rattle.fp_asm.specs.Pieces.{mark as mark_of, piece as piece_of};
ghost use Rattle.fp_asm.specs.Pieces.{pieces_of, pieces_or_fault};
ghost use Rattle.fp_asm.specs.Pieces.{is_comma as is_comma_of, commas, operands_of};
ghost use Rattle.fp_asm.specs.Faults.{IsLineStopOf};
ghost use Rattle.fp_asm.specs.AbstractPieces.{abstract_piece, abstract_operand};

use super::refusal::{AsmNo, LineStop};
use fp_lex::{Kind, LexNo, Token, Tokens, tokens};
use std::alloc::{AllocError, Global};

/// A token, without its span.
#[derive(Clone, Copy)]
pub(crate) enum Piece<'a> {
    /// A name, by its text.
    Name { text: &'a [u8] },
    /// A number, by its value.
    Number { value: u32 },
    /// `,`
    Comma,
    /// `:`
    Colon,
    /// `(`
    Opening,
    /// `)`
    Closing,
    /// `+`
    Plus,
    /// `-`
    Minus,
}

/// The piece of a mark's byte.
fn mark<'a>(byte: u32) -> Piece<'a>
    ensures { abstract_piece result ≡ mark_of byte }
{
    match byte {
        44 => Piece::Comma,
        58 => Piece::Colon,
        40 => Piece::Opening,
        41 => Piece::Closing,
        43 => Piece::Plus,
        _ => Piece::Minus,
    }
}

/// The piece of a token: its kind, with its text or value.
#[tactic(auto, unfolding(crate::specs::Pieces::piece))]
fn piece_at<'a>(line: &'a [u8], token: &Token) -> Piece<'a>
    requires order { token.now.start ≤ token.now.end }
    requires inside { token.now.end ≤ length line.now }
    ensures { abstract_piece result ≡ piece_of line.now token.now }
{
    match token.kind {
        Kind::Name => Piece::Name {
            text: &line[token.start as usize..token.end as usize],
        },
        Kind::Number => Piece::Number { value: token.value },
        Kind::Mark => mark(token.value),
    }
}

/// The tokens of a line, at most 64.
#[tactic(auto, unfolding(crate::specs::Pieces::pieces_of))]
fn lexed(alloc: Global, line: &[u8]) -> Result<Tokens, LineStop>
    requires { length line.now < 2 ^ 32 }
    ensures pieces { IfOk result (λ ts. pieces_of line.now ≡ Ok (map (piece_of line.now) ts)) }
    ensures spans { IfOk result (All (λ t. (t.start ≤ t.end) × (t.end ≤ length line.now))) }
    ensures few { IfOk result (λ ts. length ts ≤ 64) }
    ensures refused { IfErr result (IsLineStopOf (pieces_of line.now)) }
{
    match tokens(alloc, line) {
        Ok(tokens) => Ok(tokens),
        Err(LexNo::NoMemory) => Err(LineStop::NoMemory),
        Err(_) => Err(LineStop::Fault { code: AsmNo::Lex }),
    }
}

/// The pieces of a line's tokens, in order.
fn pieces_at<'a>(
    alloc: Global,
    line: &'a [u8],
    tokens: &[Token],
) -> Result<Vec<Piece<'a>>, AllocError>
    requires { All (λ t. (t.start ≤ t.end) × (t.end ≤ length line.now)) tokens.now }
    ensures { IfOk result
        (λ ps. map abstract_piece ps.items ≡ map (piece_of line.now) tokens.now) }
{
    let mut list = Vec::with_capacity(alloc, tokens.len())?;
    for token in tokens {
        list.push(piece_at(line, token))?;
    }
    Ok(list)
}

/// The pieces of a line.
///
/// # Errors
///
/// [`AsmNo::Lex`] if the line isn't a sequence of tokens; or out of memory.
pub(crate) fn pieces<'a>(alloc: Global, line: &'a [u8]) -> Result<Vec<Piece<'a>>, LineStop>
    requires { length line.now < 2 ^ 32 }
    ensures pieces { IfOk result
        (λ ps. pieces_of line.now ≡ Ok (map abstract_piece ps.items)) }
    ensures few { IfOk result (λ ps. length ps.items ≤ 64) }
    ensures refused { IfErr result (IsLineStopOf (pieces_of line.now)) }
{
    let tokens = lexed(alloc, line)?;
    Ok(pieces_at(alloc, line, tokens.as_slice())?)
}

/// Whether a piece parts two operands.
fn is_comma(piece: &Piece) -> bool
    ensures { result ≡ is_comma_of (abstract_piece piece.now) }
{
    matches!(piece, Piece::Comma)
}

/// The operands of a statement: the pieces between its commas.
fn between_commas<'p, 'a>(
    alloc: Global,
    pieces: &'p [Piece<'a>],
) -> Result<Vec<&'p [Piece<'a>]>, AllocError>
    ensures operands { IfOk result
        (λ os. map abstract_operand os.items ≡ commas (map abstract_piece pieces.now)) }
    ensures few { IfOk result (λ os. length os.items ≤ length pieces.now + 1) }
{
    let mut list = Vec::new(alloc);
    let mut start = 0;
    for i in 0..pieces.len() {
        if !is_comma(&pieces[i]) {
            continue;
        }
        list.push(&pieces[start..i])?;
        start = i + 1;
    }
    list.push(&pieces[start..])?;
    Ok(list)
}

/// The operands: the pieces between commas, and none if there are no pieces.
///
/// # Errors
///
/// Out of memory.
#[tactic(auto, unfolding(crate::specs::Pieces::operands_of))]
pub(crate) fn operands<'p, 'a>(
    alloc: Global,
    pieces: &'p [Piece<'a>],
) -> Result<Vec<&'p [Piece<'a>]>, AllocError>
    ensures operands { IfOk result
        (λ os. map abstract_operand os.items ≡ operands_of (map abstract_piece pieces.now)) }
    ensures few { IfOk result (λ os. length os.items ≤ length pieces.now + 1) }
{
    match pieces {
        [] => Ok(Vec::new(alloc)),
        [_, ..] => between_commas(alloc, pieces),
    }
}
