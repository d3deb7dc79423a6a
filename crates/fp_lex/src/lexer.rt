//! The tokens of a line.

ghost use Rattle.std.specs.Prelude.{◌≡◌, ◌<◌, ◌≤◌, ◌^◌, IfOk, IfErr, All, length};
ghost use Rattle.fp_lex.specs.Tokens.{tokens_of, IsFaultOf};
ghost use Rattle.fp_lex.specs.Texts.{IsTokenOf, AreRising};

use super::bytes::is_blank;
use super::scan::token_in;
use super::token::{LexNo, Token, Tokens};
use std::alloc::Global;

/// The tokens of a line, from left to right.
///
/// # Errors
///
/// The leftmost fault of the line: `BadChar` and `BadNumber` with its column, and `TooMany` at the
/// first byte of a 65th token. At one index `BadNumber` comes before `TooMany`, and a byte that
/// begins no token is `BadChar`. `NoMemory` if memory ran out.
pub fn tokens(alloc: Global, line: &[u8]) -> Result<Tokens, LexNo>
    requires { length line.now < 2 ^ 32 }
    ensures tokens { IfOk result (λ ts. tokens_of line.now ≡ Ok ts) }
    ensures refused { IfErr result (IsFaultOf (tokens_of line.now)) }

    // The kind and value of each token, from its text.
    ensures texts { IfOk result (All (IsTokenOf line.now)) }
    ensures rising { IfOk result (AreRising 0) }
    ensures few { IfOk result (λ ts. length ts ≤ 64) }
{
    Ok(Tokens::from_vec(list_of(alloc, line)?))
}

/// The tokens of a line up to its end or a comment.
#[tactic(auto, unfolding(crate::specs::Tokens::tokens_of))]
fn list_of(alloc: Global, line: &[u8]) -> Result<Vec<Token>, LexNo>
    requires { length line.now < 2 ^ 32 }
    ensures tokens { IfOk result (λ ts. tokens_of line.now ≡ Ok ts.items) }
    ensures refused { IfErr result (IsFaultOf (tokens_of line.now)) }
{
    let mut list = Vec::new(alloc);
    let mut i = 0;
    while i < line.len() {
        let b = line[i];
        if b == b'#' {
            break;
        }
        if is_blank(b) {
            i += 1;
            continue;
        }
        let token = token_in(line, i, list.len())?;
        i = token.end as usize;
        list.push(token)?;
    }
    Ok(list)
}
