//! The tokens of a line, or its fault.

use crate::escapes::unescaped;
use fp_lex::{Token, tokens};
use std::alloc::Global;
use test_text::RowText;

/// `LINE`, with escapes.
pub fn push_answer(text: &mut RowText, alloc: Global, call: &str) {
    let line = unescaped(text, alloc, call);
    if line.len() > 1000 {
        return text.push_str("too long");
    }
    match tokens(alloc, &line) {
        Ok(tokens) => push_tokens(text, tokens.as_slice()),
        Err(fault) => write!(text, "{fault:?}"),
    }
}

/// Writes the tokens of a line.
fn push_tokens(text: &mut RowText, tokens: &[Token]) {
    for token in tokens {
        let Token {
            kind,
            start,
            end,
            value,
        } = *token;
        write!(text, "{kind:?} {start}..{end} {value};");
    }
}
