//! The kinds of bytes.

ghost use Rattle.std.specs.Prelude.{◌≡◌};
ghost use Rattle.fp_lex.specs.Bytes.{is_digit as is_digit_of, is_hex as is_hex_of};
ghost use Rattle.fp_lex.specs.Bytes.{is_head as is_head_of, is_rest as is_rest_of};
ghost use Rattle.fp_lex.specs.Bytes.{is_blank as is_blank_of, is_mark as is_mark_of};

/// Whether the byte is a decimal digit.
pub(crate) fn is_digit(b: u8) -> bool
    ensures { result ≡ is_digit_of b }
{
    b.is_ascii_digit()
}

/// Whether the byte is a hexadecimal digit of either case.
pub(crate) fn is_hex(b: u8) -> bool
    ensures { result ≡ is_hex_of b }
{
    b.is_ascii_hexdigit()
}

/// Whether a name may begin with the byte: a letter, `_` or `.`.
pub(crate) fn is_head(b: u8) -> bool
    ensures { result ≡ is_head_of b }
{
    b.is_ascii_alphabetic() || b == b'_' || b == b'.'
}

/// Whether the byte may continue a name: a letter, a digit, `_` or `.`.
pub(crate) fn is_rest(b: u8) -> bool
    ensures { result ≡ is_rest_of b }
{
    is_head(b) || is_digit(b)
}

/// Whether the byte separates tokens: a space or a tab.
pub(crate) fn is_blank(b: u8) -> bool
    ensures { result ≡ is_blank_of b }
{
    b == b' ' || b == b'\t'
}

/// Whether the byte is a mark: `,` `:` `(` `)` `+` or `-`.
pub(crate) fn is_mark(b: u8) -> bool
    ensures { result ≡ is_mark_of b }
{
    matches!(b, b',' | b':' | b'(' | b')' | b'+' | b'-')
}
