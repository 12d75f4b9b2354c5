//! Classes of bytes.
ghost use Rattle.std.specs.Prelude.{◌≡◌, ◌≤◌, length, drop, slice_range};
ghost use Rattle.sc_syntax.specs.Bytes.{is_digit};
ghost use Rattle.sc_syntax.specs.Pieces.{begins_number, is_number};
ghost use Rattle.sc_syntax.specs.Spaces.{begins_line, is_blank, is_inline, is_white};

use sc_base::continues_name;

pub(crate) fn is_white(c: u8) -> bool
    ensures { result ≡ is_white c }
{
    c == b' ' || (9 <= c && c <= 13)
}

pub(crate) fn is_blank(c: u8) -> bool
    ensures { result ≡ is_blank c }
{
    c == b' ' || c == b'\t'
}

pub(crate) fn is_inline(c: u8) -> bool
    ensures { result ≡ is_inline c }
{
    c != b'\n'
}

pub(crate) fn is_digit(c: u8) -> bool
    ensures { result ≡ is_digit c }
{
    b'0' <= c && c <= b'9'
}

pub(crate) fn is_number(c: u8) -> bool
    ensures { result ≡ is_number c }
{
    continues_name(c) || c == b'.'
}

/// Only spaces and tabs stand on the line so far.
pub(crate) fn begins_line(before: &[u8]) -> bool
    ensures { result ≡ begins_line before.now }
{
    before
        .iter()
        .rev()
        .take_while(|c| is_inline(**c))
        .all(|c| is_blank(*c))
}

/// The text begins with a digit, or with a point before a digit.
pub(crate) fn begins_number(text: &[u8]) -> bool
    ensures { result ≡ begins_number text.now }
{
    match text {
        [first, ..] if is_digit(*first) => true,
        [b'.', second, ..] => is_digit(*second),
        _ => false,
    }
}

/// The bytes from a place on.
pub(crate) fn rest_from(text: &[u8], at: usize) -> &[u8]
    requires { at ≤ length text.now }
    ensures { result.now ≡ drop at text.now }
{
    &text[at..]
}

/// The bytes from a place to another.
pub(crate) fn part(text: &[u8], from: usize, to: usize) -> &[u8]
    requires ordered { from ≤ to }
    requires within { to ≤ length text.now }
    ensures { result.now ≡ slice_range text.now from to }
{
    &text[from..to]
}
