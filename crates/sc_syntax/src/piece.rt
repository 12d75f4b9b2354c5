//! The longest piece at the front of a text.
ghost use Rattle.std.specs.Prelude.{◌≡◌, ◌≢◌, ◌≤◌, ◌<◌, ◌+◌, ℕ, length, take, drop, slice_index, true, ◌∷◌, [], MatchOption, IsTrue, Bool, ◌↔◌, ⊤};
ghost use Rattle.std.specs.List.{prefix_len};
ghost use Rattle.sc_syntax.specs.Cuts.{in_class, BeginsWith, HasNoMark, IsLongestMark};
ghost use Rattle.sc_syntax.specs.Marks.{mark_text};
ghost use Rattle.sc_syntax.specs.Pieces.{IsNext, IsStuck, HasNoEnd};
ghost use Rattle.sc_syntax.specs.declared.token.Mark.{Mark as Marks};

use crate::bytes::{begins_number, is_blank, is_inline, is_number, is_white, rest_from};
use crate::token::Mark;
use sc_base::{begins_name, continues_name};

/// What a piece of a source is.
#[derive(Clone, Copy, Debug, PartialEq, Eq)]
pub(crate) enum PieceKind {
    /// White space.
    Space,
    /// From `//` to the end of the line.
    LineComment,
    /// From `/*` to the first `*/` behind it.
    BlockComment,
    /// A `/*` without a `*/` behind it, and the rest of the text.
    OpenComment,
    /// A `#` with which its line begins, and the rest of the line.
    Directive,
    /// A name or a reserved word.
    Word,
    /// The beginning of a number, and what stands behind it without a gap.
    Number,
    /// A mark.
    Sign,
}

/// The bytes that a run goes over.
#[derive(Clone, Copy, Debug, PartialEq, Eq)]
pub(crate) enum Class {
    White,
    /// Spaces and tabs.
    Blank,
    /// All bytes but the line feed.
    Line,
    Word,
    Number,
}

#[derive(Clone, Copy, Debug)]
pub(crate) struct Piece {
    pub kind: PieceKind,
    pub len: usize,
}

fn is_in(class: Class, c: u8) -> bool
    ensures { result ≡ in_class class c }
{
    match class {
        Class::White => is_white(c),
        Class::Blank => is_blank(c),
        Class::Line => is_inline(c),
        Class::Word => continues_name(c),
        Class::Number => is_number(c),
    }
}

/// Where the bytes of the class end, from a place on.
pub(crate) fn run_end(class: Class, text: &[u8], from: usize) -> usize
    requires { from ≤ length text.now }
    ensures value { result ≡ from + prefix_len (in_class class) (drop from text.now) }
    ensures within { result ≤ length text.now }
{
    let mut end = from;
    while end < text.len() && is_in(class, text[end]) {
        end += 1;
    }
    end
}

fn begins_with(text: &[u8], first: u8, second: u8) -> bool
    ensures { IsTrue result ↔ BeginsWith text.now first second }
{
    text.len() > 1 && text[0] == first && text[1] == second
}

/// How many bytes stand before the first `*/`.
fn end_at(text: &[u8]) -> Option<usize>
    ensures { MatchOption result (HasNoEnd text.now) (λ n. (n + 1 < length text.now) × (slice_index text.now n ≡ 42) × (slice_index text.now (n + 1) ≡ 47) × HasNoEnd (take (n + 1) text.now)) }
{
    let mut at = 0;
    while at + 1 < text.len() {
        if text[at] == b'*' && text[at + 1] == b'/' {
            return Some(at);
        }
        at += 1;
    }
    None
}

/// The mark of one byte.
pub(crate) fn mark_of(first: u8) -> Option<Mark>
    ensures { MatchOption result
        ((m : Marks) → mark_text m ≢ first ∷ [])
        (λ m. mark_text m ≡ first ∷ []) }
{
    match first {
        b'(' => Some(Mark::OpenParen),
        b')' => Some(Mark::CloseParen),
        b'[' => Some(Mark::OpenBracket),
        b']' => Some(Mark::CloseBracket),
        b'{' => Some(Mark::OpenBrace),
        b'}' => Some(Mark::CloseBrace),
        b';' => Some(Mark::Semicolon),
        b',' => Some(Mark::Comma),
        b':' => Some(Mark::Colon),
        b'?' => Some(Mark::Question),
        b'=' => Some(Mark::Eq),
        b'+' => Some(Mark::Plus),
        b'-' => Some(Mark::Minus),
        b'*' => Some(Mark::Star),
        b'/' => Some(Mark::Slash),
        b'%' => Some(Mark::Percent),
        b'<' => Some(Mark::Less),
        b'>' => Some(Mark::Greater),
        b'!' => Some(Mark::Bang),
        b'~' => Some(Mark::Tilde),
        b'&' => Some(Mark::And),
        b'|' => Some(Mark::Or),
        b'^' => Some(Mark::Caret),
        _ => None,
    }
}

/// The mark of two bytes.
pub(crate) fn mark_of_two(first: u8, second: u8) -> Option<Mark>
    ensures { MatchOption result
        ((m : Marks) → mark_text m ≢ first ∷ second ∷ [])
        (λ m. mark_text m ≡ first ∷ second ∷ []) }
{
    match (first, second) {
        (b'+', b'+') => Some(Mark::PlusPlus),
        (b'-', b'-') => Some(Mark::MinusMinus),
        (b'+', b'=') => Some(Mark::PlusEq),
        (b'-', b'=') => Some(Mark::MinusEq),
        (b'*', b'=') => Some(Mark::StarEq),
        (b'/', b'=') => Some(Mark::SlashEq),
        (b'%', b'=') => Some(Mark::PercentEq),
        (b'=', b'=') => Some(Mark::EqEq),
        (b'!', b'=') => Some(Mark::NotEq),
        (b'<', b'=') => Some(Mark::LessEq),
        (b'>', b'=') => Some(Mark::GreaterEq),
        (b'&', b'&') => Some(Mark::AndAnd),
        (b'|', b'|') => Some(Mark::OrOr),
        (b'<', b'<') => Some(Mark::ShiftLeft),
        (b'>', b'>') => Some(Mark::ShiftRight),
        _ => None,
    }
}

/// The length of the longest mark at the front of a text.
fn mark_len(text: &[u8]) -> Option<usize>
    requires { 0 < length text.now }
    ensures longest { MatchOption result (HasNoMark text.now) (IsLongestMark text.now) }
    ensures size { MatchOption result ⊤ (λ n. (0 < n) × (n ≤ length text.now)) }
{
    if text.len() > 1 && mark_of_two(text[0], text[1]).is_some() {
        return Some(2);
    }
    match mark_of(text[0]) {
        None => None,
        Some(_) => Some(1),
    }
}

/// The comment that begins with `/*`.
fn block_comment(text: &[u8]) -> Piece
    requires { BeginsWith text.now 47 42 }
    ensures next { (fresh : Bool) → IsNext fresh result.kind (take result.len text.now) (drop result.len text.now) }
    ensures size { (0 < result.len) × (result.len ≤ length text.now) }
{
    match end_at(rest_from(text, 2)) {
        None => Piece {
            kind: PieceKind::OpenComment,
            len: text.len(),
        },
        Some(at) => Piece {
            kind: PieceKind::BlockComment,
            len: at + 4,
        },
    }
}

fn run(kind: PieceKind, class: Class, text: &[u8], from: usize) -> Piece
    requires { from ≤ length text.now }
    ensures kind { result.kind ≡ kind }
    ensures len { result.len ≡ from + prefix_len (in_class class) (drop from text.now) }
    ensures within { result.len ≤ length text.now }
{
    Piece {
        kind,
        len: run_end(class, text, from),
    }
}

/// The longest piece at the front of a text, or nothing where none stands there. Only spaces and tabs stand
/// before it on its line where `fresh` is true.
pub(crate) fn next_piece(fresh: bool, text: &[u8]) -> Option<Piece>
    requires { 0 < length text.now }
    ensures next { MatchOption result (IsStuck fresh text.now) (λ p. IsNext fresh p.kind (take p.len text.now) (drop p.len text.now)) }
    ensures size { MatchOption result ⊤ (λ p. (0 < p.len) × (p.len ≤ length text.now)) }
{
    let first = text[0];
    if is_white(first) {
        return Some(run(PieceKind::Space, Class::White, text, 1));
    }
    if begins_name(first) {
        return Some(run(PieceKind::Word, Class::Word, text, 1));
    }
    if begins_number(text) {
        return Some(run(PieceKind::Number, Class::Number, text, 1));
    }
    if fresh && first == b'#' {
        return Some(run(PieceKind::Directive, Class::Line, text, 1));
    }
    if begins_with(text, b'/', b'/') {
        return Some(run(PieceKind::LineComment, Class::Line, text, 2));
    }
    if begins_with(text, b'/', b'*') {
        return Some(block_comment(text));
    }
    match mark_len(text) {
        None => None,
        Some(len) => Some(Piece {
            kind: PieceKind::Sign,
            len,
        }),
    }
}
