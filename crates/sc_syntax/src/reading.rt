//! Which token a piece is.
ghost use Rattle.std.specs.Prelude.{◌≡◌, ◌≢◌, ◌≤◌, ◌<◌, ◌+◌, ◌^◌, length, map, pos, SomeIff, MatchOption};
ghost use Rattle.std.specs.Str.Parse.{digits_value};
ghost use Rattle.sc_syntax.specs.Cuts.{IsReading};
ghost use Rattle.sc_syntax.specs.Marks.{mark_text};
ghost use Rattle.sc_syntax.specs.Pieces.{IsIntText, IsNumberSort, IsWordSort};
ghost use Rattle.sc_syntax.specs.Reserved.{word_text};
ghost use Rattle.sc_syntax.specs.Rows.{row_of};
ghost use Rattle.sc_syntax.specs.declared.token.Mark.{Mark as Marks};
ghost use Rattle.sc_syntax.specs.declared.token.TokenSort.{TokenSort as OneSort};
ghost use Rattle.sc_syntax.specs.declared.token.Word.{Word as Words};

use crate::piece::{PieceKind, mark_of, mark_of_two};
use crate::token::{Mark, TokenSort, Word};
use sc_base::{GateName, read_fixed, read_u64};

/// What a piece is read as.
#[derive(Clone, Copy, Debug, PartialEq, Eq)]
pub(crate) enum Reading {
    /// White space or a comment.
    Passed,
    Read(TokenSort),
    /// An open comment, a directive, or a number without a value.
    Unread,
}

const WORDS: [(&[u8], Word); 13] = [
    (b"module", Word::Module),
    (b"void", Word::Void),
    (b"int", Word::Int),
    (b"double", Word::Double),
    (b"float", Word::Float),
    (b"qbit", Word::Qbit),
    (b"cbit", Word::Cbit),
    (b"if", Word::If),
    (b"else", Word::Else),
    (b"while", Word::While),
    (b"for", Word::For),
    (b"return", Word::Return),
    (b"classical", Word::Classical),
];

fn row_of(mut table: &[(&[u8], Word)], text: &[u8]) -> Option<Word>
    ensures { result ≡ row_of (map (λ row. (row.0.now, row.1)) table.entry.now) text.now }
{
    while let [row, rest @ ..] = table {
        if row.0 == text {
            return Some(row.1);
        }
        table = rest;
    }
    None
}

/// The reserved word, other than a gate's name, that a text is.
fn word_of(text: &[u8]) -> Option<Word>
    ensures { MatchOption result ((w : Words) → word_text w ≢ text.now) (λ w. word_text w ≡ text.now) }
{
    row_of(&WORDS, text)
}

/// The sort of a word: reserved, or a name.
fn word_sort(text: &[u8]) -> TokenSort
    ensures { IsWordSort text.now result }
{
    if let Some(word) = word_of(text) {
        return TokenSort::Word(word);
    }
    match GateName::from_text(text) {
        Some(gate) => TokenSort::Gate(gate),
        None => TokenSort::Name,
    }
}

/// The value of digits alone, if it is below 2^63.
fn int_value(text: &[u8]) -> Option<i64>
    ensures { SomeIff result (IsIntText text.now) (pos (digits_value 10 text.now)) }
{
    let value = read_u64(text)?;
    if value > i64::MAX as u64 {
        return None;
    }
    Some(value as i64)
}

/// The sort of a number, if it has a value.
fn number_sort(text: &[u8]) -> Option<TokenSort>
    ensures { MatchOption result ((sort : OneSort) → IsNumberSort text.now sort → ⊥) (IsNumberSort text.now) }
{
    if let Some(value) = int_value(text) {
        return Some(TokenSort::Int(value));
    }
    match read_fixed(text) {
        None => None,
        Some(value) => Some(TokenSort::Decimal(value)),
    }
}

/// The mark that a text is.
fn mark_in(text: &[u8]) -> Option<Mark>
    ensures { MatchOption result ((m : Marks) → mark_text m ≢ text.now) (λ m. mark_text m ≡ text.now) }
{
    match text {
        [first] => mark_of(*first),
        [first, second] => mark_of_two(*first, *second),
        _ => None,
    }
}

/// What a piece is read as.
pub(crate) fn read_piece(kind: PieceKind, text: &[u8]) -> Reading
    ensures { IsReading kind text.now result }
{
    match kind {
        PieceKind::Space | PieceKind::LineComment | PieceKind::BlockComment => Reading::Passed,
        PieceKind::OpenComment | PieceKind::Directive => Reading::Unread,
        PieceKind::Word => Reading::Read(word_sort(text)),
        PieceKind::Number => match number_sort(text) {
            None => Reading::Unread,
            Some(sort) => Reading::Read(sort),
        },
        PieceKind::Sign => match mark_in(text) {
            None => Reading::Unread,
            Some(mark) => Reading::Read(TokenSort::Mark(mark)),
        },
    }
}
