//! The lexer.
ghost use Rattle.std.specs.Prelude.{◌≡◌, ◌≢◌, ◌≤◌, ◌<◌, ◌+◌, ◌^◌, ◌++◌, ◌∷◌, [], List, ℕ, length, take, drop, slice_range, OnOk, IfOk, IfErr, ⊤};
ghost use Rattle.sc_syntax.specs.Cuts.{names_of, AreValues, Stands, TakesPiece, RefusesPiece};
ghost use Rattle.sc_syntax.specs.Lexing.{place_after, fault_of, IsLexed, HasFault, HasOneOutcome};
ghost use Rattle.sc_syntax.specs.TokenLists.{AreRead};
ghost use Rattle.sc_syntax.specs.declared.token.Token.{Token as OneToken};

use crate::adding::{add_reading, add_value};
use crate::bytes::{begins_line, part, rest_from};
use crate::define::{Defined, take_directive};
use crate::fault::LexFault;
use crate::piece::{PieceKind, next_piece};
use crate::reading::read_piece;
use crate::token::Tokens;
use sc_base::Place;
use std::alloc::Global;

/// A piece at its place in the source.
#[derive(Clone, Copy, Debug)]
pub(crate) struct Found {
    pub kind: PieceKind,
    pub start: usize,
    pub end: usize,
    pub place: Place,
}

/// The place behind a byte.
fn next_place(at: Place, c: u8) -> Place
    requires line { at.line < 4_000_000_000 }
    requires column { at.column < 4_000_000_000 }
    ensures value { (before : List ℕ) → at ≡ place_after before → result ≡ place_after (before ++ c ∷ []) }
    ensures line { result.line ≤ at.line + 1 }
    ensures column { result.column ≤ at.column + 1 }
{
    if c == b'\n' {
        Place {
            line: at.line + 1,
            column: 1,
        }
    } else {
        Place {
            line: at.line,
            column: at.column + 1,
        }
    }
}

/// The place behind some bytes that stand at a place.
fn place_behind(at: Place, text: &[u8]) -> Place
    requires line { at.line + length text.now < 4_000_000_000 }
    requires column { at.column + length text.now < 4_000_000_000 }
    ensures { (before : List ℕ) → at ≡ place_after before → result ≡ place_after (before ++ text.now) }
{
    let mut place = at;
    for c in text {
        place = next_place(place, *c);
    }
    place
}

/// The fault of a piece that gives nothing.
fn fault_of(kind: PieceKind, place: Place) -> LexFault
    ensures { result ≡ fault_of kind place }
{
    match kind {
        PieceKind::OpenComment => LexFault::OpenComment(place),
        PieceKind::Number => LexFault::BadNumber(place),
        PieceKind::Directive => LexFault::BadDefine(place),
        PieceKind::Space
        | PieceKind::LineComment
        | PieceKind::BlockComment
        | PieceKind::Word
        | PieceKind::Sign => { LexFault::BadByte(place) }
    }
}

/// Adds the tokens of a word: of a defined name those of its value.
fn take_word(
    source: &[u8],
    found: Found,
    names: &Defined,
    tokens: &mut Tokens,
) -> Result<(), LexFault>
    requires stands { Stands source.now found }
    requires word { found.kind ≡ PieceKind.Word }
    requires small { length source.now ≤ 16_777_216 }
    requires read { AreRead source.now tokens.old }
    requires values { AreValues source.now (names_of names.now) }
    ensures ok { OnOk result (TakesPiece source.now PieceKind.Word found.start found.end (names_of names.now) tokens.old (names_of names.now) tokens.new) }
    ensures read { OnOk result (AreRead source.now tokens.new) }
    ensures err { IfErr result (λ f. f ≢ LexFault.Memory → RefusesPiece source.now PieceKind.Word found.place found.start found.end (names_of names.now) tokens.old f) }
{
    let text = part(source, found.start, found.end);
    match names.value(text) {
        Some(value) => add_value(tokens, value, found.place),
        None => add_reading(
            tokens,
            read_piece(PieceKind::Word, text),
            LexFault::BadByte(found.place),
            found.place,
            found.start,
            found.end,
        ),
    }
}

/// Takes a piece: its tokens are added, or its directive is carried out.
fn take_piece<'a>(
    alloc: Global,
    source: &'a [u8],
    found: Found,
    names: &mut Defined<'a>,
    tokens: &mut Tokens,
) -> Result<(), LexFault>
    requires stands { Stands source.now found }
    requires small { length source.now ≤ 16_777_216 }
    requires read { AreRead source.now tokens.old }
    requires values { AreValues source.now (names_of names.old) }
    ensures ok { OnOk result (TakesPiece source.now found.kind found.start found.end (names_of names.old) tokens.old (names_of names.new) tokens.new) }
    ensures read { OnOk result (AreRead source.now tokens.new) }
    ensures values { OnOk result (AreValues source.now (names_of names.new)) }
    ensures err { IfErr result (λ f. f ≢ LexFault.Memory → RefusesPiece source.now found.kind found.place found.start found.end (names_of names.old) tokens.old f) }
{
    match found.kind {
        PieceKind::Directive => {
            take_directive(alloc, names, source, found.start, found.end, found.place)
        }
        PieceKind::Word => take_word(source, found, names, tokens),
        kind => {
            let text = part(source, found.start, found.end);
            add_reading(
                tokens,
                read_piece(kind, text),
                fault_of(kind, found.place),
                found.place,
                found.start,
                found.end,
            )
        }
    }
}

/// Reads a source of at most 16,777,216 bytes as tokens.
///
/// White space and comments are passed over. A directive `#define` gives a name tokens for which it stands; a later
/// use of the name has the place of the use. Lines and columns count from 1, columns in bytes. The first fault in
/// reading order is answered, or `Memory` where no memory is left: each refusal of `LexFault` says where it stands.
pub fn lex(alloc: Global, source: &[u8]) -> Result<Tokens, LexFault>
    requires { length source.now ≤ 16_777_216 }
    ensures tokens { IfOk result (IsLexed source.now) }
    ensures read { IfOk result (AreRead source.now) }
    ensures fault { IfErr result (λ f. f ≢ LexFault.Memory → HasFault source.now f) }
    ensures none { IfErr result (λ f. f ≢ LexFault.Memory → (tokens : List OneToken) → IsLexed source.now tokens → ⊥) }
    // A source has one outcome at most, so this is it.
    ensures one { HasOneOutcome }
{
    let mut tokens = Tokens::new(alloc);
    let mut names = Defined::new(alloc);
    let mut place = Place { line: 1, column: 1 };
    let mut at = 0;
    while at < source.len() {
        let fresh = begins_line(part(source, 0, at));
        let Some(piece) = next_piece(fresh, rest_from(source, at)) else {
            return Err(LexFault::BadByte(place));
        };
        let found = Found {
            kind: piece.kind,
            start: at,
            end: at + piece.len,
            place,
        };
        take_piece(alloc, source, found, &mut names, &mut tokens)?;
        place = place_behind(place, part(source, at, found.end));
        at = found.end;
    }
    Ok(tokens)
}
