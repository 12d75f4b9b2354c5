//! Directives and defined names.
ghost use Rattle.std.specs.Prelude.{◌≡◌, ◌≢◌, ◌≤◌, ◌<◌, ◌+◌, ◌^◌, ◌↔◌, ◌-◌, if◌then◌else◌, IsTrue, ℕ, List, [], length, take, drop, slice_range, All, MatchOption, None, Some, OnOk, IfOk, IfErr, ⊤};
ghost use Rattle.sc_syntax.specs.Cuts.{names_of, AreValues};
ghost use Rattle.sc_syntax.specs.Directives.{Names, Scans, no_names, with_name, is_name, is_value_number, is_minus, is_open, is_close, IsEnclosed, IsNumberValue, IsFree, IsValue, IsDefinition, Defines, Directs};
ghost use Rattle.sc_syntax.specs.TokenLists.{text_of, IsRead};
ghost use Rattle.sc_syntax.specs.declared.token.Token.{Token as OneToken};

use crate::adding::push_reading;
use crate::bytes::part;
use crate::fault::LexFault;
use crate::piece::{Class, next_piece, run_end};
use crate::reading::read_piece;
use crate::token::{Mark, Token, TokenSort, Tokens};
use sc_base::{Memory, Place};
use std::alloc::Global;
use std::collections::BTreeMap;

/// The defined names with the tokens of their definitions, of which the first is the name itself.
#[derive(Drop)]
pub(crate) struct Defined<'a> {
    values: BTreeMap<&'a [u8], Tokens>,
}

impl<'a> Defined<'a> {
    pub(crate) fn new(alloc: Global) -> Defined<'a>
        ensures { names_of result ≡ no_names }
    {
        Defined {
            values: BTreeMap::new(alloc),
        }
    }

    /// The tokens that a name stands for.
    pub(crate) fn value(&self, name: &[u8]) -> Option<&[Token]>
        ensures { MatchOption result (names_of self.now name.now ≡ None) (λ value. names_of self.now name.now ≡ Some value.now) }
    {
        match self.values.get(name) {
            None => None,
            Some(tokens) => Some(behind_first(tokens.as_slice())),
        }
    }

    /// Defines a name.
    fn insert(&mut self, name: &'a [u8], tokens: Tokens) -> Result<(), Memory>
        ensures { OnOk result (names_of self.new ≡ with_name (names_of self.old) name.now (drop 1 tokens)) }
    {
        match self.values.insert(name, tokens) {
            Ok(_) => Ok(()),
            Err(_) => Err(Memory),
        }
    }
}

fn behind_first(tokens: &[Token]) -> &[Token]
    ensures { result.now ≡ drop 1 tokens.now }
{
    match tokens {
        [] => tokens,
        [_, rest @ ..] => rest,
    }
}

fn is_name(sort: TokenSort) -> bool
    ensures { result ≡ is_name sort }
{
    matches!(sort, TokenSort::Name)
}

fn is_value_number(sort: TokenSort) -> bool
    ensures { result ≡ is_value_number sort }
{
    matches!(sort, TokenSort::Int(_) | TokenSort::Decimal(_))
}

fn is_minus(sort: TokenSort) -> bool
    ensures { result ≡ is_minus sort }
{
    matches!(sort, TokenSort::Mark(Mark::Minus))
}

fn is_open(sort: TokenSort) -> bool
    ensures { result ≡ is_open sort }
{
    matches!(sort, TokenSort::Mark(Mark::OpenParen))
}

fn is_close(sort: TokenSort) -> bool
    ensures { result ≡ is_close sort }
{
    matches!(sort, TokenSort::Mark(Mark::CloseParen))
}

/// The tokens are a number, perhaps with a minus.
fn is_number_value(value: &[Token]) -> bool
    ensures { IsTrue result ↔ IsNumberValue value.now }
{
    match value {
        [number] => is_value_number(number.sort),
        [minus, number] => is_minus(minus.sort) && is_value_number(number.sort),
        _ => false,
    }
}

/// The tokens stand in one pair of parentheses.
fn is_enclosed(value: &[Token]) -> bool
    ensures { IsTrue result ↔ IsEnclosed value.now }
{
    let mut depth: usize = 0;
    for (i, token) in value.iter().enumerate() {
        depth = depth_behind(depth, token.sort);
        if depth == 0 {
            return i > 0 && i + 1 == value.len();
        }
    }
    false
}

/// How many parentheses are open behind a token.
fn depth_behind(depth: usize, sort: TokenSort) -> usize
    requires { depth < 2 ^ 63 }
    ensures { result ≡ (if is_open sort then depth + 1 else (if is_close sort then depth - 1 else depth)) }
{
    if is_open(sort) {
        depth + 1
    } else if is_close(sort) {
        depth.saturating_sub(1)
    } else {
        depth
    }
}

fn text_at<'a>(source: &'a [u8], token: &Token) -> &'a [u8]
    requires { IsRead source.now token.now }
    ensures { result.now ≡ text_of source.now token.now }
{
    &source[token.start as usize..token.end as usize]
}

/// A token that is a name is neither defined nor the one that is being defined.
fn is_free(names: &Defined, source: &[u8], own: &[u8], token: &Token) -> bool
    requires { IsRead source.now token.now }
    ensures { IsTrue result ↔ IsFree source.now (names_of names.now) own.now token.now }
{
    if !is_name(token.sort) {
        return true;
    }
    let text = text_at(source, token);
    names.value(text).is_none() && own != text
}

fn are_free(names: &Defined, source: &[u8], own: &[u8], value: &[Token]) -> bool
    requires { All (IsRead source.now) value.now }
    ensures { IsTrue result ↔ All (IsFree source.now (names_of names.now) own.now) value.now }
{
    for token in value {
        if !is_free(names, source, own, token) {
            return false;
        }
    }
    true
}

fn is_value(names: &Defined, source: &[u8], own: &[u8], value: &[Token]) -> bool
    requires { All (IsRead source.now) value.now }
    ensures { IsTrue result ↔ IsValue source.now (names_of names.now) own.now value.now }
{
    is_number_value(value) || (is_enclosed(value) && are_free(names, source, own, value))
}

/// The tokens are a name that is not defined yet, and its value.
fn is_definition(names: &Defined, source: &[u8], tokens: &[Token]) -> bool
    requires { All (IsRead source.now) tokens.now }
    ensures { IsTrue result ↔ IsDefinition source.now (names_of names.now) tokens.now }
{
    match tokens {
        [] => false,
        [name, value @ ..] => {
            let text = text_at(source, name);
            is_name(name.sort)
                && names.value(text).is_none()
                && is_value(names, source, text, value)
        }
    }
}

/// The tokens of a part of a directive's line, or nothing where it holds something else. Each token has the place
/// of the directive.
fn scan(
    alloc: Global,
    source: &[u8],
    from: usize,
    to: usize,
    place: Place,
) -> Result<Option<Tokens>, Memory>
    requires ordered { from ≤ to }
    requires within { to ≤ length source.now }
    requires small { length source.now < 2 ^ 32 }
    ensures scanned { IfOk result (λ found. MatchOption found
        ((all : List OneToken) → Scans place (take from source.now) [] (slice_range source.now from to) all → ⊥)
        (λ tokens. Scans place (take from source.now) [] (slice_range source.now from to) tokens)) }
    ensures read { IfOk result (λ found. MatchOption found ⊤ (λ tokens. All (IsRead source.now) tokens)) }
{
    let mut tokens = Tokens::new(alloc);
    let mut at = from;
    while at < to {
        let rest = part(source, at, to);
        let Some(piece) = next_piece(false, rest) else {
            return Ok(None);
        };
        let reading = read_piece(piece.kind, &rest[..piece.len]);
        if !push_reading(&mut tokens, reading, place, at, at + piece.len)? {
            return Ok(None);
        }
        at += piece.len;
    }
    Ok(Some(tokens))
}

/// Takes the definition that stands in a part of a directive's line.
fn define<'a>(
    alloc: Global,
    names: &mut Defined<'a>,
    source: &'a [u8],
    from: usize,
    to: usize,
    place: Place,
) -> Result<(), LexFault>
    requires ordered { from ≤ to }
    requires within { to ≤ length source.now }
    requires small { length source.now < 2 ^ 32 }
    requires values { AreValues source.now (names_of names.old) }
    ensures ok { OnOk result (Defines source.now (names_of names.old) place (take from source.now) (slice_range source.now from to) (names_of names.new)) }
    ensures values { OnOk result (AreValues source.now (names_of names.new)) }
    ensures place { IfErr result (λ f. f ≢ LexFault.Memory → f ≡ LexFault.BadDefine place) }
    ensures none { IfErr result (λ f. f ≢ LexFault.Memory → (after : Names) → Defines source.now (names_of names.old) place (take from source.now) (slice_range source.now from to) after → ⊥) }
{
    let tokens = match scan(alloc, source, from, to, place) {
        Err(_) => return Err(LexFault::Memory),
        Ok(None) => return Err(LexFault::BadDefine(place)),
        Ok(Some(tokens)) => tokens,
    };
    if !is_definition(names, source, tokens.as_slice()) {
        return Err(LexFault::BadDefine(place));
    }
    let name = text_at(source, &tokens.as_slice()[0]);
    match names.insert(name, tokens) {
        Ok(()) => Ok(()),
        Err(_) => Err(LexFault::Memory),
    }
}

/// Takes a directive, whose line stands from `start` to `end`.
pub(crate) fn take_directive<'a>(
    alloc: Global,
    names: &mut Defined<'a>,
    source: &'a [u8],
    start: usize,
    end: usize,
    place: Place,
) -> Result<(), LexFault>
    requires ordered { start < end }
    requires within { end ≤ length source.now }
    requires small { length source.now < 2 ^ 32 }
    requires values { AreValues source.now (names_of names.old) }
    ensures ok { OnOk result (Directs source.now (names_of names.old) place (take start source.now) (slice_range source.now start end) (names_of names.new)) }
    ensures values { OnOk result (AreValues source.now (names_of names.new)) }
    ensures place { IfErr result (λ f. f ≢ LexFault.Memory → f ≡ LexFault.BadDefine place) }
    ensures none { IfErr result (λ f. f ≢ LexFault.Memory → (after : Names) → Directs source.now (names_of names.old) place (take start source.now) (slice_range source.now start end) after → ⊥) }
{
    let line = part(source, start, end);
    let from = run_end(Class::Blank, line, 1);
    let to = run_end(Class::Word, line, from);
    let word = part(line, from, to);
    if word == b"include".as_slice() {
        return Ok(());
    }
    if word != b"define".as_slice() {
        return Err(LexFault::BadDefine(place));
    }
    define(alloc, names, source, start + to, end, place)
}
