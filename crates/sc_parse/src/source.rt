//! Sources.
ghost use Rattle.std.specs.Prelude.{◌≡◌, ℕ, ◌+◌, ◌<◌, ◌≤◌, ◌++◌, ◌∷◌, List, [], length, IfOk, IfErr, OnOk, MatchResult};
ghost use Rattle.sc_syntax.specs.Formed.{IsFormedSource};
ghost use Rattle.sc_syntax.specs.Lexing.{place_after};
ghost use Rattle.sc_syntax.specs.TokenLists.{AreRead};
ghost use Rattle.sc_parse.specs.Grammar.{HasOneFault, HasOneNesting, HasOneTree, IsAccepted, IsFault, IsTreeOf, place_at};
ghost use Rattle.sc_parse.specs.Pieces.{pieces};

use crate::make;
use crate::reader::{Fault, Reader};
use crate::starts::{MODULE, WORDS};
use sc_base::{List as Items, Place};
use sc_syntax::{Part, Source, Token, Tokens};
use std::alloc::Global;

/// Why tokens are no source.
#[derive(Clone, Copy, Debug, PartialEq, Eq)]
pub enum ParseFault {
    /// The first token with which the tokens begin no source, or the end of the text.
    Syntax(Place),
    /// The first token that is nested deeper than 128.
    TooNested(Place),
    Memory,
}

/// The tree of a source of at most 16,777,216 bytes, from its tokens, as `lex` of `sc_syntax` answers them. It is
/// formed: names are names, numbers are at least 0, a chain holds operators of one level, and no list has more than
/// 4,194,304 items.
///
/// It is refused as `Syntax` at the first token with which the tokens begin no source, or at the end of the text
/// where they begin one and are none, and as `TooNested` at the first token that is nested deeper than 128, which
/// ever comes first. `Memory` comes where memory runs out.
pub fn parse(alloc: Global, source: &[u8], tokens: &Tokens) -> Result<Source, ParseFault>
    requires read { AreRead source.now tokens.now }
    requires size { length source.now ≤ 16777216 }
    ensures accepted { OnOk result (IsAccepted (pieces source.now tokens.now)) }
    ensures derives { IfOk result (IsTreeOf source.now tokens.now) }
    ensures formed { IfOk result IsFormedSource }
    ensures refused { IfErr result (IsFault source.now tokens.now) }
    ensures one_nesting { HasOneNesting }
    ensures one_tree { HasOneTree }
    ensures one_fault { HasOneFault }
{
    let tokens = tokens.as_slice();
    let reader = Reader {
        alloc,
        source,
        tokens,
    };
    match reader.whole() {
        Ok(tree) => Ok(tree),
        Err(Fault::Syntax(at)) => Err(ParseFault::Syntax(place(source, tokens, at))),
        Err(Fault::TooNested(at)) => Err(ParseFault::TooNested(place(source, tokens, at))),
        Err(Fault::Memory) => Err(ParseFault::Memory),
    }
}

/// The place of a token, or of the end of the text.
fn place(source: &[u8], tokens: &[Token], at: usize) -> Place
    requires { length source.now ≤ 16777216 }
    ensures { result ≡ place_at source.now tokens.now at }
{
    match tokens.get(at) {
        Some(token) => token.place,
        None => end(source),
    }
}

/// The place behind a byte.
fn next_place(at: Place, byte: u8) -> Place
    requires line { at.line < 4_000_000_000 }
    requires column { at.column < 4_000_000_000 }
    ensures value { (before : List ℕ) → at ≡ place_after before → result ≡ place_after (before ++ byte ∷ []) }
    ensures line { result.line ≤ at.line + 1 }
    ensures column { result.column ≤ at.column + 1 }
{
    if byte == b'\n' {
        Place {
            line: at.line + 1,
            column: 1,
        }
    } else {
        Place {
            line: at.line,
            column: at.column + 1,
        }
    }
}

/// The place after the last byte.
fn end(source: &[u8]) -> Place
    requires { length source.now ≤ 16777216 }
    ensures { result ≡ place_after source.now }
{
    let mut place = Place { line: 1, column: 1 };
    for byte in source {
        place = next_place(place, *byte);
    }
    place
}

impl Reader<'_> {
    ghost use Rattle.sc_parse.specs.Form as symbol;
    ghost use Rattle.sc_parse.specs.Form.{sub, ◌∣◌};
    ghost use Rattle.sc_parse.specs.Faults.{IsFaultAt};
    ghost use Rattle.std.specs.Prelude.{drop};
    ghost use Rattle.sc_parse.specs.Input.{input};
    ghost use Rattle.sc_parse.specs.Derives.{Derives};
    ghost use Rattle.sc_parse.specs.Pieces.{next};
    ghost use Rattle.sc_parse.specs.Reads.{Fails, Reads};
    ghost use Rattle.sc_parse.specs.Rules.{source as source_form};
    ghost use Rattle.sc_parse.specs.Runs.{begins};
    ghost use Rattle.sc_parse.specs.Trees.{each, part as tree};

    /// Whether a module or a classical function begins here.
    fn is_part(&self, at: usize) -> bool
        ensures { result ≡ begins (sub symbol.Module ∣ sub symbol.Words) (next (drop at (input self.now))) }
    {
        self.begins(at, MODULE) || self.begins(at, WORDS)
    }

    /// A module or a classical function.
    fn part(&self, at: &mut usize, depth: u32) -> Result<Part, Fault>
        requires within { at.old ≤ length (input self.now) }
        requires shallow { depth ≤ 128 }
        ensures cases { MatchResult result
            (λ p. Reads (sub symbol.Module ∣ sub symbol.Words) depth (input self.now) at.old at.new (tree p ∷ []))
            (Fails (sub symbol.Module ∣ sub symbol.Words) depth (input self.now) at.old) }
        ensures moves { OnOk result (at.old < at.new) }
    {
        if self.begins(*at, MODULE) {
            let made = self.module(at, depth)?;
            return Ok(made);
        }
        let made = self.words(at, depth)?;
        Ok(made)
    }

    /// Modules and classical functions, as many as there are.
    fn parts(&self, at: &mut usize, depth: u32) -> Result<Items<Part>, Fault>
        requires within { at.old ≤ length (input self.now) }
        requires shallow { depth ≤ 128 }
        ensures { MatchResult result
            (λ ps. Reads source_form depth (input self.now) at.old at.new (each tree ps))
            (Fails source_form depth (input self.now) at.old) }
    {
        let mut items = Items::new(self.alloc);
        'items: while self.is_part(*at) {
            let next = self.part(at, depth)?;
            make::push(&mut items, next)?;
        }
        Ok(items)
    }

    /// The whole source.
    fn whole(&self) -> Result<Source, Fault>
        ensures accepted { OnOk result (IsAccepted (input self.now)) }
        ensures derives { IfOk result (λ s. Derives source_form (input self.now) [] (each tree s.parts)) }
        ensures refused { IfErr result (IsFaultAt (input self.now)) }
    {
        let mut at = 0;
        let parts = self.parts(&mut at, 0)?;
        if at < self.tokens.len() {
            return Err(Fault::Syntax(at));
        }
        Ok(Source { parts })
    }
}
