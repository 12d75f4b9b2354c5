//! From a source to its deck.
ghost use Rattle.std.specs.Prelude.{◌≤◌, length, IfOk};
ghost use Rattle.sc_base.specs.Limits.{most_source_bytes};
ghost use Rattle.sc_deck.specs.Decks.{IsWhole};
ghost use Rattle.sc_syntax.specs.Formed.{IsFormedSource};
ghost use Rattle.sc_syntax.specs.TokenLists.{AreRead};
ghost use Rattle.sc_top.specs.Answers.{SourceOf};
ghost use Rattle.sc_top.specs.Carried.{Took};
ghost use Rattle.sc_top.specs.Sources.{IsTokens, IsTree, IsTyped, IsElaborated, IsSource, IsCheckedSource};
ghost use Rattle.sc_top.specs.Stages.{Found};

use crate::fault::{Fault, elab_fault, lexing_fault, parsing_fault, typing_fault};
use crate::read::read_text;
use sc_base::{MOST_SOURCE_BYTES, Shelf};
use sc_deck::Deck;
use sc_elab::{Choice, elaborate};
use sc_parse::parse;
use sc_syntax::{Source, Tokens, lex};
use sc_types::{Checked, check};
use std::alloc::Global;

/// The deck of the source under a name.
pub(crate) fn source_of<F: Shelf>(
    alloc: Global,
    file: &[u8],
    choice: Choice,
    shelf: &mut F,
) -> Result<Deck, Fault>
    ensures deck { Took F.held F.tells_held F.faults (λ held. SourceOf held file.now choice) shelf.old shelf.new result }
    ensures whole { IfOk result IsWhole }
{
    let text = read_text(alloc, file, MOST_SOURCE_BYTES as u64, shelf)?;
    build_deck(alloc, text.as_bytes(), choice)
}

/// The deck of a source.
pub(crate) fn build_deck(alloc: Global, source: &[u8], choice: Choice) -> Result<Deck, Fault>
    requires { length source.now ≤ most_source_bytes }
    ensures deck { Found (IsSource choice source.now) result }
    ensures whole { IfOk result IsWhole }
{
    let tokens = read_tokens(alloc, source)?;
    let tree = read_tree(alloc, source, &tokens)?;
    let checked = check_tree(alloc, tree)?;
    run_source(alloc, &checked, choice)
}

fn read_tokens(alloc: Global, source: &[u8]) -> Result<Tokens, Fault>
    requires { length source.now ≤ most_source_bytes }
    ensures tokens { Found (IsTokens source.now) result }
    ensures read { IfOk result (AreRead source.now) }
{
    match lex(alloc, source) {
        Ok(tokens) => Ok(tokens),
        Err(fault) => Err(lexing_fault(fault)),
    }
}

fn read_tree(alloc: Global, source: &[u8], tokens: &Tokens) -> Result<Source, Fault>
    requires within { length source.now ≤ most_source_bytes }
    requires read { AreRead source.now tokens.now }
    ensures tree { Found (IsTree source.now tokens.now) result }
    ensures formed { IfOk result IsFormedSource }
{
    match parse(alloc, source, tokens) {
        Ok(tree) => Ok(tree),
        Err(fault) => Err(parsing_fault(fault)),
    }
}

fn check_tree(alloc: Global, tree: Source) -> Result<Checked, Fault>
    requires { IsFormedSource tree }
    ensures { Found (IsTyped tree) result }
{
    match check(alloc, tree) {
        Ok(checked) => {
            keeps(&checked);
            Ok(checked)
        }
        Err(fault) => Err(typing_fault(fault)),
    }
}

/// Tells what a checked source keeps.
fn keeps(checked: &Checked)
    ensures { IsCheckedSource checked.now }
{
    let _ = checked.source();
    let _ = checked.main();
}

/// The deck of a checked source.
fn run_source(alloc: Global, checked: &Checked, choice: Choice) -> Result<Deck, Fault>
    ensures deck { Found (IsElaborated choice checked.now) result }
    ensures whole { IfOk result IsWhole }
{
    keeps(checked);
    match elaborate(alloc, checked, choice) {
        Ok(deck) => Ok(deck),
        Err(fault) => Err(elab_fault(fault)),
    }
}
