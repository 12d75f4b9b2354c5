//! From a deck to the numbers of its report.
ghost use Rattle.std.specs.Prelude.{◌≡◌, IfOk, IfErr};
ghost use Rattle.sc_count.specs.Limits.{IsWithin};
ghost use Rattle.sc_count.specs.Tallies.{StandsFor};
ghost use Rattle.sc_deck.specs.Decks.{IsWhole};
ghost use Rattle.sc_path.specs.Tables.{StandsFor as AreTablesOf};
ghost use Rattle.sc_top.specs.Expansions.{counts_by, IsCounted};
ghost use Rattle.sc_top.specs.Reports.{IsSummaryOf};
ghost use Rattle.sc_top.specs.Stages.{Found, Why};
ghost use Rattle.sc_top.specs.Tallied.{durations, IsSummarized};

use crate::fault::{Fault, count_fault};
use crate::report::Summary;
use sc_count::{Tally, tally_deck};
use sc_deck::Deck;
use sc_gate::Times;
use sc_path::{PathFault, Paths, critical};
use std::alloc::Global;

/// The durations of a request: where it names none, each gate takes 1.
pub(crate) fn durations(times: Option<Times>) -> Times
    ensures { result ≡ durations times }
{
    times.unwrap_or(Times::ones())
}

/// The counts of a whole deck by these durations.
pub(crate) fn tallied(alloc: Global, deck: &Deck, times: &Times) -> Result<Tally, Fault>
    requires { IsWhole deck.now }
    ensures times { IfOk result (λ tally. tally.times ≡ times.now) }
    ensures stands { IfOk result (λ tally. StandsFor tally deck.now) }
    ensures within { IfOk result (λ tally. IsWithin (counts_by times.now deck.now)) }
    ensures fault { IfErr result (Why ⊥ ⊥ ⊥ (Unit {0}) (λ r. IsCounted times.now deck.now (Err r))) }
{
    match tally_deck(alloc, deck, times) {
        Ok(tally) => Ok(tally),
        Err(fault) => Err(count_fault(fault)),
    }
}

/// The path tables of a whole deck whose counts are within their limit: so none is too large.
fn paths_of(alloc: Global, deck: &Deck, times: &Times) -> Result<Paths, PathFault>
    requires whole { IsWhole deck.now }
    requires within { IsWithin (counts_by times.now deck.now) }
    ensures tables { IfOk result (λ paths. AreTablesOf paths.tables times.now deck.now) }
    ensures memory { IfErr result (λ fault. fault ≡ PathFault.Memory) }
{
    let mut paths = Paths::new(alloc, *times);
    for i in 0..deck.len() {
        if let Some(body) = deck.body_at(i) {
            paths.add(body)?;
        }
    }
    Ok(paths)
}

/// What is told of a whole deck, from its counts and its path tables. Takes no memory.
fn summary_of(deck: &Deck, tally: &Tally, paths: &Paths) -> Summary
    requires whole { IsWhole deck.now }
    requires tally { StandsFor tally.now deck.now }
    requires paths { AreTablesOf paths.now.tables tally.now.times deck.now }
    ensures { IsSummaryOf tally.now.times deck.now result }
{
    let last = deck.len() - 1;
    Summary {
        instances: deck.len(),
        counts: tally.counts.as_slice()[last as usize],
        critical: critical(paths),
    }
}

/// What is told of a whole deck by these durations.
pub(crate) fn summarized(alloc: Global, deck: &Deck, times: &Times) -> Result<Summary, Fault>
    requires { IsWhole deck.now }
    ensures { Found (IsSummarized times.now deck.now) result }
{
    let tally = tallied(alloc, deck, times)?;
    match paths_of(alloc, deck, times) {
        Ok(paths) => Ok(summary_of(deck, &tally, &paths)),
        Err(_) => Err(Fault::Memory),
    }
}
