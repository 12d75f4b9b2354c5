//! From a deck to the list of its gates.
ghost use Rattle.std.specs.Prelude.{◌≡◌, ◌≤◌, length, IfOk};
ghost use Rattle.sc_base.specs.Limits.{most_gates};
ghost use Rattle.sc_count.specs.Tallies.{StandsFor};
ghost use Rattle.sc_deck.specs.Decks.{IsWhole};
ghost use Rattle.sc_deck.specs.Events.{fresh_in};
ghost use Rattle.sc_flat.specs.Shown.{FitsDeck, ManyWires};
ghost use Rattle.sc_gate.specs.Gates.{AreWellFormed};
ghost use Rattle.sc_top.specs.Expansions.{whole};
ghost use Rattle.sc_top.specs.Listed.{IsListed, list_of, listing_refusal};
ghost use Rattle.sc_top.specs.Stages.{Found, fault_of_refusal};

use crate::fault::{Fault, Reason, plainly};
use crate::tallied::tallied;
use sc_base::{MOST_GATES, Memory};
use sc_count::Tally;
use sc_deck::Deck;
use sc_flat::{Expander, PrepFault, prepare};
use sc_gate::Times;
use sc_read::FlatText;
use std::alloc::Global;

/// The gates of a whole deck with all its calls written out, and its numbers of qubits and classical bits. The refusals,
/// in this order. `CountTooLarge`: its counts by these durations pass 2^128 - 1. `TooManyWires`: its qubits or classical
/// bits pass 4,294,967,295. `SchedTooLarge`: its gates pass 4,194,304.
pub(crate) fn listed(alloc: Global, deck: &Deck, times: &Times) -> Result<FlatText, Fault>
    requires { IsWhole deck.now }
    ensures list { Found (IsListed times.now deck.now) result }
    ensures few { IfOk result (λ list. length list.gates ≤ most_gates) }
    ensures well_formed { IfOk result (λ list. AreWellFormed list.gates) }
{
    let tally = tallied(alloc, deck, times)?;
    let mut expander = match prepare(alloc, deck, &tally, MOST_GATES as u64) {
        Ok(expander) => expander,
        Err(fault) => return Err(listing_fault(fault)),
    };
    match list_from(alloc, deck, &tally, &mut expander) {
        Ok(list) => Ok(list),
        Err(_) => Err(Fault::Memory),
    }
}

/// The fault of a request over a deck that has no list for this reason.
fn listing_fault(fault: PrepFault) -> Fault
    ensures { result ≡ fault_of_refusal (listing_refusal fault) }
{
    match fault {
        PrepFault::TooManyWires => plainly(Reason::TooManyWires),
        PrepFault::TooManyGates => plainly(Reason::SchedTooLarge),
        PrepFault::Memory => Fault::Memory,
    }
}

/// The list of a whole deck of few wires, from its counts and what unfolds it.
fn list_from(
    alloc: Global,
    deck: &Deck,
    tally: &Tally,
    expander: &mut Expander,
) -> Result<FlatText, Memory>
    requires whole { IsWhole deck.now }
    requires tally { StandsFor tally.now deck.now }
    requires fits { FitsDeck expander.old deck.now }
    requires wires { ¬ (ManyWires (fresh_in (whole deck.now))) }
    ensures list { IfOk result (λ list. list ≡ list_of deck.now) }
    ensures well_formed { IfOk result (λ list. AreWellFormed list.gates) }
{
    let last = deck.len() - 1;
    let counts = tally.counts.as_slice()[last as usize];
    let gates = expander.list(alloc, deck)?;
    Ok(FlatText {
        qubits: counts.qubits as u32,
        cbits: counts.cbits as u32,
        gates,
    })
}
