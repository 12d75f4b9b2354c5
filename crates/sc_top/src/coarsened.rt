//! From a deck to its coarse schedules.
ghost use Rattle.std.specs.Prelude.{◌≡◌, ◌≤◌, false, length, IfOk};
ghost use Rattle.sc_coarse.specs.CoarseRule.{ones};
ghost use Rattle.sc_count.specs.Tallies.{StandsFor};
ghost use Rattle.sc_deck.specs.Decks.{IsWhole};
ghost use Rattle.sc_top.specs.Carried.{Prints};
ghost use Rattle.sc_top.specs.Coarsened.{IsCoarse, IsCoarsened, coarsened_text, coarse_refusal};
ghost use Rattle.sc_top.specs.Scheduled.{order_by};
ghost use Rattle.sc_top.specs.Stages.{Found, fault_of_refusal};

use crate::fault::{Fault, Reason, at_item, plainly};
use crate::tallied::tallied;
use sc_base::{Sink, WriteFault};
use sc_coarse::{Coarse, CoarseFault, coarse_of, write_coarse};
use sc_count::Tally;
use sc_deck::Deck;
use sc_gate::Times;
use sc_sched::{Lpfs, Priority, Rcp};
use std::alloc::Global;

/// A deck, and the coarse schedules of its instances.
#[derive(Drop)]
pub(crate) struct Coarsened {
    pub deck: Deck,
    pub coarse: Coarse,
}

/// A whole deck with the coarse schedules of its instances on `k` regions of `d` qubits. Ready gates are taken by the
/// heaviest chains that hold them where `lpfs`, and else by those that start at them.
///
/// The refusals, in this order. `CountTooLarge`: the counts of the deck pass 2^128 - 1. `SchedTooLarge`: a body has more
/// than 4,294,967,295 items, or a stretch of one more than 4,194,304 gates. `NarrowItem`: a gate item has more than `d`
/// qubits.
pub(crate) fn with_coarse(
    alloc: Global,
    deck: Deck,
    k: u32,
    d: u32,
    lpfs: bool,
) -> Result<Coarsened, Fault>
    requires whole { IsWhole deck }
    requires k { 1 ≤ k }
    requires d { 1 ≤ d }
    ensures coarse { Found (IsCoarsened k d lpfs deck) result }
    ensures many { IfOk result (λ c. length c.coarse ≡ length c.deck) }
{
    let tally = tallied(alloc, &deck, &Times::ones())?;
    let coarse = ordered(alloc, &deck, &tally, k, d, lpfs)?;
    Ok(Coarsened { deck, coarse })
}

/// Writes the text of the coarse schedules, and ends the sink. Takes no memory.
pub(crate) fn print_coarse<O: Sink>(
    c: &Coarsened,
    k: u32,
    d: u32,
    out: &mut O,
) -> Result<(), WriteFault>
    requires open { O.is_ended out.old ≡ false }
    requires many { length c.now.coarse ≡ length c.now.deck }
    ensures { Prints O.tells O.bytes O.is_ended O.faults out.old out.new (coarsened_text k d c.now) result }
{
    write_coarse(&c.deck, &c.coarse, k, d, out)?;
    match out.finish() {
        Ok(()) => Ok(()),
        Err(_) => Err(WriteFault),
    }
}

/// The fault of a request over a deck that has no coarse schedules for this reason.
fn coarse_fault(fault: CoarseFault) -> Fault
    ensures { result ≡ fault_of_refusal (coarse_refusal fault) }
{
    match fault {
        CoarseFault::SchedTooLarge => plainly(Reason::SchedTooLarge),
        CoarseFault::NarrowItem(i, x) => at_item(Reason::NarrowItem, i, x),
        CoarseFault::Memory => Fault::Memory,
    }
}

/// The coarse schedules of a whole deck.
fn ordered(
    alloc: Global,
    deck: &Deck,
    tally: &Tally,
    k: u32,
    d: u32,
    lpfs: bool,
) -> Result<Coarse, Fault>
    requires whole { IsWhole deck.now }
    requires tally { StandsFor tally.now deck.now }
    requires ones { tally.now.times ≡ ones }
    requires k { 1 ≤ k }
    requires d { 1 ≤ d }
    ensures coarse { Found (IsCoarse (order_by lpfs) k d deck.now) result }
    ensures many { IfOk result (λ c. length c ≡ length deck.now) }
{
    if lpfs {
        coarse_by(alloc, deck, tally, k, d, &Lpfs)
    } else {
        coarse_by(alloc, deck, tally, k, d, &Rcp)
    }
}

fn coarse_by<P: Priority>(
    alloc: Global,
    deck: &Deck,
    tally: &Tally,
    k: u32,
    d: u32,
    order: &P,
) -> Result<Coarse, Fault>
    requires whole { IsWhole deck.now }
    requires tally { StandsFor tally.now deck.now }
    requires ones { tally.now.times ≡ ones }
    requires k { 1 ≤ k }
    requires d { 1 ≤ d }
    ensures coarse { Found (IsCoarse (P.comes order.now) k d deck.now) result }
    ensures many { IfOk result (λ c. length c ≡ length deck.now) }
{
    match coarse_of(alloc, deck, tally, k, d, order) {
        Ok(coarse) => Ok(coarse),
        Err(fault) => Err(coarse_fault(fault)),
    }
}
