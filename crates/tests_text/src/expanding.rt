//! From a hierarchical text to the flat text of its deck.
use sc_base::{MemSink, Sink};
use sc_count::tally_deck;
use sc_flat::{PrepFault, prepare};
use sc_gate::Times;
use sc_probe::Probe;
use sc_read::{HierFault, read_hier};
use std::alloc::Global;

/// Why a hierarchical text has no flat text here.
#[derive(Clone, Copy, Debug, PartialEq, Eq)]
pub enum Refusal {
    Read(HierFault),
    Prepare(PrepFault),
    Count,
    Write,
    /// The text is long, the sink was ended, or the deck is not whole.
    Unfit,
}

/// Writes the flat text of the deck that the text is read as, of at most `limit` gates.
pub fn expand(
    alloc: Global,
    text: &[u8],
    limit: u64,
    out: &mut MemSink,
    probes: &mut [Box<dyn Probe>],
) -> Result<(), Refusal> {
    if text.len() > 10_000_000 || out.ended() {
        return Err(Refusal::Unfit);
    }
    let deck = match read_hier(alloc, text) {
        Ok(deck) => deck,
        Err(fault) => return Err(Refusal::Read(fault)),
    };
    if !deck.is_whole() {
        return Err(Refusal::Unfit);
    }
    let Ok(tally) = tally_deck(alloc, &deck, &Times::ones()) else {
        return Err(Refusal::Count);
    };
    let mut expander = match prepare(alloc, &deck, &tally, limit) {
        Ok(expander) => expander,
        Err(fault) => return Err(Refusal::Prepare(fault)),
    };
    match expander.write(&deck, out, probes) {
        Ok(()) => Ok(()),
        Err(_) => Err(Refusal::Write),
    }
}
