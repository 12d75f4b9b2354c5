//! An expander is made once for a deck.
ghost use Rattle.std.specs.Prelude.{◌≡◌, ◌↔◌, ◌-◌, ◌<◌, length, map, Err, IfOk, All};
ghost use Rattle.sc_deck.specs.Decks.{IsDeck, IsWhole};
ghost use Rattle.sc_deck.specs.Events.{fresh_in};
ghost use Rattle.sc_deck.specs.Unfolding.{expansion, gates_of};
ghost use Rattle.sc_count.specs.Tallies.{StandsFor};
ghost use Rattle.sc_flat.specs.Shown.{FitsDeck, ManyWires};
ghost use Rattle.sc_flat.specs.Sizes.{IsSmall, size_in};

use crate::expander::Expander;
use crate::size::Size;
use crate::walk::Walk;
use sc_base::{List, Memory};
use sc_count::{Counts, Tally};
use sc_deck::Deck;
use std::alloc::Global;

/// Why a deck has no flat text here.
#[derive(Clone, Copy, Debug, PartialEq, Eq)]
pub enum PrepFault {
    /// Its qubits or its classical bits pass 4,294,967,295.
    TooManyWires,
    /// Its gates pass the limit.
    TooManyGates,
    /// There was no memory.
    Memory,
}

impl From<Memory> for PrepFault {
    ghost use Rattle.sc_flat.specs.declared.preparing.PrepFault.{PrepFault};

    ghost from_gives = { λ _ e. e ≡ PrepFault.Memory };

    fn from(_: Memory) -> PrepFault {
        PrepFault::Memory
    }
}

/// Reserves what the flat text of a whole deck of at most `limit` gates needs: one frame a body, and room for the wires of
/// every chain of calls. The tally has to be that of the deck. `TooManyWires` comes exactly where the qubits or the classical
/// bits pass 4,294,967,295, and else `TooManyGates` exactly where the gates pass `limit`.
pub fn prepare(alloc: Global, deck: &Deck, tally: &Tally, limit: u64) -> Result<Expander, PrepFault>
    requires whole { IsWhole deck.now }
    requires tally { StandsFor tally.now deck.now }
    ensures fits { IfOk result (λ expander. FitsDeck expander deck.now) }
    ensures too_many_wires { (result ≡ Err PrepFault.TooManyWires) ↔ ManyWires (fresh_in (expansion deck.now (length deck.now - 1))) }
    ensures too_many_gates { (result ≡ Err PrepFault.TooManyGates) ↔ ((¬ (ManyWires (fresh_in (expansion deck.now (length deck.now - 1))))) × (limit < length (gates_of deck.now (length deck.now - 1)))) }
{
    let last = last_counts(deck, tally);
    if last.qubits.max(last.cbits) > u128::from(u32::MAX) {
        return Err(PrepFault::TooManyWires);
    }
    if last.gates > u128::from(limit) {
        return Err(PrepFault::TooManyGates);
    }
    Ok(reserve(alloc, deck, tally)?)
}

/// The counts of a whole deck.
fn last_counts(deck: &Deck, tally: &Tally) -> Counts
    requires whole { IsWhole deck.now }
    requires tally { StandsFor tally.now deck.now }
    ensures deck { IsDeck deck.now }
    ensures gates { result.gates ≡ length (gates_of deck.now (length deck.now - 1)) }
    ensures qubits { result.qubits ≡ (fresh_in (expansion deck.now (length deck.now - 1))).qubits }
    ensures cbits { result.cbits ≡ (fresh_in (expansion deck.now (length deck.now - 1))).cbits }
{
    let last = deck.len() - 1;
    tally.counts.as_slice()[last as usize]
}

/// Reserves what a whole deck of sizes within the types needs.
fn reserve(alloc: Global, deck: &Deck, tally: &Tally) -> Result<Expander, Memory>
    requires whole { IsWhole deck.now }
    requires tally { StandsFor tally.now deck.now }
    requires small { All IsSmall tally.now.counts }
    ensures { IfOk result (λ expander. FitsDeck expander deck.now) }
{
    let bodies = deck.len();
    let sizes = sizes_of(alloc, tally.counts.as_slice())?;
    let walk = Walk::reserve(alloc, bodies, deck.reach())?;
    Ok(Expander::of(sizes, walk))
}

/// The same numbers with fewer bits.
fn size_of(counts: &Counts) -> Size
    requires { IsSmall counts.now }
    ensures { result ≡ size_in counts.now }
{
    Size {
        gates: counts.gates as u64,
        qubits: counts.qubits as u32,
        cbits: counts.cbits as u32,
    }
}

/// The sizes of all bodies, in order.
fn sizes_of(alloc: Global, counts: &[Counts]) -> Result<List<Size>, Memory>
    requires { All IsSmall counts.now }
    ensures { IfOk result (λ sizes. sizes ≡ map size_in counts.now) }
{
    let mut sizes = List::new(alloc);
    for c in counts {
        sizes.push(size_of(c))?;
    }
    Ok(sizes)
}
