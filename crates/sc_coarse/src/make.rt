//! The coarse schedules of a deck.
ghost use Rattle.std.specs.Prelude.{◌≡◌, ◌≤◌, ◌<◌, ◌-◌, ◌^◌, ◌↔◌, ℕ, true, false, length, slice_get, Some, IfOk, OnOk, Err};
ghost use Rattle.sc_deck.specs.Decks.{IsDeck, IsWhole};
ghost use Rattle.sc_deck.specs.Modules.{Module};
ghost use Rattle.sc_deck.specs.Unfolding.{gates_of};
ghost use Rattle.sc_count.specs.declared.counts.Counts.{Counts};
ghost use Rattle.sc_count.specs.Tallies.{StandsFor};
ghost use Rattle.sc_sched.specs.Legal.{IsLegal};
ghost use Rattle.sc_coarse.specs.declared.coarse.Instance.{Instance as Scheduled};
ghost use Rattle.sc_coarse.specs.CoarseSchedules.{IsCoarseSchedule};
ghost use Rattle.sc_coarse.specs.CoarseRule.{ones, all_turn_blocks, IsCoarseRule};
ghost use Rattle.sc_coarse.specs.Expansions.{expanded};
ghost use Rattle.sc_coarse.specs.Making.{AreMade};
ghost use Rattle.sc_coarse.specs.Refusals.{deck_too_large, IsFirstWide, NoneIsWide};

use crate::Coarse;
use crate::building::blocks_of;
use crate::coarse::Instance;
use crate::lengths::length_of;
use crate::limits::{first_wide, is_too_large, items_at};
use sc_base::{List, Memory};
use sc_count::Tally;
use sc_deck::Deck;
use sc_sched::Priority;
use std::alloc::Global;

/// Why there are no coarse schedules.
#[derive(Clone, Copy, Debug, PartialEq, Eq)]
pub enum CoarseFault {
    /// A stretch has more than 4,194,304 gates, or a body more than 4,294,967,295 items.
    SchedTooLarge,
    /// A gate item has more qubits than a region: the number of the first instance with such an item, and the position of
    /// its first one, both from 0.
    NarrowItem(u32, u32),
    /// There is not enough memory.
    Memory,
}

impl From<Memory> for CoarseFault {
    fn from(_: Memory) -> Self {
        CoarseFault::Memory
    }
}

/// The coarse schedules of all instances of a whole deck on `k` regions of `d` qubits, by an order of ranks, where every
/// gate takes the time 1. `k` and `d` are at least 1. The tally is that of the deck, with every duration 1.
///
/// Gate items that are applied once, with no call and no repeated gate between them, have the steps of the priority schedule
/// of their gates. Every call and every repeated gate is a block of its own, which stands for all its turns.
///
/// `SchedTooLarge` comes exactly where such a stretch has more than 4,194,304 gates or a body more than 4,294,967,295 items.
/// Else `NarrowItem` comes exactly where a gate item has more than `d` qubits, with the first instance that has one and its
/// first one.
pub fn coarse_of<P: Priority>(
    alloc: Global,
    deck: &Deck,
    tally: &Tally,
    k: u32,
    d: u32,
    order: &P,
) -> Result<Coarse, CoarseFault>
    requires whole { IsWhole deck.now }
    requires tally { StandsFor tally.now deck.now }
    requires ones { tally.now.times ≡ ones }
    requires k { 1 ≤ k }
    requires d { 1 ≤ d }
    ensures many { IfOk result (λ c. length c ≡ length deck.now) }
    ensures rule { IfOk result (λ c. (i : ℕ) (m : Module) (one : Scheduled) → slice_get deck.now i ≡ Some m → slice_get c i ≡ Some one →
        IsCoarseRule (P.comes order.now) k d m.items one.blocks) }
    ensures coarse { IfOk result (λ c. (i : ℕ) (m : Module) (one : Scheduled) → slice_get deck.now i ≡ Some m → slice_get c i ≡ Some one →
        IsCoarseSchedule m.items (all_turn_blocks m.items one.blocks)) }
    ensures legal { IfOk result (λ c. IsLegal (gates_of deck.now (length deck.now - 1)) k d (expanded deck.now c (length deck.now - 1))) }
    ensures length { IfOk result (λ c. (i : ℕ) (one : Scheduled) → slice_get c i ≡ Some one → one.length ≡ length (expanded deck.now c i)) }
    ensures room { OnOk result (NoneIsWide d deck.now) }
    ensures too_large { (result ≡ Err CoarseFault.SchedTooLarge) ↔ (deck_too_large deck.now ≡ true) }
    ensures narrow { (i x : ℕ) → (result ≡ Err (CoarseFault.NarrowItem i x)) ↔ ((deck_too_large deck.now ≡ false) × IsFirstWide d deck.now i x) }
{
    if is_too_large(deck) {
        return Err(CoarseFault::SchedTooLarge);
    }
    if let Some((i, x)) = first_wide(deck, d) {
        return Err(CoarseFault::NarrowItem(i, x));
    }
    match schedule_all(alloc, deck, tally, k, d, order) {
        Ok(instances) => Ok(Coarse::new(instances)),
        Err(_) => Err(CoarseFault::Memory),
    }
}

/// The coarse schedules of all instances, each with its length.
fn schedule_all<P: Priority>(
    alloc: Global,
    deck: &Deck,
    tally: &Tally,
    k: u32,
    d: u32,
    order: &P,
) -> Result<List<Instance>, Memory>
    requires tally { StandsFor tally.now deck.now }
    requires fits { deck_too_large deck.now ≡ false }
    requires narrow { NoneIsWide d deck.now }
    requires k { 1 ≤ k }
    requires d { 1 ≤ d }
    ensures made { IfOk result (AreMade (P.comes order.now) k d deck.now (length deck.now)) }
    ensures sound { OnOk result (IsDeck deck.now) }
{
    let mut instances = List::new(alloc);
    for i in 0..deck.len() {
        let items = items_at(deck, i);
        let blocks = blocks_of(alloc, items, k, d, order)?;
        gates_have_range(tally, i);
        let length = length_of(blocks.as_slice(), items, instances.as_slice());
        instances.push(Instance { length, blocks })?;
    }
    Ok(instances)
}

/// Tells that the number of gates of an instance is in range.
fn gates_have_range(tally: &Tally, i: u32)
    ensures { (c : Counts) → slice_get tally.now.counts i ≡ Some c → c.gates < 2 ^ 128 }
{
    if let Some(counts) = tally.at(i) {
        has_range(counts.gates);
    }
}

fn has_range(n: u128)
    ensures { n < 2 ^ 128 }
{
    let _ = n;
}
