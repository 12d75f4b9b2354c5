//! Counting body by body, each from the counts of the bodies that it calls.
ghost use Rattle.std.specs.Prelude.{◌≡◌, ◌↔◌, ◌<◌, ◌-◌, ℕ, List, [], length, slice_get, OnOk, OnErr, IfOk, Err};
ghost use Rattle.std.specs.List.{AllByRecursion};
ghost use Rattle.std.specs.Option.{option_copied};
ghost use Rattle.sc_deck.specs.declared.key.Key.{Key};
ghost use Rattle.sc_deck.specs.Decks.{IsDeck, IsWhole};
ghost use Rattle.sc_deck.specs.Items.{callees_of};
ghost use Rattle.sc_deck.specs.Modules.{Module};
ghost use Rattle.sc_deck.specs.Unfolding.{expansion};
ghost use Rattle.sc_count.specs.Callees.{counts_of};
ghost use Rattle.sc_count.specs.Counting.{counts_in};
ghost use Rattle.sc_count.specs.Limits.{IsTooLarge, IsWithin, AreSound};
ghost use Rattle.sc_count.specs.Tallies.{StandsFor, new_counts, with_counts, with_body};

use crate::Counts;
use crate::running::count_items;
use sc_base::{List, Memory};
use sc_deck::{Body, Deck};
use sc_gate::Times;
use std::alloc::Global;

/// Why a body or a deck has no counts.
#[derive(Clone, Copy, Debug, PartialEq, Eq)]
pub enum TallyFault {
    /// The gates, their weight, the qubits or the classical bits pass 2^128 - 1.
    CountTooLarge,
    /// There was no memory.
    Memory,
}

/// The counts of the bodies that were added, in order, and the durations by which gates weigh.
#[derive(Debug, Drop)]
pub struct Tally {
    pub counts: List<Counts>,
    pub times: Times,
}

impl Tally {
    /// A tally of no body, by these durations. It takes memory at the first `add`.
    pub fn new(alloc: Global, times: Times) -> Tally
        ensures counts { result.counts ≡ [] }
        ensures times { result.times ≡ times }
        ensures stands { StandsFor result [] }
    {
        Tally {
            counts: List::new(alloc),
            times,
        }
    }

    /// Appends the counts of the next body, made of those of the bodies that it calls, which have to be there. `CountTooLarge`
    /// comes exactly where the gates of this body with all its calls written out, their weight, its qubits or its classical bits
    /// pass 2^128 - 1; neither the number of a kind nor the peak makes it come. Unchanged after a refusal.
    pub fn add(&mut self, body: &Body) -> Result<(), TallyFault>
        requires callees { AllByRecursion (λ j. j < length self.old.counts) (callees_of body.now.items) }
        requires sound { AreSound self.old.counts }
        ensures ok { OnOk result (self.new ≡ with_counts self.old (new_counts self.old body.now)) }
        ensures err { OnErr result (self.new ≡ self.old) }
        ensures too_large { (result ≡ Err TallyFault.CountTooLarge) ↔ IsTooLarge (new_counts self.old body.now) }
        ensures fits { OnOk result (IsWithin (new_counts self.old body.now)) }
        ensures sound { AreSound self.new.counts }
        // the tally of a deck goes on with the deck
        ensures events { (modules : List Module) (key : Key) → StandsFor self.old modules → IsDeck (with_body modules key body.now) →
            new_counts self.old body.now ≡ counts_in self.old.times (expansion (with_body modules key body.now) (length modules)) }
        ensures stands { (modules : List Module) (key : Key) → StandsFor self.old modules → IsDeck (with_body modules key body.now) →
            OnOk result (StandsFor self.new (with_body modules key body.now)) }
    {
        // each item of a body has at least one turn
        let _ = body.wires();
        let Some(counts) = count_items(&self.times, self.counts.as_slice(), body.items()) else {
            return Err(TallyFault::CountTooLarge);
        };
        match self.counts.push(counts) {
            Ok(()) => Ok(()),
            Err(Memory) => Err(TallyFault::Memory),
        }
    }

    /// The counts of body `i`, counted from 0; None where no such body was added. Takes no memory.
    pub fn at(&self, i: u32) -> Option<&Counts>
        ensures { option_copied result ≡ slice_get self.now.counts i }
    {
        self.counts.get(i as usize)
    }
}

/// The counts of all bodies of a whole deck, by these durations. `CountTooLarge` comes exactly where the gates of the last body
/// with all its calls written out, their weight, its qubits or its classical bits pass 2^128 - 1.
pub fn tally_deck(alloc: Global, deck: &Deck, times: &Times) -> Result<Tally, TallyFault>
    requires { IsWhole deck.now }
    ensures times { IfOk result (λ tally. tally.times ≡ times.now) }
    ensures counts { IfOk result (λ tally. tally.counts ≡ counts_of times.now deck.now) }
    ensures stands { IfOk result (λ tally. StandsFor tally deck.now) }
    ensures sound { IfOk result (λ tally. AreSound tally.counts) }
    ensures fits { OnOk result (IsWithin (counts_in times.now (expansion deck.now (length deck.now - 1)))) }
    ensures too_large { result ≡ Err TallyFault.CountTooLarge → IsTooLarge (counts_in times.now (expansion deck.now (length deck.now - 1))) }
{
    let mut tally = Tally::new(alloc, *times);
    for i in 0..deck.len() {
        if let Some(body) = deck.body_at(i) {
            tally.add(body)?;
        }
    }
    Ok(tally)
}
