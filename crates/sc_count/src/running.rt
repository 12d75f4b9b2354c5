//! Counting the items of one body.
ghost use Rattle.std.specs.Prelude.{◌≡◌, ◌≤◌, ◌<◌, ◌+◌, ◌*◌, ◌^◌, ◌∷◌, [], length, map, SomeIff, OnSome, IfSome, IfNone};
ghost use Rattle.std.specs.List.{AllByRecursion};
ghost use Rattle.sc_deck.specs.Items.{callees_of};
ghost use Rattle.sc_deck.specs.Turns.{turns_of};
ghost use Rattle.sc_count.specs.Callees.{added, no_counts, gate_counts, turned, with_fresh, with_part, with_item, nothing_yet, counts_over_items};
ghost use Rattle.sc_count.specs.Limits.{IsTooLarge, IsWithin, IsSound, IsSoundSoFar};

use crate::Counts;
use sc_base::Class;
use sc_deck::Item;
use sc_gate::{Gate, Times};

/// What a body counts so far, and its own fresh qubits among them.
#[derive(Drop)]
pub(crate) struct Running {
    counts: Counts,
    own: u128,
}

/// The counts of items, where the bodies that they call have these counts; None where a number passes 2^128 - 1.
pub(crate) fn count_items(times: &Times, callees: &[Counts], items: &[Item]) -> Option<Counts>
    requires callees { AllByRecursion (λ j. j < length callees.now) (callees_of items.now) }
    requires turns { AllByRecursion (λ i. 1 ≤ turns_of i) items.now }
    requires sound { AllByRecursion IsSound callees.now }
    ensures some { IfSome result (λ counts. counts ≡ counts_over_items times.now callees.now items.now) }
    ensures sound { IfSome result IsSound }
    ensures fits { IfSome result IsWithin }
    ensures none { IfNone result (IsTooLarge (counts_over_items times.now callees.now items.now)) }
{
    let mut running = Running {
        counts: no_counts(),
        own: 0,
    };
    for item in items {
        running.add_item(times, callees, item)?;
    }
    have_range(&running.counts);
    Some(running.counts)
}

impl Running {
    fn add_item(&mut self, times: &Times, callees: &[Counts], item: &Item) -> Option<()>
        requires callees { AllByRecursion (λ j. j < length callees.now) (callees_of (item.now ∷ [])) }
        requires turns { 1 ≤ turns_of item.now }
        requires callees_sound { AllByRecursion IsSound callees.now }
        requires sound { IsSoundSoFar self.old }
        ensures some { OnSome result (self.new ≡ with_item times.now callees.now self.old item.now) }
        ensures none { IfNone result (IsTooLarge (with_item times.now callees.now self.old item.now).counts) }
    {
        match item {
            Item::Fresh(class, n) => self.add_fresh(*class, *n),
            Item::Gate(gate) => self.add_part(&count_gate(times, gate), 1),
            Item::Gates(gate, turns) => self.add_part(&count_gate(times, gate), *turns),
            Item::Call(callee, _) => self.add_part(&callees[*callee as usize], 1),
            Item::Calls(callee, _, turns) => self.add_part(&callees[*callee as usize], *turns),
        }
    }

    /// Adds fresh wires of the body itself.
    fn add_fresh(&mut self, class: Class, n: u32) -> Option<()>
        requires sound { IsSoundSoFar self.old }
        ensures some { OnSome result (self.new ≡ with_fresh class n self.old) }
        ensures none { IfNone result (IsTooLarge (with_fresh class n self.old).counts) }
    {
        match class {
            Class::Q => {
                self.counts.qubits = self.counts.qubits.checked_add(u128::from(n))?;
                self.own += u128::from(n);
                self.counts.peak = self.counts.peak.max(self.own);
            }
            Class::C => {
                self.counts.cbits = self.counts.cbits.checked_add(u128::from(n))?;
            }
        }
        Some(())
    }

    /// Adds so many turns of a part whose qubits die at the end of each turn.
    fn add_part(&mut self, part: &Counts, turns: u64) -> Option<()>
        requires turns { 1 ≤ turns }
        requires part_sound { IsSound part.now }
        requires sound { IsSoundSoFar self.old }
        ensures some { OnSome result (self.new ≡ with_part self.old (turned turns part.now)) }
        ensures none { IfNone result (IsTooLarge (with_part self.old (turned turns part.now)).counts) }
    {
        let gates = add_turns(self.counts.gates, part.gates, turns)?;
        let weight = add_turns(self.counts.weight, part.weight, turns)?;
        let qubits = add_turns(self.counts.qubits, part.qubits, turns)?;
        let cbits = add_turns(self.counts.cbits, part.cbits, turns)?;
        let kinds = add_kinds(&self.counts.kinds, &part.kinds, turns);
        let peak = self.counts.peak.max(self.own + part.peak);
        self.counts = Counts {
            kinds,
            gates,
            weight,
            qubits,
            cbits,
            peak,
        };
        Some(())
    }
}

fn no_counts() -> Counts
    ensures { result ≡ no_counts }
{
    Counts {
        kinds: [0; 18],
        gates: 0,
        weight: 0,
        qubits: 0,
        cbits: 0,
        peak: 0,
    }
}

/// Tells that the numbers of counts are in range.
fn have_range(counts: &Counts)
    ensures { IsWithin counts.now }
{
    has_range(counts.gates);
    has_range(counts.weight);
    has_range(counts.qubits);
    has_range(counts.cbits);
}

fn has_range(n: u128)
    ensures { n < 2 ^ 128 }
{
    let _ = n;
}

/// The counts of one gate.
fn count_gate(times: &Times, gate: &Gate) -> Counts
    ensures counts { result ≡ gate_counts times.now gate.now }
    ensures sound { IsSound result }
{
    let mut counts = no_counts();
    counts.kinds[gate.kind.name().place()] = 1;
    counts.gates = 1;
    counts.weight = u128::from(times.of(&gate.kind));
    counts
}

/// A number with so many turns of another; None where the sum passes 2^128 - 1.
fn add_turns(before: u128, each: u128, turns: u64) -> Option<u128>
    ensures { SomeIff result (before + turns * each < 2 ^ 128) (before + turns * each) }
{
    before.checked_add(u128::from(turns).checked_mul(each)?)
}

/// Numbers, each with so many turns of the one beside it.
fn add_kinds(kinds: &[u128; 18], each: &[u128; 18], turns: u64) -> [u128; 18]
    requires { AllByRecursion (λ k. k < 2 ^ 128) (added kinds.now (map (λ k. turns * k) each.now)) }
    ensures { result ≡ added kinds.now (map (λ k. turns * k) each.now) }
{
    let mut sums = [0; 18];
    for i in 0..18 {
        sums[i] = kinds[i] + u128::from(turns) * each[i];
    }
    sums
}
