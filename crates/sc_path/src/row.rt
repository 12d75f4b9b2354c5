//! Rows of a path table: for each start the greatest weight.
ghost use Rattle.std.specs.Prelude.{◌≡◌, ◌↔◌, ℕ, ◌+◌, ◌<◌, ◌≤◌, ◌⊎◌, [], ◌∷◌, ◌++◌, drop, length, IfOk, IfErr, OnOk, IsTrue, Option};
ghost use Rattle.sc_gate.specs.Chains.{more};
ghost use Rattle.sc_path.specs.declared.fault.PathFault.TheVariants.{Memory};
ghost use Rattle.sc_path.specs.Rows.{look, both, same_start, place, Ascends, AreBefore, AreAfter, StartsIn, WhyHeavy};

use crate::PathFault;
use smallvec::SmallVec;
use std::alloc::Global;
use std::marker::Model;

/// Where chains start, and the greatest weight of one. A start is a parameter wire, or None for chains that start anywhere.
#[derive(Clone, Copy, Debug, Default, PartialEq, Eq)]
pub struct Entry {
    pub start: Option<u32>,
    pub weight: u128,
}

/// The greatest weights of the chains that end at one wire, or anywhere: a list of entries, None first and then ascending
/// parameter wires. A start without an entry has no chain. Most rows are short and take no memory of their own.
#[derive(Debug, Drop)]
pub struct Row {
    entries: SmallVec<Entry, 2>,
}

impl Model for Row {
    ghost use Rattle.std.specs.Prelude.{List};
    ghost use Rattle.sc_path.specs.declared.row.Entry.{Entry};
    ghost use Rattle.sc_path.specs.Rows.{Ascends};

    ghost Value = { List Entry };

    ghost view = { λ r. r.entries.items };

    ghost invariant = { λ r. Ascends r.entries.items };
}

impl Row {
    pub(crate) fn new(alloc: Global) -> Row
        ensures { result ≡ [] }
    {
        Row {
            entries: SmallVec::new(alloc),
        }
    }

    pub(crate) fn from_slice(alloc: Global, entries: &[Entry]) -> Result<Row, PathFault>
        requires { Ascends entries.now }
        ensures same { IfOk result (λ row. row ≡ entries.now) }
        ensures err { IfErr result (λ fault. fault ≡ Memory) }
    {
        match SmallVec::from_slice(alloc, entries) {
            Ok(entries) => Ok(Row { entries }),
            Err(_) => Err(PathFault::Memory),
        }
    }

    /// The entries, in the order of their starts.
    pub fn as_slice(&self) -> &[Entry]
        ensures entries { result.now ≡ self.now }
        ensures ascends { Ascends result.now }
    {
        self.entries.as_slice()
    }

    pub(crate) fn push(&mut self, entry: Entry) -> Result<(), PathFault>
        requires { AreBefore (place entry.start) self.old }
        ensures ok { OnOk result (self.new ≡ self.old ++ entry ∷ []) }
        ensures err { IfErr result (λ fault. fault ≡ Memory) }
    {
        match self.entries.push(entry) {
            Ok(()) => Ok(()),
            Err(_) => Err(PathFault::Memory),
        }
    }
}

/// An entry, and how far two rows are taken.
#[derive(Clone, Copy)]
pub struct Taken {
    pub entry: Entry,
    pub i: usize,
    pub j: usize,
}

/// The entry with `by` added to its weight.
fn heavier(entry: Entry, by: u128) -> Result<Entry, PathFault>
    ensures ok { IfOk result (λ e. (e.start ≡ entry.start) × (e.weight ≡ by + entry.weight)) }
    ensures err { IfErr result (WhyHeavy (entry ∷ []) by) }
{
    match entry.weight.checked_add(by) {
        Some(weight) => Ok(Entry {
            start: entry.start,
            weight,
        }),
        None => Err(PathFault::CountTooLarge),
    }
}

/// Whether a start stands before another: anywhere first, then the parameter wires ascending.
fn precedes(a: Option<u32>, b: Option<u32>) -> bool
    ensures { IsTrue result ↔ (place a < place b) }
{
    match (a, b) {
        (None, Some(_)) => true,
        (Some(a), Some(b)) => a < b,
        _ => false,
    }
}

pub fn is_same(a: Option<u32>, b: Option<u32>) -> bool
    ensures { IsTrue result ↔ (a ≡ b) }
{
    a == b
}

/// The next entry of two rows, from i and j on.
fn take_next(a: &[Entry], i: usize, b: &[Entry], j: usize, by: u128) -> Result<Taken, PathFault>
    requires first { Ascends a.now }
    requires second { Ascends b.now }
    requires in_a { i ≤ length a.now }
    requires in_b { j ≤ length b.now }
    requires more_left { i + j < length a.now + length b.now }
    ensures in_a { IfOk result (λ t. t.i ≤ length a.now) }
    ensures in_b { IfOk result (λ t. t.j ≤ length b.now) }
    ensures further { IfOk result (λ t. i + j < t.i + t.j) }
    ensures start { IfOk result (λ t. StartsIn (drop i a.now) t.entry.start ⊎ StartsIn (drop j b.now) t.entry.start) }
    ensures later { IfOk result (λ t. AreAfter (place t.entry.start) (drop t.i a.now) × AreAfter (place t.entry.start) (drop t.j b.now)) }
    ensures sums { IfOk result (λ t. (s : Option ℕ) → both (drop i a.now) (drop j b.now) by s ≡ more (look (t.entry ∷ []) s) (both (drop t.i a.now) (drop t.j b.now) by s)) }
    ensures err { IfErr result (WhyHeavy b.now by) }
{
    if j == b.len() || (i < a.len() && precedes(a[i].start, b[j].start)) {
        return Ok(Taken {
            entry: a[i],
            i: i + 1,
            j,
        });
    }
    let entry = match heavier(b[j], by) {
        Ok(entry) => entry,
        Err(fault) => return Err(fault),
    };
    if i == a.len() || !is_same(entry.start, a[i].start) {
        return Ok(Taken { entry, i, j: j + 1 });
    }
    let weight = if a[i].weight < entry.weight {
        entry.weight
    } else {
        a[i].weight
    };
    Ok(Taken {
        entry: Entry {
            start: entry.start,
            weight,
        },
        i: i + 1,
        j: j + 1,
    })
}

/// The entries of `a`, and those of `b` with `by` added; the heavier one where both have a start.
pub fn merge(alloc: Global, a: &[Entry], b: &[Entry], by: u128) -> Result<Row, PathFault>
    requires first { Ascends a.now }
    requires second { Ascends b.now }
    ensures sums { IfOk result (λ row. (s : Option ℕ) → look row s ≡ both a.now b.now by s) }
    ensures err { IfErr result (WhyHeavy b.now by) }
{
    let mut out = Row::new(alloc);
    let mut i = 0;
    let mut j = 0;
    while i + j < a.len() + b.len() {
        let taken = match take_next(a, i, b, j, by) {
            Ok(taken) => taken,
            Err(fault) => return Err(fault),
        };
        match out.push(taken.entry) {
            Ok(()) => {}
            Err(fault) => return Err(fault),
        }
        i = taken.i;
        j = taken.j;
    }
    Ok(out)
}
