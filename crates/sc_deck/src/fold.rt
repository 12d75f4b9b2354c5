//! Items that join the last one of a list where that is the same gate or the same call.
ghost use Rattle.std.specs.Prelude.{◌≡◌, ◌↔◌, ◌<◌, ◌+◌, ◌-◌, ◌^◌, ◌++◌, [], ◌∷◌, length, IsTrue, IfSome, IfNone, OnOk, OnErr, All, set};
ghost use Rattle.sc_deck.specs.Items.{ItemInRange};
ghost use Rattle.sc_deck.specs.Turns.{joined, with_folded, turns_of, last_turns};

use crate::range::kind_has_range;
use crate::repeat::is_same;
use crate::{Item, Operands};
use sc_base::{List, Memory};
use sc_gate::{Gate, Wire, same_gate};
use std::alloc::Global;

/// Appends a gate, or adds a turn to the last item where that is the same gate. Unchanged after `Memory`.
pub(crate) fn fold_gate(items: &mut List<Item>, alloc: Global, gate: Gate) -> Result<(), Memory>
    requires room { last_turns items.old + 1 < 2 ^ 64 }
    ensures ok { OnOk result (items.new ≡ with_folded items.old (Item.Gate gate)) }
    ensures range { OnOk result (All ItemInRange items.old → All ItemInRange items.new) }
    ensures err { OnErr result (items.new ≡ items.old) }
{
    kind_has_range(gate.kind);
    match gate_turns(items.as_slice(), &gate) {
        Some(turns) => {
            put_last(items, alloc, Item::Gates(gate, turns));
            Ok(())
        }
        None => items.push(Item::Gate(gate)),
    }
}

/// Appends a call, or adds a turn to the last item where that is the same call. Unchanged after `Memory`.
pub(crate) fn fold_call(
    items: &mut List<Item>,
    alloc: Global,
    callee: u32,
    wires: &[Wire],
) -> Result<(), Memory>
    requires room { last_turns items.old + 1 < 2 ^ 64 }
    ensures ok { OnOk result (items.new ≡ with_folded items.old (Item.Call callee wires.now)) }
    ensures range { OnOk result (All ItemInRange items.old → All ItemInRange items.new) }
    ensures err { OnErr result (items.new ≡ items.old) }
{
    let operands = Operands::from_slice(alloc, wires)?;
    match call_turns(items.as_slice(), callee, wires) {
        Some(turns) => {
            put_last(items, alloc, Item::Calls(callee, operands, turns));
            Ok(())
        }
        None => items.push(Item::Call(callee, operands)),
    }
}

/// The turns of the item that stands for the last one and the gate, where the last one applies the same gate.
fn gate_turns(items: &[Item], gate: &Gate) -> Option<u64>
    requires room { last_turns items.now + 1 < 2 ^ 64 }
    ensures some { IfSome result (λ n. 0 < length items.now) }
    ensures joins { IfSome result (λ n. with_folded items.now (Item.Gate gate.now) ≡ set items.now (length items.now - 1) (Item.Gates gate.now n)) }
    ensures stays { IfNone result (with_folded items.now (Item.Gate gate.now) ≡ items.now ++ Item.Gate gate.now ∷ []) }
{
    match items.last() {
        Some(last) => turns_with_gate(last, gate),
        None => None,
    }
}

/// The turns of the item that stands for the last one and the call, where the last one makes the same call.
fn call_turns(items: &[Item], callee: u32, wires: &[Wire]) -> Option<u64>
    requires room { last_turns items.now + 1 < 2 ^ 64 }
    ensures some { IfSome result (λ n. 0 < length items.now) }
    ensures joins { IfSome result (λ n. with_folded items.now (Item.Call callee wires.now) ≡ set items.now (length items.now - 1) (Item.Calls callee wires.now n)) }
    ensures stays { IfNone result (with_folded items.now (Item.Call callee wires.now) ≡ items.now ++ Item.Call callee wires.now ∷ []) }
{
    match items.last() {
        Some(last) => turns_with_call(last, callee, wires),
        None => None,
    }
}

/// The turns of the item that stands for this one and the gate, where this one applies the same gate.
#[tactic(auto, using(crate::proofs::JoinLemmas::gate_joins, crate::proofs::JoinLemmas::gates_join, crate::proofs::JoinLemmas::gate_stays, crate::proofs::JoinLemmas::gates_stay))]
fn turns_with_gate(last: &Item, gate: &Gate) -> Option<u64>
    requires room { turns_of last.now + 1 < 2 ^ 64 }
    ensures joins { IfSome result (λ n. joined last.now (Item.Gate gate.now) ≡ Item.Gates gate.now n ∷ []) }
    ensures stays { IfNone result (joined last.now (Item.Gate gate.now) ≡ last.now ∷ Item.Gate gate.now ∷ []) }
{
    match last {
        Item::Gate(other) => {
            if same_gate(other, gate) {
                return Some(2);
            }
            None
        }
        Item::Gates(other, turns) => {
            if same_gate(other, gate) {
                return Some(*turns + 1);
            }
            None
        }
        Item::Fresh(..) | Item::Call(..) | Item::Calls(..) => None,
    }
}

/// The turns of the item that stands for this one and the call, where this one makes the same call.
#[tactic(auto, using(crate::proofs::JoinLemmas::call_joins, crate::proofs::JoinLemmas::calls_join, crate::proofs::JoinLemmas::call_stays, crate::proofs::JoinLemmas::calls_stay))]
fn turns_with_call(last: &Item, callee: u32, wires: &[Wire]) -> Option<u64>
    requires room { turns_of last.now + 1 < 2 ^ 64 }
    ensures joins { IfSome result (λ n. joined last.now (Item.Call callee wires.now) ≡ Item.Calls callee wires.now n ∷ []) }
    ensures stays { IfNone result (joined last.now (Item.Call callee wires.now) ≡ last.now ∷ Item.Call callee wires.now ∷ []) }
{
    match last {
        Item::Call(other, operands) => {
            if same_call(*other, operands.as_slice(), callee, wires) {
                return Some(2);
            }
            None
        }
        Item::Calls(other, operands, turns) => {
            if same_call(*other, operands.as_slice(), callee, wires) {
                return Some(*turns + 1);
            }
            None
        }
        Item::Fresh(..) | Item::Gate(_) | Item::Gates(..) => None,
    }
}

fn same_call(callee: u32, wires: &[Wire], other: u32, others: &[Wire]) -> bool
    ensures { IsTrue result ↔ ((callee ≡ other) × (wires.now ≡ others.now)) }
{
    if callee != other {
        return false;
    }
    same_wires(wires, others)
}

fn same_wires(wires: &[Wire], others: &[Wire]) -> bool
    ensures { IsTrue result ↔ (wires.now ≡ others.now) }
{
    if wires.len() != others.len() {
        return false;
    }
    for (i, wire) in wires.iter().enumerate() {
        if !is_same(wire, &others[i]) {
            return false;
        }
    }
    true
}

/// Puts an item in the place of the last one.
fn put_last(items: &mut List<Item>, alloc: Global, item: Item)
    requires some { 0 < length items.old }
    ensures { items.new ≡ set items.old (length items.old - 1) item }
{
    let mut all = std::mem::replace(items, List::new(alloc)).into_vec();
    let last = all.len() - 1;
    all[last] = item;
    *items = List::from_vec(all);
}
