//! Bodies: the parameter wires and the items of an instance.
ghost use Rattle.std.specs.Prelude.{◌≡◌, ◌+◌, ◌<◌, ◌≤◌, ◌^◌, OnOk, OnErr};
ghost use Rattle.sc_gate.specs.Gates.{operands, AreDistinct, IsWellFormed};
ghost use Rattle.sc_deck.specs.Bodies.{wires_of, with_item, empty_body, IsBody};
ghost use Rattle.sc_deck.specs.Turns.{with_folded, last_turns};
ghost use Rattle.sc_gate.specs.Numbers.{number_of, both, AreThere};

use crate::range::kind_has_range;
use crate::{Item, Operands, fold};
use sc_base::{Class, List, Memory};
use sc_gate::{Gate, Wire};
use std::alloc::Global;
use std::marker::Model;

/// The parameter wires and the items of an instance. Local wires are numbered apart by class, parameters first, then fresh ones in order.
/// There are at most 65,536 wires, and each item names only wires that are there.
#[derive(Debug, Drop)]
pub struct Body {
    qubit_params: u32,
    cbit_params: u32,
    qubits: u32,
    cbits: u32,
    items: List<Item>,
    alloc: Global,
}

impl Model for Body {
    ghost use Rattle.sc_deck.specs.Bodies.{Contents, Counts};

    ghost Value = { Contents };

    ghost view = { λ b. record { params = record { qubits = b.qubit_params; cbits = b.cbit_params }; items = b.items } };

    ghost invariant = { λ b. Counts (record { params = record { qubits = b.qubit_params; cbits = b.cbit_params }; items = b.items }) (record { qubits = b.qubits; cbits = b.cbits }) };
}

impl Body {
    /// A body without items, with so many qubits and classical bits as parameters, at most 65,536 together. It takes memory at the
    /// first push.
    pub fn new(alloc: Global, qubits: u32, cbits: u32) -> Body
        requires { qubits + cbits ≤ 65536 }
        ensures { result ≡ empty_body qubits cbits }
    {
        Body {
            qubit_params: qubits,
            cbit_params: cbits,
            qubits,
            cbits,
            items: List::new(alloc),
            alloc,
        }
    }

    /// Appends at least one fresh wire of a class, within 65,536 wires in all. Unchanged after `Memory`.
    pub fn push_fresh(&mut self, class: Class, n: u32) -> Result<(), Memory>
        requires some { 1 ≤ n }
        requires room { both (wires_of self.old) + n ≤ 65536 }
        ensures ok { OnOk result (self.new ≡ with_item self.old (Item.Fresh class n)) }
        ensures err { OnErr result (self.new ≡ self.old) }
    {
        self.items.push(Item::Fresh(class, n))?;
        match class {
            Class::Q => self.qubits += n,
            Class::C => self.cbits += n,
        }
        Ok(())
    }

    /// Appends a gate. Unchanged after `Memory`.
    pub fn push_gate(&mut self, gate: Gate) -> Result<(), Memory>
        requires well_formed { IsWellFormed gate }
        requires there { AreThere (wires_of self.old) (operands gate) }
        ensures ok { OnOk result (self.new ≡ with_item self.old (Item.Gate gate)) }
        ensures err { OnErr result (self.new ≡ self.old) }
    {
        kind_has_range(gate.kind);
        self.items.push(Item::Gate(gate))?;
        Ok(())
    }

    /// Appends a call of the body with number `callee`. Unchanged after `Memory`.
    pub fn push_call(&mut self, callee: u32, wires: &[Wire]) -> Result<(), Memory>
        requires distinct { AreDistinct wires.now }
        requires there { AreThere (wires_of self.old) wires.now }
        ensures ok { OnOk result (self.new ≡ with_item self.old (Item.Call callee wires.now)) }
        ensures err { OnErr result (self.new ≡ self.old) }
    {
        let operands = Operands::from_slice(self.alloc, wires)?;
        self.items.push(Item::Call(callee, operands))?;
        Ok(())
    }

    /// Appends a gate that is applied `turns` times. Unchanged after `Memory`.
    pub fn push_gates(&mut self, gate: Gate, turns: u64) -> Result<(), Memory>
        requires well_formed { IsWellFormed gate }
        requires there { AreThere (wires_of self.old) (operands gate) }
        requires repeated { 2 ≤ turns }
        ensures ok { OnOk result (self.new ≡ with_item self.old (Item.Gates gate turns)) }
        ensures err { OnErr result (self.new ≡ self.old) }
    {
        kind_has_range(gate.kind);
        self.items.push(Item::Gates(gate, turns))?;
        Ok(())
    }

    /// Appends `turns` calls of the body with number `callee`. Unchanged after `Memory`.
    pub fn push_calls(&mut self, callee: u32, wires: &[Wire], turns: u64) -> Result<(), Memory>
        requires distinct { AreDistinct wires.now }
        requires there { AreThere (wires_of self.old) wires.now }
        requires repeated { 2 ≤ turns }
        ensures ok { OnOk result (self.new ≡ with_item self.old (Item.Calls callee wires.now turns)) }
        ensures err { OnErr result (self.new ≡ self.old) }
    {
        let operands = Operands::from_slice(self.alloc, wires)?;
        self.items.push(Item::Calls(callee, operands, turns))?;
        Ok(())
    }

    /// Appends a gate, or adds a turn to the last item where that is the same gate. Unchanged after `Memory`.
    pub fn fold_gate(&mut self, gate: Gate) -> Result<(), Memory>
        requires well_formed { IsWellFormed gate }
        requires there { AreThere (wires_of self.old) (operands gate) }
        requires room { last_turns self.old.items + 1 < 2 ^ 64 }
        ensures ok { OnOk result (self.new ≡ record self.old { items = with_folded self.old.items (Item.Gate gate) }) }
        ensures err { OnErr result (self.new ≡ self.old) }
    {
        fold::fold_gate(&mut self.items, self.alloc, gate)?;
        Ok(())
    }

    /// Appends a call of the body with number `callee`, or adds a turn to the last item where that is the same call.
    /// Unchanged after `Memory`.
    pub fn fold_call(&mut self, callee: u32, wires: &[Wire]) -> Result<(), Memory>
        requires distinct { AreDistinct wires.now }
        requires there { AreThere (wires_of self.old) wires.now }
        requires room { last_turns self.old.items + 1 < 2 ^ 64 }
        ensures ok { OnOk result (self.new ≡ record self.old { items = with_folded self.old.items (Item.Call callee wires.now) }) }
        ensures err { OnErr result (self.new ≡ self.old) }
    {
        fold::fold_call(&mut self.items, self.alloc, callee, wires)?;
        Ok(())
    }

    /// How many wires of this class there are so far, parameters included. Takes no memory.
    pub fn count(&self, class: Class) -> u32
        ensures { result ≡ number_of class (wires_of self.now) }
    {
        match class {
            Class::Q => self.qubits,
            Class::C => self.cbits,
        }
    }

    /// How many wires there are, parameters included, at most 65,536. Takes no memory.
    pub fn wires(&self) -> u32
        ensures count { result ≡ both (wires_of self.now) }
        ensures sound { IsBody self.now }
    {
        self.qubits + self.cbits
    }

    /// The items in order. Takes no memory.
    pub fn items(&self) -> &[Item]
        ensures { result.now ≡ self.now.items }
    {
        self.items.as_slice()
    }

    /// How many parameter wires of this class there are. Takes no memory.
    pub fn params(&self, class: Class) -> u32
        ensures { result ≡ number_of class self.now.params }
    {
        match class {
            Class::Q => self.qubit_params,
            Class::C => self.cbit_params,
        }
    }
}
