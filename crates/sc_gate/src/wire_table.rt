//! A number for each of some wires.
ghost use Rattle.std.specs.Prelude.{◌≡◌, ◌<◌, ◌≤◌, if◌then◌else◌, nat_eq, ℕ, None, Some, OnOk, IfOk, length};
ghost use Rattle.sc_gate.specs.declared.gate.Wire.{Wire as WireValue};
ghost use Rattle.sc_gate.specs.Gates.{operands};
ghost use Rattle.sc_gate.specs.Wires.{same_wire, member};
ghost use Rattle.sc_gate.specs.WireTables.{number_in, number_at, on_wire, numbers_by};

use crate::{Gate, Wire};
use sc_base::{Class, Memory};
use std::alloc::Global;
use std::collections::BTreeMap;

/// A number for each of some wires of one class: the low wires by their own numbers, and all others in an ordered map, so
/// that no choice of wires makes it slow.
#[derive(Drop)]
pub struct ClassTable {
    /// One more than the number of each low wire, and 0 where it has none.
    pub low: Vec<u32>,
    pub high: BTreeMap<u32, u32>,
}

impl ClassTable {
    /// No wire has a number. So many wires are low.
    fn new(alloc: Global, low: usize) -> Result<ClassTable, Memory>
        ensures { IfOk result (λ table. (wire : ℕ) → number_in table wire ≡ None) }
    {
        let low = vec![in alloc; 0u32; low]?;
        Ok(ClassTable {
            low,
            high: BTreeMap::new(alloc),
        })
    }

    fn get(&self, wire: u32) -> Option<u32>
        ensures { result ≡ number_in self.now wire }
    {
        match self.low.get(wire as usize) {
            Some(mark) => mark.checked_sub(1),
            None => self.high.get(&wire).copied(),
        }
    }

    fn put(&mut self, wire: u32, number: u32) -> Result<(), Memory>
        requires { number < u32.MAX }
        ensures { OnOk result ((other : ℕ) → number_in self.new other ≡ (if nat_eq wire other then Some number else number_in self.old other)) }
    {
        if (wire as usize) < self.low.len() {
            self.low[wire as usize] = number + 1;
            return Ok(());
        }
        match self.high.insert(wire, number) {
            Ok(_) => Ok(()),
            Err(_) => Err(Memory),
        }
    }

    fn remove(&mut self, wire: u32)
        ensures { (other : ℕ) → number_in self.new other ≡ (if nat_eq wire other then None else number_in self.old other) }
    {
        if (wire as usize) < self.low.len() {
            self.low[wire as usize] = 0;
            return;
        }
        let _ = self.high.remove(&wire);
    }
}

/// For each operand of a gate a number, where it has one.
#[derive(Clone, Copy)]
pub struct OperandNumbers {
    pub a: Option<u32>,
    pub b: Option<u32>,
    pub c: Option<u32>,
}

/// A number for each of some wires. What it takes to ask, give or take one away grows with the logarithm of the count of wires
/// at most, whatever their numbers are.
#[derive(Drop)]
pub struct WireTable {
    pub qubits: ClassTable,
    pub cbits: ClassTable,
}

/// A number above that of the wire, where it is of the class.
fn above(wire: Option<Wire>, class: Class) -> usize {
    match wire {
        Some(wire) if wire.class == class => wire.number as usize + 1,
        _ => 0,
    }
}

/// How many wires of the class are low: as many as it takes for those of the gates, or as the gates have operands at most.
fn low_wires(gates: &[Gate], class: Class) -> usize
    requires { length gates.now ≤ 4194304 }
{
    let mut low = 0;
    for gate in gates {
        low = above(Some(gate.a), class)
            .max(above(gate.b, class))
            .max(above(gate.c, class))
            .max(low);
    }
    low.min(3 * gates.len())
}

impl WireTable {
    /// A table without a wire, made for the wires of these gates.
    pub fn new(alloc: Global, gates: &[Gate]) -> Result<WireTable, Memory>
        requires { length gates.now ≤ 4194304 }
        ensures { IfOk result (λ table. (wire : WireValue) → number_at table wire ≡ None) }
    {
        let qubits = ClassTable::new(alloc, low_wires(gates, Class::Q))?;
        let cbits = ClassTable::new(alloc, low_wires(gates, Class::C))?;
        Ok(WireTable { qubits, cbits })
    }

    /// The number of the wire; None where it has none.
    pub fn get(&self, wire: Wire) -> Option<u32>
        ensures { result ≡ number_at self.now wire }
    {
        match wire.class {
            Class::Q => self.qubits.get(wire.number),
            Class::C => self.cbits.get(wire.number),
        }
    }

    /// The number of the wire, where there is one and it has a number.
    fn on(&self, wire: Option<Wire>) -> Option<u32>
        ensures { result ≡ on_wire (number_at self.now) wire }
    {
        match wire {
            Some(wire) => self.get(wire),
            None => None,
        }
    }

    /// The number of each operand of the gate; None where it has none.
    pub fn operand_numbers(&self, gate: &Gate) -> OperandNumbers
        ensures { result ≡ numbers_by (number_at self.now) gate.now }
    {
        OperandNumbers {
            a: self.get(gate.a),
            b: self.on(gate.b),
            c: self.on(gate.c),
        }
    }

    /// Gives the wire this number. After `Memory` the table is of no use.
    pub fn put(&mut self, wire: Wire, number: u32) -> Result<(), Memory>
        requires { number < u32.MAX }
        ensures { OnOk result ((other : WireValue) → number_at self.new other ≡ (if same_wire wire other then Some number else number_at self.old other)) }
    {
        match wire.class {
            Class::Q => self.qubits.put(wire.number, number),
            Class::C => self.cbits.put(wire.number, number),
        }
    }

    /// Takes the wire's number away, where it has one.
    pub fn remove(&mut self, wire: Wire)
        ensures { (other : WireValue) → number_at self.new other ≡ (if same_wire wire other then None else number_at self.old other) }
    {
        match wire.class {
            Class::Q => self.qubits.remove(wire.number),
            Class::C => self.cbits.remove(wire.number),
        }
    }

    /// Gives each operand of the gate this number. After `Memory` the table is of no use.
    pub fn put_gate(&mut self, gate: &Gate, number: u32) -> Result<(), Memory>
        requires { number < u32.MAX }
        ensures { OnOk result ((other : WireValue) → number_at self.new other ≡ (if member other (operands gate.now) then Some number else number_at self.old other)) }
    {
        self.put(gate.a, number)?;
        if let Some(wire) = gate.b {
            self.put(wire, number)?;
        }
        if let Some(wire) = gate.c {
            self.put(wire, number)?;
        }
        Ok(())
    }
}
