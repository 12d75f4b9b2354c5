//! The gates that stay, by position and by wire.
ghost use Rattle.std.specs.Prelude.{◌≡◌, ◌↔◌, IsTrue, ◌+◌, ◌<◌, ◌≤◌, if◌then◌else◌, ℕ, suc, None, Some, IsSome, OnOk, IfOk, IfSome, IfNone, List, [], ◌∷◌, ◌++◌, length, take, slice_get};
ghost use Rattle.sc_gate.specs.declared.gate.Wire.{Wire as WireValue};
ghost use Rattle.sc_gate.specs.Gates.{operands, AreWellFormed};
ghost use Rattle.sc_gate.specs.Wires.{same_wire, member};
ghost use Rattle.sc_gate.specs.WireTables.{number_at, numbers_by};
ghost use Rattle.sc_gate.specs.declared.wire_table.OperandNumbers.{OperandNumbers as Numbers};
ghost use Rattle.sc_cancel.specs.Cancelling.{marks_after};
ghost use Rattle.sc_cancel.specs.Keeping.{links_at, relinked, is_there, AreAll, AreSmall, IsKept, IsWith, IsWithout, places};

use sc_base::{List as Items, Memory};
use sc_gate::{Gate, OperandNumbers, Wire, WireTable, cancels};
use std::alloc::Global;

/// Gives the wire this number, or none.
fn set_number(table: &mut WireTable, wire: Wire, number: Option<u32>) -> Result<(), Memory>
    requires { IfSome number (λ n. n < u32.MAX) }
    ensures { OnOk result ((other : WireValue) → number_at table.new other ≡ (if same_wire wire other then number else number_at table.old other)) }
{
    match number {
        Some(number) => table.put(wire, number)?,
        None => table.remove(wire),
    }
    Ok(())
}

/// Whether the operand is not there, or its number is this one.
fn agrees(wire: Option<Wire>, number: Option<u32>, last: u32) -> bool
    ensures { IsTrue result ↔ is_there wire number last }
{
    wire.is_none() || number == Some(last)
}

/// The number that all operands of the gate have.
fn common(links: &OperandNumbers, gate: &Gate) -> Option<u32>
    ensures some { IfSome result (λ q. AreAll links.now gate.now q) }
    ensures none { IfNone result ((q : ℕ) → AreAll links.now gate.now q → ⊥) }
{
    let last = links.a?;
    if agrees(gate.b, links.b, last) && agrees(gate.c, links.c, last) {
        Some(last)
    } else {
        None
    }
}

/// Gives each operand of the gate its number of these.
fn restore(links: &OperandNumbers, gate: &Gate, table: &mut WireTable) -> Result<(), Memory>
    requires { AreSmall links.now }
    ensures { OnOk result ((other : WireValue) → number_at table.new other ≡ relinked links.now gate.now other (number_at table.old other)) }
{
    if let Some(wire) = gate.c {
        set_number(table, wire, links.c)?;
    }
    if let Some(wire) = gate.b {
        set_number(table, wire, links.b)?;
    }
    set_number(table, gate.a, links.a)
}

/// The gates that stay: the last one on each wire, and for each the positions of the last ones before it on its wires.
#[derive(Drop)]
pub struct Kept {
    pub table: WireTable,
    pub links: Vec<Option<OperandNumbers>>,
}

impl Kept {
    /// No gate so far.
    pub fn new(alloc: Global, gates: &[Gate]) -> Result<Kept, Memory>
        requires { length gates.now ≤ 4194304 }
        ensures { IfOk result (λ kept. IsKept kept []) }
    {
        let table = WireTable::new(alloc, gates)?;
        let links = Vec::with_capacity(alloc, gates.len())?;
        Ok(Kept { table, links })
    }

    /// One more of the gates: it stays, or it takes out the one that it undoes.
    pub fn add(&mut self, gates: &[Gate], gate: &Gate) -> Result<(), Memory>
        requires size { length gates.now ≤ 4194304 }
        requires well_formed { AreWellFormed gates.now }
        requires next { slice_get gates.now (length self.old.links.items) ≡ Some gate.now }
        requires kept { IsKept self.old (marks_after (take (length self.old.links.items) gates.now)) }
        ensures { OnOk result (IsKept self.new (marks_after (take (length self.old.links.items + 1) gates.now))) }
    {
        let links = self.table.operand_numbers(gate);
        match common(&links, gate) {
            Some(last) if cancels(&gates[last as usize], gate) => self.take_out(
                &gates[last as usize],
                last,
            ),
            _ => self.keep(gate, links),
        }
    }

    /// The gate stays.
    fn keep(&mut self, gate: &Gate, links: OperandNumbers) -> Result<(), Memory>
        requires { length self.old.links.items < u32.MAX }
        ensures { OnOk result (IsWith self.old gate.now links self.new) }
    {
        self.table.put_gate(gate, self.links.len() as u32)?;
        self.links.push(Some(links))?;
        Ok(())
    }

    /// Neither the next gate stays nor this one at this position, which has the same operands.
    fn take_out(&mut self, gate: &Gate, last: u32) -> Result<(), Memory>
        requires there { IsSome (links_at self.old.links.items last) }
        requires small { IfSome (links_at self.old.links.items last) AreSmall }
        ensures { OnOk result ((links : Numbers) → links_at self.old.links.items last ≡ Some links → IsWithout self.old gate.now last links self.new) }
    {
        let links = self.links[last as usize].take().unwrap();
        restore(&links, gate, &mut self.table)?;
        self.links.push(None)?;
        Ok(())
    }

    /// The positions of the gates that stay, ascending.
    pub fn positions(&self, alloc: Global) -> Result<Items<u32>, Memory>
        requires { length self.now.links.items ≤ 4194304 }
        ensures { IfOk result (λ positions. positions ≡ places 0 self.now.links.items) }
    {
        let mut positions = Items::new(alloc);
        for (position, links) in self.links.iter().enumerate() {
            if links.is_some() {
                positions.push(position as u32)?;
            }
        }
        Ok(positions)
    }
}
