//! Operations that have the same gates for each index.
ghost use Rattle.std.specs.Prelude.{◌≡◌, ◌+◌, ◌≤◌, ◌++◌, ◌⊎◌, OnOk, IfOk, length};
ghost use Rattle.sc_rev.specs.Cells.{each, and_gate as and_of};
ghost use Rattle.sc_rev.specs.Circuits.{each_piece};
ghost use Rattle.sc_rev.specs.Emitting.{cell_gates, Draws};

use crate::bit_gate::BitGate;
use crate::draft::Draft;
use sc_base::Memory;
use std::alloc::Global;

/// The gates of one index.
#[derive(Clone, Copy, Debug, PartialEq, Eq)]
pub(crate) enum Cell {
    Not,
    And,
    Xor,
    Or,
    Same,
}

/// The AND of two wires, which may be one.
pub(crate) fn and_gate(x: u32, y: u32, t: u32) -> BitGate
    ensures { result ≡ and_of x y t }
{
    if x == y {
        BitGate::Cnot(x, t)
    } else {
        BitGate::Toffoli(x, y, t)
    }
}

/// The length of the shorter word.
pub(crate) fn shorter(e: &[u32], f: &[u32]) -> usize
    ensures left { result ≤ length e.now }
    ensures right { result ≤ length f.now }
    ensures one { (length e.now ≤ result) ⊎ (length f.now ≤ result) }
{
    if e.len() <= f.len() { e.len() } else { f.len() }
}

impl Draft {
    fn put_cell(&mut self, kind: Cell, e: u32, f: u32, t: u32) -> Result<(), Memory>
        ensures gates { OnOk result (self.new.gates.items ≡ self.old.gates.items ++ cell_gates kind e f t) }
        ensures next { self.new.next ≡ self.old.next }
    {
        match kind {
            Cell::Not => {
                self.push(BitGate::Cnot(e, t))?;
                self.push(BitGate::X(t))
            }
            Cell::And => self.push(and_gate(e, f, t)),
            Cell::Xor => {
                self.push(BitGate::Cnot(e, t))?;
                self.push(BitGate::Cnot(f, t))
            }
            Cell::Or => {
                self.push(and_gate(e, f, t))?;
                self.push(BitGate::Cnot(e, t))?;
                self.push(BitGate::Cnot(f, t))
            }
            Cell::Same => {
                self.push(BitGate::Cnot(e, t))?;
                self.push(BitGate::Cnot(f, t))?;
                self.push(BitGate::X(t))
            }
        }
    }

    fn put_cells(&mut self, kind: Cell, e: &[u32], f: &[u32], s: u32) -> Result<(), Memory>
        requires fits { s + length e.now ≤ 65536 }
        ensures gates { OnOk result (self.new.gates.items ≡ self.old.gates.items ++ each (cell_gates kind) e.now f.now s) }
        ensures next { self.new.next ≡ self.old.next }
    {
        let count = shorter(e, f);
        for i in 0..count {
            self.put_cell(kind, e[i], f[i], s + i as u32)?;
        }
        Ok(())
    }

    /// The word that is made index by index.
    pub(crate) fn put_each(
        &mut self,
        alloc: Global,
        kind: Cell,
        e: &[u32],
        f: &[u32],
    ) -> Result<Vec<u32>, Memory>
        requires fits { self.old.next + length e.now ≤ 65536 }
        ensures { IfOk result (λ r. Draws (each_piece (cell_gates kind) e.now f.now self.old.next) self.old self.new r.items) }
    {
        let first = self.next;
        let mut word = Vec::new(alloc);
        self.push_fresh(&mut word, e.len() as u32)?;
        self.put_cells(kind, e, f, first)?;
        Ok(word)
    }
}
