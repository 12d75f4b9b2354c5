//! Gates so far, and fresh wires.
ghost use Rattle.std.specs.Prelude.{◌≡◌, ◌+◌, ◌≤◌, [], ◌∷◌, ◌++◌, OnOk};
ghost use Rattle.sc_rev.specs.Cells.{wires_from};

use crate::bit_gate::BitGate;
use sc_base::Memory;

/// The gates so far, and the number of the next fresh wire.
#[derive(Drop)]
pub(crate) struct Draft {
    pub(crate) gates: Vec<BitGate>,
    pub(crate) next: u32,
}

impl Draft {
    pub(crate) fn push(&mut self, gate: BitGate) -> Result<(), Memory>
        ensures gates { OnOk result (self.new.gates.items ≡ self.old.gates.items ++ gate ∷ []) }
        ensures next { self.new.next ≡ self.old.next }
    {
        self.gates.push(gate)?;
        Ok(())
    }

    /// Puts `n` fresh wires behind those of the word.
    pub(crate) fn push_fresh(&mut self, word: &mut Vec<u32>, n: u32) -> Result<(), Memory>
        requires { self.old.next + n ≤ 65536 }
        ensures word { OnOk result (word.new.items ≡ word.old.items ++ wires_from self.old.next n) }
        ensures gates { self.new.gates ≡ self.old.gates }
        ensures next { OnOk result (self.new.next ≡ self.old.next + n) }
    {
        let first = self.next;
        for i in 0..n {
            word.push(first + i)?;
        }
        self.next = first + n;
        Ok(())
    }
}
