//! Products: a part for each bit of the right operand, and their sum.
ghost use Rattle.std.specs.Prelude.{◌≡◌, ◌+◌, ◌-◌, ◌≤◌, ◌++◌, OnOk, IfOk, length, map, take, ℕ};
ghost use Rattle.sc_rev.specs.Cells.{each, and_cell};
ghost use Rattle.sc_rev.specs.Circuits.{part_piece, mul_piece};
ghost use Rattle.sc_rev.specs.Emitting.{Draws};

use crate::bitwise::and_gate;
use crate::draft::Draft;
use sc_base::Memory;
use std::alloc::Global;

impl Draft {
    /// The ANDs of so many of the lowest wires with `f`.
    fn put_ands_with(&mut self, e: &[u32], count: usize, f: u32, s: u32) -> Result<(), Memory>
        requires within { count ≤ length e.now }
        requires fits { s + count ≤ 65536 }
        ensures gates { OnOk result (self.new.gates.items ≡ self.old.gates.items ++ each and_cell (take count e.now) (map (λ (x : ℕ). f) (take count e.now)) s) }
        ensures next { self.new.next ≡ self.old.next }
    {
        for i in 0..count {
            self.push(and_gate(e[i], f, s + i as u32))?;
        }
        Ok(())
    }

    /// The part of a product that the `i`-th bit makes.
    fn put_part(&mut self, alloc: Global, e: &[u32], f: u32, i: usize) -> Result<Vec<u32>, Memory>
        requires fits { self.old.next + length e.now ≤ 65536 }
        ensures { IfOk result (λ r. Draws (part_piece e.now f i self.old.next) self.old self.new r.items) }
    {
        let first = self.next;
        let mut word = Vec::new(alloc);
        self.push_fresh(&mut word, e.len() as u32)?;
        let count = e.len().saturating_sub(i);
        if count > 0 {
            self.put_ands_with(e, count, f, first + i as u32)?;
        }
        Ok(word)
    }

    pub(crate) fn put_product(
        &mut self,
        alloc: Global,
        e: &[u32],
        f: &[u32],
    ) -> Result<Vec<u32>, Memory>
        requires fits { (mul_piece e.now f.now self.old.next).next ≤ 65536 }
        ensures { IfOk result (λ r. Draws (mul_piece e.now f.now self.old.next) self.old self.new r.items) }
    {
        if f.is_empty() {
            return Ok(Vec::new(alloc));
        }
        let mut word = self.put_part(alloc, e, f[0], 0)?;
        for i in 1..f.len() {
            let part = self.put_part(alloc, e, f[i], i)?;
            word = self.put_sum(alloc, word.as_slice(), part.as_slice())?;
        }
        Ok(word)
    }
}
