//! Whether two words are equal.
ghost use Rattle.std.specs.Prelude.{◌≡◌, ◌+◌, ◌-◌, ◌≤◌, ◌<◌, ◌++◌, OnOk, IfOk, length, drop};
ghost use Rattle.sc_rev.specs.Circuits.{chain_rest, chain_gates, all_piece, equal_piece};
ghost use Rattle.sc_rev.specs.Emitting.{Draws};

use crate::bit_gate::BitGate;
use crate::bitwise::Cell;
use crate::draft::Draft;
use crate::sums::one_wire;
use sc_base::Memory;
use std::alloc::Global;

impl Draft {
    /// Each wire from the second on is the AND of the one before it and of the word's bit there.
    fn put_ands(&mut self, word: &[u32], first: u32) -> Result<(), Memory>
        requires { first + length word.now ≤ 65536 }
        ensures gates { OnOk result (self.new.gates.items ≡ self.old.gates.items ++ chain_rest (drop 1 word.now) first) }
        ensures next { self.new.next ≡ self.old.next }
    {
        for i in 1..word.len() {
            let wire = first + i as u32;
            self.push(BitGate::Toffoli(wire - 1, word[i], wire))?;
        }
        Ok(())
    }

    fn put_chain(&mut self, word: &[u32], first: u32) -> Result<(), Memory>
        requires { first + length word.now ≤ 65536 }
        ensures gates { OnOk result (self.new.gates.items ≡ self.old.gates.items ++ chain_gates word.now first) }
        ensures next { self.new.next ≡ self.old.next }
    {
        if let Some(bit) = word.first() {
            self.push(BitGate::Cnot(*bit, first))?;
        }
        self.put_ands(word, first)
    }

    /// 1 where all bits of the word are.
    fn put_all(&mut self, alloc: Global, word: &[u32]) -> Result<Vec<u32>, Memory>
        requires fits { (all_piece word.now self.old.next).next ≤ 65536 }
        ensures { IfOk result (λ r. Draws (all_piece word.now self.old.next) self.old self.new r.items) }
    {
        let first = self.next;
        self.next = first + word.len() as u32;
        self.put_chain(word, first)?;
        one_wire(alloc, self.next.saturating_sub(1))
    }

    /// 1 where the words are equal.
    pub(crate) fn put_equal(
        &mut self,
        alloc: Global,
        e: &[u32],
        f: &[u32],
    ) -> Result<Vec<u32>, Memory>
        requires fits { (equal_piece e.now f.now self.old.next).next ≤ 65536 }
        ensures { IfOk result (λ r. Draws (equal_piece e.now f.now self.old.next) self.old self.new r.items) }
    {
        let same = self.put_each(alloc, Cell::Same, e, f)?;
        self.put_all(alloc, same.as_slice())
    }
}
