//! Sums, differences and order.
ghost use Rattle.std.specs.Prelude.{◌≡◌, ◌+◌, ◌-◌, ◌≤◌, [], ◌∷◌, ◌++◌, OnOk, IfOk, length};
ghost use Rattle.sc_rev.specs.Cells.{rows};
ghost use Rattle.sc_rev.specs.Circuits.{adder_piece, add_piece, sub_piece, less_piece};
ghost use Rattle.sc_rev.specs.Emitting.{Draws, row_gates, after_row};

use crate::bit_gate::BitGate;
use crate::bitwise::{Cell, and_gate, shorter};
use crate::draft::Draft;
use sc_base::Memory;
use std::alloc::Global;

/// Where the adder stands: the carry that comes in, the next carry's wire, and how many carries are to be made.
#[derive(Clone, Copy, Debug, PartialEq, Eq)]
pub(crate) struct Carry {
    pub(crate) from: Option<u32>,
    pub(crate) wire: u32,
    pub(crate) left: u32,
}

impl Carry {
    fn after(self) -> Carry
        requires { self.wire + self.left ≤ 65536 }
        ensures { result ≡ after_row self }
    {
        if self.left > 0 {
            Carry {
                from: Some(self.wire),
                wire: self.wire + 1,
                left: self.left - 1,
            }
        } else {
            self
        }
    }
}

/// A word of one wire.
pub(crate) fn one_wire(alloc: Global, wire: u32) -> Result<Vec<u32>, Memory>
    ensures { IfOk result (λ r. r.items ≡ wire ∷ []) }
{
    let mut word = Vec::new(alloc);
    word.push(wire)?;
    Ok(word)
}

impl Draft {
    fn put_row(&mut self, e: u32, f: u32, t: u32, carry: Carry) -> Result<Carry, Memory>
        requires { carry.wire + carry.left ≤ 65536 }
        ensures gates { OnOk result (self.new.gates.items ≡ self.old.gates.items ++ row_gates e f t carry.wire carry.from carry.left) }
        ensures next { self.new.next ≡ self.old.next }
        ensures carry { IfOk result (λ r. r ≡ after_row carry) }
    {
        self.push(BitGate::Cnot(e, t))?;
        self.push(BitGate::Cnot(f, t))?;
        if carry.left > 0 {
            self.push(and_gate(e, f, carry.wire))?;
            if let Some(b) = carry.from {
                self.push(BitGate::Toffoli(b, t, carry.wire))?;
            }
        }
        if let Some(b) = carry.from {
            self.push(BitGate::Cnot(b, t))?;
        }
        Ok(carry.after())
    }

    fn put_rows(&mut self, e: &[u32], f: &[u32], s: u32, carry: Carry) -> Result<(), Memory>
        requires fits { s + length e.now ≤ 65536 }
        requires carries { carry.wire + carry.left ≤ 65536 }
        ensures gates { OnOk result (self.new.gates.items ≡ self.old.gates.items ++ rows e.now f.now s carry.wire carry.from carry.left) }
        ensures next { self.new.next ≡ self.old.next }
    {
        let mut now = carry;
        let count = shorter(e, f);
        for i in 0..count {
            now = self.put_row(e[i], f[i], s + i as u32, now)?;
        }
        Ok(())
    }

    /// The sum of two words, with so many carries.
    fn put_adder(
        &mut self,
        alloc: Global,
        e: &[u32],
        f: &[u32],
        carries: u32,
    ) -> Result<Vec<u32>, Memory>
        requires fits { self.old.next + length e.now + carries ≤ 65536 }
        ensures { IfOk result (λ r. Draws (adder_piece e.now f.now self.old.next carries) self.old self.new r.items) }
    {
        let first = self.next;
        let mut word = Vec::new(alloc);
        self.push_fresh(&mut word, e.len() as u32)?;
        let wire = self.next;
        self.next = wire + carries;
        let carry = Carry {
            from: None,
            wire,
            left: carries,
        };
        self.put_rows(e, f, first, carry)?;
        Ok(word)
    }

    /// The sum of two words, without the carry that goes out at the top.
    pub(crate) fn put_sum(
        &mut self,
        alloc: Global,
        e: &[u32],
        f: &[u32],
    ) -> Result<Vec<u32>, Memory>
        requires fits { (add_piece e.now f.now self.old.next).next ≤ 65536 }
        ensures { IfOk result (λ r. Draws (add_piece e.now f.now self.old.next) self.old self.new r.items) }
    {
        let carries = (e.len() as u32).saturating_sub(1);
        self.put_adder(alloc, e, f, carries)
    }

    /// `~(~e + f)`.
    pub(crate) fn put_difference(
        &mut self,
        alloc: Global,
        e: &[u32],
        f: &[u32],
    ) -> Result<Vec<u32>, Memory>
        requires fits { (sub_piece e.now f.now self.old.next).next ≤ 65536 }
        ensures { IfOk result (λ r. Draws (sub_piece e.now f.now self.old.next) self.old self.new r.items) }
    {
        let inverse = self.put_each(alloc, Cell::Not, e, e)?;
        let sum = self.put_sum(alloc, inverse.as_slice(), f)?;
        self.put_each(alloc, Cell::Not, sum.as_slice(), sum.as_slice())
    }

    /// The last carry of `~e + f`.
    pub(crate) fn put_less(
        &mut self,
        alloc: Global,
        e: &[u32],
        f: &[u32],
    ) -> Result<Vec<u32>, Memory>
        requires fits { (less_piece e.now f.now self.old.next).next ≤ 65536 }
        ensures { IfOk result (λ r. Draws (less_piece e.now f.now self.old.next) self.old self.new r.items) }
    {
        let inverse = self.put_each(alloc, Cell::Not, e, e)?;
        let _sum = self.put_adder(alloc, inverse.as_slice(), f, e.len() as u32)?;
        one_wire(alloc, self.next.saturating_sub(1))
    }
}
