//! Literals, and choices by a condition.
ghost use Rattle.std.specs.Prelude.{◌≡◌, ◌+◌, ◌≤◌, ◌++◌, OnOk, IfOk, length, slice_index};
ghost use Rattle.sc_rev.specs.Circuits.{literal_gates, literal_piece, pick_gates, pick_piece};
ghost use Rattle.sc_rev.specs.Emitting.{Draws, bit_gates, one_pick};

use crate::bit_gate::BitGate;
use crate::bitwise::shorter;
use crate::draft::Draft;
use sc_base::Memory;
use std::alloc::Global;

/// The lowest wire of a word; 0 where it has none.
fn lowest(word: &[u32]) -> u32
    ensures { result ≡ slice_index word.now 0 }
{
    match word.first() {
        Some(wire) => *wire,
        None => 0,
    }
}

impl Draft {
    /// X where the lowest bit of the value is 1.
    fn put_bit(&mut self, value: u64, t: u32) -> Result<(), Memory>
        ensures gates { OnOk result (self.new.gates.items ≡ self.old.gates.items ++ bit_gates value t) }
        ensures next { self.new.next ≡ self.old.next }
    {
        if value % 2 == 1 {
            self.push(BitGate::X(t))?;
        }
        Ok(())
    }

    fn put_bits(&mut self, value: u64, width: u32, s: u32) -> Result<(), Memory>
        requires { s + width ≤ 65536 }
        ensures gates { OnOk result (self.new.gates.items ≡ self.old.gates.items ++ literal_gates width value s) }
        ensures next { self.new.next ≡ self.old.next }
    {
        let mut rest = value;
        for i in 0..width {
            self.put_bit(rest, s + i)?;
            rest /= 2;
        }
        Ok(())
    }

    pub(crate) fn put_literal(
        &mut self,
        alloc: Global,
        value: u64,
        width: u32,
    ) -> Result<Vec<u32>, Memory>
        requires fits { self.old.next + width ≤ 65536 }
        ensures { IfOk result (λ r. Draws (literal_piece width value self.old.next) self.old self.new r.items) }
    {
        let first = self.next;
        let mut word = Vec::new(alloc);
        self.push_fresh(&mut word, width)?;
        self.put_bits(value, width, first)?;
        Ok(word)
    }

    fn put_one_pick(&mut self, test: u32, f: u32, g: u32, d: u32, s: u32) -> Result<(), Memory>
        ensures gates { OnOk result (self.new.gates.items ≡ self.old.gates.items ++ one_pick test f g d s) }
        ensures next { self.new.next ≡ self.old.next }
    {
        self.push(BitGate::Cnot(f, d))?;
        self.push(BitGate::Cnot(g, d))?;
        self.push(BitGate::Cnot(g, s))?;
        self.push(BitGate::Toffoli(test, d, s))
    }

    fn put_picks(&mut self, test: u32, f: &[u32], g: &[u32], d: u32, s: u32) -> Result<(), Memory>
        requires differences { d + length f.now ≤ 65536 }
        requires fits { s + length f.now ≤ 65536 }
        ensures gates { OnOk result (self.new.gates.items ≡ self.old.gates.items ++ pick_gates test f.now g.now d s) }
        ensures next { self.new.next ≡ self.old.next }
    {
        let count = shorter(f, g);
        for i in 0..count {
            self.put_one_pick(test, f[i], g[i], d + i as u32, s + i as u32)?;
        }
        Ok(())
    }

    /// `f` where the lowest bit of the condition is 1, and else `g`.
    pub(crate) fn put_pick(
        &mut self,
        alloc: Global,
        test: &[u32],
        f: &[u32],
        g: &[u32],
    ) -> Result<Vec<u32>, Memory>
        requires fits { self.old.next + length f.now + length f.now ≤ 65536 }
        ensures { IfOk result (λ r. Draws (pick_piece (slice_index test.now 0) f.now g.now self.old.next) self.old self.new r.items) }
    {
        let differences = self.next;
        let first = differences + f.len() as u32;
        self.next = first;
        let mut word = Vec::new(alloc);
        self.push_fresh(&mut word, f.len() as u32)?;
        self.put_picks(lowest(test), f, g, differences, first)?;
        Ok(word)
    }
}
