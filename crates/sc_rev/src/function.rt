//! The body of a classical function.
ghost use Rattle.std.specs.Prelude.{◌≡◌, ◌+◌, ◌≤◌, ◌++◌, OnOk, IfOk, length, map, sum, take, reverse};
ghost use Rattle.std.specs.List.{AllByRecursion};
ghost use Rattle.sc_deck.specs.Bodies.{wires_of as numbers_in};
ghost use Rattle.sc_deck.specs.Items.{GateFits};
ghost use Rattle.sc_word.specs.Fits.{IsTypedFn};
ghost use Rattle.sc_word.specs.Pure.{pure_typed_expr};
ghost use Rattle.sc_word.specs.Scratch.{fn_wires};
ghost use Rattle.sc_rev.specs.BitBodies.{gate_items, scratch_body, reversible_body};
ghost use Rattle.sc_rev.specs.Cells.{copies, gate_of};
ghost use Rattle.sc_rev.specs.Functions.{circuit_all, words_from, operands_of, steps_of};
ghost use Rattle.sc_rev.specs.Emitting.{Draws, wires_of};
ghost use Rattle.sc_rev.specs.Reversible.{IsReversible};

use crate::bit_gate::BitGate;
use crate::draft::Draft;
use sc_base::{Class, Memory};
use sc_deck::Body;
use sc_word::{TypedExpr, TypedFn};
use std::alloc::Global;

impl Draft {
    /// The wires of the parameters, one word after the other.
    fn put_words(&mut self, alloc: Global, widths: &[u32]) -> Result<Vec<Vec<u32>>, Memory>
        requires { self.old.next + sum widths.now ≤ 65536 }
        ensures words { IfOk result (λ r. wires_of r.items ≡ words_from self.old.next widths.now) }
        ensures gates { self.new.gates ≡ self.old.gates }
        ensures next { OnOk result (self.new.next ≡ self.old.next + sum widths.now) }
    {
        let mut words = Vec::new(alloc);
        for width in widths {
            let mut word = Vec::new(alloc);
            self.push_fresh(&mut word, *width)?;
            words.push(word)?;
        }
        Ok(words)
    }

    /// The bindings in order, and then the returned expression.
    fn put_bindings(
        &mut self,
        alloc: Global,
        words: Vec<Vec<u32>>,
        binds: &[TypedExpr],
        returned: &TypedExpr,
    ) -> Result<Vec<u32>, Memory>
        requires room { (circuit_all (wires_of words.items) self.old.next (map pure_typed_expr binds.now) (pure_typed_expr returned.now)).next ≤ 65536 }
        ensures { IfOk result (λ r. Draws (circuit_all (wires_of words.items) self.old.next (map pure_typed_expr binds.now) (pure_typed_expr returned.now)) self.old self.new r.items) }
    {
        let mut known = words;
        for bind in binds {
            let word = self.emit(alloc, known.as_slice(), bind)?;
            known.push(word)?;
        }
        self.emit(alloc, known.as_slice(), returned)
    }

    /// The copies of a word onto the wires from `first` on.
    fn put_copies(&mut self, word: &[u32], first: u32) -> Result<(), Memory>
        requires { first + length word.now ≤ 65536 }
        ensures gates { OnOk result (self.new.gates.items ≡ self.old.gates.items ++ copies word.now first) }
        ensures next { self.new.next ≡ self.old.next }
    {
        for i in 0..word.len() {
            self.push(BitGate::Cnot(word[i], first + i as u32))?;
        }
        Ok(())
    }

    /// The first gates once more, the last of them first.
    fn put_back(&mut self, count: usize) -> Result<(), Memory>
        requires { count ≤ length self.old.gates.items }
        ensures gates { OnOk result (self.new.gates.items ≡ self.old.gates.items ++ reverse (take count self.old.gates.items)) }
        ensures next { self.new.next ≡ self.old.next }
    {
        for i in 0..count {
            let gate = self.gates[count - 1 - i];
            self.push(gate)?;
        }
        Ok(())
    }
}

/// Compute, copy, uncompute.
fn steps(alloc: Global, f: &TypedFn) -> Result<Vec<BitGate>, Memory>
    requires { fn_wires f.now ≤ 65536 }
    ensures { IfOk result (λ gates. gates.items ≡ steps_of f.now) }
{
    let returned = f.returned();
    let mut draft = Draft {
        gates: Vec::new(alloc),
        next: 0,
    };
    let words = draft.put_words(alloc, f.widths())?;
    let output = draft.next;
    draft.next = output + returned.width;
    let word = draft.put_bindings(alloc, words, f.bindings(), returned)?;
    let count = draft.gates.len();
    draft.put_copies(word.as_slice(), output)?;
    draft.put_back(count)?;
    let Draft { gates, next: _ } = draft;
    Ok(gates)
}

/// How many qubits the words and the output have.
fn operands(f: &TypedFn) -> u32
    requires { fn_wires f.now ≤ 65536 }
    ensures count { result ≡ operands_of f.now }
    ensures typed { IsTypedFn f.now }
{
    let mut count = f.returned().width;
    for width in f.widths() {
        count += *width;
    }
    count
}

/// A body with so many parameter qubits, and one item for the scratch where there is any.
fn with_scratch(alloc: Global, operands: u32, scratch: u32) -> Result<Body, Memory>
    requires { operands + scratch ≤ 65536 }
    ensures { IfOk result (λ body. body ≡ scratch_body operands scratch) }
{
    let mut body = Body::new(alloc, operands, 0);
    if scratch > 0 {
        body.push_fresh(Class::Q, scratch)?;
    }
    Ok(body)
}

fn push_gates(body: &mut Body, gates: &[BitGate]) -> Result<(), Memory>
    requires { AllByRecursion (λ g. GateFits (numbers_in body.old) (gate_of g)) gates.now }
    ensures { OnOk result (body.new ≡ record body.old { items = body.old.items ++ gate_items (map gate_of gates.now) }) }
{
    for gate in gates {
        body.push_gate(gate.gate())?;
    }
    Ok(())
}

/// The body of a classical function, which needs at most 65,536 wires. Its parameters are the qubits of the words in order, bit 0
/// first, and then of the output; its items are one for all scratch, where there is any, and then the gates, of which each is an X, a
/// CNOT or a Toffoli. For every value of the words and of the output, and zero scratch, the gates xor the function's value into the
/// output, leave the words, and return the scratch to zero. `Memory` is the only refusal.
pub fn reversible(alloc: Global, f: &TypedFn) -> Result<Body, Memory>
    requires { fn_wires f.now ≤ 65536 }
    ensures { IfOk result (λ body. (body ≡ reversible_body f.now) × IsReversible f.now) }
{
    let gates = steps(alloc, f)?;
    let operands = operands(f);
    let mut body = with_scratch(alloc, operands, f.scratch() as u32)?;
    push_gates(&mut body, gates.as_slice())?;
    Ok(body)
}
