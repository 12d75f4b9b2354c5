//! A walk over a deck, with one frame a depth.
ghost use Rattle.std.specs.Prelude.{◌≡◌, ◌+◌, ◌-◌, ◌*◌, ◌<◌, ◌≤◌, ◌^◌, [], ◌∷◌, length, map, slice_get, IsSome, IfOk, IfSome, IfNone};
ghost use Rattle.sc_gate.specs.Gates.{operands};
ghost use Rattle.sc_gate.specs.Numbers.{number_of, IsThere, AreThere};
ghost use Rattle.sc_gate.specs.Renaming.{rename_gate};
ghost use Rattle.sc_deck.specs.Decks.{IsDeck};
ghost use Rattle.sc_deck.specs.Events.{gates_in};
ghost use Rattle.sc_deck.specs.Unfolding.{placed};
ghost use Rattle.sc_flat.specs.Frames.{held_wires, lengths, with_wires};
ghost use Rattle.sc_flat.specs.Kept.{AreSizes, WalkKept};
ghost use Rattle.sc_flat.specs.Steps.{Stepped, Leaves};
ghost use Rattle.sc_flat.specs.Walks.{numbers, rest, own_qubits, own_cbits, places_of, passed, turned, with_turn, with_fresh, without_turns, inside, begun};

use crate::frames::{Frame, Frames};
use crate::size::Size;
use crate::step::Step;
use crate::wires::Wires;
use sc_base::{Class, Memory};
use sc_deck::{Deck, Item};
use sc_gate::{Gate, Wire};
use std::alloc::Global;

/// Where an expansion stands: the innermost body that is open, those outside of it, their wires, and the next fresh numbers.
#[derive(Debug, Drop)]
pub(crate) struct Walk {
    pub top: Frame,
    pub below: Frames,
    pub wires: Wires,
    pub next_qubit: u32,
    pub next_cbit: u32,
}

/// The first item of a body, over so many wires of frames outside.
fn front_of(body: u32, qubits: usize, cbits: usize) -> Frame
    ensures { result ≡ record { body = body; item = 0; done = 0; qubits = qubits; cbits = cbits } }
{
    Frame {
        body,
        item: 0,
        done: 0,
        qubits,
        cbits,
    }
}

impl Frame {
    /// At the next item.
    fn passed(self) -> Frame
        requires { self.item + 1 < 2 ^ 64 }
        ensures { result ≡ passed self }
    {
        Frame {
            item: self.item + 1,
            done: 0,
            ..self
        }
    }

    /// With one turn more of so many.
    fn turned(self, turns: u64) -> Frame
        requires item { self.item + 1 < 2 ^ 64 }
        requires left { self.done < turns }
        ensures { result ≡ turned turns self }
    {
        if self.done + 1 == turns {
            self.passed()
        } else {
            Frame {
                done: self.done + 1,
                ..self
            }
        }
    }
}

impl Walk {
    /// A walk with room for so many frames and so many wires.
    pub fn reserve(alloc: Global, bodies: u32, room: u64) -> Result<Walk, Memory>
        ensures frames { IfOk result (λ walk. walk.below.room ≡ bodies) }
        ensures wires { IfOk result (λ walk. walk.wires.room ≡ room) }
    {
        Ok(Walk {
            top: front_of(0, 0, 0),
            below: Frames::reserve(alloc, bodies)?,
            wires: Wires::reserve(alloc, room)?,
            next_qubit: 0,
            next_cbit: 0,
        })
    }

    /// Goes to the front of a body that has no parameters.
    pub fn start(&mut self, body: u32)
        ensures { self.new ≡ begun body self.old }
    {
        self.top = front_of(body, 0, 0);
        self.below.clear();
        self.wires.truncate(0, 0);
        self.next_qubit = 0;
        self.next_cbit = 0;
    }

    /// The next gate of the flat list; None where no gate is left. Takes no memory.
    pub fn next_gate(&mut self, deck: &Deck, sizes: &[Size]) -> Option<Gate>
        requires deck { IsDeck deck.now }
        requires kept { WalkKept deck.now self.old }
        requires sizes { AreSizes deck.now sizes.now }
        ensures kept { WalkKept deck.now self.new }
        ensures room { self.new.wires.room ≡ self.old.wires.room }
        ensures depth { self.new.below.room ≡ self.old.below.room }
        ensures some { IfSome result (λ gate. gates_in (rest deck.now self.old) ≡ gate ∷ gates_in (rest deck.now self.new)) }
        ensures none { IfNone result (gates_in (rest deck.now self.old) ≡ []) }
    {
        'steps: loop {
            match self.step(deck, sizes) {
                Step::Gate(gate) => return Some(gate),
                Step::Moved => {}
                Step::Ended => return None,
            }
        }
    }

    /// Goes over the next event, or over a call whose expansion has no gate.
    fn step(&mut self, deck: &Deck, sizes: &[Size]) -> Step
        requires deck { IsDeck deck.now }
        requires kept { WalkKept deck.now self.old }
        requires sizes { AreSizes deck.now sizes.now }
        ensures kept { WalkKept deck.now self.new }
        ensures room { self.new.wires.room ≡ self.old.wires.room }
        ensures depth { self.new.below.room ≡ self.old.below.room }
        ensures stepped { Stepped deck.now self.old result self.new }
    {
        let items = deck.body_at(self.top.body).unwrap().items();
        if self.top.item >= items.len() {
            return self.leave();
        }
        match &items[self.top.item] {
            Item::Fresh(class, n) => {
                self.make(*class, *n);
                Step::Moved
            }
            Item::Gate(gate) => self.apply(gate, 1),
            Item::Gates(gate, turns) => self.apply(gate, *turns),
            Item::Call(callee, wires) => {
                self.call(*callee, wires.as_slice(), 1, sizes[*callee as usize])
            }
            Item::Calls(callee, wires, turns) => {
                self.call(*callee, wires.as_slice(), *turns, sizes[*callee as usize])
            }
        }
    }

    /// Goes back to the body outside, where there is one.
    fn leave(&mut self) -> Step
        ensures { Leaves self.old result self.new }
    {
        match self.below.pop() {
            Some(frame) => {
                self.wires.truncate(self.top.qubits, self.top.cbits);
                self.top = frame;
                Step::Moved
            }
            None => Step::Ended,
        }
    }

    /// Makes fresh wires.
    fn make(&mut self, class: Class, n: u32)
        requires item { self.old.top.item + 1 < 2 ^ 64 }
        requires room { held_wires self.old.wires + n ≤ self.old.wires.room }
        requires few { number_of class (numbers self.old) + n < 2 ^ 32 }
        ensures { self.new ≡ with_fresh class n self.old }
    {
        match class {
            Class::Q => {
                self.wires.push_run(class, self.next_qubit, n);
                self.next_qubit += n;
            }
            Class::C => {
                self.wires.push_run(class, self.next_cbit, n);
                self.next_cbit += n;
            }
        }
        self.top = self.top.passed();
    }

    /// The wire that a local wire stands for.
    fn placed(&self, wire: Wire) -> Wire
        requires qubits { self.now.top.qubits ≤ length self.now.wires.qubits }
        requires cbits { self.now.top.cbits ≤ length self.now.wires.cbits }
        requires there { IsThere (lengths (own_qubits self.now) (own_cbits self.now)) wire }
        ensures { result ≡ placed (places_of self.now) wire }
    {
        match wire.class {
            Class::Q => Wire::qubit(self.wires.number(Class::Q, self.top.qubits, wire.number)),
            Class::C => Wire::cbit(self.wires.number(Class::C, self.top.cbits, wire.number)),
        }
    }

    /// The gate that a gate over local wires stands for.
    fn placed_gate(&self, gate: &Gate) -> Gate
        requires qubits { self.now.top.qubits ≤ length self.now.wires.qubits }
        requires cbits { self.now.top.cbits ≤ length self.now.wires.cbits }
        requires there { AreThere (lengths (own_qubits self.now) (own_cbits self.now)) (operands gate.now) }
        ensures { result ≡ rename_gate (placed (places_of self.now)) gate.now }
    {
        let b = match gate.b {
            Some(wire) => Some(self.placed(wire)),
            None => None,
        };
        let c = match gate.c {
            Some(wire) => Some(self.placed(wire)),
            None => None,
        };
        Gate {
            kind: gate.kind,
            a: self.placed(gate.a),
            b,
            c,
        }
    }

    /// Applies a gate for one turn of so many.
    fn apply(&mut self, gate: &Gate, turns: u64) -> Step
        requires item { self.old.top.item + 1 < 2 ^ 64 }
        requires left { self.old.top.done < turns }
        requires qubits { self.old.top.qubits ≤ length self.old.wires.qubits }
        requires cbits { self.old.top.cbits ≤ length self.old.wires.cbits }
        requires there { AreThere (lengths (own_qubits self.old) (own_cbits self.old)) (operands gate.now) }
        ensures gate { result ≡ Step.Gate (rename_gate (placed (places_of self.old)) gate.now) }
        ensures turn { self.new ≡ with_turn turns self.old }
    {
        let placed = self.placed_gate(gate);
        self.top = self.top.turned(turns);
        Step::Gate(placed)
    }

    /// Goes into a call, or over all its turns where it has no gate.
    fn call(&mut self, callee: u32, wires: &[Wire], turns: u64, size: Size) -> Step
        requires item { self.old.top.item + 1 < 2 ^ 64 }
        requires left { self.old.top.done < turns }
        requires fresh_qubits { size.gates ≡ 0 → self.old.next_qubit + (turns - self.old.top.done) * size.qubits < 2 ^ 32 }
        requires fresh_cbits { size.gates ≡ 0 → self.old.next_cbit + (turns - self.old.top.done) * size.cbits < 2 ^ 32 }
        requires qubits { self.old.top.qubits ≤ length self.old.wires.qubits }
        requires cbits { self.old.top.cbits ≤ length self.old.wires.cbits }
        requires there { AreThere (lengths (own_qubits self.old) (own_cbits self.old)) wires.now }
        requires room { held_wires self.old.wires + length wires.now ≤ self.old.wires.room }
        requires depth { length self.old.below.frames < self.old.below.room }
        ensures moved { result ≡ Step.Moved }
        ensures empty { size.gates ≡ 0 → self.new ≡ without_turns turns size self.old }
        ensures entered { 0 < size.gates → self.new ≡ inside callee wires.now turns self.old }
    {
        if size.gates == 0 {
            self.skip(turns, size);
        } else {
            self.enter(callee, wires, turns);
        }
        Step::Moved
    }

    /// Goes over the turns that are left of a call of this size.
    fn skip(&mut self, turns: u64, size: Size)
        requires item { self.old.top.item + 1 < 2 ^ 64 }
        requires left { self.old.top.done < turns }
        requires qubits { self.old.next_qubit + (turns - self.old.top.done) * size.qubits < 2 ^ 32 }
        requires cbits { self.old.next_cbit + (turns - self.old.top.done) * size.cbits < 2 ^ 32 }
        ensures { self.new ≡ without_turns turns size self.old }
    {
        let left = turns - self.top.done;
        self.next_qubit += (left * u64::from(size.qubits)) as u32;
        self.next_cbit += (left * u64::from(size.cbits)) as u32;
        self.top = self.top.passed();
    }

    /// Goes into the callee of a call of so many turns.
    fn enter(&mut self, callee: u32, wires: &[Wire], turns: u64)
        requires item { self.old.top.item + 1 < 2 ^ 64 }
        requires left { self.old.top.done < turns }
        requires qubits { self.old.top.qubits ≤ length self.old.wires.qubits }
        requires cbits { self.old.top.cbits ≤ length self.old.wires.cbits }
        requires there { AreThere (lengths (own_qubits self.old) (own_cbits self.old)) wires.now }
        requires room { held_wires self.old.wires + length wires.now ≤ self.old.wires.room }
        requires depth { length self.old.below.frames < self.old.below.room }
        ensures { self.new ≡ inside callee wires.now turns self.old }
    {
        let qubits = self.wires.count(Class::Q);
        let cbits = self.wires.count(Class::C);
        self.pass(wires);
        self.below.push(self.top.turned(turns));
        self.top = front_of(callee, qubits, cbits);
    }

    /// Puts the wires that local wires stand for behind all others.
    fn pass(&mut self, wires: &[Wire])
        requires qubits { self.old.top.qubits ≤ length self.old.wires.qubits }
        requires cbits { self.old.top.cbits ≤ length self.old.wires.cbits }
        requires there { AreThere (lengths (own_qubits self.old) (own_cbits self.old)) wires.now }
        requires room { held_wires self.old.wires + length wires.now ≤ self.old.wires.room }
        ensures { self.new ≡ record self.old { wires = with_wires (map (placed (places_of self.old)) wires.now) self.old.wires } }
    {
        for wire in wires {
            let placed = self.placed(*wire);
            self.wires.push(placed.class, placed.number);
        }
    }
}
