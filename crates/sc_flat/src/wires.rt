//! Room for the wires of frames, reserved once.
ghost use Rattle.std.specs.Prelude.{◌≡◌, ◌+◌, ◌<◌, ◌≤◌, ◌^◌, [], ◌∷◌, length, take, drop, slice_index, IfOk};
ghost use Rattle.sc_flat.specs.Frames.{held_wires, numbers_of, numbers_from, with_numbers};

use crate::number_list::NumberList;
use sc_base::{Class, Memory};
use sc_gate::Wire;
use std::alloc::Global;
use std::marker::Model;

/// The numbers of the wires of all frames, those of the first frame first, apart by class. Together they are never more than
/// the room that was reserved.
#[derive(Debug, Drop)]
pub(crate) struct Wires {
    qubits: NumberList,
    cbits: NumberList,
    room: u64,
}

impl Model for Wires {
    ghost use Rattle.std.specs.Prelude.{◌≡◌, ◌+◌, ◌≤◌, length};
    ghost use Rattle.sc_flat.specs.Frames.{Held};

    ghost Value = { Held };

    ghost view = { λ w. record { qubits = w.qubits.numbers; cbits = w.cbits.numbers; room = w.room } };

    ghost invariant = { λ w. (length w.qubits.numbers + length w.cbits.numbers ≤ w.room) × (w.qubits.room ≡ w.room) × (w.cbits.room ≡ w.room) };
}

impl Wires {
    /// Room for so many wires, and none held.
    pub fn reserve(alloc: Global, room: u64) -> Result<Wires, Memory>
        ensures { IfOk result (λ wires. wires ≡ record { qubits = []; cbits = []; room = room }) }
    {
        let qubits = NumberList::reserve(alloc, room as usize)?;
        let cbits = NumberList::reserve(alloc, room as usize)?;
        Ok(Wires {
            qubits,
            cbits,
            room,
        })
    }

    /// For how many wires there is room.
    pub fn room(&self) -> u64
        ensures room { result ≡ self.now.room }
        ensures within { held_wires self.now ≤ self.now.room }
    {
        self.room
    }

    /// How many wires of a class are held.
    pub fn count(&self, class: Class) -> usize
        ensures { result ≡ length (numbers_of class self.now) }
    {
        match class {
            Class::Q => self.qubits.len(),
            Class::C => self.cbits.len(),
        }
    }

    /// Puts a wire behind the others of its class.
    pub fn push(&mut self, class: Class, number: u32)
        requires { held_wires self.old < self.old.room }
        ensures { self.new ≡ with_numbers class (number ∷ []) self.old }
    {
        match class {
            Class::Q => self.qubits.push(number),
            Class::C => self.cbits.push(number),
        }
    }

    /// Puts n wires of a class, numbered from `first` on, behind the others of it.
    pub fn push_run(&mut self, class: Class, first: u32, n: u32)
        requires room { held_wires self.old + n ≤ self.old.room }
        requires few { first + n < 2 ^ 32 }
        ensures { self.new ≡ with_numbers class (numbers_from first n) self.old }
    {
        match class {
            Class::Q => self.qubits.push_run(first, n),
            Class::C => self.cbits.push_run(first, n),
        }
    }

    /// Keeps so many qubits and classical bits, the first ones.
    pub fn truncate(&mut self, qubits: usize, cbits: usize)
        ensures { self.new ≡ record self.old { qubits = take qubits self.old.qubits; cbits = take cbits self.old.cbits } }
    {
        self.qubits.truncate(qubits);
        self.cbits.truncate(cbits);
    }

    /// The number of a wire that is held, counted from `start` on.
    pub fn number(&self, class: Class, start: usize, place: u32) -> u32
        requires start { start ≤ length (numbers_of class self.now) }
        requires place { place < length (drop start (numbers_of class self.now)) }
        ensures { result ≡ slice_index (drop start (numbers_of class self.now)) place }
    {
        let _room = self.room;
        match class {
            Class::Q => self.qubits.number(start + place as usize),
            Class::C => self.cbits.number(start + place as usize),
        }
    }
}
