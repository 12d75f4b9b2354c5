//! Items of a body.
ghost use Rattle.std.specs.Prelude.{◌≡◌, IfOk};
ghost use Rattle.sc_deck.specs.Items.{callee_of};

use sc_base::{Class, Memory};
use sc_gate::{Gate, Wire};
use smallvec::SmallVec;
use std::alloc::Global;
use std::marker::Model;

/// The wires of a call, in order of the callee's parameters. Most lists are short and take no memory of their own.
#[derive(Debug, Drop)]
pub struct Operands {
    wires: SmallVec<Wire, 4>,
}

impl Model for Operands {
    ghost use Rattle.std.specs.Prelude.{List};
    ghost use Rattle.sc_gate.specs.declared.gate.Wire.{Wire};

    ghost Value = { List Wire };

    ghost view = { λ o. o.wires.items };
}

impl Operands {
    pub(crate) fn from_slice(alloc: Global, wires: &[Wire]) -> Result<Operands, Memory>
        ensures { IfOk result (λ operands. operands ≡ wires.now) }
    {
        match SmallVec::from_slice(alloc, wires) {
            Ok(wires) => Ok(Operands { wires }),
            Err(_) => Err(Memory),
        }
    }

    /// The wires in order. Takes no memory.
    pub fn as_slice(&self) -> &[Wire]
        ensures { result.now ≡ self.now }
    {
        self.wires.as_slice()
    }
}

/// One step of a body. Wires are local: numbered apart by class, parameters first, then fresh ones in order.
#[derive(Debug, Drop)]
pub enum Item {
    /// So many fresh wires of a class, at least one.
    Fresh(Class, u32),
    /// A gate that is applied once.
    Gate(Gate),
    /// A call of the body with this number.
    Call(u32, Operands),
    /// A gate that is applied so many times, at least twice.
    Gates(Gate, u64),
    /// A call that is made so many times, at least twice. Each call has fresh wires of its own.
    Calls(u32, Operands, u64),
}

impl Item {
    /// The number of the body that the item calls.
    pub(crate) fn callee(&self) -> Option<u32>
        ensures { result ≡ callee_of self.now }
    {
        match self {
            Item::Call(callee, _) | Item::Calls(callee, _, _) => Some(*callee),
            Item::Fresh(..) | Item::Gate(_) | Item::Gates(..) => None,
        }
    }
}
