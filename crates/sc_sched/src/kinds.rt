//! Numbers for the kinds of gates.
ghost use Rattle.std.specs.Prelude.{◌≡◌, ◌<◌, ◌≤◌, ◌/◌, ◌++◌, [], ◌∷◌, None, Some, if◌then◌else◌, length, IfOk, OnOk, MatchOption};
ghost use Rattle.sc_gate.specs.declared.gate.Kind.{Kind as KindValue};
ghost use Rattle.sc_gate.specs.Gates.{name_of, place_of, qubits_of};
ghost use Rattle.sc_gate.specs.SameGates.{value_of, same_kind};
ghost use Rattle.sc_sched.specs.Numbering.{number_of, AreNumbered};

use sc_base::Memory;
use sc_gate::{Gate, Kind, arity};
use std::alloc::Global;
use std::collections::BTreeMap;

/// A number for each of some kinds.
#[derive(Drop)]
struct KindTable {
    /// By the place of the name and the value, in an ordered map, so that no choice of angles makes it slow.
    numbers: BTreeMap<(usize, i64), u32>,
}

/// The angle of a rotation, the start value of a preparation, and 0 for every other kind.
fn value(kind: &Kind) -> i64
    ensures { result ≡ value_of kind.now }
{
    match *kind {
        Kind::Rx(angle) | Kind::Ry(angle) | Kind::Rz(angle) => angle.0,
        Kind::PrepX(true) | Kind::PrepZ(true) => 1,
        _ => 0,
    }
}

/// The place of the name, and the value.
fn key(kind: &Kind) -> (usize, i64)
    ensures name { result.0 ≡ place_of (name_of kind.now) }
    ensures value { result.1 ≡ value_of kind.now }
{
    (kind.name() as usize, value(kind))
}

impl KindTable {
    fn new(alloc: Global) -> KindTable
        ensures { (kind : KindValue) → number_of result kind ≡ None }
    {
        KindTable {
            numbers: BTreeMap::new(alloc),
        }
    }

    /// Gives the kind this number, and answers the one that it had. After `Memory` the table is of no use.
    fn put(&mut self, kind: &Kind, number: u32) -> Result<Option<u32>, Memory>
        ensures old { IfOk result (λ known. known ≡ number_of self.old kind.now) }
        ensures table { OnOk result ((other : KindValue) → number_of self.new other ≡ (if same_kind kind.now other then Some number else number_of self.old other)) }
    {
        match self.numbers.insert(key(kind), number) {
            Ok(known) => Ok(known),
            Err(_) => Err(Memory),
        }
    }
}

/// The number of the kind of each gate, and how many gates of each kind a region of d qubits takes.
#[derive(Drop)]
pub(crate) struct Kinds {
    pub kind: Vec<u32>,
    pub room: Vec<u32>,
}

/// The number of a kind; one that has none gets the next. A new kind is looked for once: the next number is put in, and
/// the old one put back where there is one.
fn number(table: &mut KindTable, room: &mut Vec<u32>, kind: &Kind, d: u32) -> Result<u32, Memory>
    requires { length room.old.items ≤ 4194304 }
    ensures known { IfOk result (λ n. MatchOption (number_of table.old kind.now) (n ≡ length room.old.items) (λ m. n ≡ m)) }
    ensures table { IfOk result (λ n. (other : KindValue) → number_of table.new other ≡ (if same_kind kind.now other then Some n else number_of table.old other)) }
    ensures room { OnOk result (MatchOption (number_of table.old kind.now) (room.new.items ≡ room.old.items ++ d / qubits_of (name_of kind.now) ∷ []) (λ m. room.new.items ≡ room.old.items)) }
{
    let next = room.len() as u32;
    let Some(known) = table.put(kind, next)? else {
        room.push(d / arity(kind))?;
        return Ok(next);
    };
    table.put(kind, known)?;
    Ok(known)
}

/// Numbers the kinds in the order of their first gates.
pub(crate) fn number_kinds(alloc: Global, gates: &[Gate], d: u32) -> Result<Kinds, Memory>
    requires { length gates.now ≤ 4194304 }
    ensures { IfOk result (λ kinds. AreNumbered gates.now (length gates.now) d kinds.kind.items kinds.room.items) }
{
    let mut table = KindTable::new(alloc);
    let mut room = Vec::new(alloc);
    let Ok(mut kind) = Vec::with_capacity(alloc, gates.len()) else {
        return Err(Memory);
    };
    for gate in gates {
        let Ok(()) = kind.push(number(&mut table, &mut room, &gate.kind, d)?) else {
            return Err(Memory);
        };
    }
    Ok(Kinds { kind, room })
}
