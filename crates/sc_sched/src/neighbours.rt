//! The gates next to each gate on its wires.
ghost use Rattle.std.specs.Prelude.{◌≡◌, ℕ, true, ◌<◌, ◌≤◌, length, IfOk, IfSome};
ghost use Rattle.sc_sched.specs.Neighbours.{holds, position_of, unmarked, AreLast, AreNext};
ghost use Rattle.sc_gate.specs.WireTables.{number_at};

use sc_base::Memory;
use sc_gate::{Gate, OperandNumbers, WireTable};
use std::alloc::Global;

/// The neighbours of a gate in 12 bytes: one more than each position, and 0 where there is none.
#[derive(Clone, Copy)]
pub struct Marks {
    pub a: u32,
    pub b: u32,
    pub c: u32,
}

/// One more than the position, and 0 for none.
fn mark(position: Option<u32>) -> u32
    requires { IfSome position (λ x. x < u32.MAX) }
    ensures { position_of result ≡ position }
{
    match position {
        Some(x) => x + 1,
        None => 0,
    }
}

impl Marks {
    const NONE: Marks = Marks { a: 0, b: 0, c: 0 };

    fn pack(near: OperandNumbers) -> Marks
        requires { (x : ℕ) → holds near x ≡ true → x < u32.MAX }
        ensures { unmarked result ≡ near }
    {
        Marks {
            a: mark(near.a),
            b: mark(near.b),
            c: mark(near.c),
        }
    }

    pub fn unpack(self) -> OperandNumbers
        ensures { result ≡ unmarked self }
    {
        OperandNumbers {
            a: self.a.checked_sub(1),
            b: self.b.checked_sub(1),
            c: self.c.checked_sub(1),
        }
    }
}

/// For each gate the last gates before it on its wires.
pub fn last_gates(alloc: Global, gates: &[Gate]) -> Result<Vec<Marks>, Memory>
    requires { length gates.now ≤ 4194304 }
    ensures { IfOk result (λ last. AreLast gates.now last.items) }
{
    let mut table = WireTable::new(alloc, gates)?;
    let mut last = Vec::with_capacity(alloc, gates.len())?;
    for (x, gate) in gates.iter().enumerate() {
        last.push(Marks::pack(table.operand_numbers(gate)))?;
        table.put_gate(gate, x as u32)?;
    }
    Ok(last)
}

/// For each gate the first gates after it on its wires.
pub fn next_gates(alloc: Global, gates: &[Gate]) -> Result<Vec<Marks>, Memory>
    requires { length gates.now ≤ 4194304 }
    ensures { IfOk result (λ next. AreNext gates.now next.items) }
{
    let mut table = WireTable::new(alloc, gates)?;
    let mut next = vec![in alloc; Marks::NONE; gates.len()]?;
    let mut x = gates.len();
    while x > 0 {
        x -= 1;
        next[x] = Marks::pack(table.operand_numbers(&gates[x]));
        table.put_gate(&gates[x], x as u32)?;
    }
    Ok(next)
}
