//! The ranks of gates.
ghost use Rattle.std.specs.Prelude.{◌≡◌, ◌<◌, ◌≤◌, ℕ, length, map, slice_index, option_to_list, IfOk};
ghost use Rattle.sc_gate.specs.Chains.{largest};
ghost use Rattle.sc_gate.specs.Gates.{operands};
ghost use Rattle.sc_gate.specs.Heights.{height_at};
ghost use Rattle.sc_sched.specs.Ranks.{timed_gates, end_at, IsRank};
ghost use Rattle.sc_sched.specs.WireTables.{value_on};
ghost use Rattle.sc_sched.specs.Laid.{rank_at};

use crate::Rank;
use sc_base::Memory;
use sc_gate::{Gate, Times, Wire, WireTable};
use std::alloc::Global;

/// The value at the number of the wire; 0 where it has none.
fn value_on(wire: Wire, numbers: &WireTable, values: &[u64]) -> u64
    ensures { result ≡ value_on numbers.now values.now wire }
{
    match numbers.get(wire) {
        Some(x) => values.get(x as usize).copied().unwrap_or(0),
        None => 0,
    }
}

fn value_on_any(wire: Option<Wire>, numbers: &WireTable, values: &[u64]) -> u64
    ensures { result ≡ largest (map (value_on numbers.now values.now) (option_to_list wire)) }
{
    match wire {
        Some(wire) => value_on(wire, numbers, values),
        None => 0,
    }
}

/// The greatest value on an operand of the gate.
fn greatest_on(gate: &Gate, numbers: &WireTable, values: &[u64]) -> u64
    ensures { result ≡ largest (map (value_on numbers.now values.now) (operands gate.now)) }
{
    let first = value_on(gate.a, numbers, values);
    let second = value_on_any(gate.b, numbers, values);
    let third = value_on_any(gate.c, numbers, values);
    first.max(second).max(third)
}

/// The weight of the heaviest chain that starts at each gate, from the last gate on.
fn heights(alloc: Global, gates: &[Gate], times: &Times) -> Result<Vec<u64>, Memory>
    requires { length gates.now ≤ 4194304 }
    ensures many { IfOk result (λ heights. length heights.items ≡ length gates.now) }
    ensures heights { IfOk result (λ heights. (x : ℕ) → x < length gates.now → slice_index heights.items x ≡ height_at (timed_gates times.now gates.now) x) }
{
    let mut next = WireTable::new(alloc, gates)?;
    let Ok(mut heights) = vec![in alloc; 0u64; gates.len()] else {
        return Err(Memory);
    };
    let mut x = gates.len();
    while x > 0 {
        x -= 1;
        let duration = u64::from(times.of(&gates[x].kind));
        heights[x] = duration + greatest_on(&gates[x], &next, &heights);
        next.put_gate(&gates[x], x as u32)?;
    }
    Ok(heights)
}

/// The weight of the heaviest chain that ends at each gate.
fn ends(alloc: Global, gates: &[Gate], times: &Times) -> Result<Vec<u64>, Memory>
    requires { length gates.now ≤ 4194304 }
    ensures many { IfOk result (λ ends. length ends.items ≡ length gates.now) }
    ensures ends { IfOk result (λ ends. (x : ℕ) → x < length gates.now → slice_index ends.items x ≡ end_at (timed_gates times.now gates.now) x) }
{
    let mut last = WireTable::new(alloc, gates)?;
    let Ok(mut ends) = Vec::with_capacity(alloc, gates.len()) else {
        return Err(Memory);
    };
    for (x, gate) in gates.iter().enumerate() {
        let duration = u64::from(times.of(&gate.kind));
        let end = duration + greatest_on(gate, &last, &ends);
        let Ok(()) = ends.push(end) else {
            return Err(Memory);
        };
        last.put_gate(gate, x as u32)?;
    }
    Ok(ends)
}

/// The rank of each gate.
pub(crate) fn ranks(alloc: Global, gates: &[Gate], times: &Times) -> Result<Vec<Rank>, Memory>
    requires { length gates.now ≤ 4194304 }
    ensures many { IfOk result (λ ranks. length ranks.items ≡ length gates.now) }
    ensures ranked { IfOk result (λ ranks. (x : ℕ) → x < length gates.now → IsRank (timed_gates times.now gates.now) x (rank_at ranks.items x)) }
{
    let heights = heights(alloc, gates, times)?;
    let ends = ends(alloc, gates, times)?;
    let Ok(mut ranks) = Vec::with_capacity(alloc, gates.len()) else {
        return Err(Memory);
    };
    for (x, gate) in gates.iter().enumerate() {
        let height = heights[x];
        let before = ends[x] - u64::from(times.of(&gate.kind));
        let rank = Rank {
            height,
            through: height + before,
            position: x as u32,
        };
        let Ok(()) = ranks.push(rank) else {
            return Err(Memory);
        };
    }
    Ok(ranks)
}
