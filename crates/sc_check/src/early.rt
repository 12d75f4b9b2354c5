//! The first gate that stands too early.
ghost use Rattle.std.specs.Prelude.{◌≡◌, ℕ, ◌<◌, ◌≤◌, Some, None, Option, length, IfOk};
ghost use Rattle.sc_gate.specs.declared.gate.Wire.{Wire as WireValue};
ghost use Rattle.sc_gate.specs.Gates.{operands};
ghost use Rattle.sc_gate.specs.WireTables.{number_at};
ghost use Rattle.sc_sched.specs.Gates.{shares};
ghost use Rattle.sc_check.specs.Places.{lowest};
ghost use Rattle.sc_check.specs.Early.{step_at, not_before, any_not_before, early_by};

use crate::places::Stands;
use sc_base::Memory;
use sc_gate::{Gate, Wire, WireTable};
use std::alloc::Global;

fn step_of(places: &[Stands], x: u32) -> u32
    requires { x < length places.now }
    ensures { result ≡ step_at places.now x }
{
    match places[x as usize] {
        Stands::Once(step) => step,
        _ => 0,
    }
}

/// Whether the last gate on the wire stands in this step or a later one.
fn is_not_before(last: &WireTable, places: &[Stands], wire: Wire, step: u32) -> bool
    requires { (x : ℕ) → number_at last.now wire ≡ Some x → x < length places.now }
    ensures { result ≡ not_before places.now step (number_at last.now wire) }
{
    match last.get(wire) {
        Some(x) => step <= step_of(places, x),
        None => false,
    }
}

/// Whether that is so for a wire of the gate.
fn is_early(last: &WireTable, places: &[Stands], gate: &Gate, step: u32) -> bool
    requires { (wire : WireValue) (x : ℕ) → number_at last.now wire ≡ Some x → x < length places.now }
    ensures { result ≡ any_not_before (number_at last.now) places.now step (operands gate.now) }
{
    if is_not_before(last, places, gate.a, step) {
        return true;
    }
    if let Some(wire) = gate.b {
        if is_not_before(last, places, wire, step) {
            return true;
        }
    }
    match gate.c {
        Some(wire) => is_not_before(last, places, wire, step),
        None => false,
    }
}

/// The lowest gate that stands in a step not later than that of an earlier gate that shares a wire, where every gate stands once.
pub(crate) fn first_early(
    alloc: Global,
    gates: &[Gate],
    places: &[Stands],
) -> Result<Option<u32>, Memory>
    requires gates { length gates.now ≤ 4194304 }
    requires places { length places.now ≡ length gates.now }
    ensures { IfOk result (λ x. x ≡ lowest (early_by gates.now (step_at places.now)) (length gates.now)) }
{
    let mut last = WireTable::new(alloc, gates)?;
    for (x, gate) in gates.iter().enumerate() {
        if is_early(&last, places, gate, step_of(places, x as u32)) {
            return Ok(Some(x as u32));
        }
        last.put_gate(gate, x as u32)?;
    }
    Ok(None)
}
