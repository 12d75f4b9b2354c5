//! Bodies from steps. What a call on a body asks for is seen before it.
ghost use Rattle.std.specs.Prelude.{IsTrue, option_to_list};
ghost use Rattle.sc_deck.specs.Bodies.{wires_of};
ghost use Rattle.sc_gate.specs.Gates.{operands};
ghost use Rattle.sc_gate.specs.Numbers.{IsThere, AreThere};

use sc_base::Class;
use sc_deck::{Body, first_repeat};
use sc_gate::{Gate, Kind, Wire, well_formed};
use std::alloc::Global;
use std::process::Abort;
use std::test::Fail;

/// One item of a body.
#[derive(Clone, Copy)]
pub enum Step {
    /// So many fresh qubits.
    Qubits(u32),
    /// So many fresh classical bits.
    Cbits(u32),
    /// A gate on a qubit.
    One(Kind, u32),
    /// A gate on two qubits.
    Two(Kind, u32, u32),
    /// A gate on three qubits.
    Three(Kind, u32, u32, u32),
    /// A measurement of a qubit into a classical bit.
    Measured(u32, u32),
    /// So many calls of a body, on these qubits and on the first classical bits.
    Calls {
        callee: u32,
        qubits: &'static [u32],
        cbits: u32,
        turns: u64,
    },
}

/// A body: its parameter qubits, its classical parameters and its items.
#[derive(Clone, Copy)]
pub struct Steps {
    pub qubits: u32,
    pub cbits: u32,
    pub items: &'static [Step],
}

/// Whether the body has this wire so far.
fn is_there(body: &Body, wire: Wire) -> bool
    ensures { IsTrue result → IsThere (wires_of body.now) wire }
{
    wire.number < body.count(wire.class)
}

/// The same, where there is a wire.
fn is_there_or_none(body: &Body, wire: Option<Wire>) -> bool
    ensures { IsTrue result → AreThere (wires_of body.now) (option_to_list wire) }
{
    match wire {
        Some(wire) => is_there(body, wire),
        None => true,
    }
}

/// Whether the body has the operands of the gate so far.
fn has_operands(body: &Body, gate: &Gate) -> bool
    ensures { IsTrue result → AreThere (wires_of body.now) (operands gate.now) }
{
    is_there(body, gate.a) && is_there_or_none(body, gate.b) && is_there_or_none(body, gate.c)
}

/// Whether the body has these wires so far.
fn has_wires(body: &Body, wires: &[Wire]) -> bool
    ensures { IsTrue result → AreThere (wires_of body.now) wires.now }
{
    for wire in wires {
        if !is_there(body, *wire) {
            return false;
        }
    }
    true
}

/// Appends a gate.
pub fn push_gate(rt: &impl Abort, body: &mut Body, gate: Gate) -> Result<(), Fail> {
    assert!(rt; well_formed(&gate) && has_operands(body, &gate));
    Ok(body.push_gate(gate)?)
}

/// Appends fresh wires.
pub fn push_fresh(rt: &impl Abort, body: &mut Body, class: Class, n: u32) -> Result<(), Fail> {
    let wires = body.wires();
    assert!(rt; n >= 1 && wires <= 65536 && n <= 65536 - wires);
    Ok(body.push_fresh(class, n)?)
}

/// Appends so many calls of a body.
pub fn push_calls(
    rt: &impl Abort,
    body: &mut Body,
    callee: u32,
    wires: &[Wire],
    turns: u64,
) -> Result<(), Fail> {
    assert!(rt; first_repeat(wires).is_none() && has_wires(body, wires));
    if turns < 2 {
        Ok(body.push_call(callee, wires)?)
    } else {
        Ok(body.push_calls(callee, wires, turns)?)
    }
}

/// These qubits, and the first classical bits.
fn wires_on(alloc: Global, qubits: &[u32], cbits: u32) -> Result<Vec<Wire>, Fail> {
    let mut wires = Vec::new(alloc);
    for qubit in qubits {
        wires.push(Wire::qubit(*qubit))?;
    }
    for cbit in 0..cbits {
        wires.push(Wire::cbit(cbit))?;
    }
    Ok(wires)
}

/// Appends a step.
pub fn push_step(rt: &impl Abort, alloc: Global, body: &mut Body, step: Step) -> Result<(), Fail> {
    let gate = match step {
        Step::Qubits(n) => return push_fresh(rt, body, Class::Q, n),
        Step::Cbits(n) => return push_fresh(rt, body, Class::C, n),
        Step::Calls {
            callee,
            qubits,
            cbits,
            turns,
        } => {
            let wires = wires_on(alloc, qubits, cbits)?;
            return push_calls(rt, body, callee, &wires, turns);
        }
        Step::One(kind, a) => Gate::one(kind, Wire::qubit(a)),
        Step::Two(kind, a, b) => Gate::two(kind, Wire::qubit(a), Wire::qubit(b)),
        Step::Three(kind, a, b, c) => {
            Gate::three(kind, Wire::qubit(a), Wire::qubit(b), Wire::qubit(c))
        }
        Step::Measured(a, b) => Gate::two(Kind::MeasZ, Wire::qubit(a), Wire::cbit(b)),
    };
    push_gate(rt, body, gate)
}

/// A body of these steps.
pub fn body_of(
    rt: &impl Abort,
    alloc: Global,
    qubits: u32,
    cbits: u32,
    items: &[Step],
) -> Result<Body, Fail> {
    assert!(rt; qubits <= 32768 && cbits <= 32768);
    let mut body = Body::new(alloc, qubits, cbits);
    for step in items {
        push_step(rt, alloc, &mut body, *step)?;
    }
    Ok(body)
}

/// The bodies of these steps.
pub fn bodies_of(rt: &impl Abort, alloc: Global, all: &[Steps]) -> Result<Vec<Body>, Fail> {
    let mut bodies = Vec::new(alloc);
    for steps in all {
        bodies.push(body_of(rt, alloc, steps.qubits, steps.cbits, steps.items)?)?;
    }
    Ok(bodies)
}
