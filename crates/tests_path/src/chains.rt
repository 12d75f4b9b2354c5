//! Path tables of small random programs against all chains of their gates with all calls written out.
//!
//! Each body has two parameter qubits, a classical parameter and a qubit of its own. In an expansion the wires 0 and 1 are the
//! parameter qubits, 2 is the classical bit, and the fresh qubits stand from 3 on.
use crate::bodies::{Step, push_fresh, push_step};
use crate::known::{add, times_of};
use sc_base::{Class, GateName};
use sc_deck::Body;
use sc_gate::Kind;
use sc_path::{Paths, Table};
use std::alloc::Global;
use std::process::Abort;
use std::test::Fail;

/// At most so many gates, so that all sets of positions can be tried.
const MOST: usize = 10;

/// How many sets of so many positions there are.
const SETS: u32 = 1024;

/// Two different ones of the three qubits of a body.
const PAIRS: [&[u32]; 6] = [&[0, 1], &[1, 0], &[0, 2], &[2, 0], &[1, 2], &[2, 1]];

/// A gate on wires of an expansion. A gate on one wire has it twice.
#[derive(Clone, Copy)]
struct Placed {
    weight: u128,
    a: u32,
    b: u32,
}

/// The gates of a body with all its calls written out, and how many fresh qubits there are.
#[derive(Drop)]
struct Expansion {
    gates: Vec<Placed>,
    fresh: u32,
}

/// A number in no order below another one, from a state that changes.
fn roll(state: &mut u64, sides: u32) -> u32 {
    *state = state
        .wrapping_mul(6_364_136_223_846_793_005)
        .wrapping_add(1_442_695_040_888_963_407);
    ((*state >> 33) % u64::from(sides.max(1))) as u32
}

/// A gate, or turns of an earlier body where there is one.
fn random_step(state: &mut u64, bodies: u32) -> Step {
    let qubits = PAIRS[roll(state, 6) as usize % 6];
    let (a, b) = (qubits[0], qubits[1]);
    let sides = if bodies > 0 { 5 } else { 3 };
    match roll(state, sides) {
        0 => Step::One(Kind::T, a),
        1 => Step::Two(Kind::Cnot, a, b),
        2 => Step::Measured(a, 0),
        _ => Step::Calls {
            callee: roll(state, bodies),
            qubits,
            cbits: 1,
            turns: u64::from(roll(state, 3)).saturating_add(1),
        },
    }
}

/// The wire of an expansion for a qubit of its body.
fn wire_of(qubit: u32) -> u32 {
    if qubit < 2 { qubit } else { 3 }
}

/// The wire for a wire of a callee that is called on a and b, its fresh qubits from a number on.
fn moved(wire: u32, a: u32, b: u32, fresh: u32) -> u32 {
    match wire {
        0 => a,
        1 => b,
        2 => 2,
        own => own.wrapping_sub(3).wrapping_add(fresh),
    }
}

/// Appends one turn of a callee that is called on a and b.
fn push_turn(expansion: &mut Expansion, callee: &Expansion, a: u32, b: u32) -> Result<(), Fail> {
    let first = expansion.fresh.wrapping_add(3);
    for gate in &callee.gates {
        expansion.gates.push(Placed {
            weight: gate.weight,
            a: moved(gate.a, a, b, first),
            b: moved(gate.b, a, b, first),
        })?;
    }
    expansion.fresh = expansion.fresh.wrapping_add(callee.fresh);
    Ok(())
}

/// Appends a step: a T, a CNOT and a measurement last 3, 1 and 2.
fn expand(expansion: &mut Expansion, earlier: &[Expansion], step: Step) -> Result<(), Fail> {
    let (weight, a, b) = match step {
        Step::One(_, a) => (3, wire_of(a), wire_of(a)),
        Step::Two(_, a, b) => (1, wire_of(a), wire_of(b)),
        Step::Measured(a, _) => (2, wire_of(a), 2),
        Step::Calls {
            callee,
            qubits,
            turns,
            ..
        } => {
            let callee = earlier.get(callee as usize).ok_or("no callee")?;
            let a = wire_of(*qubits.get(0).ok_or("no qubit")?);
            let b = wire_of(*qubits.get(1).ok_or("no qubit")?);
            for _ in 0..turns {
                push_turn(expansion, callee, a, b)?;
            }
            return Ok(());
        }
        _ => return Ok(()),
    };
    Ok(expansion.gates.push(Placed { weight, a, b })?)
}

/// Whether a gate is on a wire; each is on anywhere.
fn is_on(gate: &Placed, wire: Option<u32>) -> bool {
    match wire {
        Some(wire) => gate.a == wire || gate.b == wire,
        None => true,
    }
}

/// The gates at the positions of a set, whose bits they are, where they are a chain: the first one, the last one and the weight.
fn chain_of(gates: &[Placed], set: u32) -> Option<(Placed, Placed, u128)> {
    let mut chain: Option<(Placed, Placed, u128)> = None;
    let mut rest = set;
    for gate in gates {
        if rest % 2 == 1 {
            chain = match chain {
                None => Some((*gate, *gate, gate.weight)),
                Some((first, last, weight))
                    if is_on(&last, Some(gate.a)) || is_on(&last, Some(gate.b)) => {
                    Some((first, *gate, weight.saturating_add(gate.weight)))
                }
                Some(_) => return None,
            };
        }
        rest /= 2;
    }
    chain
}

/// The greatest weight of a chain that starts and ends there.
fn greatest(gates: &[Placed], from: Option<u32>, to: Option<u32>) -> Option<u128> {
    let mut found = None;
    for set in 1..SETS {
        if let Some((first, last, weight)) = chain_of(gates, set)
            && is_on(&first, from)
            && is_on(&last, to)
        {
            found = found.max(Some(weight));
        }
    }
    found
}

/// Compares a table with all chains, for each start and each end.
fn compare(rt: &impl Abort, table: &Table, gates: &[Placed], seed: u64) {
    let ends = [Some(0), Some(1), Some(2), None];
    for from in ends {
        for to in ends {
            assert_eq!(rt;
                table.get(from, to),
                greatest(gates, from, to),
                "seed {seed}, {from:?} {to:?}"
            );
        }
    }
}

/// Three bodies of a seed, each compared where it has few gates. Answers how many were.
fn compare_bodies(rt: &impl Abort, alloc: Global, seed: u64) -> Result<u32, Fail> {
    let times = times_of(rt, &[(GateName::T, 3), (GateName::MeasZ, 2)]);
    let mut paths = Paths::new(alloc, times);
    let mut earlier = Vec::new(alloc);
    let mut state = seed;
    let mut compared = 0u32;
    for number in 0..3u32 {
        let mut body = Body::new(alloc, 2, 1);
        push_fresh(rt, &mut body, Class::Q, 1)?;
        let mut expansion = Expansion {
            gates: Vec::new(alloc),
            fresh: 1,
        };
        for _ in 0..4 {
            let step = random_step(&mut state, number);
            push_step(rt, alloc, &mut body, step)?;
            expand(&mut expansion, &earlier, step)?;
        }
        add(rt, &mut paths, &body)?;
        if expansion.gates.len() <= MOST {
            let table = paths.table(number).ok_or("no table")?;
            compare(rt, table, &expansion.gates, seed);
            compared = compared.saturating_add(1);
        }
        earlier.push(expansion)?;
    }
    Ok(compared)
}

#[test]
fn tables_are_those_of_all_chains(rt: HostRuntime) -> Result<(), Fail> {
    let mut compared = 0u32;
    for seed in 0..200 {
        compared = compared.saturating_add(compare_bodies(&rt, rt.alloc(), seed)?);
    }
    assert!(rt; compared >= 250, "{compared} bodies");
    Ok(())
}
