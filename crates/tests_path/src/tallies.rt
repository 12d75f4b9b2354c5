//! Counts and critical paths of towers, in which each body calls the one before it, and of programs of many bodies.
use crate::bodies::{Step, Steps, body_of, push_fresh, push_gate};
use crate::known::{Durations, last_counts, paths_of};
use crate::large::{many, wide};
use sc_base::{Class, GateName};
use sc_count::TallyFault;
use sc_deck::Body;
use sc_gate::{Gate, Kind, Wire};
use sc_path::{PathFault, critical};
use std::alloc::Global;
use std::process::Abort;
use std::test::Fail;

/// A first body, then so many bodies that each call the one before it, and a main that calls the last of them.
struct Tower {
    first: Steps,
    /// What is called in each body.
    qubits: &'static [u32],
    turns: u64,
    height: u32,
    main: &'static [Step],
    durations: Durations,
    /// The qubits, the peak and the gates, or None where they are too large.
    counts: Option<[u128; 3]>,
    /// The critical path, or None where it is too large.
    critical: Option<u128>,
}

const X: Steps = Steps {
    qubits: 1,
    cbits: 0,
    items: &[Step::One(Kind::X, 0)],
};

const NO_GATE: Steps = Steps {
    qubits: 1,
    cbits: 0,
    items: &[],
};

const OWN_QUBIT: Steps = Steps {
    qubits: 0,
    cbits: 0,
    items: &[Step::Qubits(1)],
};

/// A main that calls a body on a qubit.
macro_rules! on_one {
    ($callee:expr) => {
        &[
            Step::Qubits(1),
            Step::Calls {
                callee: $callee,
                qubits: &[0],
                cbits: 0,
                turns: 1,
            },
        ]
    };
}

const TOWERS: [Tower; 7] = [
    Tower {
        first: X,
        qubits: &[0],
        turns: 2,
        height: 100,
        main: on_one!(100),
        durations: &[],
        counts: Some([1, 1, 1_267_650_600_228_229_401_496_703_205_376]),
        critical: Some(1_267_650_600_228_229_401_496_703_205_376),
    },
    Tower {
        first: X,
        qubits: &[0],
        turns: 2,
        height: 127,
        main: on_one!(127),
        durations: &[],
        counts: Some([1, 1, 170_141_183_460_469_231_731_687_303_715_884_105_728]),
        critical: Some(170_141_183_460_469_231_731_687_303_715_884_105_728),
    },
    Tower {
        first: X,
        qubits: &[0],
        turns: 2,
        height: 128,
        main: on_one!(128),
        durations: &[],
        counts: None,
        critical: None,
    },
    // by weight alone
    Tower {
        first: X,
        qubits: &[0],
        turns: 2,
        height: 127,
        main: on_one!(127),
        durations: &[(GateName::X, 2)],
        counts: None,
        critical: None,
    },
    // the deepest one
    Tower {
        first: NO_GATE,
        qubits: &[0],
        turns: 1,
        height: 254,
        main: on_one!(254),
        durations: &[],
        counts: Some([1, 1, 0]),
        critical: Some(0),
    },
    // each call's qubit dies at its return
    Tower {
        first: OWN_QUBIT,
        qubits: &[],
        turns: 2,
        height: 33,
        main: &[Step::Calls {
            callee: 33,
            qubits: &[],
            cbits: 0,
            turns: 1,
        }],
        durations: &[],
        counts: Some([8_589_934_592, 1, 0]),
        critical: Some(0),
    },
    // wires that pass the greatest number
    Tower {
        first: OWN_QUBIT,
        qubits: &[],
        turns: 2,
        height: 128,
        main: &[],
        durations: &[],
        counts: None,
        critical: Some(0),
    },
];

fn bodies_of(rt: &impl Abort, alloc: Global, tower: &Tower) -> Result<Vec<Body>, Fail> {
    let params = tower.first.qubits;
    let mut bodies = Vec::new(alloc);
    bodies.push(body_of(rt, alloc, params, 0, tower.first.items)?)?;
    for callee in 0..tower.height {
        let call = Step::Calls {
            callee,
            qubits: tower.qubits,
            cbits: 0,
            turns: tower.turns,
        };
        bodies.push(body_of(rt, alloc, params, 0, &[call])?)?;
    }
    bodies.push(body_of(rt, alloc, 0, 0, tower.main)?)?;
    Ok(bodies)
}

#[test]
fn towers_have_their_numbers(rt: HostRuntime) -> Result<(), Fail> {
    for tower in &TOWERS {
        let bodies = bodies_of(&rt, rt.alloc(), tower)?;
        let counts = match last_counts(&rt, rt.alloc(), tower.durations, &bodies) {
            Ok(Some(counts)) => Some([counts.qubits, counts.peak, counts.gates]),
            Ok(None) | Err(TallyFault::CountTooLarge) => None,
            Err(TallyFault::Memory) => Err("no memory")?,
        };
        let greatest = match paths_of(&rt, rt.alloc(), tower.durations, &bodies) {
            Ok(paths) => Some(critical(&paths)),
            Err(PathFault::CountTooLarge) => None,
            Err(PathFault::Memory) => Err("no memory")?,
        };
        assert_eq!(rt; counts, tower.counts, "height {}", tower.height);
        assert_eq!(rt; greatest, tower.critical, "height {}", tower.height);
    }
    Ok(())
}

/// The gates of a sum of two numbers of so many bits: two CNOTs and a Toffoli for the lowest bit, a CNOT and a Toffoli more
/// for each of those above it, and no Toffoli for the highest one. The bits of the numbers, of the output, of the sum and of
/// the carries stand one after another.
fn sum(alloc: Global, n: u32) -> Result<Vec<Gate>, Fail> {
    let mut gates = Vec::new(alloc);
    let n = n.min(1000);
    for i in 0..n {
        let (a, b) = (Wire::qubit(i), Wire::qubit(n + i));
        let (s, carry) = (Wire::qubit(3 * n + i), Wire::qubit(4 * n + i));
        gates.push(Gate::two(Kind::Cnot, a, s))?;
        gates.push(Gate::two(Kind::Cnot, b, s))?;
        if i + 1 < n {
            gates.push(Gate::three(Kind::Toffoli, a, b, carry))?;
        }
        if i > 0 {
            let below = Wire::qubit(4 * n + i - 1);
            if i + 1 < n {
                gates.push(Gate::three(Kind::Toffoli, below, s, carry))?;
            }
            gates.push(Gate::two(Kind::Cnot, below, s))?;
        }
    }
    Ok(gates)
}

/// A sum of two numbers of so many bits into an output: computed, copied and uncomputed.
fn adder(rt: &impl Abort, alloc: Global, n: u32) -> Result<Body, Fail> {
    let n = n.min(1000);
    let mut body = Body::new(alloc, 0, 0);
    push_fresh(rt, &mut body, Class::Q, (5 * n).saturating_sub(1))?;
    let mut gates = sum(alloc, n)?;
    for gate in &gates {
        push_gate(rt, &mut body, *gate)?;
    }
    for i in 0..n {
        let copied = Gate::two(Kind::Cnot, Wire::qubit(3 * n + i), Wire::qubit(2 * n + i));
        push_gate(rt, &mut body, copied)?;
    }
    gates.reverse();
    for gate in &gates {
        push_gate(rt, &mut body, *gate)?;
    }
    Ok(body)
}

#[test]
fn large_programs(rt: HostRuntime) -> Result<(), Fail> {
    let alloc = rt.alloc();
    let wide = wide(&rt, alloc, 20_000)?;
    let many = many(&rt, alloc, 65_535)?;
    let narrow = [adder(&rt, alloc, 2)?];
    let adder = [adder(&rt, alloc, 8)?];
    for (bodies, numbers) in [
        (wide.as_slice(), [20_000, 20_000, 40_000, 0, 0]),
        (many.as_slice(), [1, 1, 65_535, 0, 0]),
        (narrow.as_slice(), [9, 9, 14, 12, 2]),
        (adder.as_slice(), [39, 39, 80, 54, 26]),
    ] {
        let counts = last_counts(&rt, alloc, &[], bodies)?.ok_or("no body")?;
        let cnots = counts.kinds[GateName::Cnot.place()];
        let toffolis = counts.kinds[GateName::Toffoli.place()];
        let found = [counts.qubits, counts.peak, counts.gates, cnots, toffolis];
        assert_eq!(rt; found, numbers);
    }
    assert_eq!(rt; critical(&paths_of(&rt, alloc, &[], &wide)?), 2);
    assert_eq!(rt; critical(&paths_of(&rt, alloc, &[], &many)?), 65_535);
    Ok(())
}
