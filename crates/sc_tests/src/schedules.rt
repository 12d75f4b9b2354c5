//! Schedules of random gate lists, beside those of a plain program of the definition.
use sc_base::{Class, GateName};
use sc_check::{Finding, verdict};
use sc_gate::{Gate, Kind, Times, Wire};
use sc_sched::{Lpfs, Plan, Priority, Rcp, schedule};
use std::alloc::Global;
use std::fmt::Write;
use std::process::Abort;
use std::test::Fail;

mod plain;

use plain::{Case, GATES, keys};

/// A linear congruential generator.
#[derive(Drop)]
struct Random {
    state: u32,
}

impl Random {
    /// A number below the bound.
    fn below(&mut self, bound: u32) -> u32 {
        self.state = self
            .state
            .wrapping_mul(1_664_525)
            .wrapping_add(1_013_904_223);
        (self.state >> 12) % bound.max(1)
    }
}

fn qubit(number: u32) -> Wire {
    Wire {
        class: Class::Q,
        number,
    }
}

fn some_gate(random: &mut Random) -> Gate {
    let number = random.below(3);
    let kind = match random.below(4) {
        0 => Kind::X,
        1 => Kind::H,
        2 => Kind::T,
        _ => {
            let other = number.wrapping_add(1).wrapping_add(random.below(2)) % 3;
            return Gate {
                kind: Kind::Cnot,
                a: qubit(number),
                b: Some(qubit(other)),
                c: None,
            };
        }
    };
    Gate {
        kind,
        a: qubit(number),
        b: None,
        c: None,
    }
}

fn some_gates(alloc: Global, random: &mut Random) -> Result<Vec<Gate>, Fail> {
    let mut gates = Vec::new(alloc);
    for _ in 0..random.below(GATES) {
        gates.push(some_gate(random))?;
    }
    Ok(gates)
}

/// A schedule, shown in the same way.
fn shown(alloc: Global, plan: &Plan) -> Result<String, Fail> {
    let mut text = String::new(alloc);
    for step in plan.steps.as_slice() {
        for region in step.as_slice() {
            for x in region.as_slice() {
                write!(text, "{x} ")?;
            }
            text.push_str("/")?;
        }
        text.push_str(";")?;
    }
    Ok(text)
}

/// That the schedule by an order is the one of the definition, and legal.
fn agrees<P: Priority>(
    rt: &impl Abort,
    alloc: Global,
    case: &Case,
    order: &P,
    times: &Times,
) -> Result<(), Fail> {
    let gates = case.gates;
    assert!(rt; gates.len() <= 7 && case.k >= 1 && case.d >= 1);
    let plan = schedule(alloc, gates, case.k, case.d, order, times)?;
    assert_eq!(rt;
        shown(alloc, &plan)?.as_str(),
        case.show(alloc)?.as_str(),
        "{gates:?} on {} regions of {}",
        case.k,
        case.d
    );
    assert!(rt; plan.steps.len() <= 7);
    assert_eq!(rt; verdict(alloc, gates, &plan)?, Finding::Legal);
    Ok(())
}

/// Both orders, on k regions of d qubits.
fn both_agree(
    rt: &impl Abort,
    alloc: Global,
    gates: &[Gate],
    size: (u32, u32),
    times: &Times,
) -> Result<(), Fail> {
    let (k, d) = size;
    let heights = keys(alloc, gates, times, true)?;
    let throughs = keys(alloc, gates, times, false)?;
    let by_height = Case {
        gates,
        keys: heights.as_slice(),
        k,
        d,
    };
    agrees(rt, alloc, &by_height, &Rcp, times)?;
    let by_through = Case {
        keys: throughs.as_slice(),
        ..by_height
    };
    agrees(rt, alloc, &by_through, &Lpfs, times)
}

#[test]
fn schedules_of_random_lists(rt: HostRuntime) -> Result<(), Fail> {
    let alloc = rt.alloc();
    let ones = Times::ones();
    let mut slow = Times::ones();
    slow.set(GateName::X, 5);
    let mut random = Random { state: 1 };
    for _ in 0..5 {
        for k in 1..4 {
            for d in 2..4 {
                let fast_gates = some_gates(alloc, &mut random)?;
                both_agree(&rt, alloc, &fast_gates, (k, d), &ones)?;
                let slow_gates = some_gates(alloc, &mut random)?;
                both_agree(&rt, alloc, &slow_gates, (k, d), &slow)?;
            }
        }
    }
    Ok(())
}
