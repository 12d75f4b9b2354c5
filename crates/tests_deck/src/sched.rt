//! Orders of ranks, and schedules whose steps a plain program of the definition gave.
use crate::gates::{cnot, qubit, single};
use sc_base::GateName;
use sc_gate::{Gate, Kind, Times};
use sc_sched::{Lpfs, Plan, Priority, Rank, Rcp, SchedFault, schedule};
use std::alloc::{AllocError, Global};
use std::fmt::Write;
use std::test::Fail;

fn rank((height, through, position): (u64, u64, u32)) -> Rank {
    Rank {
        height,
        through,
        position,
    }
}

/// Of two ranks, whether the first is before the second by each order.
#[test]
fn orders_of_ranks(rt: HostRuntime) {
    for (first, second, by_height, by_through) in [
        ((3, 3, 1), (1, 1, 0), true, true),
        ((1, 1, 0), (1, 3, 3), true, false),
        ((1, 3, 3), (1, 1, 0), false, true),
        ((3, 3, 1), (1, 3, 3), true, true),
        ((3, 3, 1), (3, 3, 1), false, false),
        ((2, 5, 4), (2, 5, 3), false, false),
    ] {
        assert_eq!(rt; Rcp.before(&rank(first), &rank(second)), by_height);
        assert_eq!(rt; Lpfs.before(&rank(first), &rank(second)), by_through);
    }
}

/// The positions of each region, with `/` behind a region and `;` behind a step.
fn shown(alloc: Global, plan: &Plan) -> Result<String, AllocError> {
    let mut text = String::new(alloc);
    for step in plan.steps.as_slice() {
        for region in step.as_slice() {
            for x in region.as_slice() {
                write!(text, "{x} ")?;
            }
            text.push_str("/")?;
        }
        text.push_str(";")?;
    }
    Ok(text)
}

/// The steps, or `none` where there is no schedule.
fn steps<P: Priority>(
    alloc: Global,
    gates: &[Gate],
    size: (u32, u32),
    order: &P,
    times: &Times,
) -> Result<String, AllocError> {
    let (k, d) = size;
    if k > 0 && d > 0 {
        if let Ok(plan) = schedule(alloc, gates, k, d, order, times) {
            return shown(alloc, &plan);
        }
    }
    String::from_str(alloc, "none")
}

#[test]
fn four_gates_of_a_kind(rt: HostRuntime) -> Result<(), Fail> {
    let alloc = rt.alloc();
    let four = [0, 1, 2, 3].map(|x| single(Kind::H, x));
    let times = Times::ones();
    assert_eq!(rt;
        steps(alloc, &four, (1, 2), &Rcp, &times)?.as_str(),
        "0 1 /;2 3 /;"
    );
    assert_eq!(rt;
        steps(alloc, &four, (2, 2), &Rcp, &times)?.as_str(),
        "0 1 /2 3 /;"
    );
    assert_eq!(rt; steps(alloc, &[], (1, 1), &Rcp, &times)?.as_str(), "");
    Ok(())
}

#[test]
fn too_narrow(rt: HostRuntime) {
    let pair = [single(Kind::H, 0), cnot(0, 1)];
    match schedule(rt.alloc(), &pair, 1, 1, &Rcp, &Times::ones()) {
        Ok(_) => assert!(rt; false),
        Err(fault) => assert_eq!(rt; fault, SchedFault::Narrow(1)),
    }
}

#[test]
fn orders_and_times(rt: HostRuntime) -> Result<(), Fail> {
    let alloc = rt.alloc();
    let h = single(Kind::H, 1);
    let gates = [single(Kind::X, 0), h, h, h];
    let ones = Times::ones();
    assert_eq!(rt;
        steps(alloc, &gates, (1, 1), &Rcp, &ones)?.as_str(),
        "1 /;2 /;0 /;3 /;"
    );
    assert_eq!(rt;
        steps(alloc, &gates, (1, 1), &Lpfs, &ones)?.as_str(),
        "1 /;2 /;3 /;0 /;"
    );
    let mut slow = Times::ones();
    slow.set(GateName::X, 5);
    assert_eq!(rt;
        steps(alloc, &gates, (1, 1), &Rcp, &slow)?.as_str(),
        "0 /;1 /;2 /;3 /;"
    );
    Ok(())
}

/// Lists over three qubits, with the steps that a plain program of the definition gives by the two orders.
#[test]
fn lists_over_three_qubits(rt: HostRuntime) -> Result<(), Fail> {
    let [h0, h1, h2] = [0, 1, 2].map(|x| single(Kind::H, x));
    let [x0, x1, x2] = [0, 1, 2].map(|x| single(Kind::X, x));
    let [c01, c02, c10] = [cnot(0, 1), cnot(0, 2), cnot(1, 0)];
    let [c12, c20, c21] = [cnot(1, 2), cnot(2, 0), cnot(2, 1)];
    let t012 = Gate {
        kind: Kind::Toffoli,
        a: qubit(0),
        b: Some(qubit(1)),
        c: Some(qubit(2)),
    };
    for (gates, size, rcp, lpfs) in [
        (
            [x1, h2, c01, c02].as_slice(),
            (2, 3),
            "0 /1 /;2 /;3 /;",
            "0 /1 /;2 /;3 /;",
        ),
        (
            [x1, h0, x2, x0].as_slice(),
            (1, 1),
            "1 /;0 /;2 /;3 /;",
            "1 /;3 /;0 /;2 /;",
        ),
        (
            [t012, c01, h2, h1, h2, h2, h0].as_slice(),
            (2, 3),
            "0 /;1 /2 /;3 4 6 /;5 /;",
            "0 /;1 /2 /;3 4 6 /;5 /;",
        ),
        (
            [c02, h1, c20, x0, h2].as_slice(),
            (1, 2),
            "0 /;2 /;1 4 /;3 /;",
            "0 /;2 /;3 /;1 4 /;",
        ),
        (
            [x1, h0, h0, x1, c20, h1].as_slice(),
            (2, 2),
            "0 /1 /;2 /3 /;4 /5 /;",
            "0 /1 /;2 /3 /;4 /5 /;",
        ),
        (
            [c20, c02, x1, c10, h2, c01].as_slice(),
            (2, 2),
            "0 /2 /;1 /;3 /4 /;5 /;",
            "0 /2 /;1 /;3 /4 /;5 /;",
        ),
        (
            [x2, h2, h0, h2, h1, x2, x1].as_slice(),
            (2, 3),
            "0 /2 4 /;1 /6 /;3 /;5 /;",
            "0 /2 4 /;1 /6 /;3 /;5 /;",
        ),
        (
            [x0, c01, t012, h0, x1, x0, t012].as_slice(),
            (2, 3),
            "0 /;1 /;2 /;3 /4 /;5 /;6 /;",
            "0 /;1 /;2 /;3 /4 /;5 /;6 /;",
        ),
        (
            [x2, h0, x1, c12].as_slice(),
            (1, 3),
            "0 2 /;1 /;3 /;",
            "0 2 /;3 /;1 /;",
        ),
        (
            [c12, h2, h0, c01, h2, t012].as_slice(),
            (1, 3),
            "0 /;1 2 /;3 /;4 /;5 /;",
            "0 /;1 2 /;4 /;3 /;5 /;",
        ),
        (
            [c02, t012, h2, x1, x1, c01, c21].as_slice(),
            (1, 3),
            "0 /;1 /;3 /;4 /;2 /;5 /;6 /;",
            "0 /;1 /;3 /;4 /;5 /;2 /;6 /;",
        ),
        (
            [t012, c21, c20, h0, x1, h0].as_slice(),
            (1, 3),
            "0 /;1 /;2 /;3 /;4 /;5 /;",
            "0 /;1 /;2 /;3 /;5 /;4 /;",
        ),
        (
            [x1, x1, h1, h0, x2, h0, x1].as_slice(),
            (1, 2),
            "0 4 /;1 /;2 3 /;5 /;6 /;",
            "0 4 /;1 /;2 3 /;6 /;5 /;",
        ),
    ] {
        let times = Times::ones();
        assert_eq!(rt; steps(rt.alloc(), gates, size, &Rcp, &times)?.as_str(), rcp);
        assert_eq!(rt;
            steps(rt.alloc(), gates, size, &Lpfs, &times)?.as_str(),
            lpfs
        );
    }
    Ok(())
}
