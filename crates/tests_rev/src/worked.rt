//! Worked examples of classical functions.
use crate::functions::{body_of, check_run};
use sc_base::{Class, MemSink, Sink};
use sc_deck::{Body, Item};
use sc_gate::{Kind, well_formed, write_gate};
use std::alloc::Global;
use std::process::Abort;
use std::test::Fail;

/// A function, the number of its output's qubits and of its gates, and one run: the bits of its words one after another as a
/// number, and the output before and after.
struct Example {
    function: &'static str,
    outputs: u32,
    gates: usize,
    words: u64,
    before: u64,
    after: u64,
}

const LOGIC: [Example; 6] = [
    Example {
        function: "classical f(a[4], s) : 4 { t = s ? ~a : a; return t ^ 5; }",
        outputs: 4,
        gates: 72,
        words: 3 + (1 << 4),
        before: 0,
        after: 9,
    },
    Example {
        function: "classical f(a[3]) : 3 { return a; }",
        outputs: 3,
        gates: 3,
        words: 5,
        before: 1,
        after: 4,
    },
    Example {
        function: "classical f(a[3]) : 3 { return a & a; }",
        outputs: 3,
        gates: 9,
        words: 6,
        before: 0,
        after: 6,
    },
    Example {
        function: "classical f(a[3], b[3]) : 3 { return a | b; }",
        outputs: 3,
        gates: 21,
        words: 1 + (2 << 3),
        before: 0,
        after: 3,
    },
    Example {
        function: "classical isthree(a[2]) : 1 { return a == 3; }",
        outputs: 1,
        gates: 21,
        words: 3,
        before: 1,
        after: 0,
    },
    Example {
        function: "classical isthree(a[2]) : 1 { return a == 3; }",
        outputs: 1,
        gates: 21,
        words: 2,
        before: 1,
        after: 1,
    },
];

const ARITHMETIC: [Example; 7] = [
    Example {
        function: "classical add(a[2], b[2]) : 2 { return a + b; }",
        outputs: 2,
        gates: 14,
        words: 3 + (3 << 2),
        before: 0,
        after: 2,
    },
    Example {
        function: "classical add(a[8], b[8]) : 8 { return a + b; }",
        outputs: 8,
        gates: 80,
        words: 200 + (100 << 8),
        before: 255,
        after: 211,
    },
    Example {
        function: "classical s(a[8], b[8]) : 8 { return a - b; }",
        outputs: 8,
        gates: 144,
        words: 100 + (200 << 8),
        before: 0,
        after: 156,
    },
    Example {
        function: "classical l(a[8], b[8]) : 1 { return a < b; }",
        outputs: 1,
        gates: 109,
        words: 100 + (200 << 8),
        before: 0,
        after: 1,
    },
    Example {
        function: "classical l(a[8], b[8]) : 1 { return a < b; }",
        outputs: 1,
        gates: 109,
        words: 200 + (100 << 8),
        before: 1,
        after: 1,
    },
    Example {
        function: "classical m(a[2], b[2]) : 2 { return a * b; }",
        outputs: 2,
        gates: 20,
        words: 3 + (3 << 2),
        before: 0,
        after: 1,
    },
    Example {
        function: "classical m(a[32], b[32]) : 32 { return a * b; }",
        outputs: 32,
        gates: 10760,
        words: 4_000_000_019 + (3_999_999_979 << 32),
        before: 0,
        after: 2573839985,
    },
];

const OTHER_WIRES: [Example; 6] = [
    Example {
        function: "classical f(a[5]) : 5 { return a << 2; }",
        outputs: 5,
        gates: 5,
        words: 13,
        before: 0,
        after: 20,
    },
    Example {
        function: "classical f(a[5]) : 5 { return a >> 2; }",
        outputs: 5,
        gates: 5,
        words: 13,
        before: 0,
        after: 3,
    },
    Example {
        function: "classical f(a[5]) : 5 { return a << 64; }",
        outputs: 5,
        gates: 5,
        words: 13,
        before: 3,
        after: 3,
    },
    Example {
        function: "classical f(a[3]) : 8 { return ext(a, 8); }",
        outputs: 8,
        gates: 8,
        words: 5,
        before: 128,
        after: 133,
    },
    Example {
        function: "classical f(a[8]) : 3 { return low(a, 3); }",
        outputs: 3,
        gates: 3,
        words: 173,
        before: 0,
        after: 5,
    },
    Example {
        function: "classical f(a[64]) : 64 { return a; }",
        outputs: 64,
        gates: 64,
        words: 18_446_744_073_709_551_615,
        before: 1,
        after: 18_446_744_073_709_551_614,
    },
];

/// How many of the items are gates.
fn gate_count(body: &Body) -> usize {
    body.items()
        .iter()
        .filter(|item| matches!(item, Item::Gate(_)))
        .count()
}

fn check_example(rt: &impl Abort, alloc: Global, example: &Example) -> Result<(), Fail> {
    let body = body_of(rt, alloc, example.function)?;
    assert_eq!(rt; body.params(Class::C), 0);
    assert_eq!(rt; gate_count(&body), example.gates);
    check_run(
        rt,
        alloc,
        &body,
        example.outputs,
        example.words,
        example.before,
        example.after,
    )
}

#[test]
fn logic_xors_its_value_in(rt: HostRuntime) -> Result<(), Fail> {
    for example in &LOGIC {
        check_example(&rt, rt.alloc(), example)?;
    }
    Ok(())
}

#[test]
fn arithmetic_xors_its_value_in(rt: HostRuntime) -> Result<(), Fail> {
    for example in &ARITHMETIC {
        check_example(&rt, rt.alloc(), example)?;
    }
    Ok(())
}

#[test]
fn other_wires_xor_their_value_in(rt: HostRuntime) -> Result<(), Fail> {
    for example in &OTHER_WIRES {
        check_example(&rt, rt.alloc(), example)?;
    }
    Ok(())
}

/// Whether the item is a gate of this kind.
fn is_kind(item: &Item, kind: Kind) -> bool {
    match item {
        Item::Gate(gate) => gate.kind == kind,
        _ => false,
    }
}

fn count_of(body: &Body, kind: Kind) -> usize {
    body.items()
        .iter()
        .filter(|item| is_kind(item, kind))
        .count()
}

#[test]
fn a_sum_of_eight_bits(rt: HostRuntime) -> Result<(), Fail> {
    let body = body_of(
        &rt,
        rt.alloc(),
        "classical add(a[8], b[8]) : 8 { return a + b; }",
    )?;
    let counts = (
        body.params(Class::Q),
        body.wires(),
        count_of(&body, Kind::Cnot),
        count_of(&body, Kind::Toffoli),
    );
    assert_eq!(rt; counts, (24, 39, 54, 26));
    Ok(())
}

/// The lines of the first gates among the items.
fn lines_of(rt: &impl Abort, alloc: Global, items: &[Item]) -> Result<MemSink, Fail> {
    let mut sink = MemSink::new(alloc, 64, 1000)?;
    for item in items {
        if let Item::Gate(gate) = item {
            assert!(rt; well_formed(gate) && !sink.ended());
            write_gate(gate, &mut sink)?;
        }
    }
    Ok(sink)
}

#[test]
fn the_gates_of_a_sum_of_two_bits(rt: HostRuntime) -> Result<(), Fail> {
    let body = body_of(
        &rt,
        rt.alloc(),
        "classical add(a[2], b[2]) : 2 { return a + b; }",
    )?;
    let lines = lines_of(&rt, rt.alloc(), body.items())?;
    let want =
        b"CNOT q0,q6\nCNOT q2,q6\nToffoli q0,q2,q8\nCNOT q1,q7\nCNOT q3,q7\nCNOT q8,q7\nCNOT q6,q4\nCNOT q7,q5\nCNOT q8,q7\nCNOT q3,q7\nCNOT q1,q7\nToffoli q0,q2,q8\nCNOT q2,q6\nCNOT q0,q6\n".as_slice();
    assert_eq!(rt; lines.written(), want);
    Ok(())
}

#[test]
fn the_first_gates_of_a_comparison(rt: HostRuntime) -> Result<(), Fail> {
    let body = body_of(
        &rt,
        rt.alloc(),
        "classical isthree(a[2]) : 1 { return a == 3; }",
    )?;
    assert!(rt; body.items().len() > 4);
    assert!(rt; matches!(body.items()[0], Item::Fresh(Class::Q, 6)));
    let lines = lines_of(&rt, rt.alloc(), &body.items()[..4])?;
    assert_eq!(rt; lines.written(), b"X q3\nX q4\nCNOT q0,q5\n".as_slice());
    Ok(())
}
