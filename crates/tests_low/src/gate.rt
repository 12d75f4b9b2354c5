//! Wires, gates and their texts.
use sc_base::{Fixed, GateName, MemSink, Sink};
use sc_gate::{
    Gate, Kind, Times, Wire, arity, cancels, depends, same_gate, same_kind, slow_critical,
    well_formed, wire_at, write_flat, write_gate, write_header,
};
use std::test::Fail;

#[test]
fn well_formed_gates(rt: HostRuntime) {
    let (q0, q1, q2) = (Wire::qubit(0), Wire::qubit(1), Wire::qubit(2));
    let (c0, c1) = (Wire::cbit(0), Wire::cbit(1));
    for (kind, wires, want) in [
        (Kind::H, [q0].as_slice(), true),
        (Kind::H, &[c0], false),
        (Kind::H, &[q0, q1], false),
        (Kind::Cnot, &[q0, q1], true),
        (Kind::Cnot, &[q0, q0], false),
        (Kind::Cnot, &[q0], false),
        (Kind::Cnot, &[q0, c1], false),
        (Kind::Toffoli, &[q0, q1, q2], true),
        (Kind::Toffoli, &[q0, q1, q0], false),
        (Kind::Fredkin, &[q0, q1], false),
        (Kind::MeasZ, &[q0], true),
        (Kind::MeasZ, &[q0, c0], true),
        (Kind::MeasZ, &[q0, q1], false),
        (Kind::PrepX(true), &[q2], true),
    ] {
        let made = Gate::on(kind, wires);
        assert_eq!(rt; made.map(|gate| well_formed(&gate)), Some(want));
    }
    assert_eq!(rt; Gate::on(Kind::H, &[]), None);
    assert_eq!(rt; Gate::on(Kind::Toffoli, &[q0, q1, q2, c0]), None);
    let gap = Gate {
        kind: Kind::Cnot,
        a: q0,
        b: None,
        c: Some(q1),
    };
    assert!(rt; !well_formed(&gap));
}

#[test]
fn kinds_of_names(rt: HostRuntime) {
    let angle = Fixed(-500_000_000_000);
    for (name, plain, qubits) in [
        (GateName::X, Some(Kind::X), 1),
        (GateName::Sdag, Some(Kind::Sdag), 1),
        (GateName::Tdag, Some(Kind::Tdag), 1),
        (GateName::Cnot, Some(Kind::Cnot), 2),
        (GateName::Toffoli, Some(Kind::Toffoli), 3),
        (GateName::Fredkin, Some(Kind::Fredkin), 3),
        (GateName::MeasX, Some(Kind::MeasX), 1),
        (GateName::Rz, None, 1),
        (GateName::PrepX, None, 1),
    ] {
        assert_eq!(rt; Kind::plain(name), plain);
        if let Some(kind) = plain {
            assert_eq!(rt; kind.name(), name);
            assert_eq!(rt; arity(&kind), qubits);
        }
    }
    assert_eq!(rt; Kind::rotation(GateName::Ry, angle), Some(Kind::Ry(angle)));
    assert_eq!(rt; Kind::rotation(GateName::PrepX, angle), None);
    assert_eq!(rt;
        Kind::preparation(GateName::PrepZ, true),
        Some(Kind::PrepZ(true))
    );
    assert_eq!(rt; Kind::preparation(GateName::MeasZ, true), None);
}

#[test]
fn pairs_of_gates(rt: HostRuntime) {
    let (q0, q1) = (Wire::qubit(0), Wire::qubit(1));
    let cnot = Gate::two(Kind::Cnot, q0, q1);
    let back = Gate::two(Kind::Cnot, q1, q0);
    let t = Gate::one(Kind::T, q1);
    let tdag = Gate::one(Kind::Tdag, q1);
    let measure = Gate::two(Kind::MeasZ, Wire::qubit(2), Wire::cbit(1));
    assert!(rt; same_kind(&cnot, &back));
    assert!(rt; !same_kind(&t, &tdag));
    assert!(rt; same_gate(&cnot, &cnot));
    assert!(rt; !same_gate(&cnot, &back));
    assert!(rt; depends(&cnot, &t));
    assert!(rt; !depends(&cnot, &measure));
    assert!(rt; cancels(&cnot, &cnot));
    assert!(rt; !cancels(&cnot, &back));
    assert!(rt; cancels(&tdag, &t));
    assert!(rt; !cancels(&t, &t));
    assert_eq!(rt; wire_at(&cnot, 1), Some(q1));
    assert_eq!(rt; wire_at(&cnot, 2), None);
}

#[test]
fn durations(rt: HostRuntime) {
    let mut times = Times::ones();
    times.set(GateName::T, 1_000_000);
    assert_eq!(rt; times.of(&Kind::T), 1_000_000);
    assert_eq!(rt; times.of(&Kind::S), 1);
    assert_eq!(rt; times.of(&Kind::Sdag), 1);
    let (q0, q1) = (Wire::qubit(0), Wire::qubit(1));
    let gates = [
        Gate::one(Kind::H, q0),
        Gate::one(Kind::T, q1),
        Gate::two(Kind::Cnot, q0, q1),
        Gate::one(Kind::H, Wire::qubit(2)),
    ];
    assert_eq!(rt; slow_critical(&gates, &times), 1_000_001);
}

#[test]
fn gate_lines(rt: HostRuntime) -> Result<(), Fail> {
    let (q0, q10) = (Wire::qubit(0), Wire::qubit(10));
    let most = Wire::qubit(4_294_967_295);
    for (gate, want) in [
        (Gate::two(Kind::Cnot, q0, q10), b"CNOT q0,q10\n".as_slice()),
        (
            Gate::three(Kind::Fredkin, q10, q0, most),
            b"Fredkin q10,q0,q4294967295\n",
        ),
        (
            Gate::one(Kind::Rx(Fixed(-1)), q0),
            b"Rx q0,-0.000000000001\n",
        ),
        (
            Gate::one(Kind::Rz(Fixed(i64::MIN)), q0),
            b"Rz q0,-9223372.036854775808\n",
        ),
        (Gate::one(Kind::PrepX(false), q0), b"PrepX q0,0\n"),
        (Gate::one(Kind::PrepZ(true), q10), b"PrepZ q10,1\n"),
        (Gate::two(Kind::MeasZ, q0, Wire::cbit(7)), b"MeasZ q0,c7\n"),
    ] {
        let mut out = MemSink::new(rt.alloc(), 3, 100)?;
        assert!(rt; write_gate(&gate, &mut out).is_ok());
        assert_eq!(rt; out.written(), want);
    }
    Ok(())
}

#[test]
fn flat_texts(rt: HostRuntime) -> Result<(), Fail> {
    let gates = [
        Gate::one(Kind::H, Wire::qubit(0)),
        Gate::two(Kind::MeasX, Wire::qubit(1), Wire::cbit(0)),
    ];
    let want = b"flat 1\nqbits 2\ncbits 1\ngates 2\nH q0\nMeasX q1,c0\n".as_slice();
    let mut out = MemSink::new(rt.alloc(), 100, 100)?;
    assert!(rt; write_flat(2, 1, &gates, &mut out).is_ok());
    assert_eq!(rt; out.written(), want);
    let mut head = MemSink::new(rt.alloc(), 100, 100)?;
    assert!(rt; write_header(0, 3, 4_294_967_296, &mut head).is_ok());
    assert_eq!(rt;
        head.written(),
        b"flat 1\nqbits 0\ncbits 3\ngates 4294967296\n".as_slice()
    );
    let mut small = MemSink::new(rt.alloc(), 100, 9)?;
    assert!(rt; write_flat(2, 1, &gates, &mut small).is_err());
    assert!(rt; want.starts_with(small.written()));
    Ok(())
}
