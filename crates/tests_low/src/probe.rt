//! Observers of gate lists.
use sc_base::{Memory, Text};
use sc_gate::{Gate, Kind, Wire};
use sc_probe::{BurstProbe, KindsProbe, Probe, ReachProbe, WindowProbe, report_all, show_all};
use sc_tables::toffoli;
use std::alloc::Global;
use std::test::Fail;

/// The text of an observer that has seen these gates.
fn text_of<P: Probe>(alloc: Global, mut probe: P, gates: &[Gate]) -> Result<Text, Memory> {
    for gate in gates {
        probe.see(gate);
    }
    probe.report(alloc)
}

/// Three H on a fresh qubit and a CNOT from it to q0, twice.
fn two_calls() -> [Gate; 8] {
    let (q0, q1, q2) = (Wire::qubit(0), Wire::qubit(1), Wire::qubit(2));
    let (first, second) = (Gate::one(Kind::H, q1), Gate::one(Kind::H, q2));
    let to_first = Gate::two(Kind::Cnot, q1, q0);
    let to_second = Gate::two(Kind::Cnot, q2, q0);
    [
        first, first, first, to_first, second, second, second, to_second,
    ]
}

#[test]
fn kinds(rt: HostRuntime) -> Result<(), Fail> {
    let list = toffoli(Wire::qubit(0), Wire::qubit(1), Wire::qubit(2));
    for (gates, want) in [
        ([].as_slice(), b"kinds".as_slice()),
        (&list, b"kinds H=2 T=4 Tdag=3 CNOT=6"),
        (&two_calls(), b"kinds H=6 CNOT=2"),
    ] {
        let text = text_of(rt.alloc(), KindsProbe::new(), gates)?;
        assert_eq!(rt; text.as_bytes(), want);
    }
    Ok(())
}

#[test]
fn burst(rt: HostRuntime) -> Result<(), Fail> {
    let list = toffoli(Wire::qubit(0), Wire::qubit(1), Wire::qubit(2));
    for (gates, want) in [
        ([].as_slice(), b"burst 0".as_slice()),
        (&list, b"burst 2 T 8"),
        (&two_calls(), b"burst 3 H 0"),
    ] {
        let text = text_of(rt.alloc(), BurstProbe::new(), gates)?;
        assert_eq!(rt; text.as_bytes(), want);
    }
    Ok(())
}

#[test]
fn window(rt: HostRuntime) -> Result<(), Fail> {
    let list = toffoli(Wire::qubit(0), Wire::qubit(1), Wire::qubit(2));
    let marked = [Gate::one(Kind::Tdag, Wire::qubit(0)); 20];
    for (gates, want) in [
        ([].as_slice(), b"window 0".as_slice()),
        (&list, b"window 7"),
        (&two_calls(), b"window 0"),
        (&marked, b"window 16"),
    ] {
        let text = text_of(rt.alloc(), WindowProbe::new(), gates)?;
        assert_eq!(rt; text.as_bytes(), want);
    }
    Ok(())
}

#[test]
fn reach(rt: HostRuntime) -> Result<(), Fail> {
    let list = toffoli(Wire::qubit(0), Wire::qubit(1), Wire::qubit(2));
    let measured = [Gate::two(Kind::MeasZ, Wire::qubit(1), Wire::cbit(9))];
    for (gates, want) in [
        ([].as_slice(), b"reach 0".as_slice()),
        (&list, b"reach 2 3"),
        (&two_calls(), b"reach 2 7"),
        (&measured, b"reach 0"),
    ] {
        let text = text_of(rt.alloc(), ReachProbe::new(), gates)?;
        assert_eq!(rt; text.as_bytes(), want);
    }
    Ok(())
}

#[test]
fn two_of_one_rule(rt: HostRuntime) -> Result<(), Fail> {
    let alloc = rt.alloc();
    let mut probes: Vec<Box<dyn Probe>> = Vec::new(alloc);
    probes.push(Box::new(alloc, KindsProbe::new())?)?;
    probes.push(Box::new(alloc, KindsProbe::new())?)?;
    show_all(&two_calls(), probes.as_mut_slice());
    let texts = report_all(alloc, probes.as_slice())?;
    assert_eq!(rt; texts.len(), 2);
    for text in texts.as_slice() {
        assert_eq!(rt; text.as_bytes(), b"kinds H=6 CNOT=2".as_slice());
    }
    Ok(())
}
