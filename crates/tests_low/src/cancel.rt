//! Gate lists without the pairs that undo each other.
ghost use Rattle.std.specs.Prelude.{IsTrue, IfOk, ◌<◌, length};
ghost use Rattle.std.specs.List.{AllByRecursion};
ghost use Rattle.sc_gate.specs.Gates.{AreWellFormed};

use sc_base::{List as Items, MemSink};
use sc_cancel::{cancel, show, write_kept};
use sc_gate::{Gate, Kind, Wire, well_formed};
use sc_probe::{KindsProbe, Probe, report_all};
use std::alloc::Global;
use std::test::Fail;

fn q(number: u32) -> Wire {
    Wire::qubit(number)
}

fn one(kind: Kind, number: u32) -> Gate {
    Gate::one(kind, q(number))
}

fn cnot(control: u32, target: u32) -> Gate {
    Gate::two(Kind::Cnot, q(control), q(target))
}

/// Whether all gates are well formed.
fn are_well_formed(gates: &[Gate]) -> bool
    ensures { IsTrue result → AreWellFormed gates.now }
{
    for gate in gates {
        let formed = well_formed(gate);
        if !formed {
            return false;
        }
    }
    true
}

/// The positions that stay of a few well-formed gates.
fn kept_of(alloc: Global, gates: &[Gate]) -> Result<Items<u32>, Fail>
    ensures { IfOk result (λ kept. AllByRecursion (λ p. p < length gates.now) kept) }
{
    if gates.len() > 100 || !are_well_formed(gates) {
        return Err("gates".into());
    }
    Ok(cancel(alloc, gates)?)
}

#[test]
fn pairs(rt: HostRuntime) -> Result<(), Fail> {
    let high = u32::MAX - 1;
    for (gates, want) in [
        ([].as_slice(), [].as_slice()),
        (&[one(Kind::H, 0), one(Kind::X, 1), one(Kind::H, 0)], &[1]),
        (&[one(Kind::S, 0), one(Kind::S, 0)], &[0, 1]),
        (&[one(Kind::T, high), one(Kind::Tdag, high)], &[]),
        (&[cnot(0, 1), cnot(1, 0)], &[0, 1]),
        (&[cnot(0, 1), one(Kind::X, 1), cnot(0, 1)], &[0, 1, 2]),
        (
            &[one(Kind::X, 0), cnot(0, 1), cnot(0, 1), one(Kind::X, 0)],
            &[],
        ),
    ] {
        let kept = kept_of(rt.alloc(), gates)?;
        assert_eq!(rt; kept.as_slice(), want);
    }
    Ok(())
}

/// H, X, H, CNOT, S, Sdag, CNOT and T, of which X and T stay.
fn example() -> [Gate; 8] {
    [
        one(Kind::H, 0),
        one(Kind::X, 1),
        one(Kind::H, 0),
        cnot(0, 1),
        one(Kind::S, 0),
        one(Kind::Sdag, 0),
        cnot(0, 1),
        one(Kind::T, 1),
    ]
}

#[test]
fn text(rt: HostRuntime) -> Result<(), Fail> {
    let gates = example();
    let kept = kept_of(rt.alloc(), &gates)?;
    let mut out = MemSink::new(rt.alloc(), 200, 200)?;
    write_kept(2, 0, &gates, kept.as_slice(), &mut out)?;
    assert_eq!(rt;
        out.written(),
        b"flat 1\nqbits 2\ncbits 0\ngates 2\nX q1\nT q1\n".as_slice()
    );
    Ok(())
}

#[test]
fn observers(rt: HostRuntime) -> Result<(), Fail> {
    let alloc = rt.alloc();
    let gates = example();
    let kept = kept_of(alloc, &gates)?;
    let mut probes: Vec<Box<dyn Probe>> = Vec::new(alloc);
    probes.push(Box::new(alloc, KindsProbe::new())?)?;
    show(&gates, kept.as_slice(), probes.as_mut_slice());
    let texts = report_all(alloc, probes.as_slice())?;
    for text in texts.as_slice() {
        assert_eq!(rt; text.as_bytes(), b"kinds X=1 T=1".as_slice());
    }
    Ok(())
}
