//! Sinks that fail while a flat text is written.
use crate::expanding::{Refusal, expand};
use crate::texts::{FLAT, REPEATED};
use sc_base::MemSink;
use sc_probe::{KindsProbe, Probe, report_all};
use std::alloc::Global;
use std::process::Abort;
use std::test::Fail;

/// One probe that counts kinds.
fn kinds(alloc: Global) -> Result<Vec<Box<dyn Probe>>, Fail> {
    let mut probes: Vec<Box<dyn Probe>> = Vec::new(alloc);
    probes.push(Box::new(alloc, KindsProbe::new())?)?;
    Ok(probes)
}

/// Sees that there is one probe, and that it tells this.
fn assert_told(
    rt: &impl Abort,
    alloc: Global,
    probes: &[Box<dyn Probe>],
    want: &str,
) -> Result<(), Fail> {
    let told = report_all(alloc, probes)?;
    let texts = told.as_slice();
    assert_eq!(rt; texts.len(), 1);
    assert_eq!(rt; texts[0].as_bytes(), want.as_bytes());
    Ok(())
}

/// A sink that takes one byte a call and fails at some call has the bytes before it.
#[test]
fn a_fault_at_any_call(rt: HostRuntime) -> Result<(), Fail> {
    for written in 0..FLAT.len() {
        let mut out = MemSink::new(rt.alloc(), 1, 200)?;
        out.fail_at(written as u64 + 1)?;
        let mut none: Vec<Box<dyn Probe>> = Vec::new(rt.alloc());
        let answer = expand(rt.alloc(), REPEATED, 8, &mut out, none.as_mut_slice());
        assert_eq!(rt; answer, Err(Refusal::Write));
        assert_eq!(rt; out.written(), &FLAT[..written]);
    }
    Ok(())
}

/// A sink that is full has a front of the text, and a probe has seen the gates of the whole lines, and at most one more.
#[test]
fn a_fault_in_a_line(rt: HostRuntime) -> Result<(), Fail> {
    for (room, front, seen) in [
        (0, "", "kinds"),
        (20, "flat 1\nqbits 3\ncbits", "kinds"),
        (31, "flat 1\nqbits 3\ncbits 0\ngates 8\n", "kinds H=1"),
        (34, "flat 1\nqbits 3\ncbits 0\ngates 8\nH q", "kinds H=1"),
        (
            46,
            "flat 1\nqbits 3\ncbits 0\ngates 8\nH q1\nH q1\nH q1\n",
            "kinds H=3 CNOT=1",
        ),
    ] {
        let mut out = MemSink::new(rt.alloc(), 100, room)?;
        let mut probes = kinds(rt.alloc())?;
        let answer = expand(rt.alloc(), REPEATED, 8, &mut out, probes.as_mut_slice());
        assert_eq!(rt; answer, Err(Refusal::Write));
        assert_eq!(rt; out.written(), front.as_bytes());
        assert_told(&rt, rt.alloc(), probes.as_slice(), seen)?;
    }
    Ok(())
}

/// The gates of 2^63 turns are not listed first: a fault in the header, and one at the third gate, come at once.
#[test]
fn a_fault_comes_at_once(rt: HostRuntime) -> Result<(), Fail> {
    let text =
        b"hier 2\nmodule 0 f(q)\nH q0\nend\nmodule 1 main()\nqbit 1\nrepeat 9223372036854775808 call 0 q0\nend\n".as_slice();
    let mut third = MemSink::new(rt.alloc(), 1, 200)?;
    third.fail_at(3)?;
    let mut probes = kinds(rt.alloc())?;
    let answer = expand(
        rt.alloc(),
        text,
        u64::MAX,
        &mut third,
        probes.as_mut_slice(),
    );
    assert_eq!(rt; answer, Err(Refusal::Write));
    assert_eq!(rt; third.written(), b"fl".as_slice());
    let mut small = MemSink::new(rt.alloc(), 100, 60)?;
    let answer = expand(
        rt.alloc(),
        text,
        u64::MAX,
        &mut small,
        probes.as_mut_slice(),
    );
    assert_eq!(rt; answer, Err(Refusal::Write));
    let front = b"flat 1\nqbits 1\ncbits 0\ngates 9223372036854775808\nH q0\nH q0\nH".as_slice();
    assert_eq!(rt; small.written(), front);
    assert_told(&rt, rt.alloc(), probes.as_slice(), "kinds H=3")
}
