//! Probes are dropped, whatever the answer, and only those that are there tell a line.
use crate::requests::{REFUSED, REQUESTS, carry_with, failing_sink, shelf, sink};
use sc_base::{MemSink, Memory, Text};
use sc_gate::Gate;
use sc_probe::{KindsProbe, Probe, ReachProbe, Rule};
use std::alloc::Global;
use std::cell::Cell;
use std::process::Abort;
use std::rc::Rc;
use std::test::Fail;

/// A probe that adds 1 to a shared number when it is dropped.
struct Counted<P: Probe> {
    probe: P,
    drops: Rc<Cell<u32>>,
}

impl<P: Probe> Drop for Counted<P> {
    fn drop(self) {
        let Counted { probe: _, drops } = self;
        drops.set(drops.get().saturating_add(1));
    }
}

impl<P: Probe> Probe for Counted<P> {
    ghost rule = { λ counted. P.rule counted.probe };

    ghost state = { λ counted. P.state counted.probe };

    fn rule(&self) -> Rule {
        self.probe.rule()
    }

    fn see(&mut self, gate: &Gate) {
        self.probe.see(gate);
    }

    fn report(&self, alloc: Global) -> Result<Text, Memory> {
        self.probe.report(alloc)
    }
}

/// Hands two probes in, one of a rule that words can ask for by `--kinds` and one of another rule, over an output that fails
/// at a call. Answers the status, and how many of them were dropped.
fn drops(alloc: Global, request: &[&str], call: u64) -> Result<(u8, u32), Fail> {
    let drops = Rc::new(alloc, Cell::new(0))?;
    let mut probes: Vec<Box<dyn Probe>> = Vec::new(alloc);
    probes.push(Box::new(
        alloc,
        Counted {
            probe: KindsProbe::new(),
            drops: drops.clone()?,
        },
    )?)?;
    probes.push(Box::new(
        alloc,
        Counted {
            probe: ReachProbe::new(),
            drops: drops.clone()?,
        },
    )?)?;
    let (mut out, mut err) = (failing_sink(alloc, call)?, sink(alloc)?);
    let status = carry_with(
        alloc,
        request,
        probes,
        &mut shelf(alloc)?,
        &mut out,
        &mut err,
    )?;
    Ok((status, drops.get()))
}

#[test]
fn probes_are_dropped_by_each_mode(rt: HostRuntime) -> Result<(), Fail> {
    for (request, _) in REQUESTS {
        assert_eq!(rt;
            drops(rt.alloc(), request, 1_000_000)?,
            (0, 2),
            "{request:?}"
        );
        assert_eq!(rt; drops(rt.alloc(), request, 3)?, (7, 2), "{request:?}");
    }
    assert_eq!(rt; drops(rt.alloc(), &["drill", "3"], 1_000_000)?, (0, 2));
    Ok(())
}

#[test]
fn probes_are_dropped_by_each_refusal(rt: HostRuntime) -> Result<(), Fail> {
    for (request, _, status) in REFUSED {
        assert_eq!(rt;
            drops(rt.alloc(), request, 1_000_000)?,
            (status, 2),
            "{request:?}"
        );
    }
    Ok(())
}

/// What `flat` with two probes asked for writes, where so many of one rule are handed in and none of the other.
fn told(alloc: Global, count: u32) -> Result<MemSink, Fail> {
    let mut probes: Vec<Box<dyn Probe>> = Vec::new(alloc);
    for _ in 0..count {
        probes.push(Box::new(alloc, KindsProbe::new())?)?;
    }
    let (mut out, mut err) = (sink(alloc)?, sink(alloc)?);
    let request = ["flat", "--kinds", "--reach", "p"].as_slice();
    carry_with(
        alloc,
        request,
        probes,
        &mut shelf(alloc)?,
        &mut out,
        &mut err,
    )?;
    Ok(out)
}

#[test]
fn each_probe_of_a_rule_tells(rt: HostRuntime) -> Result<(), Fail> {
    const GATES: &str = "flat 1\nqbits 2\ncbits 0\ngates 2\nH q0\nCNOT q0,q1\n";
    const LINE: &str = "# kinds H=1 CNOT=1\n";
    for count in 0..3 {
        let mut want = String::new(rt.alloc());
        want.push_str(GATES)?;
        for _ in 0..count {
            want.push_str(LINE)?;
        }
        let out = told(rt.alloc(), count)?;
        assert_eq!(rt; out.written(), want.as_bytes());
    }
    Ok(())
}
