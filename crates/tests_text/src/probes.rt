//! What probes tell of the gates of a deck.
use crate::expanding::expand;
use crate::texts::{EMPTY, REPEATED};
use sc_base::{List, MemSink, Text};
use sc_probe::{BurstProbe, KindsProbe, Probe, ReachProbe, WindowProbe, report_all};
use std::alloc::Global;
use std::process::Abort;
use std::test::Fail;

/// One of each rule, and one of the first rule once more.
fn all_probes(alloc: Global) -> Result<Vec<Box<dyn Probe>>, Fail> {
    let mut probes: Vec<Box<dyn Probe>> = Vec::new(alloc);
    probes.push(Box::new(alloc, KindsProbe::new())?)?;
    probes.push(Box::new(alloc, BurstProbe::new())?)?;
    probes.push(Box::new(alloc, WindowProbe::new())?)?;
    probes.push(Box::new(alloc, ReachProbe::new())?)?;
    probes.push(Box::new(alloc, KindsProbe::new())?)?;
    Ok(probes)
}

/// What these probes tell of the gates of a text's deck.
fn told(alloc: Global, text: &[u8]) -> Result<List<Text>, Fail> {
    let mut probes = all_probes(alloc)?;
    let mut out = MemSink::new(alloc, 100, 1000)?;
    match expand(alloc, text, 100, &mut out, probes.as_mut_slice()) {
        Ok(()) => Ok(report_all(alloc, probes.as_slice())?),
        Err(_) => Err("no flat text")?,
    }
}

/// Sees that the texts are these, and the last of them once more the first.
fn assert_told(rt: &impl Abort, texts: &[Text], want: [&str; 4]) {
    assert_eq!(rt; texts.len(), 5);
    for (text, want) in texts.iter().zip(want.iter()) {
        assert_eq!(rt; text.as_bytes(), want.as_bytes());
    }
    assert_eq!(rt; texts[4].as_bytes(), texts[0].as_bytes());
}

#[test]
fn probes_of_calls(rt: HostRuntime) -> Result<(), Fail> {
    let texts = told(rt.alloc(), REPEATED)?;
    assert_told(
        &rt,
        texts.as_slice(),
        ["kinds H=6 CNOT=2", "burst 3 H 0", "window 0", "reach 2 7"],
    );
    let texts = told(rt.alloc(), EMPTY)?;
    assert_told(
        &rt,
        texts.as_slice(),
        ["kinds", "burst 0", "window 0", "reach 0"],
    );
    Ok(())
}

#[test]
fn probes_of_gates(rt: HostRuntime) -> Result<(), Fail> {
    for (text, want) in [
        (
            "hier 1\nmodule 0 main()\nqbit 3\nH q2\nCNOT q1,q2\nTdag q2\nCNOT q0,q2\nT q2\nCNOT q1,q2\nTdag q2\nCNOT q0,q2\nT q1\nT q2\nCNOT q0,q1\nT q0\nTdag q1\nCNOT q0,q1\nH q2\nend\n",
            [
                "kinds H=2 T=4 Tdag=3 CNOT=6",
                "burst 2 T 8",
                "window 7",
                "reach 2 3",
            ],
        ),
        (
            "hier 2\nmodule 0 main()\nqbit 1\nrepeat 17 T q0\nend\n",
            ["kinds T=17", "burst 17 T 0", "window 16", "reach 0"],
        ),
        (
            "hier 2\nmodule 0 main()\nqbit 1\nT q0\nrepeat 14 X q0\nTdag q0\nY q0\nT q0\nend\n",
            [
                "kinds X=14 Y=1 T=2 Tdag=1",
                "burst 14 X 1",
                "window 2",
                "reach 0",
            ],
        ),
        (
            "hier 1\nmodule 0 main()\nqbit 50\nCNOT q0,q1\nCNOT q49,q3\nCNOT q2,q48\nend\n",
            ["kinds CNOT=3", "burst 3 CNOT 0", "window 0", "reach 46 1"],
        ),
        (
            "hier 2\nmodule 0 main()\nqbit 1\nX q0\nrepeat 2 H q0\nrepeat 2 S q0\nH q0\nend\n",
            ["kinds X=1 H=3 S=2", "burst 2 H 1", "window 0", "reach 0"],
        ),
        (
            "hier 1\nmodule 0 main()\nqbit 1\ncbit 9\nMeasZ q0,c8\nend\n",
            ["kinds MeasZ=1", "burst 1 MeasZ 0", "window 0", "reach 0"],
        ),
    ] {
        let texts = told(rt.alloc(), text.as_bytes())?;
        assert_told(&rt, texts.as_slice(), want);
    }
    Ok(())
}
