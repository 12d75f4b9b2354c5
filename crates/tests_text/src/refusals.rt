//! Hierarchical texts that have no flat text.
use crate::expanding::{Refusal, expand};
use crate::texts::REPEATED;
use sc_base::MemSink;
use sc_flat::PrepFault;
use sc_probe::Probe;
use sc_read::HierFault;
use std::alloc::Global;
use std::test::Fail;

/// The refusal, with nothing written; or none.
fn refusal(alloc: Global, text: &[u8], limit: u64) -> Result<Option<Refusal>, Fail> {
    let mut out = MemSink::new(alloc, 100, 1000)?;
    let mut none: Vec<Box<dyn Probe>> = Vec::new(alloc);
    match expand(alloc, text, limit, &mut out, none.as_mut_slice()) {
        Ok(()) => Ok(None),
        Err(_) if !out.written().is_empty() => Err("written at a refusal")?,
        Err(refusal) => Ok(Some(refusal)),
    }
}

#[test]
fn wires_pass_the_greatest_number(rt: HostRuntime) -> Result<(), Fail> {
    let many = Some(Refusal::Prepare(PrepFault::TooManyWires));
    for (text, answer) in [
        (
            "hier 2\nmodule 0 g(q)\nqbit 1\nrepeat 3 H q1\nCNOT q1,q0\nend\nmodule 1 main()\nqbit 1\nrepeat 5000000000 call 0 q0\nend\n",
            many,
        ),
        (
            "hier 2\nmodule 0 f()\nqbit 1\nend\nmodule 1 main()\nrepeat 4294967295 call 0\nend\n",
            None,
        ),
        (
            "hier 2\nmodule 0 f()\nqbit 1\nend\nmodule 1 main()\nrepeat 4294967296 call 0\nend\n",
            many,
        ),
        (
            "hier 2\nmodule 0 f()\ncbit 1\nend\nmodule 1 main()\nrepeat 4294967296 call 0\nend\n",
            many,
        ),
        (
            "hier 2\nmodule 0 f()\ncbit 1\nqbit 1\nend\nmodule 1 main()\nrepeat 4294967295 call 0\nend\n",
            None,
        ),
    ] {
        let found = refusal(rt.alloc(), text.as_bytes(), u64::MAX)?;
        assert_eq!(rt; found, answer);
    }
    Ok(())
}

#[test]
fn the_limit_on_gates_is_within(rt: HostRuntime) -> Result<(), Fail> {
    let many = Some(Refusal::Prepare(PrepFault::TooManyGates));
    for (limit, answer) in [(8, None), (7, many), (0, many), (u64::MAX, None)] {
        assert_eq!(rt; refusal(rt.alloc(), REPEATED, limit)?, answer);
    }
    Ok(())
}

/// Wires are counted before gates, and the text is read before both.
#[test]
fn the_first_refusal_counts(rt: HostRuntime) -> Result<(), Fail> {
    for (text, answer) in [
        (
            "hier 2\nmodule 0 f(q)\nqbit 1\nH q1\nend\nmodule 1 main()\nqbit 1\nrepeat 4294967296 call 0 q0\nend\n",
            Refusal::Prepare(PrepFault::TooManyWires),
        ),
        (
            "hier 2\nmodule 0 f(q)\nH q0\nend\nmodule 1 main()\nqbit 1\nrepeat 4294967296 call 0 q0\nend\n",
            Refusal::Prepare(PrepFault::TooManyGates),
        ),
        (
            "hier 2\nmodule 0 f(q)\nH q0\nend\nmodule 1 main()\nqbit 1\nrepeat 4294967296 call 0 q0\n",
            Refusal::Read(HierFault::BadQasm(8)),
        ),
    ] {
        let found = refusal(rt.alloc(), text.as_bytes(), 100)?;
        assert_eq!(rt; found, Some(answer));
    }
    Ok(())
}
