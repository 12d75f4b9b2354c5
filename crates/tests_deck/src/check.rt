//! Breaches of schedules, and schedule texts that are read and written.
use crate::gates::{cnot, single};
use sc_base::MemSink;
use sc_check::{Finding, SchedReadFault, read_schedule, verdict};
use sc_gate::{Gate, Kind};
use sc_sched::write_schedule;
use std::alloc::Global;
use std::test::Fail;

fn found(alloc: Global, gates: &[Gate], text: &[u8]) -> Result<Finding, Fail> {
    if gates.len() > 100 || text.len() > 1000 {
        return Err("long".into());
    }
    let s = read_schedule(alloc, text, gates.len() as u32)?;
    Ok(verdict(alloc, gates, &s)?)
}

#[test]
fn breaches_of_a_pair(rt: HostRuntime) -> Result<(), Fail> {
    let pair = [single(Kind::H, 0), cnot(0, 1)];
    for (text, finding) in [
        (
            b"sched 1\nregions 1\nwidth 2\ngates 2\nsteps 2\nstep\nregion 0\nstep\nregion 0 1\nend\n".as_slice(),
            Finding::Twice(0),
        ),
        (
            b"sched 1\nregions 1\nwidth 2\ngates 2\nsteps 2\nstep\nregion 1\nstep\nregion 0\nend\n".as_slice(),
            Finding::Early(1),
        ),
        (
            b"sched 1\nregions 1\nwidth 2\ngates 2\nsteps 1\nstep\nregion 0\nend\n".as_slice(),
            Finding::Missing(1),
        ),
        (
            b"sched 1\nregions 1\nwidth 2\ngates 2\nsteps 3\nstep\nregion 0\nstep\nstep\nregion 1\nend\n".as_slice(),
            Finding::Legal,
        ),
    ] {
        assert_eq!(rt; found(rt.alloc(), &pair, text)?, finding);
    }
    Ok(())
}

#[test]
fn breaches_of_regions(rt: HostRuntime) -> Result<(), Fail> {
    let four = [
        single(Kind::H, 0),
        single(Kind::H, 1),
        single(Kind::H, 2),
        single(Kind::H, 3),
    ];
    let mixed = [
        single(Kind::X, 0),
        single(Kind::H, 1),
        single(Kind::H, 1),
        single(Kind::H, 1),
    ];
    let wide =
        b"sched 1\nregions 1\nwidth 2\ngates 4\nsteps 1\nstep\nregion 0 1 2 3\nend\n".as_slice();
    assert_eq!(rt; found(rt.alloc(), &four, wide)?, Finding::TooWideRegion(1));
    let crowded =
        b"sched 1\nregions 1\nwidth 2\ngates 4\nsteps 1\nstep\nregion 0 1\nregion 2 3\nend\n".as_slice();
    assert_eq!(rt;
        found(rt.alloc(), &four, crowded)?,
        Finding::TooManyRegions(1)
    );
    let kinds =
        b"sched 1\nregions 1\nwidth 2\ngates 4\nsteps 3\nstep\nregion 0 1\nstep\nregion 2\nstep\nregion 3\nend\n".as_slice();
    assert_eq!(rt; found(rt.alloc(), &mixed, kinds)?, Finding::MixedKinds(1));
    Ok(())
}

#[test]
fn texts_in_and_out(rt: HostRuntime) -> Result<(), Fail> {
    let text =
        b"sched 1\nregions 1\nwidth 2\ngates 4\nsteps 2\nstep\nregion 0 1\nstep\nregion 2 3\nend\n".as_slice();
    let s = read_schedule(rt.alloc(), text, 4)?;
    let mut sink = MemSink::new(rt.alloc(), 5, 100)?;
    write_schedule(&s, &mut sink)?;
    assert_eq!(rt; sink.written(), text);
    let wrong_gates = b"sched 1\nregions 1\nwidth 2\ngates 3\nsteps 0\nend\n".as_slice();
    let Err(fault) = read_schedule(rt.alloc(), wrong_gates, 2) else {
        return Err("read".into());
    };
    assert_eq!(rt; fault, SchedReadFault::BadSchedule(4));
    Ok(())
}
