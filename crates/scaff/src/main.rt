//! `scaff`: the command over the files and the standard streams.
#![tactic(auto)]

use sc_base::{RealShelf, RealSink};
use sc_probe::{BurstProbe, KindsProbe, Probe, ReachProbe, WindowProbe};
use sc_top::{Status, run};
use std::alloc::Global;
use std::env;
use std::io::ErrorKind;
use std::process::ExitCode;
use std::rc::RcStr;

/// The words after the program's name. `Usage`: a word is not UTF-8. `Memory`: there was none for the words.
fn read_args(rt: &HostRuntime) -> Result<Vec<RcStr>, Status> {
    let args = env::args(rt).map_err(|error| match error.kind() {
        ErrorKind::InvalidData => Status::Usage,
        _ => Status::Memory,
    })?;
    let mut words = Vec::new(rt.alloc());
    for word in args.skip(1) {
        let word = RcStr::from_string(word).map_err(|_| Status::Memory)?;
        words.push(word).map_err(|_| Status::Memory)?;
    }
    Ok(words)
}

/// A probe on the heap.
fn boxed<P: Probe>(alloc: Global, probe: P) -> Result<Box<P>, Status> {
    Box::new(alloc, probe).map_err(|_| Status::Memory)
}

/// Carries out the words over the real shelf and sinks, with a new probe of each rule.
fn serve(rt: HostRuntime) -> Result<Status, Status> {
    let words = read_args(&rt)?;
    let alloc = rt.alloc();
    let mut probes: Vec<Box<dyn Probe>> = Vec::new(alloc);
    probes
        .push(boxed(alloc, KindsProbe::new())?)
        .map_err(|_| Status::Memory)?;
    probes
        .push(boxed(alloc, BurstProbe::new())?)
        .map_err(|_| Status::Memory)?;
    probes
        .push(boxed(alloc, WindowProbe::new())?)
        .map_err(|_| Status::Memory)?;
    probes
        .push(boxed(alloc, ReachProbe::new())?)
        .map_err(|_| Status::Memory)?;
    let mut out = RealSink::new(alloc, rt.stdout()).map_err(|_| Status::Memory)?;
    let mut err = RealSink::new(alloc, rt.stderr()).map_err(|_| Status::Memory)?;
    let mut shelf = RealShelf::new(rt);
    Ok(run(alloc, &words, &mut shelf, &mut out, &mut err, probes))
}

fn main(rt: HostRuntime) -> ExitCode {
    let (Ok(status) | Err(status)) = serve(rt);
    ExitCode::from(status.code())
}
