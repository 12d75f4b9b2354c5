//! Requests over texts in memory.
ghost use Rattle.std.specs.Prelude.{◌≡◌, false, IfOk};

use sc_base::{MemShelf, MemSink, Sink};
use sc_probe::{BurstProbe, KindsProbe, Probe, ReachProbe, WindowProbe};
use sc_top::run;
use std::alloc::Global;
use std::rc::RcStr;
use std::test::Fail;

/// Room for any of the texts below, and for what is written of them.
pub const ROOM: usize = 2000;

const PAIR: &str = "int main() { qbit q[2]; H(q[0]); CNOT(q[0],q[1]); return 0; }\n";

const TOFFOLI: &str = "int main() { qbit q[3]; Toffoli(q[0],q[1],q[2]); }\n";

const PAIRS: &str = "hier 2\nmodule 0 main()\nqbit 2\nrepeat 2 H q0\nCNOT q0,q1\nend\n";

const FLAT: &str = "flat 1\nqbits 1\ncbits 0\ngates 1\nH q0\n";

const SCHEDULE: &str = "sched 1\nregions 1\nwidth 1\ngates 1\nsteps 1\nstep\nregion 0\nend\n";

const OPENED: &str =
    "OPENQASM 2.0;\ninclude \"qelib1.inc\";\nqreg q[1];\ncreg u[1];\nh q[0];\nmeasure q[0] -> u[0];\n";

/// A request of each mode that reads a text and writes one, and how many texts it reads.
pub const REQUESTS: [(&[&str], u64); 11] = [
    (&["hier", "t"], 1),
    (&["flat", "p"], 1),
    (
        &["flat", "--kinds", "--burst", "--window", "--reach", "t"],
        1,
    ),
    (&["count", "--times", "H=3", "t"], 1),
    (&["schedule", "--regions", "1", "--width", "2", "t"], 1),
    (&["coarse", "--regions", "1", "--width", "2", "t"], 1),
    (&["expand", "h"], 1),
    (&["check", "f", "s"], 2),
    (&["open", "t"], 1),
    (&["reopen", "o"], 1),
    (&["cancel", "--kinds", "t"], 1),
];

/// Requests that are refused, with the fault line and the status.
pub const REFUSED: [(&[&str], &str, u8); 8] = [
    (&["flat"], "scaff: Usage\n", 2),
    (&["flat", "none"], "scaff: ReadFault\n", 3),
    (&["flat", "--kinds", "e"], "scaff: NoMain\n", 1),
    (&["cancel", "--kinds", "h"], "scaff: 1:1: Syntax\n", 1),
    (&["expand", "p"], "scaff: line 1: BadQasm\n", 1),
    (
        &["flat", "--kinds", "--limit", "1", "p"],
        "scaff: TooManyGates\n",
        5,
    ),
    (
        &["schedule", "--regions", "1", "--width", "1", "p"],
        "scaff: Narrow 1\n",
        2,
    ),
    (
        &["coarse", "--regions", "1", "--width", "1", "p"],
        "scaff: NarrowItem 0 2\n",
        2,
    ),
];

/// The words as the top call takes them.
pub fn words(alloc: Global, texts: &[&str]) -> Result<Vec<RcStr>, Fail> {
    let mut words = Vec::new(alloc);
    for text in texts {
        words.push(RcStr::from_str(alloc, *text)?)?;
    }
    Ok(words)
}

/// A shelf with two sources, an empty source, a hierarchical text, a flat text, a schedule and an OpenQASM text.
pub fn shelf(alloc: Global) -> Result<MemShelf, Fail> {
    let mut shelf = MemShelf::new(alloc);
    for (name, text) in [
        ("p", PAIR),
        ("t", TOFFOLI),
        ("e", ""),
        ("h", PAIRS),
        ("f", FLAT),
        ("s", SCHEDULE),
        ("o", OPENED),
    ] {
        shelf.put(name.as_bytes(), text.as_bytes())?;
    }
    Ok(shelf)
}

/// A sink that takes whole pieces.
pub fn sink(alloc: Global) -> Result<MemSink, Fail>
    ensures { IfOk result (λ sink. sink.is_ended ≡ false) }
{
    Ok(MemSink::new(alloc, ROOM, ROOM)?)
}

/// A sink that takes a byte a call and fails at one call.
pub fn failing_sink(alloc: Global, call: u64) -> Result<MemSink, Fail>
    ensures { IfOk result (λ sink. sink.is_ended ≡ false) }
{
    let mut sink = MemSink::new(alloc, 1, ROOM)?;
    sink.fail_at(call)?;
    Ok(sink)
}

/// Carries out a request with these probes, and answers the status.
pub fn carry_with<O: Sink, E: Sink>(
    alloc: Global,
    request: &[&str],
    probes: Vec<Box<dyn Probe>>,
    shelf: &mut MemShelf,
    out: &mut O,
    err: &mut E,
) -> Result<u8, Fail>
    requires out_open { O.is_ended out.old ≡ false }
    requires err_open { E.is_ended err.old ≡ false }
{
    let words = words(alloc, request)?;
    Ok(run(alloc, &words, shelf, out, err, probes).code())
}

/// Carries out a request with a probe of each rule, as the program does, and answers the status.
pub fn carry<O: Sink, E: Sink>(
    alloc: Global,
    request: &[&str],
    shelf: &mut MemShelf,
    out: &mut O,
    err: &mut E,
) -> Result<u8, Fail>
    requires out_open { O.is_ended out.old ≡ false }
    requires err_open { E.is_ended err.old ≡ false }
{
    let mut probes: Vec<Box<dyn Probe>> = Vec::new(alloc);
    probes.push(Box::new(alloc, KindsProbe::new())?)?;
    probes.push(Box::new(alloc, BurstProbe::new())?)?;
    probes.push(Box::new(alloc, WindowProbe::new())?)?;
    probes.push(Box::new(alloc, ReachProbe::new())?)?;
    carry_with(alloc, request, probes, shelf, out, err)
}
