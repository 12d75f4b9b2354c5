//! Flat texts of decks that are read from hierarchical texts.
use crate::expanding::expand;
use crate::texts::{EMPTY, FLAT, PLAIN, REPEATED};
use sc_base::MemSink;
use sc_count::tally_deck;
use sc_flat::prepare;
use sc_gate::{Gate, Kind, Times, Wire};
use sc_probe::Probe;
use sc_read::read_hier;
use std::alloc::Global;
use std::test::Fail;

/// The flat text, shown to no probe.
fn flat_of(alloc: Global, text: &[u8]) -> Result<MemSink, Fail> {
    let mut out = MemSink::new(alloc, 100, 1000)?;
    let mut none: Vec<Box<dyn Probe>> = Vec::new(alloc);
    match expand(alloc, text, u64::MAX, &mut out, none.as_mut_slice()) {
        Ok(()) => Ok(out),
        Err(_) => Err("no flat text")?,
    }
}

#[test]
fn calls_are_written_out(rt: HostRuntime) -> Result<(), Fail> {
    for text in [REPEATED, PLAIN] {
        assert_eq!(rt; flat_of(rt.alloc(), text)?.written(), FLAT);
    }
    let empty = b"flat 1\nqbits 0\ncbits 0\ngates 0\n".as_slice();
    assert_eq!(rt; flat_of(rt.alloc(), EMPTY)?.written(), empty);
    Ok(())
}

/// Parameters, fresh wires of both classes before and behind calls, and values.
#[test]
fn wires_are_numbered_by_calls(rt: HostRuntime) -> Result<(), Fail> {
    for (text, flat) in [
        (
            "hier 1\nmodule 0 f(q,c,q[2],c[3],-7,0.500000000000,-0.000000000001)\nX q2\nMeasX q0,c3\nend\nmodule 1 main()\nqbit 3\ncbit 4\ncall 0 q2,c0,q0,q1,c1,c2,c3\nend\n",
            "flat 1\nqbits 3\ncbits 4\ngates 2\nX q1\nMeasX q2,c3\n",
        ),
        (
            "hier 1\nmodule 0 main()\nqbit 1\nRz q0,-0.000000000001\nRx q0,9223372.036854775807\nPrepX q0,1\nPrepZ q0,0\nend\n",
            "flat 1\nqbits 1\ncbits 0\ngates 4\nRz q0,-0.000000000001\nRx q0,9223372.036854775807\nPrepX q0,1\nPrepZ q0,0\n",
        ),
        (
            "hier 1\nmodule 0 a()\nqbit 1\ncbit 1\nMeasZ q0,c0\nend\nmodule 1 b()\ncall 0\nqbit 1\nH q0\ncall 0\nend\nmodule 2 main()\ncall 1\ncall 0\ncall 1\nend\n",
            "flat 1\nqbits 7\ncbits 5\ngates 7\nMeasZ q0,c0\nH q1\nMeasZ q2,c1\nMeasZ q3,c2\nMeasZ q4,c3\nH q5\nMeasZ q6,c4\n",
        ),
        (
            "hier 1\nmodule 0 f(1)\nqbit 1\nend\nmodule 1 f(2)\nqbit 1\nH q0\nend\nmodule 2 main()\ncall 1\ncall 0\ncall 1\nend\n",
            "flat 1\nqbits 3\ncbits 0\ngates 2\nH q0\nH q2\n",
        ),
    ] {
        let written = flat_of(rt.alloc(), text.as_bytes())?;
        assert_eq!(rt; written.written(), flat.as_bytes());
    }
    Ok(())
}

/// Bodies with many fresh wires, in one item and in several, before calls and behind them.
#[test]
fn long_runs_of_fresh_wires(rt: HostRuntime) -> Result<(), Fail> {
    for (text, flat) in [
        (
            "hier 1\nmodule 0 f(q)\nqbit 40\nCNOT q0,q40\nend\nmodule 1 main()\nqbit 20\ncall 0 q19\nqbit 30\nCNOT q20,q49\ncall 0 q20\nCNOT q0,q19\nend\n",
            "flat 1\nqbits 130\ncbits 0\ngates 4\nCNOT q19,q59\nCNOT q60,q89\nCNOT q60,q129\nCNOT q0,q19\n",
        ),
        (
            "hier 1\nmodule 0 g()\nqbit 1\nX q0\nend\nmodule 1 f(q,c)\nqbit 16\ncbit 17\ncall 0\nqbit 1\nqbit 17\ncall 0\nqbit 18\nMeasZ q17,c17\nMeasZ q52,c0\nMeasZ q18,c1\nMeasZ q16,c16\nend\nmodule 2 main()\nqbit 1\ncbit 3\ncall 1 q0,c2\nend\n",
            "flat 1\nqbits 55\ncbits 20\ngates 6\nX q17\nX q36\nMeasZ q18,c19\nMeasZ q54,c2\nMeasZ q19,c3\nMeasZ q16,c18\n",
        ),
        (
            "hier 2\nmodule 0 f(q[2])\nqbit 16\nCNOT q0,q17\nCNOT q2,q1\nend\nmodule 1 main()\nqbit 15\nqbit 16\nrepeat 2 call 0 q30,q14\nend\n",
            "flat 1\nqbits 63\ncbits 0\ngates 4\nCNOT q30,q46\nCNOT q31,q14\nCNOT q30,q62\nCNOT q47,q14\n",
        ),
    ] {
        let written = flat_of(rt.alloc(), text.as_bytes())?;
        assert_eq!(rt; written.written(), flat.as_bytes());
    }
    Ok(())
}

/// Turns that apply no gate cost no time.
#[test]
fn turns_without_gates(rt: HostRuntime) -> Result<(), Fail> {
    for (text, flat) in [
        (
            "hier 2\nmodule 0 f(q)\nend\nmodule 1 main()\nqbit 1\nrepeat 18446744073709551615 call 0 q0\nend\n",
            "flat 1\nqbits 1\ncbits 0\ngates 0\n",
        ),
        (
            "hier 2\nmodule 0 f()\nqbit 1\nend\nmodule 1 main()\nrepeat 4294967294 call 0\nqbit 1\nX q0\nend\n",
            "flat 1\nqbits 4294967295\ncbits 0\ngates 1\nX q4294967294\n",
        ),
    ] {
        let written = flat_of(rt.alloc(), text.as_bytes())?;
        assert_eq!(rt; written.written(), flat.as_bytes());
    }
    Ok(())
}

/// The gate list, and how many wires the frames have room for.
#[test]
fn gates_are_listed(rt: HostRuntime) -> Result<(), Fail> {
    let deck = read_hier(rt.alloc(), REPEATED)?;
    assert!(rt; deck.is_whole());
    let tally = tally_deck(rt.alloc(), &deck, &Times::ones())?;
    let mut expander = prepare(rt.alloc(), &deck, &tally, 8)?;
    assert_eq!(rt; expander.room(), 3);
    let gates = expander.list(rt.alloc(), &deck)?;
    assert_eq!(rt; gates.len(), 8);
    let last = Gate::two(Kind::Cnot, Wire::qubit(2), Wire::qubit(0));
    assert_eq!(rt; gates.as_slice().last(), Some(&last));
    Ok(())
}
