//! Hierarchical texts that are read: in the grammar, past a limit, and out of it at a line.
use crate::texts::{PLAIN, REPEATED};
use sc_deck::Deck;
use sc_read::{HierFault, read_hier};
use std::alloc::Global;
use std::test::Fail;

fn read(alloc: Global, text: &[u8]) -> Result<Deck, HierFault> {
    if text.len() > 10_000_000 {
        return Err(HierFault::Memory);
    }
    read_hier(alloc, text)
}

/// The number of bodies, where the text is read.
fn bodies(alloc: Global, text: &[u8]) -> Result<u32, HierFault> {
    match read(alloc, text) {
        Ok(deck) => Ok(deck.len()),
        Err(fault) => Err(fault),
    }
}

#[test]
fn texts_in_the_grammar(rt: HostRuntime) -> Result<(), Fail> {
    for (text, count) in [
        ("hier 1\nmodule 0 main()\nend\n", 1),
        ("hier 2\nmodule 0 main()\nqbit 2\nCNOT q0,q1\nend\n", 1),
        (
            "hier 1\nmodule 0 g(q)\nqbit 1\nH q1\nH q1\nH q1\nCNOT q1,q0\nend\nmodule 1 main()\nqbit 1\ncall 0 q0\ncall 0 q0\nend\n",
            2,
        ),
        (
            "hier 1\nmodule 0 f(q,c,q[2],c[3],-7,0.500000000000,-0.000000000001)\nX q2\nMeasX q0,c3\nend\nmodule 1 main()\nqbit 3\ncbit 4\ncall 0 q2,c0,q0,q1,c1,c2,c3\nend\n",
            2,
        ),
        (
            "hier 1\nmodule 0 f(1)\nqbit 1\nend\nmodule 1 f(2)\nqbit 1\nH q0\nend\nmodule 2 main()\ncall 1\ncall 0\ncall 1\nend\n",
            3,
        ),
        (
            "hier 1\nmodule 0 main(0)\nend\nmodule 1 main()\ncall 0\nend\n",
            2,
        ),
        (
            "hier 2\nmodule 0 qbit(q)\nend\nmodule 1 main()\nqbit 65536\nrepeat 18446744073709551615 call 0 q65535\nend\n",
            2,
        ),
    ] {
        assert_eq!(rt; bodies(rt.alloc(), text.as_bytes())?, count);
    }
    assert_eq!(rt; bodies(rt.alloc(), REPEATED)?, 2);
    assert_eq!(rt; bodies(rt.alloc(), PLAIN)?, 2);
    Ok(())
}

/// How many lines the text has so far, with the one that begins behind the last line feed.
fn lines_of(text: &[u8]) -> u32 {
    let mut line = 1;
    for byte in text {
        if *byte == b'\n' && line < 100 {
            line += 1;
        }
    }
    line
}

#[test]
fn prefixes_end_too_early(rt: HostRuntime) {
    for text in [PLAIN, REPEATED] {
        for end in 0..text.len() {
            let found = bodies(rt.alloc(), &text[..end]);
            assert_eq!(rt; found, Err(HierFault::BadQasm(lines_of(&text[..end]))));
        }
    }
}

#[test]
fn bad_lines_of_repeats(rt: HostRuntime) {
    for (text, line) in [
        ("hier 1\nmodule 0 g(q)\nqbit 1\nrepeat 3 H q1\nend\n", 4),
        ("hier 2\nmodule 0 g(q)\nqbit 1\nrepeat 1 H q1\nend\n", 4),
        ("hier 2\nmodule 0 g(q)\nrepeat 2 qbit 1\nend\n", 3),
        (
            "hier 2\nmodule 0 g(q)\nqbit 1\nrepeat 18446744073709551616 H q1\nend\n",
            4,
        ),
        (
            "hier 2\nmodule 0 g(q)\nend\nmodule 1 main()\nqbit 1\nrepeat 2 repeat 2 call 0 q0\nend\n",
            6,
        ),
        ("hier 2\nmodule 0 g(q)\nrepeat 2 end\n", 3),
        ("hier 2\nmodule 0 g(q)\nrepeat 3  H q0\n", 3),
        ("hier 2\nmodule 0 g(q)\nrepeat 03 H q0\n", 3),
    ] {
        let found = bodies(rt.alloc(), text.as_bytes());
        assert_eq!(rt; found, Err(HierFault::BadQasm(line)));
    }
}

#[test]
fn bad_lines_of_modules(rt: HostRuntime) {
    for (text, line) in [
        ("hier 1\nmodule 0 f(1)\nend\nmodule 1 f(1)\nend\n", 4),
        (
            "hier 1\nmodule 0 f()\nend\nmodule 1 g()\nend\nmodule 2 main()\ncall 0\nend\n",
            8,
        ),
        ("hier 1\nmodule 0 f()\ncall 0\nend\n", 3),
        (
            "hier 1\nmodule 0 f()\ncall 1\nend\nmodule 1 main()\nend\n",
            3,
        ),
        ("hier 1\nmodule 0 main()\nend\nmodule 1 f()\nend\n", 4),
        ("hier 1\nmodule 0 f(q[0])\nend\n", 2),
        ("hier 1\nmodule 0 f(-0)\nend\n", 2),
        ("hier 1\nmodule 0 f(q,)\nend\n", 2),
    ] {
        let found = bodies(rt.alloc(), text.as_bytes());
        assert_eq!(rt; found, Err(HierFault::BadQasm(line)));
    }
}

#[test]
fn bad_signatures(rt: HostRuntime) {
    for text in [
        "hier 1\nmodule 0 f(+1)\nend\n",
        "hier 1\nmodule 0 f(01)\nend\n",
        "hier 1\nmodule 0 f(9223372036854775808)\nend\n",
        "hier 1\nmodule 0 f(-0.000000000000)\nend\n",
        "hier 1\nmodule 0 f(0.50000000000)\nend\n",
        "hier 1\nmodule 00 f()\nend\n",
        "hier 1\nmodule 0  f()\nend\n",
        "hier 1\nmodule 0 f()\r\nend\n",
    ] {
        let found = bodies(rt.alloc(), text.as_bytes());
        assert_eq!(rt; found, Err(HierFault::BadQasm(2)));
    }
}

#[test]
fn limits_on_wires(rt: HostRuntime) {
    for (text, answer) in [
        (
            "hier 1\nmodule 0 main()\nqbit 65537\nend\n",
            HierFault::TooWide(3),
        ),
        (
            "hier 1\nmodule 0 f(q[2])\nqbit 65535\nend\n",
            HierFault::TooWide(3),
        ),
        (
            "hier 1\nmodule 0 f(q[65536],c)\nend\n",
            HierFault::TooWide(2),
        ),
        (
            "hier 1\nmodule 0 f(q[99999999999999999999999999999999999999999999999999999999999999999999999])\nend\n",
            HierFault::TooWide(2),
        ),
        (
            "hier 1\nmodule 0 main()\ncbit 99999999999999999999999999999999999999999999999999999999999999999999999\nend\n",
            HierFault::TooWide(3),
        ),
        ("hier 1\nmodule 0 main()\nqbit 65537", HierFault::BadQasm(3)),
        ("hier 1\nmodule 1 f(q[65537])\nend\n", HierFault::BadQasm(2)),
    ] {
        assert_eq!(rt; bodies(rt.alloc(), text.as_bytes()), Err(answer));
    }
}

/// So many modules `m(0)`, `m(1)` and so on, each of which but the first calls the one before it, where that is asked.
fn tower(alloc: Global, count: u32, calls: bool) -> Result<String, Fail> {
    let mut text = String::new(alloc);
    text.push_str("hier 1\n")?;
    for i in 0..count {
        text.push_str(&format!(in alloc; "module {i} m({i})\n")?)?;
        if calls && i > 0 {
            let below = i - 1;
            text.push_str(&format!(in alloc; "call {below}\n")?)?;
        }
        text.push_str("end\n")?;
    }
    Ok(text)
}

#[test]
fn limits_on_modules(rt: HostRuntime) -> Result<(), Fail> {
    let deep = tower(rt.alloc(), 257, true)?;
    let found = bodies(rt.alloc(), deep.as_bytes());
    assert_eq!(rt; found, Err(HierFault::TooDeep(770)));
    let many = tower(rt.alloc(), 65537, false)?;
    let found = bodies(rt.alloc(), many.as_bytes());
    assert_eq!(rt; found, Err(HierFault::TooManyInstances(131074)));
    Ok(())
}
