//! Flat texts that are read: in the grammar, past the limit, and out of it at a line.
use sc_base::MemSink;
use sc_gate::write_flat;
use sc_read::{FlatFault, FlatText, read_flat};
use std::alloc::Global;
use std::test::Fail;

const EXAMPLE: &[u8] =
    b"flat 1\nqbits 3\ncbits 1\ngates 7\nPrepZ q0,1\nRz q0,-0.500000000000\n# a line\nCNOT q0,q1\n#\nToffoli q0,q1,q2\nFredkin q2,q1,q0\nMeasX q0\nMeasZ q1,c0\n# the end\n";

fn read(alloc: Global, text: &[u8]) -> Result<FlatText, FlatFault> {
    if text.len() > 1000 {
        return Err(FlatFault::Memory);
    }
    read_flat(alloc, text)
}

/// The fault, or none where the text is read.
fn fault(alloc: Global, text: &[u8]) -> Option<FlatFault> {
    match read(alloc, text) {
        Ok(_) => None,
        Err(fault) => Some(fault),
    }
}

#[test]
fn flat_text_in_and_out(rt: HostRuntime) -> Result<(), Fail> {
    let flat = read(rt.alloc(), EXAMPLE)?;
    let gates = flat.gates.as_slice();
    if gates.len() > 100 {
        return Err("long".into());
    }
    let mut sink = MemSink::new(rt.alloc(), 64, 400)?;
    write_flat(flat.qubits as u128, flat.cbits as u128, gates, &mut sink)?;
    let plain =
        b"flat 1\nqbits 3\ncbits 1\ngates 7\nPrepZ q0,1\nRz q0,-0.500000000000\nCNOT q0,q1\nToffoli q0,q1,q2\nFredkin q2,q1,q0\nMeasX q0\nMeasZ q1,c0\n".as_slice();
    assert_eq!(rt; sink.written(), plain);
    let again = read(rt.alloc(), plain)?;
    assert_eq!(rt; again.gates.as_slice(), gates);
    Ok(())
}

#[test]
fn prefixes_end_too_early(rt: HostRuntime) {
    for end in 0..EXAMPLE.len() - 10 {
        let prefix = &EXAMPLE[..end];
        let mut line = 1;
        for byte in prefix {
            if *byte == b'\n' && line < 100 {
                line += 1;
            }
        }
        let found = fault(rt.alloc(), prefix);
        assert_eq!(rt; found, Some(FlatFault::BadQasm(line)));
    }
}

#[test]
fn bad_lines_at_the_front(rt: HostRuntime) {
    for (text, line) in [
        ("flat 2\nqbits 0\ncbits 0\ngates 0\n", 1),
        (" flat 1\nqbits 0\ncbits 0\ngates 0\n", 1),
        ("flat 1\nqbits 01\ncbits 0\ngates 0\n", 2),
        ("flat 1\nqbits 4294967296\ncbits 0\ngates 0\n", 2),
        ("flat 1\nqbits 0\ncbits -0\ngates 0\n", 3),
        ("flat 1\nqbits 0\n# early\ncbits 0\ngates 0\n", 3),
        ("flat 1\nqbits 0\ncbits 0\ngates +1\n", 4),
        ("flat 1\nqbits 0\ncbits 0\ngates 0\n\n", 5),
    ] {
        let found = fault(rt.alloc(), text.as_bytes());
        assert_eq!(rt; found, Some(FlatFault::BadQasm(line)));
    }
}

#[test]
fn limit_on_gates(rt: HostRuntime) {
    for (text, answer) in [
        (
            "flat 1\nqbits 4294967295\ncbits 4294967295\ngates 0\n",
            None,
        ),
        (
            "flat 1\nqbits 1\ncbits 0\ngates 4194304\n",
            Some(FlatFault::BadQasm(5)),
        ),
        (
            "flat 1\nqbits 1\ncbits 0\ngates 4194305\n",
            Some(FlatFault::SchedTooLarge),
        ),
        (
            "flat 1\nqbits 1\ncbits 0\ngates 123456789012345678901234567890123456789012345678901234567890123456789\n",
            Some(FlatFault::SchedTooLarge),
        ),
        (
            "flat 1\nqbits 1\ncbits 0\ngates 4194305",
            Some(FlatFault::BadQasm(4)),
        ),
        (
            "flat 1\nqbits 1\ncbits 0\ngates 04194305\n",
            Some(FlatFault::BadQasm(4)),
        ),
        (
            "flat 1\nqbits 1\ncbits x\ngates 4194305\n",
            Some(FlatFault::BadQasm(3)),
        ),
        (
            "flat 1\nqbits 1\ncbits 0\ngates 0\nX q0\n",
            Some(FlatFault::BadQasm(5)),
        ),
    ] {
        assert_eq!(rt; fault(rt.alloc(), text.as_bytes()), answer);
    }
}

/// Lines of two gates of which the second is not in its place.
#[test]
fn bad_gate_lines(rt: HostRuntime) {
    for text in [
        "flat 1\nqbits 2\ncbits 1\ngates 2\nX q1\nX q2\n",
        "flat 1\nqbits 2\ncbits 1\ngates 2\nX q1\nCNOT q0,q0\n",
        "flat 1\nqbits 2\ncbits 1\ngates 2\nX q1\nX  q0\n",
        "flat 1\nqbits 2\ncbits 1\ngates 2\nX q1\nX q0\r\n",
        "flat 1\nqbits 2\ncbits 1\ngates 2\nX q1\nX q00\n",
        "flat 1\nqbits 2\ncbits 1\ngates 2\nX q1\nX q0,q1\n",
        "flat 1\nqbits 2\ncbits 1\ngates 2\nX q1\nX q0",
        "flat 1\nqbits 2\ncbits 1\ngates 2\nX q1\nMeasZ q0,c1\n",
    ] {
        let found = fault(rt.alloc(), text.as_bytes());
        assert_eq!(rt; found, Some(FlatFault::BadQasm(6)));
    }
}

/// Lines whose angle or start value is not in its place.
#[test]
fn bad_values(rt: HostRuntime) {
    for text in [
        "flat 1\nqbits 1\ncbits 0\ngates 1\nRz q0\n",
        "flat 1\nqbits 1\ncbits 0\ngates 1\nRz q0,-0.000000000000\n",
        "flat 1\nqbits 1\ncbits 0\ngates 1\nRz q0,0.50000000000\n",
        "flat 1\nqbits 1\ncbits 0\ngates 1\nRz q0,9223372.036854775808\n",
        "flat 1\nqbits 1\ncbits 0\ngates 1\nPrepZ q0\n",
        "flat 1\nqbits 1\ncbits 0\ngates 1\nPrepZ q0,2\n",
        "flat 1\nqbits 1\ncbits 0\ngates 1\nX q0,1\n",
        "flat 1\nqbits 1\ncbits 0\ngates 1\nx q0\n",
    ] {
        let found = fault(rt.alloc(), text.as_bytes());
        assert_eq!(rt; found, Some(FlatFault::BadQasm(5)));
    }
}
