//! OpenQASM texts: written, read, and out of the grammar at a line.
use sc_base::{Fixed, MemSink, Text};
use sc_gate::{Gate, Kind, Wire};
use sc_open::{OpenFault, OpenText, read_open, write_lines, write_open};
use std::alloc::Global;
use std::test::Fail;

fn read(alloc: Global, text: &[u8]) -> Result<OpenText, OpenFault> {
    if text.len() > 1000 {
        return Err(OpenFault::Memory);
    }
    read_open(alloc, text)
}

/// The text of a gate list.
fn written(alloc: Global, gates: &[Gate], qubits: u32, cbits: u32) -> Result<Text, Fail> {
    let mut out = MemSink::new(alloc, 7, 400)?;
    write_open(gates, qubits, cbits, &mut out)?;
    let mut text = Text::new(alloc);
    text.push_bytes(out.written())?;
    Ok(text)
}

/// The flat text of what is read of an OpenQASM text.
fn flat(alloc: Global, text: &[u8]) -> Result<Text, Fail> {
    let open = read(alloc, text)?;
    let mut out = MemSink::new(alloc, 7, 400)?;
    write_lines(&open, &mut out)?;
    let mut text = Text::new(alloc);
    text.push_bytes(out.written())?;
    Ok(text)
}

const SMALL: &[u8] =
    b"OPENQASM 2.0;\ninclude \"qelib1.inc\";\nqreg q[1];\ncreg c[1];\ncreg u[1];\nreset q[0];\nx q[0];\nh q[0];\nh q[0];\nmeasure q[0] -> c[0];\nh q[0];\nmeasure q[0] -> u[0];\n";

/// PrepX with start value 1, MeasX into a bit and MeasZ into none, out and back.
#[test]
fn small_program_out_and_back(rt: HostRuntime) -> Result<(), Fail> {
    let alloc = rt.alloc();
    let q = Wire::qubit(0);
    let gates = [
        Gate::one(Kind::PrepX(true), q),
        Gate::two(Kind::MeasX, q, Wire::cbit(0)),
        Gate::one(Kind::MeasZ, q),
    ];
    let text = written(alloc, &gates, 1, 1)?;
    assert_eq!(rt; text.as_bytes(), SMALL);
    let back = flat(alloc, text.as_bytes())?;
    assert_eq!(rt;
        back.as_bytes(),
        b"flat 1\nqbits 1\ncbits 1\ngates 7\nPrepZ q0,0\nX q0\nH q0\nH q0\nMeasZ q0,c0\nH q0\nMeasZ q0\n".as_slice()
    );
    Ok(())
}

/// Each gate behind three qubits and two classical bits: the gate, its lines, and the gate lines that they are read as.
#[test]
fn each_gate(rt: HostRuntime) -> Result<(), Fail> {
    let alloc = rt.alloc();
    let (a, b, c) = (Wire::qubit(0), Wire::qubit(1), Wire::qubit(2));
    for (gate, lines, back) in [
        (Gate::one(Kind::X, a), "x q[0];\n", "1\nX q0\n"),
        (Gate::one(Kind::Y, a), "y q[0];\n", "1\nY q0\n"),
        (Gate::one(Kind::Z, a), "z q[0];\n", "1\nZ q0\n"),
        (Gate::one(Kind::H, b), "h q[1];\n", "1\nH q1\n"),
        (Gate::one(Kind::S, a), "s q[0];\n", "1\nS q0\n"),
        (Gate::one(Kind::T, a), "t q[0];\n", "1\nT q0\n"),
        (Gate::one(Kind::Sdag, a), "sdg q[0];\n", "1\nSdag q0\n"),
        (Gate::one(Kind::Tdag, a), "tdg q[0];\n", "1\nTdag q0\n"),
        (
            Gate::two(Kind::Cnot, b, a),
            "cx q[1],q[0];\n",
            "1\nCNOT q1,q0\n",
        ),
        (
            Gate::three(Kind::Toffoli, a, b, c),
            "ccx q[0],q[1],q[2];\n",
            "1\nToffoli q0,q1,q2\n",
        ),
        (
            Gate::three(Kind::Fredkin, a, b, c),
            "cx q[2],q[1];\nccx q[0],q[1],q[2];\ncx q[2],q[1];\n",
            "3\nCNOT q2,q1\nToffoli q0,q1,q2\nCNOT q2,q1\n",
        ),
        (
            Gate::one(Kind::Rx(Fixed(1_500_000_000_000)), a),
            "rx(1.500000000000) q[0];\n",
            "1\nRx q0,1.500000000000\n",
        ),
        (
            Gate::one(Kind::Ry(Fixed(0)), a),
            "ry(0.000000000000) q[0];\n",
            "1\nRy q0,0.000000000000\n",
        ),
        (
            Gate::one(Kind::Rz(Fixed(i64::MIN)), a),
            "rz(-9223372.036854775808) q[0];\n",
            "1\nRz q0,-9223372.036854775808\n",
        ),
        (
            Gate::one(Kind::PrepZ(false), a),
            "reset q[0];\n",
            "1\nPrepZ q0,0\n",
        ),
        (
            Gate::one(Kind::PrepZ(true), a),
            "reset q[0];\nx q[0];\n",
            "2\nPrepZ q0,0\nX q0\n",
        ),
        (
            Gate::one(Kind::PrepX(false), a),
            "reset q[0];\nh q[0];\n",
            "2\nPrepZ q0,0\nH q0\n",
        ),
        (
            Gate::two(Kind::MeasZ, c, Wire::cbit(1)),
            "measure q[2] -> c[1];\n",
            "1\nMeasZ q2,c1\n",
        ),
    ] {
        let text = written(alloc, &[gate], 3, 2)?;
        let mut want = Text::new(alloc);
        want.push_bytes(b"OPENQASM 2.0;\ninclude \"qelib1.inc\";\nqreg q[3];\ncreg c[2];\n")?;
        want.push_bytes(lines.as_bytes())?;
        assert_eq!(rt; text.as_bytes(), want.as_bytes());
        let mut flat_want = Text::new(alloc);
        flat_want.push_bytes(b"flat 1\nqbits 3\ncbits 2\ngates ")?;
        flat_want.push_bytes(back.as_bytes())?;
        let flat_text = flat(alloc, text.as_bytes())?;
        assert_eq!(rt; flat_text.as_bytes(), flat_want.as_bytes());
    }
    Ok(())
}

/// Texts behind the first two lines that are in the grammar, and their flat texts.
#[test]
fn registers(rt: HostRuntime) -> Result<(), Fail> {
    let alloc = rt.alloc();
    for (body, want) in [
        ("", "flat 1\nqbits 0\ncbits 0\ngates 0\n"),
        ("creg u[1];\n", "flat 1\nqbits 0\ncbits 0\ngates 0\n"),
        ("creg c[7];\n", "flat 1\nqbits 0\ncbits 7\ngates 0\n"),
        (
            "qreg q[4294967295];\ncreg u[1];\nx q[4294967294];\n",
            "flat 1\nqbits 4294967295\ncbits 0\ngates 1\nX q4294967294\n",
        ),
    ] {
        let mut text = Text::new(alloc);
        text.push_bytes(b"OPENQASM 2.0;\ninclude \"qelib1.inc\";\n")?;
        text.push_bytes(body.as_bytes())?;
        let found = flat(alloc, text.as_bytes())?;
        assert_eq!(rt; found.as_bytes(), want.as_bytes());
    }
    Ok(())
}

/// Texts out of the grammar, each with its first line that is not in its place.
#[test]
fn bad_lines(rt: HostRuntime) {
    for (text, line) in [
        ("", 1),
        ("OPENQASM 3.0;\ninclude \"qelib1.inc\";\n", 1),
        (" OPENQASM 2.0;\ninclude \"qelib1.inc\";\n", 1),
        ("OPENQASM 2.0;", 1),
        ("OPENQASM 2.0;\n", 2),
        ("OPENQASM 2.0;\ninclude \"qelib1.inc\";", 2),
        ("OPENQASM 2.0;\nqreg q[1];\n", 2),
        ("OPENQASM 2.0;\ninclude \"qelib1.inc\";\nqreg q[0];\n", 3),
        ("OPENQASM 2.0;\ninclude \"qelib1.inc\";\nqreg q[01];\n", 3),
        (
            "OPENQASM 2.0;\ninclude \"qelib1.inc\";\nqreg q[4294967296];\n",
            3,
        ),
        ("OPENQASM 2.0;\ninclude \"qelib1.inc\";\ncreg u[2];\n", 3),
        ("OPENQASM 2.0;\ninclude \"qelib1.inc\";\nx q[0];\n", 3),
        ("OPENQASM 2.0;\ninclude \"qelib1.inc\";\n\n", 3),
        (
            "OPENQASM 2.0;\ninclude \"qelib1.inc\";\ncreg c[1];\nqreg q[1];\n",
            4,
        ),
        (
            "OPENQASM 2.0;\ninclude \"qelib1.inc\";\ncreg u[1];\ncreg c[1];\n",
            4,
        ),
        (
            "OPENQASM 2.0;\ninclude \"qelib1.inc\";\nqreg q[1];\nqreg q[1];\n",
            4,
        ),
        (
            "OPENQASM 2.0;\ninclude \"qelib1.inc\";\nqreg q[1];\nx q[1];\n",
            4,
        ),
        (
            "OPENQASM 2.0;\ninclude \"qelib1.inc\";\nqreg q[1];\nx q[0];",
            4,
        ),
        (
            "OPENQASM 2.0;\ninclude \"qelib1.inc\";\nqreg q[1];\nx q[0];\r\n",
            4,
        ),
        (
            "OPENQASM 2.0;\ninclude \"qelib1.inc\";\nqreg q[1];\nx  q[0];\n",
            4,
        ),
        (
            "OPENQASM 2.0;\ninclude \"qelib1.inc\";\nqreg q[1];\nx q[00];\n",
            4,
        ),
        (
            "OPENQASM 2.0;\ninclude \"qelib1.inc\";\nqreg q[1];\n// x\nx q[0];\n",
            4,
        ),
        (
            "OPENQASM 2.0;\ninclude \"qelib1.inc\";\nqreg q[2];\ncx q[0],q[0];\n",
            4,
        ),
        (
            "OPENQASM 2.0;\ninclude \"qelib1.inc\";\nqreg q[2];\nx q[0],q[1];\n",
            4,
        ),
        (
            "OPENQASM 2.0;\ninclude \"qelib1.inc\";\nqreg q[2];\ncx q[0], q[1];\n",
            4,
        ),
        (
            "OPENQASM 2.0;\ninclude \"qelib1.inc\";\nqreg q[2];\nrx(0.5) q[0];\n",
            4,
        ),
        (
            "OPENQASM 2.0;\ninclude \"qelib1.inc\";\nqreg q[2];\nrx(-0.000000000000) q[0];\n",
            4,
        ),
        (
            "OPENQASM 2.0;\ninclude \"qelib1.inc\";\nqreg q[2];\nrx(9223372.036854775808) q[0];\n",
            4,
        ),
        (
            "OPENQASM 2.0;\ninclude \"qelib1.inc\";\nqreg q[2];\nmeasure q[0] -> u[0];\n",
            4,
        ),
        (
            "OPENQASM 2.0;\ninclude \"qelib1.inc\";\nqreg q[2];\nmeasure q[0] -> c[0];\n",
            4,
        ),
        (
            "OPENQASM 2.0;\ninclude \"qelib1.inc\";\nqreg q[2];\nx q[0];\nqreg q[2];\n",
            5,
        ),
        (
            "OPENQASM 2.0;\ninclude \"qelib1.inc\";\nqreg q[1];\ncreg c[1];\nreset q[0];\nx q[0];\nh q[0];\nh q[0];\nmeasure q[0] -> c[0];\nh q[0];\nmeasure q[0] -> u[0];\n",
            11,
        ),
    ] {
        let found = match read(rt.alloc(), text.as_bytes()) {
            Ok(_) => None,
            Err(fault) => Some(fault),
        };
        assert_eq!(rt; found, Some(OpenFault::BadOpen(line)));
    }
}
