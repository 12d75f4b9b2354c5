//! Gate lists written as OpenQASM, and lines of OpenQASM written as gates.
ghost use Rattle.std.specs.Prelude.{◌≡◌, ◌+◌, ◌≤◌, ◌++◌, false, length, map, OnOk};
ghost use Rattle.sc_base.specs.Causes.{HasCause};
ghost use Rattle.sc_base.specs.Output.{Wrote, WrotePrefix};
ghost use Rattle.sc_gate.specs.Lines.{flat_text, gate_lines};
ghost use Rattle.sc_open.specs.Lowering.{lowered, lower, lower_gate, swap_lines, needs_spare, lacks_bit, back, back_line};
ghost use Rattle.sc_open.specs.OpenTexts.{open_text, register_text, registers_text, lines_text};

use crate::line::write_line;
use crate::{Line, OpenText};
use sc_base::{LineBuffer, Sink, WriteFault, write_all};
use sc_gate::{Gate, Kind, Wire, write_gate, write_header};

/// What stands before the registers.
const FRONT: &[u8] = b"OPENQASM 2.0;\ninclude \"qelib1.inc\";\n";

/// Whether the gate is a measurement without a classical bit.
fn lacks_bit(gate: &Gate) -> bool
    ensures { result ≡ lacks_bit gate.now }
{
    matches!(gate.kind, Kind::MeasX | Kind::MeasZ) && gate.b.is_none()
}

/// Whether some measurement has no classical bit.
fn needs_spare(mut gates: &[Gate]) -> bool
    ensures { result ≡ needs_spare gates.entry.now }
{
    while let [gate, rest @ ..] = gates {
        if lacks_bit(gate) {
            return true;
        }
        gates = rest;
    }
    false
}

/// Appends the declaration of a register of this size, from what stands before the size, and nothing where the size is 0.
fn push_register(text: &mut LineBuffer, front: &[u8], size: u32)
    requires front { length front.now ≤ 7 }
    requires room { length text.old + 20 ≤ 80 }
    ensures text { text.new ≡ text.old ++ register_text front.now size }
    ensures short { length text.new ≤ length text.old + 20 }
{
    if size > 0 {
        text.push(front);
        text.push_number(size);
        text.push(b"];\n");
    }
}

/// The declarations of the registers.
fn registers(qubits: u32, cbits: u32, spare: bool) -> LineBuffer
    ensures { result ≡ registers_text qubits cbits spare }
{
    let mut text = LineBuffer::new();
    push_register(&mut text, b"qreg q[", qubits);
    push_register(&mut text, b"creg c[", cbits);
    text.push(if spare {
        b"creg u[1];\n".as_slice()
    } else {
        b""
    });
    text
}

/// Writes the lines one after another.
fn write_each<O: Sink>(lines: &[Line], out: &mut O) -> Result<(), WriteFault>
    requires { O.is_ended out.old ≡ false }
    ensures open { O.is_ended out.new ≡ false }
    ensures appended { OnOk result (Wrote O.tells O.bytes out.old out.new (lines_text lines.now)) }
    ensures prefix { WrotePrefix O.tells O.bytes out.old out.new (lines_text lines.now) }
    ensures cause { HasCause (O.faults out.old) (O.faults out.new) result }
{
    for line in lines {
        write_line(line, out)?;
    }
    Ok(())
}

/// Writes the lines that exchange `b` and `c` where `a` is 1.
fn write_swap<O: Sink>(
    a: Wire,
    b: Option<Wire>,
    c: Option<Wire>,
    out: &mut O,
) -> Result<(), WriteFault>
    requires { O.is_ended out.old ≡ false }
    ensures open { O.is_ended out.new ≡ false }
    ensures appended { OnOk result (Wrote O.tells O.bytes out.old out.new (lines_text (swap_lines a b c))) }
    ensures prefix { WrotePrefix O.tells O.bytes out.old out.new (lines_text (swap_lines a b c)) }
    ensures cause { HasCause (O.faults out.old) (O.faults out.new) result }
{
    let (Some(b), Some(c)) = (b, c) else {
        return write_each(&[], out);
    };
    let turned = Line::Gate(Gate::two(Kind::Cnot, c, b));
    let middle = Line::Gate(Gate::three(Kind::Toffoli, a, b, c));
    write_each(&[turned, middle, turned], out)
}

/// Writes the lines of one gate.
fn write_lowered<O: Sink>(gate: &Gate, out: &mut O) -> Result<(), WriteFault>
    requires { O.is_ended out.old ≡ false }
    ensures open { O.is_ended out.new ≡ false }
    ensures appended { OnOk result (Wrote O.tells O.bytes out.old out.new (lines_text (lower_gate gate.now))) }
    ensures prefix { WrotePrefix O.tells O.bytes out.old out.new (lines_text (lower_gate gate.now)) }
    ensures cause { HasCause (O.faults out.old) (O.faults out.new) result }
{
    let reset = Line::Reset(gate.a);
    let measure = Line::Measure(gate.a, gate.b);
    let x = Line::Gate(Gate::one(Kind::X, gate.a));
    let h = Line::Gate(Gate::one(Kind::H, gate.a));
    match gate.kind {
        Kind::PrepZ(false) => write_each(&[reset], out),
        Kind::PrepZ(true) => write_each(&[reset, x], out),
        Kind::PrepX(false) => write_each(&[reset, h], out),
        Kind::PrepX(true) => write_each(&[reset, x, h], out),
        Kind::MeasZ => write_each(&[measure], out),
        Kind::MeasX => write_each(&[h, measure, h], out),
        Kind::Fredkin => write_swap(gate.a, gate.b, gate.c, out),
        _ => write_each(&[Line::Gate(*gate)], out),
    }
}

/// Writes the lines of the gates.
fn write_gates<O: Sink>(gates: &[Gate], out: &mut O) -> Result<(), WriteFault>
    requires { O.is_ended out.old ≡ false }
    ensures open { O.is_ended out.new ≡ false }
    ensures appended { OnOk result (Wrote O.tells O.bytes out.old out.new (lines_text (lower gates.now))) }
    ensures prefix { WrotePrefix O.tells O.bytes out.old out.new (lines_text (lower gates.now)) }
    ensures cause { HasCause (O.faults out.old) (O.faults out.new) result }
{
    for gate in gates {
        write_lowered(gate, out)?;
    }
    Ok(())
}

/// Writes the OpenQASM text of a gate list over so many qubits and classical bits. Preparations become resets with an X where the
/// start value is 1, and with an H for PrepX; MeasX becomes a measurement between two H, and Fredkin a Toffoli between two CNOT.
/// The register `u` of one bit is declared exactly where a measurement has no classical bit. `read_open` reads the text of
/// well-formed gates over these wires as what they are lowered to (`laws`). Takes no memory. At a fault of the sink a prefix of
/// the text is written.
pub fn write_open<O: Sink>(
    gates: &[Gate],
    qubits: u32,
    cbits: u32,
    out: &mut O,
) -> Result<(), WriteFault>
    requires { O.is_ended out.old ≡ false }
    ensures open { O.is_ended out.new ≡ false }
    ensures appended { OnOk result (Wrote O.tells O.bytes out.old out.new (open_text (lowered qubits cbits gates.now))) }
    ensures prefix { WrotePrefix O.tells O.bytes out.old out.new (open_text (lowered qubits cbits gates.now)) }
    ensures cause { HasCause (O.faults out.old) (O.faults out.new) result }
{
    let registers = registers(qubits, cbits, needs_spare(gates));
    write_all(out, FRONT)?;
    write_all(out, registers.as_bytes())?;
    write_gates(gates, out)?;
    Ok(())
}

/// Writes the gate lines of the gates that the lines are read as.
fn write_back<O: Sink>(lines: &[Line], out: &mut O) -> Result<(), WriteFault>
    requires { O.is_ended out.old ≡ false }
    ensures open { O.is_ended out.new ≡ false }
    ensures appended { OnOk result (Wrote O.tells O.bytes out.old out.new (gate_lines (map back_line lines.now))) }
    ensures prefix { WrotePrefix O.tells O.bytes out.old out.new (gate_lines (map back_line lines.now)) }
    ensures cause { HasCause (O.faults out.old) (O.faults out.new) result }
{
    for line in lines {
        write_gate(&line.gate(), out)?;
    }
    Ok(())
}

/// Writes the flat text of an OpenQASM text: its numbers of qubits and classical bits, and the gates that its lines are read as.
/// Takes no memory. At a fault of the sink a prefix of the text is written.
pub fn write_lines<O: Sink>(text: &OpenText, out: &mut O) -> Result<(), WriteFault>
    requires { O.is_ended out.old ≡ false }
    ensures open { O.is_ended out.new ≡ false }
    ensures appended { OnOk result (Wrote O.tells O.bytes out.old out.new (flat_text text.now.qubits text.now.cbits (back text.now))) }
    ensures prefix { WrotePrefix O.tells O.bytes out.old out.new (flat_text text.now.qubits text.now.cbits (back text.now)) }
    ensures cause { HasCause (O.faults out.old) (O.faults out.new) result }
{
    write_header(
        text.qubits as u128,
        text.cbits as u128,
        text.lines.len() as u64,
        out,
    )?;
    write_back(text.lines.as_slice(), out)?;
    Ok(())
}
