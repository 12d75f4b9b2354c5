//! The flat text of two numbers and a gate list.
ghost use Rattle.std.specs.Prelude.{◌≡◌, ◌++◌, false, length, codes, decimal, OnOk};
ghost use Rattle.sc_base.specs.Causes.{HasCause};
ghost use Rattle.sc_base.specs.Output.{Wrote, WrotePrefix};
ghost use Rattle.sc_gate.specs.Lines.{gate_lines, number_line, flat_header, flat_text};

use crate::Gate;
use crate::line::write_gate;
use itoa::Buffer;
use sc_base::{Sink, WriteFault, write_all};

/// Writes a line of a word, a space and a number. Takes no memory. At a fault of the sink a prefix of the line is written.
pub fn write_number_line<O: Sink>(word: &[u8], number: u128, out: &mut O) -> Result<(), WriteFault>
    requires { O.is_ended out.old ≡ false }
    ensures open { O.is_ended out.new ≡ false }
    ensures appended { OnOk result (Wrote O.tells O.bytes out.old out.new (number_line word.now number)) }
    ensures prefix { WrotePrefix O.tells O.bytes out.old out.new (number_line word.now number) }
    ensures cause { HasCause (O.faults out.old) (O.faults out.new) result }
{
    write_all(out, word)?;
    write_all(out, b" ")?;
    write_all(out, Buffer::new().format(number).as_bytes())?;
    write_all(out, b"\n")?;
    Ok(())
}

/// Writes the four lines that stand before the gate lines of a flat text of so many qubits, classical bits and gates.
/// Takes no memory. At a fault of the sink a prefix of the lines is written.
pub fn write_header<O: Sink>(
    qubits: u128,
    cbits: u128,
    gates: u64,
    out: &mut O,
) -> Result<(), WriteFault>
    requires { O.is_ended out.old ≡ false }
    ensures open { O.is_ended out.new ≡ false }
    ensures appended { OnOk result (Wrote O.tells O.bytes out.old out.new (flat_header qubits cbits gates)) }
    ensures prefix { WrotePrefix O.tells O.bytes out.old out.new (flat_header qubits cbits gates) }
    ensures cause { HasCause (O.faults out.old) (O.faults out.new) result }
{
    write_all(out, b"flat 1\n")?;
    write_number_line(b"qbits", qubits, out)?;
    write_number_line(b"cbits", cbits, out)?;
    write_number_line(b"gates", gates as u128, out)?;
    Ok(())
}

/// Writes the gate lines.
fn write_gates<O: Sink>(gates: &[Gate], out: &mut O) -> Result<(), WriteFault>
    requires { O.is_ended out.old ≡ false }
    ensures open { O.is_ended out.new ≡ false }
    ensures appended { OnOk result (Wrote O.tells O.bytes out.old out.new (gate_lines gates.now)) }
    ensures prefix { WrotePrefix O.tells O.bytes out.old out.new (gate_lines gates.now) }
    ensures cause { HasCause (O.faults out.old) (O.faults out.new) result }
{
    for gate in gates {
        write_gate(gate, out)?;
    }
    Ok(())
}

/// Writes the flat text of so many qubits and classical bits and of these gates. Takes no memory. At a fault of the sink a prefix of the text is written.
pub fn write_flat<O: Sink>(
    qubits: u128,
    cbits: u128,
    gates: &[Gate],
    out: &mut O,
) -> Result<(), WriteFault>
    requires { O.is_ended out.old ≡ false }
    ensures open { O.is_ended out.new ≡ false }
    ensures appended { OnOk result (Wrote O.tells O.bytes out.old out.new (flat_text qubits cbits gates.now)) }
    ensures prefix { WrotePrefix O.tells O.bytes out.old out.new (flat_text qubits cbits gates.now) }
    ensures cause { HasCause (O.faults out.old) (O.faults out.new) result }
{
    write_header(qubits, cbits, gates.len() as u64, out)?;
    write_gates(gates, out)?;
    Ok(())
}
