//! Gate lines, composed in a small buffer.
ghost use Rattle.std.specs.Prelude.{◌≡◌, ◌+◌, ◌≤◌, false, ◌++◌, length, map, option_to_list, OnOk};
ghost use Rattle.sc_base.specs.Causes.{HasCause};
ghost use Rattle.sc_base.specs.Output.{Wrote, WrotePrefix};
ghost use Rattle.sc_gate.specs.Lines.{wire_text, value_texts, after_commas, gate_line};

use crate::{Gate, Kind, Wire};
use sc_base::{Class, LineBuffer, Sink, WriteFault, write_all};

/// Appends the text of a wire: the letter of its class, and its number. It is at most 11 bytes long, and there is room for it.
pub fn push_wire(line: &mut LineBuffer, wire: Wire)
    requires { length line.old + 11 ≤ 80 }
    ensures text { line.new ≡ line.old ++ wire_text wire }
    ensures short { length line.new ≤ length line.old + 11 }
{
    line.push(match wire.class {
        Class::Q => b"q".as_slice(),
        Class::C => b"c".as_slice(),
    });
    line.push_number(wire.number);
}

/// A comma and the operand, where there is one.
fn push_next(line: &mut LineBuffer, operand: Option<Wire>)
    requires { length line.old + 12 ≤ 80 }
    ensures text { line.new ≡ line.old ++ after_commas (map wire_text (option_to_list operand)) }
    ensures short { length line.new ≤ length line.old + 12 }
{
    if let Some(wire) = operand {
        line.push(b",");
        push_wire(line, wire);
    }
}

/// A comma and the angle or start value, where there is one.
fn push_value(line: &mut LineBuffer, kind: &Kind)
    requires { length line.old + 22 ≤ 80 }
    ensures text { line.new ≡ line.old ++ after_commas (value_texts kind.now) }
    ensures short { length line.new ≤ length line.old + 22 }
{
    match *kind {
        Kind::PrepX(start) | Kind::PrepZ(start) => {
            line.push(if start { b",1" } else { b",0" });
        }
        Kind::Rx(angle) | Kind::Ry(angle) | Kind::Rz(angle) => {
            line.push(b",");
            line.push_fixed(angle);
        }
        _ => {}
    }
}

fn line_of(gate: &Gate) -> LineBuffer
    ensures { result ≡ gate_line gate.now }
{
    let mut line = LineBuffer::new();
    line.push(gate.kind.name().text().as_bytes());
    line.push(b" ");
    push_wire(&mut line, gate.a);
    push_next(&mut line, gate.b);
    push_next(&mut line, gate.c);
    push_value(&mut line, &gate.kind);
    line.push(b"\n");
    line
}

/// Writes the gate line: the name, a space, the operands and then the angle or start value, joined by commas, and a line feed.
pub fn write_gate<O: Sink>(gate: &Gate, out: &mut O) -> Result<(), WriteFault>
    requires { O.is_ended out.old ≡ false }
    ensures open { O.is_ended out.new ≡ false }
    ensures appended { OnOk result (Wrote O.tells O.bytes out.old out.new (gate_line gate.now)) }
    ensures prefix { WrotePrefix O.tells O.bytes out.old out.new (gate_line gate.now) }
    ensures cause { HasCause (O.faults out.old) (O.faults out.new) result }
{
    let line = line_of(gate);
    write_all(out, line.as_bytes())
}
