//! Lines of an OpenQASM text, composed in a small buffer.
ghost use Rattle.std.specs.Prelude.{◌≡◌, ◌+◌, ◌≤◌, ◌++◌, false, length, OnOk};
ghost use Rattle.sc_base.specs.Causes.{HasCause};
ghost use Rattle.sc_base.specs.Output.{Wrote, WrotePrefix};
ghost use Rattle.sc_open.specs.declared.line.Line.TheVariants as Lines;
ghost use Rattle.sc_open.specs.Lowering.{back_line};
ghost use Rattle.sc_open.specs.OpenTexts.{line_word, angle_text, operand_text, next_text, bit_text, gate_text, line_text};

use sc_base::{Class, GateName, LineBuffer, Sink, WriteFault, write_all};
use sc_gate::{Gate, Kind, Wire};

/// A line of an OpenQASM text behind its registers.
#[derive(Clone, Copy, Debug, PartialEq, Eq)]
pub enum Line {
    /// A gate that is no preparation, no measurement and no Fredkin.
    Gate(Gate),
    /// The qubit is set to 0.
    Reset(Wire),
    /// The qubit is measured into the classical bit, or into `u[0]` where there is none.
    Measure(Wire, Option<Wire>),
}

impl Line {
    /// The gate that the line is read as: a reset is a `PrepZ` with the start value 0, and a measurement a `MeasZ`.
    pub fn gate(&self) -> Gate
        ensures { result ≡ back_line self.now }
    {
        match *self {
            Line::Gate(gate) => gate,
            Line::Reset(qubit) => Gate::one(Kind::PrepZ(false), qubit),
            Line::Measure(qubit, bit) => Gate {
                kind: Kind::MeasZ,
                a: qubit,
                b: bit,
                c: None,
            },
        }
    }
}

/// What the line of a gate of this name begins with: the name and a space, or at a rotation the name and a parenthesis. A reset
/// stands for PrepZ, and a measurement for MeasZ.
pub(crate) fn line_word(name: GateName) -> &'static [u8]
    ensures text { result.now ≡ line_word name }
    ensures short { length result.now ≤ 8 }
{
    match name {
        GateName::X => b"x ",
        GateName::Y => b"y ",
        GateName::Z => b"z ",
        GateName::H => b"h ",
        GateName::S => b"s ",
        GateName::T => b"t ",
        GateName::Sdag => b"sdg ",
        GateName::Tdag => b"tdg ",
        GateName::Cnot => b"cx ",
        GateName::Toffoli => b"ccx ",
        GateName::Rx => b"rx(",
        GateName::Ry => b"ry(",
        GateName::Rz => b"rz(",
        GateName::PrepZ => b"reset ",
        GateName::MeasZ => b"measure ",
        GateName::Fredkin | GateName::PrepX | GateName::MeasX => b"",
    }
}

/// Appends the angle and the parenthesis and space behind it, where the kind has an angle.
fn push_angle(line: &mut LineBuffer, kind: &Kind)
    requires { length line.old + 23 ≤ 80 }
    ensures text { line.new ≡ line.old ++ angle_text kind.now }
    ensures short { length line.new ≤ length line.old + 23 }
{
    if let Kind::Rx(angle) | Kind::Ry(angle) | Kind::Rz(angle) = *kind {
        line.push_fixed(angle);
        line.push(b") ");
    }
}

/// Appends the letter of the wire's class, and its number in brackets.
fn push_operand(line: &mut LineBuffer, wire: Wire)
    requires { length line.old + 13 ≤ 80 }
    ensures text { line.new ≡ line.old ++ operand_text wire }
    ensures short { length line.new ≤ length line.old + 13 }
{
    line.push(match wire.class {
        Class::Q => b"q[".as_slice(),
        Class::C => b"c[".as_slice(),
    });
    line.push_number(wire.number);
    line.push(b"]");
}

/// Appends a comma and the operand, where there is one.
fn push_next(line: &mut LineBuffer, operand: Option<Wire>)
    requires { length line.old + 14 ≤ 80 }
    ensures text { line.new ≡ line.old ++ next_text operand }
    ensures short { length line.new ≤ length line.old + 14 }
{
    if let Some(wire) = operand {
        line.push(b",");
        push_operand(line, wire);
    }
}

/// Appends the classical bit of a measurement, or `u[0]` where there is none.
fn push_bit(line: &mut LineBuffer, bit: Option<Wire>)
    requires { length line.old + 13 ≤ 80 }
    ensures text { line.new ≡ line.old ++ bit_text bit }
    ensures short { length line.new ≤ length line.old + 13 }
{
    match bit {
        Some(wire) => push_operand(line, wire),
        None => line.push(b"u[0]"),
    }
}

fn gate_line(gate: &Gate) -> LineBuffer
    ensures { result ≡ gate_text gate.now }
{
    let mut line = LineBuffer::new();
    line.push(line_word(gate.kind.name()));
    push_angle(&mut line, &gate.kind);
    push_operand(&mut line, gate.a);
    push_next(&mut line, gate.b);
    push_next(&mut line, gate.c);
    line.push(b";\n");
    line
}

fn reset_line(qubit: Wire) -> LineBuffer
    ensures { result ≡ line_text (Lines.Reset qubit) }
{
    let mut line = LineBuffer::new();
    line.push(b"reset ");
    push_operand(&mut line, qubit);
    line.push(b";\n");
    line
}

fn measure_line(qubit: Wire, bit: Option<Wire>) -> LineBuffer
    ensures { result ≡ line_text (Lines.Measure qubit bit) }
{
    let mut line = LineBuffer::new();
    line.push(b"measure ");
    push_operand(&mut line, qubit);
    line.push(b" -> ");
    push_bit(&mut line, bit);
    line.push(b";\n");
    line
}

/// Writes the line. At a fault of the sink a prefix of it is written.
pub(crate) fn write_line<O: Sink>(line: &Line, out: &mut O) -> Result<(), WriteFault>
    requires { O.is_ended out.old ≡ false }
    ensures open { O.is_ended out.new ≡ false }
    ensures appended { OnOk result (Wrote O.tells O.bytes out.old out.new (line_text line.now)) }
    ensures prefix { WrotePrefix O.tells O.bytes out.old out.new (line_text line.now) }
    ensures cause { HasCause (O.faults out.old) (O.faults out.new) result }
{
    let buffer = match line {
        Line::Gate(gate) => gate_line(gate),
        Line::Reset(qubit) => reset_line(*qubit),
        Line::Measure(qubit, bit) => measure_line(*qubit, *bit),
    };
    write_all(out, buffer.as_bytes())
}
