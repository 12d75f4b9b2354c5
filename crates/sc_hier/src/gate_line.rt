//! Lines of gates, composed before there is a sink.
ghost use Rattle.std.specs.Prelude.{◌≡◌, ◌≤◌, length, map, option_to_list};
ghost use Rattle.sc_base.specs.Decimals.{fixed_text};
ghost use Rattle.sc_gate.specs.Lines.{wire_text, value_texts, after_commas, gate_line};

use sc_base::{Failed, Fixed, LineBuffer, Sink};
use sc_gate::{Gate, Kind, Wire, write_gate};

/// How many bytes a line buffer holds.
const ROOM: usize = 80;

/// A line buffer as a sink. A write takes what there is room for, and fails where there is none.
#[derive(Drop)]
struct ShortLine {
    line: LineBuffer,
    ended: bool,
}

impl Sink for ShortLine {
    ghost use Rattle.std.specs.Prelude.{true, nat_le, ◌-◌, ◌^◌, if◌then◌else◌, length};

    ghost tells = { λ _. true };

    ghost bytes = { λ short. short.line };

    // at the last number where there is no room
    ghost faults = { λ short. if nat_le 80 (length short.line) then 2 ^ 64 - 1 else 0 };

    ghost is_ended = { λ short. short.ended };

    fn write(&mut self, piece: &[u8]) -> Result<usize, Failed> {
        let count = piece.len().min(ROOM.saturating_sub(self.line.len()));
        if count == 0 {
            return Err(Failed);
        }
        self.line.push(&piece[..count]);
        Ok(count)
    }

    fn finish(&mut self) -> Result<(), Failed> {
        self.ended = true;
        Ok(())
    }

    fn ended(&self) -> bool {
        self.ended
    }
}

/// Tells that the text of a wire is short.
fn wire_is_short(wire: Wire)
    ensures { length (wire_text wire) ≤ 11 }
{
    let _ = wire.number;
}

/// Tells that the text of an operand is short.
fn operand_is_short(operand: Option<Wire>)
    ensures { length (after_commas (map wire_text (option_to_list operand))) ≤ 12 }
{
    if let Some(wire) = operand {
        wire_is_short(wire);
    }
}

/// Tells that the text of an angle is short.
fn angle_is_short(angle: Fixed)
    ensures { length (fixed_text angle.0) ≤ 21 }
{
    let _ = angle.0;
}

/// Tells that the text of an angle or start value is short.
fn value_is_short(kind: Kind)
    ensures { length (after_commas (value_texts kind)) ≤ 22 }
{
    match kind {
        Kind::Rx(angle) => angle_is_short(angle),
        Kind::Ry(angle) => angle_is_short(angle),
        Kind::Rz(angle) => angle_is_short(angle),
        _ => {}
    }
}

/// Tells that a gate line has room in a line buffer.
fn gate_is_short(gate: &Gate)
    ensures { length (gate_line gate.now) ≤ 66 }
{
    wire_is_short(gate.a);
    operand_is_short(gate.b);
    operand_is_short(gate.c);
    value_is_short(gate.kind);
}

/// The line of a gate.
pub fn line_of(gate: &Gate) -> LineBuffer
    ensures { result ≡ gate_line gate.now }
{
    gate_is_short(gate);
    let mut short = ShortLine {
        line: LineBuffer::new(),
        ended: false,
    };
    write_gate(gate, &mut short).unwrap();
    short.line
}
