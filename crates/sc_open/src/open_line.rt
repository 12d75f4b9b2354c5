//! Lines of OpenQASM, read strictly.
ghost use Rattle.std.specs.Prelude.{◌≡◌, ◌≢◌, ◌++◌, ◌∷◌, ℕ, Bool, List as Values, IfSome, IfNone, Option as Options, Some as SomeOf, None as NoneOf, true, codes};
ghost use Rattle.sc_base.specs.declared.names.Class.TheVariants as classes;
ghost use Rattle.sc_base.specs.declared.names.GateName.{GateName as Names};
ghost use Rattle.sc_base.specs.declared.names.GateName.TheVariants as names;
ghost use Rattle.sc_gate.specs.declared.gate.Kind.{Kind as Kinds};
ghost use Rattle.sc_gate.specs.declared.gate.Wire.{Wire as Wires};
ghost use Rattle.sc_gate.specs.Gates.{IsWellFormed};
ghost use Rattle.sc_gate.specs.Lines.{class_letter};
ghost use Rattle.sc_open.specs.declared.line.Line.{Line as Lines};
ghost use Rattle.sc_open.specs.Lowering.{back_line};
ghost use Rattle.sc_open.specs.OpenTexts.{line_word, operand_text, next_text, bit_text, gate_text, line_text};
ghost use Rattle.sc_open.specs.OpenStages.{counts, IsFormed, IsNextLine};
ghost use Rattle.sc_open.specs.OpenFronts.{has_word, likely_name, likely_controlled, likely_turned, IsOneOf, OperandFront, IsOneOfSome, HasNoComma, is_rotation, is_gate_kind, AngleFront, IsBehindWord, IsBit};

use crate::Line;
use crate::line::line_word;
use sc_base::{Class, GateName, take_fixed, take_number, take_text};
use sc_gate::{Gate, Kind, Wire, well_formed};

/// How many wires there are, and whether the register `u` is there.
#[derive(Clone, Copy, Debug, PartialEq, Eq)]
pub(crate) struct Registers {
    pub(crate) qubits: u32,
    pub(crate) cbits: u32,
    pub(crate) spare: bool,
}

/// The line that the bytes are, with its line feed, where it may stand over these registers.
pub(crate) fn read_line(bytes: &[u8], registers: Registers) -> Option<Line>
    ensures text { IfSome result (λ l. bytes.now ≡ line_text l) }
    ensures next { IfSome result (λ l. IsNextLine (counts registers.qubits registers.cbits) registers.spare l) }
    ensures none { IfNone result ((l : Lines) → IsNextLine (counts registers.qubits registers.cbits) registers.spare l → bytes.now ≡ line_text l → ⊥) }
{
    let Some((name, rest)) = take_word(bytes) else {
        return None;
    };
    match name {
        GateName::MeasZ => read_measure(rest, registers),
        _ => read_gate(rest, name, registers),
    }
}

/// The name of which a line that begins with these two bytes may have the word.
fn likely_name(first: u8, second: u8) -> Option<GateName>
    ensures likely { result ≡ likely_name first second }
    ensures has_word { IfSome result (λ n. has_word n ≡ true) }
{
    match first {
        b'x' => Some(GateName::X),
        b'y' => Some(GateName::Y),
        b'z' => Some(GateName::Z),
        b'h' => Some(GateName::H),
        b's' => Some(if second == b' ' {
            GateName::S
        } else {
            GateName::Sdag
        }),
        b't' => Some(if second == b' ' {
            GateName::T
        } else {
            GateName::Tdag
        }),
        b'c' => likely_controlled(second),
        b'r' => Some(likely_turned(second)),
        b'm' => Some(GateName::MeasZ),
        _ => None,
    }
}

/// The name of which a line that begins with `c` and this byte may have the word.
fn likely_controlled(second: u8) -> Option<GateName>
    ensures likely { result ≡ likely_controlled second }
    ensures has_word { IfSome result (λ n. has_word n ≡ true) }
{
    match second {
        b'x' => Some(GateName::Cnot),
        b'c' => Some(GateName::Toffoli),
        _ => None,
    }
}

/// The name of which a line that begins with `r` and this byte may have the word.
fn likely_turned(second: u8) -> GateName
    ensures likely { result ≡ likely_turned second }
    ensures has_word { has_word result ≡ true }
{
    match second {
        b'x' => GateName::Rx,
        b'y' => GateName::Ry,
        b'z' => GateName::Rz,
        _ => GateName::PrepZ,
    }
}

/// The name with whose word the bytes begin, and what follows the word.
fn take_word(bytes: &[u8]) -> Option<(GateName, &[u8])>
    ensures some { IfSome result (λ r. bytes.now ≡ line_word r.0 ++ r.1.now) }
    ensures has_word { IfSome result (λ r. has_word r.0 ≡ true) }
    ensures none { IfNone result ((n : Names) (rest : Values ℕ) → has_word n ≡ true → bytes.now ≡ line_word n ++ rest → ⊥) }
{
    let [first, second, ..] = bytes else {
        return None;
    };
    let Some(name) = likely_name(*first, *second) else {
        return None;
    };
    match take_text(bytes, line_word(name)) {
        Some(rest) => Some((name, rest)),
        None => None,
    }
}

/// What follows the letter of the class and the bracket, where they stand in front.
fn take_letter(bytes: &[u8], class: Class) -> Option<&[u8]>
    ensures some { IfSome result (λ rest. bytes.now ≡ class_letter class ∷ 91 ∷ rest.now) }
    ensures none { IfNone result ((rest : Values ℕ) → bytes.now ≡ class_letter class ∷ 91 ∷ rest → ⊥) }
{
    match class {
        Class::Q => take_text(bytes, b"q["),
        Class::C => take_text(bytes, b"c["),
    }
}

/// The wire of this class and below this number that stands in front, and what follows its bracket.
fn take_operand(bytes: &[u8], class: Class, size: u32) -> Option<(Wire, &[u8])>
    ensures some { IfSome result (λ r. OperandFront class size bytes.now r.0 r.1.now) }
    ensures none { IfNone result ((w : Wires) (rest : Values ℕ) → OperandFront class size bytes.now w rest → ⊥) }
{
    let Some(digits) = take_letter(bytes, class) else {
        return None;
    };
    let Some((number, after_number)) = take_number(digits) else {
        return None;
    };
    let Some(rest) = take_text(after_number, b"]") else {
        return None;
    };
    if number >= size as u64 {
        return None;
    }
    let number = number as u32;
    Some((Wire { class, number }, rest))
}

/// The qubit that stands behind a comma in front, where there is one, and what follows it.
fn take_next(bytes: &[u8], size: u32) -> (Option<Wire>, &[u8])
    ensures joined { bytes.now ≡ next_text result.0 ++ result.1.now }
    ensures one { IsOneOfSome classes.Q size result.0 }
    ensures only { (w : Wires) (rest : Values ℕ) → IsOneOf classes.Q size w → bytes.now ≡ 44 ∷ (operand_text w ++ rest) →
        (result.0 ≡ SomeOf w) × (result.1.now ≡ rest) }
    ensures nothing { HasNoComma bytes.now → (result.0 ≡ NoneOf) × (result.1.now ≡ bytes.now) }
{
    let Some(after_comma) = take_text(bytes, b",") else {
        return (None, bytes);
    };
    match take_operand(after_comma, Class::Q, size) {
        Some((wire, rest)) => (Some(wire), rest),
        None => (None, bytes),
    }
}

/// The kind of this name whose angle stands in front, where it has one, and what follows it. The name has a word, and is not MeasZ.
fn take_angle(name: GateName, bytes: &[u8]) -> Option<(Kind, &[u8])>
    requires has_word { has_word name ≡ true }
    requires no_measurement { name ≢ names.MeasZ }
    ensures some { IfSome result (λ r. AngleFront name bytes.now r.0 r.1.now) }
    ensures none { IfNone result ((k : Kinds) (rest : Values ℕ) → AngleFront name bytes.now k rest → ⊥) }
{
    match name {
        GateName::Rx | GateName::Ry | GateName::Rz => take_rotation(name, bytes),
        GateName::PrepZ => Some((Kind::PrepZ(false), bytes)),
        _ => match Kind::plain(name) {
            Some(kind) => Some((kind, bytes)),
            None => None,
        },
    }
}

/// The rotation of this name whose angle stands in front, and what follows the parenthesis and the space behind it.
fn take_rotation(name: GateName, bytes: &[u8]) -> Option<(Kind, &[u8])>
    requires { is_rotation name ≡ true }
    ensures some { IfSome result (λ r. AngleFront name bytes.now r.0 r.1.now) }
    ensures none { IfNone result ((k : Kinds) (rest : Values ℕ) → AngleFront name bytes.now k rest → ⊥) }
{
    let Some((angle, after_angle)) = take_fixed(bytes) else {
        return None;
    };
    let Some(rest) = take_text(after_angle, b") ") else {
        return None;
    };
    match Kind::rotation(name, angle) {
        Some(kind) => Some((kind, rest)),
        None => None,
    }
}

/// The line of a gate of this kind.
fn line_of(gate: Gate) -> Line
    requires kind { is_gate_kind gate.kind ≡ true }
    requires formed { IsWellFormed gate }
    ensures gate { back_line result ≡ gate }
    ensures formed { (spare : Bool) → IsFormed spare result }
    ensures text { line_text result ≡ gate_text gate }
{
    match gate.kind {
        Kind::PrepZ(_) => Line::Reset(gate.a),
        _ => Line::Gate(gate),
    }
}

/// The line of a gate or a reset of this name, from what stands behind its word. The name has a word, and is not MeasZ.
fn read_gate(bytes: &[u8], name: GateName, registers: Registers) -> Option<Line>
    requires has_word { has_word name ≡ true }
    requires no_measurement { name ≢ names.MeasZ }
    ensures some { IfSome result (λ l. IsBehindWord (counts registers.qubits registers.cbits) registers.spare name bytes.now l) }
    ensures none { IfNone result ((l : Lines) → IsBehindWord (counts registers.qubits registers.cbits) registers.spare name bytes.now l → ⊥) }
{
    let Some((kind, after_angle)) = take_angle(name, bytes) else {
        return None;
    };
    let Some((a, after_a)) = take_operand(after_angle, Class::Q, registers.qubits) else {
        return None;
    };
    let (b, after_b) = take_next(after_a, registers.qubits);
    let (c, after_c) = take_next(after_b, registers.qubits);
    if after_c != b";\n".as_slice() {
        return None;
    }
    let gate = Gate { kind, a, b, c };
    if well_formed(&gate) {
        Some(line_of(gate))
    } else {
        None
    }
}

/// Where the outcome of a measurement goes, from what stands behind the arrow.
fn read_bit(bytes: &[u8], cbits: u32, spare: bool) -> Option<Option<Wire>>
    ensures some { IfSome result (λ bit. bytes.now ≡ bit_text bit ++ codes ";\n") }
    ensures is_bit { IfSome result (λ bit. IsBit cbits spare bit) }
    ensures none { IfNone result ((bit : Options Wires) → IsBit cbits spare bit → bytes.now ≡ bit_text bit ++ codes ";\n" → ⊥) }
{
    if bytes == b"u[0];\n".as_slice() {
        return if spare { Some(None) } else { None };
    }
    let Some((bit, rest)) = take_operand(bytes, Class::C, cbits) else {
        return None;
    };
    if rest == b";\n".as_slice() {
        Some(Some(bit))
    } else {
        None
    }
}

/// The measurement, from what stands behind its word.
fn read_measure(bytes: &[u8], registers: Registers) -> Option<Line>
    ensures some { IfSome result (λ l. IsBehindWord (counts registers.qubits registers.cbits) registers.spare names.MeasZ bytes.now l) }
    ensures none { IfNone result ((l : Lines) → IsBehindWord (counts registers.qubits registers.cbits) registers.spare names.MeasZ bytes.now l → ⊥) }
{
    let Some((qubit, after_qubit)) = take_operand(bytes, Class::Q, registers.qubits) else {
        return None;
    };
    let Some(after_arrow) = take_text(after_qubit, b" -> ") else {
        return None;
    };
    match read_bit(after_arrow, registers.cbits, registers.spare) {
        Some(bit) => Some(Line::Measure(qubit, bit)),
        None => None,
    }
}
