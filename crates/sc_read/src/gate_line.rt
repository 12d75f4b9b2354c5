//! Gate lines, read strictly.
ghost use Rattle.std.specs.Prelude.{◌≡◌, ◌≢◌, ◌<◌, ◌^◌, ◌++◌, ◌∷◌, [], ℕ, List as Values, IfSome, IfNone, All, Option, Bool, Some as SomeOf};
ghost use Rattle.sc_base.specs.declared.names.Class.{Class as Classes};
ghost use Rattle.sc_base.specs.declared.names.Fixed.{Fixed as Fixeds};
ghost use Rattle.sc_base.specs.declared.names.GateName.{GateName as Names};
ghost use Rattle.sc_base.specs.GateNames.{gate_text};
ghost use Rattle.sc_gate.specs.declared.gate.Gate.{Gate as Gates};
ghost use Rattle.sc_gate.specs.declared.gate.Kind.{Kind as Kinds};
ghost use Rattle.sc_gate.specs.declared.gate.Wire.{Wire as Wires};
ghost use Rattle.sc_gate.specs.Gates.{name_of};
ghost use Rattle.sc_gate.specs.Kinds.{qubit, on_one, rotation_kind, preparation_kind};
ghost use Rattle.sc_gate.specs.Lines.{class_letter, start_text, value_texts};
ghost use Rattle.sc_gate.specs.Numbers.{number_of};
ghost use Rattle.sc_gate.specs.Texts.{HasLine};
ghost use Rattle.sc_read.specs.GateFronts.{counts, GateFront, WireFront, NextWireFront, EndsWires, MoreWiresFront, KindFront};

use sc_base::{Class, GateName, take_fixed, take_number, take_text};
use sc_gate::{Gate, Kind, Wire, well_formed};

/// The gate with whose line the bytes begin, and what follows the line: a well-formed gate over so many wires, as it is written.
/// None where they begin with no such line.
pub(crate) fn take_gate(bytes: &[u8], qubits: u32, cbits: u32) -> Option<(Gate, &[u8])>
    ensures some { IfSome result (λ r. GateFront (counts qubits cbits) bytes.now r.0 r.1.now) }
    ensures none { IfNone result ((g : Gates) (rest : Values ℕ) → GateFront (counts qubits cbits) bytes.now g rest → ⊥) }
{
    let Some((name, after_name)) = take_name(bytes) else {
        return None;
    };
    let Some((a, after_a)) = take_wire(after_name, qubits, cbits) else {
        return None;
    };
    let (b, c, after_wires) = take_more_wires(after_a, qubits, cbits);
    let Some((kind, after_kind)) = take_kind(name, after_wires) else {
        return None;
    };
    let Some(rest) = take_text(after_kind, b"\n") else {
        return None;
    };
    let gate = Gate { kind, a, b, c };
    if well_formed(&gate) {
        Some((gate, rest))
    } else {
        None
    }
}

/// The gate whose line this is, where it is one of the shortest: on one qubit, one of so many, and with a name alone. None where the
/// line is any other one. Of such lines a text can have the most, so they are told apart by their bytes and tried before all others.
pub(crate) fn short_gate(line: &[u8], qubits: u32) -> Option<Gate>
    ensures { IfSome result (λ g. (cbits : ℕ) → GateFront (counts qubits cbits) line.now g []) }
{
    let Some((kind, wire)) = take_short_kind(line) else {
        return None;
    };
    let [b'q', digits @ ..] = wire else {
        return None;
    };
    let Some((number, rest)) = take_number(digits) else {
        return None;
    };
    match rest {
        [b'\n'] if number < qubits as u64 => Some(Gate::one(kind, Wire::qubit(number as u32))),
        _ => None,
    }
}

/// The kind with whose short name the bytes begin, and what follows the space behind it. It has neither an angle nor a start value,
/// and acts on one qubit.
fn take_short_kind(bytes: &[u8]) -> Option<(Kind, &[u8])>
    ensures some { IfSome result (λ r. bytes.now ≡ gate_text (name_of r.0) ++ 32 ∷ r.1.now) }
    ensures suits { IfSome result (λ r. (number : ℕ) → number < 2 ^ 32 → HasLine (on_one r.0 (qubit number))) }
    ensures plain { IfSome result (λ r. value_texts r.0 ≡ []) }
{
    match bytes {
        [b'X', b' ', rest @ ..] => Some((Kind::X, rest)),
        [b'Y', b' ', rest @ ..] => Some((Kind::Y, rest)),
        [b'Z', b' ', rest @ ..] => Some((Kind::Z, rest)),
        [b'H', b' ', rest @ ..] => Some((Kind::H, rest)),
        [b'S', b' ', rest @ ..] => Some((Kind::S, rest)),
        [b'T', b' ', rest @ ..] => Some((Kind::T, rest)),
        [b'S', b'd', b'a', b'g', b' ', rest @ ..] => Some((Kind::Sdag, rest)),
        [b'T', b'd', b'a', b'g', b' ', rest @ ..] => Some((Kind::Tdag, rest)),
        _ => None,
    }
}

/// The bytes before the first space, and what follows it.
fn cut_space(bytes: &[u8]) -> Option<(&[u8], &[u8])>
    ensures some { IfSome result (λ r. bytes.now ≡ r.0.now ++ 32 ∷ r.1.now) }
    ensures no_space { IfSome result (λ r. All (λ byte. byte ≢ 32) r.0.now) }
    ensures none { IfNone result ((front more : Values ℕ) → bytes.now ≡ front ++ 32 ∷ more → ⊥) }
{
    for (i, byte) in bytes.iter().enumerate() {
        if *byte == b' ' {
            return Some((&bytes[..i], &bytes[i + 1..]));
        }
    }
    None
}

/// The gate's name with which the bytes begin, and what follows the space behind it.
fn take_name(bytes: &[u8]) -> Option<(GateName, &[u8])>
    ensures some { IfSome result (λ r. bytes.now ≡ gate_text r.0 ++ 32 ∷ r.1.now) }
    ensures none { IfNone result ((name : Names) (rest : Values ℕ) → bytes.now ≡ gate_text name ++ 32 ∷ rest → ⊥) }
{
    if let Some((name, rest)) = take_late_name(bytes) {
        return Some((name, rest));
    }
    let Some((word, rest)) = cut_space(bytes) else {
        return None;
    };
    match GateName::from_text(word) {
        Some(name) => Some((name, rest)),
        None => None,
    }
}

/// The name with which the bytes begin, where it is one of the last ten, and what follows the space behind it. They are told by their bytes:
/// to compare the bytes with one name after the other takes as long as to read the rest of the line.
fn take_late_name(bytes: &[u8]) -> Option<(GateName, &[u8])>
    ensures { IfSome result (λ r. bytes.now ≡ gate_text r.0 ++ 32 ∷ r.1.now) }
{
    match bytes {
        [b'C', b'N', b'O', b'T', b' ', rest @ ..] => Some((GateName::Cnot, rest)),
        [b'T', b'o', b'f', b'f', b'o', b'l', b'i', b' ', rest @ ..] => Some((
            GateName::Toffoli,
            rest,
        )),
        [b'F', b'r', b'e', b'd', b'k', b'i', b'n', b' ', rest @ ..] => Some((
            GateName::Fredkin,
            rest,
        )),
        [b'R', b'x', b' ', rest @ ..] => Some((GateName::Rx, rest)),
        [b'R', b'y', b' ', rest @ ..] => Some((GateName::Ry, rest)),
        [b'R', b'z', b' ', rest @ ..] => Some((GateName::Rz, rest)),
        [b'P', b'r', b'e', b'p', b'X', b' ', rest @ ..] => Some((GateName::PrepX, rest)),
        [b'P', b'r', b'e', b'p', b'Z', b' ', rest @ ..] => Some((GateName::PrepZ, rest)),
        [b'M', b'e', b'a', b's', b'X', b' ', rest @ ..] => Some((GateName::MeasX, rest)),
        [b'M', b'e', b'a', b's', b'Z', b' ', rest @ ..] => Some((GateName::MeasZ, rest)),
        _ => None,
    }
}

/// The class whose letter stands in front, and what follows it.
pub(crate) fn take_class(bytes: &[u8]) -> Option<(Class, &[u8])>
    ensures some { IfSome result (λ r. bytes.now ≡ class_letter r.0 ∷ r.1.now) }
    ensures none { IfNone result ((class : Classes) (rest : Values ℕ) → bytes.now ≡ class_letter class ∷ rest → ⊥) }
{
    match bytes {
        [b'q', rest @ ..] => Some((Class::Q, rest)),
        [b'c', rest @ ..] => Some((Class::C, rest)),
        _ => None,
    }
}

/// How many wires of this class there are.
fn wires_of(class: Class, qubits: u32, cbits: u32) -> u32
    ensures { result ≡ number_of class (counts qubits cbits) }
{
    match class {
        Class::Q => qubits,
        Class::C => cbits,
    }
}

/// The wire that stands in front, one of so many, and what follows it.
pub(crate) fn take_wire(bytes: &[u8], qubits: u32, cbits: u32) -> Option<(Wire, &[u8])>
    ensures some { IfSome result (λ r. WireFront (counts qubits cbits) bytes.now r.0 r.1.now) }
    ensures none { IfNone result ((w : Wires) (rest : Values ℕ) → WireFront (counts qubits cbits) bytes.now w rest → ⊥) }
{
    let Some((class, digits)) = take_class(bytes) else {
        return None;
    };
    let Some((number, rest)) = take_number(digits) else {
        return None;
    };
    if number >= wires_of(class, qubits, cbits) as u64 {
        return None;
    }
    let number = number as u32;
    Some((Wire { class, number }, rest))
}

/// The wire that stands behind a comma in front, one of so many, and what follows it.
pub(crate) fn take_next_wire(bytes: &[u8], qubits: u32, cbits: u32) -> Option<(Wire, &[u8])>
    ensures some { IfSome result (λ r. NextWireFront (counts qubits cbits) bytes.now r.0 r.1.now) }
    ensures none { IfNone result ((w : Wires) (rest : Values ℕ) → NextWireFront (counts qubits cbits) bytes.now w rest → ⊥) }
{
    match take_text(bytes, b",") {
        Some(after_comma) => take_wire(after_comma, qubits, cbits),
        None => None,
    }
}

/// Up to two more wires in front, each behind a comma, and what follows them.
fn take_more_wires(bytes: &[u8], qubits: u32, cbits: u32) -> (Option<Wire>, Option<Wire>, &[u8])
    ensures front { MoreWiresFront (counts qubits cbits) bytes.now result.0 result.1 result.2.now }
    ensures only { (b c : Option Wires) (rest : Values ℕ) → MoreWiresFront (counts qubits cbits) bytes.now b c rest → EndsWires rest →
        (b ≡ result.0) × (c ≡ result.1) × (rest ≡ result.2.now) }
{
    match take_next_wire(bytes, qubits, cbits) {
        None => (None, None, bytes),
        Some((b, after_b)) => match take_next_wire(after_b, qubits, cbits) {
            None => (Some(b), None, after_b),
            Some((c, after_c)) => (Some(b), Some(c), after_c),
        },
    }
}

/// The kind of this name whose angle or start value stands in front, where it has one, and what follows it.
fn take_kind(name: GateName, bytes: &[u8]) -> Option<(Kind, &[u8])>
    ensures some { IfSome result (λ r. KindFront name bytes.now r.0 r.1.now) }
    ensures none { IfNone result ((k : Kinds) (rest : Values ℕ) → KindFront name bytes.now k rest → ⊥) }
{
    if let Some(kind) = Kind::plain(name) {
        return Some((kind, bytes));
    }
    match take_rotation(name, bytes) {
        Some((kind, rest)) => Some((kind, rest)),
        None => take_preparation(name, bytes),
    }
}

/// The rotation of this name whose angle stands behind a comma in front, and what follows it.
fn take_rotation(name: GateName, bytes: &[u8]) -> Option<(Kind, &[u8])>
    ensures some { IfSome result (λ r. KindFront name bytes.now r.0 r.1.now) }
    ensures none { IfNone result ((k : Kinds) (angle : Fixeds) (rest : Values ℕ) → rotation_kind name angle ≡ SomeOf k → KindFront name bytes.now k rest → ⊥) }
{
    let Some(after_comma) = take_text(bytes, b",") else {
        return None;
    };
    let Some((angle, rest)) = take_fixed(after_comma) else {
        return None;
    };
    match Kind::rotation(name, angle) {
        Some(kind) => Some((kind, rest)),
        None => None,
    }
}

/// The preparation of this name whose start value stands behind a comma in front, and what follows it.
fn take_preparation(name: GateName, bytes: &[u8]) -> Option<(Kind, &[u8])>
    ensures some { IfSome result (λ r. KindFront name bytes.now r.0 r.1.now) }
    ensures none { IfNone result ((k : Kinds) (start : Bool) (rest : Values ℕ) → preparation_kind name start ≡ SomeOf k → KindFront name bytes.now k rest → ⊥) }
{
    let Some((start, rest)) = take_start(bytes) else {
        return None;
    };
    match Kind::preparation(name, start) {
        Some(kind) => Some((kind, rest)),
        None => None,
    }
}

/// The start value behind a comma in front, and what follows it.
fn take_start(bytes: &[u8]) -> Option<(bool, &[u8])>
    ensures some { IfSome result (λ r. bytes.now ≡ 44 ∷ (start_text r.0 ++ r.1.now)) }
    ensures none { IfNone result ((start : Bool) (rest : Values ℕ) → bytes.now ≡ 44 ∷ (start_text start ++ rest) → ⊥) }
{
    match bytes {
        [b',', b'0', rest @ ..] => Some((false, rest)),
        [b',', b'1', rest @ ..] => Some((true, rest)),
        _ => None,
    }
}
