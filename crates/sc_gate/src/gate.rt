//! The types of wires and gates, and what is known of one gate.
ghost use Rattle.std.specs.Prelude.{◌≡◌, ◌↔◌, IsTrue, [], ◌∷◌, slice_get, option_to_list};
ghost use Rattle.std.specs.List.{list_any};
ghost use Rattle.sc_gate.specs.Kinds.{qubit, cbit, on_one, on_two, on_three, gate_on, plain_kind, rotation_kind, preparation_kind};
ghost use Rattle.sc_gate.specs.Gates.{name_of, qubits_of, operands, SuitsName, IsWellFormed, undo, Cancels};
ghost use Rattle.sc_gate.specs.Wires.{member, Shares, shares};

use sc_base::{Class, Fixed, GateName};

/// A wire of its class. Qubits and classical bits are numbered apart, each from 0.
#[derive(Clone, Copy, Debug, Default, PartialEq, Eq)]
pub struct Wire {
    pub class: Class,
    pub number: u32,
}

/// What a gate does: its name, with the angle of a rotation or the start value of a preparation.
#[derive(Clone, Copy, Debug, PartialEq, Eq)]
pub enum Kind {
    X,
    Y,
    Z,
    H,
    S,
    T,
    Sdag,
    Tdag,
    Cnot,
    Toffoli,
    Fredkin,
    Rx(Fixed),
    Ry(Fixed),
    Rz(Fixed),
    PrepX(bool),
    PrepZ(bool),
    MeasX,
    MeasZ,
}

/// A kind and its operands, in the order `a`, `b`, `c`. The classical bit of a measurement is `b`.
#[derive(Clone, Copy, Debug, PartialEq, Eq)]
pub struct Gate {
    pub kind: Kind,
    pub a: Wire,
    pub b: Option<Wire>,
    pub c: Option<Wire>,
}

impl Wire {
    /// The qubit of this number.
    pub fn qubit(number: u32) -> Wire
        ensures { result ≡ qubit number }
    {
        Wire {
            class: Class::Q,
            number,
        }
    }

    /// The classical bit of this number.
    pub fn cbit(number: u32) -> Wire
        ensures { result ≡ cbit number }
    {
        Wire {
            class: Class::C,
            number,
        }
    }
}

impl Gate {
    /// The gate of this kind on one wire.
    pub fn one(kind: Kind, a: Wire) -> Gate
        ensures { result ≡ on_one kind a }
    {
        Gate {
            kind,
            a,
            b: None,
            c: None,
        }
    }

    /// The gate of this kind on two wires in this order.
    pub fn two(kind: Kind, a: Wire, b: Wire) -> Gate
        ensures { result ≡ on_two kind a b }
    {
        Gate {
            kind,
            a,
            b: Some(b),
            c: None,
        }
    }

    /// The gate of this kind on three wires in this order.
    pub fn three(kind: Kind, a: Wire, b: Wire, c: Wire) -> Gate
        ensures { result ≡ on_three kind a b c }
    {
        Gate {
            kind,
            a,
            b: Some(b),
            c: Some(c),
        }
    }

    /// The gate of this kind on these wires in order. None where there is no wire or more than three. Ask `well_formed` whether
    /// they suit the kind.
    pub fn on(kind: Kind, wires: &[Wire]) -> Option<Gate>
        ensures { result ≡ gate_on kind wires.now }
    {
        match *wires {
            [a] => Some(Gate::one(kind, a)),
            [a, b] => Some(Gate::two(kind, a, b)),
            [a, b, c] => Some(Gate::three(kind, a, b, c)),
            _ => None,
        }
    }
}

impl Kind {
    /// The kind of a name that has neither an angle nor a start value. None for a rotation or a preparation.
    pub fn plain(name: GateName) -> Option<Kind>
        ensures { result ≡ plain_kind name }
    {
        match name {
            GateName::X => Some(Kind::X),
            GateName::Y => Some(Kind::Y),
            GateName::Z => Some(Kind::Z),
            GateName::H => Some(Kind::H),
            GateName::S => Some(Kind::S),
            GateName::T => Some(Kind::T),
            GateName::Sdag => Some(Kind::Sdag),
            GateName::Tdag => Some(Kind::Tdag),
            GateName::Cnot => Some(Kind::Cnot),
            GateName::Toffoli => Some(Kind::Toffoli),
            GateName::Fredkin => Some(Kind::Fredkin),
            GateName::MeasX => Some(Kind::MeasX),
            GateName::MeasZ => Some(Kind::MeasZ),
            GateName::Rx | GateName::Ry | GateName::Rz | GateName::PrepX | GateName::PrepZ => None,
        }
    }

    /// The rotation of this name by an angle. None where the name is not Rx, Ry or Rz.
    pub fn rotation(name: GateName, angle: Fixed) -> Option<Kind>
        ensures { result ≡ rotation_kind name angle }
    {
        match name {
            GateName::Rx => Some(Kind::Rx(angle)),
            GateName::Ry => Some(Kind::Ry(angle)),
            GateName::Rz => Some(Kind::Rz(angle)),
            _ => None,
        }
    }

    /// The preparation of this name with a start value. None where the name is not PrepX or PrepZ.
    pub fn preparation(name: GateName, start: bool) -> Option<Kind>
        ensures { result ≡ preparation_kind name start }
    {
        match name {
            GateName::PrepX => Some(Kind::PrepX(start)),
            GateName::PrepZ => Some(Kind::PrepZ(start)),
            _ => None,
        }
    }

    /// The name, without the angle or start value.
    pub fn name(&self) -> GateName
        ensures { result ≡ name_of self.now }
    {
        match *self {
            Kind::X => GateName::X,
            Kind::Y => GateName::Y,
            Kind::Z => GateName::Z,
            Kind::H => GateName::H,
            Kind::S => GateName::S,
            Kind::T => GateName::T,
            Kind::Sdag => GateName::Sdag,
            Kind::Tdag => GateName::Tdag,
            Kind::Cnot => GateName::Cnot,
            Kind::Toffoli => GateName::Toffoli,
            Kind::Fredkin => GateName::Fredkin,
            Kind::Rx(_) => GateName::Rx,
            Kind::Ry(_) => GateName::Ry,
            Kind::Rz(_) => GateName::Rz,
            Kind::PrepX(_) => GateName::PrepX,
            Kind::PrepZ(_) => GateName::PrepZ,
            Kind::MeasX => GateName::MeasX,
            Kind::MeasZ => GateName::MeasZ,
        }
    }
}

/// The number of qubits of a gate of this kind, from 1 to 3. The classical bit of a measurement does not count.
pub fn arity(kind: &Kind) -> u32
    ensures { result ≡ qubits_of (name_of kind.now) }
{
    match kind.name() {
        GateName::Cnot => 2,
        GateName::Toffoli | GateName::Fredkin => 3,
        _ => 1,
    }
}

/// Operand `i`, counted from 0; None where the gate has no such operand.
pub fn wire_at(gate: &Gate, i: u32) -> Option<Wire>
    ensures { result ≡ slice_get (operands gate.now) i }
{
    match (i, gate.b) {
        (0, _) => Some(gate.a),
        (1, Some(b)) => Some(b),
        (1, None) | (2, Some(_)) => gate.c,
        _ => None,
    }
}

/// Whether the gate has the operands of its kind in number and class, all distinct, with `c` only where `b` is.
pub fn well_formed(gate: &Gate) -> bool
    ensures { IsTrue result ↔ IsWellFormed gate.now }
{
    let Gate { kind, a, b, c } = *gate;
    let is_qubit = a.class == Class::Q;
    match (b, c) {
        (None, None) => is_qubit && arity(&kind) == 1,
        (Some(b), None) => is_qubit && a != b && suits_second(&kind, b.class),
        (Some(b), Some(c)) => {
            let all_qubits = is_qubit && b.class == Class::Q && c.class == Class::Q;
            all_qubits && arity(&kind) == 3 && a != b && a != c && b != c
        }
        (None, Some(_)) => false,
    }
}

/// Whether name and value are the same.
pub fn same_kind(a: &Gate, b: &Gate) -> bool
    ensures { IsTrue result ↔ (a.now.kind ≡ b.now.kind) }
{
    a.kind == b.kind
}

/// Whether kind and operands are the same.
pub fn same_gate(a: &Gate, b: &Gate) -> bool
    ensures { IsTrue result ↔ (a.now ≡ b.now) }
{
    same_kind(a, b) && same_operands(a, b)
}

/// Whether the gates share a wire.
pub fn depends(a: &Gate, b: &Gate) -> bool
    ensures test { result ≡ shares a.now b.now }
    ensures wire { IsTrue result ↔ Shares a.now b.now }
{
    has_operand_of(b, a)
}

fn has_operand_of(gate: &Gate, other: &Gate) -> bool
    ensures { result ≡ shares other.now gate.now }
{
    has_wire(gate, other.a) || has_any(gate, other.b) || has_any(gate, other.c)
}

/// Whether the wire is an operand of the gate.
pub(crate) fn has_wire(gate: &Gate, wire: Wire) -> bool
    ensures { result ≡ member wire (operands gate.now) }
{
    gate.a == wire || gate.b == Some(wire) || gate.c == Some(wire)
}

fn has_any(gate: &Gate, wire: Option<Wire>) -> bool
    ensures { result ≡ list_any (λ w. member w (operands gate.now)) (option_to_list wire) }
{
    match wire {
        Some(wire) => has_wire(gate, wire),
        None => false,
    }
}

/// Whether two neighbouring gates undo each other: both are well formed, with the same operands in the same order, and are
/// X, Y, Z, H, CNOT, Toffoli or Fredkin twice, or S and Sdag, or T and Tdag, in either order.
pub fn cancels(a: &Gate, b: &Gate) -> bool
    ensures { IsTrue result ↔ Cancels a.now b.now }
{
    undoes(&a.kind, &b.kind) && same_operands(a, b) && well_formed(a) && well_formed(b)
}

fn same_operands(a: &Gate, b: &Gate) -> bool
    ensures { IsTrue result ↔ ((a.now.a ≡ b.now.a) × (a.now.b ≡ b.now.b) × (a.now.c ≡ b.now.c)) }
{
    a.a == b.a && a.b == b.b && a.c == b.c
}

fn undoes(a: &Kind, b: &Kind) -> bool
    ensures { result ≡ undo a.now b.now }
{
    match (*a, *b) {
        (Kind::X, Kind::X)
        | (Kind::Y, Kind::Y)
        | (Kind::Z, Kind::Z)
        | (Kind::H, Kind::H)
        | (Kind::Cnot, Kind::Cnot)
        | (Kind::Toffoli, Kind::Toffoli)
        | (Kind::Fredkin, Kind::Fredkin)
        | (Kind::S, Kind::Sdag)
        | (Kind::Sdag, Kind::S)
        | (Kind::T, Kind::Tdag)
        | (Kind::Tdag, Kind::T) => true,
        _ => false,
    }
}

/// Whether a gate of this kind may have one more operand after its first, of this class.
fn suits_second(kind: &Kind, class: Class) -> bool
    ensures { IsTrue result ↔ SuitsName (name_of kind.now) (Class.Q ∷ class ∷ []) }
{
    match class {
        Class::Q => arity(kind) == 2,
        Class::C => matches!(kind, Kind::MeasX | Kind::MeasZ),
    }
}
