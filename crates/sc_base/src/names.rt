//! Places in a source, fixed-point numbers, wire classes and gate names.
ghost use Rattle.std.specs.Prelude.{◌≡◌, ◌≢◌, ◌≤◌, ◌<◌, length, MatchOption};
ghost use Rattle.sc_base.specs.GateNames.{gate_text, place_of, first_named, gate_named};
ghost use Rattle.sc_base.specs.declared.names.GateName.{GateName as Gates};

/// Where something stands in a source. Lines and columns count from 1; a column counts bytes.
#[derive(Clone, Copy, Debug, PartialEq, Eq)]
pub struct Place {
    pub line: u32,
    pub column: u32,
}

/// A `double` of the language: a whole number of units of 10^-12, from -9223372036854775808 to
/// 9223372036854775807 units.
#[derive(Clone, Copy, Debug, PartialEq, Eq, Hash)]
pub struct Fixed(pub i64);

/// What a wire carries: a qubit (`Q`) or a classical bit (`C`). The default, a qubit, fills the unused places of short lists of wires.
#[derive(Clone, Copy, Debug, Default, PartialEq, Eq, Hash)]
pub enum Class {
    #[default]
    Q,
    C,
}

/// The gates of the language. This order is the order of kinds in every list and text.
#[derive(Clone, Copy, Debug, PartialEq, Eq)]
pub enum GateName {
    X,
    Y,
    Z,
    H,
    S,
    T,
    Sdag,
    Tdag,
    Cnot,
    Toffoli,
    Fredkin,
    Rx,
    Ry,
    Rz,
    PrepX,
    PrepZ,
    MeasX,
    MeasZ,
}

/// The first of some names that is spelled so.
fn first_named(mut names: &[GateName], text: &[u8]) -> Option<GateName>
    ensures { result ≡ first_named names.entry.now text.now }
{
    while let [name, rest @ ..] = names {
        if name.text().as_bytes() == text {
            return Some(*name);
        }
        names = rest;
    }
    None
}

impl GateName {
    /// All names, in their order.
    pub const ALL: [GateName; 18] = [
        GateName::X,
        GateName::Y,
        GateName::Z,
        GateName::H,
        GateName::S,
        GateName::T,
        GateName::Sdag,
        GateName::Tdag,
        GateName::Cnot,
        GateName::Toffoli,
        GateName::Fredkin,
        GateName::Rx,
        GateName::Ry,
        GateName::Rz,
        GateName::PrepX,
        GateName::PrepZ,
        GateName::MeasX,
        GateName::MeasZ,
    ];

    /// The place of the name in `ALL`, from 0.
    pub fn place(self) -> usize
        ensures place { result ≡ place_of self }
        ensures within { result < 18 }
    {
        self as usize
    }

    /// The name as it is spelled in sources and texts.
    pub fn text(self) -> &'static str
        ensures text { result.now ≡ gate_text self }
        ensures short { length result.now ≤ 7 }
    {
        match self {
            GateName::X => "X",
            GateName::Y => "Y",
            GateName::Z => "Z",
            GateName::H => "H",
            GateName::S => "S",
            GateName::T => "T",
            GateName::Sdag => "Sdag",
            GateName::Tdag => "Tdag",
            GateName::Cnot => "CNOT",
            GateName::Toffoli => "Toffoli",
            GateName::Fredkin => "Fredkin",
            GateName::Rx => "Rx",
            GateName::Ry => "Ry",
            GateName::Rz => "Rz",
            GateName::PrepX => "PrepX",
            GateName::PrepZ => "PrepZ",
            GateName::MeasX => "MeasX",
            GateName::MeasZ => "MeasZ",
        }
    }

    /// The gate that is spelled so, and None where no gate is. Case matters.
    pub fn from_text(text: &[u8]) -> Option<GateName>
        ensures exact { MatchOption result ((name : Gates) → gate_text name ≢ text.now) (λ name. gate_text name ≡ text.now) }
        ensures value { result ≡ gate_named text.now }
    {
        first_named(&GateName::ALL, text)
    }
}
