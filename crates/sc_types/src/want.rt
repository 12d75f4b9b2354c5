//! What an argument is to be.
ghost use Rattle.std.specs.Prelude.{◌≡◌};
ghost use Rattle.sc_types.specs.Wires.{same_class as same, suits as suited, suits_indexed as suited_indexed};

use sc_base::Class;
use sc_syntax::NameKind;

/// What the callee of a call wants in the place of an argument.
#[derive(Clone, Copy, Debug, PartialEq, Eq)]
pub enum Want {
    /// One wire of the class: a name of one, or an element of an array.
    OneWire(Class),
    /// A whole array of wires of the class.
    ManyWires(Class),
    /// A qubit array or one qubit, for a word of a classical function.
    Word,
    AnInt,
    ADouble,
}

fn same_class(a: Class, b: Class) -> bool
    ensures { result ≡ same a b }
{
    match (a, b) {
        (Class::Q, Class::Q) | (Class::C, Class::C) => true,
        _ => false,
    }
}

/// Whether a name of this kind, without an index, is what is wanted.
pub(crate) fn suits(want: Want, kind: NameKind) -> bool
    ensures { result ≡ suited want kind }
{
    match (want, kind) {
        (Want::OneWire(class), NameKind::One(other)) => same_class(class, other),
        (Want::ManyWires(class), NameKind::Many(other)) => same_class(class, other),
        (Want::Word, NameKind::One(other) | NameKind::Many(other)) => same_class(Class::Q, other),
        _ => false,
    }
}

/// Whether one element of a name of this kind is what is wanted.
pub(crate) fn suits_indexed(want: Want, kind: NameKind) -> bool
    ensures { result ≡ suited_indexed want kind }
{
    match (want, kind) {
        (Want::OneWire(class), NameKind::Many(other)) => same_class(class, other),
        (Want::Word, NameKind::Many(other)) => same_class(Class::Q, other),
        _ => false,
    }
}
