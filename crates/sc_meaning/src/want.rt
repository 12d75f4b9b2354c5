//! What a call wants as its arguments.
ghost use Rattle.std.specs.Prelude.{◌≡◌};
ghost use Rattle.sc_meaning.specs.Arguments.{gate_wants, want_of};
ghost use Rattle.sc_syntax.specs.Alike.{pure_sort};

use sc_base::{Class, GateName};
use sc_syntax::{NumSort, Sort};

/// What stands in the place of a parameter: one wire, an array of wires, or a number.
#[derive(Clone, Copy, Debug, PartialEq, Eq)]
pub enum Want {
    One(Class),
    Many(Class),
    Number(NumSort),
}

impl Want {
    /// What a parameter wants.
    pub fn of(sort: &Sort) -> Want
        ensures { result ≡ want_of (pure_sort sort.now) }
    {
        match sort {
            Sort::One(class) => Want::One(*class),
            Sort::Many(class, _) => Want::Many(*class),
            Sort::Int => Want::Number(NumSort::Int),
            Sort::Double => Want::Number(NumSort::Double),
        }
    }
}

/// What a gate with so many arguments takes: a preparation takes a start value where it has two.
pub fn gate_wants(gate: GateName, count: usize) -> &'static [Want]
    ensures { result.now ≡ gate_wants gate count }
{
    match gate {
        GateName::Cnot => &[Want::One(Class::Q), Want::One(Class::Q)],
        GateName::Toffoli | GateName::Fredkin => &[
            Want::One(Class::Q),
            Want::One(Class::Q),
            Want::One(Class::Q),
        ],
        GateName::Rx | GateName::Ry | GateName::Rz => {
            &[Want::One(Class::Q), Want::Number(NumSort::Double)]
        }
        GateName::PrepX | GateName::PrepZ if count == 2 => {
            &[Want::One(Class::Q), Want::Number(NumSort::Int)]
        }
        _ => &[Want::One(Class::Q)],
    }
}
