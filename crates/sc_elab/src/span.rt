//! Wires that stand next to one another.
ghost use Rattle.std.specs.Prelude.{◌+◌, ◌≤◌};

use sc_base::Class;

/// Wires of one class that stand next to one another, by their local numbers: so many from a first one on.
#[derive(Clone, Copy)]
pub(crate) struct Span {
    pub(crate) class: Class,
    pub(crate) first: u32,
    pub(crate) len: u32,
    ghost fits: { first + len ≤ 65536 },
}
