//! Typed word expressions.
ghost use Rattle.std.specs.Prelude.{◌≡◌};

use sc_base::{List, Memory, Place};
use sc_syntax::{ShiftLink, WordOp};

/// Why a classical function is refused, and where.
#[derive(Clone, Copy, Debug, PartialEq, Eq)]
pub enum WordFault {
    UnknownName(Place),
    Redefined(Place),
    BadWidth(Place),
    Memory,
}

impl From<Memory> for WordFault {
    ghost use Rattle.sc_word.specs.declared.tree.WordFault.TheVariants.{Memory as OutOfMemory};

    ghost from_gives = { λ _ e. e ≡ OutOfMemory };

    fn from(_: Memory) -> Self {
        WordFault::Memory
    }
}

/// A word expression and its width, from 1 to 64.
#[cycle(typed)]
#[derive(Drop)]
pub struct TypedExpr {
    pub width: u32,
    pub node: TypedNode,
}

/// The forms of a typed word expression. A `Word` is a parameter or a binding by its number: the
/// parameters come first, then the bindings, from 0. Parentheses leave no node.
#[cycle(typed)]
#[derive(Drop)]
pub enum TypedNode {
    Literal(u64),
    Word(u32),
    /// `~e`.
    Not(Box<TypedExpr>),
    /// Operators of one level of the grammar, grouped from the left.
    Chain(Box<TypedExpr>, Vec<TypedLink>),
    /// Shifts by numbers, grouped from the left.
    Shift(Box<TypedExpr>, List<ShiftLink>),
    /// `test ? yes : no`.
    Pick(Box<TypedExpr>, Box<TypedExpr>, Box<TypedExpr>),
    /// The word, with zeros above it.
    Ext(Box<TypedExpr>),
    /// The lowest bits of the word.
    Low(Box<TypedExpr>),
}

/// An operator of a chain and its right operand.
#[cycle(typed)]
#[derive(Drop)]
pub struct TypedLink {
    pub op: WordOp,
    pub right: TypedExpr,
}
