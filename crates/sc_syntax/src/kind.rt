//! Kinds of names and of operations on numbers.
ghost use Rattle.std.specs.Prelude.{◌≡◌};
ghost use Rattle.sc_syntax.specs.NameKind.{wider, kind_of_unary, kind_of_operation};

use crate::tree::{BinOp, NumSort, UnOp};
use sc_base::Class;

/// What a name of numbers or wires stands for.
#[derive(Clone, Copy, Debug, PartialEq, Eq)]
pub enum NameKind {
    Number(NumSort),
    /// One wire.
    One(Class),
    /// An array of wires.
    Many(Class),
}

impl NumSort {
    /// The kind to which both operands are brought: a double where one of them is a double.
    pub fn wider(self, other: NumSort) -> NumSort
        ensures { result ≡ wider self other }
    {
        match (self, other) {
            (NumSort::Int, NumSort::Int) => NumSort::Int,
            _ => NumSort::Double,
        }
    }
}

impl UnOp {
    /// The kind of the operation on an operand of this kind.
    pub fn kind(self, operand: NumSort) -> NumSort
        ensures { result ≡ kind_of_unary self operand }
    {
        match self {
            UnOp::Not => NumSort::Int,
            UnOp::Minus | UnOp::Plus => operand,
        }
    }
}

impl BinOp {
    /// The kind of the operation on operands of these kinds. `None` is for `%`, `<<` and `>>` with a double.
    pub fn kind(self, left: NumSort, right: NumSort) -> Option<NumSort>
        ensures { result ≡ kind_of_operation self left right }
    {
        match self {
            BinOp::Add | BinOp::Sub | BinOp::Mul | BinOp::Div => Some(left.wider(right)),
            BinOp::Rem | BinOp::Shl | BinOp::Shr => match (left, right) {
                (NumSort::Int, NumSort::Int) => Some(NumSort::Int),
                _ => None,
            },
            BinOp::Or
            | BinOp::And
            | BinOp::Eq
            | BinOp::Ne
            | BinOp::Lt
            | BinOp::Le
            | BinOp::Gt
            | BinOp::Ge => Some(NumSort::Int),
        }
    }
}
