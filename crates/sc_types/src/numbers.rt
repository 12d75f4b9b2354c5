//! Expressions of numbers.
ghost use Rattle.std.specs.Prelude.{◌≡◌};
ghost use Rattle.sc_syntax.specs.NameKind.{kind_of_operation, kind_of_unary, wider as wider_of};
ghost use Rattle.sc_types.specs.Sorts.{sort_of, sort_of_name, fault_of_indexed, or_wrong, or_not_int, int_of};

use crate::fault::TypeFault;
use crate::names::Names;
use sc_base::{Class, Place};
use sc_syntax::{BinOp, Expr, NameKind, Node, NumSort, UnOp};

fn sort_of_name(at: Place, kind: Option<NameKind>) -> Result<NumSort, TypeFault>
    ensures { result ≡ sort_of_name at kind }
{
    match kind {
        None => Err(TypeFault::UnknownName(at)),
        Some(NameKind::Number(sort)) => Ok(sort),
        Some(NameKind::One(Class::C) | NameKind::Many(Class::C)) => Err(TypeFault::MeasuredUse(at)),
        Some(NameKind::One(Class::Q) | NameKind::Many(Class::Q)) => Err(TypeFault::WrongKind(at)),
    }
}

fn fault_of_indexed(at: Place, kind: Option<NameKind>) -> TypeFault
    ensures { result ≡ fault_of_indexed at kind }
{
    match kind {
        None => TypeFault::UnknownName(at),
        Some(NameKind::One(Class::C) | NameKind::Many(Class::C)) => TypeFault::MeasuredUse(at),
        Some(_) => TypeFault::WrongKind(at),
    }
}

fn wider(a: NumSort, b: NumSort) -> NumSort
    ensures { result ≡ wider_of a b }
{
    match (a, b) {
        (NumSort::Int, NumSort::Int) => NumSort::Int,
        _ => NumSort::Double,
    }
}

pub(crate) fn operated(at: Place, op: BinOp, a: NumSort, b: NumSort) -> Result<NumSort, TypeFault>
    ensures { result ≡ or_wrong at (kind_of_operation op a b) }
{
    match op {
        BinOp::Add | BinOp::Sub | BinOp::Mul | BinOp::Div => Ok(wider(a, b)),
        BinOp::Rem | BinOp::Shl | BinOp::Shr => match (a, b) {
            (NumSort::Int, NumSort::Int) => Ok(NumSort::Int),
            _ => Err(TypeFault::WrongKind(at)),
        },
        _ => Ok(NumSort::Int),
    }
}

fn unary(op: UnOp, a: NumSort) -> NumSort
    ensures { result ≡ kind_of_unary op a }
{
    match op {
        UnOp::Not => NumSort::Int,
        _ => a,
    }
}

/// The kind of an expression where a number is needed, or its first fault.
pub(crate) fn sort_of<N: Names>(names: &N, expr: &Expr) -> Result<NumSort, TypeFault>
    ensures { result ≡ sort_of (N.kinds names.now) expr.now }
{
    match &expr.node {
        Node::Int(_) => Ok(NumSort::Int),
        Node::Decimal(_) => Ok(NumSort::Double),
        Node::Name(name) => sort_of_name(expr.place, names.kind(name)),
        Node::Index(name, _) => Err(fault_of_indexed(expr.place, names.kind(name))),
        Node::Paren(inner) => sort_of(names, inner),
        Node::Unary(op, inner) => Ok(unary(*op, sort_of(names, inner)?)),
        Node::Chain(first, links) => {
            let mut sort = sort_of(names, first)?;
            for link in links {
                sort = operated(link.place, link.op, sort, sort_of(names, &link.right)?)?;
            }
            Ok(sort)
        }
        Node::Pick(test, one, other) => {
            let _ = sort_of(names, test)?;
            let sort = sort_of(names, one)?;
            Ok(wider(sort, sort_of(names, other)?))
        }
    }
}

fn or_not_int(at: Place, sort: NumSort) -> Result<NumSort, TypeFault>
    ensures { result ≡ or_not_int at sort }
{
    match sort {
        NumSort::Int => Ok(NumSort::Int),
        NumSort::Double => Err(TypeFault::WrongKind(at)),
    }
}

/// The first fault of an expression where an int is needed.
pub(crate) fn int_of<N: Names>(names: &N, expr: &Expr) -> Result<NumSort, TypeFault>
    ensures { result ≡ int_of (N.kinds names.now) expr.now }
{
    or_not_int(expr.place, sort_of(names, expr)?)
}
