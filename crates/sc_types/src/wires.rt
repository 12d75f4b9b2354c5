//! Operands and arguments.
ghost use Rattle.std.specs.Prelude.{◌≡◌, [], ◌∷◌, Some, IfOk};
ghost use Rattle.std.specs.Result.{result_err};
ghost use Rattle.sc_syntax.specs.Alike.{pure_expr, pure_node, pure_operand};
ghost use Rattle.sc_syntax.specs.NameKind.{kind_of_expr};
ghost use Rattle.sc_types.specs.Checks.{first_fault};
ghost use Rattle.sc_types.specs.Numbers.{number_checks, int_checks};
ghost use Rattle.sc_types.specs.Wires.{is_wire, suits as suited, suits_indexed as suited_indexed, wire_node, argument_checks, operand_checks};

use crate::fault::TypeFault;
use crate::names::Names;
use crate::numbers::{int_of, sort_of};
use crate::want::{Want, suits, suits_indexed};
use sc_base::Place;
use sc_syntax::{Expr, NameKind, Node, NumSort, Operand};

/// The kind of an expression where a number is needed, or the fault of its checks.
pub(crate) fn number<N: Names>(names: &N, expr: &Expr) -> Result<NumSort, TypeFault>
    ensures kind { IfOk result (λ s. kind_of_expr (N.kinds names.now) expr.now ≡ Some s) }
    ensures fault { result_err result ≡ first_fault (number_checks (N.kinds names.now) (pure_expr expr.now)) }
{
    sort_of(names, expr)
}

/// The fault of the checks of an expression where an int is needed.
pub(crate) fn int<N: Names>(names: &N, expr: &Expr) -> Result<NumSort, TypeFault>
    ensures { result_err result ≡ first_fault (int_checks (N.kinds names.now) (pure_expr expr.now)) }
{
    int_of(names, expr)
}

fn whole(want: Want, at: Place, kind: Option<NameKind>) -> Result<(), TypeFault>
    ensures { result_err result ≡ first_fault (is_wire (suited want) at kind ∷ []) }
{
    match kind {
        None => Err(TypeFault::UnknownName(at)),
        Some(kind) => {
            if suits(want, kind) {
                Ok(())
            } else {
                Err(TypeFault::WrongKind(at))
            }
        }
    }
}

fn element(want: Want, at: Place, kind: Option<NameKind>) -> Result<(), TypeFault>
    ensures { result_err result ≡ first_fault (is_wire (suited_indexed want) at kind ∷ []) }
{
    match kind {
        None => Err(TypeFault::UnknownName(at)),
        Some(kind) => {
            if suits_indexed(want, kind) {
                Ok(())
            } else {
                Err(TypeFault::WrongKind(at))
            }
        }
    }
}

fn wire<N: Names>(names: &N, want: Want, expr: &Expr) -> Result<(), TypeFault>
    ensures { result_err result ≡ first_fault (wire_node (N.kinds names.now) want expr.now.place (pure_node expr.now.node)) }
{
    match &expr.node {
        Node::Name(name) => whole(want, expr.place, names.kind(name)),
        Node::Index(name, index) => {
            element(want, expr.place, names.kind(name))?;
            let _ = int(names, index)?;
            Ok(())
        }
        _ => Err(TypeFault::WrongKind(expr.place)),
    }
}

/// The fault of the checks of an argument.
pub(crate) fn argument<N: Names>(names: &N, want: Want, expr: &Expr) -> Result<(), TypeFault>
    ensures { result_err result ≡ first_fault (argument_checks (N.kinds names.now) want (pure_expr expr.now)) }
{
    match want {
        Want::AnInt => {
            let _ = int(names, expr)?;
            Ok(())
        }
        Want::ADouble => {
            let _ = number(names, expr)?;
            Ok(())
        }
        _ => wire(names, want, expr),
    }
}

/// The fault of the checks of an operand of a measurement.
pub(crate) fn operand<N: Names>(names: &N, want: Want, operand: &Operand) -> Result<(), TypeFault>
    ensures { result_err result ≡ first_fault (operand_checks (N.kinds names.now) want (pure_operand operand.now)) }
{
    let place = operand.name.place;
    let kind = names.kind(&operand.name.text);
    match &operand.index {
        None => whole(want, place, kind),
        Some(index) => {
            element(want, place, kind)?;
            let _ = int(names, index)?;
            Ok(())
        }
    }
}
