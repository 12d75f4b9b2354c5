//! Numbers that are set.
ghost use Rattle.std.specs.Prelude.{◌≡◌, [], ◌∷◌, ◌++◌, Some, None, IfOk, option_map};
ghost use Rattle.std.specs.Result.{result_err};
ghost use Rattle.sc_syntax.specs.Alike.{pure_expr};
ghost use Rattle.sc_syntax.specs.NameKind.{kind_of_expr};
ghost use Rattle.sc_types.specs.Checks.{first_fault};
ghost use Rattle.sc_types.specs.Declarations.{is_pi as is_pi_name};
ghost use Rattle.sc_types.specs.Numbers.{number_checks};
ghost use Rattle.sc_types.specs.Scopes.{kind_in, kinds_in};
ghost use Rattle.sc_types.specs.Statements.{may_set as may_be_set, number_of, set_by, fit_checks, set_checks};

use crate::fault::TypeFault;
use crate::numbers::operated;
use crate::scopes::{Scopes, is_pi};
use crate::wires::number;
use sc_base::Place;
use sc_syntax::{BinOp, Expr, Name, NameKind, NumSort, Set, SetOp};

/// The kind of a number that may be set: no wire, and not the `M_PI` outside every scope.
fn may_set(name: &Name, kind: Option<NameKind>) -> Result<NumSort, TypeFault>
    ensures sort { IfOk result (λ s. number_of kind ≡ Some s) }
    ensures fault { result_err result ≡ first_fault (may_be_set name.now.place (is_pi_name name.now.text) kind ∷ []) }
{
    match kind {
        None => {
            if is_pi(&name.text) {
                Err(TypeFault::WrongKind(name.place))
            } else {
                Err(TypeFault::UnknownName(name.place))
            }
        }
        Some(NameKind::Number(sort)) => Ok(sort),
        Some(_) => Err(TypeFault::WrongKind(name.place)),
    }
}

fn operator(op: SetOp) -> Option<BinOp>
    ensures { result ≡ set_by op }
{
    match op {
        SetOp::Add => Some(BinOp::Add),
        SetOp::Sub => Some(BinOp::Sub),
        SetOp::Mul => Some(BinOp::Mul),
        SetOp::Div => Some(BinOp::Div),
        SetOp::Rem => Some(BinOp::Rem),
        SetOp::Put | SetOp::Up | SetOp::Down => None,
    }
}

/// Whether a value of this kind goes into a name of that kind, by the operator where there is one.
fn fits(
    name: Place,
    mark: Place,
    sort: NumSort,
    op: Option<BinOp>,
    value: NumSort,
) -> Result<(), TypeFault>
    ensures { result_err result ≡ first_fault (fit_checks name mark (Some sort) op (Some value)) }
{
    let value = match op {
        None => value,
        Some(op) => operated(mark, op, sort, value)?,
    };
    match (sort, value) {
        (NumSort::Int, NumSort::Double) => Err(TypeFault::WrongKind(name)),
        _ => Ok(()),
    }
}

/// The expression, then that the kinds fit.
#[tactic(auto, using(crate::proofs::Telling::fault_append))]
fn put(scopes: &Scopes, set: &Set, sort: NumSort, value: &Expr) -> Result<(), TypeFault>
    ensures { result_err result ≡ first_fault (number_checks (kinds_in scopes.now) (pure_expr value.now) ++ fit_checks set.now.name.place set.now.place (Some sort) (set_by set.now.op) (kind_of_expr (kinds_in scopes.now) value.now)) }
{
    let value = number(scopes, value)?;
    fits(set.name.place, set.place, sort, operator(set.op), value)?;
    Ok(())
}

/// The name and that it may be set, and then the value.
pub(crate) fn set(scopes: &Scopes, set: &Set) -> Result<(), TypeFault>
    ensures { result_err result ≡ first_fault (set_checks (kind_in scopes.now) set.now.name set.now.op set.now.place (option_map pure_expr set.now.value)) }
{
    let sort = may_set(&set.name, scopes.declared_kind(&set.name.text))?;
    if let Some(value) = &set.value {
        put(scopes, set, sort, value)?;
    }
    Ok(())
}
