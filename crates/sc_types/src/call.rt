//! Calls: the number of arguments, and then the arguments.
ghost use Rattle.std.specs.Prelude.{◌≡◌, length, map};
ghost use Rattle.std.specs.Result.{result_err};
ghost use Rattle.sc_syntax.specs.Alike.{pure_expr};
ghost use Rattle.sc_types.specs.Checks.{first_fault};
ghost use Rattle.sc_types.specs.Wires.{arguments_checks, gate_wants as wanted};
ghost use Rattle.sc_types.specs.Statements.{applied as applied_checks};

use crate::fault::TypeFault;
use crate::names::Names;
use crate::want::Want;
use crate::wires::argument;
use sc_base::{Class, GateName, Place};
use sc_syntax::Expr;

/// What a gate takes; a preparation takes a start value where it has two arguments.
pub(crate) fn gate_wants(gate: GateName, count: usize) -> &'static [Want]
    ensures { result.now ≡ wanted gate count }
{
    match gate {
        GateName::Cnot => &[Want::OneWire(Class::Q), Want::OneWire(Class::Q)],
        GateName::Toffoli | GateName::Fredkin => &[
            Want::OneWire(Class::Q),
            Want::OneWire(Class::Q),
            Want::OneWire(Class::Q),
        ],
        GateName::Rx | GateName::Ry | GateName::Rz => &[Want::OneWire(Class::Q), Want::ADouble],
        GateName::PrepX | GateName::PrepZ if count == 2 => &[Want::OneWire(Class::Q), Want::AnInt],
        _ => &[Want::OneWire(Class::Q)],
    }
}

/// The fault of the arguments from left to right.
fn arguments<N: Names>(names: &N, wants: &[Want], args: &[Expr]) -> Result<(), TypeFault>
    requires { length wants.now ≡ length args.now }
    ensures { result_err result ≡ first_fault (arguments_checks (N.kinds names.now) wants.now (map pure_expr args.now)) }
{
    for i in 0..args.len() {
        argument(names, wants[i], &args[i])?;
    }
    Ok(())
}

/// The fault of the number of arguments, or else of the arguments.
#[tactic(auto, using(crate::proofs::Arguments::pure_length))]
pub(crate) fn applied<N: Names>(
    names: &N,
    at: Place,
    wants: &[Want],
    args: &[Expr],
) -> Result<(), TypeFault>
    ensures { result_err result ≡ first_fault (applied_checks (N.kinds names.now) at wants.now (map pure_expr args.now)) }
{
    if args.len() != wants.len() {
        return Err(TypeFault::WrongCount(at));
    }
    arguments(names, wants, args)
}
