//! The walk over statements.
ghost use Rattle.std.specs.Prelude.{◌≡◌, ◌≢◌, List, None, Some, Ok, Err, OnOk, IfErr, map, option_map};
ghost use Rattle.std.specs.Result.{result_err};
ghost use Rattle.sc_syntax.specs.Alike.{pure_expr, pure_operand, pure_stmt};
ghost use Rattle.sc_types.specs.Checks.{first_fault};
ghost use Rattle.sc_types.specs.Scopes.{kinds_in, StandsAtBody};
ghost use Rattle.sc_types.specs.Numbers.{number_checks};
ghost use Rattle.sc_types.specs.Statements.{optional, measure_checks, call_checks};
ghost use Rattle.sc_types.specs.Declarations.{Declaration};
ghost use Rattle.sc_types.specs.Sources.{walk_stmts};
ghost use Rattle.sc_types.specs.Walking.{inside, act_on, stmt_on, stmts_on};

use crate::call::{applied, gate_wants};
use crate::declare::{inits, wires};
use crate::definitions::Definitions;
use crate::fault::TypeFault;
use crate::scopes::Scopes;
use crate::set::set;
use crate::want::Want;
use crate::wires::{number, operand};
use sc_base::Class;
use sc_syntax::{Act, Call, Callee, Expr, Measure, Stmt};

/// The left side with its index, and then the measured operand.
#[tactic(auto, using(crate::proofs::Telling::fault_append))]
fn measure(scopes: &Scopes, measure: &Measure) -> Result<(), TypeFault>
    ensures { result_err result ≡ first_fault (measure_checks (kinds_in scopes.now) (pure_operand measure.now.into) (pure_operand measure.now.from)) }
{
    operand(scopes, Want::OneWire(Class::C), &measure.into)?;
    operand(scopes, Want::OneWire(Class::Q), &measure.from)?;
    Ok(())
}

/// The name, then the number of arguments, then the arguments from left to right.
#[tactic(auto, using(crate::proofs::Arguments::pure_length))]
fn call<D: Definitions>(definitions: &D, scopes: &Scopes, call: &Call) -> Result<(), TypeFault>
    ensures { result_err result ≡ first_fault (call_checks (D.parts definitions.now) (kinds_in scopes.now) call.now.callee call.now.place (map pure_expr call.now.args)) }
{
    let args = call.args.as_slice();
    match &call.callee {
        Callee::Gate(gate) => {
            applied(scopes, call.place, gate_wants(*gate, args.len()), args)?;
            Ok(())
        }
        Callee::Named(name) => match definitions.wants(name) {
            None => Err(TypeFault::UnknownName(call.place)),
            Some(wants) => {
                applied(scopes, call.place, wants, args)?;
                Ok(())
            }
        },
    }
}

fn test(scopes: &Scopes, test: &Option<Expr>) -> Result<(), TypeFault>
    ensures { result_err result ≡ first_fault (optional (number_checks (kinds_in scopes.now)) (option_map pure_expr test.now)) }
{
    if let Some(test) = test {
        let _ = number(scopes, test)?;
    }
    Ok(())
}

/// A body has a scope of its own, also where it is one declaration.
#[cycle(walk)]
fn body<D: Definitions>(definitions: &D, scopes: &mut Scopes, stmt: &Stmt) -> Result<(), TypeFault>
    ensures ok { OnOk result (inside (λ inner. act_on (D.parts definitions.now) inner stmt.now.act) scopes.old ≡ Ok scopes.new) }
    ensures err { IfErr result (λ f. f ≢ TypeFault.Memory → inside (λ inner. act_on (D.parts definitions.now) inner stmt.now.act) scopes.old ≡ Err f) }
{
    scopes.enter()?;
    statement(definitions, scopes, stmt)?;
    scopes.leave();
    Ok(())
}

/// The start or the advance of a `for`.
#[cycle(walk)]
fn held<D: Definitions>(
    definitions: &D,
    scopes: &mut Scopes,
    stmt: &Option<Box<Stmt>>,
) -> Result<(), TypeFault>
    ensures ok { OnOk result (stmt_on (D.parts definitions.now) scopes.old stmt.now ≡ Ok scopes.new) }
    ensures err { IfErr result (λ f. f ≢ TypeFault.Memory → stmt_on (D.parts definitions.now) scopes.old stmt.now ≡ Err f) }
{
    if let Some(stmt) = stmt {
        statement(definitions, scopes, stmt)?;
    }
    Ok(())
}

/// The first fault of a statement, or the scopes behind it.
#[cycle(walk)]
fn statement<D: Definitions>(
    definitions: &D,
    scopes: &mut Scopes,
    stmt: &Stmt,
) -> Result<(), TypeFault>
    ensures ok { OnOk result (act_on (D.parts definitions.now) scopes.old stmt.now.act ≡ Ok scopes.new) }
    ensures err { IfErr result (λ f. f ≢ TypeFault.Memory → act_on (D.parts definitions.now) scopes.old stmt.now.act ≡ Err f) }
{
    match &stmt.act {
        Act::Wires(class, decls) => wires(scopes, *class, decls.as_slice())?,
        Act::Numbers(sort, decls) => inits(scopes, *sort, decls.as_slice())?,
        Act::Set(assigned) => set(scopes, assigned)?,
        Act::Measure(measured) => measure(scopes, measured)?,
        Act::Call(called) => call(definitions, scopes, called)?,
        Act::If(condition, then, other) => {
            let _ = number(scopes, condition)?;
            body(definitions, scopes, then)?;
            if let Some(other) = other {
                body(definitions, scopes, other)?;
            }
        }
        Act::While(condition, repeated) => {
            let _ = number(scopes, condition)?;
            body(definitions, scopes, repeated)?;
        }
        Act::For(start, condition, advance, repeated) => {
            scopes.enter()?;
            held(definitions, scopes, start)?;
            test(scopes, condition)?;
            held(definitions, scopes, advance)?;
            body(definitions, scopes, repeated)?;
            scopes.leave();
        }
        Act::Block(stmts) => {
            scopes.enter()?;
            for inner in stmts {
                statement(definitions, scopes, inner)?;
            }
            scopes.leave();
        }
        Act::Empty => {}
    }
    Ok(())
}

fn walk<D: Definitions>(
    definitions: &D,
    scopes: &mut Scopes,
    stmts: &[Stmt],
) -> Result<(), TypeFault>
    ensures ok { OnOk result (stmts_on (D.parts definitions.now) scopes.old stmts.now ≡ Ok scopes.new) }
    ensures err { IfErr result (λ f. f ≢ TypeFault.Memory → stmts_on (D.parts definitions.now) scopes.old stmts.now ≡ Err f) }
{
    for stmt in stmts {
        statement(definitions, scopes, stmt)?;
    }
    Ok(())
}

/// The first fault of the statements of a module, in the scope of its parameters.
pub(crate) fn statements<D: Definitions>(
    definitions: &D,
    scopes: &mut Scopes,
    stmts: &[Stmt],
) -> Result<(), TypeFault>
    ensures none { OnOk result ((before : List Declaration) → StandsAtBody scopes.old before → first_fault (walk_stmts (D.parts definitions.now) before 0 (map pure_stmt stmts.now)).checks ≡ None) }
    ensures err { IfErr result (λ f. f ≢ TypeFault.Memory → (before : List Declaration) → StandsAtBody scopes.old before → first_fault (walk_stmts (D.parts definitions.now) before 0 (map pure_stmt stmts.now)).checks ≡ Some f) }
{
    walk(definitions, scopes, stmts)?;
    Ok(())
}
