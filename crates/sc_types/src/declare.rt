//! Declarations of wires and numbers.
ghost use Rattle.std.specs.Prelude.{◌≡◌, ◌≢◌, Ok, Err, OnOk, IfErr, option_map};
ghost use Rattle.std.specs.Result.{result_err};
ghost use Rattle.sc_syntax.specs.Alike.{pure_expr};
ghost use Rattle.sc_types.specs.Checks.{first_fault};
ghost use Rattle.sc_types.specs.Numbers.{int_checks};
ghost use Rattle.sc_types.specs.Scopes.{kinds_in};
ghost use Rattle.sc_types.specs.Statements.{optional, start_checks, wire_kind as kind_of_wire};
ghost use Rattle.sc_types.specs.Walking.{wire_on, wires_on, init_on, inits_on};

use crate::fault::TypeFault;
use crate::scopes::Scopes;
use crate::wires::{int, number};
use sc_base::Class;
use sc_syntax::{Decl, Expr, Init, NameKind, NumSort};

fn size(scopes: &Scopes, size: &Option<Expr>) -> Result<(), TypeFault>
    ensures { result_err result ≡ first_fault (optional (int_checks (kinds_in scopes.now)) (option_map pure_expr size.now)) }
{
    if let Some(size) = size {
        let _ = int(scopes, size)?;
    }
    Ok(())
}

fn start(scopes: &Scopes, sort: NumSort, start: &Option<Expr>) -> Result<(), TypeFault>
    ensures { result_err result ≡ first_fault (optional (start_checks (kinds_in scopes.now) sort) (option_map pure_expr start.now)) }
{
    if let Some(start) = start {
        match sort {
            NumSort::Int => {
                let _ = int(scopes, start)?;
            }
            NumSort::Double => {
                let _ = number(scopes, start)?;
            }
        }
    }
    Ok(())
}

fn wire_kind(class: Class, decl: &Decl) -> NameKind
    ensures { result ≡ kind_of_wire class (option_map pure_expr decl.now.size) }
{
    match &decl.size {
        None => NameKind::One(class),
        Some(_) => NameKind::Many(class),
    }
}

/// The size, and then the name, which is known from there on.
fn wire(scopes: &mut Scopes, class: Class, decl: &Decl) -> Result<(), TypeFault>
    ensures ok { OnOk result (wire_on class scopes.old decl.now ≡ Ok scopes.new) }
    ensures err { IfErr result (λ f. f ≢ TypeFault.Memory → wire_on class scopes.old decl.now ≡ Err f) }
{
    size(scopes, &decl.size)?;
    scopes.declare(&decl.name, wire_kind(class, decl))?;
    Ok(())
}

pub(crate) fn wires(scopes: &mut Scopes, class: Class, decls: &[Decl]) -> Result<(), TypeFault>
    ensures ok { OnOk result (wires_on class scopes.old decls.now ≡ Ok scopes.new) }
    ensures err { IfErr result (λ f. f ≢ TypeFault.Memory → wires_on class scopes.old decls.now ≡ Err f) }
{
    for decl in decls {
        wire(scopes, class, decl)?;
    }
    Ok(())
}

/// The start, and then the name, which is known from there on.
fn init(scopes: &mut Scopes, sort: NumSort, init: &Init) -> Result<(), TypeFault>
    ensures ok { OnOk result (init_on sort scopes.old init.now ≡ Ok scopes.new) }
    ensures err { IfErr result (λ f. f ≢ TypeFault.Memory → init_on sort scopes.old init.now ≡ Err f) }
{
    start(scopes, sort, &init.start)?;
    scopes.declare(&init.name, NameKind::Number(sort))?;
    Ok(())
}

pub(crate) fn inits(scopes: &mut Scopes, sort: NumSort, inits: &[Init]) -> Result<(), TypeFault>
    ensures ok { OnOk result (inits_on sort scopes.old inits.now ≡ Ok scopes.new) }
    ensures err { IfErr result (λ f. f ≢ TypeFault.Memory → inits_on sort scopes.old inits.now ≡ Err f) }
{
    for decl in inits {
        init(scopes, sort, decl)?;
    }
    Ok(())
}
