//! The parameters of a module.
ghost use Rattle.std.specs.Prelude.{◌≡◌, ◌≢◌, [], None, Some, Ok, Err, OnOk, IfOk, IfErr, map};
ghost use Rattle.std.specs.Result.{result_err};
ghost use Rattle.sc_syntax.specs.Alike.{pure_param, pure_sort};
ghost use Rattle.sc_types.specs.Checks.{first_fault};
ghost use Rattle.sc_types.specs.Positions.{is_past};
ghost use Rattle.sc_types.specs.Scopes.{StandsAtBody};
ghost use Rattle.sc_types.specs.Sources.{length_checks, param_kind as kind_of_param, walk_params};
ghost use Rattle.sc_types.specs.Tables.{number_under};
ghost use Rattle.sc_types.specs.Parameters.{FindsLastInt, noted, length_names, param_on, params_on};

use crate::fault::TypeFault;
use crate::names::Names;
use crate::scopes::Scopes;
use crate::wires::int;
use sc_base::{NameMap, Text};
use sc_syntax::{NameKind, NumSort, Param, Sort};
use std::alloc::Global;

fn note(
    alloc: Global,
    last: &mut NameMap<usize>,
    param: &Param,
    position: usize,
) -> Result<(), TypeFault>
    ensures ok { OnOk result (last.new ≡ noted last.old param.now position) }
    ensures err { IfErr result (λ f. f ≡ TypeFault.Memory) }
{
    if let Sort::Int = param.sort {
        last.insert(alloc, &param.name.text, position)?;
    }
    Ok(())
}

/// For each name the position of the last `int` parameter of that name.
fn last_ints(alloc: Global, params: &[Param]) -> Result<NameMap<usize>, TypeFault>
    ensures ok { IfOk result (FindsLastInt params.now) }
    ensures err { IfErr result (λ f. f ≡ TypeFault.Memory) }
{
    let mut last = NameMap::new(alloc);
    for (i, param) in params.iter().enumerate() {
        note(alloc, &mut last, param, i)?;
    }
    Ok(last)
}

/// What names stand for in the length of the parameter at a position: an earlier parameter, or else a
/// later `int` parameter, or else `M_PI`.
#[derive(Drop)]
struct LengthNames<'a> {
    scopes: &'a Scopes,
    last: &'a NameMap<usize>,
    position: usize,
}

impl<'a> LengthNames<'a> {
    fn is_later_int(&self, name: &Text) -> bool
        ensures { result ≡ is_past self.now.position (number_under self.now.last.now name.now) }
    {
        match self.last.get(name) {
            Some(last) => self.position < *last,
            None => false,
        }
    }
}

impl<'a> Names for LengthNames<'a> {
    ghost kinds = { λ n. length_names n.last.now n.position n.scopes.now };

    fn kind(&self, name: &Text) -> Option<NameKind> {
        match self.scopes.declared_kind(name) {
            Some(kind) => Some(kind),
            None => {
                if self.is_later_int(name) {
                    Some(NameKind::Number(NumSort::Int))
                } else {
                    self.scopes.kind(name)
                }
            }
        }
    }
}

fn stated_length<N: Names>(names: &N, sort: &Sort) -> Result<(), TypeFault>
    ensures { result_err result ≡ first_fault (length_checks (N.kinds names.now) (pure_sort sort.now)) }
{
    if let Sort::Many(_, Some(length)) = sort {
        let _ = int(names, length)?;
    }
    Ok(())
}

fn length(
    scopes: &Scopes,
    last: &NameMap<usize>,
    position: usize,
    sort: &Sort,
) -> Result<(), TypeFault>
    ensures { result_err result ≡ first_fault (length_checks (length_names last.now position scopes.now) (pure_sort sort.now)) }
{
    let names = LengthNames {
        scopes,
        last,
        position,
    };
    stated_length(&names, sort)
}

fn param_kind(sort: &Sort) -> NameKind
    ensures { result ≡ kind_of_param (pure_sort sort.now) }
{
    match sort {
        Sort::One(class) => NameKind::One(*class),
        Sort::Many(class, _) => NameKind::Many(*class),
        Sort::Int => NameKind::Number(NumSort::Int),
        Sort::Double => NameKind::Number(NumSort::Double),
    }
}

/// The length, and then the name, which is known from there on.
fn declare_param(
    scopes: &mut Scopes,
    last: &NameMap<usize>,
    position: usize,
    param: &Param,
) -> Result<(), TypeFault>
    ensures ok { OnOk result (param_on last.now position scopes.old param.now ≡ Ok scopes.new) }
    ensures err { IfErr result (λ f. f ≢ TypeFault.Memory → param_on last.now position scopes.old param.now ≡ Err f) }
{
    length(scopes, last, position, &param.sort)?;
    scopes.declare(&param.name, param_kind(&param.sort))?;
    Ok(())
}

/// The parameters in order, where the table has the positions of the last `int` parameters.
fn declare_params(
    scopes: &mut Scopes,
    last: &NameMap<usize>,
    params: &[Param],
) -> Result<(), TypeFault>
    ensures ok { OnOk result (params_on last.now 0 scopes.old params.now ≡ Ok scopes.new) }
    ensures err { IfErr result (λ f. f ≢ TypeFault.Memory → params_on last.now 0 scopes.old params.now ≡ Err f) }
{
    for (i, param) in params.iter().enumerate() {
        declare_param(scopes, last, i, param)?;
    }
    Ok(())
}

/// The scope of a module with its parameters.
pub(crate) fn module_scope(alloc: Global, params: &[Param]) -> Result<Scopes, TypeFault>
    ensures scopes { IfOk result (λ s. StandsAtBody s (walk_params [] (map pure_param params.now)).declares) }
    ensures none { OnOk result (first_fault (walk_params [] (map pure_param params.now)).checks ≡ None) }
    ensures err { IfErr result (λ f. f ≢ TypeFault.Memory → first_fault (walk_params [] (map pure_param params.now)).checks ≡ Some f) }
{
    let last = last_ints(alloc, params)?;
    let mut scopes = Scopes::new(alloc);
    declare_params(&mut scopes, &last, params)?;
    Ok(scopes)
}
