//! What a called name means, and the arguments with which it is entered.
ghost use Rattle.std.specs.Prelude.{◌≡◌, ◌≢◌, [], ◌∷◌, ◌++◌, map, option_map, drop, Some, pos, Ok, Err, OnOk, IfOk, IfErr};
ghost use Rattle.sc_syntax.specs.Alike.{pure_expr, pure_sort, pure_param};
ghost use Rattle.sc_meaning.specs.Arguments.{want_of, wants_of, args_of, callee_numbers, stated_length, of_lengths, has_length, prepared};
ghost use Rattle.sc_elab.specs.Callees.{definition_by, Requests, with_number_arg, stated_and_compared, compared, unless_wrong, wrong_after, is_length, next_wrong};
ghost use Rattle.sc_elab.specs.Evaluated.{passed_by, all_passed};
ghost use Rattle.sc_elab.specs.Frames.{view};
ghost use Rattle.sc_meaning.specs.Definitions.{definition};
ghost use Rattle.sc_meaning.specs.Programs.{program_of, function_of};

use crate::arguments::{Evaluated, distinct_wires, pass_all};
use crate::frame::Frame;
use crate::numbers::whole_number;
use crate::todo::Request;
use sc_base::{Class, List, Memory, Place, Text};
use sc_deck::{Arg, Key};
use sc_meaning::{ElabFault, Want};
use sc_syntax::{Expr, Module, Name, Param, Part, Sort};
use sc_types::Checked;
use sc_value::{Env, Value};
use sc_word::TypedFn;
use std::alloc::Global;

/// A module, or a classical function with its name.
#[derive(Clone, Copy)]
pub(crate) enum Callee<'a> {
    Module(&'a Module),
    Words(&'a Name, &'a TypedFn),
}

/// The first definition of a name.
#[tactic(auto, using(crate::proofs::Finding::none_found, crate::proofs::Finding::past_found, crate::proofs::Finding::module_found, crate::proofs::Finding::words_found))]
pub(crate) fn definition<'a>(checked: &'a Checked, name: &Text) -> Option<Callee<'a>>
    ensures { option_map definition_by result ≡ definition (program_of checked.now) name.now }
{
    let at = checked.find(name)?;
    match checked.source().parts.get(at as usize)? {
        Part::Module(module) => Some(Callee::Module(module)),
        Part::Words(function) => Some(Callee::Words(&function.name, checked.word(at)?)),
    }
}

fn push_want(wants: &mut Vec<Want>, want: Want) -> Result<(), Memory>
    ensures { OnOk result (wants.new.items ≡ wants.old.items ++ want ∷ []) }
{
    wants.push(want)?;
    Ok(())
}

fn module_wants(alloc: Global, params: &[Param]) -> Result<Vec<Want>, Memory>
    ensures { IfOk result (λ ws. ws.items ≡ map (λ p. want_of p.sort) (map pure_param params.now)) }
{
    let mut wants = Vec::new(alloc);
    for param in params {
        push_want(&mut wants, Want::of(&param.sort))?;
    }
    Ok(wants)
}

/// A word or an output of a classical function is an array or one qubit.
#[tactic(auto, using(crate::proofs::Lengths::many_more, crate::proofs::Lengths::many_last))]
fn word_wants(alloc: Global, function: &TypedFn) -> Result<Vec<Want>, Memory>
    ensures { IfOk result (λ ws. ws.items ≡ map (λ w. Want.Many Class.Q) (function_of function.now).widths) }
{
    let mut wants = Vec::new(alloc);
    let widths = function.widths();
    for _width in widths {
        push_want(&mut wants, Want::Many(Class::Q))?;
    }
    push_want(&mut wants, Want::Many(Class::Q))?;
    Ok(wants)
}

fn wants_of(alloc: Global, callee: Callee<'_>) -> Result<Vec<Want>, Memory>
    ensures { IfOk result (λ ws. ws.items ≡ wants_of (definition_by callee.entry)) }
{
    match callee {
        Callee::Module(module) => module_wants(alloc, module.params.as_slice()),
        Callee::Words(_, function) => word_wants(alloc, function),
    }
}

fn declare_arg(numbers: &mut Env, name: &Text, arg: Arg) -> Result<(), Memory>
    ensures { OnOk result (numbers.new ≡ with_number_arg name.now arg numbers.old) }
{
    match arg {
        Arg::Int(n) => numbers.declare(name, Value::Int(n)),
        Arg::Double(d) => numbers.declare(name, Value::Double(d)),
        Arg::One(_) | Arg::Many(..) => Ok(()),
    }
}

/// The scope of a callee's numbers.
#[tactic(auto, using(crate::proofs::Lengths::number_more))]
pub(crate) fn callee_numbers(alloc: Global, params: &[Param], args: &[Arg]) -> Result<Env, Memory>
    ensures { IfOk result (λ numbers. numbers ≡ callee_numbers (map pure_param params.now) args.now) }
{
    let mut numbers = Env::new(alloc);
    let mut rest = args;
    for param in params {
        let [arg, more @ ..] = rest else {
            break;
        };
        declare_arg(&mut numbers, &param.name.text, *arg)?;
        rest = more;
    }
    Ok(numbers)
}

fn args_of(alloc: Global, evaluated: &[Evaluated]) -> Result<Vec<Arg>, Memory>
    ensures { IfOk result (λ args. args.items ≡ args_of (all_passed evaluated.now)) }
{
    let mut args = Vec::new(alloc);
    for one in evaluated {
        args.push(one.arg)?;
    }
    Ok(args)
}

/// All stated lengths are evaluated, and then each is compared with its argument's.
#[tactic(auto, using(crate::proofs::Lengths::rest_next, crate::proofs::Lengths::rest_fault, crate::proofs::Lengths::rest_end))]
fn module_lengths(numbers: &Env, params: &[Param], evaluated: &[Evaluated]) -> Result<(), ElabFault>
    ensures { result ≡ stated_and_compared numbers.now (map pure_param params.now) (all_passed evaluated.now) }
{
    let mut wrong = None;
    let mut rest = evaluated;
    for param in params {
        let length = stated_length(numbers, &param.sort)?;
        let (so_far, more) = next_wrong(wrong, length, rest);
        wrong = so_far;
        rest = more;
    }
    unless_wrong(wrong)
}

fn stated_length(numbers: &Env, sort: &Sort) -> Result<Option<i64>, ElabFault>
    ensures { result ≡ stated_length numbers.now (pure_sort sort.now) }
{
    match sort {
        Sort::Many(_, Some(expr)) => Ok(Some(whole_number(numbers, expr)?)),
        _ => Ok(None),
    }
}

fn is_length(length: Option<i64>, len: u32) -> bool
    ensures { result ≡ is_length length len }
{
    match length {
        Some(length) => length == i64::from(len),
        None => true,
    }
}

fn has_length(length: Option<i64>, one: &Evaluated) -> bool
    ensures { result ≡ has_length length (passed_by one.now) }
{
    is_length(length, one.span.len)
}

/// The first argument of a wrong length, after one more.
fn wrong_after(wrong: Option<Place>, length: Option<i64>, one: &Evaluated) -> Option<Place>
    ensures { result ≡ wrong_after wrong length (passed_by one.now) }
{
    match wrong {
        Some(at) => Some(at),
        None => {
            if has_length(length, one) {
                None
            } else {
                Some(one.at)
            }
        }
    }
}

/// The same after the next argument, where there is one, and those behind it.
#[tactic(auto, using(crate::proofs::Lengths::next_wrong_is, crate::proofs::Lengths::behind_first))]
fn next_wrong<'a>(
    wrong: Option<Place>,
    length: Option<i64>,
    rest: &'a [Evaluated],
) -> (Option<Place>, &'a [Evaluated])
    ensures wrong { result.0 ≡ next_wrong wrong length (all_passed rest.entry.now) }
    ensures rest { all_passed result.1.now ≡ drop 1 (all_passed rest.entry.now) }
{
    match rest {
        [one, more @ ..] => (wrong_after(wrong, length, one), more),
        [] => (wrong, rest),
    }
}

fn unless_wrong(wrong: Option<Place>) -> Result<(), ElabFault>
    ensures { result ≡ unless_wrong wrong }
{
    match wrong {
        Some(at) => Err(ElabFault::BadLength(at)),
        None => Ok(()),
    }
}

/// Each word and the output are compared with their arguments.
#[tactic(auto, using(crate::proofs::Lengths::width_next, crate::proofs::Lengths::width_fault, crate::proofs::Lengths::short_by))]
fn word_lengths(function: &TypedFn, evaluated: &[Evaluated]) -> Result<(), ElabFault>
    ensures { result ≡ of_lengths (map (λ w. Some (pos w)) (function_of function.now).widths) (all_passed evaluated.now) }
{
    let widths = function.widths();
    let mut rest = evaluated;
    for width in widths {
        let [one, more @ ..] = rest else {
            return Ok(());
        };
        check_width(*width, one)?;
        rest = more;
    }
    match rest {
        [one, ..] => check_width(function.width_of(), one),
        [] => Ok(()),
    }
}

fn check_width(width: u32, one: &Evaluated) -> Result<(), ElabFault>
    ensures { result ≡ of_lengths (Some (pos width) ∷ []) (passed_by one.now ∷ []) }
{
    if has_length(Some(i64::from(width)), one) {
        Ok(())
    } else {
        Err(ElabFault::BadLength(one.at))
    }
}

fn check_lengths(
    alloc: Global,
    callee: Callee<'_>,
    args: &[Arg],
    evaluated: &[Evaluated],
) -> Result<(), ElabFault>
    requires { args.now ≡ args_of (all_passed evaluated.now) }
    ensures ok { OnOk result (compared (definition_by callee.entry) (all_passed evaluated.now) ≡ Ok tt) }
    ensures err { IfErr result (λ f. f ≢ ElabFault.Memory → compared (definition_by callee.entry) (all_passed evaluated.now) ≡ Err f) }
{
    match callee {
        Callee::Module(module) => {
            let params = module.params.as_slice();
            let numbers = callee_numbers(alloc, params, args)?;
            module_lengths(&numbers, params, evaluated)
        }
        Callee::Words(_, function) => word_lengths(function, evaluated),
    }
}

/// The key and the wires with which a call enters its callee.
pub(crate) fn prepared(
    alloc: Global,
    frame: &Frame,
    name: &Text,
    callee: Callee<'_>,
    args: &[Expr],
) -> Result<Request, ElabFault>
    ensures ok { IfOk result (Requests (prepared (view frame.now) (definition_by callee.entry) (map pure_expr args.now)) name.now) }
    ensures err { IfErr result (λ f. f ≢ ElabFault.Memory → prepared (view frame.now) (definition_by callee.entry) (map pure_expr args.now) ≡ Err f) }
{
    let wants = wants_of(alloc, callee)?;
    let evaluated = pass_all(alloc, frame, &wants, args)?;
    let key_args = args_of(alloc, &evaluated)?;
    check_lengths(alloc, callee, &key_args, &evaluated)?;
    let wires = distinct_wires(alloc, &evaluated)?;
    let key = Key {
        name: name.try_clone(alloc)?,
        args: List::from_vec(key_args),
    };
    Ok(Request { key, wires })
}
