//! Numbers as statements want them.
ghost use Rattle.std.specs.Prelude.{◌≡◌, ◌≤ℤ◌, pos, option_map};
ghost use Rattle.std.specs.Option.{option_copied};
ghost use Rattle.sc_syntax.specs.Alike.{pure_expr};
ghost use Rattle.sc_value.specs.Expressions.{sort_of};
ghost use Rattle.sc_meaning.specs.Values.{number, converted, wanted, whole, whole_number, zero_of, start_value, operator, operand_value, new_value, old_value};

use sc_base::{Fixed, Place, Text};
use sc_meaning::ElabFault;
use sc_syntax::{BinOp, Expr, NumSort, SetOp};
use sc_value::{Env, Value, apply, eval, to_double};

/// The value of an expression.
pub(crate) fn number(env: &Env, expr: &Expr) -> Result<Value, ElabFault>
    ensures { result ≡ number env.now (pure_expr expr.now) }
{
    Ok(eval(expr, env)?)
}

/// The value where a number of a kind is wanted: an int is converted where a double is.
fn converted(sort: NumSort, at: Place, value: Value) -> Result<Value, ElabFault>
    ensures { result ≡ converted sort at value }
{
    match sort {
        NumSort::Int => Ok(value),
        NumSort::Double => Ok(to_double(at, value)?),
    }
}

/// The value of an expression where a number of a kind is wanted.
pub(crate) fn wanted(env: &Env, sort: NumSort, expr: &Expr) -> Result<Value, ElabFault>
    ensures { result ≡ wanted env.now sort (pure_expr expr.now) }
{
    converted(sort, expr.place, number(env, expr)?)
}

fn whole(value: Value) -> i64
    ensures { result ≡ whole value }
{
    match value {
        Value::Int(n) => n,
        Value::Double(d) => d.0,
    }
}

/// The value of an expression that is an int.
pub(crate) fn whole_number(env: &Env, expr: &Expr) -> Result<i64, ElabFault>
    ensures { result ≡ whole_number env.now (pure_expr expr.now) }
{
    Ok(whole(number(env, expr)?))
}

/// A number from 0 to 65,536 as a count of wires.
pub(crate) fn count_of(n: i64) -> u32
    requires low { pos 0 ≤ℤ n }
    requires high { n ≤ℤ pos 65536 }
    ensures { pos result ≡ n }
{
    n as u32
}

/// The start of a declared number, which is 0 where none is written.
pub(crate) fn start_value(env: &Env, sort: NumSort, expr: Option<&Expr>) -> Result<Value, ElabFault>
    ensures { result ≡ start_value env.now sort (option_map pure_expr (option_copied expr.entry)) }
{
    match expr {
        Some(expr) => wanted(env, sort, expr),
        None => Ok(zero_of(sort)),
    }
}

fn zero_of(sort: NumSort) -> Value
    ensures { result ≡ zero_of sort }
{
    match sort {
        NumSort::Int => Value::Int(0),
        NumSort::Double => Value::Double(Fixed(0)),
    }
}

/// The operator of `x += e` and the others; that of `x++` is that of `x += 1`.
fn operator(op: SetOp) -> BinOp
    ensures { result ≡ operator op }
{
    match op {
        SetOp::Put | SetOp::Add | SetOp::Up => BinOp::Add,
        SetOp::Sub | SetOp::Down => BinOp::Sub,
        SetOp::Mul => BinOp::Mul,
        SetOp::Div => BinOp::Div,
        SetOp::Rem => BinOp::Rem,
    }
}

/// What is put in, added and so on; 1 where nothing is written.
fn operand_value(env: &Env, expr: Option<&Expr>) -> Result<Value, ElabFault>
    ensures { result ≡ operand_value env.now (option_map pure_expr (option_copied expr.entry)) }
{
    match expr {
        Some(expr) => number(env, expr),
        None => Ok(Value::Int(1)),
    }
}

fn sort_of(value: Value) -> NumSort
    ensures { result ≡ sort_of value }
{
    match value {
        Value::Int(_) => NumSort::Int,
        Value::Double(_) => NumSort::Double,
    }
}

/// The value of a name, and 0 where it has none.
pub(crate) fn old_value(env: &Env, name: &Text) -> Value
    ensures { result ≡ old_value env.now name.now }
{
    env.get(name).unwrap_or(Value::Int(0))
}

/// The new value of a number that has an old one. The operator stands at the mark.
pub(crate) fn new_value(
    env: &Env,
    old: Value,
    op: SetOp,
    mark: Place,
    expr: Option<&Expr>,
) -> Result<Value, ElabFault>
    ensures { result ≡ new_value env.now old op mark (option_map pure_expr (option_copied expr.entry)) }
{
    match (op, expr) {
        (SetOp::Put, Some(expr)) => wanted(env, sort_of(old), expr),
        _ => Ok(apply(operator(op), mark, old, operand_value(env, expr)?)?),
    }
}
