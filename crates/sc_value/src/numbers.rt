//! Operations on numbers.
ghost use Rattle.std.specs.Prelude.{◌≡◌, ◌^◌, ◌≤◌, pos, ◌≤ℤ◌, ◌<ℤ◌, ◌*ℤ◌, unsigned_abs, int_div, int_rem};
ghost use Rattle.sc_value.specs.Numbers.{ranged, int, double, truth, divided, shifted, floor_div, unit, on_ints, on_doubles, widened, apply, is_true, to_double, beside, unary};

use crate::{EvalFault, Value};
use sc_base::{Fixed, Place};
use sc_syntax::{BinOp, NumSort, UnOp};

/// The units of 1.
const UNIT: i128 = 1_000_000_000_000;

fn in_range(wide: i128, at: Place) -> Result<i64, EvalFault>
    ensures { result ≡ ranged at wide }
{
    match i64::try_from(wide) {
        Ok(n) => Ok(n),
        Err(_) => Err(EvalFault::Overflow(at)),
    }
}

fn int(wide: i128, at: Place) -> Result<Value, EvalFault>
    ensures { result ≡ int at wide }
{
    Ok(Value::Int(in_range(wide, at)?))
}

fn double(wide: i128, at: Place) -> Result<Value, EvalFault>
    ensures { result ≡ double at wide }
{
    Ok(Value::Double(Fixed(in_range(wide, at)?)))
}

/// 1 where the test holds, else 0.
pub(crate) fn truth(b: bool) -> Value
    ensures { result ≡ truth b }
{
    Value::Int(if b { 1 } else { 0 })
}

/// Whether a number counts as true, which every number but zero does.
pub fn is_true(value: Value) -> bool
    ensures { result ≡ is_true value }
{
    match value {
        Value::Int(n) => n != 0,
        Value::Double(d) => d.0 != 0,
    }
}

fn on_ints(op: BinOp, at: Place, a: i64, b: i64) -> Result<Value, EvalFault>
    ensures { result ≡ on_ints op at a b }
{
    let x = i128::from(a);
    let y = i128::from(b);
    match op {
        BinOp::Add => int(x + y, at),
        BinOp::Sub => int(x - y, at),
        BinOp::Mul => int(x * y, at),
        BinOp::Div => divide(at, a, b),
        BinOp::Rem => remainder(at, a, b),
        BinOp::Shl => shift_left(at, a, b),
        BinOp::Shr => shift_right(at, a, b),
        BinOp::Eq => Ok(truth(a == b)),
        BinOp::Ne => Ok(truth(a != b)),
        BinOp::Lt => Ok(truth(a < b)),
        BinOp::Le => Ok(truth(a <= b)),
        BinOp::Gt => Ok(truth(a > b)),
        BinOp::Ge => Ok(truth(a >= b)),
        BinOp::Or | BinOp::And => Ok(Value::Int(0)),
    }
}

fn divide(at: Place, a: i64, b: i64) -> Result<Value, EvalFault>
    ensures { result ≡ divided at b (int at (int_div a b)) }
{
    if b == 0 {
        return Err(EvalFault::DivZero(at));
    }
    int(i128::from(a) / i128::from(b), at)
}

fn remainder(at: Place, a: i64, b: i64) -> Result<Value, EvalFault>
    ensures { result ≡ divided at b (int at (int_rem a b)) }
{
    if b == 0 {
        return Err(EvalFault::DivZero(at));
    }
    int(i128::from(a) % i128::from(b), at)
}

fn times(a: i64, n: u64) -> i128
    requires { n ≤ 2 ^ 63 }
    ensures { result ≡ a *ℤ pos n }
{
    i128::from(a) * i128::from(n)
}

fn power_of_two(b: i64) -> u64
    requires low { pos 0 ≤ℤ b }
    requires high { b <ℤ pos 64 }
    ensures exact { result ≡ 2 ^ unsigned_abs b }
    ensures small { result ≤ 2 ^ 63 }
{
    1u64 << b
}

fn shift_left(at: Place, a: i64, b: i64) -> Result<Value, EvalFault>
    ensures { result ≡ shifted at b (λ n. int at (a *ℤ pos (2 ^ n))) }
{
    if b < 0 || b >= 64 {
        return Err(EvalFault::Overflow(at));
    }
    int(times(a, power_of_two(b)), at)
}

fn shift_right(at: Place, a: i64, b: i64) -> Result<Value, EvalFault>
    ensures { result ≡ shifted at b (λ n. int at (floor_div a (2 ^ n))) }
{
    if b < 0 || b >= 64 {
        return Err(EvalFault::Overflow(at));
    }
    int(i128::from(a) >> b, at)
}

fn on_doubles(op: BinOp, at: Place, a: i64, b: i64) -> Result<Value, EvalFault>
    ensures { result ≡ on_doubles op at a b }
{
    let x = i128::from(a);
    let y = i128::from(b);
    match op {
        BinOp::Add => double(x + y, at),
        BinOp::Sub => double(x - y, at),
        BinOp::Mul => multiply_doubles(at, a, b),
        BinOp::Div => divide_doubles(at, a, b),
        BinOp::Eq => Ok(truth(a == b)),
        BinOp::Ne => Ok(truth(a != b)),
        BinOp::Lt => Ok(truth(a < b)),
        BinOp::Le => Ok(truth(a <= b)),
        BinOp::Gt => Ok(truth(a > b)),
        BinOp::Ge => Ok(truth(a >= b)),
        BinOp::Rem | BinOp::Shl | BinOp::Shr | BinOp::Or | BinOp::And => Ok(Value::Int(0)),
    }
}

fn product(a: i64, b: i64) -> i128
    ensures { result ≡ a *ℤ b }
{
    i128::from(a) * i128::from(b)
}

fn per_unit(wide: i128) -> i128
    ensures { result ≡ int_div wide unit }
{
    wide / UNIT
}

fn multiply_doubles(at: Place, a: i64, b: i64) -> Result<Value, EvalFault>
    ensures { result ≡ double at (int_div (a *ℤ b) unit) }
{
    double(per_unit(product(a, b)), at)
}

fn divide_doubles(at: Place, a: i64, b: i64) -> Result<Value, EvalFault>
    ensures { result ≡ divided at b (double at (int_div (a *ℤ unit) b)) }
{
    if b == 0 {
        return Err(EvalFault::DivZero(at));
    }
    double(i128::from(a) * UNIT / i128::from(b), at)
}

fn widened(at: Place, n: i64) -> Result<i64, EvalFault>
    ensures { result ≡ widened at n }
{
    in_range(i128::from(n) * UNIT, at)
}

/// An operator on two numbers. An int beside a double is converted first; the place is that of the operator,
/// and of each fault. `||` and `&&`, which need not have both numbers, are no part of it and give 0, and so do
/// `%`, `<<` and `>>` with a double, which are not well typed.
pub fn apply(op: BinOp, at: Place, a: Value, b: Value) -> Result<Value, EvalFault>
    ensures { result ≡ apply op at a b }
{
    match (a, b) {
        (Value::Int(a), Value::Int(b)) => on_ints(op, at, a, b),
        (Value::Int(a), Value::Double(b)) => on_doubles(op, at, widened(at, a)?, b.0),
        (Value::Double(a), Value::Int(b)) => on_doubles(op, at, a.0, widened(at, b)?),
        (Value::Double(a), Value::Double(b)) => on_doubles(op, at, a.0, b.0),
    }
}

/// The number where a double is wanted; `Overflow` at the place where it does not fit.
pub fn to_double(at: Place, value: Value) -> Result<Value, EvalFault>
    ensures { result ≡ to_double at value }
{
    match value {
        Value::Int(n) => Ok(Value::Double(Fixed(widened(at, n)?))),
        Value::Double(d) => Ok(Value::Double(d)),
    }
}

/// The value of a branch, the other branch being of this kind.
pub(crate) fn beside(other: Option<NumSort>, at: Place, value: Value) -> Result<Value, EvalFault>
    ensures { result ≡ beside other at value }
{
    match other {
        Some(NumSort::Double) => to_double(at, value),
        _ => Ok(value),
    }
}

pub(crate) fn unary(op: UnOp, at: Place, value: Value) -> Result<Value, EvalFault>
    ensures { result ≡ unary op at value }
{
    match op {
        UnOp::Minus => match value {
            Value::Int(n) => int(-i128::from(n), at),
            Value::Double(d) => double(-i128::from(d.0), at),
        },
        UnOp::Plus => Ok(value),
        UnOp::Not => Ok(truth(!is_true(value))),
    }
}
