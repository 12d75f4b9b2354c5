//! Values at the edges of the ranges, worked out by hand.
use sc_base::{Fixed, Memory, Place, Text};
use sc_syntax::{BinOp, Expr, Link, Node, UnOp};
use sc_value::{Env, EvalFault, Value, apply, eval, is_true, to_double};
use std::alloc::Global;
use std::process::Abort;
use std::test::Fail;

const AT: Place = Place { line: 1, column: 5 };

const FIRST: Place = Place { line: 2, column: 1 };

const LEAST: i64 = -9_223_372_036_854_775_808;

const MOST: i64 = 9_223_372_036_854_775_807;

const ONE: i64 = 1_000_000_000_000;

const OVERFLOW: Result<Value, EvalFault> = Err(EvalFault::Overflow(AT));

const DIV_ZERO: Result<Value, EvalFault> = Err(EvalFault::DivZero(AT));

fn int(n: i64) -> Value {
    Value::Int(n)
}

fn double(units: i64) -> Value {
    Value::Double(Fixed(units))
}

/// Two operands, the operator between them, and what it makes of them.
fn make(rt: &impl Abort, rows: &[(Value, BinOp, Value, Result<Value, EvalFault>)]) {
    for (a, op, b, wanted) in rows {
        assert_eq!(rt; apply(*op, AT, *a, *b), *wanted, "{a:?} {op:?} {b:?}");
    }
}

/// The same of ints.
fn make_of_ints(rt: &impl Abort, rows: &[(i64, BinOp, i64, Result<Value, EvalFault>)]) {
    for (a, op, b, wanted) in rows {
        assert_eq!(rt; apply(*op, AT, int(*a), int(*b)), *wanted, "{a} {op:?} {b}");
    }
}

#[test]
fn sums_and_quotients_at_the_edges(rt: HostRuntime) {
    make_of_ints(
        &rt,
        &[
            (MOST, BinOp::Add, 1, OVERFLOW),
            (LEAST, BinOp::Sub, 1, OVERFLOW),
            (LEAST, BinOp::Div, -1, OVERFLOW),
            (LEAST, BinOp::Rem, -1, Ok(Value::Int(0))),
            (-7, BinOp::Div, 2, Ok(Value::Int(-3))),
            (-7, BinOp::Rem, 2, Ok(Value::Int(-1))),
            (1, BinOp::Div, 0, DIV_ZERO),
            (1, BinOp::Rem, 0, DIV_ZERO),
        ],
    );
}

#[test]
fn shifts_at_the_edges(rt: HostRuntime) {
    make_of_ints(
        &rt,
        &[
            (1, BinOp::Shl, 63, OVERFLOW),
            (1, BinOp::Shl, 62, Ok(Value::Int(4_611_686_018_427_387_904))),
            (-1, BinOp::Shl, 63, Ok(Value::Int(LEAST))),
            (-1, BinOp::Shr, 63, Ok(Value::Int(-1))),
            (-7, BinOp::Shr, 1, Ok(Value::Int(-4))),
            (1, BinOp::Shl, -1, OVERFLOW),
            (1, BinOp::Shr, 64, OVERFLOW),
        ],
    );
}

#[test]
fn doubles_at_the_edges(rt: HostRuntime) {
    make(
        &rt,
        &[
            (
                int(1),
                BinOp::Div,
                double(3_000_000_000_000),
                Ok(double(333_333_333_333)),
            ),
            (
                double(500_000_000_000),
                BinOp::Mul,
                double(1),
                Ok(double(0)),
            ),
            (
                int(9_223_372),
                BinOp::Mul,
                double(ONE),
                Ok(double(9_223_372_000_000_000_000)),
            ),
            (double(ONE), BinOp::Mul, int(-9_223_373), OVERFLOW),
            (int(1), BinOp::Eq, double(ONE), Ok(int(1))),
        ],
    );
}

#[test]
fn ints_that_no_double_holds(rt: HostRuntime) {
    make(
        &rt,
        &[
            (int(9_223_373), BinOp::Mul, double(ONE), OVERFLOW),
            (int(9_223_373), BinOp::Lt, double(ONE), OVERFLOW),
            (int(9_223_373), BinOp::Div, double(0), OVERFLOW),
            (int(1), BinOp::Div, double(0), DIV_ZERO),
        ],
    );
    assert_eq!(rt; to_double(AT, int(-3)), Ok(double(-3_000_000_000_000)));
    assert!(rt; is_true(double(1)));
    assert!(rt; !is_true(int(0)));
}

fn leaf(value: Value) -> Expr {
    let node = match value {
        Value::Int(n) => Node::Int(n),
        Value::Double(d) => Node::Decimal(d),
    };
    Expr { place: FIRST, node }
}

fn boxed(alloc: Global, expr: Expr) -> Result<Box<Expr>, Memory> {
    match Box::new(alloc, expr) {
        Ok(held) => Ok(held),
        Err(_) => Err(Memory),
    }
}

fn chain(alloc: Global, first: Expr, op: BinOp, right: Expr) -> Result<Expr, Memory> {
    let mut links = Vec::new(alloc);
    let link = Link {
        op,
        place: AT,
        right,
    };
    match links.push(link) {
        Ok(()) => Ok(Expr {
            place: FIRST,
            node: Node::Chain(boxed(alloc, first)?, links),
        }),
        Err(_) => Err(Memory),
    }
}

/// The first operand, an operator, and what it makes of that operand and `1 / 0`.
fn make_before_division(
    rt: &impl Abort,
    alloc: Global,
    rows: &[(i64, BinOp, Result<Value, EvalFault>)],
) -> Result<(), Fail> {
    let env = Env::new(alloc);
    for (first, op, wanted) in rows {
        let by_zero = chain(alloc, leaf(int(1)), BinOp::Div, leaf(int(0)))?;
        let whole = chain(alloc, leaf(int(*first)), *op, by_zero)?;
        assert_eq!(rt; eval(&whole, &env), *wanted, "{first} {op:?} 1 / 0");
    }
    Ok(())
}

#[test]
fn a_second_operand_is_evaluated_where_it_is_needed(rt: HostRuntime) -> Result<(), Fail> {
    make_before_division(
        &rt,
        rt.alloc(),
        &[
            (0, BinOp::And, Ok(Value::Int(0))),
            (2, BinOp::And, DIV_ZERO),
            (2, BinOp::Or, Ok(Value::Int(1))),
            (0, BinOp::Or, DIV_ZERO),
        ],
    )
}

fn pick(alloc: Global, test: Expr, yes: Expr, no: Expr) -> Result<Expr, Memory> {
    let node = Node::Pick(boxed(alloc, test)?, boxed(alloc, yes)?, boxed(alloc, no)?);
    Ok(Expr { place: AT, node })
}

/// A test, what is picked where it holds, and the value of the choice between that and 3.5.
fn choose(
    rt: &impl Abort,
    alloc: Global,
    rows: &[(i64, i64, Result<Value, EvalFault>)],
) -> Result<(), Fail> {
    let env = Env::new(alloc);
    for (test, yes, wanted) in rows {
        let no = leaf(double(3_500_000_000_000));
        let whole = pick(alloc, leaf(int(*test)), leaf(int(*yes)), no)?;
        assert_eq!(rt; eval(&whole, &env), *wanted, "{test} ? {yes} : 3.5");
    }
    Ok(())
}

#[test]
fn an_int_beside_a_double_is_made_a_double_where_it_is_picked(rt: HostRuntime) -> Result<(), Fail> {
    choose(
        &rt,
        rt.alloc(),
        &[
            (1, 2, Ok(double(2_000_000_000_000))),
            (1, 9_223_373, Err(EvalFault::Overflow(FIRST))),
            (0, 9_223_373, Ok(double(3_500_000_000_000))),
        ],
    )
}

#[test]
fn the_least_int_has_no_opposite(rt: HostRuntime) -> Result<(), Fail> {
    let env = Env::new(rt.alloc());
    let minus = Expr {
        place: AT,
        node: Node::Unary(UnOp::Minus, boxed(rt.alloc(), leaf(int(LEAST)))?),
    };
    assert_eq!(rt; eval(&minus, &env), OVERFLOW);
    Ok(())
}

#[test]
fn half_of_pi_has_twelve_decimals(rt: HostRuntime) -> Result<(), Fail> {
    let env = Env::new(rt.alloc());
    let pi = Expr {
        place: FIRST,
        node: Node::Name(Text::from_bytes(rt.alloc(), b"M_PI")?),
    };
    let half = chain(rt.alloc(), pi, BinOp::Div, leaf(int(2)))?;
    assert_eq!(rt; eval(&half, &env), Ok(double(1_570_796_326_795)));
    Ok(())
}

#[test]
fn scopes_hide_and_uncover(rt: HostRuntime) -> Result<(), Fail> {
    let name = Text::from_bytes(rt.alloc(), b"x")?;
    let mut env = Env::new(rt.alloc());
    env.declare(&name, int(1))?;
    env.enter()?;
    env.declare(&name, int(2))?;
    env.set(&name, int(5));
    assert_eq!(rt; env.get(&name), Some(int(5)));
    env.leave();
    assert_eq!(rt; env.get(&name), Some(int(1)));
    Ok(())
}

#[test]
fn a_name_that_is_not_declared_is_not_set(rt: HostRuntime) -> Result<(), Fail> {
    let name = Text::from_bytes(rt.alloc(), b"y")?;
    let mut env = Env::new(rt.alloc());
    env.set(&name, int(3));
    assert_eq!(rt; env.get(&name), None);
    Ok(())
}
