//! The value of an expression.
ghost use Rattle.std.specs.Prelude.{◌≡◌};
ghost use Rattle.sc_syntax.specs.NameKind.{kind_of_expr};
ghost use Rattle.sc_value.specs.Expressions.{sort_of, value_of_expr, IsOfItsKind};
ghost use Rattle.sc_value.specs.Scopes.{value_of_name, known_kinds};

use crate::numbers::{apply, beside, is_true, truth, unary};
use crate::{Env, EvalFault, Value};
use sc_syntax::{BinOp, Expr, Node, NumSort};

impl Value {
    fn sort(self) -> NumSort
        ensures { result ≡ sort_of self }
    {
        match self {
            Value::Int(_) => NumSort::Int,
            Value::Double(_) => NumSort::Double,
        }
    }
}

fn kind_of(expr: &Expr, env: &Env) -> Option<NumSort>
    ensures { result ≡ kind_of_expr (known_kinds env.now) expr.now }
{
    match &expr.node {
        Node::Int(_) => Some(NumSort::Int),
        Node::Decimal(_) => Some(NumSort::Double),
        Node::Name(name) => Some(env.get(name)?.sort()),
        Node::Index(_, _) => None,
        Node::Paren(inner) => kind_of(inner, env),
        Node::Unary(op, inner) => Some(op.kind(kind_of(inner, env)?)),
        Node::Chain(first, links) => {
            let mut kind = kind_of(first, env)?;
            for link in links {
                kind = link.op.kind(kind, kind_of(&link.right, env)?)?;
            }
            Some(kind)
        }
        Node::Pick(test, yes, no) => {
            let _ = kind_of(test, env)?;
            let kind = kind_of(yes, env)?;
            Some(kind.wider(kind_of(no, env)?))
        }
    }
}

/// The value of an expression of numbers for the names of `env`, or its first fault in the order in which
/// operands are evaluated. `Overflow` and `DivZero` stand at the operator; `Overflow` of a converted branch of
/// `?:` stands at the branch's first token. An expression that is well typed as a number has a value of its kind,
/// or one of these faults. What no well-typed expression has counts as 0: an unknown name, a name with an index.
/// Takes no memory. Recursion goes as deep as the expression nests.
pub fn eval(expr: &Expr, env: &Env) -> Result<Value, EvalFault>
    ensures value { result ≡ value_of_expr (value_of_name env.now) expr.now }
    ensures kind { IsOfItsKind (known_kinds env.now) expr.now result }
{
    evaluate(expr, env)
}

fn evaluate(expr: &Expr, env: &Env) -> Result<Value, EvalFault>
    ensures { result ≡ value_of_expr (value_of_name env.now) expr.now }
{
    match &expr.node {
        Node::Int(n) => Ok(Value::Int(*n)),
        Node::Decimal(d) => Ok(Value::Double(*d)),
        Node::Name(name) => Ok(env.get(name).unwrap_or(Value::Int(0))),
        Node::Index(_, _) => Ok(Value::Int(0)),
        Node::Paren(inner) => evaluate(inner, env),
        Node::Unary(op, inner) => unary(*op, expr.place, evaluate(inner, env)?),
        Node::Chain(first, links) => {
            let mut value = evaluate(first, env)?;
            for link in links {
                value = match link.op {
                    BinOp::Or if is_true(value) => truth(true),
                    BinOp::And if !is_true(value) => truth(false),
                    BinOp::Or | BinOp::And => truth(is_true(evaluate(&link.right, env)?)),
                    op => apply(op, link.place, value, evaluate(&link.right, env)?)?,
                };
            }
            Ok(value)
        }
        Node::Pick(test, yes, no) => {
            if is_true(evaluate(test, env)?) {
                beside(kind_of(no, env), yes.place, evaluate(yes, env)?)
            } else {
                beside(kind_of(yes, env), no.place, evaluate(no, env)?)
            }
        }
    }
}
