//! The arguments of a call: evaluated from left to right, then compared with one another.
ghost use Rattle.std.specs.Prelude.{◌≡◌, ◌≢◌, [], ◌∷◌, ◌++◌, map, Ok, Err, OnOk, IfOk, IfErr};
ghost use Rattle.sc_gate.specs.Gates.{AreDistinct};
ghost use Rattle.sc_syntax.specs.Alike.{pure_expr};
ghost use Rattle.sc_meaning.specs.Arguments.{number_arg, pass, pass_all, wires_of, distinct_after};
ghost use Rattle.sc_elab.specs.Evaluated.{passed_by, all_passed, holder};
ghost use Rattle.sc_elab.specs.Frames.{view};
ghost use Rattle.sc_elab.specs.Spans.{span_wires};

use crate::frame::Frame;
use crate::numbers::wanted;
use crate::operands::wire_argument;
use crate::span::Span;
use sc_base::{Class, Memory, Place};
use sc_deck::{Arg, first_repeat};
use sc_gate::Wire;
use sc_meaning::{ElabFault, Want};
use sc_syntax::Expr;
use sc_value::Value;
use std::alloc::Global;

/// An evaluated argument: where it stands, what a key has of it, and its wires, which a number has none of.
#[derive(Clone, Copy)]
pub(crate) struct Evaluated {
    pub(crate) at: Place,
    pub(crate) arg: Arg,
    pub(crate) span: Span,
}

fn number_arg(value: Value) -> Arg
    ensures { result ≡ number_arg value }
{
    match value {
        Value::Int(n) => Arg::Int(n),
        Value::Double(d) => Arg::Double(d),
    }
}

fn pass(frame: &Frame, want: Want, expr: &Expr) -> Result<Evaluated, ElabFault>
    ensures ok { IfOk result (λ e. pass (view frame.now) want (pure_expr expr.now) ≡ Ok (passed_by e)) }
    ensures err { IfErr result (λ f. pass (view frame.now) want (pure_expr expr.now) ≡ Err f) }
{
    let at = expr.place;
    match want {
        Want::One(class) => {
            let span = wire_argument(frame, expr)?;
            let arg = Arg::One(class);
            Ok(Evaluated { at, arg, span })
        }
        Want::Many(class) => {
            let span = wire_argument(frame, expr)?;
            let arg = Arg::Many(class, span.len);
            Ok(Evaluated { at, arg, span })
        }
        Want::Number(sort) => {
            let value = wanted(&frame.numbers, sort, expr)?;
            let arg = number_arg(value);
            let span = Span {
                class: Class::Q,
                first: 0,
                len: 0,
            };
            Ok(Evaluated { at, arg, span })
        }
    }
}

fn push_evaluated(evaluated: &mut Vec<Evaluated>, one: Evaluated) -> Result<(), Memory>
    ensures { OnOk result (all_passed evaluated.new.items ≡ all_passed evaluated.old.items ++ all_passed (one ∷ [])) }
{
    evaluated.push(one)?;
    Ok(())
}

/// The arguments from left to right.
#[tactic(auto, using(crate::proofs::Passing::ahead_none, crate::proofs::Passing::pass_more, crate::proofs::Passing::pass_fault, crate::proofs::Passing::pass_end, crate::proofs::Passing::pass_done))]
pub(crate) fn pass_all(
    alloc: Global,
    frame: &Frame,
    wants: &[Want],
    args: &[Expr],
) -> Result<Vec<Evaluated>, ElabFault>
    ensures ok { IfOk result (λ es. pass_all (view frame.now) wants.now (map pure_expr args.now) ≡ Ok (all_passed es.items)) }
    ensures err { IfErr result (λ f. f ≢ ElabFault.Memory → pass_all (view frame.now) wants.now (map pure_expr args.now) ≡ Err f) }
{
    let mut evaluated = Vec::new(alloc);
    let mut rest = args;
    for want in wants {
        let [arg, more @ ..] = rest else {
            return Ok(evaluated);
        };
        let one = pass(frame, *want, arg)?;
        push_evaluated(&mut evaluated, one)?;
        rest = more;
    }
    Ok(evaluated)
}

#[tactic(auto, using(sc_meaning::proofs::Spanned::made_more))]
pub(crate) fn push_span(wires: &mut Vec<Wire>, span: Span) -> Result<(), Memory>
    ensures { OnOk result (wires.new.items ≡ wires.old.items ++ span_wires span) }
{
    for i in 0..span.len {
        wires.push(Wire {
            class: span.class,
            number: span.first + i,
        })?;
    }
    Ok(())
}

/// The wires of the arguments in order.
#[tactic(auto, using(crate::proofs::Holding::wires_more))]
fn wires_of(alloc: Global, evaluated: &[Evaluated]) -> Result<Vec<Wire>, Memory>
    ensures { IfOk result (λ ws. ws.items ≡ wires_of (all_passed evaluated.now)) }
{
    let mut wires = Vec::new(alloc);
    for one in evaluated {
        push_span(&mut wires, one.span)?;
    }
    Ok(wires)
}

/// The place of the argument that holds the wire at a position.
#[tactic(auto, using(crate::proofs::Holding::holder_here, crate::proofs::Holding::holder_past))]
fn holder(evaluated: &[Evaluated], position: usize) -> Option<Place>
    ensures { result ≡ holder (all_passed evaluated.now) position }
{
    let mut left = position;
    for one in evaluated {
        let len = one.span.len as usize;
        if left < len {
            return Some(one.at);
        }
        left -= len;
    }
    None
}

/// The wires of the arguments in order, where no argument holds a wire of an earlier one.
pub(crate) fn distinct_wires(alloc: Global, evaluated: &[Evaluated]) -> Result<Vec<Wire>, ElabFault>
    ensures ok { OnOk result (distinct_after [] (all_passed evaluated.now) ≡ Ok tt) }
    ensures wires { IfOk result (λ ws. ws.items ≡ wires_of (all_passed evaluated.now)) }
    ensures distinct { IfOk result (λ ws. AreDistinct ws.items) }
    ensures err { IfErr result (λ f. f ≢ ElabFault.Memory → distinct_after [] (all_passed evaluated.now) ≡ Err f) }
{
    let wires = wires_of(alloc, evaluated)?;
    let Some(position) = first_repeat(&wires) else {
        return Ok(wires);
    };
    match holder(evaluated, position) {
        Some(at) => Err(ElabFault::Repeated(at)),
        None => unreachable!(),
    }
}
