//! Operands: the wires of a name, or one of them.
ghost use Rattle.std.specs.Prelude.{◌≡◌, option_map, Ok, Err, IfOk, IfErr};
ghost use Rattle.std.specs.Option.{option_copied};
ghost use Rattle.sc_syntax.specs.Alike.{pure_expr, pure_node};
ghost use Rattle.sc_elab.specs.Frames.{view};
ghost use Rattle.sc_elab.specs.Spans.{span_wires};
ghost use Rattle.sc_meaning.specs.Values.{element, operand, wire_argument};

use crate::frame::Frame;
use crate::numbers::{count_of, whole_number};
use crate::span::Span;
use sc_base::{Class, Place, Text};
use sc_meaning::ElabFault;
use sc_syntax::{Expr, Node};

/// The wire of a span with an index.
#[tactic(auto, using(crate::proofs::Indexing::element_in, crate::proofs::Indexing::element_past, crate::proofs::Indexing::element_below))]
fn element(at: Place, span: Span, index: i64) -> Result<Span, ElabFault>
    ensures ok { IfOk result (λ one. element at (span_wires span) index ≡ Ok (span_wires one)) }
    ensures err { IfErr result (λ f. element at (span_wires span) index ≡ Err f) }
{
    if index < 0 || index >= i64::from(span.len) {
        return Err(ElabFault::OutOfRange(at));
    }
    let index = count_of(index);
    Ok(Span {
        class: span.class,
        first: span.first + index,
        len: 1,
    })
}

/// The wires of a name, or one of them. A fault of the index stands at the name.
pub(crate) fn operand(
    frame: &Frame,
    name: &Text,
    at: Place,
    index: Option<&Expr>,
) -> Result<Span, ElabFault>
    ensures ok { IfOk result (λ span. operand (view frame.now) name.now at (option_map pure_expr (option_copied index.entry)) ≡ Ok (span_wires span)) }
    ensures err { IfErr result (λ f. operand (view frame.now) name.now at (option_map pure_expr (option_copied index.entry)) ≡ Err f) }
{
    match index {
        None => Ok(frame.named(name)),
        Some(expr) => {
            let index = whole_number(&frame.numbers, expr)?;
            element(at, frame.named(name), index)
        }
    }
}

/// The wires of an argument, which is a name or an indexed name.
pub(crate) fn wire_argument(frame: &Frame, expr: &Expr) -> Result<Span, ElabFault>
    ensures ok { IfOk result (λ span. wire_argument (view frame.now) expr.now.place (pure_node expr.now.node) ≡ Ok (span_wires span)) }
    ensures err { IfErr result (λ f. wire_argument (view frame.now) expr.now.place (pure_node expr.now.node) ≡ Err f) }
{
    match &expr.node {
        Node::Name(name) => operand(frame, name, expr.place, None),
        Node::Index(name, index) => operand(frame, name, expr.place, Some(index)),
        _ => Ok(Span {
            class: Class::Q,
            first: 0,
            len: 0,
        }),
    }
}
