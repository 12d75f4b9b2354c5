//! How many scratch qubits a typed word uses.
ghost use Rattle.std.specs.Prelude.{◌≡◌, ◌^◌, ◌<◌, ◌+◌, ◌-◌, sum_by};
ghost use Rattle.sc_word.specs.Scratch.{shift_scratch, op_scratch, adder_scratch};
ghost use Rattle.sc_word.specs.Operands.{used};

use crate::chain::op_width;
use crate::rules::amount;
use crate::tree::{TypedExpr, TypedNode};
use sc_syntax::{ShiftLink, WordOp};

/// A sum without the carry that goes out at the top.
fn of_sum(width: u32) -> u64
    ensures { result ≡ adder_scratch width (width - 1) }
{
    let width = u64::from(width);
    width + width.saturating_sub(1)
}

fn of_product(width: u32) -> u64
    requires { op_scratch WordOp.Mul width < 2 ^ 64 }
    ensures { result ≡ op_scratch WordOp.Mul width }
{
    let sum = of_sum(width);
    let width = u64::from(width);
    width * width + width.saturating_sub(1) * sum
}

fn of_op(op: WordOp, width: u32) -> u64
    requires { op_scratch op width < 2 ^ 64 }
    ensures { result ≡ op_scratch op width }
{
    let wires = u64::from(width);
    match op {
        WordOp::Or | WordOp::Xor | WordOp::And => wires,
        WordOp::Eq => wires + wires,
        WordOp::Lt => wires + (wires + wires),
        WordOp::Add => of_sum(width),
        WordOp::Sub => wires + of_sum(width) + wires,
        WordOp::Mul => of_product(width),
    }
}

fn of_shifts(links: &[ShiftLink], width: u32) -> u64
    requires { sum_by (shift_scratch width) links.now < 2 ^ 64 }
    ensures { result ≡ sum_by (shift_scratch width) links.now }
{
    let mut count = 0;
    for link in links {
        count += amount(link.by).min(u64::from(width));
    }
    count
}

pub(crate) fn scratch_of(expr: &TypedExpr) -> u64
    requires { used expr.now < 2 ^ 64 }
    ensures { result ≡ used expr.now }
{
    let wires = u64::from(expr.width);
    match &expr.node {
        TypedNode::Literal(_) => wires,
        TypedNode::Word(_) => 0,
        TypedNode::Not(inner) => scratch_of(inner) + wires,
        TypedNode::Chain(first, links) => {
            let mut count = scratch_of(first);
            let mut width = first.width;
            for link in links {
                count += scratch_of(&link.right) + of_op(link.op, width);
                width = op_width(link.op, width);
            }
            count
        }
        TypedNode::Shift(inner, links) => scratch_of(inner)
            + of_shifts(links.as_slice(), expr.width),
        TypedNode::Pick(test, one, other) => scratch_of(test)
            + scratch_of(one)
            + scratch_of(other)
            + (wires + wires),
        TypedNode::Ext(inner) => scratch_of(inner) + wires.saturating_sub(u64::from(inner.width)),
        TypedNode::Low(inner) => scratch_of(inner),
    }
}
