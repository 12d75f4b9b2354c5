//! A chain of operators while it is walked.
ghost use Rattle.std.specs.Prelude.{◌≡◌, ◌≢◌, [], ◌∷◌, ◌++◌, Some, None, OnOk, IfOk, IfErr};
ghost use Rattle.sc_word.specs.Forms.{shared, own_width, op_width as width_of_op};
ghost use Rattle.sc_word.specs.Checks.{first_fault, meet, op_fits, no_literal};
ghost use Rattle.sc_word.specs.Operands.{form_of, chain_form, first_of, links_of, IsJoined, IsChain};

use crate::operand::{Form, Operand, boxed, form_of, with_width};
use crate::rules::{join_fits, no_literal, own_width, shared};
use crate::tree::{TypedExpr, TypedLink, TypedNode, WordFault};
use sc_base::Place;
use sc_syntax::WordOp;
use std::alloc::Global;

/// The operators so far. The first operand may be a bare literal until an operator gives it a width.
#[derive(Drop)]
pub(crate) enum Chain {
    Start(Operand),
    Joined(TypedExpr, Vec<TypedLink>, u32),
}

fn chain_form(chain: &Chain) -> Form
    ensures { result ≡ chain_form chain.now }
{
    match chain {
        Chain::Start(operand) => form_of(operand),
        Chain::Joined(_, _, width) => Form::Wide(*width),
    }
}

/// The first operand, to which a bare literal's width is given, and the links.
fn parts(alloc: Global, chain: Chain, width: u32) -> (TypedExpr, Vec<TypedLink>)
    ensures first { result.0 ≡ first_of width chain }
    ensures links { result.1.items ≡ links_of chain }
{
    match chain {
        Chain::Start(operand) => (with_width(operand, width), Vec::new(alloc)),
        Chain::Joined(first, links, _) => (first, links),
    }
}

pub(crate) fn op_width(op: WordOp, width: u32) -> u32
    ensures { result ≡ width_of_op op width }
{
    match op {
        WordOp::Eq | WordOp::Lt => 1,
        _ => width,
    }
}

fn pushed(
    mut links: Vec<TypedLink>,
    op: WordOp,
    right: TypedExpr,
) -> Result<Vec<TypedLink>, WordFault>
    ensures ok { IfOk result (λ r. r.items ≡ links.items ++ record { op = op; right = right } ∷ []) }
    ensures err { IfErr result (λ f. f ≡ WordFault.Memory) }
{
    match links.push(TypedLink { op, right }) {
        Ok(()) => Ok(links),
        Err(_) => Err(WordFault::Memory),
    }
}

/// The chain with one more operator. Its first token is at `at`, its first operand at `first_at`.
pub(crate) fn joined(
    alloc: Global,
    chain: Chain,
    at: Place,
    first_at: Place,
    op: WordOp,
    right_at: Place,
    right: Operand,
) -> Result<Chain, WordFault>
    ensures ok { IfOk result (IsJoined chain op right) }
    ensures none { OnOk result (first_fault (meet at first_at (chain_form chain) right_at (form_of right) ∷ op_fits at op (shared (chain_form chain) (form_of right)) ∷ []) ≡ None) }
    ensures err { IfErr result (λ f. f ≢ WordFault.Memory → first_fault (meet at first_at (chain_form chain) right_at (form_of right) ∷ op_fits at op (shared (chain_form chain) (form_of right)) ∷ []) ≡ Some f) }
{
    let left = chain_form(&chain);
    let form = form_of(&right);
    join_fits(at, first_at, left, op, right_at, form)?;
    let width = shared(left, form);
    let (first, links) = parts(alloc, chain, width);
    let links = pushed(links, op, with_width(right, width))?;
    Ok(Chain::Joined(first, links, op_width(op, width)))
}

/// The whole chain as a word.
pub(crate) fn finished(alloc: Global, first_at: Place, chain: Chain) -> Result<Operand, WordFault>
    ensures ok { IfOk result (IsChain chain) }
    ensures none { OnOk result (first_fault (no_literal first_at (chain_form chain) ∷ []) ≡ None) }
    ensures err { IfErr result (λ f. f ≢ WordFault.Memory → first_fault (no_literal first_at (chain_form chain) ∷ []) ≡ Some f) }
{
    let form = chain_form(&chain);
    no_literal(first_at, form)?;
    let width = own_width(form);
    let (first, links) = parts(alloc, chain, width);
    let first = boxed(alloc, first)?;
    Ok(Operand::Word(TypedExpr {
        width,
        node: TypedNode::Chain(first, links),
    }))
}
