//! What stands beside an operator.
ghost use Rattle.std.specs.Prelude.{◌≡◌, ◌^◌, nat_lt, IfOk, IfErr};
ghost use Rattle.sc_word.specs.Operands.{form_of, with_width};

use crate::tree::{TypedExpr, TypedNode, WordFault};
use std::alloc::Global;

/// An operand before its operator gives it a width: a bare literal has none of its own.
#[derive(Drop)]
pub(crate) enum Operand {
    Bare(u64),
    Word(TypedExpr),
}

/// Whether an operand is a bare literal, and which, or a word, and of which width.
#[derive(Clone, Copy, Debug, PartialEq, Eq)]
pub enum Form {
    Bare(u64),
    Wide(u32),
}

pub(crate) fn form_of(operand: &Operand) -> Form
    ensures { result ≡ form_of operand.now }
{
    match operand {
        Operand::Bare(value) => Form::Bare(*value),
        Operand::Word(word) => Form::Wide(word.width),
    }
}

/// A bare literal takes the width; a word keeps its own.
pub(crate) fn with_width(operand: Operand, width: u32) -> TypedExpr
    ensures { result ≡ with_width width operand }
{
    match operand {
        Operand::Bare(value) => TypedExpr {
            width,
            node: TypedNode::Literal(value),
        },
        Operand::Word(word) => word,
    }
}

/// Whether a literal fits a width.
pub(crate) fn fits(value: u64, width: u64) -> bool
    ensures { result ≡ nat_lt value (2 ^ width) }
{
    width >= 64 || value >> width == 0
}

pub(crate) fn boxed(alloc: Global, word: TypedExpr) -> Result<Box<TypedExpr>, WordFault>
    ensures ok { IfOk result (λ b. b.value ≡ word) }
    ensures err { IfErr result (λ f. f ≡ WordFault.Memory) }
{
    match Box::new(alloc, word) {
        Ok(boxed) => Ok(boxed),
        Err(_) => Err(WordFault::Memory),
    }
}
