//! The walk of a word expression.
ghost use Rattle.std.specs.Prelude.{◌≡◌, ◌≢◌, [], ◌∷◌, Some, None, IfOk, IfErr};
ghost use Rattle.sc_syntax.specs.Alike.{pure_word};
ghost use Rattle.sc_word.specs.Words.{number_of};
ghost use Rattle.sc_word.specs.Checks.{first_fault, is_known};
ghost use Rattle.sc_word.specs.Operands.{WalkedWord, IsScope, IsKnown, fault_node};

use crate::chain::{Chain, finished, joined};
use crate::form::{extended, lowered, negated, picked, shifted};
use crate::operand::Operand;
use crate::tree::{TypedExpr, TypedNode, WordFault};
use crate::words::Words;
use sc_base::{Place, Text};
use sc_syntax::{WordExpr, WordNode};
use std::alloc::Global;

fn known(words: &Words, name: &Text, at: Place) -> Result<Operand, WordFault>
    requires { IsScope words.now }
    ensures ok { IfOk result (IsKnown words.now name.now) }
    ensures err { IfErr result (λ f. first_fault (is_known at (number_of words.now name.now) ∷ []) ≡ Some f) }
{
    match words.find(name) {
        Some(word) => Ok(Operand::Word(TypedExpr {
            width: word.width,
            node: TypedNode::Word(word.number as u32),
        })),
        None => Err(WordFault::UnknownName(at)),
    }
}

/// The typed word of an expression, or the literal where it is a bare one; or its first fault.
pub(crate) fn walk(alloc: Global, words: &Words, expr: &WordExpr) -> Result<Operand, WordFault>
    requires { IsScope words.now }
    ensures ok { IfOk result (WalkedWord words.now expr.now.place (pure_word expr.now.node)) }
    ensures err { IfErr result (λ f. f ≢ WordFault.Memory → fault_node words.now expr.now.place (pure_word expr.now.node) ≡ Some f) }
{
    match &expr.node {
        WordNode::Int(value) => Ok(Operand::Bare(value.unsigned_abs())),
        WordNode::Name(name) => known(words, name, expr.place),
        WordNode::Paren(inner) => walk(alloc, words, inner),
        WordNode::Not(inner) => {
            let operand = walk(alloc, words, inner)?;
            negated(alloc, inner.place, operand)
        }
        WordNode::Chain(first, links) => {
            let mut chain = Chain::Start(walk(alloc, words, first)?);
            for link in links {
                let right = walk(alloc, words, &link.right)?;
                chain = joined(
                    alloc,
                    chain,
                    expr.place,
                    first.place,
                    link.op,
                    link.right.place,
                    right,
                )?;
            }
            finished(alloc, first.place, chain)
        }
        WordNode::Shift(inner, links) => {
            let operand = walk(alloc, words, inner)?;
            shifted(alloc, inner.place, operand, links)
        }
        WordNode::Pick(test, yes, no) => {
            let test_word = walk(alloc, words, test)?;
            let yes_word = walk(alloc, words, yes)?;
            let no_word = walk(alloc, words, no)?;
            picked(
                alloc, test.place, test_word, yes.place, yes_word, no.place, no_word,
            )
        }
        WordNode::Ext(inner, width) => {
            let operand = walk(alloc, words, inner)?;
            extended(alloc, inner.place, operand, *width)
        }
        WordNode::Low(inner, width) => {
            let operand = walk(alloc, words, inner)?;
            lowered(alloc, inner.place, operand, *width)
        }
    }
}
