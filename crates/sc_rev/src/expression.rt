//! The gates of a word expression.
ghost use Rattle.std.specs.Prelude.{◌≡◌, ◌≤◌, IfOk};
ghost use Rattle.sc_word.specs.Pure.{pure_typed_expr};
ghost use Rattle.sc_rev.specs.Functions.{circuit, op_piece, word_at};
ghost use Rattle.sc_rev.specs.Emitting.{Draws, wires_of};

use crate::bitwise::Cell;
use crate::draft::Draft;
use sc_base::Memory;
use sc_syntax::WordOp;
use sc_word::{TypedExpr, TypedNode};
use std::alloc::Global;

/// The wires of the word with a number; none where there is no such word.
fn wires_at(alloc: Global, words: &[Vec<u32>], i: u32) -> Result<Vec<u32>, Memory>
    ensures { IfOk result (λ r. r.items ≡ word_at (wires_of words.now) i) }
{
    let mut word = Vec::new(alloc);
    if (i as usize) < words.len() {
        match word.extend_from_slice(words[i as usize].as_slice()) {
            Ok(()) => Ok(word),
            Err(_) => Err(Memory),
        }
    } else {
        Ok(word)
    }
}

impl Draft {
    fn put_op(
        &mut self,
        alloc: Global,
        op: WordOp,
        e: &[u32],
        f: &[u32],
    ) -> Result<Vec<u32>, Memory>
        requires { (op_piece op e.now f.now self.old.next).next ≤ 65536 }
        ensures { IfOk result (λ r. Draws (op_piece op e.now f.now self.old.next) self.old self.new r.items) }
    {
        match op {
            WordOp::Or => self.put_each(alloc, Cell::Or, e, f),
            WordOp::Xor => self.put_each(alloc, Cell::Xor, e, f),
            WordOp::And => self.put_each(alloc, Cell::And, e, f),
            WordOp::Eq => self.put_equal(alloc, e, f),
            WordOp::Lt => self.put_less(alloc, e, f),
            WordOp::Add => self.put_sum(alloc, e, f),
            WordOp::Sub => self.put_difference(alloc, e, f),
            WordOp::Mul => self.put_product(alloc, e, f),
        }
    }

    /// The gates of an expression, after those of the draft, and the wires of its word.
    pub(crate) fn emit(
        &mut self,
        alloc: Global,
        words: &[Vec<u32>],
        expr: &TypedExpr,
    ) -> Result<Vec<u32>, Memory>
        requires room { (circuit (wires_of words.now) self.old.next (pure_typed_expr expr.now)).next ≤ 65536 }
        ensures { IfOk result (λ r. Draws (circuit (wires_of words.now) self.old.next (pure_typed_expr expr.now)) self.old self.new r.items) }
    {
        match &expr.node {
            TypedNode::Literal(value) => self.put_literal(alloc, *value, expr.width),
            TypedNode::Word(i) => wires_at(alloc, words, *i),
            TypedNode::Not(inner) => {
                let word = self.emit(alloc, words, inner)?;
                self.put_each(alloc, Cell::Not, word.as_slice(), word.as_slice())
            }
            TypedNode::Chain(first, links) => {
                let mut word = self.emit(alloc, words, first)?;
                for link in links {
                    let right = self.emit(alloc, words, &link.right)?;
                    word = self.put_op(alloc, link.op, word.as_slice(), right.as_slice())?;
                }
                Ok(word)
            }
            TypedNode::Shift(inner, links) => {
                let word = self.emit(alloc, words, inner)?;
                self.put_shifts(alloc, word, links.as_slice())
            }
            TypedNode::Pick(test, yes, no) => {
                let test = self.emit(alloc, words, test)?;
                let yes = self.emit(alloc, words, yes)?;
                let no = self.emit(alloc, words, no)?;
                self.put_pick(alloc, test.as_slice(), yes.as_slice(), no.as_slice())
            }
            TypedNode::Ext(inner) => {
                let word = self.emit(alloc, words, inner)?;
                self.put_ext(word, expr.width)
            }
            TypedNode::Low(inner) => {
                let mut word = self.emit(alloc, words, inner)?;
                word.truncate(expr.width as usize);
                Ok(word)
            }
        }
    }
}
