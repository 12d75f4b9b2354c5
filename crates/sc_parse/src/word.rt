//! The expressions of classical functions.
ghost use Rattle.std.specs.Prelude.{◌≡◌, ◌≤◌, ◌<◌, [], ◌∷◌, length, drop, true, Some, MatchOption, MatchResult};

use crate::operators::{self, SHIFTS, shift, word_binary, word_level_marks};
use crate::reader::{Fault, Reader};
use crate::terminal::Terminal;
use crate::{make, make_words};
use sc_base::{List, Place};
use sc_syntax::{Mark, Token, WordExpr, WordLink, WordNode, WordOp};

/// The levels of operators on words, from the loosest. Shifts stand between `Less` and `Sum`.
#[derive(Clone, Copy, Debug)]
pub enum WordLevel {
    Or,
    Xor,
    And,
    Equal,
    Less,
    Sum,
    Product,
}

impl Reader<'_> {
    ghost use Rattle.sc_parse.specs.declared.word.WordLevel.{WordLevel as Level};
    ghost use Rattle.sc_parse.specs.WordLevels.{IsWordQuiet, ReadsWordChain, ReadsWordLinks, ReadsWordOperand, picked, sized, tightest, word_base as base, word_level_ahead, word_looseness};
    ghost use Rattle.sc_parse.specs.Form as symbol;
    ghost use Rattle.sc_parse.specs.Form.{◌⨾◌, ◌∣◌, many, one, sub};
    ghost use Rattle.sc_parse.specs.Input.{input};
    ghost use Rattle.sc_parse.specs.Pieces.{IsInside, next, piece};
    ghost use Rattle.sc_parse.specs.Reads.{Fails, Makes, MakesAfter, Reads, Takes, TakesShift, TakesWordBinary};
    ghost use Rattle.sc_parse.specs.Rules.{shift_marks, word_chain_of, word_operand, word_operator};
    ghost use Rattle.sc_parse.specs.Form.{choice};
    ghost use Rattle.sc_parse.specs.Runs.{begins};
    ghost use Rattle.sc_parse.specs.Trees.{token as token_part, word_expr as tree};
    ghost use Rattle.sc_parse.specs.declared.terminal.Terminal.TheVariants.{Ext, Low};

    /// Whether an operator of the level is the next token.
    fn is_word_operator(&self, at: usize, level: WordLevel) -> bool
        ensures { result ≡ begins (word_operator level) (next (drop at (input self.now))) }
    {
        self.is_one_of(at, word_level_marks(level))
    }

    /// Takes an operator of the level.
    fn word_operator(
        &self,
        at: &mut usize,
        depth: u32,
        level: WordLevel,
    ) -> Result<(WordOp, Place), Fault>
        requires { at.old ≤ length (input self.now) }
        ensures { MatchResult result
            (λ r. TakesWordBinary level depth (input self.now) at.old at.new r.0 r.1)
            (Fails (word_operator level) depth (input self.now) at.old) }
    {
        let (mark, place) = self.one_of(at, depth, word_level_marks(level))?;
        match word_binary(mark) {
            Some(op) => Ok((op, place)),
            None => unreachable!(),
        }
    }

    /// Takes the mark of a shift, and answers whether it shifts to the left.
    fn shift_mark(&self, at: &mut usize, depth: u32) -> Result<bool, Fault>
        requires { at.old ≤ length (input self.now) }
        ensures { MatchResult result
            (TakesShift depth (input self.now) at.old at.new)
            (Fails (choice shift_marks) depth (input self.now) at.old) }
    {
        let (mark, _) = self.one_of(at, depth, SHIFTS)?;
        match shift(mark) {
            Some(left) => Ok(left),
            None => unreachable!(),
        }
    }

    /// Takes `ext` or `low`.
    fn resize(&self, at: &mut usize, depth: u32) -> Result<Token, Fault>
        requires { at.old ≤ length (input self.now) }
        ensures { MatchResult result
            (λ t. Takes (one Ext ∣ one Low) depth (input self.now) at.old at.new (token_part (piece self.now.source.now t) ∷ []) × IsInside self.now.source.now t)
            (Fails (one Ext ∣ one Low) depth (input self.now) at.old) }
    {
        if self.is_at(*at, Terminal::Ext) {
            let token = self.take(at, depth, Terminal::Ext)?;
            return Ok(token);
        }
        let token = self.take(at, depth, Terminal::Low)?;
        Ok(token)
    }

    /// `test ? yes : no`, or what stands before the `?`.
    #[cycle(word)]
    pub fn word_expr(&self, at: &mut usize, depth: u32) -> Result<WordExpr, Fault>
        requires within { at.old ≤ length (input self.now) }
        requires shallow { depth ≤ 128 }
        ensures { MatchResult result
            (λ e. Reads (sub symbol.WExpr) depth (input self.now) at.old at.new (tree e ∷ []))
            (Fails (sub symbol.WExpr) depth (input self.now) at.old) }
    {
        let test = self.word_chain(at, depth + 1, WordLevel::Or)?;
        if !self.is_mark(*at, Mark::Question) {
            return Ok(test);
        }
        let made = self.word_picked(at, depth + 1, test)?;
        Ok(made)
    }

    /// `? yes : no` behind a test. It stands apart, so that its room is not taken where parentheses nest.
    #[cycle(word)]
    #[inline(never)]
    fn word_picked(&self, at: &mut usize, depth: u32, test: WordExpr) -> Result<WordExpr, Fault>
        requires within { at.old ≤ length (input self.now) }
        requires shallow { depth ≤ 129 }
        ensures { MatchResult result
            (λ e. MakesAfter picked symbol.WExpr depth (input self.now) at.old at.new (tree test) (tree e))
            (Fails picked depth (input self.now) at.old) }
    {
        self.mark(at, depth, Mark::Question)?;
        let yes = self.word_expr(at, depth)?;
        self.mark(at, depth, Mark::Colon)?;
        let no = self.word_expr(at, depth)?;
        let made = make_words::pick(self.alloc, test, yes, no)?;
        Ok(made)
    }

    /// The level of the operator that is the next token, if it is on the same side of the shifts as `limit` and binds
    /// no looser.
    fn word_level_at(&self, at: usize, limit: WordLevel) -> Option<WordLevel>
        ensures { MatchOption result
            ((l : Level) → word_level_ahead (next (drop at (input self.now))) ≡ Some l → tightest limit ≤ word_looseness l → word_looseness limit < word_looseness l)
            (λ l. (word_level_ahead (next (drop at (input self.now))) ≡ Some l) × (tightest limit ≤ word_looseness l) × (word_looseness l ≤ word_looseness limit)) }
    {
        match self.kind_at(at) {
            Some(kind) => operators::word_within(operators::word_level(kind), limit),
            None => None,
        }
    }

    /// What the tightest operators on the level's side of the shifts stand between.
    #[cycle(word)]
    fn word_base(&self, at: &mut usize, depth: u32, level: WordLevel) -> Result<WordExpr, Fault>
        requires within { at.old ≤ length (input self.now) }
        requires shallow { depth ≤ 129 }
        ensures { MatchResult result
            (λ e. Reads (base level) depth (input self.now) at.old at.new (tree e ∷ []))
            (Fails (base level) depth (input self.now) at.old) }
    {
        if operators::is_tight(level) {
            let made = self.word_unary(at, depth)?;
            return Ok(made);
        }
        let made = self.word_shift(at, depth)?;
        Ok(made)
    }

    /// What stands between the operators of the level.
    #[cycle(word)]
    fn word_operand(&self, at: &mut usize, depth: u32, level: WordLevel) -> Result<WordExpr, Fault>
        requires within { at.old ≤ length (input self.now) }
        requires shallow { depth ≤ 129 }
        ensures { MatchResult result
            (λ e. ReadsWordOperand level depth (input self.now) at.old at.new (tree e))
            (Fails (word_operand level) depth (input self.now) at.old) }
    {
        match operators::word_tighter(level) {
            Some(tighter) => {
                let made = self.word_chain(at, depth, tighter)?;
                Ok(made)
            }
            None => {
                let made = self.word_base(at, depth, level)?;
                Ok(made)
            }
        }
    }

    /// Operators of the level, at least one, each with the operand behind it.
    #[cycle(word)]
    fn word_links(
        &self,
        at: &mut usize,
        depth: u32,
        level: WordLevel,
    ) -> Result<Vec<WordLink>, Fault>
        requires within { at.old ≤ length (input self.now) }
        requires shallow { depth ≤ 129 }
        requires there { begins (word_operator level) (next (drop at.old (input self.now))) ≡ true }
        requires quiet { IsWordQuiet (tightest level) (word_looseness level) (drop at.old (input self.now)) }
        ensures { MatchResult result
            (λ ls. ReadsWordLinks level depth (input self.now) at.old at.new ls.items)
            (Fails (many (word_operator level ⨾ word_operand level)) depth (input self.now) at.old) }
    {
        let mut links = make::room_for_one(self.alloc)?;
        'links: while self.is_word_operator(*at, level) {
            let (op, place) = self.word_operator(at, depth, level)?;
            let right = self.word_operand(at, depth, level)?;
            make::push_vec(&mut links, WordLink { op, place, right })?;
        }
        Ok(links)
    }

    /// Operands with the operators of the level, and of those on its side of the shifts that bind tighter, between them.
    #[cycle(word)]
    fn word_chain(&self, at: &mut usize, depth: u32, level: WordLevel) -> Result<WordExpr, Fault>
        requires within { at.old ≤ length (input self.now) }
        requires shallow { depth ≤ 129 }
        ensures { MatchResult result
            (λ e. ReadsWordChain level depth (input self.now) at.old at.new (tree e))
            (Fails (sub (word_chain_of level)) depth (input self.now) at.old) }
    {
        let mut made = self.word_base(at, depth, level)?;
        'climb: while let Some(next) = self.word_level_at(*at, level) {
            let links = self.word_links(at, depth, next)?;
            made = make_words::links(self.alloc, next, made, links)?;
        }
        Ok(made)
    }

    /// A sum and the shifts behind it.
    #[cycle(word)]
    fn word_shift(&self, at: &mut usize, depth: u32) -> Result<WordExpr, Fault>
        requires within { at.old ≤ length (input self.now) }
        requires shallow { depth ≤ 129 }
        ensures { MatchResult result
            (λ e. Reads (sub symbol.WShift) depth (input self.now) at.old at.new (tree e ∷ []))
            (Fails (sub symbol.WShift) depth (input self.now) at.old) }
    {
        let first = self.word_chain(at, depth, WordLevel::Sum)?;
        let mut links = List::new(self.alloc);
        'shifts: while self.is_one_of(*at, SHIFTS) {
            let left = self.shift_mark(at, depth)?;
            let by = self.width(at, depth)?;
            make_words::push_shift(&mut links, left, by)?;
        }
        if links.as_slice().is_empty() {
            return Ok(first);
        }
        let made = make_words::shifts(self.alloc, first, links)?;
        Ok(made)
    }

    /// `~` before an operand.
    #[cycle(word)]
    fn word_unary(&self, at: &mut usize, depth: u32) -> Result<WordExpr, Fault>
        requires within { at.old ≤ length (input self.now) }
        requires shallow { depth ≤ 129 }
        ensures { MatchResult result
            (λ e. Reads (sub symbol.WUnary) depth (input self.now) at.old at.new (tree e ∷ []))
            (Fails (sub symbol.WUnary) depth (input self.now) at.old) }
    {
        if !self.is_mark(*at, Mark::Tilde) {
            let made = self.word_prim(at, depth)?;
            return Ok(made);
        }
        let place = self.mark(at, depth + 1, Mark::Tilde)?;
        let operand = self.word_unary(at, depth + 1)?;
        let made = make_words::not(self.alloc, place, operand)?;
        Ok(made)
    }

    /// A number, a name, an expression in parentheses, or one that is brought to another width.
    #[cycle(word)]
    fn word_prim(&self, at: &mut usize, depth: u32) -> Result<WordExpr, Fault>
        requires within { at.old ≤ length (input self.now) }
        requires shallow { depth ≤ 129 }
        ensures { MatchResult result
            (λ e. Reads (sub symbol.WPrim) depth (input self.now) at.old at.new (tree e ∷ []))
            (Fails (sub symbol.WPrim) depth (input self.now) at.old) }
    {
        if self.is_at(*at, Terminal::Int) {
            let token = self.take(at, depth, Terminal::Int)?;
            let made = make_words::int(token);
            return Ok(made);
        }
        if self.is_at(*at, Terminal::Plain) {
            let token = self.take(at, depth, Terminal::Plain)?;
            let text = self.text(token)?;
            return Ok(WordExpr {
                place: token.place,
                node: WordNode::Name(text),
            });
        }
        if self.is_mark(*at, Mark::OpenParen) {
            let place = self.mark(at, depth, Mark::OpenParen)?;
            let inner = self.word_expr(at, depth)?;
            self.mark(at, depth, Mark::CloseParen)?;
            let made = make_words::paren(self.alloc, place, inner)?;
            return Ok(made);
        }
        let made = self.word_sized(at, depth)?;
        Ok(made)
    }

    /// A word that is brought to another width, or a name that is `ext` or `low`. It stands apart, so that its room is
    /// not taken where parentheses nest.
    #[cycle(word)]
    #[inline(never)]
    fn word_sized(&self, at: &mut usize, depth: u32) -> Result<WordExpr, Fault>
        requires within { at.old ≤ length (input self.now) }
        requires shallow { depth ≤ 129 }
        ensures { MatchResult result
            (λ e. Makes sized symbol.WPrim depth (input self.now) at.old at.new (tree e))
            (Fails sized depth (input self.now) at.old) }
    {
        let token = self.resize(at, depth)?;
        let text = self.text(token)?;
        if !self.is_mark(*at, Mark::OpenParen) {
            return Ok(WordExpr {
                place: token.place,
                node: WordNode::Name(text),
            });
        }
        self.mark(at, depth, Mark::OpenParen)?;
        let inner = self.word_expr(at, depth)?;
        self.mark(at, depth, Mark::Comma)?;
        let width = self.width(at, depth)?;
        self.mark(at, depth, Mark::CloseParen)?;
        let made = make_words::resized(self.alloc, token.place, text, inner, width)?;
        Ok(made)
    }
}
