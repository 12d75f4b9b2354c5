//! Expressions.
ghost use Rattle.std.specs.Prelude.{◌≡◌, ◌≤◌, ◌<◌, [], ◌∷◌, drop, length, true, Some, MatchOption, MatchResult};

use crate::make;
use crate::operators::{self, UNARY, binary, level_marks};
use crate::reader::{Fault, Reader};
use crate::terminal::Terminal;
use sc_base::Place;
use sc_syntax::{BinOp, Expr, Link, Mark};

/// The levels of operators, from the loosest.
#[derive(Clone, Copy, Debug)]
pub enum Level {
    Or,
    And,
    Equal,
    Order,
    Shift,
    Sum,
    Product,
}

impl Reader<'_> {
    ghost use Rattle.sc_parse.specs.declared.expr.Level.{Level};
    ghost use Rattle.sc_parse.specs.Form as symbol;
    ghost use Rattle.sc_parse.specs.Form.{many, sub, ◌⨾◌};
    ghost use Rattle.sc_parse.specs.Input.{input};
    ghost use Rattle.sc_parse.specs.Levels.{IsQuiet, ReadsChain, ReadsLinks, ReadsOperand, level_ahead, looseness};
    ghost use Rattle.sc_parse.specs.Pieces.{next};
    ghost use Rattle.sc_parse.specs.Reads.{Fails, Keeps, Reads, TakesBinary};
    ghost use Rattle.sc_parse.specs.Rules.{chain_of, index as index_form, operand, operator};
    ghost use Rattle.sc_parse.specs.Runs.{begins};
    ghost use Rattle.sc_parse.specs.Trees.{expr as tree, if_there};

    /// Whether an operator of the level is the next token.
    fn is_operator(&self, at: usize, level: Level) -> bool
        ensures { result ≡ begins (operator level) (next (drop at (input self.now))) }
    {
        self.is_one_of(at, level_marks(level))
    }

    /// Takes an operator of the level.
    fn operator(&self, at: &mut usize, depth: u32, level: Level) -> Result<(BinOp, Place), Fault>
        requires { at.old ≤ length (input self.now) }
        ensures { MatchResult result
            (λ r. TakesBinary level depth (input self.now) at.old at.new r.0 r.1)
            (Fails (operator level) depth (input self.now) at.old) }
    {
        let (mark, place) = self.one_of(at, depth, level_marks(level))?;
        match binary(mark) {
            Some(op) => Ok((op, place)),
            None => unreachable!(),
        }
    }

    /// `test ? yes : no`, or what stands before the `?`.
    #[cycle(expr)]
    pub fn expr(&self, at: &mut usize, depth: u32) -> Result<Expr, Fault>
        requires within { at.old ≤ length (input self.now) }
        requires shallow { depth ≤ 128 }
        ensures { MatchResult result
            (λ e. Reads (sub symbol.Expr) depth (input self.now) at.old at.new (tree e ∷ []))
            (Fails (sub symbol.Expr) depth (input self.now) at.old) }
    {
        let test = self.chain(at, depth + 1, Level::Or)?;
        if !self.is_mark(*at, Mark::Question) {
            return Ok(test);
        }
        self.mark(at, depth + 1, Mark::Question)?;
        let yes = self.expr(at, depth + 1)?;
        self.mark(at, depth + 1, Mark::Colon)?;
        let no = self.expr(at, depth + 1)?;
        let made = make::pick(self.alloc, test, yes, no)?;
        Ok(made)
    }

    /// The level of the operator that is the next token, if it binds no looser than those of `limit`.
    fn level_at(&self, at: usize, limit: Level) -> Option<Level>
        ensures { MatchOption result
            ((l : Level) → level_ahead (next (drop at (input self.now))) ≡ Some l → looseness limit < looseness l)
            (λ l. (level_ahead (next (drop at (input self.now))) ≡ Some l) × (looseness l ≤ looseness limit)) }
    {
        match self.kind_at(at) {
            Some(kind) => operators::within(operators::level(kind), limit),
            None => None,
        }
    }

    /// What stands between the operators of the level.
    #[cycle(expr)]
    fn operand(&self, at: &mut usize, depth: u32, level: Level) -> Result<Expr, Fault>
        requires within { at.old ≤ length (input self.now) }
        requires shallow { depth ≤ 129 }
        ensures { MatchResult result
            (λ e. ReadsOperand level depth (input self.now) at.old at.new (tree e))
            (Fails (operand level) depth (input self.now) at.old) }
    {
        match operators::tighter(level) {
            Some(tighter) => {
                let made = self.chain(at, depth, tighter)?;
                Ok(made)
            }
            None => {
                let made = self.unary(at, depth)?;
                Ok(made)
            }
        }
    }

    /// Operators of the level, at least one, each with the operand behind it.
    #[cycle(expr)]
    fn links(&self, at: &mut usize, depth: u32, level: Level) -> Result<Vec<Link>, Fault>
        requires within { at.old ≤ length (input self.now) }
        requires shallow { depth ≤ 129 }
        requires there { begins (operator level) (next (drop at.old (input self.now))) ≡ true }
        requires quiet { IsQuiet (looseness level) (drop at.old (input self.now)) }
        ensures { MatchResult result
            (λ ls. ReadsLinks level depth (input self.now) at.old at.new ls.items)
            (Fails (many (operator level ⨾ operand level)) depth (input self.now) at.old) }
    {
        let mut links = make::room_for_one(self.alloc)?;
        'links: while self.is_operator(*at, level) {
            let (op, place) = self.operator(at, depth, level)?;
            let right = self.operand(at, depth, level)?;
            make::push_vec(&mut links, Link { op, place, right })?;
        }
        Ok(links)
    }

    /// Operands with the operators of the level, and of those that bind tighter, between them.
    #[cycle(expr)]
    fn chain(&self, at: &mut usize, depth: u32, level: Level) -> Result<Expr, Fault>
        requires within { at.old ≤ length (input self.now) }
        requires shallow { depth ≤ 129 }
        ensures { MatchResult result
            (λ e. ReadsChain level depth (input self.now) at.old at.new (tree e))
            (Fails (sub (chain_of level)) depth (input self.now) at.old) }
    {
        let mut made = self.unary(at, depth)?;
        'climb: while let Some(next) = self.level_at(*at, level) {
            let links = self.links(at, depth, next)?;
            made = make::links(self.alloc, next, made, links)?;
        }
        Ok(made)
    }

    /// Marks before an operand.
    #[cycle(expr)]
    fn unary(&self, at: &mut usize, depth: u32) -> Result<Expr, Fault>
        requires within { at.old ≤ length (input self.now) }
        requires shallow { depth ≤ 129 }
        ensures { MatchResult result
            (λ e. Reads (sub symbol.Unary) depth (input self.now) at.old at.new (tree e ∷ []))
            (Fails (sub symbol.Unary) depth (input self.now) at.old) }
    {
        if !self.is_one_of(*at, UNARY) {
            let made = self.prim(at, depth)?;
            return Ok(made);
        }
        let (mark, place) = self.one_of(at, depth + 1, UNARY)?;
        let operand = self.unary(at, depth + 1)?;
        let made = make::sign(self.alloc, place, mark, operand)?;
        Ok(made)
    }

    /// A number, a name, an item of an array, or an expression in parentheses.
    #[cycle(expr)]
    fn prim(&self, at: &mut usize, depth: u32) -> Result<Expr, Fault>
        requires within { at.old ≤ length (input self.now) }
        requires shallow { depth ≤ 129 }
        ensures { MatchResult result
            (λ e. Reads (sub symbol.Prim) depth (input self.now) at.old at.new (tree e ∷ []))
            (Fails (sub symbol.Prim) depth (input self.now) at.old) }
    {
        if self.is_at(*at, Terminal::Int) {
            let token = self.take(at, depth, Terminal::Int)?;
            let made = make::int(token);
            return Ok(made);
        }
        if self.is_at(*at, Terminal::Decimal) {
            let token = self.take(at, depth, Terminal::Decimal)?;
            let made = make::decimal(token);
            return Ok(made);
        }
        if self.is_at(*at, Terminal::Name) {
            let name = self.name(at, depth)?;
            let index = self.index(at, depth)?;
            let made = make::named(self.alloc, name, index)?;
            return Ok(made);
        }
        let place = self.mark(at, depth, Mark::OpenParen)?;
        let inner = self.expr(at, depth)?;
        self.mark(at, depth, Mark::CloseParen)?;
        let made = make::paren(self.alloc, place, inner)?;
        Ok(made)
    }

    /// An expression in brackets, if there is one.
    #[cycle(expr)]
    pub fn index(&self, at: &mut usize, depth: u32) -> Result<Option<Expr>, Fault>
        requires within { at.old ≤ length (input self.now) }
        requires shallow { depth ≤ 129 }
        ensures { MatchResult result
            (λ o. Keeps index_form depth (input self.now) at.old at.new (if_there tree o))
            (Fails index_form depth (input self.now) at.old) }
    {
        if !self.is_mark(*at, Mark::OpenBracket) {
            return Ok(None);
        }
        self.mark(at, depth, Mark::OpenBracket)?;
        let index = self.expr(at, depth)?;
        self.mark(at, depth, Mark::CloseBracket)?;
        Ok(Some(index))
    }
}
