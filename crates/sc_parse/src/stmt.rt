//! Statements.
ghost use Rattle.std.specs.Prelude.{◌≡◌, ◌≤◌, ◌<◌, [], ◌∷◌, length, drop, MatchResult, OnOk};

use crate::make::{self, boxed};
use crate::make_stmts;
use crate::operators::{COMPOUNDS, STEPS};
use crate::reader::{Fault, Reader};
use crate::starts::{EXPR, MEASURE, NAME, NUMBER, SET, START, STMT, WIRE};
use crate::terminal::Terminal;
use sc_base::{Class, GateName, List, Place};
use sc_syntax::{Act, Decl, Expr, Init, Mark, Name, NumSort, Operand, Stmt, TokenSort, Word};

impl Reader<'_> {
    ghost use Rattle.sc_parse.specs.Form as symbol;
    ghost use Rattle.sc_parse.specs.Form.{many, mark as mark_form, optional, sub, ◌⨾◌, ◌∣◌};
    ghost use Rattle.sc_parse.specs.Input.{input};
    ghost use Rattle.sc_parse.specs.Reads.{Fails, Keeps, KeepsAfter, Makes, MakesAfter, Reads, Takes};
    ghost use Rattle.sc_parse.specs.Rules.{block as block_form, call_rest as call_form, for_loop as for_form, if_else as if_form, list, numbers as numbers_form, set_rest as set_form, step_up as step_form, while_loop as while_form, wires as wires_form};
    ghost use Rattle.sc_parse.specs.Trees.{decl as decl_part, each, expr as expr_part, if_there, init as init_part, meas as meas_part, name as name_part, num as num_part, stmt as tree, wire as wire_part};
    ghost use Rattle.sc_syntax.specs.declared.Mark.TheVariants as m;
    ghost use Rattle.sc_syntax.specs.declared.TokenSort.TheVariants as sort;

    /// Takes the word that declares wires.
    pub fn wire(&self, at: &mut usize, depth: u32) -> Result<(Class, Place), Fault>
        requires { at.old ≤ length (input self.now) }
        ensures { MatchResult result
            (λ r. Takes (sub symbol.Wire) depth (input self.now) at.old at.new (wire_part r.0 r.1 ∷ []))
            (Fails (sub symbol.Wire) depth (input self.now) at.old) }
    {
        if self.is_word(*at, Word::Qbit) {
            let place = self.word(at, depth, Word::Qbit)?;
            return Ok((Class::Q, place));
        }
        let place = self.word(at, depth, Word::Cbit)?;
        Ok((Class::C, place))
    }

    /// Takes the word that declares numbers.
    pub fn number(&self, at: &mut usize, depth: u32) -> Result<(NumSort, Place), Fault>
        requires { at.old ≤ length (input self.now) }
        ensures { MatchResult result
            (λ r. Takes (sub symbol.Num) depth (input self.now) at.old at.new (num_part r.0 r.1 ∷ []))
            (Fails (sub symbol.Num) depth (input self.now) at.old) }
    {
        if self.is_word(*at, Word::Int) {
            let place = self.word(at, depth, Word::Int)?;
            return Ok((NumSort::Int, place));
        }
        if self.is_word(*at, Word::Double) {
            let place = self.word(at, depth, Word::Double)?;
            return Ok((NumSort::Double, place));
        }
        let place = self.word(at, depth, Word::Float)?;
        Ok((NumSort::Double, place))
    }

    /// A declared name, with the size of its array.
    fn decl(&self, at: &mut usize, depth: u32) -> Result<Decl, Fault>
        requires within { at.old ≤ length (input self.now) }
        requires shallow { depth ≤ 129 }
        ensures { MatchResult result
            (λ d. Reads (sub symbol.Decl) depth (input self.now) at.old at.new (decl_part d ∷ []))
            (Fails (sub symbol.Decl) depth (input self.now) at.old) }
    {
        let name = self.name(at, depth)?;
        let size = self.index(at, depth)?;
        Ok(Decl { name, size })
    }

    /// Declared wires, with commas between them.
    fn decls(&self, at: &mut usize, depth: u32) -> Result<List<Decl>, Fault>
        requires within { at.old ≤ length (input self.now) }
        requires shallow { depth ≤ 129 }
        ensures { MatchResult result
            (λ ds. Keeps (list (sub symbol.Decl)) depth (input self.now) at.old at.new (each decl_part ds))
            (Fails (list (sub symbol.Decl)) depth (input self.now) at.old) }
    {
        let first = self.decl(at, depth)?;
        let mut items = make::one(self.alloc, first)?;
        'items: while self.is_mark(*at, Mark::Comma) {
            self.mark(at, depth, Mark::Comma)?;
            let next = self.decl(at, depth)?;
            make::push(&mut items, next)?;
        }
        Ok(items)
    }

    /// The value that a number starts with, if there is one.
    fn start_value(&self, at: &mut usize, depth: u32) -> Result<Option<Expr>, Fault>
        requires within { at.old ≤ length (input self.now) }
        requires shallow { depth ≤ 129 }
        ensures { MatchResult result
            (λ o. Keeps (optional (mark_form m.Eq ⨾ sub symbol.Expr)) depth (input self.now) at.old at.new (if_there expr_part o))
            (Fails (optional (mark_form m.Eq ⨾ sub symbol.Expr)) depth (input self.now) at.old) }
    {
        if !self.is_mark(*at, Mark::Eq) {
            return Ok(None);
        }
        self.mark(at, depth, Mark::Eq)?;
        let value = self.expr(at, depth)?;
        Ok(Some(value))
    }

    /// A declared number, with the value that it starts with.
    fn init(&self, at: &mut usize, depth: u32) -> Result<Init, Fault>
        requires within { at.old ≤ length (input self.now) }
        requires shallow { depth ≤ 129 }
        ensures { MatchResult result
            (λ i. Reads (sub symbol.Init) depth (input self.now) at.old at.new (init_part i ∷ []))
            (Fails (sub symbol.Init) depth (input self.now) at.old) }
    {
        let name = self.name(at, depth)?;
        let start = self.start_value(at, depth)?;
        Ok(Init { name, start })
    }

    /// Declared numbers, with commas between them.
    fn inits(&self, at: &mut usize, depth: u32) -> Result<List<Init>, Fault>
        requires within { at.old ≤ length (input self.now) }
        requires shallow { depth ≤ 129 }
        ensures { MatchResult result
            (λ is. Keeps (list (sub symbol.Init)) depth (input self.now) at.old at.new (each init_part is))
            (Fails (list (sub symbol.Init)) depth (input self.now) at.old) }
    {
        let first = self.init(at, depth)?;
        let mut items = make::one(self.alloc, first)?;
        'items: while self.is_mark(*at, Mark::Comma) {
            self.mark(at, depth, Mark::Comma)?;
            let next = self.init(at, depth)?;
            make::push(&mut items, next)?;
        }
        Ok(items)
    }

    /// A declaration of wires.
    fn wires(&self, at: &mut usize, depth: u32) -> Result<Stmt, Fault>
        requires within { at.old ≤ length (input self.now) }
        requires shallow { depth ≤ 129 }
        ensures cases { MatchResult result
            (λ s. Makes (wires_form ⨾ mark_form m.Semicolon) symbol.Stmt depth (input self.now) at.old at.new (tree s))
            (Fails (wires_form ⨾ mark_form m.Semicolon) depth (input self.now) at.old) }
        ensures moves { OnOk result (at.old < at.new) }
    {
        let (class, place) = self.wire(at, depth)?;
        let decls = self.decls(at, depth)?;
        self.mark(at, depth, Mark::Semicolon)?;
        Ok(Stmt {
            place,
            act: Act::Wires(class, decls),
        })
    }

    /// Declared numbers, with the word that declares them.
    fn numbers(&self, at: &mut usize, depth: u32) -> Result<(NumSort, Place, List<Init>), Fault>
        requires within { at.old ≤ length (input self.now) }
        requires shallow { depth ≤ 129 }
        ensures cases { MatchResult result
            (λ r. Keeps numbers_form depth (input self.now) at.old at.new (num_part r.0 r.1 ∷ each init_part r.2))
            (Fails numbers_form depth (input self.now) at.old) }
        ensures moves { OnOk result (at.old < at.new) }
    {
        let (sort, place) = self.number(at, depth)?;
        let inits = self.inits(at, depth)?;
        Ok((sort, place, inits))
    }

    /// A declaration of numbers.
    fn declared_numbers(&self, at: &mut usize, depth: u32) -> Result<Stmt, Fault>
        requires within { at.old ≤ length (input self.now) }
        requires shallow { depth ≤ 129 }
        ensures cases { MatchResult result
            (λ s. Makes (numbers_form ⨾ mark_form m.Semicolon) symbol.Stmt depth (input self.now) at.old at.new (tree s))
            (Fails (numbers_form ⨾ mark_form m.Semicolon) depth (input self.now) at.old) }
        ensures moves { OnOk result (at.old < at.new) }
    {
        let (sort, place, inits) = self.numbers(at, depth)?;
        self.mark(at, depth, Mark::Semicolon)?;
        Ok(Stmt {
            place,
            act: Act::Numbers(sort, inits),
        })
    }

    /// Arguments, with commas between them.
    fn exprs(&self, at: &mut usize, depth: u32) -> Result<List<Expr>, Fault>
        requires within { at.old ≤ length (input self.now) }
        requires shallow { depth ≤ 128 }
        ensures { MatchResult result
            (λ es. Keeps (list (sub symbol.Expr)) depth (input self.now) at.old at.new (each expr_part es))
            (Fails (list (sub symbol.Expr)) depth (input self.now) at.old) }
    {
        let first = self.expr(at, depth)?;
        let mut items = make::one(self.alloc, first)?;
        'items: while self.is_mark(*at, Mark::Comma) {
            self.mark(at, depth, Mark::Comma)?;
            let next = self.expr(at, depth)?;
            make::push(&mut items, next)?;
        }
        let whole = make::fitted(items.into_vec());
        Ok(List::from_vec(whole))
    }

    /// Arguments, if there are any.
    fn args(&self, at: &mut usize, depth: u32) -> Result<List<Expr>, Fault>
        requires within { at.old ≤ length (input self.now) }
        requires shallow { depth ≤ 128 }
        ensures { MatchResult result
            (λ es. Keeps (optional (list (sub symbol.Expr))) depth (input self.now) at.old at.new (each expr_part es))
            (Fails (optional (list (sub symbol.Expr))) depth (input self.now) at.old) }
    {
        if !self.begins(*at, EXPR) {
            return Ok(List::new(self.alloc));
        }
        let items = self.exprs(at, depth)?;
        Ok(items)
    }

    /// What follows the name of what is called.
    fn call_rest(&self, at: &mut usize, depth: u32) -> Result<List<Expr>, Fault>
        requires within { at.old ≤ length (input self.now) }
        requires shallow { depth ≤ 129 }
        ensures cases { MatchResult result
            (λ es. KeepsAfter call_form (sort.Mark m.OpenParen) depth (input self.now) at.old at.new (each expr_part es))
            (Fails call_form depth (input self.now) at.old) }
        ensures moves { OnOk result (at.old < at.new) }
    {
        self.mark(at, depth, Mark::OpenParen)?;
        let args = self.args(at, depth)?;
        self.mark(at, depth, Mark::CloseParen)?;
        Ok(args)
    }

    /// A measurement, as it stands behind a `=`.
    fn measure(&self, at: &mut usize, depth: u32) -> Result<(GateName, Operand), Fault>
        requires within { at.old ≤ length (input self.now) }
        requires shallow { depth ≤ 129 }
        ensures { MatchResult result
            (λ r. Reads (sub symbol.Meas) depth (input self.now) at.old at.new (meas_part r.0 r.1 ∷ []))
            (Fails (sub symbol.Meas) depth (input self.now) at.old) }
    {
        let token = self.take(at, depth, Terminal::Measuring)?;
        self.mark(at, depth, Mark::OpenParen)?;
        let name = self.name(at, depth)?;
        let index = self.index(at, depth)?;
        self.mark(at, depth, Mark::CloseParen)?;
        match token.sort {
            TokenSort::Gate(gate) => Ok((gate, Operand { name, index })),
            _ => unreachable!(),
        }
    }

    /// What follows a name that is set, or that a measurement goes into.
    fn set_rest(&self, at: &mut usize, depth: u32, name: Name) -> Result<Stmt, Fault>
        requires within { at.old ≤ length (input self.now) }
        requires shallow { depth ≤ 129 }
        ensures cases { MatchResult result
            (λ s. MakesAfter set_form symbol.Set depth (input self.now) at.old at.new (name_part name) (tree s))
            (Fails set_form depth (input self.now) at.old) }
        ensures moves { OnOk result (at.old < at.new) }
    {
        if self.is_mark(*at, Mark::Eq) {
            let made = self.put(at, depth, name)?;
            return Ok(made);
        }
        if self.is_mark(*at, Mark::OpenBracket) {
            let made = self.put_item(at, depth, name)?;
            return Ok(made);
        }
        if self.is_one_of(*at, COMPOUNDS) {
            let (mark, place) = self.one_of(at, depth, COMPOUNDS)?;
            let value = self.expr(at, depth)?;
            let made = make_stmts::set(name, mark, place, value);
            return Ok(made);
        }
        let (mark, place) = self.one_of(at, depth, STEPS)?;
        let made = make_stmts::stepped(name, mark, place);
        Ok(made)
    }

    /// What follows a name that is put to a value, or that a measurement goes into.
    fn put(&self, at: &mut usize, depth: u32, name: Name) -> Result<Stmt, Fault>
        requires within { at.old ≤ length (input self.now) }
        requires shallow { depth ≤ 129 }
        ensures cases { MatchResult result
            (λ s. MakesAfter (mark_form m.Eq ⨾ (sub symbol.Meas ∣ sub symbol.Expr)) symbol.Set depth (input self.now) at.old at.new (name_part name) (tree s))
            (Fails (mark_form m.Eq ⨾ (sub symbol.Meas ∣ sub symbol.Expr)) depth (input self.now) at.old) }
        ensures moves { OnOk result (at.old < at.new) }
    {
        let place = self.mark(at, depth, Mark::Eq)?;
        if self.begins(*at, MEASURE) {
            let (gate, from) = self.measure(at, depth)?;
            let made = make_stmts::measured(name, None, gate, from);
            return Ok(made);
        }
        let value = self.expr(at, depth)?;
        let made = make_stmts::set(name, Mark::Eq, place, value);
        Ok(made)
    }

    /// What follows the name of an array, an item of which a measurement goes into.
    fn put_item(&self, at: &mut usize, depth: u32, name: Name) -> Result<Stmt, Fault>
        requires within { at.old ≤ length (input self.now) }
        requires shallow { depth ≤ 129 }
        ensures cases { MatchResult result
            (λ s. MakesAfter (mark_form m.OpenBracket ⨾ sub symbol.Expr ⨾ mark_form m.CloseBracket ⨾ mark_form m.Eq ⨾ sub symbol.Meas) symbol.Set depth (input self.now) at.old at.new (name_part name) (tree s))
            (Fails (mark_form m.OpenBracket ⨾ sub symbol.Expr ⨾ mark_form m.CloseBracket ⨾ mark_form m.Eq ⨾ sub symbol.Meas) depth (input self.now) at.old) }
        ensures moves { OnOk result (at.old < at.new) }
    {
        self.mark(at, depth, Mark::OpenBracket)?;
        let index = self.expr(at, depth)?;
        self.mark(at, depth, Mark::CloseBracket)?;
        self.mark(at, depth, Mark::Eq)?;
        let (gate, from) = self.measure(at, depth)?;
        let made = make_stmts::measured(name, Some(index), gate, from);
        Ok(made)
    }

    /// `++` or `--` before a name.
    fn step_up(&self, at: &mut usize, depth: u32) -> Result<Stmt, Fault>
        requires within { at.old ≤ length (input self.now) }
        requires shallow { depth ≤ 129 }
        ensures cases { MatchResult result
            (λ s. Makes step_form symbol.Set depth (input self.now) at.old at.new (tree s))
            (Fails step_form depth (input self.now) at.old) }
        ensures moves { OnOk result (at.old < at.new) }
    {
        let (mark, place) = self.one_of(at, depth, STEPS)?;
        let name = self.name(at, depth)?;
        let made = make_stmts::step(place, mark, name);
        Ok(made)
    }

    /// What sets a number, or measures into a cbit.
    fn set(&self, at: &mut usize, depth: u32) -> Result<Stmt, Fault>
        requires within { at.old ≤ length (input self.now) }
        requires shallow { depth ≤ 129 }
        ensures { MatchResult result
            (λ s. Reads (sub symbol.Set) depth (input self.now) at.old at.new (tree s ∷ []))
            (Fails (sub symbol.Set) depth (input self.now) at.old) }
    {
        if self.begins(*at, NAME) {
            let name = self.name(at, depth)?;
            let made = self.set_rest(at, depth, name)?;
            return Ok(made);
        }
        let made = self.step_up(at, depth)?;
        Ok(made)
    }

    /// A statement that sets, measures or calls.
    fn step(&self, at: &mut usize, depth: u32) -> Result<Stmt, Fault>
        requires within { at.old ≤ length (input self.now) }
        requires shallow { depth ≤ 129 }
        ensures cases { MatchResult result
            (λ s. Reads (sub symbol.Step) depth (input self.now) at.old at.new (tree s ∷ []))
            (Fails (sub symbol.Step) depth (input self.now) at.old) }
        ensures moves { OnOk result (at.old < at.new) }
    {
        if self.begins(*at, NAME) {
            let name = self.name(at, depth)?;
            if self.is_mark(*at, Mark::OpenParen) {
                let args = self.call_rest(at, depth)?;
                let made = make_stmts::call(name, args);
                return Ok(made);
            }
            let made = self.set_rest(at, depth, name)?;
            return Ok(made);
        }
        if self.is_one_of(*at, STEPS) {
            let made = self.step_up(at, depth)?;
            return Ok(made);
        }
        let token = self.take(at, depth, Terminal::Gate)?;
        let args = self.call_rest(at, depth)?;
        let made = make_stmts::gate(token, args);
        Ok(made)
    }

    /// The start of a `for`, if there is one.
    fn start(&self, at: &mut usize, depth: u32) -> Result<Option<Box<Stmt>>, Fault>
        requires within { at.old ≤ length (input self.now) }
        requires shallow { depth ≤ 129 }
        ensures { MatchResult result
            (λ o. Reads (optional (sub symbol.Start)) depth (input self.now) at.old at.new (if_there (λ b. tree b.value) o))
            (Fails (optional (sub symbol.Start)) depth (input self.now) at.old) }
    {
        if !self.begins(*at, START) {
            return Ok(None);
        }
        let start = self.some_start(at, depth)?;
        let boxed = boxed(self.alloc, start)?;
        Ok(Some(boxed))
    }

    /// Declared numbers, or what sets a number.
    fn some_start(&self, at: &mut usize, depth: u32) -> Result<Stmt, Fault>
        requires within { at.old ≤ length (input self.now) }
        requires shallow { depth ≤ 129 }
        ensures { MatchResult result
            (λ s. Reads (sub symbol.Start) depth (input self.now) at.old at.new (tree s ∷ []))
            (Fails (sub symbol.Start) depth (input self.now) at.old) }
    {
        if self.begins(*at, NUMBER) {
            let (sort, place, inits) = self.numbers(at, depth)?;
            return Ok(Stmt {
                place,
                act: Act::Numbers(sort, inits),
            });
        }
        let made = self.set(at, depth)?;
        Ok(made)
    }

    /// An expression, if there is one.
    pub fn optional_expr(&self, at: &mut usize, depth: u32) -> Result<Option<Expr>, Fault>
        requires within { at.old ≤ length (input self.now) }
        requires shallow { depth ≤ 128 }
        ensures { MatchResult result
            (λ o. Reads (optional (sub symbol.Expr)) depth (input self.now) at.old at.new (if_there expr_part o))
            (Fails (optional (sub symbol.Expr)) depth (input self.now) at.old) }
    {
        if !self.begins(*at, EXPR) {
            return Ok(None);
        }
        let test = self.expr(at, depth)?;
        Ok(Some(test))
    }

    /// The advance of a `for`, if there is one.
    fn advance(&self, at: &mut usize, depth: u32) -> Result<Option<Box<Stmt>>, Fault>
        requires within { at.old ≤ length (input self.now) }
        requires shallow { depth ≤ 129 }
        ensures { MatchResult result
            (λ o. Reads (optional (sub symbol.Set)) depth (input self.now) at.old at.new (if_there (λ b. tree b.value) o))
            (Fails (optional (sub symbol.Set)) depth (input self.now) at.old) }
    {
        if !self.begins(*at, SET) {
            return Ok(None);
        }
        let set = self.set(at, depth)?;
        let boxed = boxed(self.alloc, set)?;
        Ok(Some(boxed))
    }

    /// A statement.
    #[cycle(stmt)]
    pub fn stmt(&self, at: &mut usize, depth: u32) -> Result<Stmt, Fault>
        requires within { at.old ≤ length (input self.now) }
        requires shallow { depth ≤ 128 }
        ensures cases { MatchResult result
            (λ s. Reads (sub symbol.Stmt) depth (input self.now) at.old at.new (tree s ∷ []))
            (Fails (sub symbol.Stmt) depth (input self.now) at.old) }
        ensures moves { OnOk result (at.old < at.new) }
    {
        if self.begins(*at, WIRE) {
            let made = self.wires(at, depth + 1)?;
            return Ok(made);
        }
        if self.begins(*at, NUMBER) {
            let made = self.declared_numbers(at, depth + 1)?;
            return Ok(made);
        }
        if self.is_mark(*at, Mark::Semicolon) {
            let place = self.mark(at, depth + 1, Mark::Semicolon)?;
            return Ok(Stmt {
                place,
                act: Act::Empty,
            });
        }
        if self.is_mark(*at, Mark::OpenBrace) {
            let made = self.block(at, depth + 1)?;
            return Ok(made);
        }
        if self.is_word(*at, Word::If) {
            let made = self.if_else(at, depth + 1)?;
            return Ok(made);
        }
        if self.is_word(*at, Word::While) {
            let made = self.while_loop(at, depth + 1)?;
            return Ok(made);
        }
        if self.is_word(*at, Word::For) {
            let made = self.for_loop(at, depth + 1)?;
            return Ok(made);
        }
        let made = self.step(at, depth + 1)?;
        self.mark(at, depth + 1, Mark::Semicolon)?;
        Ok(made)
    }

    /// Statements, as many as there are.
    #[cycle(stmt)]
    pub fn stmts(&self, at: &mut usize, depth: u32) -> Result<Vec<Stmt>, Fault>
        requires within { at.old ≤ length (input self.now) }
        requires shallow { depth ≤ 128 }
        ensures { MatchResult result
            (λ ss. Reads (many (sub symbol.Stmt)) depth (input self.now) at.old at.new (each tree ss.items))
            (Fails (many (sub symbol.Stmt)) depth (input self.now) at.old) }
    {
        let mut items = Vec::new(self.alloc);
        'items: while self.begins(*at, STMT) {
            let next = self.stmt(at, depth)?;
            make::push_vec(&mut items, next)?;
        }
        let whole = make::fitted(items);
        Ok(whole)
    }

    /// Statements in braces.
    #[cycle(stmt)]
    fn block(&self, at: &mut usize, depth: u32) -> Result<Stmt, Fault>
        requires within { at.old ≤ length (input self.now) }
        requires shallow { depth ≤ 129 }
        ensures cases { MatchResult result
            (λ s. Makes block_form symbol.Stmt depth (input self.now) at.old at.new (tree s))
            (Fails block_form depth (input self.now) at.old) }
        ensures moves { OnOk result (at.old < at.new) }
    {
        let place = self.mark(at, depth, Mark::OpenBrace)?;
        let items = self.stmts(at, depth)?;
        self.mark(at, depth, Mark::CloseBrace)?;
        Ok(Stmt {
            place,
            act: Act::Block(items),
        })
    }

    /// An `if`, with the `else` that belongs to it.
    #[cycle(stmt)]
    fn if_else(&self, at: &mut usize, depth: u32) -> Result<Stmt, Fault>
        requires within { at.old ≤ length (input self.now) }
        requires shallow { depth ≤ 129 }
        ensures cases { MatchResult result
            (λ s. Makes if_form symbol.Stmt depth (input self.now) at.old at.new (tree s))
            (Fails if_form depth (input self.now) at.old) }
        ensures moves { OnOk result (at.old < at.new) }
    {
        let place = self.word(at, depth, Word::If)?;
        self.mark(at, depth, Mark::OpenParen)?;
        let test = self.expr(at, depth)?;
        self.mark(at, depth, Mark::CloseParen)?;
        let yes = self.stmt(at, depth)?;
        if !self.is_word(*at, Word::Else) {
            let made = make_stmts::if_only(self.alloc, place, test, yes)?;
            return Ok(made);
        }
        self.word(at, depth, Word::Else)?;
        let no = self.stmt(at, depth)?;
        let made = make_stmts::if_else(self.alloc, place, test, yes, no)?;
        Ok(made)
    }

    /// A `while`.
    #[cycle(stmt)]
    fn while_loop(&self, at: &mut usize, depth: u32) -> Result<Stmt, Fault>
        requires within { at.old ≤ length (input self.now) }
        requires shallow { depth ≤ 129 }
        ensures cases { MatchResult result
            (λ s. Makes while_form symbol.Stmt depth (input self.now) at.old at.new (tree s))
            (Fails while_form depth (input self.now) at.old) }
        ensures moves { OnOk result (at.old < at.new) }
    {
        let place = self.word(at, depth, Word::While)?;
        self.mark(at, depth, Mark::OpenParen)?;
        let test = self.expr(at, depth)?;
        self.mark(at, depth, Mark::CloseParen)?;
        let body = self.stmt(at, depth)?;
        let made = make_stmts::while_loop(self.alloc, place, test, body)?;
        Ok(made)
    }

    /// A `for`.
    #[cycle(stmt)]
    fn for_loop(&self, at: &mut usize, depth: u32) -> Result<Stmt, Fault>
        requires within { at.old ≤ length (input self.now) }
        requires shallow { depth ≤ 129 }
        ensures cases { MatchResult result
            (λ s. Makes for_form symbol.Stmt depth (input self.now) at.old at.new (tree s))
            (Fails for_form depth (input self.now) at.old) }
        ensures moves { OnOk result (at.old < at.new) }
    {
        let place = self.word(at, depth, Word::For)?;
        self.mark(at, depth, Mark::OpenParen)?;
        let start = self.start(at, depth)?;
        self.mark(at, depth, Mark::Semicolon)?;
        let test = self.optional_expr(at, depth)?;
        self.mark(at, depth, Mark::Semicolon)?;
        let advance = self.advance(at, depth)?;
        self.mark(at, depth, Mark::CloseParen)?;
        let body = self.stmt(at, depth)?;
        let made = make_stmts::for_loop(self.alloc, place, start, test, advance, body)?;
        Ok(made)
    }
}
