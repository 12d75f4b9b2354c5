//! Modules.
ghost use Rattle.std.specs.Prelude.{◌≡◌, ◌≤◌, ◌<◌, [], ◌∷◌, length, MatchResult, OnOk};

use crate::reader::{Fault, Reader};
use crate::starts::{PARAM, WIRE};
use crate::terminal::Terminal;
use crate::{make, make_modules};
use sc_base::List;
use sc_syntax::{Mark, Module, Name, Param, Part, Sort, Word};

impl Reader<'_> {
    ghost use Rattle.sc_parse.specs.Form as symbol;
    ghost use Rattle.sc_parse.specs.Form.{one, optional, sub};
    ghost use Rattle.sc_parse.specs.Input.{input};
    ghost use Rattle.sc_parse.specs.Reads.{Fails, Keeps, Reads};
    ghost use Rattle.sc_parse.specs.Rules.{heading as heading_form, list, params as params_form, returned as returned_form};
    ghost use Rattle.sc_parse.specs.Trees.{each, name as name_part, param as param_part, part as tree};
    ghost use Rattle.sc_parse.specs.declared.terminal.Terminal.TheVariants as terminal;

    /// What a module begins with.
    fn heading(&self, at: &mut usize, depth: u32) -> Result<Name, Fault>
        requires { at.old ≤ length (input self.now) }
        ensures cases { MatchResult result
            (λ n. Keeps heading_form depth (input self.now) at.old at.new (name_part n ∷ []))
            (Fails heading_form depth (input self.now) at.old) }
        ensures moves { OnOk result (at.old < at.new) }
    {
        if self.is_word(*at, Word::Module) {
            self.word(at, depth, Word::Module)?;
            let name = self.name(at, depth)?;
            return Ok(name);
        }
        if self.is_word(*at, Word::Void) {
            self.word(at, depth, Word::Void)?;
            let name = self.name(at, depth)?;
            return Ok(name);
        }
        self.word(at, depth, Word::Int)?;
        let name = self.main_name(at, depth)?;
        Ok(name)
    }

    /// A parameter of a module.
    fn param(&self, at: &mut usize, depth: u32) -> Result<Param, Fault>
        requires within { at.old ≤ length (input self.now) }
        requires shallow { depth ≤ 128 }
        ensures { MatchResult result
            (λ p. Reads (sub symbol.Param) depth (input self.now) at.old at.new (param_part p ∷ []))
            (Fails (sub symbol.Param) depth (input self.now) at.old) }
    {
        if !self.begins(*at, WIRE) {
            let (number, _) = self.number(at, depth)?;
            let name = self.name(at, depth)?;
            let made = make_modules::number_param(name, number);
            return Ok(made);
        }
        let (class, _) = self.wire(at, depth)?;
        if self.is_mark(*at, Mark::Star) {
            self.mark(at, depth, Mark::Star)?;
            let name = self.name(at, depth)?;
            return Ok(Param {
                name,
                sort: Sort::Many(class, None),
            });
        }
        let name = self.name(at, depth)?;
        if !self.is_mark(*at, Mark::OpenBracket) {
            return Ok(Param {
                name,
                sort: Sort::One(class),
            });
        }
        self.mark(at, depth, Mark::OpenBracket)?;
        let size = self.optional_expr(at, depth)?;
        self.mark(at, depth, Mark::CloseBracket)?;
        Ok(Param {
            name,
            sort: Sort::Many(class, size),
        })
    }

    /// Parameters, with commas between them.
    fn some_params(&self, at: &mut usize, depth: u32) -> Result<List<Param>, Fault>
        requires within { at.old ≤ length (input self.now) }
        requires shallow { depth ≤ 128 }
        ensures { MatchResult result
            (λ ps. Keeps (list (sub symbol.Param)) depth (input self.now) at.old at.new (each param_part ps))
            (Fails (list (sub symbol.Param)) depth (input self.now) at.old) }
    {
        let first = self.param(at, depth)?;
        let mut items = make::one(self.alloc, first)?;
        'items: while self.is_mark(*at, Mark::Comma) {
            self.mark(at, depth, Mark::Comma)?;
            let next = self.param(at, depth)?;
            make::push(&mut items, next)?;
        }
        Ok(items)
    }

    /// The parameters of a module, if it has any.
    fn params(&self, at: &mut usize, depth: u32) -> Result<List<Param>, Fault>
        requires within { at.old ≤ length (input self.now) }
        requires shallow { depth ≤ 128 }
        ensures { MatchResult result
            (λ ps. Keeps params_form depth (input self.now) at.old at.new (each param_part ps))
            (Fails params_form depth (input self.now) at.old) }
    {
        if self.is_word(*at, Word::Void) {
            self.word(at, depth, Word::Void)?;
            return Ok(List::new(self.alloc));
        }
        if !self.begins(*at, PARAM) {
            return Ok(List::new(self.alloc));
        }
        let items = self.some_params(at, depth)?;
        Ok(items)
    }

    /// Passes over a whole number, if there is one.
    fn skip_int(&self, at: &mut usize, depth: u32) -> Result<(), Fault>
        requires { at.old ≤ length (input self.now) }
        ensures { MatchResult result
            (λ _. Keeps (optional (one terminal.Int)) depth (input self.now) at.old at.new [])
            (Fails (optional (one terminal.Int)) depth (input self.now) at.old) }
    {
        if !self.is_at(*at, Terminal::Int) {
            return Ok(());
        }
        self.take(at, depth, Terminal::Int)?;
        Ok(())
    }

    /// Passes over a `return`, if there is one.
    fn returned(&self, at: &mut usize, depth: u32) -> Result<(), Fault>
        requires { at.old ≤ length (input self.now) }
        ensures { MatchResult result
            (λ _. Keeps returned_form depth (input self.now) at.old at.new [])
            (Fails returned_form depth (input self.now) at.old) }
    {
        if !self.is_word(*at, Word::Return) {
            return Ok(());
        }
        self.word(at, depth, Word::Return)?;
        self.skip_int(at, depth)?;
        self.mark(at, depth, Mark::Semicolon)?;
        Ok(())
    }

    /// A module.
    pub fn module(&self, at: &mut usize, depth: u32) -> Result<Part, Fault>
        requires within { at.old ≤ length (input self.now) }
        requires shallow { depth ≤ 128 }
        ensures cases { MatchResult result
            (λ p. Reads (sub symbol.Module) depth (input self.now) at.old at.new (tree p ∷ []))
            (Fails (sub symbol.Module) depth (input self.now) at.old) }
        ensures moves { OnOk result (at.old < at.new) }
    {
        let name = self.heading(at, depth)?;
        self.mark(at, depth, Mark::OpenParen)?;
        let params = self.params(at, depth)?;
        self.mark(at, depth, Mark::CloseParen)?;
        self.mark(at, depth, Mark::OpenBrace)?;
        let body = self.stmts(at, depth)?;
        self.returned(at, depth)?;
        self.mark(at, depth, Mark::CloseBrace)?;
        Ok(Part::Module(Module {
            name,
            params,
            body: List::from_vec(body),
        }))
    }
}
