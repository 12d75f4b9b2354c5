//! Classical functions.
ghost use Rattle.std.specs.Prelude.{◌≡◌, ◌≤◌, ◌<◌, [], ◌∷◌, length, MatchResult, OnOk};

use crate::make;
use crate::reader::{Fault, Reader};
use crate::starts::NAME;
use sc_base::List;
use sc_syntax::{Bind, Mark, Part, Width, Word, WordFn, WordParam};

impl Reader<'_> {
    ghost use Rattle.sc_parse.specs.Form as symbol;
    ghost use Rattle.sc_parse.specs.Form.{many, sub};
    ghost use Rattle.sc_parse.specs.Input.{input};
    ghost use Rattle.sc_parse.specs.Reads.{Fails, Keeps, Reads};
    ghost use Rattle.sc_parse.specs.Rules.{list};
    ghost use Rattle.sc_parse.specs.Trees.{bind as bind_part, each, part as tree, word_param as param_part};

    /// A parameter of a classical function. Where no width is written, it is 1.
    fn word_param(&self, at: &mut usize, depth: u32) -> Result<WordParam, Fault>
        requires within { at.old ≤ length (input self.now) }
        requires shallow { depth ≤ 128 }
        ensures { MatchResult result
            (λ p. Reads (sub symbol.WParam) depth (input self.now) at.old at.new (param_part p ∷ []))
            (Fails (sub symbol.WParam) depth (input self.now) at.old) }
    {
        let name = self.name(at, depth)?;
        if !self.is_mark(*at, Mark::OpenBracket) {
            let place = name.place;
            return Ok(WordParam {
                name,
                width: Width { value: 1, place },
            });
        }
        self.mark(at, depth, Mark::OpenBracket)?;
        let width = self.width(at, depth)?;
        self.mark(at, depth, Mark::CloseBracket)?;
        Ok(WordParam { name, width })
    }

    /// Parameters of a classical function, with commas between them.
    fn word_params(&self, at: &mut usize, depth: u32) -> Result<List<WordParam>, Fault>
        requires within { at.old ≤ length (input self.now) }
        requires shallow { depth ≤ 128 }
        ensures { MatchResult result
            (λ ps. Keeps (list (sub symbol.WParam)) depth (input self.now) at.old at.new (each param_part ps))
            (Fails (list (sub symbol.WParam)) depth (input self.now) at.old) }
    {
        let first = self.word_param(at, depth)?;
        let mut items = make::one(self.alloc, first)?;
        'items: while self.is_mark(*at, Mark::Comma) {
            self.mark(at, depth, Mark::Comma)?;
            let next = self.word_param(at, depth)?;
            make::push(&mut items, next)?;
        }
        Ok(items)
    }

    /// A name that is bound to a word.
    fn bind(&self, at: &mut usize, depth: u32) -> Result<Bind, Fault>
        requires within { at.old ≤ length (input self.now) }
        requires shallow { depth ≤ 128 }
        ensures cases { MatchResult result
            (λ b. Reads (sub symbol.Bind) depth (input self.now) at.old at.new (bind_part b ∷ []))
            (Fails (sub symbol.Bind) depth (input self.now) at.old) }
        ensures moves { OnOk result (at.old < at.new) }
    {
        let name = self.name(at, depth)?;
        self.mark(at, depth, Mark::Eq)?;
        let value = self.word_expr(at, depth)?;
        self.mark(at, depth, Mark::Semicolon)?;
        Ok(Bind { name, value })
    }

    /// Bound names, as many as there are.
    fn binds(&self, at: &mut usize, depth: u32) -> Result<List<Bind>, Fault>
        requires within { at.old ≤ length (input self.now) }
        requires shallow { depth ≤ 128 }
        ensures { MatchResult result
            (λ bs. Reads (many (sub symbol.Bind)) depth (input self.now) at.old at.new (each bind_part bs))
            (Fails (many (sub symbol.Bind)) depth (input self.now) at.old) }
    {
        let mut items = List::new(self.alloc);
        'items: while self.begins(*at, NAME) {
            let next = self.bind(at, depth)?;
            make::push(&mut items, next)?;
        }
        Ok(items)
    }

    /// A classical function.
    pub fn words(&self, at: &mut usize, depth: u32) -> Result<Part, Fault>
        requires within { at.old ≤ length (input self.now) }
        requires shallow { depth ≤ 128 }
        ensures cases { MatchResult result
            (λ p. Reads (sub symbol.Words) depth (input self.now) at.old at.new (tree p ∷ []))
            (Fails (sub symbol.Words) depth (input self.now) at.old) }
        ensures moves { OnOk result (at.old < at.new) }
    {
        self.word(at, depth, Word::Classical)?;
        let name = self.name(at, depth)?;
        self.mark(at, depth, Mark::OpenParen)?;
        let params = self.word_params(at, depth)?;
        self.mark(at, depth, Mark::CloseParen)?;
        self.mark(at, depth, Mark::Colon)?;
        let width = self.width(at, depth)?;
        self.mark(at, depth, Mark::OpenBrace)?;
        let binds = self.binds(at, depth)?;
        self.word(at, depth, Word::Return)?;
        let returned = self.word_expr(at, depth)?;
        self.mark(at, depth, Mark::Semicolon)?;
        self.mark(at, depth, Mark::CloseBrace)?;
        Ok(Part::Words(WordFn {
            name,
            params,
            width,
            binds,
            result: returned,
        }))
    }
}
