//! Tokens, read from left to right.
ghost use Rattle.std.specs.Prelude.{◌≡◌, ◌≢◌, ℕ, ◌≤◌, ◌<◌, length, drop, slice_get, Some, MatchResult, [], ◌∷◌, find};
ghost use Rattle.sc_syntax.specs.declared.Token.{Token};
ghost use Rattle.sc_parse.specs.Pieces.{IsInside};

use crate::terminal::{Terminal, accepts, any_accepts, first_mark, kind_of_token};
use sc_base::{Place, Text};
use sc_syntax::{Mark, Name, Token, TokenSort, Width, Word};
use std::alloc::Global;

/// Why the tokens are no source: at which of them, or that memory ran out.
#[derive(Clone, Copy, Debug)]
pub enum Fault {
    Syntax(usize),
    TooNested(usize),
    Memory,
}

/// The tokens of a source. Positions in them are numbers from 0.
#[derive(Clone, Copy)]
pub struct Reader<'a> {
    pub alloc: Global,
    pub source: &'a [u8],
    pub tokens: &'a [Token],
    ghost in_source: { (k : ℕ) (t : Token) → slice_get tokens.now k ≡ Some t → IsInside source.now t },
}

impl Reader<'_> {
    ghost use Rattle.sc_parse.specs.Input.{input};
    ghost use Rattle.sc_parse.specs.Form.{choice, one, sub, mark as mark_form, word as word_form};
    ghost use Rattle.sc_parse.specs.Form as symbol;
    ghost use Rattle.sc_syntax.specs.TokenLists.{text_of};
    ghost use Rattle.sc_syntax.specs.declared.TokenSort.TheVariants as sort;
    ghost use Rattle.sc_parse.specs.Pieces.{ahead, next, piece};
    ghost use Rattle.sc_parse.specs.Runs.{among, begins};
    ghost use Rattle.sc_parse.specs.Reads.{Takes, TakesMark, TakesToken, Fails};
    ghost use Rattle.sc_parse.specs.Trees.{token, name, width};

    /// What the next token is to the grammar, if there is one.
    pub fn kind_at(&self, at: usize) -> Option<Terminal>
        ensures { result ≡ next (drop at (input self.now)) }
    {
        match self.tokens.get(at) {
            Some(token) => {
                let text = &self.source[token.start as usize..token.end as usize];
                Some(kind_of_token(token.sort, text))
            }
            None => None,
        }
    }

    /// Whether the next token is one that the terminal takes.
    pub fn is_at(&self, at: usize, terminal: Terminal) -> bool
        ensures { result ≡ begins (one terminal) (next (drop at (input self.now))) }
    {
        match self.kind_at(at) {
            Some(kind) => accepts(terminal, kind),
            None => false,
        }
    }

    /// Takes the next token, which has to be one that the terminal takes.
    pub fn take(&self, at: &mut usize, depth: u32, terminal: Terminal) -> Result<Token, Fault>
        requires { at.old ≤ length (input self.now) }
        ensures { MatchResult result
            (λ t. Takes (one terminal) depth (input self.now) at.old at.new (token (piece self.now.source.now t) ∷ []) × IsInside self.now.source.now t)
            (λ e. Fails (one terminal) depth (input self.now) at.old e) }
    {
        let Some(token) = self.tokens.get(*at) else {
            return Err(Fault::Syntax(*at));
        };
        if !self.is_at(*at, terminal) {
            return Err(Fault::Syntax(*at));
        }
        if depth > 128 {
            return Err(Fault::TooNested(*at));
        }
        *at += 1;
        Ok(*token)
    }

    /// Whether the next token is one that one of the terminals takes.
    pub fn begins(&self, at: usize, starts: &[Terminal]) -> bool
        ensures { result ≡ ahead (among starts.now) (next (drop at (input self.now))) }
    {
        match self.kind_at(at) {
            Some(kind) => any_accepts(starts, kind),
            None => false,
        }
    }

    /// Whether the next token is this mark.
    pub fn is_mark(&self, at: usize, mark: Mark) -> bool
        ensures { result ≡ begins (mark_form mark) (next (drop at (input self.now))) }
    {
        self.is_at(at, Terminal::Mark(mark))
    }

    /// Whether the next token is this word.
    pub fn is_word(&self, at: usize, word: Word) -> bool
        ensures { result ≡ begins (word_form word) (next (drop at (input self.now))) }
    {
        self.is_at(at, Terminal::Word(word))
    }

    /// The first of these marks that is the next token.
    pub fn which(&self, at: usize, marks: &[Mark]) -> Option<Mark>
        ensures { result ≡ find (λ m. begins (mark_form m) (next (drop at (input self.now)))) marks.now }
    {
        match self.kind_at(at) {
            Some(kind) => first_mark(marks, kind),
            None => None,
        }
    }

    /// Takes this mark, and answers its place.
    pub fn mark(&self, at: &mut usize, depth: u32, mark: Mark) -> Result<Place, Fault>
        requires { at.old ≤ length (input self.now) }
        ensures { MatchResult result
            (TakesToken (mark_form mark) depth (input self.now) at.old at.new (sort.Mark mark))
            (Fails (mark_form mark) depth (input self.now) at.old) }
    {
        let token = self.take(at, depth, Terminal::Mark(mark))?;
        Ok(token.place)
    }

    /// Whether one of these marks is the next token.
    pub fn is_one_of(&self, at: usize, marks: &[Mark]) -> bool
        ensures { result ≡ begins (choice marks.now) (next (drop at (input self.now))) }
    {
        self.which(at, marks).is_some()
    }

    /// Takes one of these marks, and answers which, and its place.
    pub fn one_of(&self, at: &mut usize, depth: u32, marks: &[Mark]) -> Result<(Mark, Place), Fault>
        requires within { at.old ≤ length (input self.now) }
        requires some { marks.now ≢ [] }
        ensures { MatchResult result
            (λ r. TakesMark marks.now depth (input self.now) at.old at.new r.0 r.1)
            (Fails (choice marks.now) depth (input self.now) at.old) }
    {
        let Some(mark) = self.which(*at, marks) else {
            return Err(Fault::Syntax(*at));
        };
        let place = self.mark(at, depth, mark)?;
        Ok((mark, place))
    }

    /// Takes this word, and answers its place.
    pub fn word(&self, at: &mut usize, depth: u32, word: Word) -> Result<Place, Fault>
        requires { at.old ≤ length (input self.now) }
        ensures { MatchResult result
            (TakesToken (word_form word) depth (input self.now) at.old at.new (sort.Word word))
            (Fails (word_form word) depth (input self.now) at.old) }
    {
        let token = self.take(at, depth, Terminal::Word(word))?;
        Ok(token.place)
    }

    /// The text of a token.
    pub fn text(&self, token: Token) -> Result<Text, Fault>
        requires { IsInside self.now.source.now token }
        ensures { MatchResult result (λ t. t ≡ text_of self.now.source.now token) (λ e. e ≡ Fault.Memory) }
    {
        match Text::from_bytes(
            self.alloc,
            &self.source[token.start as usize..token.end as usize],
        ) {
            Ok(text) => Ok(text),
            Err(_) => Err(Fault::Memory),
        }
    }

    /// Takes a name.
    pub fn name(&self, at: &mut usize, depth: u32) -> Result<Name, Fault>
        requires { at.old ≤ length (input self.now) }
        ensures { MatchResult result
            (λ n. Takes (sub symbol.Name) depth (input self.now) at.old at.new (name n ∷ []))
            (Fails (sub symbol.Name) depth (input self.now) at.old) }
    {
        let token = self.take(at, depth, Terminal::Name)?;
        let text = self.text(token)?;
        Ok(Name {
            text,
            place: token.place,
        })
    }

    /// Takes the name `main`.
    pub fn main_name(&self, at: &mut usize, depth: u32) -> Result<Name, Fault>
        requires { at.old ≤ length (input self.now) }
        ensures { MatchResult result
            (λ n. Takes (sub symbol.MainName) depth (input self.now) at.old at.new (name n ∷ []))
            (Fails (sub symbol.MainName) depth (input self.now) at.old) }
    {
        let token = self.take(at, depth, Terminal::Main)?;
        let text = self.text(token)?;
        Ok(Name {
            text,
            place: token.place,
        })
    }

    /// Takes a whole number.
    pub fn width(&self, at: &mut usize, depth: u32) -> Result<Width, Fault>
        requires { at.old ≤ length (input self.now) }
        ensures { MatchResult result
            (λ w. Takes (sub symbol.Width) depth (input self.now) at.old at.new (width w ∷ []))
            (Fails (sub symbol.Width) depth (input self.now) at.old) }
    {
        let token = self.take(at, depth, Terminal::Int)?;
        match token.sort {
            TokenSort::Int(value) => Ok(Width {
                value,
                place: token.place,
            }),
            _ => unreachable!(),
        }
    }
}
