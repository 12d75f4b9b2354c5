//! Tokens.
ghost use Rattle.std.specs.Prelude.{◌≡◌, [], ◌∷◌, ◌++◌, length, OnOk, OnErr};

use sc_base::{Fixed, GateName, Memory, Place};
use std::alloc::Global;
use std::marker::Model;

/// A token, its place, and the slice of the source that its text was read from.
///
/// A token that stands for a defined name has the place of the use, and the slice of the definition.
#[derive(Clone, Copy, Debug, PartialEq, Eq)]
pub struct Token {
    pub sort: TokenSort,
    pub place: Place,
    /// The first byte of the slice, counted from 0.
    pub start: u32,
    /// The byte after the last of the slice.
    pub end: u32,
}

/// What a token is. Every word and number is read to its end, and of two marks the longer one.
#[derive(Clone, Copy, Debug, PartialEq, Eq)]
pub enum TokenSort {
    /// A reserved word that is no gate name.
    Word(Word),
    /// The name of a gate, which is reserved too.
    Gate(GateName),
    /// Any other name; its text is the token's slice of the source.
    Name,
    /// Digits alone, read as decimal, from 0 to 9223372036854775807.
    Int(i64),
    /// Digits with one point, in units of 10^-12; decimals after the twelfth are dropped.
    Decimal(Fixed),
    /// A mark.
    Mark(Mark),
}

/// The reserved words other than gate names.
#[derive(Clone, Copy, Debug, PartialEq, Eq)]
pub enum Word {
    Module,
    Void,
    Int,
    Double,
    Float,
    Qbit,
    Cbit,
    If,
    Else,
    While,
    For,
    Return,
    Classical,
}

/// The marks, those of two bytes first.
#[derive(Clone, Copy, Debug, PartialEq, Eq)]
pub enum Mark {
    PlusPlus,
    MinusMinus,
    PlusEq,
    MinusEq,
    StarEq,
    SlashEq,
    PercentEq,
    EqEq,
    NotEq,
    LessEq,
    GreaterEq,
    AndAnd,
    OrOr,
    ShiftLeft,
    ShiftRight,
    OpenParen,
    CloseParen,
    OpenBracket,
    CloseBracket,
    OpenBrace,
    CloseBrace,
    Semicolon,
    Comma,
    Colon,
    Question,
    Eq,
    Plus,
    Minus,
    Star,
    Slash,
    Percent,
    Less,
    Greater,
    Bang,
    Tilde,
    And,
    Or,
    Caret,
}

/// The tokens of a source, in order. Contracts see them as a list.
#[derive(Debug, Drop)]
pub struct Tokens {
    items: Vec<Token>,
}

impl Model for Tokens {
    ghost use Rattle.std.specs.Prelude.{List};
    ghost use Rattle.sc_syntax.specs.declared.token.Token.{Token};

    ghost Value = { List Token };

    ghost view = { λ t. t.items.items };
}

impl Tokens {
    /// No tokens. It takes no memory.
    pub(crate) fn new(alloc: Global) -> Tokens
        ensures { result ≡ [] }
    {
        Tokens {
            items: Vec::new(alloc),
        }
    }

    /// Adds a token at the end. After `Memory` the tokens are unchanged.
    pub(crate) fn push(&mut self, token: Token) -> Result<(), Memory>
        ensures ok { OnOk result (self.new ≡ self.old ++ token ∷ []) }
        ensures err { OnErr result (self.new ≡ self.old) }
    {
        self.items.push(token)?;
        Ok(())
    }

    pub(crate) fn len(&self) -> usize
        ensures { result ≡ length self.now }
    {
        self.items.len()
    }

    /// The tokens in order.
    pub fn as_slice(&self) -> &[Token]
        ensures { result.now ≡ self.now }
    {
        self.items.as_slice()
    }
}
