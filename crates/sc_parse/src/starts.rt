//! What phrases begin with.
use crate::terminal::Terminal;
use sc_syntax::{Mark, Word};

/// A name.
pub const NAME: &[Terminal] = &[Terminal::Name];

/// A declaration of wires.
pub const WIRE: &[Terminal] = &[Terminal::Word(Word::Qbit), Terminal::Word(Word::Cbit)];

/// A declaration of numbers.
pub const NUMBER: &[Terminal] = &[
    Terminal::Word(Word::Int),
    Terminal::Word(Word::Double),
    Terminal::Word(Word::Float),
];

/// A parameter.
pub const PARAM: &[Terminal] = &[
    Terminal::Word(Word::Int),
    Terminal::Word(Word::Double),
    Terminal::Word(Word::Float),
    Terminal::Word(Word::Qbit),
    Terminal::Word(Word::Cbit),
];

/// A statement.
pub const STMT: &[Terminal] = &[
    Terminal::Word(Word::Int),
    Terminal::Word(Word::Double),
    Terminal::Word(Word::Float),
    Terminal::Word(Word::Qbit),
    Terminal::Word(Word::Cbit),
    Terminal::Word(Word::If),
    Terminal::Word(Word::While),
    Terminal::Word(Word::For),
    Terminal::Name,
    Terminal::Gate,
    Terminal::Mark(Mark::PlusPlus),
    Terminal::Mark(Mark::MinusMinus),
    Terminal::Mark(Mark::OpenBrace),
    Terminal::Mark(Mark::Semicolon),
];

/// The start of a `for`.
pub const START: &[Terminal] = &[
    Terminal::Word(Word::Int),
    Terminal::Word(Word::Double),
    Terminal::Word(Word::Float),
    Terminal::Name,
    Terminal::Mark(Mark::PlusPlus),
    Terminal::Mark(Mark::MinusMinus),
];

/// What sets a number, or measures.
pub const SET: &[Terminal] = &[
    Terminal::Name,
    Terminal::Mark(Mark::PlusPlus),
    Terminal::Mark(Mark::MinusMinus),
];

/// A measurement.
pub const MEASURE: &[Terminal] = &[Terminal::Measuring];

/// An expression.
pub const EXPR: &[Terminal] = &[
    Terminal::Name,
    Terminal::Int,
    Terminal::Decimal,
    Terminal::Mark(Mark::OpenParen),
    Terminal::Mark(Mark::Plus),
    Terminal::Mark(Mark::Minus),
    Terminal::Mark(Mark::Bang),
];

/// A module.
pub const MODULE: &[Terminal] = &[
    Terminal::Word(Word::Module),
    Terminal::Word(Word::Void),
    Terminal::Word(Word::Int),
];

/// A classical function.
pub const WORDS: &[Terminal] = &[Terminal::Word(Word::Classical)];
