//! What marks and words mean.
ghost use Rattle.std.specs.Prelude.{◌≡◌, ◌+◌, ◌<◌, ◌≤◌, true, false, Some, MatchOption};
ghost use Rattle.sc_parse.specs.declared.expr.Level.{Level};
ghost use Rattle.sc_parse.specs.Form as symbol;
ghost use Rattle.sc_parse.specs.Form.{sub};
ghost use Rattle.sc_parse.specs.Levels.{kind_level, looseness, mark_level};
ghost use Rattle.sc_parse.specs.declared.word.WordLevel.{WordLevel};
ghost use Rattle.sc_parse.specs.Rules.{chain_of, marks, operand, word_chain_of, word_marks, word_operand};
ghost use Rattle.sc_parse.specs.WordLevels.{tightest, word_base, word_kind_level, word_looseness, word_mark_level};
ghost use Rattle.sc_parse.specs.Trees.{binary_of, class_of, number_of, set_of, shift_of, step_of, unary_of, word_binary_of};

use crate::expr::Level;
use crate::terminal::Terminal;
use crate::word::WordLevel;
use sc_base::Class;
use sc_syntax::{BinOp, Mark, NumSort, SetOp, UnOp, Word, WordOp};

/// The marks before an operand.
pub const UNARY: &[Mark] = &[Mark::Minus, Mark::Plus, Mark::Bang];

/// The marks of shifts.
pub const SHIFTS: &[Mark] = &[Mark::ShiftLeft, Mark::ShiftRight];

/// The marks that add or take away one.
pub const STEPS: &[Mark] = &[Mark::PlusPlus, Mark::MinusMinus];

/// The marks that compute and set.
pub const COMPOUNDS: &[Mark] = &[
    Mark::PlusEq,
    Mark::MinusEq,
    Mark::StarEq,
    Mark::SlashEq,
    Mark::PercentEq,
];

/// The class of wires that a word declares.
pub fn class(word: Word) -> Option<Class>
    ensures { result ≡ class_of word }
{
    match word {
        Word::Qbit => Some(Class::Q),
        Word::Cbit => Some(Class::C),
        _ => None,
    }
}

/// The kind of number that a word declares.
pub fn number(word: Word) -> Option<NumSort>
    ensures { result ≡ number_of word }
{
    match word {
        Word::Int => Some(NumSort::Int),
        Word::Double => Some(NumSort::Double),
        Word::Float => Some(NumSort::Double),
        _ => None,
    }
}

/// What a mark before an operand means.
pub fn unary(mark: Mark) -> Option<UnOp>
    ensures { result ≡ unary_of mark }
{
    match mark {
        Mark::Minus => Some(UnOp::Minus),
        Mark::Plus => Some(UnOp::Plus),
        Mark::Bang => Some(UnOp::Not),
        _ => None,
    }
}

/// What a mark between two operands means.
pub fn binary(mark: Mark) -> Option<BinOp>
    ensures { result ≡ binary_of mark }
{
    match mark {
        Mark::OrOr => Some(BinOp::Or),
        Mark::AndAnd => Some(BinOp::And),
        Mark::EqEq => Some(BinOp::Eq),
        Mark::NotEq => Some(BinOp::Ne),
        Mark::Less => Some(BinOp::Lt),
        Mark::LessEq => Some(BinOp::Le),
        Mark::Greater => Some(BinOp::Gt),
        Mark::GreaterEq => Some(BinOp::Ge),
        Mark::ShiftLeft => Some(BinOp::Shl),
        Mark::ShiftRight => Some(BinOp::Shr),
        Mark::Plus => Some(BinOp::Add),
        Mark::Minus => Some(BinOp::Sub),
        Mark::Star => Some(BinOp::Mul),
        Mark::Slash => Some(BinOp::Div),
        Mark::Percent => Some(BinOp::Rem),
        _ => None,
    }
}

/// What a mark between two words means.
pub fn word_binary(mark: Mark) -> Option<WordOp>
    ensures { result ≡ word_binary_of mark }
{
    match mark {
        Mark::Or => Some(WordOp::Or),
        Mark::Caret => Some(WordOp::Xor),
        Mark::And => Some(WordOp::And),
        Mark::EqEq => Some(WordOp::Eq),
        Mark::Less => Some(WordOp::Lt),
        Mark::Plus => Some(WordOp::Add),
        Mark::Minus => Some(WordOp::Sub),
        Mark::Star => Some(WordOp::Mul),
        _ => None,
    }
}

/// Whether a mark shifts to the left.
pub fn shift(mark: Mark) -> Option<bool>
    ensures { result ≡ shift_of mark }
{
    match mark {
        Mark::ShiftLeft => Some(true),
        Mark::ShiftRight => Some(false),
        _ => None,
    }
}

/// How a mark sets a number by a value.
pub fn set(mark: Mark) -> Option<SetOp>
    ensures { result ≡ set_of mark }
{
    match mark {
        Mark::Eq => Some(SetOp::Put),
        Mark::PlusEq => Some(SetOp::Add),
        Mark::MinusEq => Some(SetOp::Sub),
        Mark::StarEq => Some(SetOp::Mul),
        Mark::SlashEq => Some(SetOp::Div),
        Mark::PercentEq => Some(SetOp::Rem),
        _ => None,
    }
}

/// How a mark sets a number without a value.
pub fn step(mark: Mark) -> Option<SetOp>
    ensures { result ≡ step_of mark }
{
    match mark {
        Mark::PlusPlus => Some(SetOp::Up),
        Mark::MinusMinus => Some(SetOp::Down),
        _ => None,
    }
}

/// The operators of a level.
pub fn level_marks(level: Level) -> &'static [Mark]
    ensures { result.now ≡ marks level }
{
    match level {
        Level::Or => &[Mark::OrOr],
        Level::And => &[Mark::AndAnd],
        Level::Equal => &[Mark::EqEq, Mark::NotEq],
        Level::Order => &[Mark::Less, Mark::LessEq, Mark::Greater, Mark::GreaterEq],
        Level::Shift => &[Mark::ShiftLeft, Mark::ShiftRight],
        Level::Sum => &[Mark::Plus, Mark::Minus],
        Level::Product => &[Mark::Star, Mark::Slash, Mark::Percent],
    }
}

/// The operators of a level of words.
pub fn word_level_marks(level: WordLevel) -> &'static [Mark]
    ensures { result.now ≡ word_marks level }
{
    match level {
        WordLevel::Or => &[Mark::Or],
        WordLevel::Xor => &[Mark::Caret],
        WordLevel::And => &[Mark::And],
        WordLevel::Equal => &[Mark::EqEq],
        WordLevel::Less => &[Mark::Less],
        WordLevel::Sum => &[Mark::Plus, Mark::Minus],
        WordLevel::Product => &[Mark::Star],
    }
}

/// How loosely the operators of a level bind.
pub fn looseness(level: Level) -> u8
    ensures { result ≡ looseness level }
{
    match level {
        Level::Or => 6,
        Level::And => 5,
        Level::Equal => 4,
        Level::Order => 3,
        Level::Shift => 2,
        Level::Sum => 1,
        Level::Product => 0,
    }
}

/// The level of the operator that a mark is.
fn level_of_mark(mark: Mark) -> Option<Level>
    ensures { result ≡ mark_level mark }
{
    match mark {
        Mark::OrOr => Some(Level::Or),
        Mark::AndAnd => Some(Level::And),
        Mark::EqEq => Some(Level::Equal),
        Mark::NotEq => Some(Level::Equal),
        Mark::Less => Some(Level::Order),
        Mark::LessEq => Some(Level::Order),
        Mark::Greater => Some(Level::Order),
        Mark::GreaterEq => Some(Level::Order),
        Mark::ShiftLeft => Some(Level::Shift),
        Mark::ShiftRight => Some(Level::Shift),
        Mark::Plus => Some(Level::Sum),
        Mark::Minus => Some(Level::Sum),
        Mark::Star => Some(Level::Product),
        Mark::Slash => Some(Level::Product),
        Mark::Percent => Some(Level::Product),
        _ => None,
    }
}

/// The level of the operator that a token of this kind is.
pub fn level(kind: Terminal) -> Option<Level>
    ensures { result ≡ kind_level kind }
{
    match kind {
        Terminal::Mark(mark) => level_of_mark(mark),
        _ => None,
    }
}

/// The level, if it binds no looser than `limit`.
pub fn within(level: Option<Level>, limit: Level) -> Option<Level>
    ensures { MatchOption result
        ((l : Level) → level ≡ Some l → looseness limit < looseness l)
        (λ l. (level ≡ Some l) × (looseness l ≤ looseness limit)) }
{
    match level {
        Some(found) => {
            if looseness(found) > looseness(limit) {
                return None;
            }
            Some(found)
        }
        None => None,
    }
}

/// The next level that binds tighter. Within the tightest one there are no more operators.
pub fn tighter(level: Level) -> Option<Level>
    ensures { MatchOption result
        ((operand level ≡ sub symbol.Unary) × (looseness level ≡ 0))
        (λ l. (operand level ≡ sub (chain_of l)) × (looseness level ≡ looseness l + 1)) }
{
    match level {
        Level::Or => Some(Level::And),
        Level::And => Some(Level::Equal),
        Level::Equal => Some(Level::Order),
        Level::Order => Some(Level::Shift),
        Level::Shift => Some(Level::Sum),
        Level::Sum => Some(Level::Product),
        Level::Product => None,
    }
}

/// How loosely the operators of a level of words bind. 2 is left for shifts.
pub fn word_looseness(level: WordLevel) -> u8
    ensures { result ≡ word_looseness level }
{
    match level {
        WordLevel::Or => 7,
        WordLevel::Xor => 6,
        WordLevel::And => 5,
        WordLevel::Equal => 4,
        WordLevel::Less => 3,
        WordLevel::Sum => 1,
        WordLevel::Product => 0,
    }
}

/// How loosely the tightest operators bind that are on the same side of the shifts.
pub fn tightest(level: WordLevel) -> u8
    ensures { result ≡ tightest level }
{
    match level {
        WordLevel::Or => 3,
        WordLevel::Xor => 3,
        WordLevel::And => 3,
        WordLevel::Equal => 3,
        WordLevel::Less => 3,
        WordLevel::Sum => 0,
        WordLevel::Product => 0,
    }
}

/// The level of the operator of words that a mark is.
fn word_level_of_mark(mark: Mark) -> Option<WordLevel>
    ensures { result ≡ word_mark_level mark }
{
    match mark {
        Mark::Or => Some(WordLevel::Or),
        Mark::Caret => Some(WordLevel::Xor),
        Mark::And => Some(WordLevel::And),
        Mark::EqEq => Some(WordLevel::Equal),
        Mark::Less => Some(WordLevel::Less),
        Mark::Plus => Some(WordLevel::Sum),
        Mark::Minus => Some(WordLevel::Sum),
        Mark::Star => Some(WordLevel::Product),
        _ => None,
    }
}

/// The level of the operator of words that a token of this kind is.
pub fn word_level(kind: Terminal) -> Option<WordLevel>
    ensures { result ≡ word_kind_level kind }
{
    match kind {
        Terminal::Mark(mark) => word_level_of_mark(mark),
        _ => None,
    }
}

/// The level, if it is on the same side of the shifts as `limit` and binds no looser.
pub fn word_within(level: Option<WordLevel>, limit: WordLevel) -> Option<WordLevel>
    ensures { MatchOption result
        ((l : WordLevel) → level ≡ Some l → tightest limit ≤ word_looseness l → word_looseness limit < word_looseness l)
        (λ l. (level ≡ Some l) × (tightest limit ≤ word_looseness l) × (word_looseness l ≤ word_looseness limit)) }
{
    match level {
        Some(found) => {
            if word_looseness(found) < tightest(limit) {
                return None;
            }
            if word_looseness(found) > word_looseness(limit) {
                return None;
            }
            Some(found)
        }
        None => None,
    }
}

/// The next level that binds tighter, on the same side of the shifts.
pub fn word_tighter(level: WordLevel) -> Option<WordLevel>
    ensures { MatchOption result
        ((word_operand level ≡ word_base level) × (word_looseness level ≡ tightest level))
        (λ l. (word_operand level ≡ sub (word_chain_of l)) × (word_looseness level ≡ word_looseness l + 1) × (tightest level ≡ tightest l)) }
{
    match level {
        WordLevel::Or => Some(WordLevel::Xor),
        WordLevel::Xor => Some(WordLevel::And),
        WordLevel::And => Some(WordLevel::Equal),
        WordLevel::Equal => Some(WordLevel::Less),
        WordLevel::Less => None,
        WordLevel::Sum => Some(WordLevel::Product),
        WordLevel::Product => None,
    }
}

/// Whether the level is within the shifts, and not around them.
pub fn is_tight(level: WordLevel) -> bool
    ensures tight { result ≡ true → word_base level ≡ sub symbol.WUnary }
    ensures loose { result ≡ false → (word_base level ≡ sub symbol.WShift) × (tightest level ≡ 3) }
{
    match level {
        WordLevel::Or => false,
        WordLevel::Xor => false,
        WordLevel::And => false,
        WordLevel::Equal => false,
        WordLevel::Less => false,
        WordLevel::Sum => true,
        WordLevel::Product => true,
    }
}
