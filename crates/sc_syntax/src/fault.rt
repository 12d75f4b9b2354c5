//! Why a source has no tokens.
use sc_base::Place;

/// Why a source has no tokens. It is the first fault in reading order.
#[derive(Clone, Copy, Debug, PartialEq, Eq)]
pub enum LexFault {
    /// A byte with which no token, comment or directive begins.
    BadByte(Place),
    /// A `/*` without a `*/` behind it.
    OpenComment(Place),
    /// The first byte of a number that has two points or more, a letter or `_`, or is too large.
    BadNumber(Place),
    /// The `#` of a directive that is neither an include nor a proper definition of a new name.
    BadDefine(Place),
    /// The token with which the list passes 4,194,304 tokens.
    TooManyTokens(Place),
    /// No memory was left.
    Memory,
}
