//! Laws of tokens: each function has its law as contract, and does nothing.
ghost use Rattle.sc_syntax.specs.Lexing.{LexedAreRead};

/// The tokens of a source are read from it: each fits its slice, and they are no more than a source may have.
pub fn lexed_are_read()
    ensures { LexedAreRead }
{}
