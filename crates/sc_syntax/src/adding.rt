//! Tokens are added, up to the number that a source may have.
ghost use Rattle.std.specs.Prelude.{◌≡◌, ◌≢◌, ◌≤◌, ◌<◌, ◌+◌, ◌^◌, ◌++◌, ◌∷◌, [], length, map, OnOk, IfOk, IfErr, true, false};
ghost use Rattle.sc_syntax.specs.Cuts.{IsAddable, IsNotAdded, tokens_of};
ghost use Rattle.sc_syntax.specs.Directives.{placed};
ghost use Rattle.sc_base.specs.Limits.{most_tokens};

use crate::fault::LexFault;
use crate::reading::Reading;
use crate::token::{Token, Tokens};
use sc_base::{MOST_TOKENS, Memory, Place};

/// Adds a token.
fn add_token(tokens: &mut Tokens, token: Token) -> Result<(), LexFault>
    ensures few { OnOk result (length tokens.old < most_tokens) }
    ensures ok { OnOk result (tokens.new ≡ tokens.old ++ token ∷ []) }
    ensures err { IfErr result (λ f. f ≢ LexFault.Memory → (most_tokens ≤ length tokens.old) × (f ≡ LexFault.TooManyTokens token.place)) }
{
    if tokens.len() >= MOST_TOKENS {
        return Err(LexFault::TooManyTokens(token.place));
    }
    match tokens.push(token) {
        Ok(()) => Ok(()),
        Err(_) => Err(LexFault::Memory),
    }
}

/// Adds the token of a reading, if it is one. What can't be read is the fault that is handed in.
pub(crate) fn add_reading(
    tokens: &mut Tokens,
    reading: Reading,
    unread: LexFault,
    place: Place,
    start: usize,
    end: usize,
) -> Result<(), LexFault>
    requires ordered { start ≤ end }
    requires end { end < 2 ^ 32 }
    ensures addable { OnOk result (IsAddable reading tokens.old) }
    ensures ok { OnOk result (tokens.new ≡ tokens.old ++ tokens_of reading place start end) }
    ensures err { IfErr result (λ f. f ≢ LexFault.Memory → IsNotAdded reading unread place tokens.old f) }
{
    match reading {
        Reading::Passed => Ok(()),
        Reading::Unread => Err(unread),
        Reading::Read(sort) => add_token(
            tokens,
            Token {
                sort,
                place,
                start: start as u32,
                end: end as u32,
            },
        ),
    }
}

/// Adds the tokens that a name stands for, at the place of its use.
pub(crate) fn add_value(tokens: &mut Tokens, value: &[Token], place: Place) -> Result<(), LexFault>
    requires { length tokens.old ≤ most_tokens }
    ensures few { OnOk result (length tokens.new ≤ most_tokens) }
    ensures ok { OnOk result (tokens.new ≡ tokens.old ++ map (placed place) value.now) }
    ensures err { IfErr result (λ f. f ≢ LexFault.Memory → (most_tokens < length (tokens.old ++ map (placed place) value.now)) × (f ≡ LexFault.TooManyTokens place)) }
{
    for token in value {
        add_token(tokens, Token { place, ..*token })?;
    }
    Ok(())
}

/// Adds the token of a reading to those of a directive, if it is one. It answers whether the piece could be read.
pub(crate) fn push_reading(
    tokens: &mut Tokens,
    reading: Reading,
    place: Place,
    start: usize,
    end: usize,
) -> Result<bool, Memory>
    requires ordered { start ≤ end }
    requires end { end < 2 ^ 32 }
    ensures unread { IfOk result (λ is_read. is_read ≡ false → reading ≡ Reading.Unread) }
    ensures read { IfOk result (λ is_read. is_read ≡ true → reading ≢ Reading.Unread) }
    ensures grows { IfOk result (λ is_read. is_read ≡ true → tokens.new ≡ tokens.old ++ tokens_of reading place start end) }
{
    match reading {
        Reading::Passed => Ok(true),
        Reading::Unread => Ok(false),
        Reading::Read(sort) => {
            tokens.push(Token {
                sort,
                place,
                start: start as u32,
                end: end as u32,
            })?;
            Ok(true)
        }
    }
}
