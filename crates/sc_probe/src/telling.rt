//! Texts put together piece by piece.
ghost use Rattle.std.specs.Prelude.{◌≡◌, ◌++◌, codes, decimal, OnOk, IfOk};

use sc_base::{Memory, Text, put_u128};
use std::alloc::Global;

/// A text of these bytes.
pub(crate) fn text_of(alloc: Global, bytes: &[u8]) -> Result<Text, Memory>
    ensures { IfOk result (λ text. text ≡ bytes.now) }
{
    let mut text = Text::new(alloc);
    text.push_bytes(bytes)?;
    Ok(text)
}

/// Appends the bytes and the decimal text of a number.
pub(crate) fn tell_number(text: &mut Text, before: &[u8], number: u128) -> Result<(), Memory>
    ensures { OnOk result (text.new ≡ text.old ++ before.now ++ decimal number) }
{
    let mut buffer = [0; 40];
    let count = put_u128(number, &mut buffer);
    text.push_bytes(before)?;
    text.push_bytes(&buffer[..count])
}
