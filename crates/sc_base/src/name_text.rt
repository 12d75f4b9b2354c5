//! What a name is made of.
ghost use Rattle.std.specs.Prelude.{◌≡◌, ◌↔◌, IsTrue};
ghost use Rattle.sc_base.specs.NameTexts.{begins_name, continues_name, IsNameText};

/// Whether a name may begin with the byte: an ASCII letter or `_`.
pub fn begins_name(byte: u8) -> bool
    ensures { result ≡ begins_name byte }
{
    byte.is_ascii_alphabetic() || byte == b'_'
}

/// Whether the byte may stand in a name behind the first: an ASCII letter, a digit or `_`.
pub fn continues_name(byte: u8) -> bool
    ensures { result ≡ continues_name byte }
{
    byte.is_ascii_alphanumeric() || byte == b'_'
}

/// Whether the text is a name: a letter or `_`, and then letters, digits and `_`. The empty text is none.
pub fn is_name_text(text: &[u8]) -> bool
    ensures { IsTrue result ↔ IsNameText text.now }
{
    match text {
        [] => false,
        [first, rest @ ..] => begins_name(*first) && rest.iter().all(|byte| continues_name(*byte)),
    }
}
