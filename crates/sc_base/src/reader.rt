//! What a text begins with, read strictly: fixed texts, and numbers as they are written.
ghost use Rattle.std.specs.Prelude.{◌≡◌, ℕ, ◌<◌, ◌≤◌, ◌^◌, ◌++◌, List as Values, ◌∷◌, ◌+◌, ◌-◌, take, drop, length, decimal, IfSome, IfNone, ℤ, pos, negsuc};
ghost use Rattle.std.specs.Str.Parse.{AllDigits};
ghost use Rattle.sc_base.specs.Decimals.{units_text, fixed_text};
ghost use Rattle.sc_base.specs.Numerals.{EndsNumber, IsWhole, WholeFront, IsValueOf, IntFront, FixedFront, number_line};

use crate::{Fixed, read_u64, read_units, write_fixed};

/// A whole number in a text.
#[derive(Clone, Copy, Debug, PartialEq, Eq)]
pub enum Whole {
    /// It is at most 18446744073709551615.
    Fits(u64),
    /// It has more than 64 bits.
    Past,
}

/// What follows the text, if the bytes begin with it.
pub fn take_text<'a>(bytes: &'a [u8], text: &[u8]) -> Option<&'a [u8]>
    ensures some { IfSome result (λ more. bytes.now ≡ text.now ++ more.now) }
    ensures none { IfNone result ((more : Values ℕ) → bytes.now ≡ text.now ++ more → ⊥) }
{
    bytes.strip_prefix(text)
}

/// Where the digits at the front end.
fn digits_end(bytes: &[u8]) -> usize
    ensures bound { result ≤ length bytes.now }
    ensures digits { AllDigits 10 (take result bytes.now) }
    ensures ends { EndsNumber (drop result bytes.now) }
{
    for (i, byte) in bytes.iter().enumerate() {
        if !byte.is_ascii_digit() {
            return i;
        }
    }
    bytes.len()
}

/// The number that the digits write, where there is a digit and a zero in front stands alone.
fn whole_of(digits: &[u8]) -> Option<Whole>
    requires { AllDigits 10 digits.now }
    ensures whole { IfSome result (λ number. IsWhole digits.now) }
    ensures value { IfSome result (λ number. IsValueOf digits.now number) }
    ensures none { IfNone result (IsWhole digits.now → ⊥) }
{
    if digits.is_empty() {
        return None;
    }
    if digits.len() > 1 && digits[0] == b'0' {
        return None;
    }
    match read_u64(digits) {
        Some(number) => Some(Whole::Fits(number)),
        None => Some(Whole::Past),
    }
}

/// The whole number with which the bytes begin, and what follows it: digits without zeros in front, of any
/// number, before the end or a byte that is no digit. None where the bytes begin with no such number.
pub fn take_whole(bytes: &[u8]) -> Option<(Whole, &[u8])>
    ensures some { IfSome result (λ r. (digits : Values ℕ) × WholeFront bytes.now digits r.1.now × IsValueOf digits r.0) }
    ensures none { IfNone result ((digits rest : Values ℕ) → WholeFront bytes.now digits rest → ⊥) }
{
    let end = digits_end(bytes);
    match whole_of(&bytes[..end]) {
        Some(number) => Some((number, &bytes[end..])),
        None => None,
    }
}

/// The number below 2^64 with which the bytes begin, and what follows it: digits without zeros in front, before
/// the end or a byte that is no digit. None where the bytes begin with no such number.
pub fn take_number(bytes: &[u8]) -> Option<(u64, &[u8])>
    ensures some { IfSome result (λ r. bytes.now ≡ decimal r.0 ++ r.1.now) }
    ensures small { IfSome result (λ r. r.0 < 2 ^ 64) }
    ensures ends { IfSome result (λ r. EndsNumber r.1.now) }
    ensures none { IfNone result ((number : ℕ) (more : Values ℕ) → number < 2 ^ 64 → EndsNumber more → bytes.now ≡ decimal number ++ more → ⊥) }
{
    let Some((whole, rest)) = take_whole(bytes) else {
        return None;
    };
    match whole {
        Whole::Fits(number) => Some((number, rest)),
        Whole::Past => None,
    }
}

/// The number from `low` to `high` with whose line the bytes begin, and what follows the line. The line is the
/// word, a space, the number without zeros in front, and a line feed.
pub fn take_number_line<'a>(
    bytes: &'a [u8],
    word: &[u8],
    low: u64,
    high: u64,
) -> Option<(u64, &'a [u8])>
    ensures some { IfSome result (λ r. bytes.now ≡ number_line word.now r.0 ++ r.1.now) }
    ensures allowed { IfSome result (λ r. (low ≤ r.0) × (r.0 ≤ high)) }
    ensures none { IfNone result ((n : ℕ) (more : Values ℕ) → low ≤ n → n ≤ high → bytes.now ≡ number_line word.now n ++ more → ⊥) }
{
    let Some(after_word) = take_text(bytes, word) else {
        return None;
    };
    let Some(after_space) = take_text(after_word, b" ") else {
        return None;
    };
    let Some((number, after_number)) = take_number(after_space) else {
        return None;
    };
    if number < low || number > high {
        return None;
    }
    match take_text(after_number, b"\n") {
        Some(more) => Some((number, more)),
        None => None,
    }
}

/// The number of 64 bits with sign with which the bytes begin, and what follows it: no plus, no zeros in front, no
/// `-0`, before the end or a byte that is no digit. None where the bytes begin with no such number.
pub fn take_int(bytes: &[u8]) -> Option<(i64, &[u8])>
    ensures some { IfSome result (λ r. IntFront bytes.now r.0 r.1.now) }
    ensures none { IfNone result ((z : ℤ) (rest : Values ℕ) → IntFront bytes.now z rest → ⊥) }
{
    match take_text(bytes, b"-") {
        Some(after_minus) => take_negative(after_minus),
        None => take_positive(bytes),
    }
}

/// The number behind its minus.
fn take_negative(bytes: &[u8]) -> Option<(i64, &[u8])>
    ensures some { IfSome result (λ r. IntFront (45 ∷ bytes.now) r.0 r.1.now) }
    ensures none { IfNone result ((z : ℤ) (rest : Values ℕ) → IntFront (45 ∷ bytes.now) z rest → ⊥) }
{
    let Some((number, rest)) = take_number(bytes) else {
        return None;
    };
    match negative(number) {
        Some(value) => Some((value, rest)),
        None => None,
    }
}

/// The number without a minus.
fn take_positive(bytes: &[u8]) -> Option<(i64, &[u8])>
    requires { (more : Values ℕ) → bytes.now ≡ 45 ∷ more → ⊥ }
    ensures some { IfSome result (λ r. IntFront bytes.now r.0 r.1.now) }
    ensures none { IfNone result ((z : ℤ) (rest : Values ℕ) → IntFront bytes.now z rest → ⊥) }
{
    let Some((number, rest)) = take_number(bytes) else {
        return None;
    };
    match positive(number) {
        Some(value) => Some((value, rest)),
        None => None,
    }
}

/// The number with a minus, where it is not 0 and has 64 bits.
fn negative(number: u64) -> Option<i64>
    ensures some { IfSome result (λ z. (0 < number) × (number ≤ 2 ^ 63) × (z ≡ negsuc (number - 1))) }
    ensures none { IfNone result (0 < number → 2 ^ 63 < number) }
{
    if number == 0 || number > 1 << 63 {
        return None;
    }
    Some(-1 - (number - 1) as i64)
}

/// The number, where it has 64 bits with its sign.
fn positive(number: u64) -> Option<i64>
    ensures some { IfSome result (λ z. (number < 2 ^ 63) × (z ≡ pos number)) }
    ensures none { IfNone result (2 ^ 63 ≤ number) }
{
    if number > i64::MAX as u64 {
        return None;
    }
    Some(number as i64)
}

/// The fixed-point number with whose text the bytes begin, with exactly twelve decimals and no
/// `-0.000000000000`, and what follows it. None where the bytes begin with no such text.
pub fn take_fixed(bytes: &[u8]) -> Option<(Fixed, &[u8])>
    ensures some { IfSome result (λ r. bytes.now ≡ fixed_text r.0.0 ++ r.1.now) }
    ensures none { IfNone result ((z : ℤ) (rest : Values ℕ) → FixedFront bytes.now z rest → ⊥) }
{
    let Some(value) = only_fixed(bytes) else {
        return None;
    };
    let mut buffer = [0; 24];
    let count = write_fixed(value, &mut buffer);
    match take_text(bytes, &buffer[..count]) {
        Some(rest) => Some((value, rest)),
        None => None,
    }
}

/// The one fixed-point number with whose text the bytes may begin.
fn only_fixed(bytes: &[u8]) -> Option<Fixed>
    ensures some { IfSome result (λ value. (z : ℤ) (rest : Values ℕ) → FixedFront bytes.now z rest → value.0 ≡ z) }
    ensures none { IfNone result ((z : ℤ) (rest : Values ℕ) → FixedFront bytes.now z rest → ⊥) }
{
    match take_text(bytes, b"-") {
        Some(after_minus) => only_negative(after_minus),
        None => only_positive(bytes),
    }
}

/// The one such number behind its minus.
fn only_negative(bytes: &[u8]) -> Option<Fixed>
    ensures some { IfSome result (λ value. (z : ℤ) (rest : Values ℕ) → FixedFront (45 ∷ bytes.now) z rest → value.0 ≡ z) }
    ensures none { IfNone result ((z : ℤ) (rest : Values ℕ) → FixedFront (45 ∷ bytes.now) z rest → ⊥) }
{
    let Some(units) = only_units(bytes) else {
        return None;
    };
    match negative(units) {
        Some(value) => Some(Fixed(value)),
        None => None,
    }
}

/// The one such number without a minus.
fn only_positive(bytes: &[u8]) -> Option<Fixed>
    requires { (more : Values ℕ) → bytes.now ≡ 45 ∷ more → ⊥ }
    ensures some { IfSome result (λ value. (z : ℤ) (rest : Values ℕ) → FixedFront bytes.now z rest → value.0 ≡ z) }
    ensures none { IfNone result ((z : ℤ) (rest : Values ℕ) → FixedFront bytes.now z rest → ⊥) }
{
    let Some(units) = only_units(bytes) else {
        return None;
    };
    match positive(units) {
        Some(value) => Some(Fixed(value)),
        None => None,
    }
}

/// The one number of units with whose text the bytes may begin.
fn only_units(bytes: &[u8]) -> Option<u64>
    ensures some { IfSome result (λ units. (n : ℕ) (rest : Values ℕ) → n < 2 ^ 64 → bytes.now ≡ units_text n ++ rest → units ≡ n) }
    ensures none { IfNone result ((n : ℕ) (rest : Values ℕ) → n < 2 ^ 64 → bytes.now ≡ units_text n ++ rest → ⊥) }
{
    let end = digits_end(bytes);
    if bytes.len() - end < 13 {
        return None;
    }
    read_units(&bytes[..end + 13])
}
