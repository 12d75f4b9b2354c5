//! Whole numbers and fixed-point numbers as decimal text, and back.
ghost use Rattle.std.specs.Prelude.{◌≡◌, ◌≤ℤ◌, ℕ, ◌+◌, ◌^◌, ◌<◌, ◌≤◌, ◌++◌, ◌==◌, length, take, drop, pos, position, decimal, unsigned_abs, IfSome, IfNone, SomeIff};
ghost use Rattle.std.specs.Char.{is_ascii_digit};
ghost use Rattle.std.specs.Fmt.{sign_text};
ghost use Rattle.std.specs.Int.{is_negative};
ghost use Rattle.std.specs.List.{list_all};
ghost use Rattle.std.specs.Str.Parse.{AllDigits, IsNumeral, digits_value, digits_value_after};
ghost use Rattle.sc_base.specs.Decimals.{IsDecimal, twelve, twelve_digits, fixed_text};

use crate::Fixed;
use itoa::{Buffer, write_digits};

/// How many decimals a fixed-point number has.
const DECIMALS: usize = 12;

/// The units of the number 1.
const ONE: u64 = 1_000_000_000_000;

/// Writes the decimal text of a number at the front of `buf`, with no leading zeros, and answers its
/// length, at most 39. The rest of `buf` is left unchanged.
pub fn put_u128(value: u128, buf: &mut [u8; 40]) -> usize
    ensures text { take result buf.new ≡ decimal value }
    ensures count { result ≡ length (decimal value) }
    ensures short { result ≤ 39 }
    ensures rest { drop result buf.new ≡ drop result buf.old }
{
    let mut digits = Buffer::new();
    put_at(buf, 0, digits.format(value).as_bytes())
}

/// Copies the text into the buffer from `at` on, and answers where it ends.
fn put_at(buf: &mut [u8], at: usize, text: &[u8]) -> usize
    requires { at + length text.now ≤ length buf.old }
    ensures end { result ≡ at + length text.now }
    ensures written { take result buf.new ≡ take at buf.old ++ text.now }
    ensures rest { drop result buf.new ≡ drop result buf.old }
{
    let end = at + text.len();
    buf[at..end].copy_from_slice(text);
    end
}

/// Reads digits as a whole number. It answers None exactly where there is no byte, a byte is no digit, or the
/// number is past 18446744073709551615. Leading zeros may stand.
pub fn read_u64(bytes: &[u8]) -> Option<u64>
    ensures { SomeIff result (IsNumeral 10 bytes.now × (digits_value 10 bytes.now < 2 ^ 64)) (digits_value 10 bytes.now) }
{
    if bytes.is_empty() {
        return None;
    }
    number_after(0, bytes)
}

/// The number that the digits write when they follow those of `start`.
fn number_after(start: u64, digits: &[u8]) -> Option<u64>
    ensures { SomeIff result (AllDigits 10 digits.now × (digits_value_after 10 start digits.now < 2 ^ 64)) (digits_value_after 10 start digits.now) }
{
    let mut number = start;
    for digit in digits {
        if !digit.is_ascii_digit() {
            return None;
        }
        number = number
            .checked_mul(10)?
            .checked_add(u64::from(*digit - b'0'))?;
    }
    Some(number)
}

/// Reads a decimal literal, one digit or more with exactly one point before, behind or among them. Decimals
/// after the twelfth are dropped. It answers None exactly where the bytes are no such literal or the value is
/// past 9223372036854775807 units of 10^-12.
pub fn read_fixed(bytes: &[u8]) -> Option<Fixed>
    ensures some { IfSome result (λ value. (units : ℕ) × (value.0 ≡ pos units) × IsDecimal bytes.now units) }
    ensures none { IfNone result ((units : ℕ) → IsDecimal bytes.now units → 2 ^ 63 ≤ units) }
{
    let units = read_units(bytes)?;
    if units > i64::MAX as u64 {
        return None;
    }
    Some(Fixed(units as i64))
}

/// Reads a decimal literal as `read_fixed` does, and answers its value in units of 10^-12. It answers None
/// exactly where the bytes are no such literal or the value is past 18446744073709551615 units.
pub fn read_units(bytes: &[u8]) -> Option<u64>
    ensures some { IfSome result (λ units. IsDecimal bytes.now units) }
    ensures none { IfNone result ((units : ℕ) → IsDecimal bytes.now units → 2 ^ 64 ≤ units) }
{
    let point = find_point(bytes)?;
    let (whole, decimals) = (&bytes[..point], &bytes[point + 1..]);
    if bytes.len() == 1 || !is_digits(decimals) {
        return None;
    }
    number_after(number_after(0, whole)?, &cut_to_twelve(decimals))
}

/// The place of the first point.
fn find_point(bytes: &[u8]) -> Option<usize>
    ensures { result ≡ position (λ byte. byte == 46) bytes.now }
{
    bytes.iter().position(|byte| *byte == b'.')
}

fn is_digits(bytes: &[u8]) -> bool
    ensures { result ≡ list_all is_ascii_digit bytes.now }
{
    bytes.iter().all(|byte| byte.is_ascii_digit())
}

/// The first twelve decimals, and zeros for missing ones.
fn cut_to_twelve(decimals: &[u8]) -> [u8; 12]
    ensures { result ≡ twelve decimals.now }
{
    let mut kept = [b'0'; DECIMALS];
    let count = decimals.len().min(DECIMALS);
    kept[..count].copy_from_slice(&decimals[..count]);
    kept
}

/// Writes a fixed-point number at the front of `buf`: a minus where it is negative, the whole part, a point and
/// exactly twelve decimals. It answers the length, at most 21. The rest of `buf` is left unchanged.
pub fn write_fixed(value: Fixed, buf: &mut [u8; 24]) -> usize
    ensures text { take result buf.new ≡ fixed_text value.0 }
    ensures count { result ≡ length (fixed_text value.0) }
    ensures short { result ≤ 21 }
    ensures rest { drop result buf.new ≡ drop result buf.old }
    ensures read_back { pos 0 ≤ℤ value.0 → IsDecimal (take result buf.new) (unsigned_abs value.0) }
{
    let units = value.0.unsigned_abs();
    let mut whole = Buffer::new();
    let at = put_at(buf, 0, sign(value.0));
    let at = put_at(buf, at, whole.format(units / ONE).as_bytes());
    let at = put_at(buf, at, b".");
    put_at(buf, at, &decimals_of(units % ONE))
}

/// A minus before a negative number, and nothing before another.
fn sign(units: i64) -> &'static [u8]
    ensures text { result.now ≡ sign_text (is_negative units) }
    ensures short { length result.now ≤ 1 }
{
    if units < 0 { b"-" } else { b"" }
}

/// A number below 10^12 as exactly twelve digits.
fn decimals_of(units: u64) -> [u8; 12]
    requires { units < 10 ^ 12 }
    ensures { result ≡ twelve_digits units }
{
    let mut digits = [b'0'; DECIMALS];
    write_digits(units, &mut digits, DECIMALS);
    digits
}
