//! The first line of a module: its number and its signature, read strictly.
ghost use Rattle.std.specs.Prelude.{◌≡◌, ◌≢◌, ◌≤◌, ◌++◌, ◌∷◌, [], ℕ, List as Values, All, IfOk, IfSome, IfNone, decimal, codes, ℤ, FitsSigned};
ghost use Rattle.std.specs.Fmt.{signed_decimal};
ghost use Rattle.std.specs.Int.{w64};
ghost use Rattle.std.specs.Str.Parse.{digits_value};
ghost use Rattle.sc_base.specs.Decimals.{fixed_text};
ghost use Rattle.sc_base.specs.declared.names.Class.{Class as ClassValue};
ghost use Rattle.sc_base.specs.NameTexts.{IsNameText};
ghost use Rattle.sc_base.specs.Numerals.{WholeFront};
ghost use Rattle.sc_gate.specs.Lines.{class_letter};
ghost use Rattle.sc_deck.specs.declared.key.Arg.{Arg as ArgValue};
ghost use Rattle.sc_deck.specs.declared.key.Key.{Key as KeyValue};
ghost use Rattle.sc_read.specs.HierFronts.{LengthFront, ReadsArg, ReadsArgs, ReadsHeading, parts_of};

use crate::gate_line::take_class;
use sc_base::{
    Class, Fixed, List, Memory, Text, Whole, is_name_text, take_fixed, take_int, take_number,
    take_text, take_whole,
};
use sc_deck::{Arg, Key};
use std::alloc::Global;

/// The key of the module with this number whose first line this is. None where the line is not in its place.
pub(crate) fn heading(alloc: Global, line: &[u8], number: u32) -> Result<Option<Key>, Memory>
    ensures some { IfOk result (λ r. IfSome r (λ key. ReadsHeading number line.now key)) }
    ensures none { IfOk result (λ r. IfNone r ((key : KeyValue) → ReadsHeading number line.now key → ⊥)) }
{
    let Some(signature) = take_module_word(line, number) else {
        return Ok(None);
    };
    let Some((name, inside)) = cut_signature(signature) else {
        return Ok(None);
    };
    let Some(args) = args_of(alloc, inside)? else {
        return Ok(None);
    };
    let mut text = Text::new(alloc);
    text.push_bytes(name)?;
    Ok(Some(Key { name: text, args }))
}

/// What follows the word, the number and a space, where the line begins with them.
fn take_module_word(line: &[u8], number: u32) -> Option<&[u8]>
    ensures some { IfSome result (λ rest. line.now ≡ codes "module " ++ decimal number ++ codes " " ++ rest.now) }
    ensures none { IfNone result ((rest : Values ℕ) → line.now ≡ codes "module " ++ decimal number ++ codes " " ++ rest → ⊥) }
{
    let Some(after_word) = take_text(line, b"module ") else {
        return None;
    };
    let Some((found, after_number)) = take_number(after_word) else {
        return None;
    };
    if found != number as u64 {
        return None;
    }
    take_text(after_number, b" ")
}

/// The name before the first parenthesis, and what stands behind it up to the last.
fn cut_signature(bytes: &[u8]) -> Option<(&[u8], &[u8])>
    ensures some { IfSome result (λ r. bytes.now ≡ r.0.now ++ 40 ∷ (r.1.now ++ 41 ∷ 10 ∷ [])) }
    ensures name { IfSome result (λ r. IsNameText r.0.now) }
    ensures none { IfNone result ((name inside : Values ℕ) → IsNameText name → bytes.now ≡ name ++ 40 ∷ (inside ++ 41 ∷ 10 ∷ []) → ⊥) }
{
    let Some((name, behind)) = cut_byte(bytes, b'(') else {
        return None;
    };
    let Some(inside) = cut_end(behind, b")\n") else {
        return None;
    };
    if is_name_text(name) {
        Some((name, inside))
    } else {
        None
    }
}

/// The bytes before the first such byte, and what follows it.
fn cut_byte(bytes: &[u8], mark: u8) -> Option<(&[u8], &[u8])>
    ensures some { IfSome result (λ r. bytes.now ≡ r.0.now ++ mark ∷ r.1.now) }
    ensures first { IfSome result (λ r. All (λ byte. byte ≢ mark) r.0.now) }
    ensures none { IfNone result (All (λ byte. byte ≢ mark) bytes.now) }
{
    for (i, byte) in bytes.iter().enumerate() {
        if *byte == mark {
            return Some((&bytes[..i], &bytes[i + 1..]));
        }
    }
    None
}

/// What stands before the text, if the bytes end with it.
fn cut_end<'a>(bytes: &'a [u8], text: &[u8]) -> Option<&'a [u8]>
    ensures some { IfSome result (λ front. bytes.now ≡ front.now ++ text.now) }
    ensures none { IfNone result ((front : Values ℕ) → bytes.now ≡ front ++ text.now → ⊥) }
{
    bytes.strip_suffix(text)
}

/// The arguments between the parentheses.
fn args_of(alloc: Global, inside: &[u8]) -> Result<Option<List<Arg>>, Memory>
    ensures some { IfOk result (λ r. IfSome r (λ args. ReadsArgs (parts_of inside.now) args)) }
    ensures none { IfOk result (λ r. IfNone r ((args : Values ArgValue) → ReadsArgs (parts_of inside.now) args → ⊥)) }
{
    let mut args = List::new(alloc);
    if inside.is_empty() {
        return Ok(Some(args));
    }
    let mut rest = inside;
    while let Some((part, more)) = cut_byte(rest, b',') {
        let Some(arg) = arg_of(part) else {
            return Ok(None);
        };
        args.push(arg)?;
        rest = more;
    }
    let Some(arg) = arg_of(rest) else {
        return Ok(None);
    };
    args.push(arg)?;
    Ok(Some(args))
}

/// The argument whose text this is.
fn arg_of(text: &[u8]) -> Option<Arg>
    ensures some { IfSome result (λ arg. ReadsArg text.now arg) }
    ensures none { IfNone result ((arg : ArgValue) → ReadsArg text.now arg → ⊥) }
{
    match take_class(text) {
        Some((class, rest)) => array_of(class, rest),
        None => value_of(text),
    }
}

/// One wire, or an array where its length stands in brackets behind the letter.
fn array_of(class: Class, text: &[u8]) -> Option<Arg>
    ensures some { IfSome result (λ arg. ReadsArg (class_letter class ∷ text.now) arg) }
    ensures none { IfNone result ((arg : ArgValue) → ReadsArg (class_letter class ∷ text.now) arg → ⊥) }
{
    if text.is_empty() {
        return Some(Arg::One(class));
    }
    let Some(after_bracket) = take_text(text, b"[") else {
        return None;
    };
    let Some((length, rest)) = take_length(after_bracket) else {
        return None;
    };
    if rest == b"]".as_slice() {
        Some(Arg::Many(class, length))
    } else {
        None
    }
}

/// A number of wires of any number of digits, at least 1, and what follows it; one past 4,294,967,295 is kept as that.
pub(crate) fn take_length(bytes: &[u8]) -> Option<(u32, &[u8])>
    ensures some { IfSome result (λ r. LengthFront bytes.now r.0 r.1.now) }
    ensures none { IfNone result ((digits rest : Values ℕ) → WholeFront bytes.now digits rest → 1 ≤ digits_value 10 digits → ⊥) }
{
    let Some((number, rest)) = take_whole(bytes) else {
        return None;
    };
    match number {
        Whole::Fits(length) => {
            if length == 0 {
                None
            } else {
                Some((length.min(u32::MAX as u64) as u32, rest))
            }
        }
        Whole::Past => Some((u32::MAX, rest)),
    }
}

/// The `int` or the `double` whose text this is.
fn value_of(text: &[u8]) -> Option<Arg>
    requires { (class : ClassValue) (more : Values ℕ) → text.now ≡ class_letter class ∷ more → ⊥ }
    ensures some { IfSome result (λ arg. ReadsArg text.now arg) }
    ensures none { IfNone result ((arg : ArgValue) → ReadsArg text.now arg → ⊥) }
{
    if let Some(value) = double_of(text) {
        return Some(Arg::Double(value));
    }
    match int_of(text) {
        Some(value) => Some(Arg::Int(value)),
        None => None,
    }
}

/// The `double` whose text this is.
fn double_of(text: &[u8]) -> Option<Fixed>
    ensures some { IfSome result (λ x. (text.now ≡ fixed_text x.0) × FitsSigned w64 x.0) }
    ensures none { IfNone result ((x : ℤ) → FitsSigned w64 x → text.now ≡ fixed_text x → ⊥) }
{
    match take_fixed(text) {
        Some((value, rest)) if rest.is_empty() => Some(value),
        _ => None,
    }
}

/// The `int` whose text this is.
fn int_of(text: &[u8]) -> Option<i64>
    ensures some { IfSome result (λ n. (text.now ≡ signed_decimal n) × FitsSigned w64 n) }
    ensures none { IfNone result ((n : ℤ) → FitsSigned w64 n → text.now ≡ signed_decimal n → ⊥) }
{
    match take_int(text) {
        Some((value, rest)) if rest.is_empty() => Some(value),
        _ => None,
    }
}
