//! What each form of an expression makes of its operands.
ghost use Rattle.std.specs.Prelude.{◌≡◌, ◌≢◌, [], ◌∷◌, Some, None, OnOk, IfOk, IfErr, map};
ghost use Rattle.sc_word.specs.Forms.{amount as stated};
ghost use Rattle.sc_word.specs.Checks.{first_fault, no_literal, shift_fits, bare_test, meet, wide_test, ext_checks, low_checks};
ghost use Rattle.sc_word.specs.Operands.{form_of, IsNot, IsShift, IsPick, IsExt, IsLow};

use crate::operand::{Operand, boxed, form_of, with_width};
use crate::rules::{
    amount, ext_fits, low_fits, no_literal, own_width, pick_fits, shared, shifts_fit,
};
use crate::tree::{TypedExpr, TypedNode, WordFault};
use sc_base::{List, Place};
use sc_syntax::{ShiftLink, Width};
use std::alloc::Global;

/// `~` before the operand at `at`.
pub(crate) fn negated(alloc: Global, at: Place, operand: Operand) -> Result<Operand, WordFault>
    ensures ok { IfOk result (IsNot operand) }
    ensures none { OnOk result (first_fault (no_literal at (form_of operand) ∷ []) ≡ None) }
    ensures err { IfErr result (λ f. f ≢ WordFault.Memory → first_fault (no_literal at (form_of operand) ∷ []) ≡ Some f) }
{
    let form = form_of(&operand);
    no_literal(at, form)?;
    let width = own_width(form);
    let word = boxed(alloc, with_width(operand, width))?;
    Ok(Operand::Word(TypedExpr {
        width,
        node: TypedNode::Not(word),
    }))
}

fn copied(alloc: Global, links: &List<ShiftLink>) -> Result<List<ShiftLink>, WordFault>
    ensures ok { IfOk result (λ r. r ≡ links.now) }
    ensures err { IfErr result (λ f. f ≡ WordFault.Memory) }
{
    match links.as_slice().to_vec(alloc) {
        Ok(items) => Ok(List::from_vec(items)),
        Err(_) => Err(WordFault::Memory),
    }
}

/// The operand at `at`, shifted.
pub(crate) fn shifted(
    alloc: Global,
    at: Place,
    operand: Operand,
    links: &List<ShiftLink>,
) -> Result<Operand, WordFault>
    ensures ok { IfOk result (IsShift operand links.now) }
    ensures none { OnOk result (first_fault (no_literal at (form_of operand) ∷ map shift_fits links.now) ≡ None) }
    ensures err { IfErr result (λ f. f ≢ WordFault.Memory → first_fault (no_literal at (form_of operand) ∷ map shift_fits links.now) ≡ Some f) }
{
    let form = form_of(&operand);
    no_literal(at, form)?;
    shifts_fit(links.as_slice())?;
    let width = own_width(form);
    let word = boxed(alloc, with_width(operand, width))?;
    let links = copied(alloc, links)?;
    Ok(Operand::Word(TypedExpr {
        width,
        node: TypedNode::Shift(word, links),
    }))
}

/// `test ? yes : no`, each operand with its place.
pub(crate) fn picked(
    alloc: Global,
    test_at: Place,
    test: Operand,
    yes_at: Place,
    yes: Operand,
    no_at: Place,
    no: Operand,
) -> Result<Operand, WordFault>
    ensures ok { IfOk result (IsPick test yes no) }
    ensures none { OnOk result (first_fault (bare_test test_at (form_of test) ∷ meet test_at yes_at (form_of yes) no_at (form_of no) ∷ wide_test test_at (form_of test) ∷ []) ≡ None) }
    ensures err { IfErr result (λ f. f ≢ WordFault.Memory → first_fault (bare_test test_at (form_of test) ∷ meet test_at yes_at (form_of yes) no_at (form_of no) ∷ wide_test test_at (form_of test) ∷ []) ≡ Some f) }
{
    let yes_form = form_of(&yes);
    let no_form = form_of(&no);
    pick_fits(test_at, form_of(&test), yes_at, yes_form, no_at, no_form)?;
    let width = shared(yes_form, no_form);
    let test_word = boxed(alloc, with_width(test, 1))?;
    let yes_word = boxed(alloc, with_width(yes, width))?;
    let no_word = boxed(alloc, with_width(no, width))?;
    Ok(Operand::Word(TypedExpr {
        width,
        node: TypedNode::Pick(test_word, yes_word, no_word),
    }))
}

fn widened(alloc: Global, operand: Operand, width: u32) -> Result<Operand, WordFault>
    ensures ok { IfOk result (IsExt operand width) }
    ensures err { IfErr result (λ f. f ≡ WordFault.Memory) }
{
    match operand {
        Operand::Bare(value) => Ok(Operand::Word(TypedExpr {
            width,
            node: TypedNode::Literal(value),
        })),
        Operand::Word(word) => {
            let word = boxed(alloc, word)?;
            Ok(Operand::Word(TypedExpr {
                width,
                node: TypedNode::Ext(word),
            }))
        }
    }
}

/// `ext` of the operand at `at`.
pub(crate) fn extended(
    alloc: Global,
    at: Place,
    operand: Operand,
    width: Width,
) -> Result<Operand, WordFault>
    ensures ok { IfOk result (IsExt operand (stated width)) }
    ensures none { OnOk result (first_fault (ext_checks at (form_of operand) width) ≡ None) }
    ensures err { IfErr result (λ f. f ≢ WordFault.Memory → first_fault (ext_checks at (form_of operand) width) ≡ Some f) }
{
    ext_fits(at, form_of(&operand), width)?;
    widened(alloc, operand, amount(width) as u32)
}

/// `low` of the operand at `at`.
pub(crate) fn lowered(
    alloc: Global,
    at: Place,
    operand: Operand,
    width: Width,
) -> Result<Operand, WordFault>
    ensures ok { IfOk result (IsLow operand (stated width)) }
    ensures none { OnOk result (first_fault (low_checks at (form_of operand) width) ≡ None) }
    ensures err { IfErr result (λ f. f ≢ WordFault.Memory → first_fault (low_checks at (form_of operand) width) ≡ Some f) }
{
    let form = form_of(&operand);
    low_fits(at, form, width)?;
    let word = boxed(alloc, with_width(operand, own_width(form)))?;
    Ok(Operand::Word(TypedExpr {
        width: amount(width) as u32,
        node: TypedNode::Low(word),
    }))
}
