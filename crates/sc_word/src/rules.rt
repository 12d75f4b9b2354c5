//! The rules on widths, each with the place of its fault.
ghost use Rattle.std.specs.Prelude.{◌≡◌, [], ◌∷◌, map};
ghost use Rattle.std.specs.Result.{result_err};
ghost use Rattle.sc_word.specs.Forms.{amount, shared};
ghost use Rattle.sc_word.specs.Checks.{first_fault, width_rule, in_bounds, no_literal, meet, op_fits, bare_test, wide_test, shift_fits, ext_checks, low_checks, result_fits};

use crate::operand::{Form, fits};
use crate::tree::WordFault;
use sc_base::Place;
use sc_syntax::{ShiftLink, Width, WordOp};

pub(crate) fn width_rule(at: Place, holds: bool) -> Result<(), WordFault>
    ensures { result_err result ≡ first_fault (width_rule at holds ∷ []) }
{
    if holds {
        Ok(())
    } else {
        Err(WordFault::BadWidth(at))
    }
}

pub(crate) fn amount(width: Width) -> u64
    ensures { result ≡ amount width }
{
    width.value.unsigned_abs()
}

pub(crate) fn in_bounds(width: Width) -> Result<(), WordFault>
    ensures { result_err result ≡ first_fault (in_bounds width ∷ []) }
{
    let stated = amount(width);
    width_rule(width.place, 1 <= stated && stated <= 64)
}

pub(crate) fn no_literal(at: Place, form: Form) -> Result<(), WordFault>
    ensures { result_err result ≡ first_fault (no_literal at form ∷ []) }
{
    match form {
        Form::Bare(_) => Err(WordFault::BadWidth(at)),
        Form::Wide(_) => Ok(()),
    }
}

pub(crate) fn meet(
    at: Place,
    left_at: Place,
    left: Form,
    right_at: Place,
    right: Form,
) -> Result<(), WordFault>
    ensures { result_err result ≡ first_fault (meet at left_at left right_at right ∷ []) }
{
    match left {
        Form::Bare(value) => match right {
            Form::Bare(_) => Err(WordFault::BadWidth(at)),
            Form::Wide(width) => width_rule(left_at, fits(value, u64::from(width))),
        },
        Form::Wide(width) => match right {
            Form::Bare(value) => width_rule(right_at, fits(value, u64::from(width))),
            Form::Wide(other) => width_rule(at, width == other),
        },
    }
}

pub(crate) fn own_width(form: Form) -> u32
    ensures { result ≡ Rattle.sc_word.specs.Forms.own_width form }
{
    match form {
        Form::Bare(_) => 0,
        Form::Wide(width) => width,
    }
}

pub(crate) fn shared(left: Form, right: Form) -> u32
    ensures { result ≡ shared left right }
{
    match left {
        Form::Bare(_) => own_width(right),
        Form::Wide(width) => width,
    }
}

pub(crate) fn op_fits(at: Place, op: WordOp, width: u32) -> Result<(), WordFault>
    ensures { result_err result ≡ first_fault (op_fits at op width ∷ []) }
{
    match op {
        WordOp::Mul => width_rule(at, width <= 32),
        _ => Ok(()),
    }
}

/// The rules of an operator on what stands to its left and to its right.
pub(crate) fn join_fits(
    at: Place,
    left_at: Place,
    left: Form,
    op: WordOp,
    right_at: Place,
    right: Form,
) -> Result<(), WordFault>
    ensures { result_err result ≡ first_fault (meet at left_at left right_at right ∷ op_fits at op (shared left right) ∷ []) }
{
    meet(at, left_at, left, right_at, right)?;
    op_fits(at, op, shared(left, right))
}

pub(crate) fn shifts_fit(links: &[ShiftLink]) -> Result<(), WordFault>
    ensures { result_err result ≡ first_fault (map shift_fits links.now) }
{
    for link in links {
        width_rule(link.by.place, amount(link.by) <= 64)?;
    }
    Ok(())
}

/// The rules of `?:` on its three operands.
pub(crate) fn pick_fits(
    test_at: Place,
    test: Form,
    yes_at: Place,
    yes: Form,
    no_at: Place,
    no: Form,
) -> Result<(), WordFault>
    ensures { result_err result ≡ first_fault (bare_test test_at test ∷ meet test_at yes_at yes no_at no ∷ wide_test test_at test ∷ []) }
{
    match test {
        Form::Bare(value) => {
            width_rule(test_at, value < 2)?;
            meet(test_at, yes_at, yes, no_at, no)
        }
        Form::Wide(width) => {
            meet(test_at, yes_at, yes, no_at, no)?;
            width_rule(test_at, width == 1)
        }
    }
}

pub(crate) fn ext_fits(at: Place, form: Form, width: Width) -> Result<(), WordFault>
    ensures { result_err result ≡ first_fault (ext_checks at form width) }
{
    match form {
        Form::Bare(value) => {
            width_rule(at, fits(value, amount(width)))?;
            in_bounds(width)
        }
        Form::Wide(own) => {
            in_bounds(width)?;
            width_rule(width.place, u64::from(own) <= amount(width))
        }
    }
}

pub(crate) fn low_fits(at: Place, form: Form, width: Width) -> Result<(), WordFault>
    ensures { result_err result ≡ first_fault (low_checks at form width) }
{
    no_literal(at, form)?;
    width_rule(width.place, 1 <= amount(width))?;
    width_rule(width.place, amount(width) <= u64::from(own_width(form)))
}

pub(crate) fn result_fits(at: Place, form: Form, width: u32) -> Result<(), WordFault>
    ensures { result_err result ≡ first_fault (result_fits at form width ∷ []) }
{
    match form {
        Form::Bare(value) => width_rule(at, fits(value, u64::from(width))),
        Form::Wide(own) => width_rule(at, own == width),
    }
}
