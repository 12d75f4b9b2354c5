//! Typed functions.
ghost use Rattle.std.specs.Prelude.{◌≡◌, ◌≢◌, ◌≤◌, ◌<◌, ◌+◌, ◌^◌, [], ◌∷◌, ◌++◌, map, length, Some, None, OnOk, IfOk, IfErr, sum_by};
ghost use Rattle.std.specs.Result.{result_err};
ghost use Rattle.sc_syntax.specs.FormedWords.{IsFormedWordFn};
ghost use Rattle.sc_syntax.specs.Alike.{pure_word_expr, pure_bind};
ghost use Rattle.sc_word.specs.Pure.{pure_typed_expr};
ghost use Rattle.sc_word.specs.Words.{widths_of, IsWidth, AreWidths};
ghost use Rattle.sc_word.specs.Forms.{amount as stated, form};
ghost use Rattle.sc_word.specs.Checks.{first_fault, in_bounds, no_literal, result_fits, param_word, checks_params, fault};
ghost use Rattle.sc_word.specs.Typed.{TypesFn, TypesBinds, AreDeclared};
ghost use Rattle.sc_word.specs.Operands.{IsScope, Bound, Returned, used, or_else, fault_expr, fault_binds};

use crate::operand::{form_of, with_width};
use crate::rules::{amount, in_bounds, no_literal, own_width, result_fits};
use crate::scratch::scratch_of;
use crate::tree::{TypedExpr, WordFault};
use crate::typed_fn::TypedFn;
use crate::walk::walk;
use crate::words::Words;
use sc_syntax::{Bind, Width, WordExpr, WordFn, WordParam};
use std::alloc::Global;

/// The stated width, where it is 1 to 64.
fn stated_width(width: Width) -> Result<u32, WordFault>
    ensures ok { IfOk result (λ w. w ≡ stated width) }
    ensures bounds { IfOk result IsWidth }
    ensures fault { result_err result ≡ first_fault (in_bounds width ∷ []) }
{
    in_bounds(width)?;
    Ok(amount(width) as u32)
}

/// The parameters as words, and their widths in order.
#[derive(Drop)]
struct Declared {
    words: Words,
    widths: Vec<u32>,
}

/// Puts an item behind the others.
fn append<T: Drop>(items: &mut Vec<T>, item: T) -> Result<(), WordFault>
    ensures ok { OnOk result (items.new.items ≡ items.old.items ++ item ∷ []) }
    ensures err { IfErr result (λ f. f ≡ WordFault.Memory) }
{
    match items.push(item) {
        Ok(()) => Ok(()),
        Err(_) => Err(WordFault::Memory),
    }
}

fn declare_params(alloc: Global, params: &[WordParam]) -> Result<Declared, WordFault>
    ensures words { IfOk result (λ d. d.words ≡ map param_word params.now) }
    ensures widths { IfOk result (λ d. d.widths.items ≡ map (λ p. stated p.width) params.now) }
    ensures bounds { IfOk result (λ d. AreWidths (widths_of d.words)) }
    ensures declared { OnOk result (AreDeclared [] params.now) }
    ensures none { OnOk result (first_fault (checks_params [] params.now) ≡ None) }
    ensures err { IfErr result (λ f. f ≢ WordFault.Memory → first_fault (checks_params [] params.now) ≡ Some f) }
{
    let mut words = Words::new(alloc);
    let mut widths = Vec::new(alloc);
    for param in params {
        words.is_new(&param.name)?;
        let width = stated_width(param.width)?;
        words.push(alloc, &param.name.text, width)?;
        append(&mut widths, width)?;
    }
    Ok(Declared { words, widths })
}

/// The expression of a binding, which is no bare literal.
fn bound(alloc: Global, words: &Words, value: &WordExpr) -> Result<TypedExpr, WordFault>
    requires { IsScope words.now }
    ensures ok { IfOk result (Bound words.now (pure_word_expr value.now)) }
    ensures err { IfErr result (λ f. f ≢ WordFault.Memory → or_else (fault_expr words.now (pure_word_expr value.now)) (first_fault (no_literal value.now.place (form words.now (pure_word_expr value.now)) ∷ [])) ≡ Some f) }
{
    let operand = walk(alloc, words, value)?;
    let form = form_of(&operand);
    no_literal(value.place, form)?;
    Ok(with_width(operand, own_width(form)))
}

/// The returned expression, which has the width of the result.
fn returned(
    alloc: Global,
    words: &Words,
    result_word: &WordExpr,
    width: u32,
) -> Result<TypedExpr, WordFault>
    requires scope { IsScope words.now }
    requires width { IsWidth width }
    ensures ok { IfOk result (Returned words.now (pure_word_expr result_word.now) width) }
    ensures err { IfErr result (λ f. f ≢ WordFault.Memory → or_else (fault_expr words.now (pure_word_expr result_word.now)) (first_fault (result_fits result_word.now.place (form words.now (pure_word_expr result_word.now)) width ∷ [])) ≡ Some f) }
{
    let operand = walk(alloc, words, result_word)?;
    result_fits(result_word.place, form_of(&operand), width)?;
    Ok(with_width(operand, width))
}

/// The typed bindings and the typed returned expression.
#[derive(Drop)]
struct Body {
    binds: Vec<TypedExpr>,
    returned: TypedExpr,
}

fn type_body(
    alloc: Global,
    words: Words,
    binds: &[Bind],
    result_word: &WordExpr,
    width: u32,
) -> Result<Body, WordFault>
    requires few { length words + length binds.now ≤ 8388608 }
    requires bounds { AreWidths (widths_of words) }
    requires width { IsWidth width }
    ensures trees { IfOk result (λ b. TypesBinds words (map pure_bind binds.now) (pure_word_expr result_word.now) (map pure_typed_expr b.binds.items) (pure_typed_expr b.returned)) }
    ensures width { IfOk result (λ b. b.returned.width ≡ width) }
    ensures none { OnOk result (fault_binds words binds.now result_word.now width ≡ None) }
    ensures err { IfErr result (λ f. f ≢ WordFault.Memory → fault_binds words binds.now result_word.now width ≡ Some f) }
{
    let mut known = words;
    let mut typed = Vec::new(alloc);
    for bind in binds {
        let word = bound(alloc, &known, &bind.value)?;
        known.is_new(&bind.name)?;
        known.push(alloc, &bind.name.text, word.width)?;
        append(&mut typed, word)?;
    }
    let word = returned(alloc, &known, result_word, width)?;
    Ok(Body {
        binds: typed,
        returned: word,
    })
}

fn total_scratch(binds: &[TypedExpr], returned: &TypedExpr) -> u64
    requires { sum_by used binds.now + used returned.now < 2 ^ 64 }
    ensures { result ≡ sum_by used binds.now + used returned.now }
{
    let mut count = scratch_of(returned);
    for bind in binds {
        count += scratch_of(bind);
    }
    count
}

/// Checks the names and widths of a formed classical function, its own name aside, and types its
/// expressions. `UnknownName`, `Redefined` and `BadWidth` come with the place of the first fault in
/// the order of the text, and only there; `Memory` where no memory is left.
pub fn typed(alloc: Global, f: &WordFn) -> Result<TypedFn, WordFault>
    requires { IsFormedWordFn f.now }
    ensures typed { IfOk result (TypesFn f.now) }
    ensures none { OnOk result (fault f.now ≡ None) }
    ensures fault { IfErr result (λ r. r ≢ WordFault.Memory → fault f.now ≡ Some r) }
{
    let declared = declare_params(alloc, f.params.as_slice())?;
    let width = stated_width(f.width)?;
    let body = type_body(alloc, declared.words, f.binds.as_slice(), &f.result, width)?;
    let scratch = total_scratch(body.binds.as_slice(), &body.returned);
    Ok(TypedFn::new(declared.widths, body.binds, body.returned, scratch))
}
