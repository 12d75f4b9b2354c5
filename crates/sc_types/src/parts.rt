//! The modules and classical functions of a source.
ghost use Rattle.std.specs.Prelude.{◌≡◌, ◌≢◌, [], ◌∷◌, None, Some, OnOk, IfOk, IfErr, All, slice_get, take, map};
ghost use Rattle.std.specs.Result.{result_err};
ghost use Rattle.sc_syntax.specs.Formed.{IsFormedPart};
ghost use Rattle.sc_syntax.specs.FormedWords.{IsFormedWordFn};
ghost use Rattle.sc_syntax.specs.Alike.{pure_param, pure_stmt, pure_part};
ghost use Rattle.sc_word.specs.Pure.{pure_word_fn};
ghost use Rattle.sc_word.specs.Typed.{TypesFn};
ghost use Rattle.sc_types.specs.Checks.{first_fault};
ghost use Rattle.sc_types.specs.Sources.{walk_module, of_word as fault_of_word, words_checks, part_checks, parts_checks, is_new_part};
ghost use Rattle.sc_types.specs.FirstParts.{FindsFirst};
ghost use Rattle.sc_types.specs.Typing.{IsTyped, AreTyped};

use crate::definitions::Definitions;
use crate::fault::TypeFault;
use crate::first_parts::{FirstParts, name_of, push};
use crate::params::module_scope;
use crate::statements::statements;
use sc_base::{List, NameMap};
use sc_syntax::{Module, Part, WordFn};
use sc_word::{TypedFn, WordFault, typed};
use std::alloc::Global;

/// The parameters in order with their lengths, and then the statements.
fn check_module<D: Definitions>(
    alloc: Global,
    definitions: &D,
    checked: &Module,
) -> Result<(), TypeFault>
    ensures none { OnOk result (first_fault (walk_module (D.parts definitions.now) (map pure_param checked.now.params) (map pure_stmt checked.now.body)).checks ≡ None) }
    ensures err { IfErr result (λ f. f ≢ TypeFault.Memory → first_fault (walk_module (D.parts definitions.now) (map pure_param checked.now.params) (map pure_stmt checked.now.body)).checks ≡ Some f) }
{
    let mut scopes = module_scope(alloc, checked.params.as_slice())?;
    statements(definitions, &mut scopes, checked.body.as_slice())?;
    Ok(())
}

fn of_word(fault: WordFault) -> TypeFault
    ensures { result ≡ fault_of_word fault }
{
    match fault {
        WordFault::UnknownName(place) => TypeFault::UnknownName(place),
        WordFault::Redefined(place) => TypeFault::Redefined(place),
        WordFault::BadWidth(place) => TypeFault::BadWidth(place),
        WordFault::Memory => TypeFault::Memory,
    }
}

fn type_words(alloc: Global, function: &WordFn) -> Result<TypedFn, TypeFault>
    requires { IsFormedWordFn function.now }
    ensures typed { IfOk result (TypesFn function.now) }
    ensures none { OnOk result (first_fault (words_checks (pure_word_fn function.now)) ≡ None) }
    ensures err { IfErr result (λ f. f ≢ TypeFault.Memory → first_fault (words_checks (pure_word_fn function.now)) ≡ Some f) }
{
    match typed(alloc, function) {
        Ok(word) => Ok(word),
        Err(fault) => Err(of_word(fault)),
    }
}

/// What is in a part; the typed function where it is a classical function.
fn check_part(alloc: Global, parts: &FirstParts, part: &Part) -> Result<Option<TypedFn>, TypeFault>
    requires { IsFormedPart part.now }
    ensures typed { IfOk result (IsTyped part.now) }
    ensures none { OnOk result (first_fault (part_checks (map pure_part parts.now) (pure_part part.now)) ≡ None) }
    ensures err { IfErr result (λ f. f ≢ TypeFault.Memory → first_fault (part_checks (map pure_part parts.now) (pure_part part.now)) ≡ Some f) }
{
    match part {
        Part::Module(checked) => {
            check_module(alloc, parts, checked)?;
            Ok(None)
        }
        Part::Words(function) => {
            let word = type_words(alloc, function)?;
            Ok(Some(word))
        }
    }
}

/// The name of the part at a position is that of no part before it.
fn new_part(parts: &FirstParts, position: usize, part: &Part) -> Result<(), TypeFault>
    requires { slice_get parts.now position ≡ Some part.now }
    ensures { result_err result ≡ first_fault (is_new_part (map pure_part (take position parts.now)) (pure_part part.now) ∷ []) }
{
    let name = name_of(part);
    if parts.is_first(&name.text, position) {
        Ok(())
    } else {
        Err(TypeFault::Redefined(name.place))
    }
}

/// The parts in order, each with its name and then what is in it.
pub(crate) fn check_parts(
    alloc: Global,
    parts: &[Part],
    positions: &NameMap<u32>,
) -> Result<List<Option<TypedFn>>, TypeFault>
    requires formed { All IsFormedPart parts.now }
    requires first { FindsFirst parts.now positions.now }
    ensures typed { IfOk result (AreTyped parts.now) }
    ensures none { OnOk result (first_fault (parts_checks (map pure_part parts.now) [] (map pure_part parts.now)) ≡ None) }
    ensures err { IfErr result (λ f. f ≢ TypeFault.Memory → first_fault (parts_checks (map pure_part parts.now) [] (map pure_part parts.now)) ≡ Some f) }
{
    let first = FirstParts::new(alloc, parts, positions)?;
    let mut words = List::new(alloc);
    for (i, part) in parts.iter().enumerate() {
        new_part(&first, i, part)?;
        let word = check_part(alloc, &first, part)?;
        push(&mut words, word)?;
    }
    Ok(words)
}
