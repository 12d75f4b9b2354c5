//! Whole sources.
ghost use Rattle.std.specs.Prelude.{◌≡◌, ◌≢◌, ◌≤◌, [], ◌∷◌, None, Some, OnOk, IfOk, IfErr, length};
ghost use Rattle.std.specs.Result.{result_err};
ghost use Rattle.std.specs.List.{list_any};
ghost use Rattle.sc_syntax.specs.Formed.{IsFormedSource};
ghost use Rattle.sc_syntax.specs.FormedWords.{max_items};
ghost use Rattle.sc_types.specs.Checks.{check as one_check, first_fault};
ghost use Rattle.sc_types.specs.Positions.{first_at};
ghost use Rattle.sc_types.specs.Sources.{is_main_part, fault_of};
ghost use Rattle.sc_types.specs.Typing.{HasOneFault};

use crate::checked::Checked;
use crate::fault::TypeFault;
use crate::first_parts::first_positions;
use crate::parts::check_parts;
use sc_syntax::{Part, Source};
use std::alloc::Global;

#[tactic(auto, using(crate::proofs::ParameterLemmas::pure_count))]
fn is_main(part: &Part) -> bool
    ensures { result ≡ is_main_part part.now }
{
    match part {
        Part::Module(named) => {
            named.name.text.as_bytes() == b"main".as_slice() && named.params.is_empty()
        }
        Part::Words(_) => false,
    }
}

/// The position of the module `main` without parameters.
fn main_of(parts: &[Part]) -> Result<u32, TypeFault>
    requires { length parts.now ≤ max_items }
    ensures main { IfOk result (λ i. first_at is_main_part parts.now ≡ Some i) }
    ensures fault { result_err result ≡ first_fault (one_check (list_any is_main_part parts.now) TypeFault.NoMain ∷ []) }
{
    for (i, part) in parts.iter().enumerate() {
        if is_main(part) {
            return Ok(i as u32);
        }
    }
    Err(TypeFault::NoMain)
}

/// Checks the names, kinds and widths of a formed source, and answers it as a value whose type says that
/// it is well typed.
///
/// The first fault of the walk through the text is answered, with its place: `UnknownName` where a name is
/// in no scope or a called name is no module and no classical function, `Redefined` where a name is declared
/// a second time, `WrongKind` where something of another kind is needed, `WrongCount` where a call has
/// another number of arguments, `MeasuredUse` where a classical bit stands for a number, and `BadWidth` where
/// a width of a classical function does not fit. `NoMain` comes where nothing else is wrong and no module
/// `main` is without parameters. Each of them comes exactly there; `Memory` comes where no memory is left.
/// The source is dropped on a refusal.
pub fn check(alloc: Global, source: Source) -> Result<Checked, TypeFault>
    requires { IsFormedSource source }
    ensures source { IfOk result (λ c. c.source ≡ source) }
    ensures none { OnOk result (fault_of source ≡ None) }
    ensures fault { IfErr result (λ f. f ≢ TypeFault.Memory → fault_of source ≡ Some f) }
    ensures one_fault { HasOneFault }
{
    let parts = source.parts.as_slice();
    let first = first_positions(alloc, parts)?;
    let words = check_parts(alloc, parts, &first)?;
    let main = main_of(parts)?;
    Ok(Checked::new(source, words, first, main))
}
