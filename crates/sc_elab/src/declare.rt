//! Declarations of wires and numbers, and settings of numbers.
ghost use Rattle.std.specs.Prelude.{◌≡◌, ◌≢◌, ◌+◌, ◌≤◌, map, option_map, OnOk, IfErr};
ghost use Rattle.std.specs.Option.{option_copied};
ghost use Rattle.sc_syntax.specs.Alike.{pure_expr, pure_decl, pure_init};
ghost use Rattle.sc_deck.specs.Turns.{last_turns};
ghost use Rattle.sc_meaning.specs.declared.choice.Choice.{Choice};
ghost use Rattle.sc_elab.specs.Beginnings.{AddsNoCall};
ghost use Rattle.sc_elab.specs.Frames.{view, Runs, IsRefused};
ghost use Rattle.sc_meaning.specs.Run.{size_of, make_wires, declare_wires, declare_numbers, set_number};

use crate::frame::Frame;
use crate::numbers::{count_of, new_value, old_value, start_value, whole_number};
use crate::span::Span;
use sc_base::{Class, MOST_WIRES};
use sc_meaning::ElabFault;
use sc_syntax::{Decl, Expr, Init, Name, NumSort, Set};
use sc_value::Env;
use std::alloc::Global;

fn size_of(env: &Env, size: Option<&Expr>) -> Result<i64, ElabFault>
    ensures { result ≡ size_of env.now (option_map pure_expr (option_copied size.entry)) }
{
    match size {
        None => Ok(1),
        Some(expr) => whole_number(env, expr),
    }
}

/// So many fresh wires under a name.
fn make_wires(
    alloc: Global,
    frame: &mut Frame,
    class: Class,
    name: &Name,
    size: i64,
) -> Result<(), ElabFault>
    ensures ok { OnOk result ((choice : Choice) → Runs choice (make_wires class name.now size (view frame.old)) frame.old frame.new) }
    ensures err { IfErr result (λ f. f ≢ ElabFault.Memory → (choice : Choice) → IsRefused choice (make_wires class name.now size (view frame.old)) frame.old f) }
    ensures adds { OnOk result (AddsNoCall frame.old.body frame.new.body) }
    ensures turns { OnOk result (last_turns frame.new.body.items ≡ 1) }
{
    if size < 1 {
        return Err(ElabFault::BadSize(name.place));
    }
    if size > i64::from(MOST_WIRES - frame.body.wires()) {
        return Err(ElabFault::TooWide(name.place));
    }
    let len = count_of(size);
    let span = Span {
        class,
        first: frame.body.count(class),
        len,
    };
    frame.body.push_fresh(class, len)?;
    frame.declare_wires(alloc, &name.text, span)?;
    Ok(())
}

/// Declares wires, one name after another.
pub(crate) fn declare_wires(
    alloc: Global,
    frame: &mut Frame,
    class: Class,
    decls: &[Decl],
) -> Result<(), ElabFault>
    ensures ok { OnOk result ((choice : Choice) → Runs choice (declare_wires class (map pure_decl decls.now) (view frame.old)) frame.old frame.new) }
    ensures err { IfErr result (λ f. f ≢ ElabFault.Memory → (choice : Choice) → IsRefused choice (declare_wires class (map pure_decl decls.now) (view frame.old)) frame.old f) }
    ensures adds { OnOk result (AddsNoCall frame.old.body frame.new.body) }
    ensures turns { OnOk result (last_turns frame.new.body.items ≤ last_turns frame.old.body.items + 1) }
{
    for decl in decls {
        let size = size_of(&frame.numbers, decl.size.as_ref())?;
        make_wires(alloc, frame, class, &decl.name, size)?;
    }
    Ok(())
}

/// Declares numbers, one name after another.
pub(crate) fn declare_numbers(
    frame: &mut Frame,
    sort: NumSort,
    inits: &[Init],
) -> Result<(), ElabFault>
    ensures ok { OnOk result ((choice : Choice) → Runs choice (declare_numbers sort (map pure_init inits.now) (view frame.old)) frame.old frame.new) }
    ensures err { IfErr result (λ f. f ≢ ElabFault.Memory → (choice : Choice) → IsRefused choice (declare_numbers sort (map pure_init inits.now) (view frame.old)) frame.old f) }
    ensures body { OnOk result (frame.new.body ≡ frame.old.body) }
{
    for init in inits {
        let value = start_value(&frame.numbers, sort, init.start.as_ref())?;
        frame.numbers.declare(&init.name.text, value)?;
    }
    Ok(())
}

/// Gives a number another value.
pub(crate) fn set_number(frame: &mut Frame, set: &Set) -> Result<(), ElabFault>
    ensures ok { OnOk result ((choice : Choice) → Runs choice (set_number set.now.name set.now.op set.now.place (option_map pure_expr set.now.value) (view frame.old)) frame.old frame.new) }
    ensures err { IfErr result (λ f. (choice : Choice) → IsRefused choice (set_number set.now.name set.now.op set.now.place (option_map pure_expr set.now.value) (view frame.old)) frame.old f) }
    ensures body { OnOk result (frame.new.body ≡ frame.old.body) }
{
    let old = old_value(&frame.numbers, &set.name.text);
    let value = new_value(&frame.numbers, old, set.op, set.place, set.value.as_ref())?;
    frame.numbers.set(&set.name.text, value);
    Ok(())
}
