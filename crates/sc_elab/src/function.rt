//! The bodies of classical functions.
ghost use Rattle.std.specs.Prelude.{◌≡◌, ◌≢◌, ◌+◌, ◌<◌, ◌≤◌, ◌^◌, List, flat_map, fold, length, OnOk, IfOk, IfErr};
ghost use Rattle.sc_deck.specs.Bodies.{wires_of, IsBody};
ghost use Rattle.sc_deck.specs.Decks.{CallsFit};
ghost use Rattle.sc_deck.specs.Keys.{params_of};
ghost use Rattle.sc_deck.specs.Modules.{Module};
ghost use Rattle.sc_deck.specs.Turns.{with_folded, folded, last_turns};
ghost use Rattle.sc_elab.specs.Folding.{IsFolded};
ghost use Rattle.sc_elab.specs.FunctionBodies.{HasWidths, FitsBehind, function_on, chosen_items, MakesBody, MakesNone};
ghost use Rattle.sc_meaning.specs.Programs.{function_of};

use crate::gates::push_chosen;
use sc_base::{Class, MOST_WIRES, Memory};
use sc_deck::{Body, Item, Key};
use sc_meaning::{Choice, ElabFault};
use sc_rev::reversible;
use sc_syntax::Name;
use sc_word::TypedFn;
use std::alloc::Global;

/// The body of a classical function, with the choice applied to it and equal neighbours folded. A function that needs more than
/// 65,536 wires is refused.
pub(crate) fn function_body(
    alloc: Global,
    choice: Choice,
    name: &Name,
    function: &TypedFn,
    key: &Key,
) -> Result<Body, ElabFault>
    requires { HasWidths (function_of function.now) key.now }
    ensures ok { IfOk result (λ body. MakesBody choice (function_on name.now (function_of function.now) key.now) body) }
    ensures params { IfOk result (λ body. body.params ≡ params_of key.now) }
    ensures calls { IfOk result (λ body. (deck : List Module) → CallsFit deck body.items) }
    ensures folded { IfOk result (λ body. IsFolded body.items) }
    ensures err { IfErr result (λ f. f ≢ ElabFault.Memory → MakesNone choice (function_on name.now (function_of function.now) key.now) f) }
{
    if function.wires() > u64::from(MOST_WIRES) {
        return Err(ElabFault::TooWide(name.place));
    }
    let _ = function.returned();
    let kept = reversible(alloc, function)?;
    let count = kept.wires();
    prove!(count <= MOST_WIRES);
    let body = folded_body(alloc, choice, &kept)?;
    Ok(body)
}

/// The same body with each gate replaced by those that stand for it, and equal neighbours folded.
#[tactic(auto, using(crate::proofs::FunctionLaws::folded_more, crate::proofs::FunctionLaws::room_at, crate::proofs::FunctionLaws::after_folded, crate::proofs::FunctionLaws::wires_grow_all))]
fn folded_body(alloc: Global, choice: Choice, kept: &Body) -> Result<Body, Memory>
    requires sound { IsBody kept.now }
    requires few { length kept.now.items ≤ 1048576 }
    ensures params { IfOk result (λ body. body.params ≡ kept.now.params) }
    ensures items { IfOk result (λ body. body.items ≡ folded (flat_map (chosen_items choice) kept.now.items)) }
{
    let mut body = Body::new(alloc, kept.params(Class::Q), kept.params(Class::C));
    let items = kept.items();
    for item in items {
        fold_chosen(&mut body, choice, item)?;
    }
    Ok(body)
}

/// Fresh wires, or the gates that stand for a gate.
#[tactic(auto, using(crate::proofs::Folding::fresh_behind))]
fn fold_chosen(body: &mut Body, choice: Choice, item: &Item) -> Result<(), Memory>
    requires fits { FitsBehind (wires_of body.old) item.now }
    requires turns { last_turns body.old.items + 64 < 2 ^ 64 }
    ensures { OnOk result (body.new ≡ record body.old { items = fold with_folded body.old.items (chosen_items choice item.now) }) }
{
    match item {
        Item::Fresh(class, n) => body.push_fresh(*class, *n),
        Item::Gate(gate) => push_chosen(body, choice, *gate),
        Item::Call(..) | Item::Gates(..) | Item::Calls(..) => Ok(()),
    }
}
