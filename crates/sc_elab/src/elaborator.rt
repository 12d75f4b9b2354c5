//! The elaborator, which runs each instance once.
ghost use Rattle.std.specs.Prelude.{◌≡◌, ◌≢◌, ◌<◌, ◌≤◌, None, Some, OnOk, IfOk, IfErr, All, [], ◌∷◌, length, slice_get};
ghost use Rattle.std.specs.Option.{option_map};
ghost use Rattle.sc_base.specs.NameTexts.{IsNameText};
ghost use Rattle.sc_deck.specs.Bodies.{wires_of};
ghost use Rattle.sc_deck.specs.Decks.{CallsFit, IsWhole};
ghost use Rattle.sc_deck.specs.Keys.{params_of};
ghost use Rattle.sc_deck.specs.Modules.{key_of, heights_of};
ghost use Rattle.sc_deck.specs.Turns.{folded_modules};
ghost use Rattle.sc_syntax.specs.Alike.{pure_stmt_list};
ghost use Rattle.sc_types.specs.Accepted.{IsAccepted};
ghost use Rattle.sc_elab.specs.Folding.{IsFolded, HasRoom, HasRoomFor};
ghost use Rattle.sc_elab.specs.Frames.{view};
ghost use Rattle.sc_meaning.specs.Meaning.{refusal, instances};
ghost use Rattle.sc_meaning.specs.Local.{local, local_body};
ghost use Rattle.sc_elab.specs.Machines.{IsCalled, IsRefusedCall, RunsOn, IsRefusedOn, RunsBody, IsRefusedBody, KeepsBodies, GrowsTo};
ghost use Rattle.sc_elab.specs.Pending.{asked, leaves};
ghost use Rattle.sc_elab.specs.Sources.{IsSound};
ghost use Rattle.sc_elab.specs.Typings.{IsEntering, IsTypedBody, IsTypedCall};
ghost use Rattle.sc_meaning.specs.Programs.{program_of};
ghost use Rattle.sc_meaning.specs.Run.{acts};

use crate::advance::{Given, advance, push};
use crate::callee::{Callee, definition};
use crate::frame::Frame;
use crate::function::function_body;
use crate::machine::Machine;
use crate::start::start_frame;
use crate::todo::{Request, Todo};
use indexmap::IndexSet;
use sc_base::{List, MOST_DEPTH, Text};
use sc_deck::{Body, Deck, Key};
use sc_meaning::{Choice, ElabFault};
use sc_syntax::Stmt;
use sc_types::Checked;
use std::alloc::Global;

/// The folded instances of a source as a whole deck, where its run is not refused; else its refusal. The body of an instance is
/// run once, and is kept. No body of the deck is higher than 256, and each key has the name of a definition. Faults are those of
/// the run, with their places; and `Memory`, where none is found.
pub fn elaborate(alloc: Global, checked: &Checked, choice: Choice) -> Result<Deck, ElabFault>
    ensures accepted { OnOk result (refusal checked.now ≡ None) }
    ensures deck { IfOk result (λ deck. deck ≡ folded_modules (instances checked.now choice)) }
    ensures whole { IfOk result (λ deck. IsWhole deck) }
    ensures shallow { IfOk result (λ deck. All (λ height. height ≤ 256) (heights_of deck)) }
    ensures names { IfOk result (λ deck. All (λ m. IsNameText m.key.name) deck) }
    ensures refused { IfErr result (λ f. f ≢ ElabFault.Memory → refusal checked.now ≡ Some f) }
{
    keeps(checked);
    let mut machine = Machine {
        entered: IndexSet::new(alloc),
        deck: Deck::new(alloc),
    };
    let given = Given {
        alloc,
        checked,
        choice,
    };
    let main = Key {
        name: Text::from_bytes(alloc, b"main")?,
        args: List::new(alloc),
    };
    let _ = call(given, &mut machine, MOST_DEPTH, main)?;
    Ok(machine.deck)
}

/// What a checked source keeps, which the first call of main wants.
fn keeps(checked: &Checked)
    ensures { IsSound checked.now }
{
    let _ = checked.source();
    let _ = checked.main();
}

/// What the statements of a body do, where calls may go `depth` bodies deeper. What is still to do stands in a list, so that
/// the machine's stack grows with the calls alone.
#[cycle(calls)]
fn exec(
    given: Given<'_>,
    machine: &mut Machine,
    frame: &mut Frame,
    depth: usize,
    stmts: &[Stmt],
) -> Result<(), ElabFault>
    requires accepted { IsAccepted given.checked.now }
    requires depth { depth ≤ 256 }
    requires kept { KeepsBodies given.checked.now machine.old }
    requires scoped { 0 < length frame.old.numbers }
    requires typed { IsTypedBody given.checked.now frame.old (Todo.Rest stmts ∷ []) }
    requires turns { HasRoom frame.old }
    requires folded { IsFolded frame.old.body.items }
    requires calls { CallsFit machine.old.deck frame.old.body.items }
    ensures kept { OnOk result (KeepsBodies given.entry.checked.now machine.new) }
    ensures grows { OnOk result (GrowsTo machine.old.deck machine.new.deck) }
    ensures folded { OnOk result (IsFolded frame.new.body.items) }
    ensures calls { OnOk result (CallsFit machine.new.deck frame.new.body.items) }
    ensures params { OnOk result (frame.new.body.params ≡ frame.old.body.params) }
    ensures ok { OnOk result (RunsOn given.entry.choice (acts (program_of given.entry.checked.now) (local (program_of given.entry.checked.now) depth) (pure_stmt_list stmts.now) (view frame.old)) machine.old frame.old machine.new frame.new) }
    ensures err { IfErr result (λ f. f ≢ ElabFault.Memory → IsRefusedOn given.entry.choice (acts (program_of given.entry.checked.now) (local (program_of given.entry.checked.now) depth) (pure_stmt_list stmts.now) (view frame.old)) machine.old frame.old f) }
{
    let mut todo: Vec<Todo> = Vec::new(given.alloc);
    push(&mut todo, Todo::Rest(stmts))?;
    'pending: while let Some(next) = todo.pop() {
        let Some(request) = advance(given, frame, &mut todo, next)? else {
            continue;
        };
        call_from(given, machine, frame, depth, request)?;
    }
    Ok(())
}

/// A call from a body.
#[cycle(calls)]
fn call_from(
    given: Given<'_>,
    machine: &mut Machine,
    frame: &mut Frame,
    depth: usize,
    request: Request,
) -> Result<(), ElabFault>
    requires accepted { IsAccepted given.checked.now }
    requires depth { depth ≤ 256 }
    requires kept { KeepsBodies given.checked.now machine.old }
    requires call { IsTypedCall given.checked.now frame.old request }
    requires turns { HasRoomFor (Some request) frame.old }
    requires folded { IsFolded frame.old.body.items }
    requires calls { CallsFit machine.old.deck frame.old.body.items }
    ensures kept { OnOk result (KeepsBodies given.entry.checked.now machine.new) }
    ensures grows { OnOk result (GrowsTo machine.old.deck machine.new.deck) }
    ensures turns { OnOk result (HasRoom frame.new) }
    ensures folded { OnOk result (IsFolded frame.new.body.items) }
    ensures calls { OnOk result (CallsFit machine.new.deck frame.new.body.items) }
    ensures params { OnOk result (frame.new.body.params ≡ frame.old.body.params) }
    ensures view { OnOk result (view frame.new ≡ view frame.old) }
    ensures others { OnOk result (frame.new ≡ record frame.old { body = frame.new.body }) }
    ensures ok { OnOk result (RunsOn given.entry.choice (asked (local (program_of given.entry.checked.now) depth) request (view frame.old)) machine.old frame.old machine.new frame.new) }
    ensures err { IfErr result (λ f. f ≢ ElabFault.Memory → IsRefusedOn given.entry.choice (asked (local (program_of given.entry.checked.now) depth) request (view frame.old)) machine.old frame.old f) }
{
    let Request { key, wires } = request;
    let number = call(given, machine, depth, key)?;
    frame.body.fold_call(number, &wires)?;
    Ok(())
}

/// The body of a key: that of its module, whose statements are run, or that of its classical function.
#[cycle(calls)]
fn body_of(
    given: Given<'_>,
    machine: &mut Machine,
    depth: usize,
    key: &Key,
) -> Result<Body, ElabFault>
    requires accepted { IsAccepted given.checked.now }
    requires depth { depth ≤ 256 }
    requires kept { KeepsBodies given.checked.now machine.old }
    requires entering { IsEntering given.checked.now key.now }
    ensures kept { OnOk result (KeepsBodies given.entry.checked.now machine.new) }
    ensures grows { OnOk result (GrowsTo machine.old.deck machine.new.deck) }
    ensures folded { IfOk result (λ body. IsFolded body.items) }
    ensures calls { IfOk result (λ body. CallsFit machine.new.deck body.items) }
    ensures params { IfOk result (λ body. body.params ≡ params_of key.now) }
    ensures ok { IfOk result (λ body. RunsBody given.entry.choice (local_body (program_of given.entry.checked.now) (local (program_of given.entry.checked.now) depth) key.now) machine.old body.items machine.new) }
    ensures err { IfErr result (λ f. f ≢ ElabFault.Memory → IsRefusedBody given.entry.choice (local_body (program_of given.entry.checked.now) (local (program_of given.entry.checked.now) depth) key.now) machine.old f) }
{
    match definition(given.checked, &key.name) {
        None => unreachable!(),
        Some(callee) => match callee {
            Callee::Module(called) => {
                let mut frame = start_frame(given.alloc, given.checked, called, key)?;
                exec(given, machine, &mut frame, depth, called.body.as_slice())?;
                Ok(frame.body)
            }
            Callee::Words(name, function) => {
                function_body(given.alloc, given.choice, name, function, key)
            }
        },
    }
}

/// A call of a key, where `depth` bodies more may be opened. A key that has returned is not run again: its body stands for this
/// entering too, where that depth allows. Else its body is run, and added to the deck.
#[cycle(calls)]
fn call(given: Given<'_>, machine: &mut Machine, depth: usize, key: Key) -> Result<u32, ElabFault>
    requires accepted { IsAccepted given.checked.now }
    requires depth { depth ≤ 256 }
    requires kept { KeepsBodies given.checked.now machine.old }
    requires entering { IsEntering given.checked.now key }
    ensures kept { OnOk result (KeepsBodies given.entry.checked.now machine.new) }
    ensures grows { OnOk result (GrowsTo machine.old.deck machine.new.deck) }
    ensures key { IfOk result (λ number. option_map key_of (slice_get machine.new.deck number) ≡ Some key) }
    ensures ok { IfOk result (λ number. IsCalled given.entry.choice (local (program_of given.entry.checked.now) depth key) machine.old number machine.new) }
    ensures err { IfErr result (λ f. f ≢ ElabFault.Memory → IsRefusedCall given.entry.choice (local (program_of given.entry.checked.now) depth key) machine.old f) }
{
    if let Some(number) = machine.kept(&key, depth)? {
        return Ok(number);
    }
    if depth == 0 {
        return Err(ElabFault::TooDeep);
    }
    machine.enter(given.alloc, &key)?;
    let body = body_of(given, machine, depth - 1, &key)?;
    let number = machine.deck.len();
    machine.deck.push_body(key, body)?;
    Ok(number)
}
