//! What one part of a body does, up to a call.
ghost use Rattle.std.specs.Prelude.{◌≡◌, ◌≢◌, ◌+◌, ◌*◌, ◌<◌, ◌≤◌, ◌^◌, List, [], ◌∷◌, ◌++◌, map, option_map, length, None, Some, Ok, Err, OnOk, IfOk, IfErr, IfSome};
ghost use Rattle.std.specs.Option.{option_copied};
ghost use Rattle.sc_syntax.specs.Alike.{pure_expr, pure_operand, pure_act};
ghost use Rattle.sc_value.specs.Numbers.{is_true};
ghost use Rattle.sc_gate.specs.Numbers.{both};
ghost use Rattle.sc_deck.specs.Bodies.{wires_of};
ghost use Rattle.sc_deck.specs.Decks.{CallsFit};
ghost use Rattle.sc_deck.specs.Items.{GateFits};
ghost use Rattle.sc_deck.specs.Modules.{Module};
ghost use Rattle.sc_deck.specs.Turns.{last_turns};
ghost use Rattle.sc_types.specs.Accepted.{IsAccepted};
ghost use Rattle.sc_elab.specs.Beginnings.{Begun, AddsNoCall};
ghost use Rattle.sc_elab.specs.Folding.{IsFolded, HasRoom, HasRoomFor};
ghost use Rattle.sc_elab.specs.Frames.{view, Runs, IsRefused, Advanced, StopsAt};
ghost use Rattle.sc_elab.specs.Pending.{doing, looped, leaves, if_act, for_act, block_act, if_on, for_on, block_on, to_do, after_round};
ghost use Rattle.sc_elab.specs.Typings.{IsTypedBody, IsTypedAct, IsTypedCall};
ghost use Rattle.sc_meaning.specs.Arguments.{called_gate};
ghost use Rattle.sc_meaning.specs.Programs.{program_of};
ghost use Rattle.sc_elab.specs.Gating.{measure_on, gate_on_args, call_on};
ghost use Rattle.sc_meaning.specs.Run.{apply, act, measured};
ghost use Rattle.sc_meaning.specs.States.{with_scope};
ghost use Rattle.sc_elab.specs.Stepping.{Steps, holds};

use crate::callee::{definition, prepared};
use crate::declare::{declare_numbers, declare_wires, set_number};
use crate::frame::Frame;
use crate::gates::{called_gate, measured, push_chosen};
use crate::numbers::number;
use crate::todo::{Request, Rounds, Todo};
use sc_base::{GateName, Memory, Place};
use sc_deck::Body;
use sc_gate::Gate;
use sc_meaning::{Choice, ElabFault};
use sc_syntax::{Act, Call, Callee, Expr, Measure, Stmt};
use sc_types::Checked;
use sc_value::is_true;
use std::alloc::Global;

/// What a body reads of the source, and the choice.
#[derive(Clone, Copy)]
pub(crate) struct Given<'a> {
    pub(crate) alloc: Global,
    pub(crate) checked: &'a Checked,
    pub(crate) choice: Choice,
}

fn take_step(frame: &mut Frame, at: Place) -> Result<(), ElabFault>
    ensures { Steps frame.old at result frame.new }
{
    if frame.steps == 0 {
        return Err(ElabFault::TooLong(at));
    }
    frame.steps -= 1;
    Ok(())
}

pub(crate) fn push<'a>(todo: &mut Vec<Todo<'a>>, next: Todo<'a>) -> Result<(), Memory>
    ensures { OnOk result (todo.new.items ≡ todo.old.items ++ next.entry ∷ []) }
{
    todo.push(next)?;
    Ok(())
}

/// A statement in a scope of its own.
fn push_inside<'a>(
    alloc: Global,
    frame: &mut Frame,
    todo: &mut Vec<Todo<'a>>,
    stmt: &'a Stmt,
) -> Result<(), Memory>
    ensures view { OnOk result (view frame.new ≡ with_scope (view frame.old)) }
    ensures body { OnOk result (frame.new.body ≡ frame.old.body) }
    ensures todo { OnOk result (todo.new.items ≡ todo.old.items ++ (Todo.Leave ∷ Todo.Do stmt.entry ∷ [])) }
{
    frame.enter(alloc)?;
    push(todo, Todo::Leave)?;
    push(todo, Todo::Do(stmt))
}

fn holds(frame: &Frame, test: &Expr) -> Result<bool, ElabFault>
    ensures { result ≡ holds frame.now.numbers (pure_expr test.now) }
{
    Ok(is_true(number(&frame.numbers, test)?))
}

/// A body has at most 65,536 wires, and so has the key of a call that it comes to.
fn is_narrow(body: &Body)
    ensures { both (wires_of body.now) ≤ 65536 }
{
    let _ = body.wires();
}

/// A gate is applied.
fn apply(choice: Choice, frame: &mut Frame, gate: Gate) -> Result<(), Memory>
    requires fits { GateFits (wires_of frame.old.body) gate }
    requires turns { last_turns frame.old.body.items + 64 < 2 ^ 64 }
    requires folded { IsFolded frame.old.body.items }
    ensures runs { OnOk result (Runs choice (apply (view frame.old) gate) frame.old frame.new) }
    ensures others { frame.new ≡ record frame.old { body = frame.new.body } }
    ensures view { OnOk result (view frame.new ≡ view frame.old) }
    ensures adds { OnOk result (AddsNoCall frame.old.body frame.new.body) }
    ensures turns { OnOk result (last_turns frame.new.body.items < last_turns frame.old.body.items + 64) }
{
    push_chosen(&mut frame.body, choice, gate)
}

/// A measurement into a classical bit.
fn measure(given: Given<'_>, frame: &mut Frame, task: &Measure) -> Result<(), ElabFault>
    requires fits { IfOk (measured (view frame.old) task.now.gate (pure_operand task.now.into) (pure_operand task.now.from)) (GateFits (wires_of frame.old.body)) }
    requires turns { last_turns frame.old.body.items + 64 < 2 ^ 64 }
    requires folded { IsFolded frame.old.body.items }
    ensures ok { OnOk result (Runs given.entry.choice (measure_on task.now (view frame.old)) frame.old frame.new) }
    ensures err { IfErr result (λ f. f ≢ ElabFault.Memory → IsRefused given.entry.choice (measure_on task.now (view frame.old)) frame.old f) }
    ensures others { frame.new ≡ record frame.old { body = frame.new.body } }
    ensures view { OnOk result (view frame.new ≡ view frame.old) }
    ensures adds { OnOk result (AddsNoCall frame.old.body frame.new.body) }
    ensures turns { OnOk result (last_turns frame.new.body.items < last_turns frame.old.body.items + 64) }
{
    let gate = measured(given.alloc, frame, task)?;
    apply(given.choice, frame, gate)?;
    Ok(())
}

/// The call of a gate.
fn call_gate(
    given: Given<'_>,
    frame: &mut Frame,
    gate: GateName,
    args: &[Expr],
) -> Result<(), ElabFault>
    requires fits { IfOk (called_gate (view frame.old) gate (map pure_expr args.now)) (GateFits (wires_of frame.old.body)) }
    requires turns { last_turns frame.old.body.items + 64 < 2 ^ 64 }
    requires folded { IsFolded frame.old.body.items }
    ensures ok { OnOk result (Runs given.entry.choice (gate_on_args gate (map pure_expr args.now) (view frame.old)) frame.old frame.new) }
    ensures err { IfErr result (λ f. f ≢ ElabFault.Memory → IsRefused given.entry.choice (gate_on_args gate (map pure_expr args.now) (view frame.old)) frame.old f) }
    ensures others { frame.new ≡ record frame.old { body = frame.new.body } }
    ensures view { OnOk result (view frame.new ≡ view frame.old) }
    ensures adds { OnOk result (AddsNoCall frame.old.body frame.new.body) }
    ensures turns { OnOk result (last_turns frame.new.body.items < last_turns frame.old.body.items + 64) }
{
    let gate = called_gate(given.alloc, frame, gate, args)?;
    apply(given.choice, frame, gate)?;
    Ok(())
}

/// The call of a gate, or up to the call of a definition.
fn begin_call<'a>(
    given: Given<'a>,
    frame: &mut Frame,
    call: &Call,
) -> Result<Option<Request>, ElabFault>
    requires accepted { IsAccepted given.checked.now }
    requires typed { IsTypedAct given.checked.now frame.old (pure_act (Act.Call call.now)) [] }
    requires turns { last_turns frame.old.body.items + 64 < 2 ^ 64 }
    requires folded { IsFolded frame.old.body.items }
    ensures ok { IfOk result (λ r. (todo : List Todo) → Advanced (program_of given.entry.checked.now) given.entry.choice (λ c. call_on (program_of given.entry.checked.now) c call.now.callee (map pure_expr call.now.args)) frame.old todo r frame.new todo) }
    ensures err { IfErr result (λ f. f ≢ ElabFault.Memory → StopsAt given.entry.choice (λ c. call_on (program_of given.entry.checked.now) c call.now.callee (map pure_expr call.now.args)) frame.old f) }
    ensures others { frame.new ≡ record frame.old { body = frame.new.body } }
    ensures call { IfOk result (λ r. IfSome r (λ q. IsTypedCall given.entry.checked.now frame.new q)) }
    ensures view { OnOk result (view frame.new ≡ view frame.old) }
    ensures adds { OnOk result (AddsNoCall frame.old.body frame.new.body) }
    ensures turns { OnOk result (last_turns frame.new.body.items < last_turns frame.old.body.items + 64) }
{
    let args = call.args.as_slice();
    match &call.callee {
        Callee::Gate(gate) => {
            call_gate(given, frame, *gate, args)?;
            Ok(None)
        }
        Callee::Named(name) => match definition(given.checked, name) {
            None => Ok(None),
            Some(callee) => {
                is_narrow(&frame.body);
                let request = prepared(given.alloc, frame, name, callee, args)?;
                Ok(Some(request))
            }
        },
    }
}

/// The body of an `if` or its `else`, in a scope of its own.
fn begin_if<'a>(
    given: Given<'a>,
    frame: &mut Frame,
    todo: &mut Vec<Todo<'a>>,
    test: &Expr,
    body: &'a Stmt,
    other: Option<&'a Stmt>,
) -> Result<(), ElabFault>
    requires typed { IsTypedAct given.checked.now frame.old (if_act test.now body.now (option_copied other)) todo.old.items }
    ensures ok { OnOk result (Advanced (program_of given.entry.checked.now) given.entry.choice (λ c. if_on (program_of given.entry.checked.now) c test.now body.now (option_copied other.entry)) frame.old todo.old.items None frame.new todo.new.items) }
    ensures err { IfErr result (λ f. f ≢ ElabFault.Memory → StopsAt given.entry.choice (λ c. if_on (program_of given.entry.checked.now) c test.now body.now (option_copied other.entry)) frame.old f) }
    ensures begun { OnOk result (Begun frame.old todo.old.items frame.new todo.new.items) }
    ensures typed { OnOk result (IsTypedBody given.entry.checked.now frame.new todo.new.items) }
    ensures body { OnOk result (frame.new.body ≡ frame.old.body) }
{
    let chosen = holds(frame, test)?;
    if chosen {
        push_inside(given.alloc, frame, todo, body)?;
        return Ok(());
    }
    match other {
        Some(other) => {
            push_inside(given.alloc, frame, todo, other)?;
            Ok(())
        }
        None => Ok(()),
    }
}

fn push_optional<'a>(todo: &mut Vec<Todo<'a>>, stmt: Option<&'a Stmt>) -> Result<(), Memory>
    ensures { OnOk result (todo.new.items ≡ todo.old.items ++ to_do stmt.entry) }
{
    match stmt {
        Some(stmt) => push(todo, Todo::Do(stmt)),
        None => Ok(()),
    }
}

/// A loop in a scope of its own, with its start before it.
fn begin_for<'a>(
    given: Given<'a>,
    frame: &mut Frame,
    todo: &mut Vec<Todo<'a>>,
    start: Option<&'a Stmt>,
    rounds: Rounds<'a>,
) -> Result<(), Memory>
    requires typed { IsTypedAct given.checked.now frame.old (for_act (option_copied start) rounds) todo.old.items }
    ensures ok { OnOk result (Advanced (program_of given.entry.checked.now) given.entry.choice (λ c. for_on (program_of given.entry.checked.now) c (option_copied start.entry) rounds.entry) frame.old todo.old.items None frame.new todo.new.items) }
    ensures begun { OnOk result (Begun frame.old todo.old.items frame.new todo.new.items) }
    ensures typed { OnOk result (IsTypedBody given.entry.checked.now frame.new todo.new.items) }
    ensures body { OnOk result (frame.new.body ≡ frame.old.body) }
{
    frame.enter(given.alloc)?;
    push(todo, Todo::Leave)?;
    push(todo, Todo::Loop(rounds))?;
    push_optional(todo, start)
}

/// Statements in a scope of their own.
fn begin_block<'a>(
    given: Given<'a>,
    frame: &mut Frame,
    todo: &mut Vec<Todo<'a>>,
    stmts: &'a [Stmt],
) -> Result<(), Memory>
    requires typed { IsTypedAct given.checked.now frame.old (block_act stmts.now) todo.old.items }
    ensures ok { OnOk result (Advanced (program_of given.entry.checked.now) given.entry.choice (λ c. block_on (program_of given.entry.checked.now) c stmts.now) frame.old todo.old.items None frame.new todo.new.items) }
    ensures begun { OnOk result (Begun frame.old todo.old.items frame.new todo.new.items) }
    ensures typed { OnOk result (IsTypedBody given.entry.checked.now frame.new todo.new.items) }
    ensures body { OnOk result (frame.new.body ≡ frame.old.body) }
{
    frame.enter(given.alloc)?;
    push(todo, Todo::Leave)?;
    push(todo, Todo::Rest(stmts))
}

fn optional<'a>(stmt: &'a Option<Box<Stmt>>) -> Option<&'a Stmt>
    ensures { option_copied result ≡ option_map (λ held. held.value) stmt.now }
{
    match stmt {
        Some(stmt) => Some(stmt),
        None => None,
    }
}

/// What a statement does after its step: what is left of it is put on the list.
fn begin<'a>(
    given: Given<'a>,
    frame: &mut Frame,
    todo: &mut Vec<Todo<'a>>,
    at: Place,
    task: &'a Act,
) -> Result<Option<Request>, ElabFault>
    requires accepted { IsAccepted given.checked.now }
    requires typed { IsTypedAct given.checked.now frame.old (pure_act task.now) todo.old.items }
    requires turns { last_turns frame.old.body.items + 64 < 2 ^ 64 }
    requires folded { IsFolded frame.old.body.items }
    ensures ok { IfOk result (λ r. Advanced (program_of given.entry.checked.now) given.entry.choice (λ c. act (program_of given.entry.checked.now) c at (pure_act task.now)) frame.old todo.old.items r frame.new todo.new.items) }
    ensures err { IfErr result (λ f. f ≢ ElabFault.Memory → StopsAt given.entry.choice (λ c. act (program_of given.entry.checked.now) c at (pure_act task.now)) frame.old f) }
    ensures begun { OnOk result (Begun frame.old todo.old.items frame.new todo.new.items) }
    ensures typed { OnOk result (IsTypedBody given.entry.checked.now frame.new todo.new.items) }
    ensures call { IfOk result (λ r. IfSome r (λ q. IsTypedCall given.entry.checked.now frame.new q)) }
    ensures adds { OnOk result (AddsNoCall frame.old.body frame.new.body) }
    ensures turns { OnOk result (last_turns frame.new.body.items < last_turns frame.old.body.items + 64) }
{
    match task {
        Act::Wires(class, decls) => {
            declare_wires(given.alloc, frame, *class, decls.as_slice())?;
            Ok(None)
        }
        Act::Numbers(sort, inits) => {
            declare_numbers(frame, *sort, inits.as_slice())?;
            Ok(None)
        }
        Act::Set(set) => {
            set_number(frame, set)?;
            Ok(None)
        }
        Act::Measure(task) => {
            measure(given, frame, task)?;
            Ok(None)
        }
        Act::Call(call) => begin_call(given, frame, call),
        Act::If(test, body, other) => {
            begin_if(given, frame, todo, test, body, optional(other))?;
            Ok(None)
        }
        Act::While(test, body) => {
            let rounds = Rounds {
                at,
                test: Some(test),
                body,
                advance: None,
            };
            push(todo, Todo::Loop(rounds))?;
            Ok(None)
        }
        Act::For(start, test, advance, body) => {
            let rounds = Rounds {
                at,
                test: test.as_ref(),
                body,
                advance: optional(advance),
            };
            begin_for(given, frame, todo, optional(start), rounds)?;
            Ok(None)
        }
        Act::Block(stmts) => {
            begin_block(given, frame, todo, stmts.as_slice())?;
            Ok(None)
        }
        Act::Empty => Ok(None),
    }
}

/// A statement takes its step and begins.
fn begin_stmt<'a>(
    given: Given<'a>,
    frame: &mut Frame,
    todo: &mut Vec<Todo<'a>>,
    stmt: &'a Stmt,
) -> Result<Option<Request>, ElabFault>
    requires accepted { IsAccepted given.checked.now }
    requires typed { IsTypedBody given.checked.now frame.old (todo.old.items ++ Todo.Do stmt ∷ []) }
    requires turns { HasRoom frame.old }
    requires folded { IsFolded frame.old.body.items }
    ensures ok { IfOk result (λ r. Advanced (program_of given.entry.checked.now) given.entry.choice (λ c. doing (program_of given.entry.checked.now) c (Todo.Do stmt.entry)) frame.old todo.old.items r frame.new todo.new.items) }
    ensures err { IfErr result (λ f. f ≢ ElabFault.Memory → StopsAt given.entry.choice (λ c. doing (program_of given.entry.checked.now) c (Todo.Do stmt.entry)) frame.old f) }
    ensures scopes { OnOk result (leaves todo.new.items + length frame.old.numbers ≡ leaves todo.old.items + length frame.new.numbers) }
    ensures falls { OnOk result (6 * frame.new.steps + length todo.new.items + 3 ≤ 6 * frame.old.steps + length todo.old.items) }
    ensures typed { OnOk result (IsTypedBody given.entry.checked.now frame.new todo.new.items) }
    ensures call { IfOk result (λ r. IfSome r (λ q. IsTypedCall given.entry.checked.now frame.new q)) }
    ensures adds { OnOk result (AddsNoCall frame.old.body frame.new.body) }
    ensures turns { IfOk result (λ r. HasRoomFor r frame.new) }
{
    take_step(frame, stmt.place)?;
    begin(given, frame, todo, stmt.place, &stmt.act)
}

/// The first of statements one after another begins, and the others are put on the list.
fn next_statement<'a>(
    given: Given<'a>,
    frame: &mut Frame,
    todo: &mut Vec<Todo<'a>>,
    stmts: &'a [Stmt],
) -> Result<Option<Request>, ElabFault>
    requires accepted { IsAccepted given.checked.now }
    requires typed { IsTypedBody given.checked.now frame.old (todo.old.items ++ Todo.Rest stmts ∷ []) }
    requires turns { HasRoom frame.old }
    requires folded { IsFolded frame.old.body.items }
    ensures ok { IfOk result (λ r. Advanced (program_of given.entry.checked.now) given.entry.choice (λ c. doing (program_of given.entry.checked.now) c (Todo.Rest stmts.entry)) frame.old todo.old.items r frame.new todo.new.items) }
    ensures err { IfErr result (λ f. f ≢ ElabFault.Memory → StopsAt given.entry.choice (λ c. doing (program_of given.entry.checked.now) c (Todo.Rest stmts.entry)) frame.old f) }
    ensures scopes { OnOk result (leaves todo.new.items + length frame.old.numbers ≡ leaves todo.old.items + length frame.new.numbers) }
    ensures falls { OnOk result (6 * frame.new.steps + length todo.new.items ≤ 6 * frame.old.steps + length todo.old.items) }
    ensures typed { OnOk result (IsTypedBody given.entry.checked.now frame.new todo.new.items) }
    ensures call { IfOk result (λ r. IfSome r (λ q. IsTypedCall given.entry.checked.now frame.new q)) }
    ensures adds { OnOk result (AddsNoCall frame.old.body frame.new.body) }
    ensures turns { IfOk result (λ r. HasRoomFor r frame.new) }
{
    let [first, rest @ ..] = stmts else {
        return Ok(None);
    };
    push(todo, Todo::Rest(rest))?;
    begin_stmt(given, frame, todo, first)
}

/// The scope of a round is entered, and what follows its body is put on the list.
fn enter_round<'a>(
    alloc: Global,
    frame: &mut Frame,
    todo: &mut Vec<Todo<'a>>,
    rounds: Rounds<'a>,
) -> Result<(), Memory>
    ensures view { OnOk result (view frame.new ≡ with_scope (view frame.old)) }
    ensures body { OnOk result (frame.new.body ≡ frame.old.body) }
    ensures todo { OnOk result (todo.new.items ≡ todo.old.items ++ after_round rounds.entry) }
{
    push(todo, Todo::Loop(rounds))?;
    push_optional(todo, rounds.advance)?;
    frame.enter(alloc)?;
    push(todo, Todo::Leave)
}

/// A loop's next round begins with its test; where that holds its body, its advance and the loop again are put on the list.
fn tested_round<'a>(
    given: Given<'a>,
    frame: &mut Frame,
    todo: &mut Vec<Todo<'a>>,
    rounds: Rounds<'a>,
    test: &'a Expr,
) -> Result<(), ElabFault>
    requires test { rounds.test ≡ Some test }
    requires typed { IsTypedBody given.checked.now frame.old (todo.old.items ++ Todo.Loop rounds ∷ []) }
    requires turns { HasRoom frame.old }
    ensures ok { OnOk result (Advanced (program_of given.entry.checked.now) given.entry.choice (λ c. looped (program_of given.entry.checked.now) c rounds.entry) frame.old todo.old.items None frame.new todo.new.items) }
    ensures err { IfErr result (λ f. f ≢ ElabFault.Memory → StopsAt given.entry.choice (λ c. looped (program_of given.entry.checked.now) c rounds.entry) frame.old f) }
    ensures scopes { OnOk result (leaves todo.new.items + length frame.old.numbers ≡ leaves todo.old.items + length frame.new.numbers) }
    ensures falls { OnOk result (6 * frame.new.steps + length todo.new.items ≤ 6 * frame.old.steps + length todo.old.items) }
    ensures typed { OnOk result (IsTypedBody given.entry.checked.now frame.new todo.new.items) }
    ensures body { OnOk result (frame.new.body ≡ frame.old.body) }
    ensures turns { OnOk result (HasRoom frame.new) }
{
    take_step(frame, rounds.at)?;
    let again = holds(frame, test)?;
    if again {
        enter_round(given.alloc, frame, todo, rounds)?;
        push(todo, Todo::Do(rounds.body))?;
        return Ok(());
    }
    Ok(())
}

/// The next round of a loop without a test: its body begins, and its advance and the loop again are put on the list.
fn untested_round<'a>(
    given: Given<'a>,
    frame: &mut Frame,
    todo: &mut Vec<Todo<'a>>,
    rounds: Rounds<'a>,
) -> Result<Option<Request>, ElabFault>
    requires test { rounds.test ≡ None }
    requires accepted { IsAccepted given.checked.now }
    requires typed { IsTypedBody given.checked.now frame.old (todo.old.items ++ Todo.Loop rounds ∷ []) }
    requires turns { HasRoom frame.old }
    requires folded { IsFolded frame.old.body.items }
    ensures ok { IfOk result (λ r. Advanced (program_of given.entry.checked.now) given.entry.choice (λ c. looped (program_of given.entry.checked.now) c rounds.entry) frame.old todo.old.items r frame.new todo.new.items) }
    ensures err { IfErr result (λ f. f ≢ ElabFault.Memory → StopsAt given.entry.choice (λ c. looped (program_of given.entry.checked.now) c rounds.entry) frame.old f) }
    ensures scopes { OnOk result (leaves todo.new.items + length frame.old.numbers ≡ leaves todo.old.items + length frame.new.numbers) }
    ensures falls { OnOk result (6 * frame.new.steps + length todo.new.items ≤ 6 * frame.old.steps + length todo.old.items) }
    ensures typed { OnOk result (IsTypedBody given.entry.checked.now frame.new todo.new.items) }
    ensures call { IfOk result (λ r. IfSome r (λ q. IsTypedCall given.entry.checked.now frame.new q)) }
    ensures adds { OnOk result (AddsNoCall frame.old.body frame.new.body) }
    ensures turns { IfOk result (λ r. HasRoomFor r frame.new) }
{
    enter_round(given.alloc, frame, todo, rounds)?;
    begin_stmt(given, frame, todo, rounds.body)
}

/// A loop's next round.
fn next_round<'a>(
    given: Given<'a>,
    frame: &mut Frame,
    todo: &mut Vec<Todo<'a>>,
    rounds: Rounds<'a>,
) -> Result<Option<Request>, ElabFault>
    requires accepted { IsAccepted given.checked.now }
    requires typed { IsTypedBody given.checked.now frame.old (todo.old.items ++ Todo.Loop rounds ∷ []) }
    requires turns { HasRoom frame.old }
    requires folded { IsFolded frame.old.body.items }
    ensures ok { IfOk result (λ r. Advanced (program_of given.entry.checked.now) given.entry.choice (λ c. looped (program_of given.entry.checked.now) c rounds.entry) frame.old todo.old.items r frame.new todo.new.items) }
    ensures err { IfErr result (λ f. f ≢ ElabFault.Memory → StopsAt given.entry.choice (λ c. looped (program_of given.entry.checked.now) c rounds.entry) frame.old f) }
    ensures scopes { OnOk result (leaves todo.new.items + length frame.old.numbers ≡ leaves todo.old.items + length frame.new.numbers) }
    ensures falls { OnOk result (6 * frame.new.steps + length todo.new.items ≤ 6 * frame.old.steps + length todo.old.items) }
    ensures typed { OnOk result (IsTypedBody given.entry.checked.now frame.new todo.new.items) }
    ensures call { IfOk result (λ r. IfSome r (λ q. IsTypedCall given.entry.checked.now frame.new q)) }
    ensures adds { OnOk result (AddsNoCall frame.old.body frame.new.body) }
    ensures turns { IfOk result (λ r. HasRoomFor r frame.new) }
{
    match rounds.test {
        Some(test) => {
            tested_round(given, frame, todo, rounds, test)?;
            Ok(None)
        }
        None => untested_round(given, frame, todo, rounds),
    }
}

/// The next part of what a body has to do, up to a call.
pub(crate) fn advance<'a>(
    given: Given<'a>,
    frame: &mut Frame,
    todo: &mut Vec<Todo<'a>>,
    next: Todo<'a>,
) -> Result<Option<Request>, ElabFault>
    requires accepted { IsAccepted given.checked.now }
    requires nested { leaves (todo.old.items ++ next ∷ []) < length frame.old.numbers }
    requires typed { IsTypedBody given.checked.now frame.old (todo.old.items ++ next ∷ []) }
    requires turns { HasRoom frame.old }
    requires folded { IsFolded frame.old.body.items }
    ensures ok { IfOk result (λ r. Advanced (program_of given.entry.checked.now) given.entry.choice (λ c. doing (program_of given.entry.checked.now) c next.entry) frame.old todo.old.items r frame.new todo.new.items) }
    ensures err { IfErr result (λ f. f ≢ ElabFault.Memory → StopsAt given.entry.choice (λ c. doing (program_of given.entry.checked.now) c next.entry) frame.old f) }
    ensures nested { OnOk result (leaves todo.new.items < length frame.new.numbers) }
    ensures falls { OnOk result (6 * frame.new.steps + length todo.new.items ≤ 6 * frame.old.steps + length todo.old.items) }
    ensures typed { OnOk result (IsTypedBody given.entry.checked.now frame.new todo.new.items) }
    ensures call { IfOk result (λ r. IfSome r (λ q. IsTypedCall given.entry.checked.now frame.new q)) }
    ensures calls { (deck : List Module) → CallsFit deck frame.old.body.items → OnOk result (CallsFit deck frame.new.body.items) }
    ensures params { OnOk result (frame.new.body.params ≡ frame.old.body.params) }
    ensures turns { IfOk result (λ r. HasRoomFor r frame.new) }
    ensures folded { OnOk result (IsFolded frame.new.body.items) }
{
    match next {
        Todo::Do(stmt) => begin_stmt(given, frame, todo, stmt),
        Todo::Loop(rounds) => next_round(given, frame, todo, rounds),
        Todo::Rest(stmts) => next_statement(given, frame, todo, stmts),
        Todo::Leave => {
            frame.leave();
            Ok(None)
        }
    }
}
