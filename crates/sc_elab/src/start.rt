//! The frame in which the body of a module starts.
ghost use Rattle.std.specs.Prelude.{◌≡◌, ◌+◌, ◌≤◌, List, [], ◌∷◌, map, flat_map, replicate, Some, OnOk, IfOk};
ghost use Rattle.std.specs.Borrow.{Bor};
ghost use Rattle.sc_base.specs.NameMaps.{with_value};
ghost use Rattle.sc_gate.specs.Numbers.{no_wires, both, with_more};
ghost use Rattle.sc_syntax.specs.declared.Stmt.{Stmt};
ghost use Rattle.sc_syntax.specs.Alike.{pure_param, pure_stmt_list};
ghost use Rattle.sc_deck.specs.Keys.{arg_classes, param_classes, params_of, with_arg};
ghost use Rattle.sc_deck.specs.Unfolding.{numbered};
ghost use Rattle.sc_types.specs.Accepted.{IsAccepted};
ghost use Rattle.sc_meaning.specs.Arguments.{wire_params};
ghost use Rattle.sc_meaning.specs.Definitions.{of_module, definition};
ghost use Rattle.sc_meaning.specs.Programs.{program_of};
ghost use Rattle.sc_meaning.specs.Run.{start_state};
ghost use Rattle.sc_elab.specs.declared.todo.Todo.TheVariants.{Rest};
ghost use Rattle.sc_elab.specs.Folding.{HasRoom};
ghost use Rattle.sc_elab.specs.Frames.{view, spread};
ghost use Rattle.sc_elab.specs.Spans.{span_wires};
ghost use Rattle.sc_elab.specs.Starting.{numbers_of, with_args, with_param};
ghost use Rattle.sc_elab.specs.Typings.{IsEntering, IsTypedBody};

use crate::callee::callee_numbers;
use crate::frame::Frame;
use crate::span::Span;
use sc_base::{Class, MOST_STEPS, Memory, NameMap, Text};
use sc_deck::{Arg, Body, Key};
use sc_syntax::{Module, Param};
use sc_types::Checked;
use std::alloc::Global;

/// How many wires of each class there are.
#[derive(Clone, Copy)]
pub(crate) struct Counts {
    pub(crate) qubits: u32,
    pub(crate) cbits: u32,
}

/// So many wires behind those that come before.
fn span_after(class: Class, len: u32, before: Counts) -> Span
    requires few { both (numbers_of before) + len ≤ 65536 }
    ensures { span_wires result ≡ numbered (replicate len class) (numbers_of before) }
{
    let first = match class {
        Class::Q => before.qubits,
        Class::C => before.cbits,
    };
    Span { class, first, len }
}

/// So many wires with those of an argument.
fn with_arg(before: Counts, arg: Arg) -> Counts
    requires few { both (with_arg (numbers_of before) arg) ≤ 65536 }
    ensures { numbers_of result ≡ with_arg (numbers_of before) arg }
{
    match arg {
        Arg::Int(_) | Arg::Double(_) => before,
        Arg::One(class) => with_more(before, class, 1),
        Arg::Many(class, len) => with_more(before, class, len),
    }
}

fn with_more(before: Counts, class: Class, len: u32) -> Counts
    requires few { both (with_more class len (numbers_of before)) ≤ 65536 }
    ensures { numbers_of result ≡ with_more class len (numbers_of before) }
{
    let Counts { qubits, cbits } = before;
    match class {
        Class::Q => Counts {
            qubits: qubits + len,
            cbits,
        },
        Class::C => Counts {
            qubits,
            cbits: cbits + len,
        },
    }
}

/// How many parameter wires of each class there are.
fn param_counts(args: &[Arg]) -> Counts
    requires few { both (with_args no_wires args.now) ≤ 65536 }
    ensures { numbers_of result ≡ with_args no_wires args.now }
{
    let mut counts = Counts {
        qubits: 0,
        cbits: 0,
    };
    for arg in args {
        counts = with_arg(counts, *arg);
    }
    counts
}

#[tactic(auto, using(crate::proofs::Names::spread_with))]
fn declare_span(
    alloc: Global,
    scope: &mut NameMap<Span>,
    name: &Text,
    class: Class,
    len: u32,
    before: Counts,
) -> Result<(), Memory>
    requires few { both (numbers_of before) + len ≤ 65536 }
    ensures { OnOk result (spread scope.new ≡ with_value (spread scope.old) name.now (numbered (replicate len class) (numbers_of before))) }
{
    let span = span_after(class, len, before);
    scope.insert(alloc, name, span)?;
    Ok(())
}

/// The wires of an argument, of which so many of each class come before, under the name of its parameter; a number declares none.
fn declare_param(
    alloc: Global,
    scope: &mut NameMap<Span>,
    name: &Text,
    arg: Arg,
    before: Counts,
) -> Result<(), Memory>
    requires few { both (with_arg (numbers_of before) arg) ≤ 65536 }
    ensures { OnOk result (spread scope.new ≡ with_param (spread scope.old) name.now arg (numbers_of before)) }
{
    match arg {
        Arg::Int(_) | Arg::Double(_) => Ok(()),
        Arg::One(class) => declare_span(alloc, scope, name, class, 1, before),
        Arg::Many(class, len) => declare_span(alloc, scope, name, class, len, before),
    }
}

/// The scope of the parameters that are wires.
fn param_wires(alloc: Global, params: &[Param], args: &[Arg]) -> Result<NameMap<Span>, Memory>
    requires few { both (with_args no_wires args.now) ≤ 65536 }
    ensures { IfOk result (λ scope. spread scope ∷ [] ≡ wire_params (map pure_param params.now) args.now (numbered (flat_map arg_classes args.now) no_wires) ([] ∷ [])) }
{
    let mut scope = NameMap::new(alloc);
    let mut counts = Counts {
        qubits: 0,
        cbits: 0,
    };
    let mut rest = args;
    for param in params {
        let [arg, more @ ..] = rest else {
            return Ok(scope);
        };
        declare_param(alloc, &mut scope, &param.name.text, *arg, counts)?;
        counts = with_arg(counts, *arg);
        rest = more;
    }
    Ok(scope)
}

/// The frame in which the body of a module starts, which has its definition and a key that is entered.
pub(crate) fn start_frame(
    alloc: Global,
    checked: &Checked,
    called: &Module,
    key: &Key,
) -> Result<Frame, Memory>
    requires accepted { IsAccepted checked.now }
    requires defined { definition (program_of checked.now) key.now.name ≡ Some (of_module called.now.name (map pure_param called.now.params) (pure_stmt_list called.now.body)) }
    requires entering { IsEntering checked.now key.now }
    ensures view { IfOk result (λ f. view f ≡ start_state (map pure_param called.now.params) key.now.args (numbered (param_classes key.now) no_wires) (params_of key.now)) }
    ensures typed { IfOk result (λ f. (stmts : Bor (List Stmt)) → stmts.now ≡ called.now.body → IsTypedBody checked.now f (Rest stmts ∷ [])) }
    ensures items { IfOk result (λ f. f.body.items ≡ []) }
    ensures params { IfOk result (λ f. f.body.params ≡ params_of key.now) }
    ensures turns { IfOk result (λ f. HasRoom f) }
{
    let params = called.params.as_slice();
    let args = key.args.as_slice();
    let numbers = callee_numbers(alloc, params, args)?;
    let scope = param_wires(alloc, params, args)?;
    let counts = param_counts(args);
    let mut wires = Vec::new(alloc);
    wires.push(scope)?;
    Ok(Frame {
        numbers,
        wires,
        steps: MOST_STEPS as u32,
        body: Body::new(alloc, counts.qubits, counts.cbits),
    })
}
