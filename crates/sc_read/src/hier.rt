//! Hierarchical texts, line by line.
ghost use Rattle.std.specs.Prelude.{◌≡◌, ◌≤◌, ◌<◌, ◌^◌, ◌+◌, ◌++◌, ◌∷◌, [], ◌↔◌, ℕ, Bool, List, length, slice_get, IfOk, IfErr, OnOk, IfSome, IfNone, IsTrue, codes, fold, ◌≢◌, ◌-◌, OnErr};
ghost use Rattle.sc_base.specs.Lines.{IsLine, IsReadWhole};
ghost use Rattle.sc_gate.specs.Lines.{number_line};
ghost use Rattle.sc_gate.specs.Numbers.{Numbers, number_of, no_wires, both};
ghost use Rattle.sc_deck.specs.Bodies.{wires_of, with_item};
ghost use Rattle.sc_deck.specs.Decks.{IsWhole};
ghost use Rattle.sc_deck.specs.Items.{after_item, ItemFits};
ghost use Rattle.sc_deck.specs.declared.key.Key.{Key as KeyValue};
ghost use Rattle.sc_deck.specs.Hierarchical.{IsSound};
ghost use Rattle.sc_deck.specs.Keys.{main_key, params_of, with_arg};
ghost use Rattle.sc_deck.specs.Modules.{Module, heights_of, greatest_called};
ghost use Rattle.sc_read.specs.HierFronts.{step_item, repeated_item, kept_item};
ghost use Rattle.sc_read.specs.HierReads.{IsHierText, IsHierFault};
ghost use Rattle.sc_read.specs.HierStages.{version_of, Over, Between, Within, Goes, Breaks, MayEnd};
ghost use Rattle.sc_read.specs.HierSteps.{IsLineFault, IsFaultFrom, IsEndFault, IsLimitFault, IsWithinLimit, IsBegun, Begins, GoesOn, ItemsRead, ModuleRead, EndsWithMain, module_of};

use crate::item_line::{ItemLine, Step, item_of};
use crate::signature::heading;
use sc_base::{
    Class, Lines, MOST_DEPTH, MOST_INSTANCES, MOST_ITEMS, MOST_WIRES, Memory, take_text,
};
use sc_deck::{Arg, Body, Deck, Key};
use std::alloc::Global;

/// Why a hierarchical text was not read.
#[derive(Clone, Copy, Debug, PartialEq, Eq)]
pub enum HierFault {
    /// The first line, from 1, that is not in its place.
    BadQasm(u32),
    /// The first line at which a module has more than 65,536 wires, parameters included.
    TooWide(u32),
    /// The first line of an item past the 1,048,576th of its module.
    TooLong(u32),
    /// The first line of a call that gives a height past 256.
    TooDeep(u32),
    /// The first line of a module past the 65,536th.
    TooManyInstances(u32),
    /// No memory was left.
    Memory,
}

impl From<Memory> for HierFault {
    ghost use Rattle.sc_read.specs.declared.hier.HierFault.TheVariants.{Memory as OutOfMemory};

    ghost from_gives = { λ _ e. e ≡ OutOfMemory };

    fn from(_: Memory) -> Self {
        HierFault::Memory
    }
}

/// The deck of a hierarchical text of at most 134,217,728 bytes. `BadQasm` comes exactly where the first line that is out of the
/// grammar or passes a limit is out of it, with that line, or the one behind the last where the text ends too early. The other
/// refusals come exactly where that line is in its place and passes the limit; `TooManyInstances` goes before `TooWide`, that before
/// `TooLong`, and that before `TooDeep`.
pub fn read_hier(alloc: Global, text: &[u8]) -> Result<Deck, HierFault>
    requires { length text.now ≤ 134217728 }
    ensures ok { IfOk result (λ deck. IsHierText text.now deck) }
    ensures sound { IfOk result (λ deck. IsSound deck) }
    ensures fault { IfErr result (λ fault. IsHierFault text.now fault) }
{
    let Some((turns, modules)) = take_title(text) else {
        return Err(HierFault::BadQasm(1));
    };
    read_modules(alloc, modules, turns)
}

/// Whether items may have turns, by the first line, and what follows it.
fn take_title(text: &[u8]) -> Option<(bool, &[u8])>
    ensures some { IfSome result (λ r. text.now ≡ number_line (codes "hier") (version_of r.0) ++ r.1.now) }
    ensures none { IfNone result ((turns : Bool) (rest : List ℕ) → text.now ≡ number_line (codes "hier") (version_of turns) ++ rest → ⊥) }
{
    if let Some(rest) = take_text(text, b"hier 1\n") {
        return Some((false, rest));
    }
    match take_text(text, b"hier 2\n") {
        Some(rest) => Some((true, rest)),
        None => None,
    }
}

/// The modules behind the first line, up to the end of main.
fn read_modules(alloc: Global, text: &[u8], turns: bool) -> Result<Deck, HierFault>
    requires { length text.now ≤ 134217728 }
    ensures ok { IfOk result (λ deck. IsReadWhole Goes MayEnd (Between turns []) text.now (Over deck)) }
    ensures sound { IfOk result (λ deck. IsSound deck) }
    ensures fault { IfErr result (λ fault. IsFaultFrom (Between turns []) text.now 2 fault) }
{
    let mut deck = Deck::new(alloc);
    let mut lines = Lines {
        rest: text,
        number: 2,
    };
    while let Some(line) = lines.next_line() {
        let last = read_module(alloc, line, &mut lines, turns, &mut deck)?;
        if last {
            return end_text(deck, lines.rest, lines.number);
        }
    }
    Err(HierFault::BadQasm(lines.number))
}

/// The deck, where main has ended in its place at the line before this number and nothing is left.
fn end_text(deck: Deck, rest: &[u8], number: u32) -> Result<Deck, HierFault>
    requires { 0 < number }
    ensures ok { IfOk result (λ d. (d ≡ deck) × IsWhole deck × (rest.now ≡ [])) }
    ensures fault { IfErr result (λ fault. IsEndFault deck rest.now number fault) }
{
    if !deck.is_whole() {
        return Err(HierFault::BadQasm(number - 1));
    }
    if !rest.is_empty() {
        return Err(HierFault::BadQasm(number));
    }
    Ok(deck)
}

/// Reads the module that this line begins, up to its end, and puts it behind the others. Whether it is main without
/// arguments.
fn read_module(
    alloc: Global,
    line: &[u8],
    lines: &mut Lines,
    turns: bool,
    deck: &mut Deck,
) -> Result<bool, HierFault>
    requires line { IsLine line.now }
    requires room { lines.old.number + length lines.old.rest.now < 2 ^ 32 }
    requires number { 0 < lines.old.number }
    ensures ok { OnOk result ((m : Module) × ModuleRead turns deck.old deck.new line.now (lines.old.number - 1) lines.old lines.new m) }
    ensures main { IfOk result (λ last. IsTrue last ↔ EndsWithMain deck.new) }
    ensures bound { lines.new.number + length lines.new.rest.now ≤ lines.old.number + length lines.old.rest.now }
    ensures fault { IfErr result (λ fault. IsFaultFrom (Between turns deck.old) (line.now ++ lines.old.rest.now) (lines.old.number - 1) fault) }
{
    let (key, mut body) = begin_module(alloc, line, lines.number - 1, deck)?;
    read_items(alloc, lines, turns, deck, &mut body)?;
    let last = is_main(&key);
    deck.push_body(key, body)?;
    Ok(last)
}

fn is_main(key: &Key) -> bool
    ensures { IsTrue result ↔ (key.now ≡ main_key) }
{
    key.name.as_bytes() == b"main".as_slice() && key.args.is_empty()
}

/// The key and the empty body of the module that this line begins.
fn begin_module(
    alloc: Global,
    line: &[u8],
    number: u32,
    deck: &Deck,
) -> Result<(Key, Body), HierFault>
    ensures ok { IfOk result (λ r. Begins deck.now line.now r.0 r.1) }
    ensures fault { IfErr result (λ fault. (turns : Bool) → IsLineFault (Between turns deck.now) line.now number fault) }
{
    let Some(key) = heading(alloc, line, deck.len())? else {
        return Err(HierFault::BadQasm(number));
    };
    if deck.find(&key).is_some() {
        return Err(HierFault::BadQasm(number));
    }
    if deck.len() as usize >= MOST_INSTANCES {
        return Err(HierFault::TooManyInstances(number));
    }
    let qubits = params_within(Class::Q, key.args.as_slice());
    let cbits = params_within(Class::C, key.args.as_slice());
    if qubits + cbits > MOST_WIRES as u32 {
        return Err(HierFault::TooWide(number));
    }
    Ok((key, Body::new(alloc, qubits, cbits)))
}

/// How many wires of the class the arguments stand for, a number past 65,536 as 65,537.
fn params_within(class: Class, args: &[Arg]) -> u32
    ensures bound { result ≤ 65537 }
    ensures exact { result ≤ 65536 → number_of class (fold with_arg no_wires args.now) ≡ result }
    ensures past { 65536 < result → 65536 < number_of class (fold with_arg no_wires args.now) }
{
    let mut sum: u32 = 0;
    for arg in args {
        let count = wires_for(class, arg);
        if count > MOST_WIRES as u32 - sum {
            return MOST_WIRES as u32 + 1;
        }
        sum += count;
    }
    sum
}

/// How many wires of the class the argument stands for.
fn wires_for(class: Class, arg: &Arg) -> u32
    ensures { (wires : Numbers) → number_of class (with_arg wires arg.now) ≡ number_of class wires + result }
{
    match *arg {
        Arg::One(c) if c == class => 1,
        Arg::Many(c, count) if c == class => count,
        _ => 0,
    }
}

/// The items of a module, up to its end.
fn read_items(
    alloc: Global,
    lines: &mut Lines,
    turns: bool,
    deck: &Deck,
    body: &mut Body,
) -> Result<(), HierFault>
    requires room { lines.old.number + length lines.old.rest.now < 2 ^ 32 }
    requires begun { IsBegun deck.now body.old }
    ensures ok { OnOk result (ItemsRead turns deck.now body.old body.new lines.old lines.new) }
    ensures bound { lines.new.number + length lines.new.rest.now ≤ lines.old.number + length lines.old.rest.now }
    ensures fault { IfErr result (λ fault. (key : KeyValue) → body.old.params ≡ params_of key →
        IsFaultFrom (Within turns deck.now (module_of key body.old)) lines.old.rest.now lines.old.number fault) }
{
    while let Some(line) = lines.next_line() {
        if line == b"end\n".as_slice() {
            return Ok(());
        }
        read_item(alloc, line, lines.number - 1, turns, deck, body)?;
    }
    Err(HierFault::BadQasm(lines.number))
}

/// Puts the item of this line behind the body, where it is in its place and passes no limit.
fn read_item(
    alloc: Global,
    line: &[u8],
    number: u32,
    turns: bool,
    deck: &Deck,
    body: &mut Body,
) -> Result<(), HierFault>
    requires not_end { line.now ≢ codes "end\n" }
    requires begun { IsBegun deck.now body.old }
    ensures ok { OnOk result (GoesOn turns deck.now body.old line.now body.new) }
    ensures fault { IfErr result (λ fault. (key : KeyValue) → body.old.params ≡ params_of key →
        IsLineFault (Within turns deck.now (module_of key body.old)) line.now number fault) }
{
    let Some(item) = item_of(alloc, line, turns, deck, body)? else {
        return Err(HierFault::BadQasm(number));
    };
    if let Some(fault) = limit_at(&item, number, deck, body) {
        return Err(fault);
    }
    push_item(item, body)?;
    Ok(())
}

/// The first limit that this item passes behind the body, as the fault of the line with this number.
fn limit_at(item: &ItemLine, number: u32, deck: &Deck, body: &Body) -> Option<HierFault>
    ensures some { IfSome result (λ fault. IsLimitFault deck.now body.now (kept_item item.now) number fault) }
    ensures none { IfNone result (IsWithinLimit deck.now body.now (kept_item item.now)) }
{
    if fresh_in(item) > MOST_WIRES as u32 - body.wires() {
        return Some(HierFault::TooWide(number));
    }
    if body.items().len() >= MOST_ITEMS {
        return Some(HierFault::TooLong(number));
    }
    if height_called(item, deck) as usize >= MOST_DEPTH {
        return Some(HierFault::TooDeep(number));
    }
    None
}

/// How many fresh wires the item has.
fn fresh_in(item: &ItemLine) -> u32
    ensures { (wires : Numbers) → both (after_item wires (kept_item item.now)) ≡ both wires + result }
{
    match item {
        ItemLine::Fresh(_, count) => *count,
        _ => 0,
    }
}

/// The height of the body that the item calls, and 0 where it calls none.
fn height_called(item: &ItemLine, deck: &Deck) -> u32
    ensures { result ≡ greatest_called (heights_of deck.now) (kept_item item.now ∷ []) }
{
    match item {
        ItemLine::Fresh(_, _) => 0,
        ItemLine::Once(step) | ItemLine::Repeated(step, _) => height_entered(step, deck),
    }
}

/// The height of the body that the step calls, and 0 where it calls none.
fn height_entered(step: &Step, deck: &Deck) -> u32
    ensures { result ≡ greatest_called (heights_of deck.now) (step_item step.now ∷ []) }
{
    match step {
        Step::Apply(_) => 0,
        Step::Enter(callee, _) => match deck.height(*callee) {
            Some(height) => height,
            None => 0,
        },
    }
}

/// Puts the item behind the body.
fn push_item(item: ItemLine, body: &mut Body) -> Result<(), Memory>
    requires fits { ItemFits (wires_of body.old) (kept_item item) }
    requires narrow { both (after_item (wires_of body.old) (kept_item item)) ≤ 65536 }
    ensures ok { OnOk result (body.new ≡ with_item body.old (kept_item item)) }
    ensures err { OnErr result (body.new ≡ body.old) }
{
    match item {
        ItemLine::Fresh(class, count) => body.push_fresh(class, count),
        ItemLine::Once(step) => push_step(step, body),
        ItemLine::Repeated(step, turns) => push_repeated(step, turns, body),
    }
}

/// Puts the step behind the body.
fn push_step(step: Step, body: &mut Body) -> Result<(), Memory>
    requires { ItemFits (wires_of body.old) (step_item step) }
    ensures ok { OnOk result (body.new ≡ with_item body.old (step_item step)) }
    ensures err { OnErr result (body.new ≡ body.old) }
{
    match step {
        Step::Apply(gate) => body.push_gate(gate),
        Step::Enter(callee, wires) => body.push_call(callee, wires.as_slice()),
    }
}

/// Puts so many turns of the step behind the body.
fn push_repeated(step: Step, turns: u64, body: &mut Body) -> Result<(), Memory>
    requires { ItemFits (wires_of body.old) (repeated_item step turns) }
    ensures ok { OnOk result (body.new ≡ with_item body.old (repeated_item step turns)) }
    ensures err { OnErr result (body.new ≡ body.old) }
{
    match step {
        Step::Apply(gate) => body.push_gates(gate, turns),
        Step::Enter(callee, wires) => body.push_calls(callee, wires.as_slice(), turns),
    }
}
