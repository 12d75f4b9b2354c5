//! Decks: bodies under their keys, callees before callers.
ghost use Rattle.std.specs.Prelude.{◌≡◌, ◌↔◌, [], ◌∷◌, ◌++◌, ◌<◌, ◌+◌, ◌-◌, length, map, flat_map, take, ℕ, ◌≢◌, IsTrue, OnOk, OnErr, IfOk, IfSome, IfNone, MatchOption, slice_get, replicate, true, false, slice_index_or, ◌≤◌, slice_index, Some, ◌||◌, nat_eq, List};
ghost use Rattle.std.specs.Option.{option_map, option_copied};
ghost use Rattle.std.specs.List.{list_any};
ghost use Rattle.sc_gate.specs.declared.gate.Wire.{Wire};
ghost use Rattle.sc_base.specs.declared.names.Class.{Class};
ghost use Rattle.sc_gate.specs.Gates.{class_of};
ghost use Rattle.sc_deck.specs.CallChains.{IsReach};
ghost use Rattle.sc_deck.specs.Decks.{CallFits, CallsFit, IsNewKey, IsDeck, IsWhole};
ghost use Rattle.sc_deck.specs.Items.{callees_of};
ghost use Rattle.sc_deck.specs.Keys.{arg_classes, params_of, HasLengths, main_key};
ghost use Rattle.sc_deck.specs.Modules.{Module, key_of, body_of, heights_of, reaches_of, greatest_called};
ghost use Rattle.sc_deck.specs.Entries.{height_in, reach_in};

use crate::entry::Entry;
use crate::range::args_have_ranges;
use crate::{Arg, Body, Item, Key};
use indexmap::IndexMap;
use sc_base::{Class, Memory};
use sc_gate::Wire;
use std::alloc::Global;
use std::marker::Model;

/// Instances in the order of their numbers, each a key with its body. Keys are distinct, bodies have the parameter wires of their keys,
/// and each call is of an earlier body and has its parameters in number and class. There are at most 65,536 bodies.
#[derive(Debug, Drop)]
pub struct Deck {
    entries: IndexMap<Key, Entry>,
    called: Vec<bool>,
}

impl Model for Deck {
    ghost use Rattle.std.specs.Prelude.{List};
    ghost use Rattle.sc_deck.specs.Modules.{Module};
    ghost use Rattle.sc_deck.specs.Entries.{modules_in, KeepsDeck};

    ghost Value = { List Module };

    ghost view = { λ d. modules_in d.entries.entries };

    ghost invariant = { λ d. KeepsDeck d.entries.entries d.called.items };
}

impl Deck {
    /// A deck with no body. It takes memory at the first push.
    pub fn new(alloc: Global) -> Deck
        ensures { result ≡ [] }
    {
        Deck {
            entries: IndexMap::new(alloc),
            called: Vec::new(alloc),
        }
    }

    /// Appends a body under its key and answers its number, counted from 0. The deck needs room for one more body, and each
    /// call of the body has to fit (`fits_call`). Unchanged after `Memory`.
    pub fn push_body(&mut self, key: Key, body: Body) -> Result<u32, Memory>
        requires new { IsNewKey self.old key }
        requires lengths { HasLengths key }
        requires params { body.params ≡ params_of key }
        requires room { length self.old < 65536 }
        requires calls { CallsFit self.old body.items }
        ensures number { IfOk result (λ n. n ≡ length self.old) }
        ensures pushed { OnOk result (self.new ≡ self.old ++ record { key = key; items = body.items } ∷ []) }
        ensures err { OnErr result (self.new ≡ self.old) }
    {
        args_have_ranges(key.args.as_slice());
        let number = self.entries.len() as u32;
        let (height, reach) = called_by_all(&self.entries, body.items());
        let height = height + 1;
        let reach = reach + u64::from(body.wires());
        if self.entries.reserve(1).is_err() {
            return Err(Memory);
        }
        if self.called.push(false).is_err() {
            return Err(Memory);
        }
        mark_callees(&mut self.called, body.items());
        let entry = Entry {
            body,
            height,
            reach,
        };
        let _ = self.entries.insert(key, entry);
        Ok(number)
    }

    /// How many bodies there are, at most 65,536. Takes no memory.
    pub fn len(&self) -> u32
        ensures count { result ≡ length self.now }
        ensures sound { IsDeck self.now }
    {
        self.entries.len() as u32
    }

    /// The key of body `i`, counted from 0; None where there is no such body. Takes no memory.
    pub fn key_at(&self, i: u32) -> Option<&Key>
        ensures { option_copied result ≡ option_map key_of (slice_get self.now i) }
    {
        match self.entries.get_index(i as usize) {
            Some((key, _)) => Some(key),
            None => None,
        }
    }

    /// Body `i`, counted from 0; None where there is no such body. Takes no memory.
    pub fn body_at(&self, i: u32) -> Option<&Body>
        ensures { option_copied result ≡ option_map body_of (slice_get self.now i) }
    {
        match self.entries.get_index(i as usize) {
            Some((_, entry)) => Some(&entry.body),
            None => None,
        }
    }

    /// Whether body `callee` is there and the wires have its parameters' number and classes, in order. Takes no memory.
    pub fn fits_call(&self, callee: u32, wires: &[Wire]) -> bool
        ensures { IsTrue result ↔ CallFits self.now callee wires.now }
    {
        match self.key_at(callee) {
            Some(key) => fits_args(key.args.as_slice(), wires),
            None => false,
        }
    }

    /// The number of the body with this key; None where no body has it. Takes no memory.
    pub fn find(&self, key: &Key) -> Option<u32>
        ensures found { IfSome result (λ i. option_map key_of (slice_get self.now i) ≡ Some key.now) }
        ensures none { IfNone result (IsNewKey self.now key.now) }
    {
        match self.entries.get_index_of(key) {
            Some(i) => Some(i as u32),
            None => None,
        }
    }

    /// The height of body `i`: 1 without calls, else 1 more than the greatest height called; None where there is no such body.
    /// Takes no memory.
    pub fn height(&self, i: u32) -> Option<u32>
        ensures { result ≡ slice_get (heights_of self.now) i }
    {
        match self.entries.get_index(i as usize) {
            Some((_, entry)) => Some(entry.height),
            None => None,
        }
    }

    /// The greatest sum of wires along a chain of calls from the last body; 0 where there is no body. Takes no memory.
    pub fn reach(&self) -> u64
        ensures value { result ≡ slice_index (reaches_of self.now) (length self.now - 1) }
        ensures chains { IsReach self.now result }
    {
        match self.entries.last() {
            Some((_, entry)) => entry.reach,
            None => 0,
        }
    }

    /// Whether the last key is main without arguments and every other body is called by a later one. Takes no memory.
    pub fn is_whole(&self) -> bool
        ensures { IsTrue result ↔ IsWhole self.now }
    {
        match self.entries.last() {
            Some((key, _)) => is_main(key) && all_but_last(self.called.as_slice()),
            None => false,
        }
    }
}

/// Whether the classes of the wires are those of the arguments, in order.
fn fits_args(args: &[Arg], wires: &[Wire]) -> bool
    ensures { IsTrue result ↔ (map class_of wires.now ≡ flat_map arg_classes args.now) }
{
    let mut rest = wires;
    for arg in args {
        match wires_taken(arg, rest) {
            Some(count) => rest = rest.split_at(count).1,
            None => return false,
        }
    }
    rest.is_empty()
}

/// How many wires at the front of the list the argument stands for, where their classes suit it.
fn wires_taken(arg: &Arg, wires: &[Wire]) -> Option<usize>
    ensures bound { IfSome result (λ n. n ≤ length wires.now) }
    ensures taken { IfSome result (λ n. map class_of (take n wires.now) ≡ arg_classes arg.now) }
    ensures none { IfNone result ((rest : List Class) → map class_of wires.now ≢ arg_classes arg.now ++ rest) }
{
    let (class, count) = class_and_count(arg);
    if wires.len() < count {
        return None;
    }
    if !all_of_class(class, &wires[..count]) {
        return None;
    }
    Some(count)
}

/// The class of the wires that the argument stands for, and their number.
fn class_and_count(arg: &Arg) -> (Class, usize)
    ensures { arg_classes arg.now ≡ replicate result.1 result.0 }
{
    match *arg {
        Arg::Int(_) | Arg::Double(_) => (Class::Q, 0),
        Arg::One(class) => (class, 1),
        Arg::Many(class, count) => (class, count as usize),
    }
}

fn all_of_class(class: Class, wires: &[Wire]) -> bool
    ensures { IsTrue result ↔ (map class_of wires.now ≡ replicate (length wires.now) class) }
{
    for wire in wires {
        if !has_class(wire, class) {
            return false;
        }
    }
    true
}

fn has_class(wire: &Wire, class: Class) -> bool
    ensures { IsTrue result ↔ (wire.now.class ≡ class) }
{
    wire.class == class
}

fn is_main(key: &Key) -> bool
    ensures { IsTrue result ↔ (key.now ≡ main_key) }
{
    key.name.as_bytes() == b"main".as_slice() && key.args.is_empty()
}

/// Whether all marks but the last are set.
fn all_but_last(marks: &[bool]) -> bool
    ensures { IsTrue result ↔ ((i : ℕ) → i + 1 < length marks.now → slice_get marks.now i ≡ Some true) }
{
    for i in 1..marks.len() {
        if !marks[i - 1] {
            return false;
        }
    }
    true
}

/// The greatest height and the greatest reach of the bodies that the items call, and 0 where they call none.
fn called_by_all(entries: &IndexMap<Key, Entry>, items: &[Item]) -> (u32, u64)
    ensures height { result.0 ≡ greatest_called (map height_in entries.now.entries) items.now }
    ensures reach { result.1 ≡ greatest_called (map reach_in entries.now.entries) items.now }
{
    let mut height: u32 = 0;
    let mut reach: u64 = 0;
    for item in items {
        let (called_height, called_reach) = called_by(entries, item);
        height = height.max(called_height);
        reach = reach.max(called_reach);
    }
    (height, reach)
}

/// The height and the reach of the body that the item calls, and 0 where it calls none.
fn called_by(entries: &IndexMap<Key, Entry>, item: &Item) -> (u32, u64)
    ensures height { result.0 ≡ greatest_called (map height_in entries.now.entries) (item.now ∷ []) }
    ensures reach { result.1 ≡ greatest_called (map reach_in entries.now.entries) (item.now ∷ []) }
{
    let Some(callee) = item.callee() else {
        return (0, 0);
    };
    match entries.get_index(callee as usize) {
        Some((_, entry)) => (entry.height, entry.reach),
        None => (0, 0),
    }
}

/// Sets the marks of the bodies that the items call.
fn mark_callees(marks: &mut [bool], items: &[Item])
    ensures len { length marks.new ≡ length marks.old }
    ensures marked { (i : ℕ) → i < length marks.old →
        slice_index_or marks.new i false ≡ (slice_index_or marks.old i false || list_any (nat_eq i) (callees_of items.now)) }
{
    for item in items {
        mark_callee(marks, item);
    }
}

/// Sets the mark of the body that the item calls.
fn mark_callee(marks: &mut [bool], item: &Item)
    ensures len { length marks.new ≡ length marks.old }
    ensures marked { (i : ℕ) → i < length marks.old →
        slice_index_or marks.new i false ≡ (slice_index_or marks.old i false || list_any (nat_eq i) (callees_of (item.now ∷ []))) }
{
    let Some(callee) = item.callee() else {
        return;
    };
    let at = callee as usize;
    if at < marks.len() {
        marks[at] = true;
    }
}
