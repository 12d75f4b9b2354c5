//! A shelf in memory.
ghost use Rattle.std.specs.Prelude.{◌≡◌, ◌<◌, ◌≤◌, ◌++◌, ◌∷◌, [], ◌↔◌, ◌||◌, ℕ, List, IsTrue, length, take, IfOk, OnOk, OnErr, IsErr, is_err, is_none, if◌then◌else◌, MatchOption};
ghost use Rattle.sc_base.specs.Causes.{HasCause};
ghost use Rattle.sc_base.specs.Texts.{text_under, text_at, same};
ghost use Rattle.sc_base.specs.States.{next, lists};

use crate::mem_sink::is_listed;
use crate::text::copy_front;
use crate::{Failed, List as Items, Memory, Shelf, Text};
use std::alloc::Global;
use std::marker::Model;

/// A text and its name.
#[derive(Drop)]
pub struct Held {
    pub name: Text,
    pub text: Text,
}

/// A shelf that keeps its texts in memory and always tells them. Calls that are listed fail, and so does
/// `begin` of a name that is not held; no other call fails. Contracts see it as a `ShelfState`.
#[derive(Drop)]
pub struct MemShelf {
    alloc: Global,
    // in order of `put`: the last text of a name is the one that is held
    texts: Vec<Held>,
    // the place of the begun text, and how much of it was read; past the last text where none is begun
    begun: usize,
    at: usize,
    listed: Items<u64>,
    calls: u64,
    faults: u64,
}

impl Model for MemShelf {
    ghost use Rattle.std.specs.Prelude.{◌≤◌, length, drop};
    ghost use Rattle.sc_base.specs.Texts.{ShelfState, text_at};

    ghost Value = { ShelfState };

    ghost view = { λ s. record {
      texts = s.texts.items;
      rest = drop s.at (text_at s.texts.items s.begun);
      listed = s.listed;
      calls = s.calls;
      faults = s.faults;
    } };

    ghost invariant = { λ s. s.at ≤ length (text_at s.texts.items s.begun) };
}

/// The place of the text that is held under a name, the last with that name.
fn find_text(texts: &[Held], name: &[u8]) -> Option<usize>
    ensures { MatchOption result (text_under None texts.now name.now ≡ None)
        (λ i. text_under None texts.now name.now ≡ Some (text_at texts.now i)) }
{
    let mut found = None;
    for (i, held) in texts.iter().enumerate() {
        if held.name.as_bytes() == name {
            found = Some(i);
        }
    }
    found
}

/// The text at a place, and nothing past the last.
fn begun_text(texts: &[Held], begun: usize) -> &[u8]
    ensures { result.now ≡ text_at texts.now begun }
{
    match texts.get(begun) {
        None => &[],
        Some(held) => held.text.as_bytes(),
    }
}

/// Appends a text and its name.
fn add_text(alloc: Global, texts: &mut Vec<Held>, name: &[u8], bytes: &[u8]) -> Result<(), Memory>
    ensures ok { OnOk result (texts.new.items ≡ texts.old.items ++ record { name = name.now; text = bytes.now } ∷ []) }
    ensures err { OnErr result (texts.new.items ≡ texts.old.items) }
{
    let name = Text::from_bytes(alloc, name)?;
    let text = Text::from_bytes(alloc, bytes)?;
    match texts.push(Held { name, text }) {
        Ok(()) => Ok(()),
        Err(_) => Err(Memory),
    }
}

impl MemShelf {
    /// A shelf that holds nothing, with no text begun and no call listed.
    pub fn new(alloc: Global) -> MemShelf
        ensures { result ≡ record { texts = []; rest = []; listed = []; calls = 0; faults = 0 } }
    {
        MemShelf {
            alloc,
            texts: Vec::new(alloc),
            begun: 0,
            at: 0,
            listed: Items::new(alloc),
            calls: 0,
            faults: 0,
        }
    }

    /// Holds the bytes under the name, in the place of a text that was held there. No text is begun then.
    pub fn put(&mut self, name: &[u8], bytes: &[u8]) -> Result<(), Memory>
        ensures ok { OnOk result ((q : List ℕ) → text_under None self.new.texts q ≡
            (if same name.now q then Some bytes.now else text_under None self.old.texts q)) }
        ensures none_begun { OnOk result (self.new.rest ≡ []) }
        ensures calls { self.new ≡ record self.old { texts = self.new.texts; rest = self.new.rest } }
        ensures err { OnErr result (self.new ≡ self.old) }
    {
        add_text(self.alloc, &mut self.texts, name, bytes)?;
        self.begun = self.texts.len();
        self.at = 0;
        Ok(())
    }

    /// Lists a call, which then fails. Calls are numbered from 1 over `begin` and `read`.
    pub fn fail_at(&mut self, call: u64) -> Result<(), Memory>
        ensures ok { OnOk result (self.new ≡ record self.old { listed = self.old.listed ++ call ∷ [] }) }
        ensures err { OnErr result (self.new ≡ self.old) }
    {
        self.listed.push(call)?;
        Ok(())
    }
}

impl Shelf for MemShelf {
    ghost use Rattle.std.specs.Prelude.{true, None};
    ghost use Rattle.sc_base.specs.Texts.{text_under};

    ghost tells_held = { λ _. true };

    ghost held = { λ s name. text_under None s.texts name };

    ghost tells_rest = { λ _. true };

    ghost rest = { λ s. s.rest };

    ghost faults = { λ s. s.faults };

    #[tactic(auto, using(crate::proofs::TextLemmas::text_at_past))]
    fn begin(&mut self, name: &[u8]) -> Result<(), Failed>
        ensures held { self.new.texts ≡ self.old.texts }
        ensures begun { OnOk result (text_under None self.old.texts name.now ≡ Some self.new.rest) }
        ensures none_begun { OnErr result (self.new.rest ≡ []) }
        ensures cause { HasCause self.old.faults self.new.faults result }

        ensures fails { IsErr result ↔ IsTrue (lists self.old.listed (next self.old.calls) || is_none (text_under None self.old.texts name.now)) }
        ensures calls { self.new.calls ≡ next self.old.calls }
        ensures list { self.new.listed ≡ self.old.listed }
        ensures faults { self.new.faults ≡ (if is_err result then next self.old.faults else self.old.faults) }
    {
        self.calls = self.calls.saturating_add(1);
        self.begun = self.texts.len();
        self.at = 0;
        if is_listed(self.listed.as_slice(), self.calls) {
            self.faults = self.faults.saturating_add(1);
            return Err(Failed);
        }
        match find_text(&self.texts, name) {
            None => {
                self.faults = self.faults.saturating_add(1);
                Err(Failed)
            }
            Some(begun) => {
                self.begun = begun;
                Ok(())
            }
        }
    }

    fn read(&mut self, buf: &mut [u8]) -> Result<usize, Failed>
        ensures held { self.new.texts ≡ self.old.texts }
        ensures bound { IfOk result (λ n. n ≤ length buf.new) }
        ensures bytes { IfOk result (λ n. self.old.rest ≡ take n buf.new ++ self.new.rest) }
        ensures end { IfOk result (λ n. n ≡ 0 → 0 < length buf.old → self.old.rest ≡ []) }
        ensures cause { HasCause self.old.faults self.new.faults result }

        ensures fails { IsErr result ↔ IsTrue (lists self.old.listed (next self.old.calls)) }
        ensures calls { self.new.calls ≡ next self.old.calls }
        ensures list { self.new.listed ≡ self.old.listed }
        ensures faults { self.new.faults ≡ (if is_err result then next self.old.faults else self.old.faults) }
        ensures kept { OnErr result (self.new.rest ≡ self.old.rest) }
    {
        self.calls = self.calls.saturating_add(1);
        if is_listed(self.listed.as_slice(), self.calls) {
            self.faults = self.faults.saturating_add(1);
            return Err(Failed);
        }
        let text = begun_text(&self.texts, self.begun);
        let count = copy_front(text, self.at, buf);
        self.at += count;
        Ok(count)
    }

    ghost both_told = { λ s told. told };
}
