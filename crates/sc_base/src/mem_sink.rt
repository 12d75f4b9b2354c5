//! A sink in memory, whose room is set aside when it is made.
ghost use Rattle.std.specs.Prelude.{◌≡◌, ◌<◌, ◌≤◌, ◌++◌, ◌∷◌, [], ◌↔◌, ◌||◌, ◌==◌, IsTrue, true, false, length, take, IfOk, OnOk, OnErr, IsErr};
ghost use Rattle.sc_base.specs.Causes.{HasCause};
ghost use Rattle.sc_base.specs.States.{new_sink, lists, fails_next, takes, sink_after_write, sink_after_finish};

use crate::{Failed, List, Memory, Sink};
use std::alloc::Global;
use std::marker::Model;

/// A sink that keeps its bytes in memory and always tells them. A write takes at most `piece` bytes, and all
/// writes together at most `room`. Calls that are listed fail. Contracts see it as a `SinkState`.
#[derive(Drop)]
pub struct MemSink {
    bytes: Vec<u8>,
    piece: usize,
    // how many more bytes fit
    room: usize,
    listed: List<u64>,
    calls: u64,
    faults: u64,
    is_ended: bool,
}

impl Model for MemSink {
    ghost use Rattle.std.specs.Prelude.{◌+◌, ◌≤◌, ◌<◌, length, vec_capacity};
    ghost use Rattle.sc_base.specs.States.{SinkState};

    ghost Value = { SinkState };

    ghost view = { λ s. record {
      bytes = s.bytes.items;
      piece = s.piece;
      room = s.room;
      listed = s.listed;
      calls = s.calls;
      faults = s.faults;
      is_ended = s.is_ended;
    } };

    ghost invariant = { λ s. (length s.bytes.items + s.room ≤ vec_capacity s.bytes) × (0 < s.piece) };
}

impl MemSink {
    /// A sink that holds nothing, is not ended and has no call listed. It reserves `room` bytes.
    pub fn new(alloc: Global, piece: usize, room: usize) -> Result<MemSink, Memory>
        requires { 0 < piece }
        ensures { IfOk result (λ sink. sink ≡ new_sink piece room) }
    {
        match Vec::with_capacity(alloc, room) {
            Ok(bytes) => Ok(MemSink {
                bytes,
                piece,
                room,
                listed: List::new(alloc),
                calls: 0,
                faults: 0,
                is_ended: false,
            }),
            Err(_) => Err(Memory),
        }
    }

    /// Lists a call, which then fails. Calls are numbered from 1 over `write` and `finish`.
    pub fn fail_at(&mut self, call: u64) -> Result<(), Memory>
        ensures ok { OnOk result (self.new ≡ record self.old { listed = self.old.listed ++ call ∷ [] }) }
        ensures err { OnErr result (self.new ≡ self.old) }
    {
        self.listed.push(call)?;
        Ok(())
    }

    /// The bytes written.
    pub fn written(&self) -> &[u8]
        ensures { result.now ≡ self.now.bytes }
    {
        self.bytes.as_slice()
    }
}

impl Sink for MemSink {
    ghost use Rattle.std.specs.Prelude.{true};

    ghost tells = { λ _. true };

    ghost bytes = { λ s. s.bytes };

    ghost faults = { λ s. s.faults };

    ghost is_ended = { λ s. s.is_ended };

    fn write(&mut self, piece: &[u8]) -> Result<usize, Failed>
        requires open { self.old.is_ended ≡ false }
        requires nonempty { 0 < length piece.now }
        ensures open { self.new.is_ended ≡ false }
        ensures some { IfOk result (λ n. 0 < n) }
        ensures bound { IfOk result (λ n. n ≤ length piece.now) }
        ensures appended { IfOk result (λ n. self.new.bytes ≡ self.old.bytes ++ take n piece.now) }
        ensures unchanged { OnErr result (self.new.bytes ≡ self.old.bytes) }
        ensures cause { HasCause self.old.faults self.new.faults result }

        ensures count { IfOk result (λ n. n ≡ takes self.old (length piece.now)) }
        ensures fails { IsErr result ↔ IsTrue (fails_next self.old || self.old.room == 0) }
        ensures state { self.new ≡ sink_after_write self.old piece.now }
        ensures stood { OnOk result (self.new.faults ≡ self.old.faults) }
    {
        self.calls = self.calls.saturating_add(1);
        if is_listed(self.listed.as_slice(), self.calls) || self.room == 0 {
            self.faults = self.faults.saturating_add(1);
            return Err(Failed);
        }
        let count = self.piece.min(piece.len()).min(self.room);
        self.bytes.extend_from_slice(&piece[..count]).unwrap();
        self.room -= count;
        Ok(count)
    }

    fn finish(&mut self) -> Result<(), Failed>
        requires open { self.old.is_ended ≡ false }
        ensures unchanged { self.new.bytes ≡ self.old.bytes }
        ensures ended { OnOk result (self.new.is_ended ≡ true) }
        ensures open { OnErr result (self.new.is_ended ≡ false) }
        ensures cause { HasCause self.old.faults self.new.faults result }

        ensures fails { IsErr result ↔ IsTrue (fails_next self.old) }
        ensures state { self.new ≡ sink_after_finish self.old }
        ensures stood { OnOk result (self.new.faults ≡ self.old.faults) }
    {
        self.calls = self.calls.saturating_add(1);
        if is_listed(self.listed.as_slice(), self.calls) {
            self.faults = self.faults.saturating_add(1);
            return Err(Failed);
        }
        self.is_ended = true;
        Ok(())
    }

    fn ended(&self) -> bool {
        self.is_ended
    }
}

/// Whether the call with this number is listed.
pub(crate) fn is_listed(listed: &[u64], number: u64) -> bool
    ensures { result ≡ lists listed.now number }
{
    listed.contains(&number)
}
