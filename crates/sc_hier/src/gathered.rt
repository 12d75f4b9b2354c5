//! Bytes on their way to a sink, gathered so that short pieces cost no call of their own.
ghost use Rattle.std.specs.Prelude.{◌≡◌, [], ◌++◌, ◌+◌, ◌≤◌, false, length, OnOk};
ghost use Rattle.sc_base.specs.Causes.{HasCause};
ghost use Rattle.sc_hier.specs.Gathering.{Gathers, GathersPrefix};

use sc_base::{Sink, WriteFault, write_all};
use std::marker::Model;

/// How many bytes are gathered at most.
const ROOM: usize = 8192;

/// Bytes that are still to be handed to a sink, at most 8192, seen as these bytes. It takes no memory.
///
/// After a fault of the sink it is done with: what it held then may have been handed over in part.
#[derive(Drop)]
pub struct Gathered {
    bytes: [u8; ROOM],
    len: usize,
}

impl Model for Gathered {
    ghost use Rattle.std.specs.Prelude.{ℕ, List, ◌≤◌, take};

    ghost Value = { List ℕ };

    ghost view = { λ held. take held.len held.bytes };

    ghost invariant = { λ held. held.len ≤ 8192 };
}

impl Gathered {
    /// No byte yet.
    pub fn new() -> Gathered
        ensures { result ≡ [] }
    {
        Gathered {
            bytes: [0; ROOM],
            len: 0,
        }
    }

    /// Holds the piece too. There is room for it.
    fn append(&mut self, piece: &[u8])
        requires { length self.old + length piece.now ≤ 8192 }
        ensures { self.new ≡ self.old ++ piece.now }
    {
        let end = self.len + piece.len();
        self.bytes[self.len..end].copy_from_slice(piece);
        self.len = end;
    }

    /// Hands over what is held.
    pub fn flush<O: Sink>(&mut self, out: &mut O) -> Result<(), WriteFault>
        requires open { O.is_ended out.old ≡ false }
        ensures open { O.is_ended out.new ≡ false }
        ensures emptied { OnOk result (self.new ≡ []) }
        ensures gathered { OnOk result (Gathers O.tells O.bytes out.old out.new self.old self.new []) }
        ensures prefix { GathersPrefix O.tells O.bytes out.old out.new self.old [] }
        ensures cause { HasCause (O.faults out.old) (O.faults out.new) result }
    {
        write_all(out, &self.bytes[..self.len])?;
        self.len = 0;
        Ok(())
    }

    /// Appends the piece: it is held. Where there is no room for it, what was held is handed over before, and with it a piece
    /// that is longer than all the room.
    pub fn push<O: Sink>(&mut self, piece: &[u8], out: &mut O) -> Result<(), WriteFault>
        requires open { O.is_ended out.old ≡ false }
        ensures open { O.is_ended out.new ≡ false }
        ensures gathered { OnOk result (Gathers O.tells O.bytes out.old out.new self.old self.new piece.now) }
        ensures prefix { GathersPrefix O.tells O.bytes out.old out.new self.old piece.now }
        ensures cause { HasCause (O.faults out.old) (O.faults out.new) result }
    {
        if piece.len() <= ROOM - self.len {
            self.append(piece);
            return Ok(());
        }
        self.flush(out)?;
        if piece.len() <= ROOM {
            self.append(piece);
            return Ok(());
        }
        write_all(out, piece)?;
        Ok(())
    }
}
