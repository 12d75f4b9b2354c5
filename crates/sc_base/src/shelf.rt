//! Where texts are read from, by name.
ghost use Rattle.std.specs.Prelude.{◌≡◌, ◌<◌, ◌≤◌, ℕ, List, ◌++◌, Bool, IsTrue, length, take, [], IfOk, OnOk, OnErr, IsErrOf};
ghost use Rattle.std.specs.declared.option.Option.{Option};
ghost use Rattle.sc_base.specs.Causes.{Rose, HasCause};
ghost use Rattle.sc_base.specs.declared.shelf.ReadAllFault.TheVariants.{Memory as OutOfMemory, ReadFault};

use crate::{Failed, Memory, Text};
use std::alloc::Global;

/// Texts under names, of which one at a time is begun and read. A name is any list of bytes.
///
/// No call changes the texts that are held, nor whether they or the rest of the begun text are told.
pub trait Shelf {
    /// Whether the held texts are told.
    ghost tells_held: { Self → Bool };

    /// The text under each name, where the held texts are told.
    ghost held: { Self → List ℕ → Option (List ℕ) };

    /// Whether the rest of the begun text is told.
    ghost tells_rest: { Self → Bool };

    /// The rest of the begun text, where it is told, and nothing where no text is begun.
    ghost rest: { Self → List ℕ };

    /// How often the shelf has failed. The count never falls, and stays at 18446744073709551615.
    ghost faults: { Self → ℕ };

    /// Begins the named text at its first byte. Where the held texts are told, it answers Ok only for a
    /// name under which a text is held. It fails only where the count of faults rises; then no text is begun.
    fn begin(&mut self, name: &[u8]) -> Result<(), Failed>
        ensures held { held self.new ≡ held self.old }
        ensures tells_held { tells_held self.new ≡ tells_held self.old }
        ensures tells_rest { tells_rest self.new ≡ tells_rest self.old }
        ensures begun { OnOk result (IsTrue (tells_held self.old) → held self.old name.now ≡ Some (rest self.new)) }
        ensures none_begun { OnErr result (IsTrue (tells_rest self.old) → rest self.new ≡ []) }
        ensures cause { HasCause (faults self.old) (faults self.new) result };

    /// Puts the next bytes of the begun text at the front of `buf` and answers their number. Where `buf` has
    /// room, 0 means the end of the text, or that no text is begun. It fails only where the count of faults
    /// rises; what was read so far is then of no use until the next `begin`.
    fn read(&mut self, buf: &mut [u8]) -> Result<usize, Failed>
        ensures held { held self.new ≡ held self.old }
        ensures tells_held { tells_held self.new ≡ tells_held self.old }
        ensures tells_rest { tells_rest self.new ≡ tells_rest self.old }
        ensures bound { IfOk result (λ n. n ≤ length buf.new) }
        ensures bytes { IfOk result (λ n. IsTrue (tells_rest self.old) → rest self.old ≡ take n buf.new ++ rest self.new) }
        ensures end { IfOk result (λ n. IsTrue (tells_rest self.old) → n ≡ 0 → 0 < length buf.old → rest self.old ≡ []) }
        ensures cause { HasCause (faults self.old) (faults self.new) result };

    /// A shelf that tells the held texts tells the rest too.
    ghost both_told: { (shelf : Self) → IsTrue (tells_held shelf) → IsTrue (tells_rest shelf) };
}

/// Why a text was not read whole.
#[derive(Clone, Copy, Debug, PartialEq, Eq)]
pub enum ReadAllFault {
    /// The shelf failed, and its count of faults rose.
    ReadFault,
    /// The text has more bytes than the limit.
    SourceTooLarge,
    /// There is not enough memory.
    Memory,
}

impl From<Memory> for ReadAllFault {
    ghost from_gives = { λ _ e. e ≡ OutOfMemory };

    fn from(_: Memory) -> Self {
        ReadAllFault::Memory
    }
}

impl From<Failed> for ReadAllFault {
    ghost from_gives = { λ _ e. e ≡ ReadFault };

    fn from(_: Failed) -> Self {
        ReadAllFault::ReadFault
    }
}

/// How many bytes one read asks for.
const PIECE: usize = 65_536;

/// Answers the whole text under a name, of at most `limit` bytes. It answers `SourceTooLarge` exactly where
/// the shelf gave more bytes before the end, and `ReadFault` only where the shelf's count of faults rose.
/// The held texts, and what is told, stay as they are.
pub fn read_all<F: Shelf>(
    alloc: Global,
    shelf: &mut F,
    name: &[u8],
    limit: u64,
) -> Result<Text, ReadAllFault>
    ensures held { F.held shelf.new ≡ F.held shelf.old }
    ensures tells_held { F.tells_held shelf.new ≡ F.tells_held shelf.old }
    ensures tells_rest { F.tells_rest shelf.new ≡ F.tells_rest shelf.old }
    ensures later { F.faults shelf.old ≤ F.faults shelf.new }

    ensures read { IfOk result (λ text. length text ≤ limit) }
    ensures whole { IfOk result (λ text. IsTrue (F.tells_held shelf.old) → F.held shelf.old name.now ≡ Some text) }
    ensures too_large { IsErrOf result ReadAllFault.SourceTooLarge → IsTrue (F.tells_held shelf.old) →
        (text : List ℕ) × (F.held shelf.old name.now ≡ Some text) × (limit < length text) }
    ensures fault { IsErrOf result ReadAllFault.ReadFault → Rose (F.faults shelf.old) (F.faults shelf.new) }
{
    let mut piece = zeros(alloc, PIECE)?;
    shelf.begin(name)?;
    read_rest(alloc, shelf, &mut piece, limit)
}

/// A buffer of that many bytes.
fn zeros(alloc: Global, count: usize) -> Result<Vec<u8>, Memory>
    ensures { IfOk result (λ buffer. length buffer.items ≡ count) }
{
    Ok(vec![in alloc; 0; count]?)
}

/// The rest of the begun text, read in pieces of the size of `piece`. Each turn takes at least one byte, so
/// it ends at the end of the text, at a fault or past the limit.
fn read_rest<F: Shelf>(
    alloc: Global,
    shelf: &mut F,
    piece: &mut [u8],
    limit: u64,
) -> Result<Text, ReadAllFault>
    requires { 0 < length piece.old }
    ensures held { F.held shelf.new ≡ F.held shelf.old }
    ensures tells_held { F.tells_held shelf.new ≡ F.tells_held shelf.old }
    ensures tells_rest { F.tells_rest shelf.new ≡ F.tells_rest shelf.old }
    ensures later { F.faults shelf.old ≤ F.faults shelf.new }

    ensures read { IfOk result (λ text. length text ≤ limit) }
    ensures whole { IfOk result (λ text. IsTrue (F.tells_rest shelf.old) → F.rest shelf.old ≡ text) }
    ensures too_large { IsErrOf result ReadAllFault.SourceTooLarge → IsTrue (F.tells_rest shelf.old) →
        limit < length (F.rest shelf.old) }
    ensures fault { IsErrOf result ReadAllFault.ReadFault → Rose (F.faults shelf.old) (F.faults shelf.new) }
{
    let mut text = Text::new(alloc);
    loop {
        let count = shelf.read(piece)?;
        if count == 0 {
            return Ok(text);
        }
        if limit - (text.len() as u64) < count as u64 {
            return Err(ReadAllFault::SourceTooLarge);
        }
        text.push_bytes(&piece[..count])?;
    }
}
