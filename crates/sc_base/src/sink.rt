//! Where bytes are written to.
ghost use Rattle.std.specs.Prelude.{◌≡◌, ◌<◌, ◌≤◌, ℕ, List, ◌++◌, Bool, IsTrue, true, false, length, take, [], IfOk, OnOk, OnErr, IsErrOf};
ghost use Rattle.sc_base.specs.Causes.{Rose, HasCause};
ghost use Rattle.sc_base.specs.Output.{Wrote, WrotePrefix};

use crate::{Failed, WriteFault};

/// Bytes are written to it until it is ended.
///
/// No call changes whether it tells its bytes.
pub trait Sink {
    /// Whether the bytes written are told.
    ghost tells: { Self → Bool };

    /// The bytes written, where they are told.
    ghost bytes: { Self → List ℕ };

    /// How often the sink has failed. The count never falls, and stays at 18446744073709551615.
    ghost faults: { Self → ℕ };

    /// Whether the sink is ended.
    ghost is_ended: { Self → Bool };

    /// Appends the first bytes of a nonempty piece, at least one, and answers their number. It fails only
    /// where the count of faults rises, and then appends nothing. The sink is not ended before and after.
    fn write(&mut self, piece: &[u8]) -> Result<usize, Failed>
        requires open { is_ended self.old ≡ false }
        requires nonempty { 0 < length piece.now }
        ensures tells { tells self.new ≡ tells self.old }
        ensures open { is_ended self.new ≡ false }
        ensures some { IfOk result (λ n. 0 < n) }
        ensures bound { IfOk result (λ n. n ≤ length piece.now) }
        ensures appended { IfOk result (λ n. IsTrue (tells self.old) → bytes self.new ≡ bytes self.old ++ take n piece.now) }
        ensures unchanged { OnErr result (IsTrue (tells self.old) → bytes self.new ≡ bytes self.old) }
        ensures cause { HasCause (faults self.old) (faults self.new) result };

    /// Ends the sink, which is not ended before, and appends nothing. It fails only where the count of faults
    /// rises; then the sink is still not ended.
    fn finish(&mut self) -> Result<(), Failed>
        requires open { is_ended self.old ≡ false }
        ensures tells { tells self.new ≡ tells self.old }
        ensures unchanged { IsTrue (tells self.old) → bytes self.new ≡ bytes self.old }
        ensures ended { OnOk result (is_ended self.new ≡ true) }
        ensures open { OnErr result (is_ended self.new ≡ false) }
        ensures cause { HasCause (faults self.old) (faults self.new) result };

    /// Whether the sink is ended.
    fn ended(&self) -> bool
        ensures { result ≡ is_ended self.now };
}

/// Appends the bytes. It answers `WriteFault` only where the sink's count of faults rose, and then a prefix of
/// the bytes was appended. The sink is not ended before and after.
pub fn write_all<O: Sink>(out: &mut O, bytes: &[u8]) -> Result<(), WriteFault>
    requires open { O.is_ended out.old ≡ false }
    ensures open { O.is_ended out.new ≡ false }
    ensures appended { OnOk result (Wrote O.tells O.bytes out.old out.new bytes.now) }
    ensures prefix { WrotePrefix O.tells O.bytes out.old out.new bytes.now }
    ensures cause { HasCause (O.faults out.old) (O.faults out.new) result }
{
    let mut rest = bytes;
    while !rest.is_empty() {
        match out.write(rest) {
            Ok(count) => rest = &rest[count..],
            Err(_) => return Err(WriteFault),
        }
    }
    Ok(())
}
