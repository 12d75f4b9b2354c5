//! The edge to files, standard input and the standard outputs. Their content is not told, but what is read comes from
//! the reader in its order, and what is written goes to the writer in its order.
ghost use Rattle.std.specs.Prelude.{◌≡◌, ◌≢◌, ◌<◌, ◌≤◌, ◌↔◌, false, true, [], length, codes, IfOk, OnOk, OnErr, IsErr};
ghost use Rattle.std.specs.Io.{ReadsAtMost};
ghost use Rattle.std.specs.Io.KnownBytes.{ReadConsumes, WriteAppends, Keeps};
ghost use Rattle.sc_base.specs.Causes.{HasCause};
ghost use Rattle.sc_base.specs.Sources.{IsSourceOf};

use crate::{Failed, Memory, Shelf, Sink};
use std::alloc::Global;
use std::fs::File;
use std::io::{BufWriter, Read, Stdin, Write};
use std::{fs, str};

/// Files by their names, and standard input under the name `-`. A name that is not UTF-8 or that cannot be
/// opened is a fault, and so is a read that fails.
#[derive(Drop)]
pub struct RealShelf {
    rt: HostRuntime,
    input: Stdin,
    begun: Begun,
    faults: u64,
}

/// What is being read.
#[derive(Drop)]
enum Begun {
    Nothing,
    Input,
    File(File),
}

/// Where the text under a name is read from.
#[derive(Clone, Copy)]
enum Source<'a> {
    Input,
    File(&'a str),
    NoPath,
}

/// Standard input under `-`, and the file of that path under another name, where that is UTF-8.
fn source_of(name: &[u8]) -> Source<'_>
    ensures { IsSourceOf name.now result }
{
    if name == b"-".as_slice() {
        return Source::Input;
    }
    match str::from_utf8(name) {
        Ok(path) => Source::File(path),
        Err(_) => Source::NoPath,
    }
}

/// Reads the next bytes of a reader to the front of `buf`, in their order, and answers their number.
fn read_next<R: Read>(reader: &mut R, buf: &mut [u8]) -> Result<usize, Failed>
    ensures bound { ReadsAtMost result buf.new }
    ensures bytes { ReadConsumes (R.remaining reader.old) (R.remaining reader.new) result buf.new }
{
    match reader.read(buf) {
        Ok(count) => Ok(count),
        Err(_) => Err(Failed),
    }
}

impl RealShelf {
    /// No text is begun, and no fault is counted.
    pub fn new(rt: HostRuntime) -> RealShelf
        ensures { ⟦<RealShelf as Shelf>⟧.faults result ≡ 0 }
    {
        let input = rt.stdin();
        RealShelf {
            rt,
            input,
            begun: Begun::Nothing,
            faults: 0,
        }
    }

    /// Begins the file of the path, where it can be opened.
    fn open(&mut self, path: &str) -> Result<(), Failed>
        ensures cause { HasCause self.old.faults self.new.faults result }
        ensures file { OnOk result (self.new.begun ≢ Begun.Input) }
        ensures none_begun { OnErr result (self.new.begun ≡ Begun.Nothing) }
        ensures stood { OnOk result (self.new.faults ≡ self.old.faults) }
    {
        match fs::open(&self.rt, path) {
            Ok(file) => {
                self.begun = Begun::File(file);
                Ok(())
            }
            Err(_) => self.fail(),
        }
    }

    /// Counts a fault. No text is begun then.
    fn fail<T>(&mut self) -> Result<T, Failed>
        ensures cause { HasCause self.old.faults self.new.faults result × IsErr result }
        ensures none_begun { self.new.begun ≡ Begun.Nothing }
    {
        self.begun = Begun::Nothing;
        self.faults = self.faults.saturating_add(1);
        Err(Failed)
    }
}

impl Shelf for RealShelf {
    ghost use Rattle.std.specs.Prelude.{false, None, []};

    ghost tells_held = { λ _. false };

    ghost held = { λ _ _. None };

    ghost tells_rest = { λ _. false };

    ghost rest = { λ _. [] };

    ghost faults = { λ s. s.faults };

    fn begin(&mut self, name: &[u8]) -> Result<(), Failed>
        ensures cause { HasCause self.old.faults self.new.faults result }

        ensures input { OnOk result ((self.new.begun ≡ Begun.Input) ↔ (name.now ≡ codes "-")) }
        ensures none_begun { OnErr result (self.new.begun ≡ Begun.Nothing) }
        ensures stood { OnOk result (self.new.faults ≡ self.old.faults) }
    {
        self.begun = Begun::Nothing;
        match source_of(name) {
            Source::Input => {
                self.begun = Begun::Input;
                Ok(())
            }
            Source::File(path) => self.open(path),
            Source::NoPath => self.fail(),
        }
    }

    fn read(&mut self, buf: &mut [u8]) -> Result<usize, Failed>
        ensures bound { IfOk result (λ n. n ≤ length buf.new) }
        ensures cause { HasCause self.old.faults self.new.faults result }

        ensures stood { OnOk result (self.new.faults ≡ self.old.faults) }
        ensures none_begun { OnErr result (self.new.begun ≡ Begun.Nothing) }
    {
        let answer = match &mut self.begun {
            Begun::Nothing => return Ok(0),
            Begun::Input => read_next(&mut self.input, buf),
            Begun::File(file) => read_next(file, buf),
        };
        match answer {
            Ok(count) => Ok(count),
            Err(_) => self.fail(),
        }
    }

    ghost both_told = { λ s told. told };
}

/// How many bytes a `RealSink` gathers before it writes them out.
const GATHERED: usize = 65_536;

/// A writer of std, such as standard output, behind a buffer that is written out when it is full and at
/// `finish`. A write of the writer that fails or takes 0 bytes is a fault.
#[derive(Drop)]
pub struct RealSink<W: Write + Drop> {
    inner: BufWriter<W>,
    faults: u64,
    is_ended: bool,
}

impl<W: Write + Drop> RealSink<W> {
    /// Makes the buffer, and writes nothing. The sink is not ended, and no fault is counted.
    pub fn new(alloc: Global, inner: W) -> Result<RealSink<W>, Memory>
        ensures open { IfOk result (λ sink. ⟦<RealSink<W> as Sink>⟧.is_ended sink ≡ false) }
        ensures faults { IfOk result (λ sink. ⟦<RealSink<W> as Sink>⟧.faults sink ≡ 0) }
    {
        match BufWriter::with_capacity(alloc, GATHERED, inner) {
            Ok(inner) => Ok(RealSink {
                inner,
                faults: 0,
                is_ended: false,
            }),
            Err(_) => Err(Memory),
        }
    }

    /// Counts a fault.
    fn fail<T>(&mut self) -> Result<T, Failed>
        ensures cause { HasCause self.old.faults self.new.faults result × IsErr result }
        ensures open { self.new.is_ended ≡ self.old.is_ended }
        ensures inner { self.new.inner ≡ self.old.inner }
    {
        self.faults = self.faults.saturating_add(1);
        Err(Failed)
    }
}

impl<W: Write + Drop> Sink for RealSink<W> {
    ghost use Rattle.std.specs.Prelude.{false, []};
    ghost use Rattle.std.specs.Io.Buffered.{writer_contents, writer_buffer};

    ghost tells = { λ _. false };

    ghost bytes = { λ _. [] };

    ghost faults = { λ s. s.faults };

    ghost is_ended = { λ s. s.is_ended };

    fn write(&mut self, piece: &[u8]) -> Result<usize, Failed>
        requires open { self.old.is_ended ≡ false }
        requires nonempty { 0 < length piece.now }
        ensures open { self.new.is_ended ≡ false }
        ensures some { IfOk result (λ n. 0 < n) }
        ensures bound { IfOk result (λ n. n ≤ length piece.now) }
        ensures cause { HasCause self.old.faults self.new.faults result }

        // What is answered as written was appended to what the writer holds, where that is known.
        ensures held { WriteAppends (writer_contents W.contents self.old.inner) (writer_contents W.contents self.new.inner) result piece.now }
        ensures stood { OnOk result (self.new.faults ≡ self.old.faults) }
    {
        match self.inner.write(piece) {
            Ok(0) | Err(_) => self.fail(),
            Ok(count) => Ok(count),
        }
    }

    fn finish(&mut self) -> Result<(), Failed>
        requires open { self.old.is_ended ≡ false }
        ensures ended { OnOk result (self.new.is_ended ≡ true) }
        ensures open { OnErr result (self.new.is_ended ≡ false) }
        ensures cause { HasCause self.old.faults self.new.faults result }

        // Nothing is left in the buffer of a sink that was ended.
        ensures held { Keeps (writer_contents W.contents self.old.inner) (writer_contents W.contents self.new.inner) }
        ensures passed_on { OnOk result (writer_buffer self.new.inner ≡ []) }
        ensures stood { OnOk result (self.new.faults ≡ self.old.faults) }
    {
        match self.inner.flush() {
            Ok(()) => {
                self.is_ended = true;
                Ok(())
            }
            Err(_) => self.fail(),
        }
    }

    fn ended(&self) -> bool {
        self.is_ended
    }
}
