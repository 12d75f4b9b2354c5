//! Requests over a shelf, an output or a sink of fault lines that fails at any of its calls.
ghost use Rattle.std.specs.Prelude.{◌≡◌, false, IfOk};

use crate::requests::{REFUSED, REQUESTS, carry, failing_sink, shelf, sink};
use sc_base::{Failed, MemSink, Sink};
use std::alloc::Global;
use std::process::Abort;
use std::test::Fail;

/// A sink that takes a byte a call, fails at one call, and counts its calls.
#[derive(Drop)]
struct Counting {
    sink: MemSink,
    calls: u64,
}

fn counted(alloc: Global, call: u64) -> Result<Counting, Fail>
    ensures { IfOk result (λ out. out.sink.is_ended ≡ false) }
{
    Ok(Counting {
        sink: failing_sink(alloc, call)?,
        calls: 0,
    })
}

impl Sink for Counting {
    ghost use Rattle.std.specs.Prelude.{true};

    ghost tells = { λ _. true };

    ghost bytes = { λ s. s.sink.bytes };

    ghost faults = { λ s. s.sink.faults };

    ghost is_ended = { λ s. s.sink.is_ended };

    fn write(&mut self, piece: &[u8]) -> Result<usize, Failed> {
        self.calls = self.calls.saturating_add(1);
        self.sink.write(piece)
    }

    fn finish(&mut self) -> Result<(), Failed> {
        self.calls = self.calls.saturating_add(1);
        self.sink.finish()
    }

    fn ended(&self) -> bool {
        self.sink.ended()
    }
}

/// The first call of the shelf at which it may fail and the request is carried out all the same. At each call before it
/// the answer is that a text can't be read, and nothing is written.
fn calls_of_shelf(rt: &impl Abort, alloc: Global, request: &[&str]) -> Result<u64, Fail> {
    for call in 1..100 {
        let mut shelf = shelf(alloc)?;
        shelf.fail_at(call)?;
        let (mut out, mut err) = (sink(alloc)?, sink(alloc)?);
        let status = carry(alloc, request, &mut shelf, &mut out, &mut err)?;
        if status == 0 {
            return Ok(call);
        }
        assert_eq!(rt; status, 3, "{request:?} at {call}");
        assert_eq!(rt; out.written(), b"".as_slice());
        assert_eq!(rt; err.written(), b"scaff: ReadFault\n".as_slice());
    }
    Ok(0)
}

/// Each text is begun, read, and read at its end.
#[test]
fn a_shelf_fails_at_any_call(rt: HostRuntime) -> Result<(), Fail> {
    for (request, texts) in REQUESTS {
        let calls = calls_of_shelf(&rt, rt.alloc(), request)?;
        assert_eq!(rt; calls, 3 * texts + 1, "{request:?}");
    }
    Ok(())
}

/// What a request writes where nothing fails.
fn whole(rt: &impl Abort, alloc: Global, request: &[&str]) -> Result<MemSink, Fail> {
    let (mut out, mut err) = (sink(alloc)?, sink(alloc)?);
    let status = carry(alloc, request, &mut shelf(alloc)?, &mut out, &mut err)?;
    assert_eq!(rt; status, 0, "{request:?}");
    assert!(rt; out.ended() && !err.ended());
    assert_eq!(rt; err.written(), b"".as_slice());
    Ok(out)
}

/// The request over an output that fails at a call: what stands there is the bytes before, and no call follows. Answers
/// whether the output was ended before that call.
fn fails_at(
    rt: &impl Abort,
    alloc: Global,
    request: &[&str],
    text: &[u8],
    call: u64,
) -> Result<bool, Fail> {
    let (mut out, mut err) = (counted(alloc, call)?, sink(alloc)?);
    let status = carry(alloc, request, &mut shelf(alloc)?, &mut out, &mut err)?;
    if out.ended() {
        assert_eq!(rt; (status, out.sink.written()), (0, text));
        return Ok(true);
    }
    assert_eq!(rt; status, 7, "{request:?} at {call}");
    assert_eq!(rt; out.calls, call);
    assert_eq!(rt; out.sink.written().len() as u64 + 1, call);
    assert!(rt; text.starts_with(out.sink.written()));
    assert_eq!(rt; err.written(), b"scaff: WriteFault\n".as_slice());
    assert!(rt; err.ended());
    Ok(false)
}

#[test]
fn an_output_fails_at_any_call(rt: HostRuntime) -> Result<(), Fail> {
    let alloc = rt.alloc();
    for (request, _) in REQUESTS {
        let whole = whole(&rt, alloc, request)?;
        let text = whole.written();
        // a call for each byte, and one at the end
        for call in 1..text.len() as u64 + 2 {
            assert!(rt; !fails_at(&rt, alloc, request, text, call)?);
        }
        assert!(rt; fails_at(&rt, alloc, request, text, text.len() as u64 + 2)?);
    }
    Ok(())
}

#[test]
fn a_sink_of_fault_lines_fails_at_any_call(rt: HostRuntime) -> Result<(), Fail> {
    let alloc = rt.alloc();
    for (request, line, want) in REFUSED {
        for call in 1..line.len() + 3 {
            let (mut out, mut err) = (sink(alloc)?, counted(alloc, call as u64)?);
            let status = carry(alloc, request, &mut shelf(alloc)?, &mut out, &mut err)?;
            assert_eq!(rt; status, want, "{request:?} at {call}");
            assert!(rt; line.as_bytes().starts_with(err.sink.written()));
            assert!(rt; err.calls <= call as u64);
            assert_eq!(rt; err.ended(), err.calls < call as u64);
            assert_eq!(rt; err.sink.written().len(), line.len().min(call - 1));
            assert_eq!(rt; out.written(), b"".as_slice());
        }
    }
    Ok(())
}
