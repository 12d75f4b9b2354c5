//! Texts past a limit, and gates that no list could hold.
use crate::requests::{carry, sink};
use sc_base::{MemShelf, MemSink, Sink};
use std::alloc::Global;
use std::fmt::Write;
use std::process::Abort;
use std::test::Fail;

/// That `expand` of the text is refused with this fault line and status 5.
fn too_large(rt: &impl Abort, alloc: Global, text: &str, line: &str) -> Result<(), Fail> {
    let mut shelf = MemShelf::new(alloc);
    shelf.put(b"a", text.as_bytes())?;
    let (mut out, mut err) = (sink(alloc)?, sink(alloc)?);
    let status = carry(alloc, &["expand", "a"], &mut shelf, &mut out, &mut err)?;
    assert_eq!(rt; status, 5);
    assert_eq!(rt; out.written(), b"".as_slice());
    assert_eq!(rt; err.written(), line.as_bytes());
    Ok(())
}

/// 257 modules, each of which but the first calls the one before it.
#[test]
fn calls_are_too_deep(rt: HostRuntime) -> Result<(), Fail> {
    let mut text = String::new(rt.alloc());
    text.push_str("hier 1\nmodule 0 m(0)\nend\n")?;
    for i in 1..257u32 {
        write!(text, "module {i} m({i})\ncall {}\nend\n", i - 1)?;
    }
    too_large(&rt, rt.alloc(), text.as_str(), "scaff: line 770: TooDeep\n")
}

/// One module more than a text may have.
#[test]
fn there_are_too_many_modules(rt: HostRuntime) -> Result<(), Fail> {
    let mut text = String::new(rt.alloc());
    text.push_str("hier 1\n")?;
    for i in 0..65_537 {
        write!(text, "module {i} k({i})\nend\n")?;
    }
    let line = "scaff: line 131074: TooManyInstances\n";
    too_large(&rt, rt.alloc(), text.as_str(), line)
}

const DOUBLING: &str =
    "module m(qbit q, int n) { if (n == 0) { X(q); } else { m(q, n-1); m(q, n-1); } }\nint main() { qbit q; m(q, 63); }\n";

/// The flat text of 2^63 gates is begun at once, and a fault of the output ends it.
#[test]
fn no_list_of_gates_is_kept(rt: HostRuntime) -> Result<(), Fail> {
    let alloc = rt.alloc();
    let request = ["flat", "--limit", "18446744073709551615", "a"].as_slice();
    for piece in [1, 1_000_000] {
        let mut shelf = MemShelf::new(alloc);
        shelf.put(b"a", DOUBLING.as_bytes())?;
        let (mut out, mut err) = (MemSink::new(alloc, piece, 1_000_000)?, sink(alloc)?);
        out.fail_at(3)?;
        let status = carry(alloc, request, &mut shelf, &mut out, &mut err)?;
        assert_eq!(rt; status, 7);
        assert_eq!(rt; err.written(), b"scaff: WriteFault\n".as_slice());
        assert!(rt; out.written().len() >= 2 && !out.ended());
    }
    Ok(())
}
