//! Texts that end too early.
use crate::requests::{carry, sink};
use sc_base::MemShelf;
use std::alloc::Global;
use std::fmt::Write;
use std::process::Abort;
use std::test::Fail;

const SOURCE: &str = "int main() { qbit q[2]; H(q[0]); CNOT(q[0],q[1]); return 0; }\n";

const PAIRS: &str =
    "hier 1\nmodule 0 g(q)\nqbit 1\nH q1\nH q1\nH q1\nCNOT q1,q0\nend\nmodule 1 main()\nqbit 1\ncall 0 q0\ncall 0 q0\nend\n";

/// That the request of a mode on this text is refused with status 1, and nothing written. Answers the fault line.
fn refused(rt: &impl Abort, alloc: Global, mode: &str, text: &[u8]) -> Result<String, Fail> {
    let mut shelf = MemShelf::new(alloc);
    shelf.put(b"a", text)?;
    let (mut out, mut err) = (sink(alloc)?, sink(alloc)?);
    let status = carry(alloc, &[mode, "a"], &mut shelf, &mut out, &mut err)?;
    assert_eq!(rt; status, 1, "{mode} of {} bytes", text.len());
    assert_eq!(rt; out.written(), b"".as_slice());
    Ok(String::from_utf8(err.written().to_vec(alloc)?)?)
}

/// The line in which a text ends, or the one behind its last.
fn last_line(text: &[u8]) -> usize {
    let feeds = text.iter().filter(|byte| **byte == b'\n').count();
    feeds.saturating_add(1)
}

/// Every front of a hierarchical text is refused at the line that it lacks or cuts.
#[test]
fn a_hierarchical_text_is_cut_anywhere(rt: HostRuntime) -> Result<(), Fail> {
    let text = PAIRS.as_bytes();
    for end in 0..text.len() {
        let front = &text[..end];
        let line = refused(&rt, rt.alloc(), "expand", front)?;
        let mut want = String::new(rt.alloc());
        write!(want, "scaff: line {}: BadQasm\n", last_line(front))?;
        assert_eq!(rt; line.as_str(), want.as_str());
    }
    Ok(())
}

/// Every front of a source but the empty one, without its last brace, leaves the grammar.
#[test]
fn a_source_is_cut_anywhere(rt: HostRuntime) -> Result<(), Fail> {
    let text = SOURCE.as_bytes();
    for end in 1..text.len() - 2 {
        let line = refused(&rt, rt.alloc(), "flat", &text[..end])?;
        assert!(rt; line.as_str().ends_with(": Syntax\n"), "{}", line);
    }
    Ok(())
}
