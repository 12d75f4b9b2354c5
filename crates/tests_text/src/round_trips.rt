//! Hierarchical texts that are read and written again.
use crate::texts::{EMPTY, PLAIN, REPEATED};
use sc_base::MemSink;
use sc_hier::write_hier;
use sc_read::read_hier;
use std::alloc::Global;
use std::test::Fail;

/// The hierarchical text of the deck that a text is read as.
fn again(alloc: Global, text: &[u8]) -> Result<MemSink, Fail> {
    if text.len() > 1000 {
        return Err("long")?;
    }
    let deck = read_hier(alloc, text)?;
    let mut out = MemSink::new(alloc, 100, 1000)?;
    write_hier(&deck, &mut out)?;
    Ok(out)
}

#[test]
fn texts_are_written_as_they_were(rt: HostRuntime) -> Result<(), Fail> {
    for text in [EMPTY, PLAIN, REPEATED] {
        assert_eq!(rt; again(rt.alloc(), text)?.written(), text);
    }
    let signature =
        b"hier 1\nmodule 0 f(q,c,q[2],c[3],-7,0.500000000000,-0.000000000001)\nX q2\nMeasX q0,c3\nend\nmodule 1 main()\nqbit 3\ncbit 4\ncall 0 q2,c0,q0,q1,c1,c2,c3\nend\n".as_slice();
    assert_eq!(rt; again(rt.alloc(), signature)?.written(), signature);
    Ok(())
}

/// A text of version 2 without turns is written as one of version 1.
#[test]
fn the_version_tells_of_turns(rt: HostRuntime) -> Result<(), Fail> {
    let second = b"hier 2\nmodule 0 main()\nqbit 2\nCNOT q0,q1\nend\n".as_slice();
    let first = b"hier 1\nmodule 0 main()\nqbit 2\nCNOT q0,q1\nend\n".as_slice();
    assert_eq!(rt; again(rt.alloc(), second)?.written(), first);
    Ok(())
}
