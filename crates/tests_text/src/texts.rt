//! Texts of worked examples.

/// `g` makes a qubit, applies H to it three times and entangles it with its parameter; main calls it twice.
pub const REPEATED: &[u8] =
    b"hier 2\nmodule 0 g(q)\nqbit 1\nrepeat 3 H q1\nCNOT q1,q0\nend\nmodule 1 main()\nqbit 1\nrepeat 2 call 0 q0\nend\n";

/// The same with each turn written out.
pub const PLAIN: &[u8] =
    b"hier 1\nmodule 0 g(q)\nqbit 1\nH q1\nH q1\nH q1\nCNOT q1,q0\nend\nmodule 1 main()\nqbit 1\ncall 0 q0\ncall 0 q0\nend\n";

/// The flat text of both.
pub const FLAT: &[u8] =
    b"flat 1\nqbits 3\ncbits 0\ngates 8\nH q1\nH q1\nH q1\nCNOT q1,q0\nH q2\nH q2\nH q2\nCNOT q2,q0\n";

/// A main alone, without items.
pub const EMPTY: &[u8] = b"hier 1\nmodule 0 main()\nend\n";
