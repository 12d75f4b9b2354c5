//! Worked programs and their numbers.
use crate::bodies::{Step, Steps, bodies_of};
use crate::known::{Durations, last_counts, paths_of};
use sc_base::GateName;
use sc_gate::Kind;
use sc_path::critical;
use std::test::Fail;

/// A program, the last of its bodies as main, and its numbers.
struct Program {
    name: &'static str,
    bodies: &'static [Steps],
    durations: Durations,
    /// The qubits, the classical bits, the peak, the gates, their weight and the critical path.
    numbers: [u128; 6],
    /// The gates of each kind, in the order of names.
    kinds: [u128; 18],
}

/// The list of gates for a Toffoli.
const TOFFOLI: Steps = Steps {
    qubits: 3,
    cbits: 0,
    items: &[
        Step::One(Kind::H, 2),
        Step::Two(Kind::Cnot, 1, 2),
        Step::One(Kind::Tdag, 2),
        Step::Two(Kind::Cnot, 0, 2),
        Step::One(Kind::T, 2),
        Step::Two(Kind::Cnot, 1, 2),
        Step::One(Kind::Tdag, 2),
        Step::Two(Kind::Cnot, 0, 2),
        Step::One(Kind::T, 1),
        Step::One(Kind::T, 2),
        Step::Two(Kind::Cnot, 0, 1),
        Step::One(Kind::T, 0),
        Step::One(Kind::Tdag, 1),
        Step::Two(Kind::Cnot, 0, 1),
        Step::One(Kind::H, 2),
    ],
};

const ON_THREE: Step = Step::Calls {
    callee: 0,
    qubits: &[0, 1, 2],
    cbits: 0,
    turns: 1,
};

const MAIN_OF_TOFFOLI: Steps = Steps {
    qubits: 0,
    cbits: 0,
    items: &[Step::Qubits(3), ON_THREE],
};

const MAIN_OF_FREDKIN: Steps = Steps {
    qubits: 0,
    cbits: 0,
    items: &[
        Step::Qubits(3),
        Step::Two(Kind::Cnot, 2, 1),
        ON_THREE,
        Step::Two(Kind::Cnot, 2, 1),
    ],
};

const KINDS_OF_TOFFOLI: [u128; 18] = [0, 0, 0, 2, 0, 4, 0, 3, 6, 0, 0, 0, 0, 0, 0, 0, 0, 0];

/// Three H on a qubit of the body's own, and a CNOT from it to the parameter.
pub const G: Steps = Steps {
    qubits: 1,
    cbits: 0,
    items: &[
        Step::Qubits(1),
        Step::One(Kind::H, 1),
        Step::One(Kind::H, 1),
        Step::One(Kind::H, 1),
        Step::Two(Kind::Cnot, 1, 0),
    ],
};

/// A Toffoli in the place where a body is called in other programs.
const KEPT: Steps = Steps {
    qubits: 3,
    cbits: 0,
    items: &[Step::Three(Kind::Toffoli, 0, 1, 2)],
};

const SCRATCH: Step = Step::Calls {
    callee: 0,
    qubits: &[7, 6, 8],
    cbits: 0,
    turns: 1,
};

/// Whether two qubits hold 3: computed, copied to the output, and uncomputed.
const IS_THREE: Steps = Steps {
    qubits: 3,
    cbits: 0,
    items: &[
        Step::Qubits(6),
        Step::One(Kind::X, 3),
        Step::One(Kind::X, 4),
        Step::Two(Kind::Cnot, 0, 5),
        Step::Two(Kind::Cnot, 3, 5),
        Step::One(Kind::X, 5),
        Step::Two(Kind::Cnot, 1, 6),
        Step::Two(Kind::Cnot, 4, 6),
        Step::One(Kind::X, 6),
        Step::Two(Kind::Cnot, 5, 7),
        SCRATCH,
        Step::Two(Kind::Cnot, 8, 2),
        SCRATCH,
        Step::Two(Kind::Cnot, 5, 7),
        Step::One(Kind::X, 6),
        Step::Two(Kind::Cnot, 4, 6),
        Step::Two(Kind::Cnot, 1, 6),
        Step::One(Kind::X, 5),
        Step::Two(Kind::Cnot, 3, 5),
        Step::Two(Kind::Cnot, 0, 5),
        Step::One(Kind::X, 4),
        Step::One(Kind::X, 3),
    ],
};

/// The diffusion of a search over two qubits.
const DIFFUSE: Steps = Steps {
    qubits: 2,
    cbits: 0,
    items: &[
        Step::One(Kind::H, 0),
        Step::One(Kind::X, 0),
        Step::One(Kind::H, 1),
        Step::One(Kind::X, 1),
        Step::One(Kind::H, 1),
        Step::Two(Kind::Cnot, 0, 1),
        Step::One(Kind::H, 1),
        Step::One(Kind::X, 0),
        Step::One(Kind::H, 0),
        Step::One(Kind::X, 1),
        Step::One(Kind::H, 1),
    ],
};

/// A search for 3 over two qubits.
const SEARCH: Steps = Steps {
    qubits: 0,
    cbits: 0,
    items: &[
        Step::Qubits(2),
        Step::Qubits(1),
        Step::Cbits(2),
        Step::One(Kind::X, 2),
        Step::One(Kind::H, 2),
        Step::One(Kind::H, 0),
        Step::One(Kind::H, 1),
        Step::Calls {
            callee: 1,
            qubits: &[0, 1, 2],
            cbits: 0,
            turns: 1,
        },
        Step::Calls {
            callee: 2,
            qubits: &[0, 1],
            cbits: 0,
            turns: 1,
        },
        Step::Measured(0, 0),
        Step::Measured(1, 1),
    ],
};

const PAIR: Steps = Steps {
    qubits: 2,
    cbits: 0,
    items: &[Step::One(Kind::T, 0), Step::Two(Kind::Cnot, 0, 1)],
};

const PROGRAMS: [Program; 10] = [
    Program {
        name: "nothing",
        bodies: &[Steps {
            qubits: 0,
            cbits: 0,
            items: &[],
        }],
        durations: &[],
        numbers: [0; 6],
        kinds: [0; 18],
    },
    Program {
        name: "a Toffoli as its list",
        bodies: &[TOFFOLI, MAIN_OF_TOFFOLI],
        durations: &[],
        numbers: [3, 0, 3, 15, 15, 11],
        kinds: KINDS_OF_TOFFOLI,
    },
    Program {
        name: "the same, T and Tdag ten times as long",
        bodies: &[TOFFOLI, MAIN_OF_TOFFOLI],
        durations: &[(GateName::T, 10), (GateName::Tdag, 10)],
        numbers: [3, 0, 3, 15, 78, 47],
        kinds: KINDS_OF_TOFFOLI,
    },
    Program {
        name: "a Fredkin as its list",
        bodies: &[TOFFOLI, MAIN_OF_FREDKIN],
        durations: &[],
        numbers: [3, 0, 3, 17, 17, 13],
        kinds: [0, 0, 0, 2, 0, 4, 0, 3, 8, 0, 0, 0, 0, 0, 0, 0, 0, 0],
    },
    Program {
        name: "a Fredkin",
        bodies: &[Steps {
            qubits: 0,
            cbits: 0,
            items: &[Step::Qubits(3), Step::Three(Kind::Fredkin, 0, 1, 2)],
        }],
        durations: &[],
        numbers: [3, 0, 3, 1, 1, 1],
        kinds: [0, 0, 0, 0, 0, 0, 0, 0, 0, 0, 1, 0, 0, 0, 0, 0, 0, 0],
    },
    Program {
        name: "two calls, each with a qubit of its own",
        bodies: &[
            G,
            Steps {
                qubits: 0,
                cbits: 0,
                items: &[
                    Step::Qubits(1),
                    Step::Calls {
                        callee: 0,
                        qubits: &[0],
                        cbits: 0,
                        turns: 2,
                    },
                ],
            },
        ],
        durations: &[],
        numbers: [3, 0, 2, 8, 8, 5],
        kinds: [0, 0, 0, 6, 0, 0, 0, 0, 2, 0, 0, 0, 0, 0, 0, 0, 0, 0],
    },
    Program {
        name: "300,000 calls",
        bodies: &[
            G,
            Steps {
                qubits: 0,
                cbits: 0,
                items: &[
                    Step::Qubits(1),
                    Step::Calls {
                        callee: 0,
                        qubits: &[0],
                        cbits: 0,
                        turns: 300_000,
                    },
                ],
            },
        ],
        durations: &[],
        numbers: [300_001, 0, 2, 1_200_000, 1_200_000, 300_003],
        kinds: [
            0, 0, 0, 900_000, 0, 0, 0, 0, 300_000, 0, 0, 0, 0, 0, 0, 0, 0, 0,
        ],
    },
    Program {
        name: "a search with Toffolis kept",
        bodies: &[KEPT, IS_THREE, DIFFUSE, SEARCH],
        durations: &[],
        numbers: [9, 2, 9, 38, 38, 19],
        kinds: [13, 0, 0, 9, 0, 0, 0, 0, 12, 2, 0, 0, 0, 0, 0, 0, 0, 2],
    },
    Program {
        name: "a search",
        bodies: &[TOFFOLI, IS_THREE, DIFFUSE, SEARCH],
        durations: &[],
        numbers: [9, 2, 9, 66, 66, 36],
        kinds: [13, 0, 0, 13, 0, 8, 0, 6, 24, 0, 0, 0, 0, 0, 0, 0, 0, 2],
    },
    Program {
        name: "two calls that share one qubit",
        bodies: &[
            PAIR,
            Steps {
                qubits: 0,
                cbits: 0,
                items: &[
                    Step::Qubits(3),
                    Step::Calls {
                        callee: 0,
                        qubits: &[1, 2],
                        cbits: 0,
                        turns: 1,
                    },
                    Step::Calls {
                        callee: 0,
                        qubits: &[0, 1],
                        cbits: 0,
                        turns: 1,
                    },
                ],
            },
        ],
        durations: &[],
        numbers: [3, 0, 3, 4, 4, 3],
        kinds: [0, 0, 0, 0, 0, 2, 0, 0, 2, 0, 0, 0, 0, 0, 0, 0, 0, 0],
    },
];

#[test]
fn programs_have_their_numbers(rt: HostRuntime) -> Result<(), Fail> {
    for program in &PROGRAMS {
        let bodies = bodies_of(&rt, rt.alloc(), program.bodies)?;
        let counts = last_counts(&rt, rt.alloc(), program.durations, &bodies)?.ok_or("no body")?;
        let paths = paths_of(&rt, rt.alloc(), program.durations, &bodies)?;
        let numbers = [
            counts.qubits,
            counts.cbits,
            counts.peak,
            counts.gates,
            counts.weight,
            critical(&paths),
        ];
        assert_eq!(rt; numbers, program.numbers, "{}", program.name);
        assert_eq!(rt; counts.kinds, program.kinds, "{}", program.name);
    }
    Ok(())
}
