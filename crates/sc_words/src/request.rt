//! What the words ask for.
ghost use Rattle.std.specs.Prelude.{◌≡◌};

use sc_base::{Memory, Text};
use sc_gate::Times;
use sc_meaning::Choice;

/// What the program is asked to do. Each file is named as the words name it. `choice` says whether Toffoli and
/// Fredkin gates stay. Where `times` is None, every gate has the duration 1.
#[derive(Debug, Drop)]
pub enum Request {
    /// The hierarchical text of the source under a name.
    Hier {
        file: Text,
        choice: Choice,
    },
    /// The flat text of the source under a name, of at most `limit` gates, and the reports of the probes that are
    /// asked for.
    Flat {
        file: Text,
        choice: Choice,
        limit: u64,
        kinds: bool,
        burst: bool,
        window: bool,
        reach: bool,
    },
    /// The report on the source under a name.
    Count {
        file: Text,
        choice: Choice,
        times: Option<Times>,
    },
    /// The schedule of the source under a name, for `k` regions of width `d`, each from 1 to 1,000,000. The order is
    /// that of the longest paths where `lpfs` holds.
    Schedule {
        file: Text,
        choice: Choice,
        k: u32,
        d: u32,
        lpfs: bool,
        times: Option<Times>,
    },
    /// The flat text of the hierarchical text under a name, of at most `limit` gates.
    Expand {
        file: Text,
        limit: u64,
    },
    /// The verdict on the schedule under the second name, for the gates of the flat text under the first.
    Check {
        flat: Text,
        schedule: Text,
    },
    /// The summary of the drill of size `n`, from 1 to 50,000.
    Drill {
        n: u32,
    },
    /// The coarse schedule of the source under a name, with `k`, `d` and `lpfs` as in `Schedule`.
    Coarse {
        file: Text,
        choice: Choice,
        k: u32,
        d: u32,
        lpfs: bool,
    },
    /// The OpenQASM text of the source under a name.
    ToOpen {
        file: Text,
        choice: Choice,
    },
    /// The flat text of the OpenQASM text under a name.
    FromOpen {
        file: Text,
    },
    /// The flat text of the source under a name after inverse pairs are cancelled, and the reports of the probes that
    /// are asked for.
    Cancel {
        file: Text,
        choice: Choice,
        kinds: bool,
        burst: bool,
        window: bool,
        reach: bool,
    },
}

/// Why words have no request.
#[derive(Clone, Copy, Debug, PartialEq, Eq)]
pub enum WordsFault {
    /// The words ask for nothing that the program does.
    Usage,
    Memory,
}

impl From<Memory> for WordsFault {
    ghost use Rattle.sc_words.specs.declared.request.WordsFault.TheVariants.{Memory as OutOfMemory};

    ghost from_gives = { λ _ e. e ≡ OutOfMemory };

    fn from(_: Memory) -> Self {
        WordsFault::Memory
    }
}
