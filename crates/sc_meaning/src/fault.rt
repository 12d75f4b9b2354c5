//! Why a source is refused when it is run.
ghost use Rattle.std.specs.Prelude.{◌≡◌};

use sc_base::{Memory, Place};
use sc_value::EvalFault;

/// The fault of a run, and where.
#[derive(Clone, Copy, Debug, PartialEq, Eq)]
pub enum ElabFault {
    /// A result or a converted number is out of range, or a shift is not by 0 to 63.
    Overflow(Place),
    /// The divisor is zero.
    DivZero(Place),
    /// An index is not below the length, or a start value is neither 0 nor 1.
    OutOfRange(Place),
    /// An array is declared with a size below 1.
    BadSize(Place),
    /// An array has another length than its parameter.
    BadLength(Place),
    /// An argument holds a wire of an earlier argument of the same call.
    Repeated(Place),
    /// An instance has more than 65,536 wires.
    TooWide(Place),
    /// A body takes more than 1,048,576 steps.
    TooLong(Place),
    /// Calls go deeper than 256.
    TooDeep,
    /// More than 65,536 distinct instances are entered.
    TooManyInstances,
    Memory,
}

impl From<Memory> for ElabFault {
    ghost use Rattle.sc_meaning.specs.declared.fault.ElabFault.TheVariants.{Memory as OutOfMemory};

    ghost from_gives = { λ _ e. e ≡ OutOfMemory };

    fn from(_: Memory) -> Self {
        ElabFault::Memory
    }
}

impl From<EvalFault> for ElabFault {
    ghost use Rattle.sc_meaning.specs.Faults.{run_fault};

    ghost from_gives = { λ fault e. e ≡ run_fault fault };

    fn from(fault: EvalFault) -> Self {
        match fault {
            EvalFault::Overflow(at) => ElabFault::Overflow(at),
            EvalFault::DivZero(at) => ElabFault::DivZero(at),
        }
    }
}
