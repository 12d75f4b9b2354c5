//! Why a source is not well typed.
ghost use Rattle.std.specs.Prelude.{◌≡◌};

use sc_base::{Memory, Place};

/// Why a source is refused, and where.
#[derive(Clone, Copy, Debug, PartialEq, Eq)]
pub enum TypeFault {
    /// A name is in no scope, or a called name is no module and no classical function.
    UnknownName(Place),
    /// A name is declared a second time in its scope, or a module or function name a second time.
    Redefined(Place),
    /// Something of another kind is needed where the first token stands; or a name that can't be set is set, or
    /// a `double` is put into an `int`; or `%`, `<<` or `>>` has a `double`.
    WrongKind(Place),
    /// A call has another number of arguments than what it calls has parameters.
    WrongCount(Place),
    /// A classical bit stands where a number is needed.
    MeasuredUse(Place),
    /// A width of a classical function does not fit.
    BadWidth(Place),
    /// There is no module `main` without parameters.
    NoMain,
    Memory,
}

impl From<Memory> for TypeFault {
    ghost use Rattle.sc_types.specs.declared.fault.TypeFault.TheVariants.{Memory as OutOfMemory};

    ghost from_gives = { λ _ e. e ≡ OutOfMemory };

    fn from(_: Memory) -> Self {
        TypeFault::Memory
    }
}
