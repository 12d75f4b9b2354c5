//! Why a path table is refused.

/// Why there is no path table.
#[derive(Clone, Copy, Debug, PartialEq, Eq)]
pub enum PathFault {
    /// The weight of a chain passes 2^128 - 1.
    CountTooLarge,
    /// There is not enough memory.
    Memory,
}
