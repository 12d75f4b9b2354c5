//! What one step of a walk gives.
use sc_gate::Gate;

/// One step of a walk.
#[derive(Clone, Copy, Debug, PartialEq, Eq)]
pub(crate) enum Step {
    /// The next gate of the flat list.
    Gate(Gate),
    /// No gate.
    Moved,
    /// No gate is left.
    Ended,
}
