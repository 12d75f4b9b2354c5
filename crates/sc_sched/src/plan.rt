//! Schedules.
use sc_base::List;

/// Positions of gates, from 0.
pub type Region = List<u32>;

/// Regions that work at the same time.
pub type Step = List<Region>;

/// Steps on `k` regions of `d` qubits, for a list of so many gates.
#[derive(Debug, Drop)]
pub struct Plan {
    pub k: u32,
    pub d: u32,
    pub gates: u32,
    pub steps: List<Step>,
}
