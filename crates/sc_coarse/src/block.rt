//! Blocks of coarse schedules.
use sc_base::List;
use sc_sched::Region;

/// One block of a coarse schedule. Its numbers are positions of items in the body, from 0, fresh items counted.
#[derive(Debug, Drop)]
pub enum Block {
    /// One step of gate items that are applied once, by its regions.
    Step(List<Region>),
    /// A call or a repeated gate, for all its turns.
    Alone(u32),
}
