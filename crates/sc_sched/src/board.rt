//! The gates that are ready, by their order and by their kinds.
ghost use Rattle.sc_sched.specs.Layout.{Layout, IsLayout};

use crate::sets::NumberSet;

#[derive(Drop)]
pub struct Board {
    /// the gate at each place of the order, and the place of each gate
    pub gate_at: Vec<u32>,
    pub place: Vec<u32>,
    /// the gates of each kind stand together in slots, in order
    pub gate_in: Vec<u32>,
    pub slot: Vec<u32>,
    pub kind: Vec<u32>,
    /// where the slots of each kind begin, with the end of the last
    pub start: Vec<u32>,
    /// the ready gates, by place and by slot
    pub places: NumberSet,
    pub slots: NumberSet,
    ghost laid: { IsLayout (record { gate_at = gate_at.items; place = place.items; gate_in = gate_in.items; slot = slot.items; kind = kind.items; start = start.items }) places slots },
}
