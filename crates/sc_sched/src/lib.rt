//! Schedules of gate lists on a machine that applies one kind of gate in each region.
#![tactic(auto)]

mod board;
mod cutting;
mod groups;
mod kinds;
mod laws;
mod layout;
mod narrow;
mod neighbours;
mod numbers;
mod order;
mod places;
mod placing;
mod plan;
mod ranks;
mod round;
mod scheduling;
mod sets;
mod slots;
mod taking;
mod text;
mod tray;
mod waiting;

pub use laws::{
    at_most_one_schedule, both_orders_are_lawful, no_more_steps_than_gates, one_gate_stands_alone,
    order_is_lawful, priority_schedules_have_texts, renaming_keeps_schedules,
    schedules_follow_one_another, some_gate_is_wider_or_none, some_schedule,
};
pub use order::{Lpfs, Priority, Rank, Rcp};
pub use plan::{Plan, Region, Step};
pub use scheduling::{SchedFault, schedule};
pub use text::write_schedule;
