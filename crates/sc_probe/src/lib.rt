//! Observers of a gate list: each keeps a few numbers, sees every gate once, in order, and tells one line at the end.
#![tactic(auto)]

mod burst;
mod kinds;
pub mod laws;
mod reach;
mod rule;
mod showing;
mod telling;
mod window;

pub use burst::BurstProbe;
pub use kinds::KindsProbe;
pub use reach::ReachProbe;
pub use rule::{Probe, Rule};
pub use showing::{report_all, show, show_all};
pub use window::WindowProbe;
