//! Tests that cross crates: requests over shelves, sinks and texts that fail, and schedules beside those of a plain program.
#![tactic(auto)]

#[cfg(test)]
mod cut;
#[cfg(test)]
mod dropped;
#[cfg(test)]
mod failing;
#[cfg(test)]
mod large;
#[cfg(test)]
mod requests;
#[cfg(test)]
mod schedules;
