//! Tests of decks and what stands on them, schedules and their checker.
#![tactic(auto)]

#[cfg(test)]
mod check;
#[cfg(test)]
mod counts;
#[cfg(test)]
mod deck;
#[cfg(test)]
mod gates;
#[cfg(test)]
mod hier;
#[cfg(test)]
mod read;
#[cfg(test)]
mod sched;
