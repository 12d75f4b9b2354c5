//! Tests of hierarchical texts, and of the flat texts of their decks.
#![tactic(auto)]

#[cfg(test)]
mod expanding;
#[cfg(test)]
mod faults;
#[cfg(test)]
mod flat;
#[cfg(test)]
mod probes;
#[cfg(test)]
mod read_hier;
#[cfg(test)]
mod refusals;
#[cfg(test)]
mod round_trips;
#[cfg(test)]
mod texts;
