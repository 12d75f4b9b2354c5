//! Tests of counts and path tables, on programs that are built by hand and on random ones.
#![tactic(auto)]

#[cfg(test)]
mod bodies;
#[cfg(test)]
mod chains;
#[cfg(test)]
mod known;
#[cfg(test)]
mod large;
#[cfg(test)]
mod path;
#[cfg(test)]
mod programs;
#[cfg(test)]
mod tallies;
