//! Tests of the gates of classical functions.
#![tactic(auto)]

#[cfg(test)]
mod functions;
#[cfg(test)]
mod operators;
#[cfg(test)]
mod worked;
