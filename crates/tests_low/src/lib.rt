//! Tests of the lists, sinks, gates, observers, tables, OpenQASM texts and tokens below everything.
#![tactic(auto)]

#[cfg(test)]
mod base;
#[cfg(test)]
mod cancel;
#[cfg(test)]
mod gate;
#[cfg(test)]
mod open;
#[cfg(test)]
mod probe;
#[cfg(test)]
mod syntax;
#[cfg(test)]
mod tables;
