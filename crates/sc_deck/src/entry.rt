//! What a deck holds under a key.
use crate::Body;

/// A body with its height, and the greatest sum of wires along a chain of calls from it.
#[derive(Debug, Drop)]
pub struct Entry {
    pub body: Body,
    pub height: u32,
    pub reach: u64,
}
