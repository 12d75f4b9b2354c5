//! The limits of the compiler.

/// The most gates of a list that is scheduled, checked or cancelled.
pub const MOST_GATES: usize = 4_194_304;

/// The most tokens of a source.
pub const MOST_TOKENS: usize = 4_194_304;

/// The most wires of one instance, of both classes together.
pub const MOST_WIRES: u32 = 65_536;

/// The most instances of a source and modules of a hierarchical text, main included.
pub const MOST_INSTANCES: usize = 65_536;

/// The most items of one module.
pub const MOST_ITEMS: usize = 1_048_576;

/// The most steps of one body.
pub const MOST_STEPS: usize = 1_048_576;

/// The most bytes of a source.
pub const MOST_SOURCE_BYTES: usize = 16_777_216;

/// The greatest reach of a deck: the wires of its chains of calls.
pub const MOST_REACH: usize = 16_777_216;

/// The most bytes of a text that is read back.
pub const MOST_TEXT_BYTES: usize = 134_217_728;

/// The greatest depth of calls, main included.
pub const MOST_DEPTH: usize = 256;

/// The deepest nesting of phrases in a source.
pub const MOST_NESTING: usize = 128;

/// The most qubits, and the most cbits, of a flat list.
pub const MOST_FLAT_WIRES: u32 = 4_294_967_295;

/// The greatest count of gates, weight, qubits or cbits.
pub const MOST_COUNT: u128 = 340_282_366_920_938_463_463_374_607_431_768_211_455;
