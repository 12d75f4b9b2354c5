//! What every crate of the compiler stands on: lists and texts that contracts see as lists, shelves that
//! texts are read from, sinks that bytes are written to, decimal text, and the names of gates.
//!
//! A call that needs memory may answer `Memory`, and then leaves what it works on as it was. A shelf and a
//! sink count their faults, and each of their errors is tied to that count.
#![tactic(auto)]

mod decimal;
pub mod laws;
mod limits;
mod line_buffer;
mod lines;
mod list;
mod mem_shelf;
mod mem_sink;
mod name_map;
mod name_text;
mod names;
mod parts;
mod reader;
mod real;
mod shelf;
mod sink;
mod sure;
mod text;

pub use decimal::{put_u128, read_fixed, read_u64, read_units, write_fixed};
pub use limits::{
    MOST_COUNT, MOST_DEPTH, MOST_FLAT_WIRES, MOST_GATES, MOST_INSTANCES, MOST_ITEMS, MOST_NESTING,
    MOST_REACH, MOST_SOURCE_BYTES, MOST_STEPS, MOST_TEXT_BYTES, MOST_TOKENS, MOST_WIRES,
};
pub use line_buffer::LineBuffer;
pub use lines::{Lines, cut_line};
pub use list::List;
pub use mem_shelf::{Held, MemShelf};
pub use mem_sink::MemSink;
pub use name_map::NameMap;
pub use name_text::{begins_name, continues_name, is_name_text};
pub use names::{Class, Fixed, GateName, Place};
pub use parts::write_parts;
pub use reader::{
    Whole, take_fixed, take_int, take_number, take_number_line, take_text, take_whole,
};
pub use real::{RealShelf, RealSink};
pub use shelf::{ReadAllFault, Shelf, read_all};
pub use sink::{Sink, write_all};
use std::alloc::{AllocError, AllocFailed};
pub use sure::{SureShelf, SureSink};
pub use text::Text;

/// There is not enough memory. What the call works on is left as it was.
#[derive(Clone, Copy, Debug, PartialEq, Eq)]
pub struct Memory;

impl From<AllocError> for Memory {
    fn from(_: AllocError) -> Self {
        Memory
    }
}

impl<T: Drop> From<AllocFailed<T>> for Memory {
    fn from(_: AllocFailed<T>) -> Self {
        Memory
    }
}

/// A call of a shelf or a sink failed, and its count of faults rose.
#[derive(Clone, Copy, Debug, PartialEq, Eq)]
pub struct Failed;

/// A sink failed while a text was written to it. It holds a prefix of the text then.
#[derive(Clone, Copy, Debug, PartialEq, Eq)]
pub struct WriteFault;
