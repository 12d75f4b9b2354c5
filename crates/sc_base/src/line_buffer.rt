//! Short lines, composed without memory.
ghost use Rattle.std.specs.Prelude.{◌≡◌, ◌+◌, ◌≤◌, ◌==◌, [], ◌++◌, length, decimal};
ghost use Rattle.std.specs.Fmt.{signed_decimal};
ghost use Rattle.sc_base.specs.Decimals.{fixed_text};

use crate::{Fixed, write_fixed};
use itoa::Buffer;
use std::marker::Model;

/// How many bytes a line buffer holds.
const ROOM: usize = 80;

/// A short text under way, of at most 80 bytes, seen as its bytes. It takes no memory.
#[derive(Drop)]
pub struct LineBuffer {
    bytes: [u8; ROOM],
    len: usize,
}

impl Model for LineBuffer {
    ghost use Rattle.std.specs.Prelude.{ℕ, List, ◌≤◌, take};

    ghost Value = { List ℕ };

    ghost view = { λ line. take line.len line.bytes };

    ghost invariant = { λ line. line.len ≤ 80 };
}

impl LineBuffer {
    /// Nothing yet.
    pub fn new() -> LineBuffer
        ensures { result ≡ [] }
    {
        LineBuffer {
            bytes: [0; ROOM],
            len: 0,
        }
    }

    /// Appends the bytes. There is room for them.
    pub fn push(&mut self, text: &[u8])
        requires { length self.old + length text.now ≤ 80 }
        ensures { self.new ≡ self.old ++ text.now }
    {
        let end = self.len + text.len();
        self.bytes[self.len..end].copy_from_slice(text);
        self.len = end;
    }

    /// Appends the decimal text of a number, of at most 10 bytes.
    pub fn push_number(&mut self, number: u32)
        requires { length self.old + 10 ≤ 80 }
        ensures text { self.new ≡ self.old ++ decimal number }
        ensures short { length self.new ≤ length self.old + 10 }
    {
        let mut buffer = Buffer::new();
        self.push(buffer.format(number).as_bytes());
    }

    /// Appends the decimal text of a number, of at most 20 bytes.
    pub fn push_u64(&mut self, number: u64)
        requires { length self.old + 20 ≤ 80 }
        ensures text { self.new ≡ self.old ++ decimal number }
        ensures short { length self.new ≤ length self.old + 20 }
    {
        let mut buffer = Buffer::new();
        self.push(buffer.format(number).as_bytes());
    }

    /// Appends the decimal text of a number, of at most 39 bytes.
    pub fn push_u128(&mut self, number: u128)
        requires { length self.old + 39 ≤ 80 }
        ensures text { self.new ≡ self.old ++ decimal number }
        ensures short { length self.new ≤ length self.old + 39 }
    {
        let mut buffer = Buffer::new();
        self.push(buffer.format(number).as_bytes());
    }

    /// Appends the decimal text of a number, of at most 20 bytes, with a minus before it where it is negative.
    pub fn push_i64(&mut self, number: i64)
        requires { length self.old + 20 ≤ 80 }
        ensures text { self.new ≡ self.old ++ signed_decimal number }
        ensures short { length self.new ≤ length self.old + 20 }
    {
        let mut buffer = Buffer::new();
        self.push(buffer.format(number).as_bytes());
    }

    /// Appends the text of a fixed-point number with its twelve decimals, of at most 21 bytes.
    pub fn push_fixed(&mut self, value: Fixed)
        requires { length self.old + 21 ≤ 80 }
        ensures text { self.new ≡ self.old ++ fixed_text value.0 }
        ensures short { length self.new ≤ length self.old + 21 }
    {
        let mut buffer = [0; 24];
        let count = write_fixed(value, &mut buffer);
        self.push(&buffer[..count]);
    }

    /// The text so far.
    pub fn as_bytes(&self) -> &[u8]
        ensures { result.now ≡ self.now }
    {
        &self.bytes[..self.len]
    }

    /// How many bytes the text has so far.
    pub fn len(&self) -> usize
        ensures { result ≡ length self.now }
    {
        self.len
    }

    /// Whether the text has no byte yet.
    pub fn is_empty(&self) -> bool
        ensures { result ≡ (length self.now == 0) }
    {
        self.len == 0
    }
}
