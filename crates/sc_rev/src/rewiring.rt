//! Operations that only take other wires.
ghost use Rattle.std.specs.Prelude.{◌≡◌, ◌+◌, ◌-◌, ◌≤◌, IfOk, length, min};
ghost use Rattle.sc_word.specs.Forms.{amount};
ghost use Rattle.sc_rev.specs.Circuits.{left_piece, right_piece, ext_piece};
ghost use Rattle.sc_rev.specs.Functions.{shift_piece, shifted};
ghost use Rattle.sc_rev.specs.Emitting.{Draws, only_word};

use crate::draft::Draft;
use sc_base::Memory;
use sc_syntax::ShiftLink;
use std::alloc::Global;

impl Draft {
    /// `count` zeros below the lowest wires.
    fn put_left(&mut self, alloc: Global, count: u32, e: &[u32]) -> Result<Vec<u32>, Memory>
        requires within { count ≤ length e.now }
        requires fits { self.old.next + count ≤ 65536 }
        ensures { IfOk result (λ r. Draws (left_piece count e.now self.old.next) self.old self.new r.items) }
    {
        let mut word = Vec::new(alloc);
        self.push_fresh(&mut word, count)?;
        word.extend_from_slice(&e[..e.len() - count as usize])?;
        Ok(word)
    }

    /// `count` zeros above the highest wires.
    fn put_right(&mut self, alloc: Global, count: u32, e: &[u32]) -> Result<Vec<u32>, Memory>
        requires within { count ≤ length e.now }
        requires fits { self.old.next + count ≤ 65536 }
        ensures { IfOk result (λ r. Draws (right_piece count e.now self.old.next) self.old self.new r.items) }
    {
        let mut word = Vec::new(alloc);
        word.extend_from_slice(&e[count as usize..])?;
        self.push_fresh(&mut word, count)?;
        Ok(word)
    }

    fn put_shift(&mut self, alloc: Global, link: &ShiftLink, e: &[u32]) -> Result<Vec<u32>, Memory>
        requires fits { self.old.next + min (amount link.now.by) (length e.now) ≤ 65536 }
        ensures { IfOk result (λ r. Draws (shift_piece link.now e.now self.old.next) self.old self.new r.items) }
    {
        let count = link.by.value.unsigned_abs().min(e.len() as u64) as u32;
        if link.left {
            self.put_left(alloc, count, e)
        } else {
            self.put_right(alloc, count, e)
        }
    }

    /// The shifts one after another.
    pub(crate) fn put_shifts(
        &mut self,
        alloc: Global,
        word: Vec<u32>,
        links: &[ShiftLink],
    ) -> Result<Vec<u32>, Memory>
        requires fits { (shifted (only_word word.items self.old.next) links.now).next ≤ 65536 }
        ensures { IfOk result (λ r. Draws (shifted (only_word word.items self.old.next) links.now) self.old self.new r.items) }
    {
        let mut now = word;
        for link in links {
            now = self.put_shift(alloc, link, now.as_slice())?;
        }
        Ok(now)
    }

    /// The word with zeros above it, up to this width.
    pub(crate) fn put_ext(&mut self, word: Vec<u32>, width: u32) -> Result<Vec<u32>, Memory>
        requires fits { self.old.next + (width - length word.items) ≤ 65536 }
        ensures { IfOk result (λ r. Draws (ext_piece width word.items self.old.next) self.old self.new r.items) }
    {
        let mut word = word;
        let zeros = (width as usize).saturating_sub(word.len()) as u32;
        self.push_fresh(&mut word, zeros)?;
        Ok(word)
    }
}
