//! Texts that are read line by line.
ghost use Rattle.std.specs.Prelude.{◌≡◌, ◌+◌, ℕ, ◌<◌, ◌≤◌, ◌^◌, ◌++◌, List as Values, length, IfSome, IfNone};
ghost use Rattle.sc_base.specs.Lines.{IsLine};

/// The first line of the text with its line feed, and what follows it. None where no line feed is left.
pub fn cut_line(text: &[u8]) -> Option<(&[u8], &[u8])>
    ensures some { IfSome result (λ r. text.now ≡ r.0.now ++ r.1.now) }
    ensures line { IfSome result (λ r. IsLine r.0.now) }
    ensures none { IfNone result ((line more : Values ℕ) → IsLine line → text.now ≡ line ++ more → ⊥) }
{
    let end = text.iter().position(|byte| *byte == b'\n')? + 1;
    Some((&text[..end], &text[end..]))
}

/// What is left of a text that is read line by line, and the number of its next line.
#[derive(Clone, Copy, Debug)]
pub struct Lines<'a> {
    pub rest: &'a [u8],
    pub number: u32,
}

impl<'a> Lines<'a> {
    /// The next line with its line feed. The number goes up by one. None where no line feed is left, and then nothing
    /// changes.
    pub fn next_line(&mut self) -> Option<&'a [u8]>
        requires { self.old.number + length self.old.rest.now < 2 ^ 32 }
        ensures some { IfSome result (λ line. self.old.rest.now ≡ line.now ++ self.new.rest.now) }
        ensures line { IfSome result (λ line. IsLine line.now) }
        ensures number { IfSome result (λ line. self.new.number ≡ self.old.number + 1) }
        ensures bound { self.new.number + length self.new.rest.now ≤ self.old.number + length self.old.rest.now }
        ensures none { IfNone result ((line more : Values ℕ) → IsLine line → self.old.rest.now ≡ line ++ more → ⊥) }
        ensures unchanged { IfNone result (self.new ≡ self.old) }
    {
        let (line, rest) = cut_line(self.rest)?;
        self.rest = rest;
        self.number += 1;
        Some(line)
    }
}
