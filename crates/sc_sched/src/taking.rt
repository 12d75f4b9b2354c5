//! Ready gates leave a board.
ghost use Rattle.std.specs.Prelude.{◌≡◌, ◌≢◌, ◌==◌, ◌&&◌, ◌||◌, not, ℕ, Bool, true, false, ◌<◌, ◌≤◌, ◌+◌, length, slice_index, slice_set, slice_index_or, IfSome, IfNone, List};
ghost use Rattle.sc_sched.specs.Board.{layout_of, waits};

use crate::board::Board;

impl Board {
    /// The first ready gate leaves.
    pub fn take_first(&mut self) -> Option<u32>
        ensures layout { layout_of self.new ≡ layout_of self.old }
        ensures ready { IfSome result (λ x. (x < length self.old.kind.items) × (waits self.old x ≡ true)) }
        ensures first { IfSome result (λ x. (z : ℕ) → z < length self.old.kind.items → waits self.old z ≡ true → z ≢ x → slice_index self.old.place.items x < slice_index self.old.place.items z) }
        ensures rest { IfSome result (λ x. (z : ℕ) → z < length self.old.kind.items → waits self.new z ≡ (not (z == x) && waits self.old z)) }
        ensures none { IfNone result ((z : ℕ) → z < length self.old.kind.items → waits self.old z ≡ false) }
        ensures unchanged { IfNone result (self.new ≡ self.old) }
    {
        let i = self.places.first_from(0)?;
        let x = self.gate_at[i];
        self.places.put(i, false);
        self.slots.put(self.slot[x as usize] as usize, false);
        Some(x)
    }

    /// The first ready gate of a kind leaves.
    pub fn take_of_kind(&mut self, kind: u32) -> Option<u32>
        requires { kind + 1 < length self.old.start.items }
        ensures layout { layout_of self.new ≡ layout_of self.old }
        ensures ready { IfSome result (λ x. (x < length self.old.kind.items) × (waits self.old x ≡ true) × (slice_index self.old.kind.items x ≡ kind)) }
        ensures first { IfSome result (λ x. (z : ℕ) → z < length self.old.kind.items → slice_index self.old.kind.items z ≡ kind → waits self.old z ≡ true → z ≢ x → slice_index self.old.place.items x < slice_index self.old.place.items z) }
        ensures rest { IfSome result (λ x. (z : ℕ) → z < length self.old.kind.items → waits self.new z ≡ (not (z == x) && waits self.old z)) }
        ensures none { IfNone result ((z : ℕ) → z < length self.old.kind.items → slice_index self.old.kind.items z ≡ kind → waits self.old z ≡ false) }
        ensures unchanged { IfNone result (self.new ≡ self.old) }
    {
        let i = self.slots.first_from(self.start[kind as usize] as usize)?;
        if i >= self.start[kind as usize + 1] as usize {
            return None;
        }
        let x = self.gate_in[i];
        self.places.put(self.place[x as usize] as usize, false);
        self.slots.put(i, false);
        Some(x)
    }

    /// A gate is ready from here on.
    pub fn add(&mut self, x: u32)
        requires { x < length self.old.kind.items }
        ensures layout { layout_of self.new ≡ layout_of self.old }
        ensures more { (z : ℕ) → z < length self.old.kind.items → waits self.new z ≡ (z == x || waits self.old z) }
    {
        self.places.put(self.place[x as usize] as usize, true);
        self.slots.put(self.slot[x as usize] as usize, true);
    }
}
