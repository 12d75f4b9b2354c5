//! What is true of the counts of all module lists.
ghost use Rattle.std.specs.Prelude.{◌≡◌, ◌<◌, ◌-◌, ◌↔◌, ℕ, List, [], Some, length, slice_get};
ghost use Rattle.sc_deck.specs.Bodies.{Contents};
ghost use Rattle.sc_deck.specs.CallChains.{Calls};
ghost use Rattle.sc_deck.specs.Decks.{IsDeck, IsWhole};
ghost use Rattle.sc_deck.specs.Modules.{Module};
ghost use Rattle.sc_deck.specs.Unfolding.{expansion};
ghost use Rattle.sc_deck.specs.declared.key.Key.{Key};
ghost use Rattle.sc_count.specs.declared.tally.Tally.{Tally};
ghost use Rattle.sc_count.specs.Callees.{counts_of, counts_at};
ghost use Rattle.sc_count.specs.Counting.{counts_in};
ghost use Rattle.sc_count.specs.Limits.{AreSound, IsAtMost};
ghost use Rattle.sc_count.specs.Tallies.{StandsFor, new_counts, with_counts, with_body};

/// The counts that are made body by body from those of the callees are those of the written out events of each module.
pub fn counts_from_callees()
    ensures { (times : List ℕ) (modules : List Module) → IsDeck modules → (i : ℕ) (m : Module) → slice_get modules i ≡ Some m →
        counts_at (counts_of times modules) i ≡ counts_in times (expansion modules i) }
{}

/// A tally stands for a deck exactly where its counts are those that are made from callees. Then it is sound, and it stands for the
/// deck with one more body once the new counts of that body are appended.
pub fn tallies_of_decks()
    ensures made { (tally : Tally) (modules : List Module) → IsDeck modules →
        StandsFor tally modules ↔ (tally.counts ≡ counts_of tally.times modules) }
    ensures sound { (tally : Tally) (modules : List Module) → IsDeck modules → StandsFor tally modules → AreSound tally.counts }
    ensures more { (tally : Tally) (modules : List Module) (key : Key) (body : Contents) → StandsFor tally modules →
        IsDeck (with_body modules key body) →
        StandsFor (with_counts tally (new_counts tally body)) (with_body modules key body) }
{}

/// A body counts at most what a body that calls it does, and in a whole deck at most what the last body does.
pub fn callers_count_more()
    ensures calls { (times : List ℕ) (modules : List Module) → IsDeck modules → (i j : ℕ) → Calls modules i j →
        IsAtMost (counts_in times (expansion modules j)) (counts_in times (expansion modules i)) }
    ensures last { (times : List ℕ) (modules : List Module) → IsDeck modules → IsWhole modules → (i : ℕ) → i < length modules →
        IsAtMost (counts_in times (expansion modules i)) (counts_in times (expansion modules (length modules - 1))) }
{}
