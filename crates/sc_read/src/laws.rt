//! What is true of all flat texts and of all hierarchical texts.
ghost use Rattle.std.specs.Prelude.{◌≡◌, ◌≢◌, ◌≤◌, ◌++◌, ℕ, List, length, codes};
ghost use Rattle.std.specs.List.{AllByRecursion};
ghost use Rattle.sc_base.specs.Limits.{most_gates, most_flat_wires};
ghost use Rattle.sc_gate.specs.declared.gate.Gate.{Gate};
ghost use Rattle.sc_gate.specs.Lines.{flat_text};
ghost use Rattle.sc_deck.specs.Decks.{IsDeck};
ghost use Rattle.sc_deck.specs.Hierarchical.{hier, IsHier, IsWithinLimits, IsSound};
ghost use Rattle.sc_deck.specs.Modules.{Module};
ghost use Rattle.sc_read.specs.declared.flat.FlatText.{FlatText};
ghost use Rattle.sc_read.specs.declared.hier.HierFault.{HierFault};
ghost use Rattle.sc_read.specs.declared.hier.HierFault.TheVariants.{Memory};
ghost use Rattle.sc_read.specs.GateFronts.{counts, IsNextGate};
ghost use Rattle.sc_read.specs.FlatReads.{IsFlatText, IsBadLine, HasTooManyGates};
ghost use Rattle.sc_read.specs.HierReads.{IsHierText, IsHierFault};

/// The text of numbers of wires and of gates over these wires, as they are written, is in the grammar and is that of these
/// numbers and gates.
pub fn written_flat_texts_are_read()
    ensures { (qubits cbits : ℕ) (gates : List Gate) → qubits ≤ most_flat_wires → cbits ≤ most_flat_wires → length gates ≤ most_gates →
        AllByRecursion (IsNextGate (counts qubits cbits)) gates →
        IsFlatText (flat_text qubits cbits gates) (record { qubits = qubits; cbits = cbits; gates = gates }) }
{}

/// A text is that of one list of gates and its numbers of wires; a text in the grammar has no bad line and not too many gates; no
/// text has both; and a text has one first bad line.
pub fn flat_texts_are_read_one_way()
    ensures one { (text : List ℕ) (f g : FlatText) → IsFlatText text f → IsFlatText text g → f ≡ g }
    ensures no_bad_line { (text : List ℕ) (f : FlatText) (line : ℕ) → IsFlatText text f → IsBadLine text line → ⊥ }
    ensures not_too_many { (text : List ℕ) (f : FlatText) → IsFlatText text f → HasTooManyGates text → ⊥ }
    ensures apart { (text : List ℕ) (line : ℕ) → IsBadLine text line → HasTooManyGates text → ⊥ }
    ensures first { (text : List ℕ) (m n : ℕ) → IsBadLine text m → IsBadLine text n → m ≡ n }
{}

/// A text in the grammar of hierarchical texts, of modules within the limits, is read as these modules; and a sound deck is read
/// only from a text in the grammar that is one of its modules.
pub fn hier_texts_are_in_the_grammar()
    ensures read { (text : List ℕ) (modules : List Module) → IsHier text modules → IsWithinLimits modules → IsHierText text modules }
    ensures grammar { (text : List ℕ) (modules : List Module) → IsDeck modules → IsSound modules → IsHierText text modules → IsHier text modules }
{}

/// The hierarchical text of a sound deck is in the grammar and within the limits, and what is read of it is this deck. So the
/// deck that is read has the same hierarchical text and the same unfolding.
pub fn written_hier_texts_are_read()
    ensures read { (modules : List Module) → IsDeck modules → IsSound modules → IsHierText (hier modules) modules }
    ensures back { (modules other : List Module) → IsDeck modules → IsSound modules → IsHierText (hier modules) other → other ≡ modules }
{}

/// A text is read as one list of modules, or has one fault, and not both, unless no memory was left.
pub fn hier_texts_are_read_one_way()
    ensures one { (text : List ℕ) (ms ns : List Module) → IsHierText text ms → IsHierText text ns → ms ≡ ns }
    ensures no_fault { (text : List ℕ) (ms : List Module) (fault : HierFault) → IsHierText text ms → fault ≢ Memory → IsHierFault text fault → ⊥ }
    ensures one_fault { (text : List ℕ) (f g : HierFault) → f ≢ Memory → g ≢ Memory → IsHierFault text f → IsHierFault text g → f ≡ g }
{}
