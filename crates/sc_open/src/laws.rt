//! What is true of all OpenQASM texts.
ghost use Rattle.std.specs.Prelude.{◌≡◌, ◌↔◌, ◌≤◌, ◌∷◌, ◌++◌, [], ℕ, List, true, codes, Some};
ghost use Rattle.std.specs.List.{AllByRecursion};
ghost use Rattle.sc_base.specs.Limits.{most_flat_wires};
ghost use Rattle.sc_gate.specs.declared.gate.Gate.{Gate};
ghost use Rattle.sc_gate.specs.declared.gate.Kind.TheVariants as kind;
ghost use Rattle.sc_gate.specs.Gates.{IsWellFormed};
ghost use Rattle.sc_gate.specs.Kinds.{qubit, cbit, on_one, on_two};
ghost use Rattle.sc_gate.specs.Lines.{flat_text};
ghost use Rattle.sc_open.specs.declared.text.OpenText.{OpenText};
ghost use Rattle.sc_open.specs.Lowering.{lowered, back, is_kept};
ghost use Rattle.sc_open.specs.OpenTexts.{open_text};
ghost use Rattle.sc_open.specs.OpenStages.{counts, IsNextGate, IsSound};
ghost use Rattle.sc_open.specs.OpenReads.{IsInGrammar, IsOpenText, IsBadLine};

/// The texts whose lines are all in their places are those of registers and lines within the bounds.
pub fn read_texts_are_the_grammar()
    ensures read { (text : List ℕ) (t : OpenText) → IsInGrammar text t → IsOpenText text t }
    ensures grammar { (text : List ℕ) (t : OpenText) → IsOpenText text t → IsInGrammar text t }
{}

/// A text is that of one list of registers and lines; a text in the grammar has no bad line; and a text has one first bad line.
pub fn open_texts_are_read_one_way()
    ensures one { (text : List ℕ) (t u : OpenText) → IsOpenText text t → IsOpenText text u → t ≡ u }
    ensures no_bad_line { (text : List ℕ) (t : OpenText) (line : ℕ) → IsOpenText text t → IsBadLine text line → ⊥ }
    ensures first { (text : List ℕ) (m n : ℕ) → IsBadLine text m → IsBadLine text n → m ≡ n }
{}

/// The text that is written of a gate list over at most 4,294,967,295 qubits and as many classical bits is in the grammar, and is
/// read as what the list is lowered to, and as nothing else.
pub fn written_open_texts_are_read()
    ensures sound { (qubits cbits : ℕ) (gates : List Gate) → qubits ≤ most_flat_wires → cbits ≤ most_flat_wires →
        AllByRecursion (IsNextGate (counts qubits cbits)) gates → IsSound (lowered qubits cbits gates) }
    ensures read { (qubits cbits : ℕ) (gates : List Gate) → qubits ≤ most_flat_wires → cbits ≤ most_flat_wires →
        AllByRecursion (IsNextGate (counts qubits cbits)) gates → IsOpenText (open_text (lowered qubits cbits gates)) (lowered qubits cbits gates) }
    ensures only { (qubits cbits : ℕ) (gates : List Gate) (t : OpenText) → qubits ≤ most_flat_wires → cbits ≤ most_flat_wires →
        AllByRecursion (IsNextGate (counts qubits cbits)) gates → IsOpenText (open_text (lowered qubits cbits gates)) t → t ≡ lowered qubits cbits gates }
{}

/// A gate list without PrepX, MeasX, Fredkin and start values 1 comes back: the lines that it is lowered to are read as its gates,
/// and what is read of its OpenQASM text has its flat text.
pub fn kept_gates_come_back()
    ensures gates { (qubits cbits : ℕ) (gates : List Gate) → AllByRecursion IsWellFormed gates → AllByRecursion (λ g. is_kept g.kind ≡ true) gates →
        back (lowered qubits cbits gates) ≡ gates }
    ensures text { (qubits cbits : ℕ) (gates : List Gate) (t : OpenText) → qubits ≤ most_flat_wires → cbits ≤ most_flat_wires →
        AllByRecursion (IsNextGate (counts qubits cbits)) gates → AllByRecursion (λ g. is_kept g.kind ≡ true) gates →
        IsOpenText (open_text (lowered qubits cbits gates)) t → flat_text t.qubits t.cbits (back t) ≡ flat_text qubits cbits gates }
{}

/// The texts of two small gate lists, and what the second is read as.
pub fn small_gate_lists_are_lowered()
    ensures two_gates { open_text (lowered 2 0 (on_one kind.H (qubit 0) ∷ on_two kind.Cnot (qubit 0) (qubit 1) ∷ []))
        ≡ codes "OPENQASM 2.0;\ninclude \"qelib1.inc\";\nqreg q[2];\nh q[0];\ncx q[0],q[1];\n" }
    ensures measured { open_text (lowered 1 1 (on_one (kind.PrepX true) (qubit 0) ∷ on_two kind.MeasX (qubit 0) (cbit 0) ∷ on_one kind.MeasZ (qubit 0) ∷ []))
        ≡ codes "OPENQASM 2.0;\ninclude \"qelib1.inc\";\nqreg q[1];\ncreg c[1];\ncreg u[1];\nreset q[0];\nx q[0];\nh q[0];\nh q[0];\nmeasure q[0] -> c[0];\nh q[0];\nmeasure q[0] -> u[0];\n" }
    ensures back { flat_text 1 1 (back (lowered 1 1 (on_one (kind.PrepX true) (qubit 0) ∷ on_two kind.MeasX (qubit 0) (cbit 0) ∷ on_one kind.MeasZ (qubit 0) ∷ [])))
        ≡ codes "flat 1\nqbits 1\ncbits 1\ngates 7\nPrepZ q0,0\nX q0\nH q0\nH q0\nMeasZ q0,c0\nH q0\nMeasZ q0\n" }
{}
