//! What is true of all gate lists.
ghost use Rattle.std.specs.Prelude.{◌≡◌, ◌≢◌, suc, ◌<◌, ◌≤◌, ◌*◌, ◌^◌, get_or, set, bit_xor, [], ◌∷◌, true, false, None, length, map, slice_get, slice_index_or, if◌then◌else◌, ◌+◌, ◌++◌, ◌↔◌, IsTrue, Some, reverse, ℕ, Bool, List, Option};
ghost use Rattle.sc_gate.specs.declared.gate.Wire.{Wire};
ghost use Rattle.sc_base.specs.declared.names.Fixed.{Fixed};
ghost use Rattle.sc_base.specs.declared.names.GateName.{GateName};
ghost use Rattle.sc_gate.specs.declared.gate.Kind.{Kind};
ghost use Rattle.sc_gate.specs.declared.gate.Gate.{Gate};
ghost use Rattle.sc_gate.specs.Gates.{name_of, qubits_of, is_measurement, class_of, operands, SuitsName, AreDistinct, IsWellFormed, AreWellFormed};
ghost use Rattle.sc_base.specs.declared.names.Class.TheVariants.{Q, C};
ghost use Rattle.std.specs.List.{AllByRecursion};
ghost use Rattle.std.specs.Option.{option_map};
ghost use Rattle.sc_gate.specs.Paths.{star, may_start, WiresAre, TakeTime, MeetOnlyAt, IsAt, call_adds, repeated_gates};
ghost use Rattle.sc_gate.specs.Kinds.{on_one, on_two, on_three, gate_on, IsMade, plain_kind, rotation_kind, preparation_kind, IsNamed};
ghost use Rattle.sc_gate.specs.Renaming.{rename_gate, rename_timed, KeepsClassesOn, IsOneToOneOn, IsOneToOne};
ghost use Rattle.sc_gate.specs.SameGates.{same_kind, same_option, same_gate};
ghost use Rattle.sc_gate.specs.Heights.{IsHeight, IsThrough, tail_of, height_at, through_at};
ghost use Rattle.sc_base.specs.Lines.{IsLine};
ghost use Rattle.sc_base.specs.Numerals.{EndsNumber};
ghost use Rattle.sc_gate.specs.LastGates.{has_at, last_on, IsLastOn};
ghost use Rattle.sc_gate.specs.Lines.{wire_text, gate_line, flat_header, gate_lines, flat_text};
ghost use Rattle.sc_gate.specs.Texts.{IsNumbered, HasLine, HaveLines, AreCounts};
ghost use Rattle.sc_gate.specs.Wires.{member, Shares};
ghost use Rattle.sc_gate.specs.BitRuns.{NoneChanges, UseOnly, KeepsApart, Matches, xors};
ghost use Rattle.sc_gate.specs.Runs.{xor, bit_at, xor_at, bit_run, number, AreClassical};
ghost use Rattle.sc_gate.specs.Chains.{Timed, timed, Depend, Chain, InTwo, Greatest, best, more, plus, when, over, IsCritical, critical_of, IsAfter, after, total_weight, Arrives, times_of, arrival_by};

/// In chains the gates at two positions depend on each other exactly where they share a wire.
pub fn dependence_is_a_shared_wire()
    ensures { (times : List ℕ) (gates : List Gate) (p q : ℕ) (other : Gate) → p < length gates → q < length gates →
        Depend (map (timed times) gates) p q ↔ Shares (slice_index_or gates p other) (slice_index_or gates q other) }
{}

/// `best` is the greatest weight of a chain.
pub fn best_is_greatest()
    ensures { (gates : List Timed) (from to : Option Wire) →
        Greatest (Chain gates from to) (best gates from to) }
{}

/// The critical path, gate by gate, is the greatest of 0 and of the weights of the chains.
pub fn critical_is_greatest()
    ensures { (gates : List Timed) → IsCritical gates (critical_of gates) }
{}

/// A chain of two lists in sequence lies in one of them, or is one of the first that ends at a wire and then one of
/// the second that starts there.
pub fn chains_of_two()
    ensures { (xs ys : List Timed) (from to : Option Wire) (n : ℕ) →
        Chain (xs ++ ys) from to n ↔ InTwo xs ys from to n }
{}

/// The weight of a list is that of its parts, and stays under other names of the wires; that of a chain is at most the list's.
pub fn weights_add_up()
    ensures parts { (xs ys : List Timed) → total_weight (xs ++ ys) ≡ total_weight xs + total_weight ys }
    ensures chains { (gates : List Timed) (from to : Option Wire) (n : ℕ) →
        Chain gates from to n → n ≤ total_weight gates }
    ensures renamed { (f : Wire → Wire) (gates : List Timed) →
        total_weight (map (rename_timed f) gates) ≡ total_weight gates }
    ensures repeated { (n : ℕ) (gates : List Timed) → total_weight (repeated_gates n gates) ≡ n * total_weight gates }
{}

/// The arrival times, gate by gate, are those by all chains, a second list begins at the times that the first leaves,
/// and with times at parameter wires alone a table of greatest weights tells them.
pub fn arrivals_compose()
    ensures chains { (times : Wire → ℕ) (gates : List Timed) (w : Wire) →
        IsAfter times gates w (after times gates w) }
    ensures parts { (times : Wire → ℕ) (xs ys : List Timed) →
        after times (xs ++ ys) ≡ after (after times xs) ys }
    ensures table { (arrivals : List Arrives) (gates : List Timed) (w : Wire) →
        after (times_of arrivals) gates w ≡ arrival_by arrivals (best gates) w }
{}

/// Heights and heaviest chains through a gate, computed gate by gate, are those of all chains; and a gate in front puts
/// its height at each of its wires.
pub fn heights_are_greatest()
    ensures heights { (gates : List Timed) (p : ℕ) → p < length gates → IsHeight gates p (height_at gates p) }
    ensures throughs { (gates : List Timed) (p : ℕ) → p < length gates →
        IsThrough gates p (through_at gates p) }
    ensures tails { (g : Timed) (gates : List Timed) (w : Wire) →
        tail_of (g ∷ gates) w ≡ (if member w g.wires then height_at (g ∷ gates) 0 else tail_of gates w) }
{}

/// The bit run of two lists in sequence is the one after the other.
pub fn bit_runs_compose()
    ensures { (xs ys : List Gate) (bits : List Bool) → bit_run (xs ++ ys) bits ≡ bit_run ys (bit_run xs bits) }
{}

/// A list of X, CNOT and Toffoli and then the same reversed leaves every truth value.
pub fn reversed_undoes()
    ensures { (gates : List Gate) (bits : List Bool) → AreClassical gates →
        bit_run (gates ++ reverse gates) bits ≡ bits }
{}

/// The tests of kinds, of optional wires and of gates are true exactly of equal ones.
pub fn sameness_is_equality()
    ensures kinds { (k l : Kind) → IsTrue (same_kind k l) ↔ (k ≡ l) }
    ensures options { (v w : Option Wire) → IsTrue (same_option v w) ↔ (v ≡ w) }
    ensures gates { (g h : Gate) → IsTrue (same_gate g h) ↔ (g ≡ h) }
{}

/// A kind made from a name has that name, and every kind is made from its name, with its angle or start value where it has one.
pub fn kinds_have_names()
    ensures plain { (n : GateName) (k : Kind) → plain_kind n ≡ Some k → name_of k ≡ n }
    ensures rotation { (n : GateName) (angle : Fixed) (k : Kind) → rotation_kind n angle ≡ Some k → name_of k ≡ n }
    ensures preparation { (n : GateName) (start : Bool) (k : Kind) → preparation_kind n start ≡ Some k → name_of k ≡ n }
    ensures all { (k : Kind) → IsNamed k }
{}

/// Renaming a gate renames its operands; a renaming that keeps their classes and is one to one on them keeps a gate well formed.
pub fn renaming_keeps_gates()
    ensures operands { (f : Wire → Wire) (g : Gate) → operands (rename_gate f g) ≡ map f (operands g) }
    ensures twice { (f h : Wire → Wire) (g : Gate) → rename_gate f (rename_gate h g) ≡ rename_gate (λ w. f (h w)) g }
    ensures well_formed { (f : Wire → Wire) (g : Gate) → KeepsClassesOn (operands g) f → IsOneToOneOn (operands g) f →
        IsWellFormed g → IsWellFormed (rename_gate f g) }
{}

/// Operands that suit the name of a kind and are distinct make a well-formed gate, and every well-formed gate is made of its
/// kind and its operands.
pub fn suited_operands_make_gates()
    ensures one { (k : Kind) (a : Wire) → SuitsName (name_of k) (class_of a ∷ []) → IsWellFormed (on_one k a) }
    ensures two { (k : Kind) (a b : Wire) → SuitsName (name_of k) (class_of a ∷ class_of b ∷ []) → a ≢ b →
        IsWellFormed (on_two k a b) }
    ensures three { (k : Kind) (a b c : Wire) → SuitsName (name_of k) (class_of a ∷ class_of b ∷ class_of c ∷ []) →
        a ≢ b → a ≢ c → b ≢ c → IsWellFormed (on_three k a b c) }
    ensures qubits { (n : GateName) (wires : List Wire) → length wires ≡ qubits_of n →
        AllByRecursion (λ w. class_of w ≡ Q) wires → SuitsName n (map class_of wires) }
    ensures measured { (n : GateName) (a b : Wire) → is_measurement n ≡ true → class_of a ≡ Q → class_of b ≡ C →
        SuitsName n (class_of a ∷ class_of b ∷ []) }
    ensures made { (k : Kind) (wires : List Wire) → SuitsName (name_of k) (map class_of wires) → AreDistinct wires → IsMade k wires }
    ensures parts { (k : Kind) (wires : List Wire) (g : Gate) → gate_on k wires ≡ Some g → (g.kind ≡ k) × (operands g ≡ wires) }
    ensures all { (g : Gate) → IsWellFormed g → gate_on g.kind (operands g) ≡ Some g }
{}

/// A one-to-one renaming of wires leaves every greatest weight.
pub fn renaming_keeps_paths()
    ensures best { (f : Wire → Wire) (gates : List Timed) (from to : Option Wire) → IsOneToOne f →
        best (map (rename_timed f) gates) (option_map f from) (option_map f to) ≡ best gates from to }
    ensures star { (f : Wire → Wire) (gates : List Timed) (from : Option Wire) (w : Wire) → IsOneToOne f →
        star (map (rename_timed f) gates) (option_map f from) (f w) ≡ star gates from w }
    ensures gates { (f : Wire → Wire) (times : List ℕ) (gates : List Gate) →
        map (timed times) (map (rename_gate f) gates) ≡ map (rename_timed f) (map (timed times) gates) }
{}

/// One more gate: its wires have its duration after the greatest of what its wires had, and the other wires keep what they had.
pub fn one_more_gate()
    ensures here { (gates : List Timed) (g : Timed) (from : Option Wire) (w : Wire) → member w g.wires ≡ true →
        star (gates ++ g ∷ []) from w ≡ over g.wires (λ v. plus (Some g.weight) (star gates from v)) }
    ensures away { (gates : List Timed) (g : Timed) (from : Option Wire) (w : Wire) → member w g.wires ≡ false →
        star (gates ++ g ∷ []) from w ≡ star gates from w }
    ensures last { (gates : List Timed) (g : Timed) (from : Option Wire) (w : Wire) → member w g.wires ≡ true →
        best (gates ++ g ∷ []) from None ≡ more (best gates from None) (over g.wires (λ v. plus (Some g.weight) (star gates from v))) }
{}

/// Gates and then a callee's, which share the wires of the call alone: the callee adds its own greatest weights after what the
/// wires of the call had.
pub fn calls_add_paths()
    ensures best { (before after : Wire → Bool) (xs ys : List Timed) (wires : List Wire) (from to : Option Wire) →
        MeetOnlyAt (λ w. IsTrue (before w)) (λ w. IsTrue (after w)) wires → IsAt (λ w. IsTrue (before w)) from →
        WiresAre (λ w. IsTrue (before w)) xs → WiresAre (λ w. IsTrue (after w)) ys →
        best (xs ++ ys) from to ≡ more (best xs from to) (call_adds xs ys wires from to) }
    ensures star { (before after : Wire → Bool) (xs ys : List Timed) (wires : List Wire) (from : Option Wire) (w : Wire) →
        MeetOnlyAt (λ w. IsTrue (before w)) (λ w. IsTrue (after w)) wires → IsAt (λ w. IsTrue (before w)) from →
        WiresAre (λ w. IsTrue (before w)) xs → WiresAre (λ w. IsTrue (after w)) ys →
        star (xs ++ ys) from w ≡ more (star xs from w) (call_adds xs ys wires from (Some w)) }
{}

/// At a wire that no gate has a signal is there at 0, where it may start there, and else never; and where every gate takes time,
/// no chain weighs 0.
pub fn fresh_wires_have_no_chain()
    ensures star { (gates : List Timed) (from : Option Wire) (w : Wire) → WiresAre (λ v. v ≢ w) gates →
        star gates from w ≡ more (when (may_start from w) (Some 0)) None }
    ensures weight { (gates : List Timed) (from to : Option Wire) (n : ℕ) → TakeTime gates → best gates from to ≡ Some n → 0 < n }
{}

/// A bit run keeps the number of bits, and the bit of each wire that no gate changes.
pub fn bit_runs_keep()
    ensures length { (gates : List Gate) (bits : List Bool) → length (bit_run gates bits) ≡ length bits }
    ensures others { (gates : List Gate) (w : ℕ) (bits : List Bool) → NoneChanges w gates →
        bit_at (bit_run gates bits) w ≡ bit_at bits w }
{}

/// Bits that agree on the wires in use agree after a run, also where the wires have other names in the one than in the other; a
/// one-to-one renaming of qubits keeps them apart.
pub fn bit_runs_agree()
    ensures renamed { (f : Wire → Wire) (wires : List Wire) → KeepsApart f wires → (gates : List Gate) (bits others : List Bool) →
        AreWellFormed gates → UseOnly wires gates → Matches f wires bits others →
        Matches f wires (bit_run gates bits) (bit_run (map (rename_gate f) gates) others) }
    ensures apart { (f : Wire → Wire) (wires : List Wire) → KeepsClassesOn wires f → IsOneToOneOn wires f →
        ((w : Wire) → member w wires ≡ true → class_of w ≡ Q) → KeepsApart f wires }
    ensures same { (wires : List Wire) (gates : List Gate) (bits others : List Bool) → AreWellFormed gates →
        UseOnly wires gates → Matches (λ w. w) wires bits others →
        Matches (λ w. w) wires (bit_run gates bits) (bit_run gates others) }
{}

/// n bits have numbers below 2^n, each another; the number of a xor is the xor of the numbers; and bits are items of their list.
pub fn bits_have_numbers()
    ensures below { (bits : List Bool) → number bits < 2 ^ length bits }
    ensures one { (xs ys : List Bool) → length xs ≡ length ys → number xs ≡ number ys → xs ≡ ys }
    ensures xor { (xs ys : List Bool) → length xs ≡ length ys → number (xors xs ys) ≡ bit_xor (number xs) (number ys) }
    ensures item { (bits : List Bool) (w : ℕ) (d : Bool) → w < length bits → bit_at bits w ≡ get_or bits w d }
    ensures set { (w : ℕ) (v : Bool) (bits : List Bool) → xor_at w v bits ≡ set bits w (xor (bit_at bits w) v) }
{}

/// Texts of wires, lines of gates and flat texts are read one way, whatever stands behind them; behind the text of a wire no
/// digit stands.
pub fn texts_are_read_one_way()
    ensures wires { (v w : Wire) (x y : List ℕ) → IsNumbered v → IsNumbered w → EndsNumber x → EndsNumber y →
        wire_text v ++ x ≡ wire_text w ++ y → (v ≡ w) × (x ≡ y) }
    ensures lines { (g h : Gate) (x y : List ℕ) → HasLine g → HasLine h → gate_line g ++ x ≡ gate_line h ++ y →
        (g ≡ h) × (x ≡ y) }
    ensures whole { (g : Gate) → HasLine g → IsLine (gate_line g) }
    ensures lists { (gates others : List Gate) (x y : List ℕ) → HaveLines gates → HaveLines others →
        length gates ≡ length others → gate_lines gates ++ x ≡ gate_lines others ++ y → (gates ≡ others) × (x ≡ y) }
    ensures headers { (q c g q' c' g' : ℕ) (x y : List ℕ) → AreCounts q c g → AreCounts q' c' g' →
        flat_header q c g ++ x ≡ flat_header q' c' g' ++ y → (q ≡ q') × (c ≡ c') × (g ≡ g') × (x ≡ y) }
    ensures texts { (q c q' c' : ℕ) (gates others : List Gate) (x y : List ℕ) → AreCounts q c (length gates) →
        AreCounts q' c' (length others) → HaveLines gates → HaveLines others →
        flat_text q c gates ++ x ≡ flat_text q' c' others ++ y → (q ≡ q') × (c ≡ c') × (gates ≡ others) × (x ≡ y) }
{}

/// `last_on` is the last gate before a position that has the wire, where one has it; and with one more gate that has it, it is
/// that gate, as a table that puts each gate on its wires in turn has it.
pub fn last_gates_are_last()
    ensures some { (gates : List Gate) (w : Wire) (n p : ℕ) → last_on gates w n ≡ Some p → IsLastOn gates w n p }
    ensures none { (gates : List Gate) (w : Wire) (n x : ℕ) → last_on gates w n ≡ None → x < n → has_at gates x w ≡ false }
    ensures next { (gates : List Gate) (x : ℕ) (gate : Gate) (w : Wire) → slice_get gates x ≡ Some gate →
        last_on gates w (suc x) ≡ (if member w (operands gate) then Some x else last_on gates w x) }
{}
