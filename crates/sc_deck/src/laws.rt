//! What is true of the unfoldings of all module lists.
ghost use Rattle.std.specs.Prelude.{◌≡◌, ◌<◌, ◌≤◌, ◌↔◌, ◌+◌, ◌-◌, ◌*◌, ◌^◌, [], ◌∷◌, ◌++◌, ℕ, List, Some, codes, map, flat_map, length, take, slice_get, slice_index, IsTrue, All, false};
ghost use Rattle.std.specs.List.{list_any};
ghost use Rattle.sc_base.specs.declared.names.Class.{Class};
ghost use Rattle.sc_gate.specs.declared.gate.Wire.{Wire};
ghost use Rattle.sc_gate.specs.Gates.{class_of, AreDistinct, AreWellFormed};
ghost use Rattle.sc_gate.specs.Numbers.{Numbers, number_of, no_wires, IsThere, AreThere};
ghost use Rattle.sc_gate.specs.Renaming.{rename_gate, KeepsClasses, IsOneToOne};
ghost use Rattle.sc_gate.specs.Wires.{same_class};
ghost use Rattle.sc_deck.specs.declared.item.Item.{Item};
ghost use Rattle.sc_deck.specs.declared.key.Key.{Key};
ghost use Rattle.sc_deck.specs.CallChains.{Calls, IsCallChain};
ghost use Rattle.sc_deck.specs.Decks.{CallsFit, IsDeck, IsWhole};
ghost use Rattle.sc_deck.specs.Events.{Event, gates_in, after_events, fresh_in, rename_event};
ghost use Rattle.sc_deck.specs.Examples.{g_twice, g_repeated, eight_gates};
ghost use Rattle.sc_deck.specs.Hierarchical.{hier, AreProper, IsHier, IsSound, IsWithinLimits};
ghost use Rattle.sc_deck.specs.Items.{ItemInRange};
ghost use Rattle.sc_deck.specs.Keys.{param_classes, params_of};
ghost use Rattle.sc_deck.specs.Modules.{Module, is_called, height_over, heights_of, reach_over, reaches_of};
ghost use Rattle.sc_deck.specs.Placing.{put, copies, Sized, GatesOn, IsPassedOrFresh};
ghost use Rattle.sc_deck.specs.Renaming.{wire, CanRename};
ghost use Rattle.sc_deck.specs.Turns.{has_turns, written_out, with_folded, folded, folded_modules, NeighboursDiffer};
ghost use Rattle.sc_deck.specs.Unfolding.{Unfolding, unfold_items, unfold_module, unfoldings, unfold_on, expansion, gates_of, numbered, of_class, placed, wires_from, places_after, repeated};

/// The events of items in sequence are those of the first part and then those of the second, from where the first ends.
pub fn items_in_sequence()
    ensures { (us : List Unfolding) (items more : List Item) (places : List Wire) (next : Numbers) →
        unfold_items us (items ++ more) places next
        ≡ unfold_items us items places next
        ++ unfold_items us more (places_after us items places next) (after_events next (unfold_items us items places next)) }
{}

/// A module appended to a list leaves the earlier unfoldings, and is unfolded by them.
pub fn appended_module()
    ensures earlier { (modules : List Module) (m : Module) (i : ℕ) → i < length modules →
        unfold_on (modules ++ m ∷ []) i ≡ unfold_on modules i }
    ensures last { (modules : List Module) (m : Module) →
        unfold_on (modules ++ m ∷ []) (length modules) ≡ unfold_module (unfoldings modules) m }
{}

/// Items unfold as the list in which each item with n turns stands n times.
pub fn turns_are_repeats()
    ensures { (us : List Unfolding) (items : List Item) (places : List Wire) (next : Numbers) →
        unfold_items us items places next ≡ unfold_items us (flat_map written_out items) places next }
{}

/// Folded items stand for the same items, are made item by item, and unfold to the same events; so do folded module lists.
pub fn folding_keeps_events()
    ensures stand { (items : List Item) → flat_map written_out (folded items) ≡ flat_map written_out items }
    ensures push { (items : List Item) (i : Item) → folded (items ++ i ∷ []) ≡ with_folded (folded items) i }
    ensures items { (us : List Unfolding) (items : List Item) (places : List Wire) (next : Numbers) →
        unfold_items us (folded items) places next ≡ unfold_items us items places next }
    ensures modules { (modules : List Module) (i : ℕ) → expansion (folded_modules modules) i ≡ expansion modules i }
{}

/// A body of a deck on other wires and from other next fresh numbers unfolds to the same events with their wires renamed.
pub fn other_wires_rename_events()
    ensures { (modules : List Module) → IsDeck modules → (i : ℕ) (m : Module) → slice_get modules i ≡ Some m →
        CanRename m (unfold_on modules i) }
{}

/// The worked example: both module lists unfold to the eight gates, the second is the first one folded, and this is its text.
pub fn worked_example()
    ensures twice { gates_of g_twice 1 ≡ eight_gates }
    ensures repeated { gates_of g_repeated 1 ≡ eight_gates }
    ensures folded { folded_modules g_twice ≡ g_repeated }
    ensures text { hier g_repeated ≡ codes "hier 2\nmodule 0 g(q)\nqbit 1\nrepeat 3 H q1\nCNOT q1,q0\nend\nmodule 1 main()\nqbit 1\nrepeat 2 call 0 q0\nend\n" }
{}

/// Each module of a deck unfolds to its entering, its items over the unfoldings of its callees, and its return.
/// Its height and its reach are made of those of its callees in the same way.
pub fn modules_from_callees()
    ensures events { (modules : List Module) → IsDeck modules → (i : ℕ) (m : Module) → slice_get modules i ≡ Some m →
        unfold_on modules i ≡ unfold_module (unfoldings modules) m }
    ensures height { (modules : List Module) → IsDeck modules → (i : ℕ) (m : Module) → slice_get modules i ≡ Some m →
        slice_get (heights_of modules) i ≡ Some (height_over (heights_of modules) m) }
    ensures reach { (modules : List Module) → IsDeck modules → (i : ℕ) (m : Module) → slice_get modules i ≡ Some m →
        slice_get (reaches_of modules) i ≡ Some (reach_over (reaches_of modules) m) }
{}

/// The text of a sound deck is a hierarchical text of its modules, and they are within the limits.
pub fn sound_decks_have_texts()
    ensures text { (modules : List Module) → IsDeck modules → IsSound modules → IsHier (hier modules) modules }
    ensures limits { (modules : List Module) → IsDeck modules → IsSound modules → IsWithinLimits modules }
{}

/// The rules for modules hold of each front of a list of which they hold.
pub fn fronts_are_proper()
    ensures deck { (modules more : List Module) → IsDeck (modules ++ more) → IsDeck modules }
    ensures text { (modules more : List Module) → AreProper (modules ++ more) → AreProper modules }
{}

/// An unfolding is the expansion of its module with the wires put in their places. So the fresh sums of an unfolding and the
/// kinds of its gates depend neither on the wires that are passed nor on the next numbers.
pub fn unfoldings_are_placed_expansions()
    ensures events { (modules : List Module) → IsDeck modules → (i : ℕ) (m : Module) → slice_get modules i ≡ Some m →
        (wires : List Wire) (next : Numbers) → map class_of wires ≡ param_classes m.key →
        unfold_on modules i wires next ≡ map (rename_event (put wires next)) (expansion modules i) }
    ensures sums { (modules : List Module) → IsDeck modules → (i : ℕ) (m : Module) → slice_get modules i ≡ Some m →
        (wires : List Wire) (next : Numbers) → map class_of wires ≡ param_classes m.key →
        fresh_in (unfold_on modules i wires next) ≡ fresh_in (expansion modules i) }
    ensures gates { (modules : List Module) → IsDeck modules → (i : ℕ) (m : Module) → slice_get modules i ≡ Some m →
        (wires : List Wire) (next : Numbers) → map class_of wires ≡ param_classes m.key →
        gates_in (unfold_on modules i wires next) ≡ map (rename_gate (put wires next)) (gates_of modules i) }
{}

/// An unfolding that is repeated is so many copies of its events, and makes so many times its fresh wires.
pub fn repeats_are_copies()
    ensures events { (once : Numbers → List Event) (wires : List Wire) (events : List Event) →
        ((next : Numbers) → once next ≡ map (rename_event (put wires next)) events) →
        (n : ℕ) (next : Numbers) → repeated n once next ≡ copies n wires events next }
    ensures sums { (once : Numbers → List Event) (class : Class) (each : ℕ) →
        ((next : Numbers) → number_of class (fresh_in (once next)) ≡ each) →
        (n : ℕ) (next : Numbers) → number_of class (fresh_in (repeated n once next)) ≡ n * each }
{}

/// Each wire of an unfolding's gates is one that was passed or a fresh one of that unfolding. The wires of the last
/// expansion of a whole deck are below the sums of its flat text.
pub fn wires_are_passed_or_fresh()
    ensures passed { (modules : List Module) → IsDeck modules → (i : ℕ) (m : Module) → slice_get modules i ≡ Some m →
        (wires : List Wire) (next : Numbers) → map class_of wires ≡ param_classes m.key →
        GatesOn (IsPassedOrFresh wires next (after_events next (unfold_on modules i wires next))) (gates_in (unfold_on modules i wires next)) }
    ensures whole { (modules : List Module) → IsDeck modules → IsWhole modules →
        GatesOn (IsThere (fresh_in (expansion modules (length modules - 1)))) (gates_of modules (length modules - 1)) }
{}

/// Wires that come behind leave the earlier places, and fresh ones have the local numbers from the count of their class on.
/// Wires passed to a key are as many of each class as it has parameters.
pub fn places_grow()
    ensures before { (places more : List Wire) (w : Wire) → w.number < length (of_class w.class places) →
        placed (places ++ more) w ≡ placed places w }
    ensures fresh { (places : List Wire) (class : Class) (first n k : ℕ) → k < n →
        placed (places ++ wires_from class first n) (wire class (length (of_class class places) + k)) ≡ wire class (first + k) }
    ensures same { (class : Class) (first n : ℕ) → of_class class (wires_from class first n) ≡ wires_from class first n }
    ensures other { (class other : Class) (first n : ℕ) → same_class class other ≡ false → of_class class (wires_from other first n) ≡ [] }
    ensures params { (wires : List Wire) (key : Key) → map class_of wires ≡ param_classes key → Sized wires (params_of key) }
{}

/// The canonical placing keeps classes, puts parameters on the wires that are passed and fresh wires on those from the next
/// numbers on, and puts two wires on one only where a wire was passed twice or is not below the next numbers.
pub fn placings_are_one_to_one()
    ensures classes { (wires : List Wire) (next : Numbers) → KeepsClasses (put wires next) }
    ensures params { (wires : List Wire) (next : Numbers) → map (put wires next) (numbered (map class_of wires) no_wires) ≡ wires }
    ensures fresh { (wires : List Wire) (numbers next : Numbers) → Sized wires numbers → (class : Class) (k : ℕ) →
        put wires next (wire class (number_of class numbers + k)) ≡ wire class (number_of class next + k) }
    ensures apart { (wires : List Wire) (next : Numbers) → AreDistinct wires → AreThere next wires → IsOneToOne (put wires next) }
{}

/// All gates of an unfolding on distinct wires below the next numbers are well formed, and so are those of a whole deck.
pub fn gates_are_well_formed()
    ensures passed { (modules : List Module) → IsDeck modules → (i : ℕ) (m : Module) → slice_get modules i ≡ Some m →
        (wires : List Wire) (next : Numbers) → map class_of wires ≡ param_classes m.key → AreDistinct wires → AreThere next wires →
        AreWellFormed (gates_in (unfold_on modules i wires next)) }
    ensures whole { (modules : List Module) → IsDeck modules → IsWhole modules → AreWellFormed (gates_of modules (length modules - 1)) }
{}

/// No reach passes 65,536 wires for each step of the height, so in a deck of heights up to 256 none passes 16,777,216.
pub fn reaches_are_bounded()
    ensures heights { (modules : List Module) → IsDeck modules → (i : ℕ) →
        slice_index (reaches_of modules) i ≤ 65536 * slice_index (heights_of modules) i }
    ensures shallow { (modules : List Module) → IsDeck modules → All (λ height. height ≤ 256) (heights_of modules) → (i : ℕ) →
        slice_index (reaches_of modules) i ≤ 16777216 }
{}

/// Calls of a deck: they fit in each longer one, those of module i are of modules before it, and a module is called exactly
/// where a later one calls it. A key has one number.
pub fn calls_are_of_earlier_modules()
    ensures longer { (modules more : List Module) (items : List Item) → CallsFit modules items → CallsFit (modules ++ more) items }
    ensures earlier { (modules : List Module) → IsDeck modules → (i : ℕ) (m : Module) → slice_get modules i ≡ Some m →
        CallsFit (take i modules) m.items }
    ensures called { (modules : List Module) (i : ℕ) → IsTrue (is_called modules i) ↔ ((j : ℕ) × (i < j) × Calls modules j i) }
    ensures key { (modules : List Module) → IsDeck modules → (i j : ℕ) (m n : Module) →
        slice_get modules i ≡ Some m → slice_get modules j ≡ Some n → m.key ≡ n.key → i ≡ j }
{}

/// A chain of calls grows at its end, and is no longer than the deck.
pub fn call_chains_grow()
    ensures more { (modules : List Module) (front : List ℕ) (i j : ℕ) → IsCallChain modules (front ++ i ∷ []) →
        Calls modules i j → j < length modules → IsCallChain modules (front ++ (i ∷ j ∷ [])) }
    ensures short { (modules : List Module) → IsDeck modules → (chain : List ℕ) → IsCallChain modules chain → length chain ≤ length modules }
{}

/// Folding keeps heights, who is called, wholeness, and what every deck keeps where the numbers of turns stay in range.
pub fn folding_keeps_decks()
    ensures heights { (modules : List Module) → heights_of (folded_modules modules) ≡ heights_of modules }
    ensures called { (modules : List Module) (i : ℕ) → is_called (folded_modules modules) i ≡ is_called modules i }
    ensures whole { (modules : List Module) → IsWhole modules → IsWhole (folded_modules modules) }
    ensures deck { (modules : List Module) → IsDeck modules → All (λ m. All ItemInRange (folded m.items)) modules → IsDeck (folded_modules modules) }
{}

/// Where no item has turns, no folded item is followed by the same gate or the same call, and the numbers of turns are in range.
pub fn folded_neighbours_differ()
    ensures differ { (items : List Item) → list_any has_turns items ≡ false → NeighboursDiffer (folded items) }
    ensures range { (items : List Item) → list_any has_turns items ≡ false → length items < 2 ^ 64 → All ItemInRange items →
        All ItemInRange (folded items) }
{}

/// A text is the hierarchical text of one list of modules within the limits.
pub fn one_list_for_a_text()
    ensures { (text : List ℕ) (ms ns : List Module) → IsHier text ms → IsHier text ns → IsWithinLimits ms → IsWithinLimits ns → ms ≡ ns }
{}
