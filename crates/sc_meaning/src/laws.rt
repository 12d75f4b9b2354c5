//! What is true of all runs, and some runs worked out.
ghost use Rattle.std.specs.Prelude.{◌≡◌, Some, None, [], ◌∷◌};
ghost use Rattle.sc_deck.specs.Examples.{g_twice, g_repeated, eight_gates};
ghost use Rattle.sc_deck.specs.Turns.{folded_modules};
ghost use Rattle.sc_rev.specs.Cells.{adder};
ghost use Rattle.sc_meaning.specs.declared.choice.Choice.TheVariants.{Keep};
ghost use Rattle.sc_meaning.specs.declared.fault.ElabFault.TheVariants.{OutOfRange, Repeated, TooWide, TooDeep};
ghost use Rattle.sc_meaning.specs.Answers.{LocalAnswers};
ghost use Rattle.sc_meaning.specs.ClassicalCalls.{CallsXor};
ghost use Rattle.sc_meaning.specs.Decks.{AllWhole, AllShallow, AllDecks, AllSound};
ghost use Rattle.sc_meaning.specs.Depth.{DepthCuts};
ghost use Rattle.sc_meaning.specs.Enterings.{EachIsInstance};
ghost use Rattle.sc_meaning.specs.Examples.{line, pair, pair_events, past_the_end, twice_one_wire, calls_of_g, calls_of_g_events, call_of_one, call_of_one_events, sum_gates, endless, no_round, ever_wider};
ghost use Rattle.sc_meaning.specs.Instances.{meaning_of, instances_of, refusal_of};
ghost use Rattle.sc_meaning.specs.Kept.{KeptStands, KeptIsTooDeep};
ghost use Rattle.sc_meaning.specs.Meaning.{AllExpand};
ghost use Rattle.sc_meaning.specs.Outcomes.{events_of, fault_of};
ghost use Rattle.sc_meaning.specs.Programs.{IsOneProgram};
ghost use Rattle.sc_meaning.specs.Run.{run_program};

/// Sources that differ only in where their boxes and lists lie in memory are one program, so they have one run.
pub fn addresses_say_nothing()
    ensures { IsOneProgram }
{}

/// Two qubits, an H and a CNOT.
pub fn pair_is_run()
    ensures { events_of (run_program pair) ≡ pair_events }
{}

/// A module with a fresh qubit, called twice: each call has a qubit of its own, and there is one instance.
pub fn calls_are_run()
    ensures events { events_of (run_program calls_of_g) ≡ calls_of_g_events }
    ensures meaning { meaning_of Keep (events_of (run_program calls_of_g)) ≡ eight_gates }
    ensures instances { instances_of Keep (events_of (run_program calls_of_g)) ≡ g_twice }
    ensures folded { folded_modules (instances_of Keep (events_of (run_program calls_of_g))) ≡ g_repeated }
{}

/// A classical function: its scratch, then its gates. And the gates of a sum.
pub fn functions_are_gates()
    ensures call { events_of (run_program call_of_one) ≡ call_of_one_events }
    ensures sum { adder (0 ∷ 1 ∷ []) (2 ∷ 3 ∷ []) 6 1 ≡ sum_gates }
{}

/// Faults and their places; a loop without a round, and one whose second round is too wide.
pub fn faults_have_places()
    ensures index { refusal_of (run_program past_the_end) ≡ Some (OutOfRange (line 3)) }
    ensures repeated { refusal_of (run_program twice_one_wire) ≡ Some (Repeated (line 3)) }
    ensures none { refusal_of (run_program no_round) ≡ None }
    ensures deep { fault_of (run_program endless) ≡ Some TooDeep }
    ensures wide { fault_of (run_program ever_wider) ≡ Some (TooWide (line 2)) }
{}

/// Where fewer bodies may be open within one another, an entering of a key on the same wires does the same, or stops earlier
/// because calls go too deep.
pub fn depth_cuts_short()
    ensures { DepthCuts }
{}

/// Where each body numbers its own wires, and the items, the deck and the keys are made event by event, main answers the refusal
/// of the source, or with no refusal a deck that is its instances.
pub fn local_run_answers()
    ensures { LocalAnswers }
{}

/// Each entering in a run that is not refused returns. Read by itself it gives the modules that its key makes, whatever its wires, so
/// all enterings of one key have the same items; and its events are the instance of its key unfolded on its wires.
pub fn enterings_are_instances()
    ensures { EachIsInstance }
{}

/// A body that is kept with the least depth at which its key returns stands for another entering of that key. Where that depth is
/// left, the entering makes a call item and changes nothing else; where less is left, calls go too deep.
pub fn kept_bodies_stand()
    ensures stands { KeptStands }
    ensures deep { KeptIsTooDeep }
{}

/// Where the run of a source is not refused, main is the last of its instances, and that instance with all its calls written out has the
/// gates of the meaning and, gates aside, the events of the run in their order; with the gates kept it is the run.
pub fn instances_expand()
    ensures { AllExpand }
{}

/// Where the run of a source is not refused, each instance but main, which is the last, is called by a later one, and no height
/// passes 256.
pub fn instances_are_whole()
    ensures whole { AllWhole }
    ensures shallow { AllShallow }
{}

/// Where the run of a source is not refused, its instances are a deck, and so they are where runs of equal items are folded. A
/// hierarchical text may hold the folded ones, unless one has more items than such a text takes: then reading it back is refused.
pub fn instances_are_sound()
    ensures decks { AllDecks }
    ensures sound { AllSound }
{}

/// In a run that is not refused, the gates of each call of a classical function xor its value into its output, and leave its words and
/// every other wire; its scratch is zero again.
pub fn classical_calls_xor()
    ensures { CallsXor }
{}
