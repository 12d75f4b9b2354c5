//! What is true of all gate lists and schedules.
ghost use Rattle.std.specs.Prelude.{◌≡◌, ◌≤◌, ◌⊎◌, ◌+◌, ◌++◌, [], ◌∷◌, ℕ, Bool, List, length, map, flat_map};
ghost use Rattle.sc_gate.specs.declared.gate.Wire.{Wire};
ghost use Rattle.sc_gate.specs.declared.gate.Gate.{Gate};
ghost use Rattle.sc_gate.specs.Gates.{name_of, qubits_of, operands};
ghost use Rattle.sc_gate.specs.Renaming.{rename_gate, IsOneToOneOn};
ghost use Rattle.sc_sched.specs.declared.order.Rank.{Rank};
ghost use Rattle.sc_sched.specs.Legal.{Step, IsLegal};
ghost use Rattle.sc_sched.specs.Sequences.{in_sequence, alone};
ghost use Rattle.sc_sched.specs.Orders.{by_height, by_through};
ghost use Rattle.sc_sched.specs.declared.plan.Plan.{Plan as PlanValue};
ghost use Rattle.sc_sched.specs.Scheduling.{IsFirstWider};
ghost use Rattle.sc_sched.specs.Text.{IsSize, HasText};
ghost use Rattle.sc_sched.specs.PrioritySchedules.{IsPrioritySchedule, IsRankOrder, NoneIsWider};

use crate::Priority;

/// The order of a priority is lawful.
pub fn order_is_lawful<P: Priority>(order: &P)
    ensures { IsRankOrder (P.comes order.now) }
{
    let _ = order;
}

/// Both orders are lawful: that of heights, and that of chains through a gate.
pub fn both_orders_are_lawful()
    ensures height { IsRankOrder by_height }
    ensures through { IsRankOrder by_through }
{}

/// A gate list has at most one priority schedule.
pub fn at_most_one_schedule()
    ensures { (comes : Rank → Rank → Bool) (times : List ℕ) (gates : List Gate) (k d : ℕ) (xs ys : List Step) → IsRankOrder comes →
        IsPrioritySchedule comes times gates k d xs → IsPrioritySchedule comes times gates k d ys → xs ≡ ys }
{}

/// Where k and d are at least 1 and no gate has more than d qubits, a gate list has a priority schedule.
pub fn some_schedule()
    ensures { (comes : Rank → Rank → Bool) (times : List ℕ) (gates : List Gate) (k d : ℕ) → IsRankOrder comes → 1 ≤ k → NoneIsWider d gates →
        (steps : List Step) × IsPrioritySchedule comes times gates k d steps }
{}

/// A priority schedule has at most as many steps as its list has gates.
pub fn no_more_steps_than_gates()
    ensures { (comes : Rank → Rank → Bool) (times : List ℕ) (gates : List Gate) (k d : ℕ) (steps : List Step) →
        IsPrioritySchedule comes times gates k d steps → length steps ≤ length gates }
{}

/// A gate list has a first gate with more than d qubits, or no such gate.
pub fn some_gate_is_wider_or_none()
    ensures { (d : ℕ) (gates : List Gate) → ((x : ℕ) × IsFirstWider d gates x) ⊎ NoneIsWider d gates }
{}

/// A priority schedule of at most 4,194,304 gates has a text, if its numbers of regions and of qubits may stand in one.
pub fn priority_schedules_have_texts()
    ensures { (comes : Rank → Rank → Bool) (times : List ℕ) (gates : List Gate) (s : PlanValue) →
        length gates ≤ 4194304 → s.gates ≡ length gates → IsSize s.k → IsSize s.d → IsPrioritySchedule comes times gates s.k s.d s.steps → HasText s }
{}

/// Legal schedules of two gate lists, the second behind the gates of the first, are a legal schedule of the gates one
/// after another, and have as many steps as the two together. No step is a legal schedule of no gate.
pub fn schedules_follow_one_another()
    ensures none { (k d : ℕ) → IsLegal [] k d [] }
    ensures legal { (gates more : List Gate) (k d : ℕ) (steps later : List Step) → IsLegal gates k d steps → IsLegal more k d later →
        IsLegal (gates ++ more) k d (in_sequence (length gates) steps later) }
    ensures many { (n : ℕ) (steps later : List Step) → length (in_sequence n steps later) ≡ length steps + length later }
{}

/// A legal schedule of some gates is one of the same gates under new names of their wires, if no two of their wires get
/// one name.
pub fn renaming_keeps_schedules()
    ensures { (f : Wire → Wire) (gates : List Gate) (k d : ℕ) (steps : List Step) → IsOneToOneOn (flat_map operands gates) f →
        IsLegal gates k d steps → IsLegal (map (rename_gate f) gates) k d steps }
{}

/// One step with one region is a legal schedule of one gate, where there is a region and it has room for the gate's qubits.
pub fn one_gate_stands_alone()
    ensures legal { (gate : Gate) (k d : ℕ) → 1 ≤ k → qubits_of (name_of gate.kind) ≤ d → IsLegal (gate ∷ []) k d alone }
    ensures one { length alone ≡ 1 }
{}
