//! What is true of all schedule texts, where a number of gates is below 2^32.
ghost use Rattle.std.specs.Prelude.{◌≡◌, ◌<◌, ◌^◌, ℕ, List};
ghost use Rattle.sc_sched.specs.declared.plan.Plan.{Plan};
ghost use Rattle.sc_sched.specs.Text.{schedule_text, HasText, IsTextOf, IsBadLine};

/// What is written of a schedule that has a text is in the grammar, and is that of this schedule.
pub fn written_texts_are_read()
    ensures { (s : Plan) → HasText s → IsTextOf s.gates (schedule_text s) s }
{}

/// A text is that of one schedule, a text in the grammar has no bad line, and a text has one first bad line.
pub fn texts_are_read_one_way()
    ensures one { (gates : ℕ) (text : List ℕ) (s t : Plan) → gates < 2 ^ 32 → IsTextOf gates text s → IsTextOf gates text t → s ≡ t }
    ensures apart { (gates : ℕ) (text : List ℕ) (s : Plan) (line : ℕ) → gates < 2 ^ 32 → IsTextOf gates text s → IsBadLine gates text line → ⊥ }
    ensures first { (gates : ℕ) (text : List ℕ) (m n : ℕ) → gates < 2 ^ 32 → IsBadLine gates text m → IsBadLine gates text n → m ≡ n }
{}
