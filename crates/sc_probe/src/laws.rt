//! What is true of every rule.
ghost use Rattle.std.specs.Prelude.{◌≡◌, ◌<◌, ◌++◌, ◌^◌, ℕ, List, length};
ghost use Rattle.sc_gate.specs.declared.gate.Gate.{Gate};
ghost use Rattle.sc_probe.specs.declared.rule.Rule.{Rule};
ghost use Rattle.sc_probe.specs.Rules.{start, folded, state_text};
ghost use Rattle.sc_probe.specs.Watched.{IsTextOf};

/// For fewer than 2^128 gates the text of the state that the gates lead to, from the start on, says of the whole list what
/// the rule is for.
pub fn texts_tell_of_the_whole_list()
    ensures { (rule : Rule) (gates : List Gate) → length gates < 2 ^ 128 →
        IsTextOf rule gates (state_text rule (folded rule (start rule) gates)) }
{}

/// Two lists, one after another, move a state as their joined list does.
pub fn states_compose()
    ensures { (rule : Rule) (state : List ℕ) (xs ys : List Gate) →
        folded rule state (xs ++ ys) ≡ folded rule (folded rule state xs) ys }
{}
