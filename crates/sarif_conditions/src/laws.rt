//! Laws of what the conditions of a policy decide, each the contract of a function that does nothing.
ghost use Rattle.std.specs.Prelude.{◌≡◌, ◌↔◌, IsPermutation, ◌≤◌, ◌<◌, ◌+◌, ◌∷◌, ◌++◌, [], ℕ, Bool, IsTrue, List, None, Option, length, not, ◌&&◌};
ghost use Rattle.std.specs.List.{Contains, count_by};
ghost use Rattle.sarif_change.specs.declared.spots.Scope.{Scope};
ghost use Rattle.sarif_counts.specs.declared.gate_verdict.Verdict.TheVariants.{Fail, Pass};
ghost use Rattle.sarif_entries.specs.declared.entry.Entry.{Entry};
ghost use Rattle.sarif_options.specs.Policy.{are_hits};
ghost use Rattle.sarif_options.specs.declared.policy.Policy.{Policy};
ghost use Rattle.sarif_policy.specs.declared.condition.GateCondition.{GateCondition};
ghost use Rattle.sarif_scope.specs.Counted.{verdict_on};
ghost use Rattle.sarif_conditions.specs.Accepting.{suppressed_if};
ghost use Rattle.sarif_conditions.specs.Decided as said;
ghost use Rattle.sarif_conditions.specs.Facts.{facts_of, verdict_told};
ghost use Rattle.sarif_conditions.specs.Options.{condition_of_options, is_hit_by_options, is_reported_by_options};
ghost use Rattle.sarif_conditions.specs.Split.{with_only, with_except};
ghost use Rattle.sarif_conditions.specs.Judged.{Judged};

/// The verdict is fail exactly if a condition has more hits than its limit. Then there is a hit. What the gate says has
/// this verdict.
pub fn the_gate_fails_if_a_condition_fails()
    ensures condition { (cs : List GateCondition) (rs : List Judged)
        → (said.verdict_of cs rs ≡ Fail)
        ↔ ((c : GateCondition) × Contains cs c × (said.limit_of c rs < said.hits_of c rs)) }
    ensures hit { (cs : List GateCondition) (rs : List Judged)
        → said.verdict_of cs rs ≡ Fail
        → (r : Judged) × Contains rs r × IsTrue (said.is_hit cs r) }
    ensures told { (cs : List GateCondition) (rs : List Judged)
        → verdict_told (facts_of cs rs) ≡ said.verdict_of cs rs }
{}

/// A hit of a policy is exactly a hit of one of its conditions taken alone, which has the same limit there.
pub fn a_hit_is_one_of_a_condition()
    ensures { (cs : List GateCondition) (r : Judged) → IsTrue (said.is_hit cs r)
        ↔ ((c : GateCondition) × Contains cs c × IsTrue (said.is_hit (c ∷ []) r)) }
{}

/// The order of conditions changes no hit and no verdict.
pub fn the_order_of_conditions_changes_nothing()
    ensures hits { (cs ds : List GateCondition) (r : Judged) → IsPermutation cs ds
        → said.is_hit cs r ≡ said.is_hit ds r }
    ensures verdict { (cs ds : List GateCondition) (rs : List Judged) → IsPermutation cs ds
        → said.verdict_of cs rs ≡ said.verdict_of ds rs }
{}

/// A condition without `only` has the hits that two have together: the one with `only` of a filter, and the one with the
/// filter added to `except`.
pub fn a_condition_may_be_split()
    ensures { (cs ds : List GateCondition) (c : GateCondition) (f : Entry) (r : Judged)
        → c.only ≡ None → said.is_hit (cs ++ c ∷ ds) r
        ≡ said.is_hit (cs ++ with_only f c ∷ with_except f c ∷ ds) r }
{}

/// A limit is `max`, or with a ratchet from `max` to the sum of `max` and the number of absent results.
pub fn a_limit_grows_by_absent_results_at_most()
    ensures least { (c : GateCondition) (rs : List Judged) → c.max ≤ said.limit_of c rs }
    ensures most { (c : GateCondition) (rs : List Judged) → said.limit_of c rs
        ≤ c.max + count_by (λ (r : Judged). said.is_absent r.state) rs }
{}

/// One condition with the level, the states and the limit of the options, and a scope if there is a diff, has the hits, the
/// reported results and the verdict of the options.
pub fn one_condition_is_the_options()
    ensures hits { (name : List ℕ) (policy : Policy) (diff : Option Scope) (r : Judged)
        → said.is_hit (condition_of_options name policy diff ∷ []) r
        ≡ is_hit_by_options policy diff r }
    ensures reported { (name : List ℕ) (policy : Policy) (diff : Option Scope) (r : Judged)
        → said.is_reported (condition_of_options name policy diff ∷ []) r
        ≡ is_reported_by_options policy diff r }
    ensures verdict { (name : List ℕ) (policy : Policy) (diff : Option Scope)
        (rs : List Judged)
        → said.verdict_of (condition_of_options name policy diff ∷ []) rs
        ≡ verdict_on (count_by (is_hit_by_options policy diff) rs) policy }
{}

/// Accepting takes only the accepted results from the hits, and from those that would be hits inside the change: the hits
/// afterwards are those of before that no added entry makes suppressed. If none is left, the verdict is pass with any
/// limits.
pub fn accepting_leaves_the_other_hits()
    ensures hits { (cs : List GateCondition) (accepted : Bool) (r : Judged)
        → said.is_hit cs (suppressed_if accepted r) ≡ (said.is_hit cs r && not accepted) }
    ensures known { (cs : List GateCondition) (accepted : Bool) (r : Judged)
        → said.is_known cs (suppressed_if accepted r) ≡ (said.is_known cs r && not accepted) }
    ensures pass { (cs : List GateCondition) (rs : List Judged)
        → count_by (said.is_hit cs) rs ≡ 0 → said.verdict_of cs rs ≡ Pass }
{}
