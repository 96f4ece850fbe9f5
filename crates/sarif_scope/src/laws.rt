//! Laws of a gate for one change. Each law is the contract of a function that does nothing.
ghost use Rattle.std.specs.Prelude.{◌≡◌, ◌+◌, ◌-◌, ◌⊎◌, [], ℕ, List, Option, Some, None, true, false};
ghost use Rattle.std.specs.List.{Contains};
ghost use Rattle.serde_json.specs.Data.{Data};
ghost use Rattle.sarif_model.specs.Run.{is_absent_result};
ghost use Rattle.sarif_change.specs.Outside.{IsInChange};
ghost use Rattle.sarif_change.specs.Places.{places_of};
ghost use Rattle.sarif_change.specs.declared.spots.Spot.{Spot};
ghost use Rattle.sarif_counts.specs.CountOf.{count_of};
ghost use Rattle.sarif_counts.specs.Gate.{gate_of};
ghost use Rattle.sarif_counts.specs.Hits.{hits_of, verdict_of};
ghost use Rattle.sarif_counts.specs.Summary.{summary_of};
ghost use Rattle.sarif_options.specs.declared.policy.Policy.{Policy};
ghost use Rattle.sarif_scope.specs.Counted.{hits_by, outside_of, verdict_by};
ghost use Rattle.sarif_scope.specs.Gate.{gate_by};
ghost use Rattle.sarif_scope.specs.Inside.{artifacts_in, is_inside};
ghost use Rattle.sarif_scope.specs.Summary.{summary_by};
ghost use Rattle.sarif_scope.specs.Told.{facts_by, gate_told, hits_told, summary_told, verdict_told};
ghost use Rattle.sarif_scope.specs.declared.gated.GatedChange.{GatedChange};

/// Without a change the gate object, the hits, the verdict and the summary are those of all results.
pub fn nothing_changes_without_a_change()
    ensures gate { (runs : List Data) (policy : Policy) (without unused : ℕ)
        → gate_by None runs policy without unused ≡ gate_of (count_of runs) policy without unused }
    ensures hits { (runs : List Data) (policy : Policy)
        → hits_by None policy runs ≡ hits_of (count_of runs) policy }
    ensures verdict { (runs : List Data) (policy : Policy)
        → verdict_by None policy runs ≡ verdict_of (count_of runs) policy }
    ensures summary { (runs : List Data) (policy : Policy)
        → summary_by None runs policy ≡ summary_of (count_of runs) policy }
{}

/// With a change, the hits are those of before that are inside: these and the results outside that would be hits are
/// together the hits without it. So the hits are also those of before without that number.
pub fn hits_are_inside_or_outside()
    ensures together { (change : GatedChange) (runs : List Data) (policy : Policy)
        → hits_of (count_of runs) policy
        ≡ hits_by (Some change) policy runs + outside_of change policy runs }
    ensures without { (change : GatedChange) (runs : List Data) (policy : Policy)
        → hits_by (Some change) policy runs
        ≡ hits_of (count_of runs) policy - outside_of change policy runs }
{}

/// The gate object, the hits, the verdict and the summary follow from the counts of all results and from what the gate
/// says about the change, if there is one.
pub fn facts_say_what_is_inside()
    ensures gate { (change : Option GatedChange) (runs : List Data) (policy : Policy)
        (without unused : ℕ) → gate_by change runs policy without unused
        ≡ gate_told (facts_by change policy runs) (count_of runs) policy without unused }
    ensures hits { (change : Option GatedChange) (runs : List Data) (policy : Policy)
        → hits_by change policy runs
        ≡ hits_told (facts_by change policy runs) (count_of runs) policy }
    ensures verdict { (change : Option GatedChange) (runs : List Data) (policy : Policy)
        → verdict_by change policy runs
        ≡ verdict_told (facts_by change policy runs) (count_of runs) policy }
    ensures summary { (change : Option GatedChange) (runs : List Data) (policy : Policy)
        → summary_by change runs policy
        ≡ summary_told (facts_by change policy runs) (count_of runs) policy }
{}

/// A current result is inside if it has no location, or one without a path, or one whose URI may be a changed file, and
/// that file is changed at the location's lines, is changed whole, or the location has no lines.
pub fn no_false_pass()
    ensures location { (change : GatedChange) (run found : Data) (spot : Spot)
        → is_absent_result found ≡ false
        → Contains (places_of (artifacts_in run) found).locations spot
        → (spot.uri ≡ None) ⊎ IsInChange change.changed change.roots change.scope spot
        → is_inside change run found ≡ true }
    ensures no_location { (change : GatedChange) (run found : Data) → is_absent_result found ≡ false
        → (places_of (artifacts_in run) found).locations ≡ []
        → is_inside change run found ≡ true }
{}
