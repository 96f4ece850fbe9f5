//! Laws of whole merges whose gate checks a change, each the contract of a function that does nothing.
ghost use Rattle.std.specs.Prelude.{◌≡◌, ◌+◌, ◌≤◌, ℕ, false, List, Option, Some, None, [], count_by};
ghost use Rattle.serde_json.specs.Data.{Data};
ghost use Rattle.sarif_choice.specs.declared.choice.Choosing.{Choosing};
ghost use Rattle.sarif_counts.specs.CountOf.{count_of};
ghost use Rattle.sarif_counts.specs.Gate.{gate_of};
ghost use Rattle.sarif_counts.specs.Hits.{hits_of, verdict_of};
ghost use Rattle.sarif_counts.specs.declared.gate_verdict.Verdict.TheVariants.{Fail};
ghost use Rattle.sarif_entries.specs.File.{File};
ghost use Rattle.sarif_inputs.specs.Faults.{faults_of};
ghost use Rattle.sarif_inputs.specs.Inputs.{Inputs};
ghost use Rattle.sarif_inputs.specs.PolicyIn.{faults_of_policy, policy_read};
ghost use Rattle.sarif_log.specs.Copies.{naming};
ghost use Rattle.sarif_log.specs.Log.{log_with};
ghost use Rattle.sarif_merge.specs.Life.{merge_counted};
ghost use Rattle.sarif_merge.specs.MergedLog as log;
ghost use Rattle.sarif_options.specs.declared.checks.Checks.{Checks};
ghost use Rattle.sarif_options.specs.declared.policy.Policy.{Policy};
ghost use Rattle.sarif_options.specs.declared.upkeep.Knowing.{Knowing};
ghost use Rattle.sarif_options.specs.declared.upkeep.Renewal.{Renewal};
ghost use Rattle.sarif_policy.specs.declared.condition.GateCondition.{GateCondition};
ghost use Rattle.sarif_prepare.specs.By.{merge_by};
ghost use Rattle.sarif_runs.specs.Placed.{Placed};
ghost use Rattle.sarif_scope.specs.Counted.{outside_of, verdict_by};
ghost use Rattle.sarif_scope.specs.declared.gated.GatedChange.{GatedChange};
ghost use Rattle.sarif_upkeep.specs.Known.{remembered};
ghost use Rattle.sarif_upkeep.specs.Life as life;
ghost use Rattle.sarif_upkeep.specs.Renewed.{renewed};
ghost use Rattle.sarif_laws.specs.Hits.{is_hit_in};
ghost use Rattle.sarif_laws.specs.OneChange.{IsHitIn, counted_inside, hits_given, without_diff};

/// A diff narrows the hits and nothing else of a merged log. The runs of the log, its counts, its copies and its unused
/// entries are those of the merge without the diff. The hits are those of before that are inside of the change, and the
/// number of the others is in the gate as `outside`.
pub fn a_diff_narrows_the_hits()
    ensures runs { (inputs : Inputs)
        → log.runs_in_log inputs ≡ log.runs_in_log (without_diff inputs) }
    ensures counts { (inputs : Inputs) → count_of (log.runs_counted inputs)
        ≡ count_of (log.runs_counted (without_diff inputs)) }
    ensures copies { (inputs : Inputs)
        → log.copies_in_log inputs ≡ log.copies_in_log (without_diff inputs) }
    ensures unused { (inputs : Inputs)
        → log.unused_counted inputs ≡ log.unused_counted (without_diff inputs) }
    ensures inside { (inputs : Inputs) (policy : Policy) (change : GatedChange)
        → log.change_given inputs ≡ Some change
        → hits_given inputs policy ≡ count_by (is_hit_in policy) (counted_inside change inputs) }
    ensures outside { (inputs : Inputs) (policy : Policy) (change : GatedChange)
        → log.change_given inputs ≡ Some change
        → hits_given (without_diff inputs) policy
        ≡ hits_given inputs policy + outside_of change policy (log.runs_counted inputs) }
{}

/// A merge without errors and without a policy has none without its diff. If it has a policy, only the policy may have an
/// error then: a condition on the change needs a diff. Without a diff and without a policy, the gate counts the hits of all
/// results.
pub fn without_a_diff_all_hits_count()
    ensures faultless { (inputs : Inputs) → inputs.policy ≡ None
        → faults_of inputs ≡ [] → faults_of (without_diff inputs) ≡ [] }
    ensures needed { (inputs : Inputs) → faults_of inputs ≡ []
        → faults_of (without_diff inputs) ≡ faults_of_policy (policy_read false inputs.policy) }
    ensures log { (inputs : Inputs) (policy : Policy) → inputs.diff ≡ None
        → inputs.policy ≡ None → log.merged_log inputs policy
        ≡ log_with (naming (log.copies_in_log inputs)
        (gate_of (count_of (log.runs_counted inputs)) policy (log.without_of inputs)
        (log.unused_counted inputs))) (log.runs_in_log inputs) }
    ensures hits { (inputs : Inputs) (policy : Policy) → inputs.diff ≡ None
        → hits_given inputs policy ≡ hits_of (count_of (log.runs_counted inputs)) policy }
    ensures verdict { (inputs : Inputs) (policy : Policy) → inputs.diff ≡ None
        → verdict_by (log.change_given inputs) policy (log.runs_counted inputs)
        ≡ verdict_of (count_of (log.runs_counted inputs)) policy }
{}

/// Without a policy, a diff changes neither the known log nor the list of unused entries, nor the new suppression file if no
/// hits are accepted: only accepting depends on the hits of the gate. With the conditions of a policy the known log doesn't
/// depend on the change either.
pub fn a_diff_changes_no_known_log()
    ensures known { (inputs : Inputs) (policy : Policy) (choice : Option Choosing)
        (knowing : Knowing) → inputs.policy ≡ None
        → remembered (merge_counted inputs policy choice) knowing
        ≡ remembered (merge_counted (without_diff inputs) policy choice) knowing }
    ensures unused { (inputs : Inputs) (policy : Policy) (choice : Option Choosing)
        → inputs.policy ≡ None → life.unused_in (merge_counted inputs policy choice)
        ≡ life.unused_in (merge_counted (without_diff inputs) policy choice) }
    ensures pruned { (inputs : Inputs) (policy : Policy) (choice : Option Choosing)
        (renewal : Renewal) → inputs.policy ≡ None → renewal.accept ≡ false
        → renewed (merge_counted inputs policy choice) renewal
        ≡ renewed (merge_counted (without_diff inputs) policy choice) renewal }
    ensures by_conditions { (conditions : List GateCondition) (checks : Checks) (file : File)
        (bytes : Option (List ℕ)) (change : Option GatedChange) (policy : Policy)
        (choice : Option Choosing) (now before : List Placed) (knowing : Knowing)
        → remembered (merge_by (Some conditions) checks file bytes change policy choice
        now before) knowing
        ≡ remembered (merge_by (Some conditions) checks file bytes None policy choice
        now before) knowing }
{}

/// A hit that may be in the change is a hit of the gate. It is a result of the runs that are counted, current, and a
/// hit without the diff. It has no location, or one without a path, or one whose URI may be a changed file, and that
/// file is changed at the location's lines, is changed whole, or the location has no lines. So the gate fails if it
/// allows no hit.
pub fn no_hit_in_the_change_passes()
    ensures counted { (inputs : Inputs) (policy : Policy) (change : GatedChange)
        (run found : Data) → log.change_given inputs ≡ Some change
        → IsHitIn policy change (log.runs_counted inputs) run found
        → 1 ≤ hits_given inputs policy }
    ensures verdict { (inputs : Inputs) (policy : Policy) (change : GatedChange)
        (run found : Data) → log.change_given inputs ≡ Some change
        → IsHitIn policy change (log.runs_counted inputs) run found → policy.max ≡ 0
        → verdict_by (log.change_given inputs) policy (log.runs_counted inputs) ≡ Fail }
{}
