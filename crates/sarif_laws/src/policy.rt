//! Laws of whole merges with a policy, each the contract of a function that does nothing.
ghost use Rattle.std.specs.Prelude.{◌≡◌, ◌<◌, ◌^◌, ℕ, false, true, List, Option, None, Some, [], codes, length, nat_lt};
ghost use Rattle.std.specs.List.{All};
ghost use Rattle.serde_json.specs.Data.{Data};
ghost use Rattle.json_parts.specs.Indexed.{json_of};
ghost use Rattle.json_parts.specs.Mark.{without_mark};
ghost use Rattle.sarif_accept.specs.Until.{IsUntil};
ghost use Rattle.sarif_choice.specs.declared.choice.Choosing.{Choosing};
ghost use Rattle.sarif_conditions.specs.Facts.{facts_of as decided_facts, verdict_told};
ghost use Rattle.sarif_findings.specs.Lookup.{elements_in};
ghost use Rattle.sarif_findings.specs.declared.reporting.Reporting.{Reporting};
ghost use Rattle.sarif_inputs.specs.Faults.{faults_of};
ghost use Rattle.sarif_inputs.specs.Inputs.{Inputs};
ghost use Rattle.sarif_laws_policy.specs.Accepted.{acceptable, current_hits};
ghost use Rattle.sarif_merge.specs.Life.{merge_counted};
ghost use Rattle.sarif_merge.specs.MergedLog.{conditions_given, file_given, runs_counted, told_given};
ghost use Rattle.sarif_options.specs.declared.policy.Policy.{Policy};
ghost use Rattle.sarif_options.specs.declared.upkeep.Renewal.{Renewal};
ghost use Rattle.sarif_policy.specs.declared.condition.GateCondition.{GateCondition};
ghost use Rattle.sarif_prepare.specs.Told.{of_all};
ghost use Rattle.sarif_reports.specs.JunitLaws.{occurrences};
ghost use Rattle.sarif_reports.specs.PolicyReports.{IsFindingOf, document_of_policy};
ghost use Rattle.sarif_shown.specs.PolicyLaws.{AreRuled, is_fail};
ghost use Rattle.sarif_upkeep.specs.Renewed.{accepted_in, renewal_faults, rules_after};
ghost use Rattle.sarif_laws.specs.Decided.{matched_given, results_given};
ghost use Rattle.sarif_laws.specs.LeftByPolicy.{LeavesByPolicy};

/// The findings of a merge with a policy are those of the results that its conditions report and that are shown, in the
/// order of the results, and each says what its result does to the gate. Each is the finding of a result of the log. So
/// what the laws of reports say about such findings is true for each accepted merge.
pub fn findings_of_a_merge_follow_its_policy()
    ensures ruled { (inputs : Inputs) (cs : List GateCondition) (reporting : Reporting)
        → faults_of inputs ≡ [] → inputs.checks.once ≡ false → conditions_given inputs ≡ Some cs
        → AreRuled reporting.show cs (results_given inputs cs)
        (told_given inputs (Some reporting)) }
    ensures found { (inputs : Inputs) (cs : List GateCondition) (reporting : Reporting)
        (log : Data) → conditions_given inputs ≡ Some cs
        → elements_in (codes "runs") log ≡ runs_counted inputs
        → All (IsFindingOf (of_all reporting) log) (told_given inputs (Some reporting)) }
{}

/// A report in JUnit XML of a merge with a policy fails exactly if the gate fails.
pub fn junit_fails_if_the_policy_does()
    ensures { (inputs : Inputs) (cs : List GateCondition) (reporting : Reporting) (log : Data)
        → faults_of inputs ≡ [] → inputs.checks.once ≡ false → conditions_given inputs ≡ Some cs
        → elements_in (codes "runs") log ≡ runs_counted inputs
        → length (told_given inputs (Some reporting)) < 2 ^ 64
        → nat_lt 0 (occurrences (codes "<failure ")
        (document_of_policy (told_given inputs (Some reporting))))
        ≡ is_fail (verdict_told (decided_facts cs (results_given inputs cs))) }
{}

/// Accepting with a policy accepts the hits of its conditions, and no other results: of the current ones those that an entry
/// can make suppressed, in their order.
pub fn accepting_takes_the_hits_of_the_policy()
    ensures { (inputs : Inputs) (policy : Policy) (cs : List GateCondition)
        → faults_of inputs ≡ [] → inputs.checks.once ≡ false → conditions_given inputs ≡ Some cs
        → accepted_in (merge_counted inputs policy None)
        ≡ acceptable (file_given inputs) (current_hits cs (matched_given inputs)) }
{}

/// The law of accepting with a policy. Let inputs have no errors, and let their new suppression file have none, with
/// accepting all hits of the conditions, or the chosen ones. Then the merge of the same inputs with the new file has no
/// errors. A current result is active then exactly if it was and stays, or if no added entry matches it; and it is a hit
/// exactly if it was one and is active. Each result that was suppressed is suppressed; each has its level, its state and
/// its suppressions of before, possibly followed by others; absent results are written as before.
pub fn accepting_with_a_policy_leaves_the_others()
    ensures { (inputs : Inputs) (policy : Policy) (choice : Option Choosing)
        (cs : List GateCondition) (renewal : Renewal) (text : List ℕ)
        → faults_of inputs ≡ [] → inputs.checks.once ≡ false → conditions_given inputs ≡ Some cs
        → renewal_faults (merge_counted inputs policy choice) renewal ≡ []
        → renewal.accept ≡ true → IsUntil inputs.today renewal.until
        → json_of (without_mark text)
        ≡ Some (rules_after (merge_counted inputs policy choice) renewal)
        → LeavesByPolicy inputs policy choice cs renewal text }
{}
