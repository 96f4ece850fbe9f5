//! Laws of whole merges with a policy in which copies aren't counted, each the contract of a function that does nothing.
ghost use Rattle.std.specs.Prelude.{◌≡◌, ◌||◌, ℕ, List, None, Option, Some, [], true};
ghost use Rattle.sarif_conditions.specs.Facts.{facts_of as decided_facts};
ghost use Rattle.sarif_findings.specs.declared.reporting.Reporting.{Reporting};
ghost use Rattle.sarif_inputs.specs.Faults.{faults_of};
ghost use Rattle.sarif_inputs.specs.Inputs.{Inputs, looks_at_regions};
ghost use Rattle.sarif_laws_policy.specs.Accepted.{acceptable};
ghost use Rattle.sarif_merge.specs.Life.{merge_counted};
ghost use Rattle.sarif_merge.specs.MergedLog.{conditions_given, file_given, ruling_given, told_given};
ghost use Rattle.sarif_options.specs.declared.policy.Policy.{Policy};
ghost use Rattle.sarif_policy.specs.declared.condition.GateCondition.{GateCondition};
ghost use Rattle.sarif_shown.specs.PolicyLaws.{AreRuled};
ghost use Rattle.sarif_upkeep.specs.Renewed.{accepted_in};
ghost use Rattle.sarif_laws_once.specs.Decided.{hits_without_copies, results_without_copies};
ghost use Rattle.sarif_laws_once.specs.TakenOut.{AreWithoutCopies, counting_each};

/// Conditions decide about the results without their copies. Let inputs have no errors and a policy, and let their copies
/// not be counted. Then what the gate says about its conditions is what they decide about the results of the merge that
/// are not copies, in their order: the hits, the limit and the verdict of each condition, and the number of unchecked
/// results. So a copy is not a hit, it isn't unchecked, and it makes no limit grow.
pub fn conditions_decide_without_copies()
    ensures { (inputs : Inputs) (cs : List GateCondition) → faults_of inputs ≡ []
        → inputs.checks.once ≡ true → conditions_given inputs ≡ Some cs
        → ruling_given inputs ≡ Some (decided_facts cs (results_without_copies inputs cs)) }
{}

/// The findings of such a merge are those of the results that its conditions report and that are shown, in the order of
/// the results that are not copies. Each finding says what its result does to the gate. So a copy isn't reported.
pub fn findings_follow_the_policy_without_copies()
    ensures { (inputs : Inputs) (cs : List GateCondition) (reporting : Reporting)
        → faults_of inputs ≡ [] → inputs.checks.once ≡ true → conditions_given inputs ≡ Some cs
        → AreRuled reporting.show cs (results_without_copies inputs cs)
        (told_given inputs (Some reporting)) }
{}

/// Accepting with a policy accepts the hits of its conditions among the results that are not copies, and no other
/// results: of the current ones those that an entry can make suppressed, in their order.
pub fn accepting_takes_the_hits_without_copies()
    ensures { (inputs : Inputs) (policy : Policy) (cs : List GateCondition)
        → faults_of inputs ≡ [] → inputs.checks.once ≡ true → conditions_given inputs ≡ Some cs
        → accepted_in (merge_counted inputs policy None)
        ≡ acceptable (file_given inputs) (hits_without_copies inputs cs) }
{}

/// A policy decides the same if copies are taken out. Let inputs have no errors, let their copies not be counted, and let
/// other logs and baselines be read as theirs without the copies. Then take the merge of these that counts each result
/// and reads regions too. Its conditions have the same facts, and its findings are the same.
pub fn policies_decide_the_same_if_copies_are_taken_out()
    ensures facts { (inputs : Inputs) (logs baselines : List (List ℕ)) → faults_of inputs ≡ []
        → inputs.checks.once ≡ true
        → (inputs.snippets || looks_at_regions inputs.checks.matching) ≡ true
        → AreWithoutCopies inputs logs baselines
        → ruling_given (counting_each inputs logs baselines) ≡ ruling_given inputs }
    ensures findings { (inputs : Inputs) (logs baselines : List (List ℕ))
        (asked : Option Reporting) → faults_of inputs ≡ [] → inputs.checks.once ≡ true
        → (inputs.snippets || looks_at_regions inputs.checks.matching) ≡ true
        → AreWithoutCopies inputs logs baselines
        → told_given (counting_each inputs logs baselines) asked ≡ told_given inputs asked }
{}
