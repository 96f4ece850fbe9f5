//! Laws of what is reported and accepted in a merge with a policy, each the contract of a function that does nothing.
ghost use Rattle.std.specs.Prelude.{◌≡◌, ℕ, List, None, Option, Some};
ghost use Rattle.sarif_deciding.specs.Results.{results_in};
ghost use Rattle.sarif_entries.specs.File.{File};
ghost use Rattle.sarif_evidence.specs.declared.version.MatchingVersion.{MatchingVersion};
ghost use Rattle.sarif_findings.specs.declared.reporting.Reporting.{Reporting};
ghost use Rattle.sarif_log.specs.LogBy.{runs_by};
ghost use Rattle.sarif_options.specs.declared.checks.Checks.{Checks};
ghost use Rattle.sarif_options.specs.declared.policy.Policy.{Policy};
ghost use Rattle.sarif_policy.specs.declared.condition.GateCondition.{GateCondition};
ghost use Rattle.sarif_prepare.specs.Chosen.{chosen_merge};
ghost use Rattle.sarif_prepare.specs.Ruled.{matched_in};
ghost use Rattle.sarif_prepare.specs.Told.{told_ruled};
ghost use Rattle.sarif_runs.specs.Placed.{Placed};
ghost use Rattle.sarif_scope.specs.declared.gated.GatedChange.{GatedChange};
ghost use Rattle.sarif_shown.specs.PolicyLaws.{AreRuled};
ghost use Rattle.sarif_upkeep.specs.Renewed.{accepted_in};
ghost use Rattle.sarif_laws_policy.specs.Accepted.{acceptable, current_hits};
ghost use Rattle.sarif_laws_policy.specs.HaveRecords.{HaveRecords};

/// The findings of a merge with a policy are those of the results that its conditions report and that are shown, in the
/// order of the results, and each says what its result does to the gate. So what the laws of reports say about such
/// findings is true for each merge whose results have records.
pub fn findings_of_a_policy_follow_its_conditions()
    ensures { (version : MatchingVersion) (file : File) (change : Option GatedChange)
        (now before : List Placed) (cs : List GateCondition) (reporting : Reporting)
        → HaveRecords now before
        → AreRuled reporting.show cs (results_in cs (matched_in version file change now before))
        (told_ruled cs (matched_in version file change now before) reporting
        (runs_by version file now before)) }
{}

/// Accepting with a policy accepts the hits of its conditions, and no other results: of the current ones those that an entry
/// can make suppressed, in their order.
pub fn accepting_takes_the_hits_of_a_policy()
    ensures { (checks : Checks) (file : File) (bytes : Option (List ℕ))
        (change : Option GatedChange) (policy : Policy) (now before : List Placed)
        (cs : List GateCondition) → HaveRecords now before
        → accepted_in (chosen_merge (Some cs) checks file bytes change policy None now before)
        ≡ acceptable file
        (current_hits cs (matched_in checks.matching file change now before)) }
{}
