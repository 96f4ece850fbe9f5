//! Laws of the inputs of merges, each the contract of a function that does nothing.
ghost use Rattle.std.specs.Prelude.{◌≡◌, ◌++◌, ℕ, List, []};
ghost use Rattle.sarif_evidence.specs.declared.version.MatchingVersion.{MatchingVersion};
ghost use Rattle.sarif_match_laws.specs.ByTool.{HaveNoToolInCommon};
ghost use Rattle.sarif_inputs.specs.Faults.{faults_of};
ghost use Rattle.sarif_inputs.specs.Inputs.{Inputs};
ghost use Rattle.sarif_inputs_laws.specs.Ignoring.{AreReadWithout, HasSameRecords, ignoring_none};
ghost use Rattle.sarif_inputs_laws.specs.Parts.{HasParts, IsMatchedAs, baseline_in, current_in, with_sources};

/// Parts of an accepted merge are accepted. Let logs and then others, with baselines and then others, have no errors. Then
/// the logs with their baselines have none, nor have the others with theirs, with the same suppression file, policy,
/// diff, date and requirements. The runs and results are those of the first part and then those of the second, and an
/// entry is unused exactly if it is unused in both.
pub fn parts_of_a_merge_are_accepted()
    ensures { (inputs : Inputs) (logs more baselines others : List (List ℕ))
        → faults_of (with_sources inputs (logs ++ more) (baselines ++ others)) ≡ []
        → HasParts (with_sources inputs logs baselines) (with_sources inputs more others)
        (with_sources inputs (logs ++ more) (baselines ++ others)) }
{}

/// Parts by tool: if, besides, no tool has results in both parts, then each result has the match that it has in its part,
/// and so its state, in both versions of matching.
pub fn tools_may_be_merged_apart()
    ensures { (version : MatchingVersion) (inputs : Inputs)
        (logs more baselines others : List (List ℕ))
        → faults_of (with_sources inputs (logs ++ more) (baselines ++ others)) ≡ []
        → HaveNoToolInCommon
        (current_in (with_sources inputs logs baselines)
        ++ baseline_in (with_sources inputs logs baselines))
        (current_in (with_sources inputs more others)
        ++ baseline_in (with_sources inputs more others))
        → IsMatchedAs version (with_sources inputs logs baselines)
        (with_sources inputs more others)
        (with_sources inputs (logs ++ more) (baselines ++ others)) }
{}

/// The law of ignoring. Let inputs have no errors, and let other logs and baselines be read as theirs without the
/// fingerprints that are ignored. Then the merge of these has no errors if it ignores nothing, and the same records and
/// matches. So each result has the same state, and the same entries match it.
pub fn ignored_fingerprints_may_be_left_out()
    ensures { (inputs : Inputs) (logs baselines : List (List ℕ)) → faults_of inputs ≡ []
        → AreReadWithout inputs inputs.logs logs → AreReadWithout inputs inputs.baselines baselines
        → HasSameRecords inputs (ignoring_none inputs logs baselines) }
{}
