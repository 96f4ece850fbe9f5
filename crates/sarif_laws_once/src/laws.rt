//! Laws of whole merges in which copies aren't counted, each the contract of a function that does nothing.
ghost use Rattle.std.specs.Prelude.{◌≡◌, ◌+◌, ◌||◌, ℕ, List, Option, Some, [], false, true, slice_get, IsPermutation};
ghost use Rattle.sarif_model.specs.Run.{results_total};
ghost use Rattle.sarif_options.specs.declared.policy.Policy.{Policy};
ghost use Rattle.sarif_copies.specs.Copies.{findings_of};
ghost use Rattle.sarif_counts.specs.CountOf.{count_of};
ghost use Rattle.sarif_evidence.specs.declared.version.MatchingVersion.TheVariants.{Two};
ghost use Rattle.sarif_choice.specs.declared.choice.Choosing.{Choosing};
ghost use Rattle.sarif_inputs.specs.Faults.{faults_of};
ghost use Rattle.sarif_inputs.specs.Inputs.{Inputs, looks_at_regions};
ghost use Rattle.sarif_merge.specs.Life.{merge_counted};
ghost use Rattle.sarif_merge.specs.MergedLog.{current_of, file_given, runs_counted, runs_in_log};
ghost use Rattle.sarif_merge.specs.OwnResult.{baseline_of};
ghost use Rattle.sarif_laws_once.specs.CopyOf.{AreWrittenAlike, matched_in};
ghost use Rattle.sarif_laws_once.specs.Findings.{findings_counted};
ghost use Rattle.sarif_laws_once.specs.MoreLogs.{AreAllCopies, HasSameCounts, with_logs, with_more};
ghost use Rattle.sarif_laws_once.specs.Snippets.{compares_no_snippet};
ghost use Rattle.sarif_laws_once.specs.TakenOut.{AreWithoutCopies, HasSameFindings, counting_each, if_each_counts};
ghost use Rattle.sarif_laws_once.specs.Totals.{copies_named, results_counted};
ghost use Rattle.sarif_laws_once.specs.WithoutPlaces.{log_without_copies};

/// Counts and copies together are the results of the merged log. Let inputs have no errors. Then the number of results in
/// the runs of the merged log is the sum of all counts of its gate, of each state and level, active and suppressed, and
/// of the number of copies that the gate names. If copies are counted, the gate names none.
pub fn counts_and_copies_are_all_results()
    ensures { (inputs : Inputs) → faults_of inputs ≡ []
        → results_total (runs_in_log inputs)
        ≡ results_counted (count_of (runs_counted inputs)) + copies_named inputs }
{}

/// The merged log without the copies that its gate names is the log of the findings: let inputs have no errors, and let
/// copies not be counted. Then each finding is written with the level, the state and the suppressions that it has if the
/// runs without their copies are merged. These runs are what the gate counts and what reports show.
pub fn the_log_without_its_copies_has_the_findings()
    ensures { (inputs : Inputs) → faults_of inputs ≡ [] → inputs.checks.once ≡ true
        → log_without_copies inputs ≡ runs_counted inputs }
{}

/// The law of copies. Let inputs have no errors, let their copies not be counted, and let other logs and baselines be read
/// as theirs without the copies. Then the merge of these has no errors if it counts each result. Its counts, hits,
/// verdict, unused entries and findings are the same, and so is its log, without the copies.
///
/// `findings`: the other merge reads regions too, for version 3 or for entries that compare snippets. `in_version_2`: it
/// reads none, and no entry compares snippets. `later`: if it reads regions, what it gives for later merges is the same
/// too: its suppression file, its list of unused entries, and its known log. The latter has no regions in version 2, and
/// may keep an absent result that is alike to a known one.
pub fn copies_may_be_taken_out()
    ensures findings { (inputs : Inputs) (logs baselines : List (List ℕ)) → faults_of inputs ≡ []
        → inputs.checks.once ≡ true
        → (inputs.snippets || looks_at_regions inputs.checks.matching) ≡ true
        → AreWithoutCopies inputs logs baselines
        → HasSameFindings inputs (counting_each inputs logs baselines) }
    ensures in_version_2 { (inputs : Inputs) (logs baselines : List (List ℕ))
        → faults_of inputs ≡ [] → inputs.checks.once ≡ true → inputs.checks.matching ≡ Two
        → inputs.snippets ≡ false
        → compares_no_snippet (file_given inputs) ≡ true → AreWithoutCopies inputs logs baselines
        → HasSameFindings inputs (counting_each inputs logs baselines) }
    ensures later { (inputs : Inputs) (logs baselines : List (List ℕ)) (policy : Policy)
        (choice : Option Choosing) → faults_of inputs ≡ [] → inputs.checks.once ≡ true
        → (inputs.snippets || looks_at_regions inputs.checks.matching) ≡ true
        → AreWithoutCopies inputs logs baselines
        → merge_counted (counting_each inputs logs baselines) policy choice
        ≡ if_each_counts inputs (merge_counted inputs policy choice) }
{}

/// Each copy in the logs is written as its finding: with the same level, the same state, and the same suppressions besides
/// its own. A copy in the baselines is absent exactly if its finding is.
pub fn copies_are_written_as_their_findings()
    ensures current { (inputs : Inputs) (m n : ℕ) → faults_of inputs ≡ []
        → inputs.checks.once ≡ true → slice_get (findings_of (current_of inputs)) m ≡ Some n
        → AreWrittenAlike inputs m n }
    ensures before { (inputs : Inputs) (m n : ℕ)
        → slice_get (findings_of (baseline_of inputs)) m ≡ Some n
        → slice_get (matched_in inputs) m ≡ slice_get (matched_in inputs) n }
{}

/// Logs of copies change no count. Let inputs with more logs have no errors, let their copies not be counted, and let each
/// result of the logs that are added after the others be alike to one of those. Then each count is that without them, and
/// so are the hits and the verdict of all results, and the unused entries.
pub fn logs_of_copies_change_no_count()
    ensures { (inputs : Inputs) (more : List (List ℕ)) → faults_of (with_more inputs more) ≡ []
        → inputs.checks.once ≡ true → AreAllCopies inputs more
        → HasSameCounts inputs (with_more inputs more) }
{}

/// The number of findings does not depend on the order of logs. Let inputs have no errors, and let their copies not be
/// counted. Then the same logs have no errors in any other order, and the numbers of new, unchanged and updated results in
/// the gate have the same sum.
pub fn findings_are_as_many_in_any_order()
    ensures faultless { (inputs : Inputs) (logs : List (List ℕ)) → IsPermutation inputs.logs logs
        → faults_of inputs ≡ [] → faults_of (with_logs inputs logs) ≡ [] }
    ensures findings { (inputs : Inputs) (logs : List (List ℕ)) → IsPermutation inputs.logs logs
        → faults_of inputs ≡ [] → inputs.checks.once ≡ true
        → findings_counted (count_of (runs_counted (with_logs inputs logs)))
        ≡ findings_counted (count_of (runs_counted inputs)) }
{}
