//! Laws of whole merges, each the contract of a function that does nothing.
ghost use Rattle.std.specs.Prelude.{◌≡◌, ◌++◌, ◌+◌, ℕ, List, [], None, Some, true, false};
ghost use Rattle.std.specs.Prelude.{count_by, flat_map, length, unwrap_or, IfSome};
ghost use Rattle.std.specs.Str.{IsUtf8};
ghost use Rattle.serde_json.specs.Data.{Data};
ghost use Rattle.sarif_model.specs.Run.{results_of};
ghost use Rattle.json_parts.specs.Indexed.{json_of};
ghost use Rattle.json_parts.specs.Mark.{without_mark};
ghost use Rattle.sarif_scope.specs.declared.gated.GatedChange.{GatedChange};
ghost use Rattle.sarif_options.specs.declared.policy.Policy.{Policy};
ghost use Rattle.sarif_options.specs.declared.upkeep.Knowing.{Knowing};
ghost use Rattle.sarif_options.specs.declared.upkeep.Renewal.{Renewal};
ghost use Rattle.sarif_counts.specs.CountOf.{count_of};
ghost use Rattle.sarif_counts.specs.Hits.{hits_of};
ghost use Rattle.sarif_accept.specs.Choosing.{Marks};
ghost use Rattle.sarif_accept.specs.Until.{IsDated, IsUntil};
ghost use Rattle.sarif_match_laws.specs.ByTool.{HaveNoToolInCommon};
ghost use Rattle.sarif_known.specs.Laws.{AreAlike};
ghost use Rattle.sarif_upkeep.specs.Known.{remembered, runs_known};
ghost use Rattle.sarif_upkeep.specs.Life as life;
ghost use Rattle.sarif_upkeep.specs.Merge.{Merge};
ghost use Rattle.sarif_upkeep.specs.Renewed.{renewal_faults, renewed, rules_after};
ghost use Rattle.sarif_inputs.specs.Faults.{faults_of};
ghost use Rattle.sarif_evidence.specs.declared.version.MatchingVersion.TheVariants.{Two};
ghost use Rattle.sarif_inputs.specs.Inputs.{Inputs, record_options};
ghost use Rattle.sarif_inputs.specs.Snippets.{compares_snippets};
ghost use Rattle.sarif_inputs_laws.specs.Ignoring.{AreReadWithout, ignoring_none};
ghost use Rattle.sarif_inputs_laws.specs.Parts.{baseline_in, current_in, with_sources};
ghost use Rattle.sarif_merge.specs.Life.{merge_in};
ghost use Rattle.sarif_merge.specs.MergedLog as log;
ghost use Rattle.sarif_merge.specs.MergedLog.{change_given};
ghost use Rattle.sarif_merge.specs.OwnResult.{baseline_of};
ghost use Rattle.sarif_laws.specs.Accepting.{LeavesWhatStays};
ghost use Rattle.sarif_laws.specs.Changed.{LeavesInside, merge_inside};
ghost use Rattle.sarif_laws.specs.Adopting.{HasNothingNew, IsNextWith, results_kept, text_known};
ghost use Rattle.sarif_laws.specs.Choosing.{IsNewFileChoosing, LeavesOthers, merge_choosing};
ghost use Rattle.sarif_laws.specs.Hits.{is_hit_in};
ghost use Rattle.sarif_laws.specs.Ignored.{LacksIgnored, log_of_all};
ghost use Rattle.sarif_laws.specs.KnownAgain.{IsKnownAgain};
ghost use Rattle.sarif_laws.specs.Lines.{lines_in};
ghost use Rattle.sarif_laws.specs.LookedAt.{hits_looked_at};
ghost use Rattle.sarif_laws.specs.NextMerge.{IsNewFileOf};
ghost use Rattle.sarif_laws.specs.Pruning.{ChangesNoResult};
ghost use Rattle.sarif_laws.specs.SameBaseline.{HasSameResults, with_baselines};
ghost use Rattle.sarif_laws.specs.Snippets.{IsSameMerge, with_snippets};
ghost use Rattle.sarif_laws.specs.Sums.{IsSumOf, is_limited_by_tool};

/// The gate counts the hits of a merged log: its number of hits is how many results of the runs are hits.
pub fn the_gate_counts_the_hits()
    ensures { (policy : Policy) (runs : List Data)
        → hits_of (count_of runs) policy ≡ count_by (is_hit_in policy) (flat_map results_of runs) }
{}

/// The text that a merge gives as its new suppression file is read as the new file, if it is UTF-8, as each string is. An
/// expiry date must be a date, if there is one, and today's date be known then.
pub fn the_new_file_is_read_as_itself()
    ensures { (inputs : Inputs) (policy : Policy) (renewal : Renewal)
        → IsDated inputs.today renewal.until
        → IsUtf8 (renewed (merge_in inputs policy) renewal).text
        → IsNewFileOf inputs policy renewal (renewed (merge_in inputs policy) renewal).text }
{}

/// The law of accepting. Let inputs have no diff and no errors, and let their new suppression file have none, with
/// accepting, with or without pruning, and an expiry date not before today if there is one. Then the merge of the same
/// inputs with the new file has no errors. Its hits are exactly those of before that stay, each at its place; so the
/// gate passes if none stays. Each result that was suppressed is suppressed; each has its level, its state and its
/// suppressions of before, possibly followed by others; absent results are written as before. An entry that is kept,
/// with or without a `max`, matches the same results.
pub fn accepting_leaves_the_hits_that_stay()
    ensures { (inputs : Inputs) (policy : Policy) (renewal : Renewal) (text : List ℕ)
        → change_given inputs ≡ None
        → faults_of inputs ≡ [] → renewal_faults (merge_in inputs policy) renewal ≡ []
        → renewal.accept ≡ true → IsUntil inputs.today renewal.until
        → IsNewFileOf inputs policy renewal text → LeavesWhatStays inputs policy renewal text }
{}

/// The law of accepting chosen hits. Let inputs have no errors, and let their new suppression file have none, with
/// accepting only the chosen hits, if the gate checks all results. Then the merge of the same inputs with the new file
/// has no errors. Its hits among the current results are exactly those of before that stay, or that no added entry
/// matches; a chosen one is a hit only if it stays. Each result that was suppressed is suppressed; each has its level,
/// its state and its suppressions of before, possibly followed by others; absent results are written as before.
pub fn accepting_chosen_hits_leaves_the_others()
    ensures { (inputs : Inputs) (policy : Policy) (marks : Marks) (renewal : Renewal)
        (text : List ℕ)
        → faults_of inputs ≡ []
        → renewal_faults (merge_choosing inputs policy marks) renewal ≡ []
        → IsUntil inputs.today renewal.until → renewal.accept ≡ true
        → IsNewFileChoosing inputs policy marks renewal text
        → LeavesOthers inputs policy marks renewal text }
{}

/// The numbers of accepting: if hits are accepted, the accepted hits, the alike hits and the hits that stay are
/// together the hits that the gate checks. With a change these are current results that aren't hidden.
pub fn each_hit_looked_at_is_accepted_alike_or_stays()
    ensures { (m : Merge) (renewal : Renewal) → renewal.accept ≡ true
        → length m.states ≡ length m.records
        → IfSome m.chosen (λ marks. length marks ≡ length m.records)
        → hits_looked_at m ≡ (renewed m renewal).accepted
        + (unwrap_or (renewed m renewal).alike 0 + (renewed m renewal).stay) }
{}

/// The law of accepting with a change. Let inputs have no errors, and let their new suppression file have none, with
/// accepting the chosen hits that are inside of the change. Then the merge of the same inputs with the new file has no
/// errors, and its results inside of the change are those of before. A chosen one of these is a hit only if it was one
/// that stays. Its hits among the current results are exactly those of before that stay, or that no added entry matches.
/// Each result that was suppressed is suppressed; each has its level, its state and its suppressions of before, possibly
/// followed by others; absent results are written as before.
pub fn accepting_with_a_change_leaves_the_others()
    ensures { (inputs : Inputs) (change : GatedChange) (policy : Policy) (marks : Marks)
        (renewal : Renewal) (text : List ℕ)
        → change_given inputs ≡ Some change
        → faults_of inputs ≡ []
        → renewal_faults (merge_inside inputs policy marks) renewal ≡ []
        → renewal.accept ≡ true
        → IsUntil inputs.today renewal.until
        → json_of (without_mark text)
        ≡ Some (rules_after (merge_inside inputs policy marks) renewal)
        → LeavesInside inputs change policy marks renewal text }
{}

/// The law of pruning. Let inputs have no errors, and let their new suppression file have none, with pruning and without
/// accepting. Then the merge of the same inputs with the new file has no errors, and the same runs, counts and verdict,
/// with each change and without one. The entries of the new file are exactly those that pruning keeps, in order, with the
/// numbers of their new positions; they match the same results, with or without a `max`. An entry that is unused in it
/// isn't expired, and names a tool that wasn't heard; or it names none, and an input run failed or there is none. So no
/// entry is unused if the tool of each was heard.
pub fn pruning_changes_no_run()
    ensures { (inputs : Inputs) (policy : Policy) (renewal : Renewal) (text : List ℕ)
        → faults_of inputs ≡ [] → renewal_faults (merge_in inputs policy) renewal ≡ []
        → renewal.prune ≡ true → renewal.accept ≡ false
        → IsNewFileOf inputs policy renewal text → ChangesNoResult inputs text }
{}

/// The bytes that a merge gives as its known log are read without an error, if they are UTF-8, as each string is. Wherever
/// its runs are read, none has an error, and the records of their results are exactly those of the results that become or
/// stay known, in order, as they are read: without the entries of the suppression file that admit them.
pub fn the_known_log_is_read_again()
    ensures { (inputs : Inputs) (policy : Policy) (knowing : Knowing) → faults_of inputs ≡ []
        → IsUtf8 (remembered (merge_in inputs policy) knowing).text
        → IsKnownAgain (record_options inputs.checks) (runs_known (merge_in inputs policy) knowing)
        (remembered (merge_in inputs policy) knowing).text }
{}

/// The law of adopting. Let inputs have no errors, and let their known log leave no current result out, for example because
/// new results are adopted. Let another merge have the same logs, the known log as its only baseline and no errors; its
/// suppression file, its date and its checks may differ. Then the match of each current result has the same record, as it
/// becomes known, so each is unchanged. In version 2 a known record has no region and no snippet, unless copies aren't
/// counted. The absent results are exactly those of the baselines that stay known, of each tool in their order.
/// So the gate passes if its policy lists neither unchanged nor absent results, with each change and without one.
///
/// `bytes`: the baseline is any bytes that are read as the known log. `text`: it is the text that the merge gives.
pub fn adopting_leaves_nothing_new()
    ensures bytes { (inputs : Inputs) (policy : Policy) (knowing : Knowing)
        (known : List ℕ) (later : Inputs)
        → faults_of inputs ≡ [] → (remembered (merge_in inputs policy) knowing).left_out ≡ 0
        → IsKnownAgain (record_options inputs.checks)
        (runs_known (merge_in inputs policy) knowing) known
        → IsNextWith inputs known later → HasNothingNew (results_kept inputs policy) later }
    ensures text { (inputs : Inputs) (policy : Policy) (knowing : Knowing) (later : Inputs)
        → faults_of inputs ≡ [] → IsUtf8 (text_known inputs policy knowing)
        → (remembered (merge_in inputs policy) knowing).left_out ≡ 0
        → IsNextWith inputs (text_known inputs policy knowing) later
        → HasNothingNew (results_kept inputs policy) later }
{}

/// The known log may take the place of any baseline with the same records: let two merges differ only in their baselines,
/// and let the records of the results of these be equal except for the statuses of their own suppressions. Then the input
/// runs are written the same, each result with its level, its state and its suppressions, and the same baseline results
/// are matched.
pub fn own_suppressions_of_a_baseline_change_no_result()
    ensures { (inputs : Inputs) (baselines : List (List ℕ))
        → AreAlike (baseline_of inputs) (baseline_of (with_baselines inputs baselines))
        → HasSameResults inputs (with_baselines inputs baselines) }
{}

/// Snippets that no entry compares change nothing in version 2 of matching, if copies are counted: the merge has the same
/// errors, the same runs and as many unused entries whether records have regions and snippets or not. So it doesn't matter
/// that pruning may drop the last entry that compares snippets.
pub fn snippets_that_no_entry_compares_change_nothing()
    ensures { (inputs : Inputs) → inputs.checks.matching ≡ Two → inputs.checks.once ≡ false
        → compares_snippets (log.file_given inputs) ≡ false
        → IsSameMerge (with_snippets false inputs) inputs }
{}

/// The list of unused entries has a line for each entry that the gate treats as unused.
pub fn each_unused_entry_has_a_line()
    ensures { (inputs : Inputs) (policy : Policy) → faults_of inputs ≡ []
        → lines_in (life.unused_in (merge_in inputs policy)) ≡ log.unused_in inputs }
{}

/// Parts by tool add up: let logs and then others, with baselines and then others, have no errors, and let no tool have
/// results in both parts. Then the runs of the merged log are those of the two merges, each result with the level, the
/// state and the suppressions that it has there, and so are the absent results. So each count and the hits are the sums,
/// and if no hit is allowed, the gate passes exactly if it passes in both, with each change and without one. Each entry of
/// the suppression file that has a `max` must name a tool: another one would count the results of both parts.
pub fn parts_by_tool_add_up()
    ensures { (inputs : Inputs) (logs more baselines others : List (List ℕ))
        → faults_of (with_sources inputs (logs ++ more) (baselines ++ others)) ≡ []
        → is_limited_by_tool (log.file_given inputs) ≡ true
        → HaveNoToolInCommon
        (current_in (with_sources inputs logs baselines)
        ++ baseline_in (with_sources inputs logs baselines))
        (current_in (with_sources inputs more others)
        ++ baseline_in (with_sources inputs more others))
        → IsSumOf (with_sources inputs logs baselines) (with_sources inputs more others)
        (with_sources inputs (logs ++ more) (baselines ++ others)) }
{}

/// The law of ignoring, for logs. Let inputs have no errors, and let other logs and baselines be read as theirs without the
/// fingerprints that are ignored. Then the merged log of these, with nothing ignored, has the runs of the merged log of the
/// inputs, without these members in both maps of each result. Nothing else differs: each result has the same level, state
/// and suppressions, and the gate is the same.
///
/// `nothing`: if no result has such a fingerprint, ignoring changes nothing.
pub fn logs_differ_only_in_ignored_fingerprints()
    ensures alone { (inputs : Inputs) (logs baselines : List (List ℕ)) → faults_of inputs ≡ []
        → AreReadWithout inputs inputs.logs logs → AreReadWithout inputs inputs.baselines baselines
        → LacksIgnored inputs (ignoring_none inputs logs baselines) }
    ensures nothing { (inputs : Inputs) (policy : Policy) → faults_of inputs ≡ []
        → AreReadWithout inputs inputs.logs inputs.logs
        → AreReadWithout inputs inputs.baselines inputs.baselines
        → log_of_all (ignoring_none inputs inputs.logs inputs.baselines) policy
        ≡ log_of_all inputs policy }
{}
