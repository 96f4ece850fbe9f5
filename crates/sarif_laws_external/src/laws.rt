//! Laws of external property files over whole merges, each the contract of a function that does nothing.
ghost use Rattle.std.specs.Prelude.{◌≡◌, ℕ, List, Ok, false, true, map};
ghost use Rattle.serde_json.specs.Data.{Data};
ghost use Rattle.sarif_model.specs.Run.{results_array};
ghost use Rattle.sarif_options.specs.declared.policy.Policy.{Policy};
ghost use Rattle.sarif_counts.specs.CountOf.{count_of};
ghost use Rattle.sarif_counts.specs.Hits.{verdict_of};
ghost use Rattle.sarif_evidence.specs.declared.version.MatchingVersion.{MatchingVersion};
ghost use Rattle.sarif_match.specs.Partners.{partners_in};
ghost use Rattle.sarif_entries.specs.File.{File};
ghost use Rattle.sarif_suppress.specs.Suppressing.{is_suppressed, matching_numbers};
ghost use Rattle.sarif_read.specs.Reading.{check_external, check_run};
ghost use Rattle.sarif_runs.specs.Judging.{faults_of_runs, records_of};
ghost use Rattle.sarif_runs.specs.Internal.NamedFiles.{without_files};
ghost use Rattle.sarif_runs.specs.Placed.{Placed};
ghost use Rattle.sarif_inputs.specs.Internal.Allowing.{allowing};
ghost use Rattle.sarif_inputs.specs.Faults.{faults_of};
ghost use Rattle.sarif_inputs.specs.Inputs.{Inputs};
ghost use Rattle.sarif_log.specs.LogBy.{limited_records, merged_by, runs_by, states_of, taken_of};
ghost use Rattle.sarif_merge.specs.Life.{merge_in};
ghost use Rattle.sarif_merge.specs.MergedLog.{merged_log, output_text};
ghost use Rattle.sarif_laws_external.specs.Fileless.{AreFileless, all_without, gate_in};

/// If each run of the inputs passes without external property files being allowed, allowing them changes nothing: the
/// errors, the merged log with its gate, its text, and all that is made for later merges are the same.
pub fn allowing_external_files_changes_no_merge()
    ensures faults { (inputs : Inputs) → AreFileless inputs
        → faults_of (allowing true inputs) ≡ faults_of (allowing false inputs) }
    ensures log { (inputs : Inputs) (policy : Policy) → AreFileless inputs
        → merged_log (allowing true inputs) policy ≡ merged_log (allowing false inputs) policy }
    ensures text { (inputs : Inputs) (policy : Policy) → AreFileless inputs
        → output_text (allowing true inputs) policy ≡ output_text (allowing false inputs) policy }
    ensures later { (inputs : Inputs) (policy : Policy) → AreFileless inputs
        → merge_in (allowing true inputs) policy ≡ merge_in (allowing false inputs) policy }
{}

/// If runs pass only with external property files being allowed, their merge is that of the same runs without the
/// member that names these files, and these are read without such files being allowed. The errors, the records with
/// their levels, the matches, the states, the entries that match, whether a result is suppressed, each result as it is
/// written, the counts, the gate and the verdict are the same.
pub fn external_files_change_no_result()
    ensures passes { (run : Data) → check_external false (without_files run) ≡ Ok tt }
    ensures reads { (before : ℕ) (run : Data) → check_external true run ≡ Ok tt
        → check_run false before (without_files run) ≡ check_run true before run }
    ensures faults { (runs : List Placed)
        → faults_of_runs (all_without runs) ≡ faults_of_runs runs }
    ensures records { (runs : List Placed) → records_of (all_without runs) ≡ records_of runs }
    ensures partners { (version : MatchingVersion) (current baseline : List Placed)
        → partners_in version (records_of (all_without current)) (records_of (all_without baseline))
        ≡ partners_in version (records_of current) (records_of baseline) }
    ensures states { (version : MatchingVersion) (current baseline : List Placed)
        → states_of version (records_of (all_without current)) (records_of (all_without baseline))
        ≡ states_of version (records_of current) (records_of baseline) }
    ensures taken { (version : MatchingVersion) (current baseline : List Placed)
        → taken_of version (records_of (all_without current)) (records_of (all_without baseline))
        ≡ taken_of version (records_of current) (records_of baseline) }
    ensures matching { (file : File) (runs : List Placed)
        → map (matching_numbers file) (limited_records file (all_without runs))
        ≡ map (matching_numbers file) (limited_records file runs) }
    ensures suppressed { (file : File) (runs : List Placed)
        → map (is_suppressed file) (limited_records file (all_without runs))
        ≡ map (is_suppressed file) (limited_records file runs) }
    ensures results { (version : MatchingVersion) (file : File)
        (current baseline : List Placed)
        → map results_array (runs_by version file (all_without current) (all_without baseline))
        ≡ map results_array (runs_by version file current baseline) }
    ensures counts { (version : MatchingVersion) (file : File)
        (current baseline : List Placed)
        → count_of (runs_by version file (all_without current) (all_without baseline))
        ≡ count_of (runs_by version file current baseline) }
    ensures gate { (version : MatchingVersion) (file : File)
        (current baseline : List Placed) (policy : Policy)
        → gate_in (merged_by version file (all_without current) (all_without baseline) policy)
        ≡ gate_in (merged_by version file current baseline policy) }
    ensures verdict { (version : MatchingVersion) (file : File)
        (current baseline : List Placed) (policy : Policy)
        → verdict_of
        (count_of (runs_by version file (all_without current) (all_without baseline))) policy
        ≡ verdict_of (count_of (runs_by version file current baseline)) policy }
{}
