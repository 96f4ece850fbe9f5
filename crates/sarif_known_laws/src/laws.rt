//! Laws of the known log, each the contract of a function that does nothing.
ghost use Rattle.std.specs.Prelude.{◌≡◌, ◌∷◌, ℕ, Bool, false, List, Option, Some, Ok, map, option_and_then};
ghost use Rattle.std.specs.Prelude.{slice_get, slice_index_or};
ghost use Rattle.serde_json.specs.Data.{Data, null};
ghost use Rattle.json_parts.specs.Indexed.{json_of};
ghost use Rattle.json_parts.specs.Mark.{without_mark};
ghost use Rattle.sarif_evidence.specs.declared.version.MatchingVersion.{MatchingVersion};
ghost use Rattle.sarif_evidence.specs.declared.version.MatchingVersion.TheVariants.{Two};
ghost use Rattle.sarif_evidence.specs.Evidence.{state_in};
ghost use Rattle.sarif_model.specs.Members.{result_map};
ghost use Rattle.sarif_match.specs.Partners.{partners_in};
ghost use Rattle.sarif_model.specs.declared.record.Record.{Record};
ghost use Rattle.sarif_options.specs.declared.policy.Policy.{Policy};
ghost use Rattle.sarif_entries.specs.File.{File};
ghost use Rattle.sarif_read.specs.Reading.{log_of};
ghost use Rattle.sarif_runs.specs.Judging.{run_values};
ghost use Rattle.sarif_runs.specs.Placed.{AreReadWith, Placed};
ghost use Rattle.sarif_runs.specs.Record.{record_of};
ghost use Rattle.sarif_runs.specs.declared.run_options.RecordOptions.{RecordOptions};
ghost use Rattle.sarif_known.specs.Chosen.{Chosen, known_as};
ghost use Rattle.sarif_known_laws.specs.JustKnown.{StaysOut};
ghost use Rattle.sarif_known.specs.KnownLog.{known_log};
ghost use Rattle.sarif_known.specs.KnownRun.{known_run};
ghost use Rattle.sarif_known.specs.Laws.{AreAlike, AreKnownAgain, CanBeRead, IsOfTool};
ghost use Rattle.sarif_known.specs.Selected.{known_of};
ghost use Rattle.sarif_known.specs.declared.standing.Standing.{Standing};
ghost use Rattle.sarif_model.specs.Driver.{tool_name};

/// What is known is read again: the known log is read without an error, and the records of its results, read with the
/// same options, are exactly those that were written, in their order. `known_text` ensures the
/// premise.
pub fn what_is_known_is_read_again()
    ensures log { (options : RecordOptions) (allow : Bool) (runs : List Chosen) (text : List ℕ)
        → CanBeRead options runs
        → json_of (without_mark text) ≡ Some (known_log runs)
        → log_of allow text ≡ Ok (map known_run runs) }
    ensures records { (options : RecordOptions) (runs : List Chosen) (placed : List Placed)
        → CanBeRead options runs → AreReadWith options placed
        → run_values placed ≡ map known_run runs
        → AreKnownAgain runs placed }
{}

/// Each result that was read can become known: its record is of its run's tool, and can be read again with the same
/// options.
pub fn what_is_read_can_be_known()
    ensures { (options : RecordOptions) (allow : Bool) (bytes : List ℕ) (runs : List Data)
        (k seq : ℕ) (r : Record) → log_of allow bytes ≡ Ok runs
        → record_of options (slice_index_or runs k null) seq ≡ Ok r
        → IsOfTool options (tool_name (slice_index_or runs k null)) r }
{}

/// Baselines whose records are equal except for their own suppressions give each current result the same match and
/// the same state.
pub fn own_suppressions_of_a_baseline_change_no_match()
    ensures partners { (version : MatchingVersion) (current baseline others : List Record)
        → AreAlike baseline others
        → partners_in version current baseline ≡ partners_in version current others }
    ensures states { (version : MatchingVersion) (r : Record) (baseline others : List Record)
        (partner : Option ℕ) → AreAlike baseline others
        → state_in version r (option_and_then (slice_get baseline) partner)
        ≡ state_in version r (option_and_then (slice_get others) partner) }
{}

/// What isn't known about a result in version 2 changes nothing: it has the same matches without its region and its snippet,
/// and its record without them is what is read without regions.
pub fn version_2_matches_without_regions()
    ensures partners { (current baseline : List Record)
        → partners_in Two (map (known_as false) current) (map (known_as false) baseline)
        ≡ partners_in Two current baseline }
    ensures records { (options : RecordOptions) (run : Data) (seq : ℕ)
        → record_of (record options { regions = false }) run seq
        ≡ result_map (known_as false) (record_of options run seq) }
{}

/// Exactly these current results become known, in order: all but those that are suppressed only until a day, and, unless
/// new results are adopted, the new and the doubtful ones that are suppressed, or are or would be hits.
#[tactic(auto, using(crate::proofs::JustKnown::not_known, crate::proofs::JustKnown::becomes_known))]
pub fn just_these_results_become_known()
    ensures others { (file : File) (policy : Policy) (adopt : Bool) (r : Record) (rs : List Record)
        (standing : Standing) (standings : List Standing) → StaysOut file policy adopt r standing
        → known_of file policy adopt (r ∷ rs) (standing ∷ standings)
        ≡ known_of file policy adopt rs standings }
    ensures known { (file : File) (policy : Policy) (adopt : Bool) (r : Record) (rs : List Record)
        (standing : Standing) (standings : List Standing)
        → (StaysOut file policy adopt r standing → ⊥)
        → known_of file policy adopt (r ∷ rs) (standing ∷ standings)
        ≡ r ∷ known_of file policy adopt rs standings }
{}
