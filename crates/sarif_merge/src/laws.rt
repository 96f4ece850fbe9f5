//! Laws of what is written, each the contract of a function that does nothing.
ghost use Rattle.std.specs.Prelude.{◌≡◌, ◌<◌, ℕ, Bool, List, [], false, length, None, Ok, Option};
ghost use Rattle.std.specs.List.{list_any};
ghost use Rattle.serde_json.specs.Data.{Data};
ghost use Rattle.serde_json.specs.Written.{has_float};
ghost use Rattle.sarif_model.specs.declared.kinds.State.{State};
ghost use Rattle.sarif_model.specs.declared.record.Record.{Record};
ghost use Rattle.sarif_model.specs.Run.{result_at, results_of};
ghost use Rattle.sarif_runs.specs.Record.{record_of};
ghost use Rattle.sarif_counts.specs.CountOf.{count_of};
ghost use Rattle.sarif_counts.specs.Gate.{gate_of};
ghost use Rattle.sarif_counts.specs.Hits.{verdict_of};
ghost use Rattle.sarif_entries.specs.File.{File};
ghost use Rattle.sarif_findings.specs.declared.reporting.Reporting.{Reporting};
ghost use Rattle.sarif_options.specs.declared.policy.Policy.{Policy};
ghost use Rattle.sarif_scope.specs.Counted.{verdict_by};
ghost use Rattle.sarif_log.specs.Copies.{naming};
ghost use Rattle.sarif_log.specs.Log.{log_with};
ghost use Rattle.sarif_log.specs.Told.{told_of};
ghost use Rattle.sarif_log.specs.MergedRuns.{absent_runs, merged_runs};
ghost use Rattle.sarif_log.specs.LogBy.{listing_of};
ghost use Rattle.sarif_inputs.specs.Faults.{faults_of};
ghost use Rattle.sarif_inputs.specs.Inputs.{Inputs, input_runs, reading_checks, record_options};
ghost use Rattle.sarif_merge.specs.MergedLog.{change_given, copies_in_log, merged_log, ruling_given, runs_counted, runs_in_log, runs_written, told_given, unused_counted, without_of, written_inputs};
ghost use Rattle.sarif_merge.specs.OwnResult.{IsResult, number_among_all, run_at, written_by, written_run};

use sarif_entries::object_holds_no_fraction;
use sarif_read::read_runs_hold_no_fraction;
use sarif_suppress::written_passes_where_its_parts_do;

/// No number with a fraction comes in by writing runs.
fn written_runs_hold_no_fraction()
    ensures current { (file : File) (rs : List Record) (states : List State) (runs : List Data)
        → list_any has_float runs ≡ false
        → list_any has_float (merged_runs (listing_of file) rs states runs) ≡ false }
    ensures baseline { (rs : List Record) (taken : List Bool) (runs : List Data)
        → list_any has_float runs ≡ false
        → list_any has_float (absent_runs rs taken runs) ≡ false }
{
    object_holds_no_fraction();
    written_passes_where_its_parts_do();
}

/// The runs of a merged log hold no number with a fraction, for any inputs.
pub fn merged_runs_hold_no_fraction()
    ensures { (inputs : Inputs) → list_any has_float (runs_written inputs) ≡ false }
{
    read_runs_hold_no_fraction();
    written_runs_hold_no_fraction();
}

/// Each input run is written at its position, with as many results as it has; and each of them at its position,
/// with its own record, its own baseline state and its own suppressions.
pub fn each_result_is_written_as_its_own()
    ensures runs { (inputs : Inputs) → length (written_inputs inputs) ≡ length (input_runs inputs) }
    ensures results { (inputs : Inputs) (k : ℕ) → k < length (input_runs inputs)
        → length (results_of (written_run inputs k)) ≡ length (results_of (run_at inputs k)) }
    ensures own { (inputs : Inputs) (k seq : ℕ) → faults_of inputs ≡ [] → IsResult inputs k seq
        → (r : Record)
        × (record_of (record_options (reading_checks inputs)) (run_at inputs k) seq ≡ Ok r)
        × (result_at (written_run inputs k) seq
        ≡ written_by inputs r (number_among_all inputs k seq) (result_at (run_at inputs k) seq)) }
{}

/// Without a diff the gate checks no change, and without a policy no conditions decide: the gate object, the verdict and
/// the findings are those of all results that are counted.
pub fn without_a_diff_all_results_count()
    ensures change { (inputs : Inputs) → inputs.diff ≡ None → change_given inputs ≡ None }
    ensures ruling { (inputs : Inputs) → inputs.policy ≡ None → ruling_given inputs ≡ None }
    ensures log { (inputs : Inputs) (policy : Policy) → inputs.diff ≡ None
        → inputs.policy ≡ None → merged_log inputs policy
        ≡ log_with (naming (copies_in_log inputs) (gate_of (count_of (runs_counted inputs)) policy
        (without_of inputs) (unused_counted inputs))) (runs_in_log inputs) }
    ensures verdict { (inputs : Inputs) (policy : Policy) → inputs.diff ≡ None
        → verdict_by (change_given inputs) policy (runs_counted inputs)
        ≡ verdict_of (count_of (runs_counted inputs)) policy }
    ensures told { (inputs : Inputs) (asked : Option Reporting) → inputs.diff ≡ None
        → inputs.policy ≡ None → told_given inputs asked ≡ told_of asked (runs_counted inputs) }
{}
