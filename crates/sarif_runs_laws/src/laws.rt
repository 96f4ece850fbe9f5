//! Laws of the records of results, each the contract of a function that does nothing.
ghost use Rattle.std.specs.Prelude.{◌≡◌, ℕ, List, [], map};
ghost use Rattle.sarif_runs.specs.Judging.{faults_of_runs};
ghost use Rattle.sarif_runs.specs.Placed.{Placed};
ghost use Rattle.sarif_runs_laws.specs.Ignoring.{AreReadWithout, ignoring};

/// The law of ignoring, for runs. Let runs have no errors. Without the fingerprints that are ignored in each, read with
/// none ignored, they have none either, and the records of their results are the same.
pub fn ignored_fingerprints_may_be_missing()
    ensures { (runs : List Placed) → faults_of_runs runs ≡ [] → AreReadWithout runs }
{}

/// Ignored fingerprints are checked: whichever names are ignored, runs have the same errors in the same order.
pub fn ignoring_changes_no_error()
    ensures { (names : List (List ℕ)) (runs : List Placed)
        → faults_of_runs (map (ignoring names) runs) ≡ faults_of_runs runs }
{}
