//! Laws of reading, each the contract of a function that does nothing.
ghost use Rattle.std.specs.Prelude.{◌≡◌, ℕ, Bool, List, Ok, true, false, is_some, codes};
ghost use Rattle.std.specs.List.{AllByRecursion, list_any};
ghost use Rattle.serde_json.specs.Data.{Data, object, Members};
ghost use Rattle.serde_json.specs.Written.{has_float};
ghost use Rattle.sarif_model.specs.Members.{member_at};
ghost use Rattle.sarif_model.specs.Run.{results_array, runs_of};
ghost use Rattle.sarif_read.specs.Reading.{check_external, check_run, log_of, log_of_value};
ghost use Rattle.sarif_read.specs.Stripping.{stripped};

/// A value inside a stripped object holds no number with a fraction.
pub fn stripped_holds_no_fraction()
    ensures { (members : Members) → has_float (stripped (object members)) ≡ false }
{}

/// Stripping twice is stripping once.
pub fn stripping_twice_is_once()
    ensures { (value : Data) → stripped (stripped value) ≡ stripped value }
{}

/// No run that is read holds a number with a fraction.
pub fn read_runs_hold_no_fraction()
    ensures { (allow : Bool) (bytes : List ℕ) (runs : List Data) → log_of allow bytes ≡ Ok runs
        → list_any has_float runs ≡ false }
{}

/// A run that is read has results if and only if `results` is there and not null, and then it is an array of
/// objects.
pub fn runs_have_results_where_they_are_listed()
    ensures { (allow : Bool) (run : Data) (before now : ℕ)
        → check_run allow before run ≡ Ok now
        → is_some (results_array run) ≡ is_some (member_at (codes "results") run) }
{}

/// A log whose runs all pass without external property files being allowed is read the same if they are allowed.
pub fn allowing_external_files_changes_nothing_else()
    ensures { (log : Data) → AllByRecursion (λ run. check_external false run ≡ Ok tt) (runs_of log)
        → log_of_value true log ≡ log_of_value false log }
{}
