//! A law of the inputs, the contract of a function that does nothing.
ghost use Rattle.std.specs.Prelude.{◌≡◌, true, false};
ghost use Rattle.std.specs.List.{AllByRecursion};
ghost use Rattle.sarif_inputs.specs.Internal.Allowing.{IsReadAlike, allowing};
ghost use Rattle.sarif_inputs.specs.Faults.{faults_of};
ghost use Rattle.sarif_inputs.specs.Inputs.{Inputs, baseline_runs, input_runs};

/// If each source is read the same whether external property files are allowed or not, the runs of a merge and its
/// errors are the same too, and so is everything that is made from them.
pub fn allowing_external_files_changes_nothing_without_them()
    ensures current { (inputs : Inputs) → AllByRecursion IsReadAlike inputs.logs
        → input_runs (allowing true inputs) ≡ input_runs (allowing false inputs) }
    ensures baseline { (inputs : Inputs) → AllByRecursion IsReadAlike inputs.baselines
        → baseline_runs (allowing true inputs) ≡ baseline_runs (allowing false inputs) }
    ensures faults { (inputs : Inputs) → AllByRecursion IsReadAlike inputs.logs
        → AllByRecursion IsReadAlike inputs.baselines
        → faults_of (allowing true inputs) ≡ faults_of (allowing false inputs) }
{}
