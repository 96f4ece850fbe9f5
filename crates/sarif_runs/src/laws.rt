//! A law of reading, the contract of a function that does nothing.
ghost use Rattle.std.specs.Prelude.{◌≡◌, ℕ};
ghost use Rattle.serde_json.specs.Data.{Data};
ghost use Rattle.sarif_model.specs.Run.{results_of};
ghost use Rattle.sarif_read.specs.Failed.{failed};
ghost use Rattle.sarif_runs.specs.Head.{head_of};
ghost use Rattle.sarif_runs.specs.Internal.NamedFiles.{without_files};
ghost use Rattle.sarif_runs.specs.Record.{record_of};
ghost use Rattle.sarif_runs.specs.declared.run_options.RecordOptions.{RecordOptions};

/// A run has the same errors of opening, the same records and the same results whether it names external property
/// files or not, and its analysis failed or not as before.
#[tactic(auto, using(crate::proofs::NamedFiles::same_head, crate::proofs::NamedFiles::same_record, crate::proofs::NamedFiles::same_results, crate::proofs::NamedFiles::same_failing))]
pub fn external_files_change_no_record()
    ensures head { (run : Data) → head_of (without_files run) ≡ head_of run }
    ensures records { (options : RecordOptions) (run : Data) (seq : ℕ)
        → record_of options (without_files run) seq ≡ record_of options run seq }
    ensures results { (run : Data) → results_of (without_files run) ≡ results_of run }
    ensures failing { (run : Data) → failed (without_files run) ≡ failed run }
{}
