//! Laws of runs without their copies. Each law is the contract of a function that does nothing.
ghost use Rattle.std.specs.Prelude.{◌≡◌, ◌++◌, Bool, List, false, true, length};
ghost use Rattle.std.specs.List.{AllByRecursion, list_any};
ghost use Rattle.serde_json.specs.Data.{Data};
ghost use Rattle.sarif_copies.specs.Copies.{are_alike, copies_of, numbers_of, spread};
ghost use Rattle.sarif_model.specs.Run.{results_of};
ghost use Rattle.sarif_model.specs.declared.kinds.State.{State};
ghost use Rattle.sarif_model.specs.declared.kinds.State.TheVariants.{New};
ghost use Rattle.sarif_model.specs.declared.record.Record.{Record};
ghost use Rattle.sarif_read.specs.Unmarked.{unmarked, without_marked};
ghost use Rattle.sarif_results.specs.declared.draft.Draft.{Draft};
ghost use Rattle.sarif_runs.specs.Judging.{records_of};
ghost use Rattle.sarif_runs.specs.Placed.{Placed};
ghost use Rattle.sarif_once.specs.Once.{marked, without_copies, woven};

/// The records of runs without their copies are the records of the findings, in order.
pub fn records_without_copies_are_those_of_findings()
    ensures { (runs : List Placed) → records_of (without_copies runs)
        ≡ unmarked (copies_of (records_of runs)) (records_of runs) }
{}

/// A run without its marked results has the others, in order, and no more.
pub fn results_that_are_not_marked_stay()
    ensures { (marks : List Bool) (run : Data)
        → results_of (without_marked marks run) ≡ unmarked marks (results_of run) }
{}

/// If findings have states, or marks, and each result gets what its finding has, each finding gets what is its own.
pub fn findings_keep_what_is_theirs()
    ensures states { (rs : List Record) (states : List State)
        → length states ≡ length (unmarked (copies_of rs) rs)
        → unmarked (copies_of rs) (spread New (numbers_of rs) states) ≡ states }
    ensures marks { (rs : List Record) (marks : List Bool)
        → length marks ≡ length (unmarked (copies_of rs) rs)
        → unmarked (copies_of rs) (spread false (numbers_of rs) marks) ≡ marks }
{}

/// Drafts are those that aren't marked and those that are, put together again.
pub fn parted_drafts_make_the_whole()
    ensures { (marks : List Bool) (xs : List Draft) → length marks ≡ length xs
        → woven marks (unmarked marks xs) (marked marks xs) ≡ xs }
{}

/// If each of the results that follow others is alike to one of these, they are all copies: the findings are those of
/// the others.
pub fn results_alike_to_earlier_ones_change_no_finding()
    ensures { (rs more : List Record)
        → AllByRecursion (λ r. list_any (λ q. are_alike q r) rs ≡ true) more
        → unmarked (copies_of (rs ++ more)) (rs ++ more) ≡ unmarked (copies_of rs) rs }
{}
