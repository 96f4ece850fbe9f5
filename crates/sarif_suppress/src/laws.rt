//! Laws of what is written, each the contract of a function that does nothing.
ghost use Rattle.std.specs.Prelude.{◌≡◌, ◌&&◌, Bool, List, Ok};
ghost use Rattle.std.specs.List.{list_all};
ghost use Rattle.serde_json.specs.Data.{Data};
ghost use Rattle.sarif_model.specs.Members.{read_each, result_map};
ghost use Rattle.sarif_model.specs.Suppression.{status_of};
ghost use Rattle.sarif_model.specs.declared.record.Record.{Record};
ghost use Rattle.sarif_entries.specs.File.{File};
ghost use Rattle.sarif_entries.specs.Matching.{is_empty};
ghost use Rattle.sarif_suppress.specs.Suppressing.{matching, statuses_suppress, is_suppressed};
ghost use Rattle.sarif_entries.specs.Object.{object_of};
ghost use Rattle.sarif_suppress.specs.Written.{suppressions_of};

/// A test is true for every written suppression if and only if it is true for every own one and for the object of
/// every matching entry. So leaving out repeated objects changes no such test.
#[tactic(auto, using(crate::proofs::WrittenList::written_passes))]
pub fn written_passes_where_its_parts_do()
    ensures { (accepts : Data → Bool) (own : List Data) (file : File) (r : Record)
        → list_all accepts (suppressions_of own file r)
        ≡ (list_all accepts own && list_all (λ e. accepts (object_of e)) (matching file r)) }
{}

/// Nothing is written if and only if there is no own suppression and no matching entry.
#[tactic(auto, using(crate::proofs::WrittenList::written_empty))]
pub fn nothing_is_written_of_nothing()
    ensures { (own : List Data) (file : File) (r : Record)
        → is_empty (suppressions_of own file r) ≡ (is_empty own && is_empty (matching file r)) }
{}

/// What a merged log says about a result: if its own suppressions have the statuses of its record, the statuses in
/// the written list suppress if and only if the result is suppressed.
#[tactic(auto, using(crate::proofs::ReadBack::read_back))]
pub fn written_suppressions_say_what_is_suppressed()
    ensures { (own : List Data) (file : File) (r : Record) → read_each status_of own ≡ Ok r.held
        → result_map statuses_suppress (read_each status_of (suppressions_of own file r))
        ≡ Ok (is_suppressed file r) }
{}
