//! Laws of entries with `max`, each the contract of a function that does nothing.
ghost use Rattle.std.specs.Prelude.{◌≡◌, ◌&&◌, ℕ, List, Ok, Option, Some, count_by, min, not, slice_get, take, true};
ghost use Rattle.std.specs.Option.{option_map_or};
ghost use Rattle.sarif_model.specs.declared.record.Record.{Record};
ghost use Rattle.sarif_entries.specs.declared.entry.Entry.{Entry};
ghost use Rattle.sarif_entries.specs.File.{File, file_of};
ghost use Rattle.sarif_entries.specs.Matching.{is_met, matches};
ghost use Rattle.sarif_suppress.specs.Limited.{AreUnadmitted, is_unlimited, is_used_up_by, limited, met_by};

/// If no entry has a `max`, none admits a result: all results stay.
pub fn results_stay_if_no_entry_has_a_limit()
    ensures { (file : File) (rs : List Record) → is_unlimited file ≡ true → AreUnadmitted rs
        → limited file rs ≡ rs }
{}

/// An entry of a file that was read matches a result if and only if it is not expired, its conditions are true, and it has
/// no `max` or fewer results before this one meet it.
pub fn an_entry_matches_the_first_results_that_meet_it()
    ensures { (bytes : List ℕ) (today : Option ℕ) (file : File) (rs : List Record) (i n : ℕ)
        (r found : Record) (e : Entry)
        → file_of bytes today ≡ Ok file → slice_get file.entries n ≡ Some e
        → slice_get rs i ≡ Some r → slice_get (limited file rs) i ≡ Some found
        → matches file.today e found
        ≡ (is_met file.today e r && not (is_used_up_by file.today (take i rs) e)) }
{}

/// An entry of a file that was read matches each result that meets it, but at most as many as its `max`.
pub fn an_entry_matches_as_many_as_its_limit()
    ensures { (bytes : List ℕ) (today : Option ℕ) (file : File) (rs : List Record)
        (n : ℕ) (e : Entry)
        → file_of bytes today ≡ Ok file → slice_get file.entries n ≡ Some e
        → count_by (matches file.today e) (limited file rs)
        ≡ option_map_or (λ limit. min (met_by file.today e rs) limit.most) e.limit
        (met_by file.today e rs) }
{}
