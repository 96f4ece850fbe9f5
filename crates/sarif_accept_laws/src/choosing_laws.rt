//! Laws of accepting chosen hits alone, each the contract of a function that does nothing.
ghost use Rattle.std.specs.Prelude.{◌≡◌, ◌≤◌, ◌<◌, ◌+◌, ◌++◌, ℕ, Bool, List, Option, Ok, Some, None, true};
ghost use Rattle.std.specs.Prelude.{length, map, get_or};
ghost use Rattle.std.specs.List.{AllByRecursion};
ghost use Rattle.serde_json.specs.Data.{Data};
ghost use Rattle.json_parts.specs.Indexed.{json_of};
ghost use Rattle.json_parts.specs.Mark.{without_mark};
ghost use Rattle.sarif_model.specs.Limits.{most_entries};
ghost use Rattle.sarif_model.specs.declared.kinds.State.{State};
ghost use Rattle.sarif_model.specs.declared.record.Record.{Record};
ghost use Rattle.sarif_entries.specs.declared.entry.Entry.{Entry};
ghost use Rattle.sarif_entries.specs.File.{File, file_of};
ghost use Rattle.sarif_entries.specs.Given.{file_or_none};
ghost use Rattle.sarif_entries.specs.Numbering.{renumbered};
ghost use Rattle.sarif_suppress.specs.Suppressing.{is_suppressed};
ghost use Rattle.sarif_suppress.specs.Written.{suppressions_of};
ghost use Rattle.sarif_accept.specs.Adding.{How, MayBeHit, added_for, file_after, is_hit};
ghost use Rattle.sarif_accept.specs.Choosing.{Marks, accepted_by, added_by, alike_among, entries_read};
ghost use Rattle.sarif_accept.specs.Choosing.{file_adding, is_acceptable, is_chosen_at, is_left, is_met, others_among, passing};
ghost use Rattle.sarif_accept.specs.Keeping.{is_kept};
ghost use Rattle.sarif_accept.specs.Renewed.{renewed_entries, renewed_file};
ghost use Rattle.sarif_accept.specs.Until.{HasGuid, IsDated, IsUntil};

/// If all hits are chosen, entries are added for the same results as if none were named, and the new file is the same.
#[tactic(auto, using(crate::proofs::AfterChosen::all_added, crate::proofs::AfterChosen::all_after))]
pub fn choosing_all_accepts_all()
    ensures added { (how : How) (counts : MayBeHit) (file : File) (rs : List Record)
        (states : List State)
        → added_by how None counts file rs states ≡ added_for how counts file rs states }
    ensures file { (how : How) (counts : MayBeHit) (file : File) (rs : List Record)
        (states : List State)
        → file_adding how file rs (added_by how None counts file rs states)
        ≡ file_after how counts file rs states }
{}

/// If accepting was requested, an added entry matches each chosen hit that doesn't stay.
#[tactic(auto, using(crate::proofs::AfterChosen::added_meet))]
pub fn a_chosen_hit_gets_an_entry()
    ensures { (how : How) (marks : Marks) (counts : MayBeHit) (file : File) (rs : List Record)
        (states : List State) (r : Record) (state : State) (i : ℕ)
        → i < length rs → i < length states → get_or rs i r ≡ r → get_or states i state ≡ state
        → is_chosen_at marks i ≡ true
        → how.renewal.accept ≡ true → IsUntil file.today how.renewal.until
        → is_acceptable counts file r state ≡ true
        → is_met file (entries_read how (added_by how marks counts file rs states)) r ≡ true }
{}

/// With a new file that adds the entries of some results, the hits among the current results are exactly those of before
/// that are left: that stay, or that no added entry matches. What was suppressed stays suppressed, and the list of
/// suppressions of a current result begins with what it was.
#[tactic(auto, using(crate::proofs::AfterChosen::hits_left, crate::proofs::AfterChosen::still_adding, crate::proofs::After::list_begins_adding))]
pub fn hits_that_no_entry_matches_are_left()
    ensures hits { (how : How) (counts : MayBeHit) (file : File) (rs added : List Record)
        (r : Record) (state : State) (i : ℕ) → i < length rs → get_or rs i r ≡ r
        → is_hit counts (file_adding how file rs added) r state
        ≡ is_left counts file (entries_read how added) r state }
    ensures suppressed { (how : How) (file : File) (rs added : List Record) (r : Record) (i : ℕ)
        → i < length rs → get_or rs i r ≡ r → is_suppressed file r ≡ true
        → is_suppressed (file_adding how file rs added) r ≡ true }
    ensures begins { (how : How) (file : File) (rs added : List Record) (r : Record) (i : ℕ)
        (own : List Data) → i < length rs → get_or rs i r ≡ r
        → (rest : List Data) × (suppressions_of own (file_adding how file rs added) r
        ≡ suppressions_of own file r ++ rest) }
{}

/// If chosen hits are accepted, each hit of before is accepted, alike or left: together these are as many as the hits.
#[tactic(auto, using(crate::proofs::ChosenCounted::hits_counted))]
pub fn each_hit_is_accepted_alike_or_left()
    ensures { (how : How) (marks : List Bool) (counts : MayBeHit) (file : File)
        (rs : List Record) (states : List State)
        → length marks ≡ length rs → length states ≡ length rs
        → how.renewal.accept ≡ true → IsUntil file.today how.renewal.until
        → length (passing (is_hit counts file) rs states)
        ≡ length (accepted_by (Some marks) counts file rs states)
        + (length (alike_among counts file
        (entries_read how (added_by how (Some marks) counts file rs states)) marks rs states)
        + length (passing (is_left counts file
        (entries_read how (added_by how (Some marks) counts file rs states))) rs states)) }
{}

/// Whichever entries are added, each hit of before is accepted, alike or neither: together these are as many as the hits.
#[tactic(auto, using(crate::proofs::ChosenCounted::all_counted))]
pub fn each_hit_is_accepted_alike_or_another()
    ensures { (marks : List Bool) (counts : MayBeHit) (file : File) (es : List Entry)
        (all : List Record) (states : List State)
        → length marks ≡ length all → length states ≡ length all
        → length (passing (is_hit counts file) all states)
        ≡ length (accepted_by (Some marks) counts file all states)
        + (length (alike_among counts file es marks all states)
        + length (others_among counts file es marks all states)) }
{}

/// If chosen hits are accepted, those that are neither accepted nor alike are as many as those that are left.
#[tactic(auto, using(crate::proofs::ChosenCounted::others_left))]
pub fn other_hits_are_left()
    ensures { (how : How) (marks : List Bool) (counts : MayBeHit) (file : File)
        (rs : List Record) (states : List State)
        → length marks ≡ length rs → length states ≡ length rs
        → how.renewal.accept ≡ true → IsUntil file.today how.renewal.until
        → length (others_among counts file
        (entries_read how (added_by how (Some marks) counts file rs states)) marks rs states)
        ≡ length (passing (is_left counts file
        (entries_read how (added_by how (Some marks) counts file rs states))) rs states) }
{}

/// The new file of one that was read is read for the same date, whichever results it accepts: its entries are those that
/// were kept, and then those that accept these results. Their limits have the numbers of their new positions.
#[tactic(auto, using(crate::proofs::NewFileRead::new_file_adding))]
pub fn a_file_that_adds_entries_is_read()
    ensures { (how : How) (given : Option (List ℕ)) (today : Option ℕ) (file : File)
        (rs added : List Record) (text : List ℕ)
        → file_or_none given today ≡ Ok file → AllByRecursion HasGuid added
        → IsDated today how.renewal.until
        → length (renewed_entries given
        (map (is_kept how.renewal.prune how.heard file rs) file.entries)
        added how.renewal) ≤ most_entries
        → json_of (without_mark text) ≡ Some (renewed_file given
        (map (is_kept how.renewal.prune how.heard file rs) file.entries) added how.renewal)
        → file_of text today ≡ Ok (renumbered (file_adding how file rs added)) }
{}
