//! Laws of accepting and pruning, each the contract of a function that does nothing.
ghost use Rattle.std.specs.Prelude.{◌≡◌, ◌≤◌, ◌<◌, ◌^◌, ◌++◌, ◌∷◌, ◌&&◌, ◌⊎◌, [], ℕ, Bool, List, Option, Ok};
ghost use Rattle.std.specs.Prelude.{Some, true, false, not, length, map, get_or, IfSome};
ghost use Rattle.std.specs.List.{AllByRecursion};
ghost use Rattle.serde_json.specs.Data.{Data, Members};
ghost use Rattle.json_parts.specs.Indexed.{json_of};
ghost use Rattle.json_parts.specs.Mark.{without_mark};
ghost use Rattle.sarif_evidence.specs.declared.version.MatchingVersion.{MatchingVersion};
ghost use Rattle.sarif_evidence.specs.declared.version.MatchingVersion.TheVariants.{Two};
ghost use Rattle.sarif_model.specs.Guid.{guid_of_text};
ghost use Rattle.sarif_model.specs.Limits.{most_entries};
ghost use Rattle.sarif_model.specs.declared.kinds.State.{State};
ghost use Rattle.sarif_model.specs.declared.record.Record.{Record};
ghost use Rattle.sarif_entries.specs.declared.condition.ConditionKind.TheVariants as kinds;
ghost use Rattle.sarif_entries.specs.declared.entry.Entry.{Entry};
ghost use Rattle.sarif_entries.specs.Condition.{text_in};
ghost use Rattle.sarif_entries.specs.Entries.{entry_of};
ghost use Rattle.sarif_entries.specs.File.{File, file_of, file_of_value, looks_at_snippets};
ghost use Rattle.sarif_entries.specs.Matching.{is_empty, is_expired, matches};
ghost use Rattle.sarif_entries.specs.Numbering.{renumbered};
ghost use Rattle.sarif_suppress.specs.Suppressing.{is_suppressed, is_unused, matching_numbers};
ghost use Rattle.sarif_suppress.specs.Written.{suppressions_of};
ghost use Rattle.sarif_accept.specs.Adding.{How, MayBeHit, is_hit, stays, added_for, entry_read, file_after};
ghost use Rattle.sarif_accept.specs.Entry.{entry_for, version_for};
ghost use Rattle.sarif_evidence.specs.Seen.{as_matched};
ghost use Rattle.sarif_entries.specs.Given.{file_or_none};
ghost use Rattle.sarif_accept.specs.Keeping.{Heard, is_kept};
ghost use Rattle.sarif_accept.specs.NewFile.{file_with};
ghost use Rattle.sarif_accept.specs.Renewed.{renewed_entries, renewed_file};
ghost use Rattle.sarif_accept.specs.Until.{HasGuid, IsDated, IsUntil};

/// The entry that accepts a result is read in a file of version 4, or of version 5 if the result has a snippet: on every
/// date, and without an expiry date even if no date is known. On every date up to its expiry date it matches the result,
/// and so does the entry of what a version of matching reads.
#[tactic(auto, using(sarif_accept::proofs::EntryRead::entry_is))]
pub fn an_entry_accepts_its_result()
    ensures read { (r : Record) (reason : Option (List ℕ)) (today until : Option ℕ) (n : ℕ)
        → HasGuid r → IsDated today until
        → entry_of (version_for r) today n (entry_for r reason until)
        ≡ Ok (entry_read r reason until) }
    ensures alone { (r : Record) (reason : Option (List ℕ)) (today until : Option ℕ) (ms : Members)
        → HasGuid r → IsDated today until
        → file_of_value today (file_with (version_for r) (entry_for r reason until ∷ []) ms)
        ≡ Ok (record { entries = entry_read r reason until ∷ []; today = today }) }
    ensures matches { (r : Record) (reason : Option (List ℕ)) (today until : Option ℕ)
        → IsUntil today until → matches today (entry_read r reason until) r ≡ true }
    ensures accepts { (version : MatchingVersion) (r : Record) (reason : Option (List ℕ))
        (today until : Option ℕ) → IsUntil today until
        → matches today (entry_read (as_matched version r) reason until) r ≡ true }
{}

/// A GUID that is read has 128 bits.
#[tactic(auto, using(crate::proofs::GuidFits::guid_fits))]
pub fn guids_have_128_bits()
    ensures { (text : List ℕ) → IfSome (guid_of_text text) (λ guid. guid < 2 ^ 128) }
{}

/// A result that isn't suppressed has a suppression that isn't accepted if and only if it has own suppressions, or
/// an entry matches it.
pub fn a_hit_with_suppressions_stays()
    ensures { (file : File) (r : Record) → is_suppressed file r ≡ false
        → stays file r ≡ not (is_empty r.held && is_empty (matching_numbers file r)) }
{}

/// With the new file, the hits among the current results are exactly those of before that have a suppression which isn't
/// accepted, if accepting was requested.
#[tactic(auto, using(crate::proofs::After::hits_after))]
pub fn accepting_leaves_what_stays()
    ensures { (how : How) (counts : MayBeHit) (file : File) (rs : List Record) (states : List State)
        (r : Record) (state : State) (i : ℕ) → i < length rs → i < length states
        → get_or rs i r ≡ r → get_or states i state ≡ state
        → how.renewal.accept ≡ true → IsUntil file.today how.renewal.until
        → is_hit counts (file_after how counts file rs states) r state
        ≡ (is_hit counts file r state && stays file r) }
{}

/// With the new file, a current result that was suppressed is suppressed, and its list of suppressions begins with what it
/// was, pruned or not.
#[tactic(auto, using(crate::proofs::After::still_suppressed, crate::proofs::After::list_begins))]
pub fn a_new_file_keeps_suppressions()
    ensures suppressed { (how : How) (counts : MayBeHit) (file : File) (rs : List Record)
        (states : List State) (r : Record) (i : ℕ) → i < length rs → get_or rs i r ≡ r
        → is_suppressed file r ≡ true
        → is_suppressed (file_after how counts file rs states) r ≡ true }
    ensures begins { (how : How) (counts : MayBeHit) (file : File) (rs : List Record)
        (states : List State) (r : Record) (i : ℕ) (own : List Data)
        → i < length rs → get_or rs i r ≡ r
        → (rest : List Data) × (suppressions_of own (file_after how counts file rs states) r
        ≡ suppressions_of own file r ++ rest) }
{}

/// Without accepting, the new file adds the same suppressions to each current result as the old one. An entry that pruning
/// keeps although it matches no current result isn't expired, and its tool wasn't heard. The other way round, pruning keeps
/// each entry that isn't expired if it matches a current result, or if its tool wasn't heard. Without pruning each entry is
/// kept.
#[tactic(auto, using(crate::proofs::After::same_list, crate::proofs::After::unused_stays, crate::proofs::After::unexpired_stays))]
pub fn pruning_changes_no_result()
    ensures same { (how : How) (counts : MayBeHit) (file : File) (rs : List Record)
        (states : List State) (r : Record) (i : ℕ) (own : List Data)
        → i < length rs → get_or rs i r ≡ r → how.renewal.accept ≡ false
        → suppressions_of own (file_after how counts file rs states) r
        ≡ suppressions_of own file r }
    ensures unused { (heard : Heard) (file : File) (rs : List Record) (e : Entry)
        → is_kept true heard file rs e ≡ true → is_unused file rs e ≡ true
        → (is_expired file.today e ≡ false) × (heard (text_in kinds.Tool e.conditions) ≡ false) }
    ensures kept { (heard : Heard) (file : File) (rs : List Record) (e : Entry)
        → is_expired file.today e ≡ false
        → (is_unused file rs e ≡ false) ⊎ (heard (text_in kinds.Tool e.conditions) ≡ false)
        → is_kept true heard file rs e ≡ true }
    ensures unpruned { (heard : Heard) (file : File) (rs : List Record) (e : Entry)
        → is_kept false heard file rs e ≡ true }
{}

/// Accepting in version 2 of matching adds no entry that names a snippet: the new file may name snippets if and only if
/// the old one may.
#[tactic(auto, using(crate::proofs::SameVersion::same_version))]
pub fn version_2_accepts_no_snippet()
    ensures { (how : How) (counts : MayBeHit) (given : Option (List ℕ)) (file : File)
        (rs : List Record) (states : List State) (kept : List Bool) (text : List ℕ)
        → how.matching ≡ Two
        → json_of (without_mark text) ≡ Some (renewed_file given kept
        (added_for how counts file rs states) how.renewal)
        → looks_at_snippets (Some text) ≡ looks_at_snippets given }
{}

/// The new file of one that was read is read for the same date: its entries are those that were kept, and then those
/// that accept results. Their limits have the numbers of their new positions.
#[tactic(auto, using(crate::proofs::NewFileRead::new_file_read))]
pub fn the_new_file_is_read()
    ensures { (how : How) (counts : MayBeHit) (given : Option (List ℕ)) (today : Option ℕ)
        (file : File) (rs : List Record) (states : List State) (text : List ℕ)
        → file_or_none given today ≡ Ok file
        → AllByRecursion HasGuid (added_for how counts file rs states)
        → IsDated today how.renewal.until
        → length (renewed_entries given
        (map (is_kept how.renewal.prune how.heard file rs) file.entries)
        (added_for how counts file rs states) how.renewal) ≤ most_entries
        → json_of (without_mark text) ≡ Some (renewed_file given
        (map (is_kept how.renewal.prune how.heard file rs) file.entries)
        (added_for how counts file rs states) how.renewal)
        → file_of text today ≡ Ok (renumbered (file_after how counts file rs states)) }
{}
