//! Laws of the next merge of the same results with the new file, in which limits count again, each the contract of a
//! function that does nothing.
ghost use Rattle.std.specs.Prelude.{◌≡◌, ◌++◌, ◌&&◌, ℕ, List, Option, Ok, Some, true, false, slice_get};
ghost use Rattle.serde_json.specs.Data.{Data};
ghost use Rattle.sarif_model.specs.declared.kinds.State.{State};
ghost use Rattle.sarif_model.specs.declared.record.Record.{Record};
ghost use Rattle.sarif_options.specs.declared.policy.Policy.{Policy};
ghost use Rattle.sarif_entries.specs.declared.condition.ConditionKind.TheVariants as kinds;
ghost use Rattle.sarif_entries.specs.declared.entry.Entry.{Entry};
ghost use Rattle.sarif_entries.specs.Condition.{text_in};
ghost use Rattle.sarif_entries.specs.File.{File};
ghost use Rattle.sarif_entries.specs.Given.{file_or_none};
ghost use Rattle.sarif_entries.specs.Matching.{is_expired, matches};
ghost use Rattle.sarif_suppress.specs.Limited.{limited};
ghost use Rattle.sarif_suppress.specs.Suppressing.{is_suppressed, is_unused, statuses_of, unused_of};
ghost use Rattle.sarif_suppress.specs.Written.{suppressions_of};
ghost use Rattle.sarif_accept.specs.Adding.{How, is_hit, may_hit, stays};
ghost use Rattle.sarif_accept.specs.Choosing.{entries_read, file_adding, is_left};
ghost use Rattle.sarif_accept.specs.Until.{IsUntil};
ghost use Rattle.sarif_accept_laws.specs.Next.{after_others, next_adding, next_file};

/// Each entry of the new file, at its place, matches a result after others exactly if it did so before, even if it has
/// a `max`: added entries use up no other. So the result has the same suppressions as with the old limits, with the
/// same statuses, and the same entries are unused.
pub fn the_new_file_counts_limits_alike()
    ensures matches { (how : How) (given : Option (List ℕ)) (today : Option ℕ) (file : File)
        (rs added before : List Record) (r : Record) (n : ℕ) (e later : Entry)
        → file_or_none given today ≡ Ok file
        → slice_get (file_adding how file rs added).entries n ≡ Some e
        → slice_get (next_adding how file rs added).entries n ≡ Some later
        → matches file.today later (after_others (next_adding how file rs added) before r)
        ≡ matches file.today e (after_others file before r) }
    ensures statuses { (how : How) (given : Option (List ℕ)) (today : Option ℕ) (file : File)
        (rs added before : List Record) (r : Record) → file_or_none given today ≡ Ok file
        → statuses_of (next_adding how file rs added)
        (after_others (next_adding how file rs added) before r)
        ≡ statuses_of (file_adding how file rs added) (after_others file before r) }
    ensures suppressions { (how : How) (given : Option (List ℕ)) (today : Option ℕ) (file : File)
        (rs added before : List Record) (r : Record) (own : List Data)
        → file_or_none given today ≡ Ok file
        → suppressions_of own (next_adding how file rs added)
        (after_others (next_adding how file rs added) before r)
        ≡ suppressions_of own (file_adding how file rs added) (after_others file before r) }
    ensures unused { (how : How) (given : Option (List ℕ)) (today : Option ℕ) (file : File)
        (rs added all : List Record) (n : ℕ) (e later : Entry) → file_or_none given today ≡ Ok file
        → slice_get (file_adding how file rs added).entries n ≡ Some e
        → slice_get (next_adding how file rs added).entries n ≡ Some later
        → is_unused (next_adding how file rs added)
        (limited (next_adding how file rs added) all) later
        ≡ is_unused (file_adding how file rs added) (limited file all) e }
    ensures as_many { (how : How) (given : Option (List ℕ)) (today : Option ℕ) (file : File)
        (rs added all : List Record) → file_or_none given today ≡ Ok file
        → unused_of (next_adding how file rs added) (limited (next_adding how file rs added) all)
        ≡ unused_of (file_adding how file rs added) (limited file all) }
{}

/// In the next merge of the same results, each at its place, the hits are exactly those of before that stay, or that no
/// added entry matches. What was suppressed is suppressed, and the list of suppressions of a result begins with what it
/// was.
pub fn the_next_merge_has_the_hits_that_are_left()
    ensures hits { (how : How) (policy : Policy) (given : Option (List ℕ)) (today : Option ℕ)
        (file : File) (rs added : List Record) (i : ℕ) (r later : Record) (state : State)
        → file_or_none given today ≡ Ok file → slice_get (limited file rs) i ≡ Some r
        → slice_get (limited (next_adding how file (limited file rs) added) rs) i ≡ Some later
        → is_hit (may_hit policy) (next_adding how file (limited file rs) added) later state
        ≡ is_left (may_hit policy) file (entries_read how added) r state }
    ensures suppressed { (how : How) (given : Option (List ℕ)) (today : Option ℕ) (file : File)
        (rs added : List Record) (i : ℕ) (r later : Record)
        → file_or_none given today ≡ Ok file → slice_get (limited file rs) i ≡ Some r
        → slice_get (limited (next_adding how file (limited file rs) added) rs) i ≡ Some later
        → is_suppressed file r ≡ true
        → is_suppressed (next_adding how file (limited file rs) added) later ≡ true }
    ensures begins { (how : How) (given : Option (List ℕ)) (today : Option ℕ) (file : File)
        (rs added : List Record) (i : ℕ) (r later : Record) (own : List Data)
        → file_or_none given today ≡ Ok file → slice_get (limited file rs) i ≡ Some r
        → slice_get (limited (next_adding how file (limited file rs) added) rs) i ≡ Some later
        → (rest : List Data)
        × (suppressions_of own (next_adding how file (limited file rs) added) later
        ≡ suppressions_of own file r ++ rest) }
{}

/// The law of accepting: in the next merge of the same results, the hits are exactly those of before that have a
/// suppression which isn't accepted, each at its place, if accepting was requested.
pub fn the_next_merge_has_the_hits_that_stay()
    ensures { (how : How) (policy : Policy) (given : Option (List ℕ)) (today : Option ℕ)
        (file : File) (rs : List Record) (states : List State) (i : ℕ) (r later : Record)
        (state : State)
        → file_or_none given today ≡ Ok file → slice_get (limited file rs) i ≡ Some r
        → slice_get (limited (next_file how policy file rs states) rs) i ≡ Some later
        → slice_get states i ≡ Some state
        → how.renewal.accept ≡ true → IsUntil file.today how.renewal.until
        → is_hit (may_hit policy) (next_file how policy file rs states) later state
        ≡ (is_hit (may_hit policy) file r state && stays file r) }
{}

/// The law of pruning: without accepting, each result has the same suppressions in the next merge of the same results.
/// An entry that is unused there although the file was pruned isn't expired, and its tool wasn't heard.
pub fn the_next_merge_has_the_same_suppressions()
    ensures same { (how : How) (policy : Policy) (given : Option (List ℕ)) (today : Option ℕ)
        (file : File) (rs : List Record) (states : List State) (i : ℕ) (r later : Record)
        (own : List Data)
        → file_or_none given today ≡ Ok file → slice_get (limited file rs) i ≡ Some r
        → slice_get (limited (next_file how policy file rs states) rs) i ≡ Some later
        → how.renewal.accept ≡ false
        → suppressions_of own (next_file how policy file rs states) later
        ≡ suppressions_of own file r }
    ensures unused { (how : How) (policy : Policy) (given : Option (List ℕ)) (today : Option ℕ)
        (file : File) (rs : List Record) (states : List State) (n : ℕ) (e : Entry)
        → file_or_none given today ≡ Ok file
        → slice_get (next_file how policy file rs states).entries n ≡ Some e
        → how.renewal.prune ≡ true → how.renewal.accept ≡ false
        → is_unused (next_file how policy file rs states)
        (limited (next_file how policy file rs states) rs) e ≡ true
        → (is_expired file.today e ≡ false)
        × (how.heard (text_in kinds.Tool e.conditions) ≡ false) }
{}
