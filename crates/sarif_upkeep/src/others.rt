//! The hits that aren't accepted: those that are alike, and the others.
ghost use Rattle.std.specs.Prelude.{◌≡◌, ◌≤◌, ◌+◌, length, map, IfOk, IfSome};
ghost use Rattle.std.specs.List.{list_any};
ghost use Rattle.sarif_counts.specs.Hits.{count_if};
ghost use Rattle.sarif_entries.specs.File.{File};
ghost use Rattle.sarif_entries.specs.Matching.{matches};
ghost use Rattle.sarif_results.specs.Drafts.{applied_of};
ghost use Rattle.sarif_accept.specs.Adding.{may_hit};
ghost use Rattle.sarif_accept.specs.Choosing.{alike_among, is_alike, is_other, others_among};
ghost use Rattle.sarif_upkeep.specs.Internal.Hiding.{lent};
ghost use Rattle.sarif_upkeep.specs.Merge.{shown_by};

use crate::accepting::{has_suppressions, is_hit};
use crate::hiding::is_hidden;
use sarif_model::{Record, State};
use sarif_options::Policy;
use sarif_results::Draft;
use sarif_suppress::Suppressions;
use std::alloc::{AllocError, Global};

/// By which policy results are hits, which results are hidden, and the file of the added entries alone.
#[derive(Clone, Copy)]
pub(crate) struct Counting<'m> {
    pub(crate) policy: Policy,
    pub(crate) hidden: Option<&'m [bool]>,
    pub(crate) added: &'m Suppressions,
}

/// How many hits aren't chosen and are accepted all the same, and how many are neither accepted nor alike.
#[derive(Clone, Copy)]
pub(crate) struct Others {
    pub(crate) alike: usize,
    pub(crate) left: usize,
}

/// Whether one of the added entries matches the result.
fn is_met(alloc: Global, added: &Suppressions, record: &Record) -> Result<bool, AllocError>
    ensures { IfOk result (λ met. met
        ≡ list_any (λ e. matches added.now.today e «record».now) added.now.entries) }
{
    let applied = added.apply(alloc, record)?;
    Ok(!applied.entries.as_slice().is_empty())
}

/// Which of the two this result is, if it is one of them.
fn count_one(
    alloc: Global,
    counting: &Counting<'_>,
    is_chosen: bool,
    record: &Record,
    draft: &Draft,
    state: State,
) -> Result<Others, AllocError>
    ensures alike { (file : File) → draft.now.applied ≡ applied_of file «record».now
        → file.today ≡ counting.now.added.now.today
        → IfOk result (λ others. others.alike ≡ count_if (is_alike (may_hit counting.now.policy)
        file counting.now.added.now.entries is_chosen «record».now state) 1) }
    ensures left { (file : File) → draft.now.applied ≡ applied_of file «record».now
        → file.today ≡ counting.now.added.now.today
        → IfOk result (λ others. others.left ≡ count_if (is_other (may_hit counting.now.policy)
        file counting.now.added.now.entries is_chosen «record».now state) 1) }
    ensures few { IfOk result (λ others. others.alike + others.left ≤ 1) }
{
    if !is_hit(counting.policy, record, draft, state) {
        return Ok(Others { alike: 0, left: 0 });
    }
    if has_suppressions(record, draft) {
        return Ok(Others { alike: 0, left: 1 });
    }
    if is_chosen {
        return Ok(Others { alike: 0, left: 0 });
    }
    let is_alike = is_met(alloc, counting.added, record)?;
    if is_alike {
        Ok(Others { alike: 1, left: 0 })
    } else {
        Ok(Others { alike: 0, left: 1 })
    }
}

/// Counts the hits that aren't accepted, among those of these results that aren't hidden, by the marks of those that
/// are chosen.
pub(crate) fn count_others(
    alloc: Global,
    counting: &Counting<'_>,
    records: &[Record],
    drafts: &[Draft],
    states: &[State],
    marks: &[bool],
) -> Result<Others, AllocError>
    requires drafts { length drafts.now ≡ length records.now }
    requires states { length states.now ≡ length records.now }
    requires marks { length marks.now ≡ length records.now }
    requires hidden { IfSome (lent counting.now.hidden)
        (λ hidden. length hidden ≡ length records.now) }
    ensures alike { (file : File)
        → map (λ draft. draft.applied) drafts.now ≡ map (applied_of file) records.now
        → file.today ≡ counting.now.added.now.today
        → IfOk result (λ others. others.alike ≡ length (alike_among (may_hit counting.now.policy)
        file counting.now.added.now.entries (shown_by (lent counting.now.hidden) marks.now)
        (shown_by (lent counting.now.hidden) records.now)
        (shown_by (lent counting.now.hidden) states.now))) }
    ensures left { (file : File)
        → map (λ draft. draft.applied) drafts.now ≡ map (applied_of file) records.now
        → file.today ≡ counting.now.added.now.today
        → IfOk result (λ others. others.left ≡ length (others_among (may_hit counting.now.policy)
        file counting.now.added.now.entries (shown_by (lent counting.now.hidden) marks.now)
        (shown_by (lent counting.now.hidden) records.now)
        (shown_by (lent counting.now.hidden) states.now))) }
    ensures few { IfOk result (λ others. others.alike + others.left ≤ length records.now) }
{
    let mut alike = 0;
    let mut left = 0;
    for (number, record) in records.iter().enumerate() {
        if is_hidden(counting.hidden, number) {
            continue;
        }
        let more = count_one(
            alloc,
            counting,
            marks[number],
            record,
            &drafts[number],
            states[number],
        )?;
        alike += more.alike;
        left += more.left;
    }
    Ok(Others { alike, left })
}
