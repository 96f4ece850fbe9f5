//! The hits that are accepted.
ghost use Rattle.std.specs.Prelude.{◌≡◌, ◌≤◌, ◌+◌, ◌++◌, ◌∷◌, [], ◌&&◌, false, not, if◌then◌else◌, length, map, Some, IfOk, OnOk};
ghost use Rattle.sarif_entries.specs.File.{File};
ghost use Rattle.sarif_results.specs.Drafts.{applied_of};
ghost use Rattle.sarif_accept.specs.Adding.{accepted_among, is_hit, may_hit, stays};
ghost use Rattle.sarif_accept.specs.Choosing.{accepted_by};

use sarif_model::{Record, State};
use sarif_options::Policy;
use sarif_results::Draft;
use std::alloc::{AllocError, Global};

/// Whether a current result is a hit.
pub(crate) fn is_hit(policy: Policy, record: &Record, draft: &Draft, state: State) -> bool
    ensures { (file : File) → draft.now.applied ≡ applied_of file «record».now
        → result ≡ is_hit (may_hit policy) file «record».now state }
{
    policy.counts(state, record.level) && !draft.applied.suppressed
}

/// Whether a hit has suppressions, so that it stays a hit, regardless of what is accepted.
pub(crate) fn has_suppressions(record: &Record, draft: &Draft) -> bool
    ensures { (file : File) → draft.now.applied ≡ applied_of file «record».now
        → draft.now.applied.suppressed ≡ false → result ≡ stays file «record».now }
{
    !record.held.as_slice().is_empty() || !draft.applied.entries.as_slice().is_empty()
}

/// Adds a result that is accepted: a hit without suppressions.
fn push_accepted<'m>(
    accepted: &mut Vec<&'m Record>,
    policy: Policy,
    record: &'m Record,
    draft: &Draft,
    state: State,
) -> Result<(), AllocError>
    ensures few { OnOk result (length accepted.new.items ≤ length accepted.old.items + 1) }
    ensures pushed { OnOk result ((file : File) → draft.now.applied ≡ applied_of file «record».now
        → map (λ r. r.now) accepted.new.items
        ≡ (if is_hit (may_hit policy) file «record».now state && not (stays file «record».now)
        then map (λ r. r.now) accepted.old.items ++ «record».now ∷ []
        else map (λ r. r.now) accepted.old.items)) }
{
    if is_hit(policy, record, draft, state) && !has_suppressions(record, draft) {
        accepted.push(record)?;
    }
    Ok(())
}

/// The hits among these results that are accepted: those without suppressions, in order.
pub(crate) fn accepted_among<'m>(
    alloc: Global,
    policy: Policy,
    records: &'m [Record],
    drafts: &[Draft],
    states: &[State],
) -> Result<Vec<&'m Record>, AllocError>
    requires drafts { length drafts.now ≡ length records.now }
    requires states { length states.now ≡ length records.now }
    ensures accepted { (file : File)
        → map (λ draft. draft.applied) drafts.now ≡ map (applied_of file) records.now
        → IfOk result (λ accepted. map (λ r. r.now) accepted.items
        ≡ accepted_among (may_hit policy) file records.now states.now) }
    ensures few { IfOk result (λ accepted. length accepted.items ≤ length records.now) }
{
    let mut accepted = Vec::new(alloc);
    for (number, record) in records.iter().enumerate() {
        push_accepted(
            &mut accepted,
            policy,
            record,
            &drafts[number],
            states[number],
        )?;
    }
    Ok(accepted)
}

/// Adds a result that is marked and accepted.
fn push_if_marked<'m>(
    accepted: &mut Vec<&'m Record>,
    policy: Policy,
    is_marked: bool,
    record: &'m Record,
    draft: &Draft,
    state: State,
) -> Result<(), AllocError>
    ensures few { OnOk result (length accepted.new.items ≤ length accepted.old.items + 1) }
    ensures pushed { OnOk result ((file : File) → draft.now.applied ≡ applied_of file «record».now
        → map (λ r. r.now) accepted.new.items
        ≡ (if is_marked then (if is_hit (may_hit policy) file «record».now state
        && not (stays file «record».now)
        then map (λ r. r.now) accepted.old.items ++ «record».now ∷ []
        else map (λ r. r.now) accepted.old.items)
        else map (λ r. r.now) accepted.old.items)) }
{
    if is_marked {
        push_accepted(accepted, policy, record, draft, state)?;
    }
    Ok(())
}

/// The hits among the marked ones of these results that are accepted, in order.
pub(crate) fn accepted_marked<'m>(
    alloc: Global,
    policy: Policy,
    records: &'m [Record],
    drafts: &[Draft],
    states: &[State],
    marks: &[bool],
) -> Result<Vec<&'m Record>, AllocError>
    requires drafts { length drafts.now ≡ length records.now }
    requires states { length states.now ≡ length records.now }
    requires marks { length marks.now ≡ length records.now }
    ensures accepted { (file : File)
        → map (λ draft. draft.applied) drafts.now ≡ map (applied_of file) records.now
        → IfOk result (λ accepted. map (λ r. r.now) accepted.items
        ≡ accepted_by (Some marks.now) (may_hit policy) file records.now states.now) }
    ensures few { IfOk result (λ accepted. length accepted.items ≤ length records.now) }
{
    let mut accepted = Vec::new(alloc);
    for (number, record) in records.iter().enumerate() {
        push_if_marked(
            &mut accepted,
            policy,
            marks[number],
            record,
            &drafts[number],
            states[number],
        )?;
    }
    Ok(accepted)
}
