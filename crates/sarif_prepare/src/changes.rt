//! What entries with `max` change for the results that they admit.
ghost use Rattle.std.specs.Prelude.{◌≡◌, ◌++◌, IfOk, length};
ghost use Rattle.sarif_once.specs.Once.{marked};
ghost use Rattle.sarif_prepare.specs.Internal.Limiting.{put_draft, put_drafts, put_admitted};
ghost use Rattle.sarif_suppress.specs.Limited.{with_admitted};
ghost use Rattle.sarif_read.specs.Unmarked.{unmarked};

use sarif_model::{Record, Sequence};
use sarif_results::Draft;
use std::alloc::{AllocError, Global};

/// What changes for current results that entries with `max` admit. Both lists are empty if no entry has a `max`.
#[derive(Drop)]
pub(crate) struct Changes {
    /// For each result the numbers of these entries.
    pub(crate) admitted: Vec<Sequence<u32>>,
    /// For each result its draft with these entries, if there are some.
    pub(crate) drafts: Vec<Option<Draft>>,
}

/// The record of a result that the entries with these numbers admit.
fn change_record(record: Record, numbers: Sequence<u32>) -> Record
    ensures { result ≡ with_admitted «record» numbers }
{
    let mut record = record;
    record.admitted = numbers;
    record
}

/// The records of results with the numbers of the entries that admit them.
pub(crate) fn change_records(
    alloc: Global,
    records: Vec<Record>,
    admitted: Vec<Sequence<u32>>,
) -> Result<Vec<Record>, AllocError>
    ensures { IfOk result (λ changed. changed.items ≡ put_admitted records.items admitted.items) }
{
    let mut changed = Vec::with_capacity(alloc, records.len())?;
    let mut admitted = admitted.into_iter();
    for record in records {
        match admitted.next() {
            Some(numbers) => changed.push(change_record(record, numbers))?,
            None => changed.push(record)?,
        }
    }
    Ok(changed)
}

/// The draft of a result, or the one that is made again.
fn change_draft(draft: Draft, again: Option<Draft>) -> Draft
    ensures { result ≡ put_draft draft again }
{
    match again {
        Some(again) => again,
        None => draft,
    }
}

/// The drafts of results, where those that are made again replace the others.
pub(crate) fn change_drafts(
    alloc: Global,
    drafts: Vec<Draft>,
    again: Vec<Option<Draft>>,
) -> Result<Vec<Draft>, AllocError>
    ensures { IfOk result (λ changed. changed.items ≡ put_drafts drafts.items again.items) }
{
    let mut changed = Vec::with_capacity(alloc, drafts.len())?;
    let mut again = again.into_iter();
    for draft in drafts {
        match again.next() {
            Some(again) => changed.push(change_draft(draft, again))?,
            None => changed.push(draft)?,
        }
    }
    Ok(changed)
}

/// The drafts of findings and those of copies, where they are made again.
#[derive(Drop)]
pub(crate) struct SplitDrafts {
    pub(crate) findings: Vec<Option<Draft>>,
    pub(crate) copies: Vec<Option<Draft>>,
}

/// The drafts of findings and those of copies, apart: `copies` says which results are copies.
pub(crate) fn split_drafts(
    alloc: Global,
    drafts: Vec<Option<Draft>>,
    copies: &[bool],
) -> Result<SplitDrafts, AllocError>
    requires { length drafts.items ≡ length copies.now }
    ensures findings { IfOk result
        (λ split. split.findings.items ≡ unmarked copies.now drafts.items) }
    ensures copies { IfOk result (λ split. split.copies.items ≡ marked copies.now drafts.items) }
{
    let mut split = SplitDrafts {
        findings: Vec::new(alloc),
        copies: Vec::new(alloc),
    };
    let mut drafts = drafts.into_iter();
    for is_copy in copies {
        if let Some(draft) = drafts.next() {
            if *is_copy {
                split.copies.push(draft)?;
            } else {
                split.findings.push(draft)?;
            }
        }
    }
    Ok(split)
}
